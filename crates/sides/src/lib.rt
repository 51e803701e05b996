// The sides of one constraint, judged at one time.
#![tactic(auto)]

ghost use Rattle.std.specs.Prelude.{◌≡◌, ◌||◌};
ghost use Rattle.meaning.specs.Value.{truth};
ghost use Rattle.meaning.specs.Expression.{holds, holds_numbers, implies};
ghost use Rattle.nodes.specs.Bounded.{value_in, stored_value};
ghost use Rattle.nodes.specs.Code.{sign_at};
ghost use Rattle.nodes.specs.Evaluate.{stored, view, node_value};
ghost use Rattle.sides.specs.Mark.{odd};

use arithmetic::{in_bound, nonzero};
use evaluate::evaluate;

// Here a value is given as one number, which is beyond the magnitude bound where there is none.

// "`until` treats none as 0"
fn truth(a: i64) -> bool
    ensures { result ≡ truth (stored_value a) }
{
    in_bound(a) && nonzero(a)
}

fn implied(a: i64, b: i64) -> bool
    ensures { result ≡ holds_numbers implies a b }
{
    !nonzero(a) || nonzero(b)
}

// What a sign asks of two numbers, by its own number.
fn numbers_hold(relation: u8, a: i64, b: i64) -> bool
    ensures { result ≡ holds_numbers (sign_at relation) a b }
{
    match relation {
        nodes::LESS_RELATION => a < b,
        nodes::AT_MOST_RELATION => a <= b,
        nodes::EQUAL_RELATION => a == b,
        nodes::AT_LEAST_RELATION => b <= a,
        nodes::GREATER_RELATION => b < a,
        nodes::DIFFERENT_RELATION => a != b,
        _ => implied(a, b),
    }
}

// What a sign asks of two values: "A comparison or implication with none on either side fails at that time". The numbers are compared first, since most
// letters that are refused are refused by them.
fn sign_holds(relation: u8, a: i64, b: i64) -> bool
    ensures { result ≡ holds (sign_at relation) (stored_value a) (stored_value b) }
{
    numbers_hold(relation, a, b) && in_bound(a) && in_bound(b)
}

// Whether an until is done: it was, or its right side is true; none counts as 0.
pub fn is_done(
    kinds: &[u8; 1024],
    values: &[i64; 1024],
    starts: &[u16; 1024],
    right: usize,
    window: &[i64],
    streams: usize,
    firsts: &[i64],
    place: usize,
    whole: bool,
    marks: u32,
) -> bool
    ensures { result ≡ (odd marks || truth (value_in (node_value (stored kinds.now values.now starts.now) (view window.now streams firsts.now whole) right place))) }
{
    marks % 2 == 1
        || truth(evaluate(
            kinds, values, starts, right, window, streams, firsts, place, whole,
        ))
}

// Whether an until that is done or not is permitted: its left side matters only where it is not done.
pub fn is_permitted(
    kinds: &[u8; 1024],
    values: &[i64; 1024],
    starts: &[u16; 1024],
    left: usize,
    window: &[i64],
    streams: usize,
    firsts: &[i64],
    place: usize,
    whole: bool,
    done: bool,
) -> bool
    ensures { result ≡ (done || truth (value_in (node_value (stored kinds.now values.now starts.now) (view window.now streams firsts.now whole) left place))) }
{
    done || truth(evaluate(
        kinds, values, starts, left, window, streams, firsts, place, whole,
    ))
}

// Whether the sign of a constraint holds between its sides.
pub fn sides_hold(
    kinds: &[u8; 1024],
    values: &[i64; 1024],
    starts: &[u16; 1024],
    relation: u8,
    left: usize,
    right: usize,
    window: &[i64],
    streams: usize,
    firsts: &[i64],
    place: usize,
    whole: bool,
) -> bool
    ensures { result ≡ holds (sign_at relation) (value_in (node_value (stored kinds.now values.now starts.now) (view window.now streams firsts.now whole) left place)) (value_in (node_value (stored kinds.now values.now starts.now) (view window.now streams firsts.now whole) right place)) }
{
    let a = evaluate(
        kinds, values, starts, left, window, streams, firsts, place, whole,
    );
    let b = evaluate(
        kinds, values, starts, right, window, streams, firsts, place, whole,
    );
    sign_holds(relation, a, b)
}
