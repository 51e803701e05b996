// Writes the residue of a stored node: what is left of it where only the newest letter is open.
#![tactic(auto)]

ghost use Rattle.std.specs.Prelude.{◌≡◌, cond, ◌-◌, ◌/◌, ◌≤◌, ◌<◌, length, get_or};
ghost use Rattle.meaning.specs.Value.{nonzero};
ghost use Rattle.nodes.specs.Bounded.{bounded};
ghost use Rattle.nodes.specs.Postfix.{node};
ghost use Rattle.nodes.specs.Evaluate.{stored, view, numbered, negated_result};
ghost use Rattle.arithmetic.specs.Coded.{coded};
ghost use Rattle.residue.specs.Residue.{residue_before, node_residue};
ghost use Rattle.write_residue.specs.Wrote.{Appended, varying_at, Wrote, WroteKnown, NegatesLast, OperatesLast, PassesNegations, IsAsked, MovesTo};

use arithmetic::{apply_coded, bounded_coded, in_bound, no_value_coded, nonzero};
use evaluate::{evaluate, negated, numbered};
use nodes::left_end;

// What was written of a residue: whether its value is known, then the number of that value, and the place behind its nodes; 1025 where there was no
// room for them. A value that is known is written too, as one node.
#[derive(Clone, Copy)]
pub struct WrittenResidue {
    pub known: bool,
    pub value: i64,
    pub end: usize,
}

// What is known before the newest letter: how many streams a letter has, how many letters there are, and whether they are a whole record.
#[derive(Clone, Copy)]
struct Older {
    streams: usize,
    letters: usize,
    whole: bool,
}

// A part, by where it ends, the place at which its residue is asked for, and the place from which on its nodes are written.
#[derive(Clone, Copy)]
struct Part {
    end: usize,
    place: usize,
    at: usize,
}

// Where a node leads that only changes the place: to a value that is known, or to a part, by where it ends, and a place.
#[derive(Clone, Copy)]
enum Moved {
    Known(i64),
    To { end: usize, place: usize },
}

// Writes one node at the place `end`, behind the nodes of its parts, which start at `start`; answers the place behind it.
fn append(
    new_kinds: &mut [u8; 1024],
    new_values: &mut [i64; 1024],
    new_starts: &mut [u16; 1024],
    end: usize,
    start: usize,
    kind: u8,
    value: i64,
) -> usize
    requires { start ≤ end }
    ensures { Appended (stored new_kinds.old new_values.old new_starts.old) (stored new_kinds.new new_values.new new_starts.new) end (node kind value start) result }
{
    // The proof learns how many elements an array has where a slice is made of it. These three are only for that and take no time.
    let kind_list: &[u8] = new_kinds;
    let value_list: &[i64] = new_values;
    let start_list: &[u16] = new_starts;
    if 1024 <= end {
        return 1025;
    }
    new_kinds[end] = kind;
    new_values[end] = value;
    new_starts[end] = start as u16;
    end + 1
}

// Writes a value that is known as an integer.
fn write_known(
    new_kinds: &mut [u8; 1024],
    new_values: &mut [i64; 1024],
    new_starts: &mut [u16; 1024],
    at: usize,
    value: i64,
) -> WrittenResidue
    ensures { WroteKnown (stored new_kinds.old new_values.old new_starts.old) (stored new_kinds.new new_values.new new_starts.new) at value result }
{
    let end = append(
        new_kinds,
        new_values,
        new_starts,
        at,
        at,
        nodes::INTEGER_NODE,
        value,
    );
    WrittenResidue {
        known: true,
        value,
        end,
    }
}

// The answer for nodes that read the letter and end before `end`.
fn varying(end: usize) -> WrittenResidue
    ensures { result ≡ varying_at end }
{
    WrittenResidue {
        known: false,
        value: no_value_coded(),
        end,
    }
}

// Negates what was written from the place `at` on.
fn negate_last(
    new_kinds: &mut [u8; 1024],
    new_values: &mut [i64; 1024],
    new_starts: &mut [u16; 1024],
    at: usize,
    inner: WrittenResidue,
) -> WrittenResidue
    requires { at ≤ inner.end }
    ensures { NegatesLast (stored new_kinds.old new_values.old new_starts.old) (stored new_kinds.new new_values.new new_starts.new) at inner result }
{
    if inner.known {
        let value = negated(inner.value);
        return write_known(new_kinds, new_values, new_starts, at, value);
    }
    varying(append(
        new_kinds,
        new_values,
        new_starts,
        inner.end,
        at,
        nodes::NEGATION_NODE,
        0,
    ))
}

// Applies an operator to its operands, which were written one behind the other from the place `at` on.
fn operate_last(
    new_kinds: &mut [u8; 1024],
    new_values: &mut [i64; 1024],
    new_starts: &mut [u16; 1024],
    kind: u8,
    at: usize,
    left: WrittenResidue,
    right: WrittenResidue,
) -> WrittenResidue
    requires { at ≤ right.end }
    ensures { OperatesLast (stored new_kinds.old new_values.old new_starts.old) (stored new_kinds.new new_values.new new_starts.new) kind at left right result }
{
    if left.known && right.known {
        let value = apply_coded(kind, left.value, right.value);
        return write_known(new_kinds, new_values, new_starts, at, value);
    }
    varying(append(new_kinds, new_values, new_starts, right.end, at, kind, 0))
}

// The residue of an integer or a name.
fn write_leaf(
    kinds: &[u8; 1024],
    values: &[i64; 1024],
    starts: &[u16; 1024],
    window: &[i64],
    firsts: &[i64],
    new_kinds: &mut [u8; 1024],
    new_values: &mut [i64; 1024],
    new_starts: &mut [u16; 1024],
    older: Older,
    part: Part,
) -> WrittenResidue
    requires asked { IsAsked (view window.now older.streams firsts.now older.whole) older.letters part.end part.at }
    requires end_nonzero { (0 < part.end) × (get_or kinds.now (part.end - 1) 0 ≤ 1) }
    ensures { Wrote (stored new_kinds.old new_values.old new_starts.old) (stored new_kinds.new new_values.new new_starts.new) part.at (residue_before (stored kinds.now values.now starts.now) (view window.now older.streams firsts.now older.whole) older.letters part.end part.place) result }
{
    let at = part.at;
    let i = part.end - 1;
    let number = values[i];
    if kinds[i] == nodes::INTEGER_NODE {
        return write_known(new_kinds, new_values, new_starts, at, bounded_coded(number));
    }
    if part.place < older.letters {
        // The proof learns how many elements an array has where a slice is made of it. These three are only for that and take no time.
        let kind_list: &[u8] = kinds;
        let value_list: &[i64] = values;
        let start_list: &[u16] = starts;
        let value = evaluate(
            kinds,
            values,
            starts,
            i,
            window,
            older.streams,
            firsts,
            part.place,
            older.whole,
        );
        return write_known(new_kinds, new_values, new_starts, at, value);
    }
    varying(append(
        new_kinds,
        new_values,
        new_starts,
        at,
        at,
        nodes::NAME_NODE,
        number,
    ))
}

// Where a `first`, a `next` or a `fby` leads.
fn led_to(
    kinds: &[u8; 1024],
    values: &[i64; 1024],
    starts: &[u16; 1024],
    firsts: &[i64],
    older: Older,
    end: usize,
    place: usize,
) -> Moved
    requires end_nonzero { (0 < end) × (end ≤ 1024) × (2 ≤ get_or kinds.now (end - 1) 0) × (get_or kinds.now (end - 1) 0 < 7) }
    requires fact { (get_or kinds.now (end - 1) 0 ≡ 4 → ⊥) × (get_or kinds.now (end - 1) 0 ≡ 5 → ⊥) }
    ensures { MovesTo (stored kinds.now values.now starts.now) older.streams firsts.now older.whole older.letters end place result }
{
    let i = end - 1;
    match kinds[i] {
        nodes::FIRST_NODE if older.whole => Moved::To { end: i, place: 0 },
        nodes::FIRST_NODE => Moved::Known(numbered(firsts, values[i])),
        nodes::NEXT_NODE if place < older.letters => Moved::To {
            end: i,
            place: place + 1,
        },
        nodes::NEXT_NODE => Moved::Known(no_value_coded()),
        _ if place != 0 => Moved::To {
            end: i,
            place: place - 1,
        },
        _ if older.whole => Moved::To {
            end: left_end(starts, i),
            place: 0,
        },
        _ => Moved::Known(0),
    }
}

// The part that is reached over the `not`s that end before `end`, one before the other: by loops, since a line may have a thousand of them, and each
// call of the recursion takes room of the caller's stack.
fn past_negations(kinds: &[u8; 1024], end: usize) -> usize
    requires { end ≤ 1024 }
    ensures { PassesNegations kinds.now end result }
{
    for i in (0..end).rev() {
        if kinds[i] != nodes::NEGATION_NODE {
            return i + 1;
        }
    }
    0
}

// `not`s, one before the other: behind what is written of the part that they stand before, one node for each.
#[cycle(write_before_write_conditional_write_moved_write_negations_write_operator)]
fn write_negations(
    kinds: &[u8; 1024],
    values: &[i64; 1024],
    starts: &[u16; 1024],
    window: &[i64],
    firsts: &[i64],
    new_kinds: &mut [u8; 1024],
    new_values: &mut [i64; 1024],
    new_starts: &mut [u16; 1024],
    older: Older,
    part: Part,
) -> WrittenResidue
    requires asked { IsAsked (view window.now older.streams firsts.now older.whole) older.letters part.end part.at }
    requires end_nonzero { (0 < part.end) × (get_or kinds.now (part.end - 1) 0 ≡ 4) }
    ensures { Wrote (stored new_kinds.old new_values.old new_starts.old) (stored new_kinds.new new_values.new new_starts.new) part.at (residue_before (stored kinds.now values.now starts.now) (view window.now older.streams firsts.now older.whole) older.letters part.end part.place) result }
{
    let end = part.end;
    let place = part.place;
    let at = part.at;
    let inner = past_negations(kinds, end - 1);
    let mut last = write_before(
        kinds,
        values,
        starts,
        window,
        firsts,
        new_kinds,
        new_values,
        new_starts,
        older,
        Part {
            end: inner,
            place,
            at,
        },
    );
    for _passed in inner..end {
        last = negate_last(new_kinds, new_values, new_starts, at, last);
    }
    last
}

// A node that only changes the place.
#[cycle(write_before_write_conditional_write_moved_write_negations_write_operator)]
fn write_moved(
    kinds: &[u8; 1024],
    values: &[i64; 1024],
    starts: &[u16; 1024],
    window: &[i64],
    firsts: &[i64],
    new_kinds: &mut [u8; 1024],
    new_values: &mut [i64; 1024],
    new_starts: &mut [u16; 1024],
    older: Older,
    part: Part,
) -> WrittenResidue
    requires asked { IsAsked (view window.now older.streams firsts.now older.whole) older.letters part.end part.at }
    requires end_nonzero { (0 < part.end) × (2 ≤ get_or kinds.now (part.end - 1) 0) × (get_or kinds.now (part.end - 1) 0 < 7) }
    requires fact { (get_or kinds.now (part.end - 1) 0 ≡ 4 → ⊥) × (get_or kinds.now (part.end - 1) 0 ≡ 5 → ⊥) }
    ensures { Wrote (stored new_kinds.old new_values.old new_starts.old) (stored new_kinds.new new_values.new new_starts.new) part.at (residue_before (stored kinds.now values.now starts.now) (view window.now older.streams firsts.now older.whole) older.letters part.end part.place) result }
{
    let at = part.at;
    match led_to(kinds, values, starts, firsts, older, part.end, part.place) {
        Moved::Known(value) => write_known(new_kinds, new_values, new_starts, at, value),
        Moved::To { end, place } => write_before(
            kinds,
            values,
            starts,
            window,
            firsts,
            new_kinds,
            new_values,
            new_starts,
            older,
            Part { end, place, at },
        ),
    }
}

// Where the branch ends that a condition takes.
fn taken(test: i64, then: usize, other: usize) -> usize
    ensures { result ≡ cond (nonzero test) «then» other }
{
    if nonzero(test) { then } else { other }
}

// An `if`: a condition that is known leaves the branch that it takes, and one without value leaves none.
#[cycle(write_before_write_conditional_write_moved_write_negations_write_operator)]
fn write_conditional(
    kinds: &[u8; 1024],
    values: &[i64; 1024],
    starts: &[u16; 1024],
    window: &[i64],
    firsts: &[i64],
    new_kinds: &mut [u8; 1024],
    new_values: &mut [i64; 1024],
    new_starts: &mut [u16; 1024],
    older: Older,
    part: Part,
) -> WrittenResidue
    requires asked { IsAsked (view window.now older.streams firsts.now older.whole) older.letters part.end part.at }
    requires end_nonzero { (0 < part.end) × (get_or kinds.now (part.end - 1) 0 ≡ 5) }
    ensures { Wrote (stored new_kinds.old new_values.old new_starts.old) (stored new_kinds.new new_values.new new_starts.new) part.at (residue_before (stored kinds.now values.now starts.now) (view window.now older.streams firsts.now older.whole) older.letters part.end part.place) result }
{
    let place = part.place;
    let at = part.at;
    let right = part.end - 1;
    let middle = left_end(starts, right);
    let left = left_end(starts, middle);
    let test = write_before(
        kinds,
        values,
        starts,
        window,
        firsts,
        new_kinds,
        new_values,
        new_starts,
        older,
        Part {
            end: left,
            place,
            at,
        },
    );
    if test.known {
        if !in_bound(test.value) {
            return test;
        }
        let branch = taken(test.value, middle, right);
        return write_before(
            kinds,
            values,
            starts,
            window,
            firsts,
            new_kinds,
            new_values,
            new_starts,
            older,
            Part {
                end: branch,
                place,
                at: at,
            },
        );
    }
    let then = write_before(
        kinds,
        values,
        starts,
        window,
        firsts,
        new_kinds,
        new_values,
        new_starts,
        older,
        Part {
            end: middle,
            place,
            at: test.end,
        },
    );
    let other = write_before(
        kinds,
        values,
        starts,
        window,
        firsts,
        new_kinds,
        new_values,
        new_starts,
        older,
        Part {
            end: right,
            place,
            at: then.end,
        },
    );
    varying(append(
        new_kinds,
        new_values,
        new_starts,
        other.end,
        at,
        nodes::CONDITIONAL_NODE,
        0,
    ))
}

// An operator: applied where both operands are known.
#[cycle(write_before_write_conditional_write_moved_write_negations_write_operator)]
fn write_operator(
    kinds: &[u8; 1024],
    values: &[i64; 1024],
    starts: &[u16; 1024],
    window: &[i64],
    firsts: &[i64],
    new_kinds: &mut [u8; 1024],
    new_values: &mut [i64; 1024],
    new_starts: &mut [u16; 1024],
    older: Older,
    part: Part,
) -> WrittenResidue
    requires asked { IsAsked (view window.now older.streams firsts.now older.whole) older.letters part.end part.at }
    requires end_nonzero { (0 < part.end) × (7 ≤ get_or kinds.now (part.end - 1) 0) }
    ensures { Wrote (stored new_kinds.old new_values.old new_starts.old) (stored new_kinds.new new_values.new new_starts.new) part.at (residue_before (stored kinds.now values.now starts.now) (view window.now older.streams firsts.now older.whole) older.letters part.end part.place) result }
{
    let place = part.place;
    let at = part.at;
    let right = part.end - 1;
    let kind = kinds[right];
    let left = left_end(starts, right);
    let a = write_before(
        kinds,
        values,
        starts,
        window,
        firsts,
        new_kinds,
        new_values,
        new_starts,
        older,
        Part {
            end: left,
            place,
            at,
        },
    );
    let b = write_before(
        kinds,
        values,
        starts,
        window,
        firsts,
        new_kinds,
        new_values,
        new_starts,
        older,
        Part {
            end: right,
            place,
            at: a.end,
        },
    );
    operate_last(new_kinds, new_values, new_starts, kind, at, a, b)
}

// The residue of a part, by recursion into its parts, which end earlier.
#[cycle(write_before_write_conditional_write_moved_write_negations_write_operator)]
fn write_before(
    kinds: &[u8; 1024],
    values: &[i64; 1024],
    starts: &[u16; 1024],
    window: &[i64],
    firsts: &[i64],
    new_kinds: &mut [u8; 1024],
    new_values: &mut [i64; 1024],
    new_starts: &mut [u16; 1024],
    older: Older,
    part: Part,
) -> WrittenResidue
    requires { IsAsked (view window.now older.streams firsts.now older.whole) older.letters part.end part.at }
    ensures { Wrote (stored new_kinds.old new_values.old new_starts.old) (stored new_kinds.new new_values.new new_starts.new) part.at (residue_before (stored kinds.now values.now starts.now) (view window.now older.streams firsts.now older.whole) older.letters part.end part.place) result }
{
    let end = part.end;
    if end == 0 {
        let at = part.at;
        return write_known(new_kinds, new_values, new_starts, at, no_value_coded());
    }
    let kind = kinds[end - 1];
    if kind <= nodes::NAME_NODE {
        return write_leaf(
            kinds, values, starts, window, firsts, new_kinds, new_values, new_starts, older, part,
        );
    }
    if kind == nodes::CONDITIONAL_NODE {
        return write_conditional(
            kinds, values, starts, window, firsts, new_kinds, new_values, new_starts, older, part,
        );
    }
    if kind == nodes::NEGATION_NODE {
        return write_negations(
            kinds, values, starts, window, firsts, new_kinds, new_values, new_starts, older, part,
        );
    }
    if kind <= nodes::FBY_NODE {
        return write_moved(
            kinds, values, starts, window, firsts, new_kinds, new_values, new_starts, older, part,
        );
    }
    write_operator(
        kinds, values, starts, window, firsts, new_kinds, new_values, new_starts, older, part,
    )
}

// How many whole letters a window has.
fn letter_count(length: usize, streams: usize) -> usize
    ensures { result ≡ length / streams }
{
    if streams == 0 { 0 } else { length / streams }
}

// Writes the residue of the node with the place `root`, at a place of a window whose newest letter is yet to come, from the place `at` on.
pub fn write_residue(
    kinds: &[u8; 1024],
    values: &[i64; 1024],
    starts: &[u16; 1024],
    root: usize,
    window: &[i64],
    streams: usize,
    firsts: &[i64],
    place: usize,
    whole: bool,
    new_kinds: &mut [u8; 1024],
    new_values: &mut [i64; 1024],
    new_starts: &mut [u16; 1024],
    at: usize,
) -> WrittenResidue
    ensures { Wrote (stored new_kinds.old new_values.old new_starts.old) (stored new_kinds.new new_values.new new_starts.new) at (node_residue (stored kinds.now values.now starts.now) (view window.now streams firsts.now whole) (length window.now / streams) root place) result }
{
    // The proof learns how many elements an array has where a slice is made of it. These are only for that and take no time.
    let kind_list: &[u8] = kinds;
    let value_list: &[i64] = values;
    let start_list: &[u16] = starts;
    let new_kind_list: &[u8] = new_kinds;
    let new_value_list: &[i64] = new_values;
    let new_start_list: &[u16] = new_starts;
    let letters = letter_count(window.len(), streams);
    let from = at.min(1025);
    if 1024 <= root {
        return write_known(new_kinds, new_values, new_starts, from, no_value_coded());
    }
    write_before(
        kinds,
        values,
        starts,
        window,
        firsts,
        new_kinds,
        new_values,
        new_starts,
        Older {
            streams,
            letters,
            whole,
        },
        Part {
            end: root + 1,
            place,
            at: from,
        },
    )
}
