#![tactic(auto)]

ghost use Rattle.std.specs.Prelude.{◌≡◌, ◌/◌, ◌≤◌, ◌<◌, length};
ghost use Rattle.nodes.specs.Bounded.{bounded};
ghost use Rattle.nodes.specs.Evaluate.{stored, view, places, numbered, stream_evaluated, negated_result, part_value, node_value};
ghost use Rattle.arithmetic.specs.Coded.{coded};
ghost use Rattle.evaluate.specs.Leaf.{is_leaf, leaf_value};
ghost use Rattle.evaluate.specs.Negation.{negated_by, Negates};
ghost use Rattle.evaluate.specs.Ready.{Ready};
ghost use Rattle.evaluate.specs.Shift.{Shifts};

use arithmetic::{apply_coded, bit, bounded_coded, in_bound, no_value_coded, nonzero};
use nodes::left_end;

// A value or no value is answered as one number, which comes back in a register: an `Option<i64>` comes back through memory, and these functions run
// for every letter of every situation.

// The stored value with a number.
pub fn numbered(list: &[i64], number: i64) -> i64
    ensures { result ≡ coded (numbered list.now number) }
{
    if number < 0 {
        return no_value_coded();
    }
    let k = number as usize;
    if k < list.len() {
        bounded_coded(list[k])
    } else {
        no_value_coded()
    }
}

// How many whole letters the window has.
fn places(length: usize, streams: usize) -> usize
    ensures { result ≡ length / streams }
{
    if streams == 0 { 0 } else { length / streams }
}

// The value of the stream with a number at a place of the window.
fn stream_at(window: &[i64], streams: usize, place: usize, number: i64) -> i64
    requires { place < length window.now / streams }
    ensures { result ≡ coded (stream_evaluated window.now streams place number) }
{
    if number < 0 {
        return no_value_coded();
    }
    let k = number as usize;
    if k < streams {
        bounded_coded(window[place * streams + k])
    } else {
        no_value_coded()
    }
}

// The negation of a value that is given as one number.
pub fn negated(a: i64) -> i64
    ensures { result ≡ coded (negated_result (bounded a)) }
{
    if in_bound(a) {
        bit(!nonzero(a))
    } else {
        no_value_coded()
    }
}

// The same, negated a second time where `again` says so.
fn negated_by(again: bool, a: i64) -> i64
    ensures { result ≡ coded (negated_by again (bounded a)) }
{
    let once = negated(a);
    if again { negated(once) } else { once }
}

// Whether the part that ends before `end` has no parts of its own.
fn is_leaf(kinds: &[u8; 1024], end: usize) -> bool
    requires { end ≤ 1024 }
    ensures { result ≡ is_leaf kinds.now end }
{
    end == 0 || kinds[end - 1] <= nodes::NAME_NODE
}

// The value of the leaf that ends before `end`.
fn leaf(
    kinds: &[u8; 1024],
    values: &[i64; 1024],
    window: &[i64],
    streams: usize,
    end: usize,
    place: usize,
) -> i64
    requires { (end ≤ 1024) × (place < length window.now / streams) }
    ensures { result ≡ coded (leaf_value kinds.now values.now window.now streams end place) }
{
    if end == 0 {
        return no_value_coded();
    }
    let i = end - 1;
    if kinds[i] == nodes::INTEGER_NODE {
        bounded_coded(values[i])
    } else {
        stream_at(window, streams, place, values[i])
    }
}

// A part, by where it ends, and a place at which its value is asked for.
#[derive(Clone, Copy)]
struct Part {
    end: usize,
    place: usize,
}

// The part and the place that `next`s and the right sides of `fby`s lead to, one after the other: the value is the same there. `count` is the
// number of the window's letters.
fn shifted(kinds: &[u8; 1024], count: usize, end: usize, place: usize) -> Part
    requires { (end ≤ 1024) × (place < count) }
    ensures { Shifts kinds.now count end place result.end result.place }
{
    let mut at = place;
    for i in (0..end).rev() {
        match kinds[i] {
            nodes::NEXT_NODE if at + 1 < count => at += 1,
            nodes::FBY_NODE if at != 0 => at -= 1,
            _ => {
                return Part {
                    end: i + 1,
                    place: at,
                };
            }
        }
    }
    Part { end: 0, place: at }
}

// Where the part ends that `not`s stand before, and whether a `not` before them negates it a second time.
#[derive(Clone, Copy)]
struct NegatedPart {
    end: usize,
    again: bool,
}

// The part that is reached over the `not`s that end before `end`, one before the other: a loop, since a line may have a thousand of them, and
// each call of the recursion takes room of the caller's stack.
fn negations(kinds: &[u8; 1024], end: usize) -> NegatedPart
    requires { end ≤ 1024 }
    ensures { Negates kinds.now end result.end result.again }
{
    let mut again = false;
    for i in (0..end).rev() {
        if kinds[i] != nodes::NEGATION_NODE {
            return NegatedPart { end: i + 1, again };
        }
        again = !again;
    }
    NegatedPart { end: 0, again }
}

// The value of the part that ends before `end`, by recursion into its parts, which end earlier. The part of a `first`, an operand, a condition
// or a branch that is a leaf is read here, since a call takes longer than reading it.
fn value_before(
    kinds: &[u8; 1024],
    values: &[i64; 1024],
    starts: &[u16; 1024],
    window: &[i64],
    streams: usize,
    firsts: &[i64],
    whole: bool,
    count: usize,
    end: usize,
    place: usize,
) -> i64
    requires { Ready (view window.now streams firsts.now whole) count end place }
    ensures { result ≡ coded (part_value (stored kinds.now values.now starts.now) (view window.now streams firsts.now whole) end place) }
{
    let inner = shifted(kinds, count, end, place);
    let last = inner.end;
    let at = inner.place;
    if is_leaf(kinds, last) {
        return leaf(kinds, values, window, streams, last, at);
    }
    let i = last - 1;
    let kind = kinds[i];
    match kind {
        nodes::FIRST_NODE => {
            if whole {
                if is_leaf(kinds, i) {
                    leaf(kinds, values, window, streams, i, 0)
                } else {
                    value_before(
                        kinds, values, starts, window, streams, firsts, whole, count, i, 0,
                    )
                }
            } else {
                numbered(firsts, values[i])
            }
        }
        // A `next` is left only where the window has no next letter, and a `fby` only at place 0.
        nodes::NEXT_NODE => no_value_coded(),
        nodes::NEGATION_NODE => {
            let inside = negations(kinds, i);
            let a = value_before(
                kinds, values, starts, window, streams, firsts, whole, count, inside.end, at,
            );
            negated_by(inside.again, a)
        }
        nodes::CONDITIONAL_NODE => {
            let middle = left_end(starts, i);
            let left = left_end(starts, middle);
            let test = if is_leaf(kinds, left) {
                leaf(kinds, values, window, streams, left, at)
            } else {
                value_before(
                    kinds, values, starts, window, streams, firsts, whole, count, left, at,
                )
            };
            if in_bound(test) {
                let branch = if nonzero(test) { middle } else { i };
                if is_leaf(kinds, branch) {
                    leaf(kinds, values, window, streams, branch, at)
                } else {
                    value_before(
                        kinds, values, starts, window, streams, firsts, whole, count, branch, at,
                    )
                }
            } else {
                no_value_coded()
            }
        }
        nodes::FBY_NODE => {
            if whole {
                let left = left_end(starts, i);
                value_before(
                    kinds, values, starts, window, streams, firsts, whole, count, left, 0,
                )
            } else {
                0
            }
        }
        _ => {
            let left = left_end(starts, i);
            let a = if is_leaf(kinds, left) {
                leaf(kinds, values, window, streams, left, at)
            } else {
                value_before(
                    kinds, values, starts, window, streams, firsts, whole, count, left, at,
                )
            };
            let b = if is_leaf(kinds, i) {
                leaf(kinds, values, window, streams, i, at)
            } else {
                value_before(
                    kinds, values, starts, window, streams, firsts, whole, count, i, at,
                )
            };
            apply_coded(kind, a, b)
        }
    }
}

// The value of the node with the place `root` at a place of the window. A side of a constraint that only reads a value needs no call of the recursion.
pub fn evaluate(
    kinds: &[u8; 1024],
    values: &[i64; 1024],
    starts: &[u16; 1024],
    root: usize,
    window: &[i64],
    streams: usize,
    firsts: &[i64],
    place: usize,
    whole: bool,
) -> i64
    ensures { result ≡ coded (node_value (stored kinds.now values.now starts.now) (view window.now streams firsts.now whole) root place) }
{
    // The proof learns how many elements an array has where a slice is made of it. These three are only for that and take no time.
    let kind_list: &[u8] = kinds;
    let value_list: &[i64] = values;
    let start_list: &[u16] = starts;
    let count = places(window.len(), streams);
    if 1024 <= root || count <= place {
        return no_value_coded();
    }
    let inner = shifted(kinds, count, root + 1, place);
    let end = inner.end;
    let at = inner.place;
    if is_leaf(kinds, end) {
        return leaf(kinds, values, window, streams, end, at);
    }
    let i = end - 1;
    if kinds[i] == nodes::FIRST_NODE && !whole {
        return numbered(firsts, values[i]);
    }
    value_before(
        kinds, values, starts, window, streams, firsts, whole, count, end, at,
    )
}
