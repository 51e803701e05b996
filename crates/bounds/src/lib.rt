#![tactic(auto)]

ghost use Rattle.std.specs.Prelude.{Some, ◌≡◌, true, suc, ◌+◌, ◌-◌, ◌≤◌, ◌<◌, pos, nat_abs, length};
ghost use Rattle.meaning.specs.Arithmetic.{least, greatest, hull, around, magnitude, remainder_bound, remainder_interval, operator_interval};
ghost use Rattle.nodes.specs.Bounded.{in_bound, operator_at};
ghost use Rattle.nodes.specs.Evaluate.{stored, HoldsParts};
ghost use Rattle.nodes.specs.Bounds.{range_within, interval_of, usable, combined, truth_range, operator_range, branch_range, stream_range, limited, no_summary, leaf_summary, first_summary, next_summary, negation_summary, operator_summary, conditional_summary, fby_summary, summary_before, node_summary};
ghost use Rattle.bounds.specs.Prefix.{is_prefix, prefix_summary, Prefixes, SummaryLeads};
ghost use Rattle.bounds.specs.Span.{span_of_four, span_values};

use arithmetic::{apply, in_bound};
use nodes::{Evaluated, Range, Summary, left_end};

// The interval itself, where both ends are within the magnitude bound.
fn range_within(low: i64, high: i64) -> Option<Range>
    ensures { result ≡ range_within (record { low = low; high = high }) }
{
    if in_bound(low) && in_bound(high) {
        Some(Range { low, high })
    } else {
        None
    }
}

// Both ends of an interval are within the bound.
fn usable(a: Range) -> bool
    ensures { result ≡ usable a }
{
    in_bound(a.low) && in_bound(a.high)
}

// "the hull of both sides"
fn hull(a: Option<Range>, b: Option<Range>) -> Option<Range>
    ensures { result ≡ combined hull a b }
{
    match (a, b) {
        (Some(a), Some(b)) if usable(a) && usable(b) => {
            range_within(a.low.min(b.low), a.high.max(b.high))
        }
        _ => None,
    }
}

// From the least to the greatest of four numbers.
fn span_of_four(p: i64, q: i64, r: i64, s: i64) -> Option<Range>
    ensures { result ≡ range_within (span_of_four p q r s) }
{
    range_within(p.min(q).min(r.min(s)), p.max(q).max(r.max(s)))
}

// The same of four values, where all are there.
fn span_values(p: Evaluated, q: Evaluated, r: Evaluated, s: Evaluated) -> Option<Range>
    ensures { result ≡ span_values p q r s }
{
    if p.ok && q.ok && r.ok && s.ok {
        span_of_four(p.value, q.value, r.value, s.value)
    } else {
        None
    }
}

// "for `+ - *` the least and greatest over the ends": within the bound where all four results are.
fn over_ends(kind: u8, a: Range, b: Range) -> Option<Range>
    requires { (7 ≤ kind) × (kind < 10) × (usable a ≡ true) × (usable b ≡ true) }
    ensures { result ≡ range_within (operator_interval (operator_at kind) (interval_of a) (interval_of b)) }
{
    span_values(
        apply(kind, a.low, b.low),
        apply(kind, a.low, b.high),
        apply(kind, a.high, b.low),
        apply(kind, a.high, b.high),
    )
}

// The magnitude of a number within the bound.
fn absolute(z: i64) -> i64
    requires { in_bound z ≡ true }
    ensures { result ≡ pos (nat_abs z) }
{
    z.abs()
}

// "M the larger magnitude of the dividend's ends", and the same of the divisor's.
fn magnitude(a: Range) -> i64
    requires { usable a ≡ true }
    ensures { result ≡ pos (magnitude (interval_of a)) }
{
    absolute(a.low).max(absolute(a.high))
}

// "for `/` [..] from −M to M"
fn around(a: Range) -> Option<Range>
    requires { usable a ≡ true }
    ensures { result ≡ range_within (around (magnitude (interval_of a))) }
{
    let most = magnitude(a);
    range_within(-most, most)
}

// "the divisor's M less 1 (not below 0)"
fn magnitude_less_one(b: Range) -> i64
    requires { usable b ≡ true }
    ensures { result ≡ pos (magnitude (interval_of b) - 1) }
{
    (magnitude(b) - 1).max(0)
}

// "k the smaller of the dividend's M and the divisor's M less 1 (not below 0)"
fn remainder_bound(a: Range, b: Range) -> i64
    requires { (usable a ≡ true) × (usable b ≡ true) }
    ensures { result ≡ pos (remainder_bound (interval_of a) (interval_of b)) }
{
    magnitude(a).min(magnitude_less_one(b))
}

// "Its low end is 0 if the dividend's is at least 0; its high end is 0 if the dividend's is at most 0."
fn remainder_range(a: Range, b: Range) -> Option<Range>
    requires { (usable a ≡ true) × (usable b ≡ true) }
    ensures { result ≡ range_within (remainder_interval (interval_of a) (interval_of b)) }
{
    let bound = remainder_bound(a, b);
    let low = if 0 <= a.low { 0 } else { -bound };
    let high = if a.high <= 0 { 0 } else { bound };
    range_within(low, high)
}

// "a remainder's is ±k with k the divisor's M less 1, not below 0", where it is rounded down.
fn floored_remainder_range(b: Range) -> Option<Range>
    requires { usable b ≡ true }
    ensures { result ≡ range_within (around (magnitude (interval_of b) - 1)) }
{
    let bound = magnitude_less_one(b);
    range_within(-bound, bound)
}

// The interval of a quotient or a remainder that is rounded down, by the kind of its node.
fn floored_range(kind: u8, a: Range, b: Range) -> Option<Range>
    requires { (19 < kind) × (kind < 22) × (usable a ≡ true) × (usable b ≡ true) }
    ensures { result ≡ range_within (operator_interval (operator_at kind) (interval_of a) (interval_of b)) }
{
    if kind == nodes::FLOORED_DIVIDE_NODE {
        around(a)
    } else {
        floored_remainder_range(b)
    }
}

// "0 to 1 for truth values"
fn truth_range(a: Option<Range>) -> Option<Range>
    ensures { result ≡ truth_range a }
{
    a?;
    range_within(0, 1)
}

// The interval of what the operator with a node's kind gives, from two within the bound.
fn range_by_kind(kind: u8, a: Range, b: Range) -> Option<Range>
    requires { (usable a ≡ true) × (usable b ≡ true) }
    ensures { result ≡ operator_range kind (Some a) (Some b) }
{
    match kind {
        nodes::ADD_NODE..=nodes::MULTIPLY_NODE => over_ends(kind, a, b),
        nodes::DIVIDE_NODE => around(a),
        nodes::REMAINDER_NODE => remainder_range(a, b),
        nodes::LESS_NODE..=nodes::OR_NODE => range_within(0, 1),
        nodes::FLOORED_DIVIDE_NODE..=nodes::FLOORED_REMAINDER_NODE => floored_range(kind, a, b),
        _ => None,
    }
}

// The interval of what the operator with a node's kind gives.
fn operator_range(kind: u8, a: Option<Range>, b: Option<Range>) -> Option<Range>
    ensures { result ≡ operator_range kind a b }
{
    match (a, b) {
        (Some(a), Some(b)) if usable(a) && usable(b) => range_by_kind(kind, a, b),
        _ => None,
    }
}

// The range of the stream with a number.
fn stream_range(lows: &[i64], highs: &[i64], number: i64) -> Option<Range>
    ensures { result ≡ stream_range lows.now highs.now number }
{
    if number < 0 {
        return None;
    }
    let k = number as usize;
    if k < lows.len() && k < highs.len() {
        range_within(lows[k], highs[k])
    } else {
        None
    }
}

// One more, up to the limit of the counts.
fn one_more(n: u32) -> u32
    ensures { result ≡ limited (suc n) }
{
    n.saturating_add(1).min(65535)
}

fn one_less(n: u32) -> u32
    ensures { result ≡ n - 1 }
{
    n.saturating_sub(1)
}

// The sum, up to the limit of the counts.
fn sum(a: u32, b: u32) -> u32
    ensures { result ≡ limited (a + b) }
{
    a.saturating_add(b).min(65535)
}

fn leaf(range: Option<Range>) -> Summary
    ensures { result ≡ leaf_summary range }
{
    Summary {
        range,
        reach: 0,
        back: 0,
        firsts: 0,
        furthest: 0,
    }
}

fn after_first(a: Summary) -> Summary
    ensures { result ≡ first_summary a }
{
    Summary {
        back: 0,
        firsts: one_more(a.firsts),
        furthest: a.reach.max(a.furthest),
        ..a
    }
}

fn after_next(a: Summary) -> Summary
    ensures { result ≡ next_summary a }
{
    Summary {
        reach: one_more(a.reach),
        back: one_less(a.back),
        ..a
    }
}

fn after_not(a: Summary) -> Summary
    ensures { result ≡ negation_summary a }
{
    Summary {
        range: truth_range(a.range),
        ..a
    }
}

fn operator(kind: u8, a: Summary, b: Summary) -> Summary
    ensures { result ≡ operator_summary kind a b }
{
    Summary {
        range: operator_range(kind, a.range, b.range),
        reach: a.reach.max(b.reach),
        back: a.back.max(b.back),
        firsts: sum(a.firsts, b.firsts),
        furthest: a.furthest.max(b.furthest),
    }
}

// The hull of both branches, where the condition has an interval.
fn branch_range(c: Option<Range>, a: Option<Range>, b: Option<Range>) -> Option<Range>
    ensures { result ≡ branch_range c a b }
{
    c?;
    hull(a, b)
}

fn conditional(c: Summary, a: Summary, b: Summary) -> Summary
    ensures { result ≡ conditional_summary c a b }
{
    Summary {
        range: branch_range(c.range, a.range, b.range),
        reach: c.reach.max(a.reach.max(b.reach)),
        back: c.back.max(a.back.max(b.back)),
        firsts: sum(c.firsts, sum(a.firsts, b.firsts)),
        furthest: c.furthest.max(a.furthest.max(b.furthest)),
    }
}

fn followed(a: Summary, b: Summary) -> Summary
    ensures { result ≡ fby_summary a b }
{
    Summary {
        range: hull(a.range, b.range),
        reach: a.reach.max(one_less(b.reach)),
        back: one_more(b.back),
        firsts: sum(a.firsts, b.firsts),
        furthest: a.furthest.max(b.furthest),
    }
}

fn no_summary() -> Summary
    ensures { result ≡ no_summary }
{
    leaf(None)
}

// Whether a node of this kind is that of a `first`, a `next` or a `not`.
fn is_prefix(kind: u8) -> bool
    ensures { result ≡ is_prefix kind }
{
    nodes::FIRST_NODE <= kind && kind < nodes::CONDITIONAL_NODE
}

// What a `first`, a `next` or a `not` makes of the summary of what it stands before.
fn after_prefix(kind: u8, a: Summary) -> Summary
    ensures { result ≡ prefix_summary kind a }
{
    match kind {
        nodes::FIRST_NODE => after_first(a),
        nodes::NEXT_NODE => after_next(a),
        _ => after_not(a),
    }
}

// Where the part ends that the `first`s, `next`s and `not`s whose nodes end before `end` stand before, one before the other.
fn inner_end(kinds: &[u8], end: usize) -> usize
    requires { end ≤ length kinds.now }
    ensures { Prefixes kinds.now result end }
{
    for at in (0..end).rev() {
        if !is_prefix(kinds[at]) {
            return at + 1;
        }
    }
    0
}

// The summary of the part that ends before `end`, from that of the part that ends before `from`, where prefixes stand between: a loop, since a
// line may have a thousand of them, and each call of the recursion takes room of the caller's stack.
fn after_prefixes(kinds: &[u8], from: usize, end: usize, inner: Summary) -> Summary
    requires { (end ≤ length kinds.now) × Prefixes kinds.now from end }
    ensures { SummaryLeads kinds.now from inner end result }
{
    let mut summary = inner;
    for &kind in &kinds[from..end] {
        summary = after_prefix(kind, summary);
    }
    summary
}

// The summary of the part that ends before `end`, by recursion into its parts, which end earlier.
fn summary_before(
    kinds: &[u8],
    values: &[i64],
    starts: &[u16],
    lows: &[i64],
    highs: &[i64],
    end: usize,
) -> Summary
    requires { HoldsParts (stored kinds.now values.now starts.now) end }
    ensures { result ≡ summary_before (stored kinds.now values.now starts.now) lows.now highs.now end }
{
    if end == 0 {
        return no_summary();
    }
    let i = end - 1;
    let kind = kinds[i];
    if is_prefix(kind) {
        let from = inner_end(kinds, i);
        let inner = summary_before(kinds, values, starts, lows, highs, from);
        return after_prefixes(kinds, from, end, inner);
    }
    match kind {
        nodes::INTEGER_NODE => leaf(range_within(values[i], values[i])),
        nodes::NAME_NODE => leaf(stream_range(lows, highs, values[i])),
        nodes::CONDITIONAL_NODE => {
            let middle = left_end(starts, i);
            let left = left_end(starts, middle);
            let c = summary_before(kinds, values, starts, lows, highs, left);
            let a = summary_before(kinds, values, starts, lows, highs, middle);
            let b = summary_before(kinds, values, starts, lows, highs, i);
            conditional(c, a, b)
        }
        nodes::FBY_NODE => {
            let left = left_end(starts, i);
            let a = summary_before(kinds, values, starts, lows, highs, left);
            let b = summary_before(kinds, values, starts, lows, highs, i);
            followed(a, b)
        }
        _ => {
            let left = left_end(starts, i);
            let a = summary_before(kinds, values, starts, lows, highs, left);
            let b = summary_before(kinds, values, starts, lows, highs, i);
            operator(kind, a, b)
        }
    }
}

// The interval, reach, back and firsts of the node with the place `root`; the streams have these lowest and highest values.
pub fn summary(
    kinds: &[u8],
    values: &[i64],
    starts: &[u16],
    lows: &[i64],
    highs: &[i64],
    root: usize,
) -> Summary
    ensures { result ≡ node_summary (stored kinds.now values.now starts.now) lows.now highs.now root }
{
    if kinds.len() <= root || values.len() <= root || starts.len() <= root {
        return no_summary();
    }
    summary_before(kinds, values, starts, lows, highs, root + 1)
}
