// Where the expressions of a sheet's constraints stand in its text. The text is known to be a sheet where it matters, so that nothing is refused
// here; every other text has an answer too.
#![tactic(auto)]

ghost use Rattle.std.specs.Prelude.{◌≡◌, [], ◌∷◌, suc, ◌+◌, ◌≤◌, ◌<◌, length};
ghost use Rattle.spans.specs.Token.{span};
ghost use Rattle.spans.specs.Spans.{part_span_to, branches_by, expression_span, constraint_span, constraints_to};
ghost use Rattle.spans.specs.Stored.{span_bound, put_spans, span_table, PlaceIn, StoresSpans};

use scan::Span;

// The place behind a phrase, and how many spans are stored so far.
#[derive(Clone, Copy)]
struct Reached {
    next: usize,
    count: usize,
}

// Stores one span, where there is room for it.
fn put(spans: &mut [u16; 2048], count: usize, start: usize, end: usize) -> Reached
    requires { (start < 65536) × (end < 65536) × (count < 65536) }
    ensures { (result ≡ record { next = end; count = count + 1 }) × (count < span_bound → spans.new ≡ put_spans spans.old count (span start end ∷ [])) }
{
    if count < 1024 {
        let at = count * 2;
        spans[at] = start as u16;
        spans[at + 1] = end as u16;
    }
    Reached {
        next: end,
        count: count + 1,
    }
}

// The part from the place `at` on. The functions for parts and expressions call each other; what they call stands further behind, or begins at
// the same place where an expression begins with a part.
#[cycle(branches_expression_part)]
fn part(text: &[u8], at: usize, spans: &mut [u16; 2048], count: usize) -> Reached
    requires { PlaceIn text.now at count }
    ensures { StoresSpans (λ d. part_span_to text.now d at) text.now at count spans.old spans.new result }
{
    let Span { start, end } = scan::next_token(text, at);
    if start == end {
        return Reached { next: end, count };
    }
    let word = &text[start..end];
    let kind = vocabulary::prefix_code(word);
    if kind != nodes::NO_CODE {
        let inner = part(text, end, spans, count);
        return put(spans, inner.count, start, inner.next);
    }
    if vocabulary::is_opening(word) {
        let inner = expression(text, end, spans, count);
        let close = scan::next_token(text, inner.next);
        return Reached {
            next: close.end,
            count: inner.count,
        };
    }
    put(spans, count, start, end)
}

// What stands after an `if`.
#[cycle(branches_expression_part)]
fn branches(text: &[u8], at: usize, spans: &mut [u16; 2048], count: usize) -> Reached
    requires { PlaceIn text.now at count }
    ensures { StoresSpans (λ d. branches_by text.now (part_span_to text.now d) at) text.now at count spans.old spans.new result }
{
    let condition = part(text, at, spans, count);
    let then = scan::next_token(text, condition.next);
    let branch = part(text, then.end, spans, condition.count);
    let other = scan::next_token(text, branch.next);
    part(text, other.end, spans, branch.count)
}

// The expression from the place `at` on.
#[cycle(branches_expression_part)]
fn expression(text: &[u8], at: usize, spans: &mut [u16; 2048], count: usize) -> Reached
    requires { PlaceIn text.now at count }
    ensures { StoresSpans (λ d. expression_span text.now (part_span_to text.now d) at) text.now at count spans.old spans.new result }
{
    let Span { start, end } = scan::next_token(text, at);
    if vocabulary::is_if(&text[start..end]) {
        let inside = branches(text, end, spans, count);
        return put(spans, inside.count, start, inside.next);
    }
    let left = part(text, at, spans, count);
    let sign = scan::next_token(text, left.next);
    if vocabulary::operator_code(&text[sign.start..sign.end]) == nodes::NO_CODE {
        return left;
    }
    let right = part(text, sign.end, spans, left.count);
    put(spans, right.count, start, right.next)
}

// One constraint line, from its first token on.
fn constraint(text: &[u8], at: usize, spans: &mut [u16; 2048], count: usize) -> Reached
    requires { PlaceIn text.now at count }
    ensures { StoresSpans (λ d. constraint_span text.now at) text.now at count spans.old spans.new result }
{
    let left = expression(text, at, spans, count);
    let sign = scan::next_token(text, left.next);
    expression(text, sign.end, spans, left.count)
}

// Stores the spans of the constraints from the place `from` on, and gives their number.
fn constraints(text: &[u8], from: usize, spans: &mut [u16; 2048]) -> usize
    requires { PlaceIn text.now from 0 }
    ensures { (result ≡ length (constraints_to text.now (suc (length text.now)) from)) × (result ≤ span_bound → spans.new ≡ put_spans spans.old 0 (constraints_to text.now (suc (length text.now)) from)) }
{
    let mut at = from;
    let mut count: usize = 0;
    loop {
        let Span { start, end } = scan::next_token(text, at);
        if start == end {
            return count;
        }
        let line = constraint(text, at, spans, count);
        at = line.next;
        count = line.count;
    }
}

// The spans of the expressions of the sheet's constraints, two numbers each, in the order of the stored nodes. The table is zero where they are more
// than a sheet's.
pub fn spans(text: &[u8]) -> [u16; 2048]
    ensures { result ≡ span_table text.now }
{
    let mut table: [u16; 2048] = [0; 2048];
    if 65535 < text.len() {
        return table;
    }
    let header = refusals::header_of(text);
    let count = constraints(text, header.constraints, &mut table);
    if 1024 < count {
        return [0; 2048];
    }
    table
}
