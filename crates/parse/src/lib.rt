// Reads one constraint line into stored nodes.
#![tactic(auto)]

ghost use Rattle.std.specs.Prelude.{◌≡◌, false, [], ◌∷◌, ◌+◌, ◌≤◌, ◌<◌, leb, pos, length};
ghost use Rattle.std.proofs.lemmas.List.Edits.{sets};
ghost use Rattle.nodes.specs.Evaluate.{stored};
ghost use Rattle.text.specs.Bytes.{tokens};
ghost use Rattle.scan.specs.Place.{between};
ghost use Rattle.scan.specs.Start.{token_starts_of};
ghost use Rattle.nodes.specs.Postfix.{node};
ghost use Rattle.sheet.specs.Parser.{part_to, conditional_by, expression_by};
ghost use Rattle.parse.specs.Stored.{store};
ghost use Rattle.parse.specs.Numbered.{tokens_from, Placed, TokenNumbered};
ghost use Rattle.parse.specs.Prefixes.{firsts_before, Passes, ReadLeads};
ghost use Rattle.parse.specs.Reading.{LineFits, PartReading, LeafReading, firsts_inside, prefix_value, unread, Fits, StartsOutcome, ConstraintOutcome};

// What reading a part or an expression gives: whether there is one, the number of the token after it, the numbers of nodes and of `first`s
// stored so far, and whether an integer in it is beyond the magnitude bound.
#[derive(Clone, Copy)]
struct Read {
    ok: bool,
    next: usize,
    nodes: usize,
    firsts: usize,
    beyond: bool,
}

// Where the token with some number begins and ends in a text, and the next number; both places are the text's length where the text has no
// token with that number.
#[derive(Clone, Copy)]
struct NumberedToken {
    start: usize,
    end: usize,
    next: usize,
}

// The number of the token that stands behind prefixes, and that of the first `first` behind them.
#[derive(Clone, Copy)]
struct Passed {
    at: usize,
    firsts: usize,
}

// What reading a constraint line gives: whether the stored have room for it, whether it is a constraint, and then its relation, the places
// of the last nodes of its sides, the numbers of nodes and of `first`s stored so far, and whether an integer in it is beyond the bound.
#[derive(Clone, Copy)]
pub struct ConstraintRead {
    pub fits: bool,
    pub ok: bool,
    pub relation: u8,
    pub left: usize,
    pub right: usize,
    pub next: usize,
    pub firsts: usize,
    pub beyond: bool,
}

fn nothing() -> Read
    ensures { result.ok ≡ false }
{
    Read {
        ok: false,
        next: 0,
        nodes: 0,
        firsts: 0,
        beyond: false,
    }
}

// The answer where no constraint was read.
fn unread(fits: bool) -> ConstraintRead
    ensures { result ≡ unread fits }
{
    ConstraintRead {
        fits,
        ok: false,
        relation: 0,
        left: 0,
        right: 0,
        next: 0,
        firsts: 0,
        beyond: false,
    }
}

// A number as a node's value.
fn value_of(n: usize) -> i64
    requires { n < 9223372036854775808 }
    ensures { result ≡ pos n }
{
    n as i64
}

// Stores one node.
fn put(
    kinds: &mut [u8; 1024],
    values: &mut [i64; 1024],
    starts: &mut [u16; 1024],
    at: usize,
    kind: u8,
    value: i64,
    start: usize,
)
    requires { (at < 1024) × (start ≤ at) }
    ensures { stored kinds.new values.new starts.new ≡ store (stored kinds.old values.old starts.old) at (node kind value start ∷ []) }
{
    kinds[at] = kind;
    values[at] = value;
    starts[at] = start as u16;
}

// An integer or a name. An integer beyond the bound is stored as 0.
fn leaf(
    names: &[u8],
    word: &[u8],
    next: usize,
    kinds: &mut [u8; 1024],
    values: &mut [i64; 1024],
    starts: &mut [u16; 1024],
    nodes: usize,
    firsts: usize,
) -> Read
    requires { nodes < 1024 }
    ensures { LeafReading (tokens names.now) word.now next (stored kinds.old values.old starts.old) (stored kinds.new values.new starts.new) nodes firsts result }
{
    let integer = scan::read_integer(word);
    if integer != Err(scan::IntegerError::NoInteger) {
        let value = integer.unwrap_or(0);
        put(kinds, values, starts, nodes, 0, value, nodes);
        return Read {
            ok: true,
            next,
            nodes: nodes + 1,
            firsts,
            beyond: integer.is_err(),
        };
    }
    if vocabulary::is_reserved(word) || !scan::is_name(word) {
        return nothing();
    }
    let place = value_of(scan::place_of(names, word));
    put(kinds, values, starts, nodes, 1, place, nodes);
    Read {
        ok: true,
        next,
        nodes: nodes + 1,
        firsts,
        beyond: false,
    }
}

// The number of the first `first` inside a node of this kind: a `first` takes its own number before those inside it.
fn firsts_inside(kind: u8, firsts: usize) -> usize
    requires { firsts < 2048 }
    ensures { result ≡ firsts_inside kind firsts }
{
    if kind == nodes::FIRST_NODE {
        firsts + 1
    } else {
        firsts
    }
}

// The value of the node of `first`, `next` or `not`.
fn prefix_value(kind: u8, firsts: usize) -> i64
    requires { firsts < 2048 }
    ensures { result ≡ prefix_value kind firsts }
{
    if kind == nodes::FIRST_NODE {
        value_of(firsts)
    } else {
        0
    }
}

// The token with the number `at`, where `token_starts` holds the places of the line at which its tokens begin, and the text is the part of
// the line that begins at the place `origin`.
fn token_at(text: &[u8], origin: usize, token_starts: &[usize], at: usize) -> NumberedToken
    requires { Placed text.now origin token_starts.now at }
    ensures { TokenNumbered text.now (tokens_from text.now origin token_starts.now) at result }
{
    if token_starts.len() <= at {
        return NumberedToken {
            start: text.len(),
            end: text.len(),
            next: at,
        };
    }
    let token = scan::next_token(text, token_starts[at] - origin);
    NumberedToken {
        start: token.start,
        end: token.end,
        next: at + 1,
    }
}

// The number of the first `first` from the node of this kind on, where `firsts` is that of the first `first` inside it.
fn firsts_before(kind: u8, firsts: usize) -> usize
    ensures { result ≡ firsts_before kind firsts }
{
    if kind == nodes::FIRST_NODE {
        firsts.saturating_sub(1)
    } else {
        firsts
    }
}

// Passes over `first`, `next` and `not` from the token with the number `at` on: a loop, since a line may have a thousand of them, and each call
// of the readers takes room of the caller's stack.
fn pass_prefixes(
    text: &[u8],
    origin: usize,
    token_starts: &[usize],
    at: usize,
    firsts: usize,
) -> Passed
    requires placed { Placed text.now origin token_starts.now at }
    requires at_bound { firsts + length (tokens_from text.now origin token_starts.now at) ≤ 2048 }
    ensures { Passes (tokens_from text.now origin token_starts.now) at firsts result.at result.firsts }
{
    let mut number = at;
    let mut inside = firsts;
    loop {
        let token = token_at(text, origin, token_starts, number);
        let start = token.start;
        let end = token.end;
        let kind = vocabulary::prefix_code(&text[start..end]);
        if kind == nodes::NO_CODE {
            return Passed {
                at: number,
                firsts: inside,
            };
        }
        inside = firsts_inside(kind, inside);
        number = token.next;
    }
}

// Stores the nodes of the prefixes from the token with the number `at` on, the innermost first, behind what was read of the part that they stand
// before.
fn put_prefixes(
    text: &[u8],
    origin: usize,
    token_starts: &[usize],
    at: usize,
    kinds: &mut [u8; 1024],
    values: &mut [i64; 1024],
    starts: &mut [u16; 1024],
    nodes: usize,
    firsts: usize,
    passed: Passed,
    inner: Read,
) -> Read
    requires placed { Placed text.now origin token_starts.now at }
    requires passes { Passes (tokens_from text.now origin token_starts.now) at firsts passed.at passed.firsts }
    requires nodes_le_nodes { (nodes ≤ inner.nodes) × (inner.nodes + passed.at ≤ 1024 + at) × (firsts + length (tokens_from text.now origin token_starts.now at) ≤ 2048) }
    ensures { ReadLeads (tokens_from text.now origin token_starts.now) nodes passed.at passed.firsts (stored kinds.old values.old starts.old) inner at firsts (stored kinds.new values.new starts.new) result }
{
    let mut inside = passed.firsts;
    let mut last = inner.nodes;
    for number in (at..passed.at).rev() {
        let token = token_at(text, origin, token_starts, number);
        let start = token.start;
        let end = token.end;
        let kind = vocabulary::prefix_code(&text[start..end]);
        inside = firsts_before(kind, inside);
        let value = prefix_value(kind, inside);
        put(kinds, values, starts, last, kind, value, nodes);
        last += 1;
    }
    Read {
        ok: true,
        next: inner.next,
        nodes: last,
        firsts: inner.firsts,
        beyond: inner.beyond,
    }
}

// The part that begins with the token with the number `at`. The readers of parts and of expressions call each other, and what they call has
// fewer tokens left to read, or as many where an expression begins with a part. The text between two brackets is passed on as a part of the
// bytes and read as an expression by itself; its tokens keep their numbers.
#[cycle(conditional_expression_part)]
fn part(
    names: &[u8],
    text: &[u8],
    origin: usize,
    token_starts: &[usize],
    at: usize,
    kinds: &mut [u8; 1024],
    values: &mut [i64; 1024],
    starts: &mut [u16; 1024],
    nodes: usize,
    firsts: usize,
) -> Read
    requires placed { Placed text.now origin token_starts.now at }
    requires line_fits { LineFits (tokens_from text.now origin token_starts.now at) nodes firsts }
    ensures { PartReading (part_to (tokens names.now)) (tokens_from text.now origin token_starts.now) at (stored kinds.old values.old starts.old) (stored kinds.new values.new starts.new) nodes firsts result }
{
    let token = token_at(text, origin, token_starts, at);
    let start = token.start;
    let end = token.end;
    if start == end {
        return nothing();
    }
    let word = &text[start..end];
    let kind = vocabulary::prefix_code(word);
    if kind != nodes::NO_CODE {
        let inside = firsts_inside(kind, firsts);
        let passed = pass_prefixes(text, origin, token_starts, token.next, inside);
        let inner = part(
            names,
            text,
            origin,
            token_starts,
            passed.at,
            kinds,
            values,
            starts,
            nodes,
            passed.firsts,
        );
        if !inner.ok {
            return nothing();
        }
        return put_prefixes(
            text,
            origin,
            token_starts,
            at,
            kinds,
            values,
            starts,
            nodes,
            firsts,
            passed,
            inner,
        );
    }
    if !vocabulary::is_opening(word) {
        return leaf(
            names, word, token.next, kinds, values, starts, nodes, firsts,
        );
    }
    let from = start + 1;
    let close = scan::partner(text, from);
    if text.len() <= close {
        return nothing();
    }
    let inside = &text[from..close];
    let begin = origin + from;
    let inner = expression(
        names,
        inside,
        begin,
        token_starts,
        token.next,
        kinds,
        values,
        starts,
        nodes,
        firsts,
    );
    if !inner.ok {
        return nothing();
    }
    let after = token_at(inside, begin, token_starts, inner.next);
    if after.start != after.end {
        return nothing();
    }
    Read {
        ok: true,
        next: inner.next + 1,
        nodes: inner.nodes,
        firsts: inner.firsts,
        beyond: inner.beyond,
    }
}

// What stands after `if`.
#[cycle(conditional_expression_part)]
fn conditional(
    names: &[u8],
    text: &[u8],
    origin: usize,
    token_starts: &[usize],
    at: usize,
    kinds: &mut [u8; 1024],
    values: &mut [i64; 1024],
    starts: &mut [u16; 1024],
    nodes: usize,
    firsts: usize,
) -> Read
    requires placed { Placed text.now origin token_starts.now at }
    requires line_fits { LineFits (tokens_from text.now origin token_starts.now at) nodes firsts }
    ensures { PartReading (λ d. conditional_by (part_to (tokens names.now) d)) (tokens_from text.now origin token_starts.now) at (stored kinds.old values.old starts.old) (stored kinds.new values.new starts.new) nodes firsts result }
{
    let condition = part(
        names,
        text,
        origin,
        token_starts,
        at,
        kinds,
        values,
        starts,
        nodes,
        firsts,
    );
    if !condition.ok {
        return nothing();
    }
    let then = token_at(text, origin, token_starts, condition.next);
    let then_start = then.start;
    let then_end = then.end;
    if !vocabulary::is_then(&text[then_start..then_end]) {
        return nothing();
    }
    let branch = part(
        names,
        text,
        origin,
        token_starts,
        then.next,
        kinds,
        values,
        starts,
        condition.nodes,
        condition.firsts,
    );
    if !branch.ok {
        return nothing();
    }
    let other = token_at(text, origin, token_starts, branch.next);
    let other_start = other.start;
    let other_end = other.end;
    if !vocabulary::is_else(&text[other_start..other_end]) {
        return nothing();
    }
    let last = part(
        names,
        text,
        origin,
        token_starts,
        other.next,
        kinds,
        values,
        starts,
        branch.nodes,
        branch.firsts,
    );
    if !last.ok {
        return nothing();
    }
    let place = last.nodes;
    put(kinds, values, starts, place, 5, 0, nodes);
    Read {
        ok: true,
        next: last.next,
        nodes: place + 1,
        firsts: last.firsts,
        beyond: condition.beyond | (branch.beyond | last.beyond),
    }
}

// The expression that begins with the token with the number `at`.
#[cycle(conditional_expression_part)]
fn expression(
    names: &[u8],
    text: &[u8],
    origin: usize,
    token_starts: &[usize],
    at: usize,
    kinds: &mut [u8; 1024],
    values: &mut [i64; 1024],
    starts: &mut [u16; 1024],
    nodes: usize,
    firsts: usize,
) -> Read
    requires placed { Placed text.now origin token_starts.now at }
    requires line_fits { LineFits (tokens_from text.now origin token_starts.now at) nodes firsts }
    ensures { PartReading (λ d. expression_by (part_to (tokens names.now) d)) (tokens_from text.now origin token_starts.now) at (stored kinds.old values.old starts.old) (stored kinds.new values.new starts.new) nodes firsts result }
{
    let token = token_at(text, origin, token_starts, at);
    let start = token.start;
    let end = token.end;
    if vocabulary::is_if(&text[start..end]) {
        return conditional(
            names,
            text,
            origin,
            token_starts,
            token.next,
            kinds,
            values,
            starts,
            nodes,
            firsts,
        );
    }
    let left = part(
        names,
        text,
        origin,
        token_starts,
        at,
        kinds,
        values,
        starts,
        nodes,
        firsts,
    );
    if !left.ok {
        return nothing();
    }
    let sign = token_at(text, origin, token_starts, left.next);
    let sign_start = sign.start;
    let sign_end = sign.end;
    let kind = vocabulary::operator_code(&text[sign_start..sign_end]);
    if kind == nodes::NO_CODE {
        return left;
    }
    let right = part(
        names,
        text,
        origin,
        token_starts,
        sign.next,
        kinds,
        values,
        starts,
        left.nodes,
        left.firsts,
    );
    if !right.ok {
        return nothing();
    }
    let last = right.nodes;
    put(kinds, values, starts, last, kind, 0, nodes);
    Read {
        ok: true,
        next: right.next,
        nodes: last + 1,
        firsts: right.firsts,
        beyond: left.beyond | right.beyond,
    }
}

// The two sides of a constraint line and the relation between them. The starts of the line's tokens stand in `all_starts` from the number of
// the line's first node to before `last`.
fn sides(
    names: &[u8],
    line: &[u8],
    all_starts: &[usize],
    last: usize,
    kinds: &mut [u8; 1024],
    values: &mut [i64; 1024],
    starts: &mut [u16; 1024],
    nodes: usize,
    firsts: usize,
) -> ConstraintRead
    requires fits { Fits line.now nodes firsts }
    requires nodes_le_last { (nodes ≤ last) × (last ≤ length all_starts.now) × (between all_starts.now nodes last ≡ token_starts_of line.now) }
    ensures { ConstraintOutcome names.now line.now nodes firsts (stored kinds.old values.old starts.old) (stored kinds.new values.new starts.new) result }
{
    let token_starts = &all_starts[nodes..last];
    let left = expression(
        names,
        line,
        0,
        token_starts,
        0,
        kinds,
        values,
        starts,
        nodes,
        firsts,
    );
    if !left.ok {
        return unread(true);
    }
    let sign = token_at(line, 0, token_starts, left.next);
    let sign_start = sign.start;
    let sign_end = sign.end;
    let relation = vocabulary::relation_code(&line[sign_start..sign_end]);
    if relation == nodes::NO_CODE {
        return unread(true);
    }
    let right = expression(
        names,
        line,
        0,
        token_starts,
        sign.next,
        kinds,
        values,
        starts,
        left.nodes,
        left.firsts,
    );
    if !right.ok {
        return unread(true);
    }
    let after = token_at(line, 0, token_starts, right.next);
    if after.start != after.end {
        return unread(true);
    }
    ConstraintRead {
        fits: true,
        ok: true,
        relation,
        left: left.nodes - 1,
        right: right.nodes - 1,
        next: right.nodes,
        firsts: right.firsts,
        beyond: left.beyond | right.beyond,
    }
}

// Whether the line has no more tokens than there is room for. It has no more tokens than bytes, so that they are counted only where the
// bytes are more.
fn tokens_fit(line: &[u8], room: usize) -> bool
    ensures { result ≡ leb (length (tokens line.now)) room }
{
    line.len() <= room || scan::token_count(line) <= room
}

// Stores the places where the line's tokens begin, from the place `from` of the array on, and gives the place after the last.
fn store_token_starts(line: &[u8], token_starts: &mut [usize; 1024], from: usize) -> usize
    requires { from + length (tokens line.now) ≤ 1024 }
    ensures { (result ≡ from + length (tokens line.now)) × (token_starts.new ≡ sets token_starts.old from (token_starts_of line.now)) }
{
    let mut count = from;
    let mut inside = false;
    for (i, byte) in line.iter().enumerate() {
        if scan::begins_token(inside, *byte) {
            token_starts[count] = i;
            count += 1;
        }
        inside = scan::is_inside(*byte);
    }
    count
}

// Reads a constraint line, where `names` is line 1. The starts of its tokens and the nodes are stored from `from` on and its `first`s
// numbered from `firsts` on. Nothing is changed where the line has more tokens than there is room for nodes, or where too many `first`s were
// numbered before.
pub fn parse_constraint(
    names: &[u8],
    line: &[u8],
    token_starts: &mut [usize; 1024],
    kinds: &mut [u8; 1024],
    values: &mut [i64; 1024],
    starts: &mut [u16; 1024],
    from: usize,
    firsts: usize,
) -> ConstraintRead
    ensures starts_outcome { StartsOutcome line.now from firsts token_starts.old token_starts.new }
    ensures constraint_outcome { ConstraintOutcome names.now line.now from firsts (stored kinds.old values.old starts.old) (stored kinds.new values.new starts.new) result }
{
    if 1024 < from || 1024 < firsts || !tokens_fit(line, 1024 - from) {
        return unread(false);
    }
    let last = store_token_starts(line, token_starts, from);
    sides(
        names,
        line,
        token_starts,
        last,
        kinds,
        values,
        starts,
        from,
        firsts,
    )
}
