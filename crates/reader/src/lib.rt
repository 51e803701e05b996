// Reads a sheet's bytes: gives the lowest refusal 1 to 7, or the stored sheet.
#![tactic(auto)]

ghost use Rattle.std.specs.Prelude.{◌≡◌, false, cond, ◌+◌, ◌*◌, ◌<◌, ◌≤◌, pos, nat_abs, length, set, replicate, eqb};
ghost use Rattle.std.proofs.lemmas.List.Edits.{sets};
ghost use Rattle.reader.specs.Constraints.{state, counts, LinesFit, ConstraintsOutcome};
ghost use Rattle.reader.specs.Stored.{refused_reading, reading_of};
ghost use Rattle.header.specs.Streams.{stream_tables};
ghost use Rattle.reader.specs.Unknown.{is_unknown, some_unknown};
ghost use Rattle.reader.specs.Extent.{no_extent, with_summary, extent_from};
ghost use Rattle.reader.specs.FirstNodes.{with_firsts, FewFirsts};
ghost use Rattle.nodes.specs.Code.{floored_kind, meant_kinds};
ghost use Rattle.nodes.specs.Evaluate.{stored};
ghost use Rattle.sheet.specs.Reading.{form_of_lines, answer_to, answer_to_form};
ghost use Rattle.refusals.specs.Places.{said_tokens};
ghost use Rattle.reader.specs.Tested.{tested_as};
ghost use Rattle.reader.specs.Held.{HeldSheet, HeldReading};
ghost use Rattle.text.specs.Bytes.{lines, tokens};

use header::{StreamArrays, StreamsRead};

// The stored sheet. Room beyond what is given is zero.
#[derive(Clone, Copy)]
pub struct StoredSheet {
    // streams: eight bytes for each name, the names' lengths, the ranges, and the kinds, 0 for `set` and 1 for `read`
    pub streams: usize,
    pub names: [u8; 64],
    pub lengths: [u8; 8],
    pub lows: [i64; 8],
    pub highs: [i64; 8],
    pub stream_kinds: [u8; 8],
    pub letters: u32,
    // constraints: the relation and the places of the last nodes of both sides
    pub constraints: usize,
    pub relations: [u8; 32],
    pub lefts: [u16; 32],
    pub rights: [u16; 32],
    // nodes of all sides, in postfix order
    pub nodes: usize,
    pub kinds: [u8; 1024],
    pub values: [i64; 1024],
    pub starts: [u16; 1024],
    pub untils: usize,
    pub firsts: usize,
    // the place of the node of each `first`, by its number
    pub first_nodes: [u16; 8],
    // D and B
    pub ahead: usize,
    pub back: usize,
}

// A refusal 1 to 7 with a sheet of zeros, or 0 with the sheet.
#[derive(Clone, Copy)]
pub struct Reading {
    pub refusal: u32,
    pub sheet: StoredSheet,
}

// What is stored of the constraints.
#[derive(Clone, Copy)]
struct ConstraintArrays {
    kinds: [u8; 1024],
    values: [i64; 1024],
    starts: [u16; 1024],
    relations: [u8; 32],
    lefts: [u16; 32],
    rights: [u16; 32],
}

// Whether every interval is within the bound; D and B, which are counted whether it is or not, so that an `Option` of them would say less.
#[derive(Clone, Copy)]
struct Extent {
    ok: bool,
    ahead: u32,
    back: u32,
}

// Whether the constraint lines have the form, how many they are, what was stored of them, and whether an integer is beyond the bound.
#[derive(Clone, Copy)]
struct ConstraintsRead {
    ok: bool,
    count: usize,
    nodes: usize,
    firsts: usize,
    untils: usize,
    beyond: bool,
}

// 1 for the relation of an `until` line, else 0.
fn until_count(relation: u8) -> usize
    ensures { result ≡ cond (eqb relation 7) 1 0 }
{
    usize::from(relation == nodes::UNTIL_RELATION)
}

// A refusal, with a sheet of zeros.
fn refused(number: u32) -> Reading
    ensures { result ≡ refused_reading number }
{
    let sheet = StoredSheet {
        streams: 0,
        names: [0; 64],
        lengths: [0; 8],
        lows: [0; 8],
        highs: [0; 8],
        stream_kinds: [0; 8],
        letters: 0,
        constraints: 0,
        relations: [0; 32],
        lefts: [0; 32],
        rights: [0; 32],
        nodes: 0,
        kinds: [0; 1024],
        values: [0; 1024],
        starts: [0; 1024],
        untils: 0,
        firsts: 0,
        first_nodes: [0; 8],
        ahead: 0,
        back: 0,
    };
    Reading {
        refusal: number,
        sheet,
    }
}

// What the kind of a node becomes where quotients are rounded down.
fn floored_kind(kind: u8) -> u8
    ensures { result ≡ floored_kind kind }
{
    if kind == nodes::DIVIDE_NODE {
        return nodes::FLOORED_DIVIDE_NODE;
    }
    if kind == nodes::REMAINDER_NODE {
        return nodes::FLOORED_REMAINDER_NODE;
    }
    kind
}

// Turns the kinds of nodes that were read into those that a sheet of the release means.
fn restate(kinds: &mut [u8; 1024], floors: bool)
    requires { length kinds.old ≤ 1024 }
    ensures { kinds.new ≡ meant_kinds floors kinds.old }
{
    if !floors {
        return;
    }
    for kind in kinds.iter_mut() {
        *kind = floored_kind(*kind);
    }
}

// Stores a constraint's relation and the places of the last nodes of its sides.
fn put_constraint(
    relations: &mut [u8; 32],
    lefts: &mut [u16; 32],
    rights: &mut [u16; 32],
    at: usize,
    relation: u8,
    left: usize,
    right: usize,
)
    requires { (at < 32) × (left < 1024) × (right < 1024) }
    ensures { (relations.new ≡ set relations.old at relation) × (lefts.new ≡ set lefts.old at left) × (rights.new ≡ set rights.old at right) }
{
    relations[at] = relation;
    lefts[at] = left as u16;
    rights[at] = right as u16;
}

fn no_constraints() -> ConstraintsRead
    ensures { result.ok ≡ false }
{
    ConstraintsRead {
        ok: false,
        count: 0,
        nodes: 0,
        firsts: 0,
        untils: 0,
        beyond: false,
    }
}

// Reads the constraint lines, where `names` is line 1, and stores them.
fn read_constraints(
    names: &[u8],
    text: &[u8],
    token_starts: &mut [usize; 1024],
    kinds: &mut [u8; 1024],
    values: &mut [i64; 1024],
    starts: &mut [u16; 1024],
    relations: &mut [u8; 32],
    lefts: &mut [u16; 32],
    rights: &mut [u16; 32],
) -> ConstraintsRead
    requires { LinesFit (lines text.now) }
    ensures { ConstraintsOutcome (tokens names.now) (lines text.now) (state (stored kinds.old values.old starts.old) relations.old lefts.old rights.old (counts 0 0 0 0 false)) (state (stored kinds.new values.new starts.new) relations.new lefts.new rights.new result) }
{
    let mut count: usize = 0;
    let mut nodes: usize = 0;
    let mut firsts: usize = 0;
    let mut untils: usize = 0;
    let mut beyond = false;
    let mut at = 0;
    while at < text.len() {
        let line = scan::next_line(text, at);
        let end = line.end;
        let read = parse::parse_constraint(
            names,
            &text[at..end],
            token_starts,
            kinds,
            values,
            starts,
            nodes,
            firsts,
        );
        if !read.ok {
            return no_constraints();
        }
        put_constraint(
            relations,
            lefts,
            rights,
            count,
            read.relation,
            read.left,
            read.right,
        );
        count += 1;
        nodes = read.next;
        firsts = read.firsts;
        untils += until_count(read.relation);
        beyond |= read.beyond;
        at = line.next;
    }
    ConstraintsRead {
        ok: true,
        count,
        nodes,
        firsts,
        untils,
        beyond,
    }
}

// Whether a node is a name that is none of the streams.
fn is_unknown(kind: u8, value: i64, streams: i64) -> bool
    requires { streams ≡ pos (nat_abs streams) }
    ensures { result ≡ is_unknown kind value (nat_abs streams) }
{
    kind == nodes::NAME_NODE && streams <= value
}

// "a name [..] unknown in a constraint": a node of a name whose number is not below the number of streams
fn some_unknown(kinds: &[u8], values: &[i64], streams: usize) -> bool
    requires { (length values.now ≡ length kinds.now) × (streams ≤ 8) }
    ensures { result ≡ some_unknown kinds.now values.now streams }
{
    let bound = streams as i64;
    for (i, kind) in kinds.iter().enumerate() {
        if is_unknown(*kind, values[i], bound) {
            return true;
        }
    }
    false
}

// One side more.
fn with_summary(before: Extent, summary: nodes::Summary) -> Extent
    ensures { result ≡ with_summary before summary }
{
    Extent {
        ok: before.ok & summary.range.is_some(),
        ahead: summary.reach.max(summary.furthest).max(before.ahead),
        back: summary.back.max(before.back),
    }
}

// The extent of all sides.
fn extent_of(
    kinds: &[u8],
    values: &[i64],
    starts: &[u16],
    lows: &[i64],
    highs: &[i64],
    lefts: &[u16],
    rights: &[u16],
) -> Extent
    requires { length rights.now ≡ length lefts.now }
    ensures { result ≡ extent_from (stored kinds.now values.now starts.now) lows.now highs.now no_extent lefts.now rights.now }
{
    let mut extent = Extent {
        ok: true,
        ahead: 0,
        back: 0,
    };
    for (i, left) in lefts.iter().enumerate() {
        let left = bounds::summary(kinds, values, starts, lows, highs, usize::from(*left));
        extent = with_summary(extent, left);
        let right = bounds::summary(kinds, values, starts, lows, highs, usize::from(rights[i]));
        extent = with_summary(extent, right);
    }
    extent
}

fn put_first(first_nodes: &mut [u16; 8], number: i64, place: usize)
    requires { (number ≡ pos (nat_abs number)) × (nat_abs number < 8) × (place < 1024) }
    ensures { first_nodes.new ≡ set first_nodes.old (nat_abs number) place }
{
    let k = number as usize;
    first_nodes[k] = place as u16;
}

// The place of the node of each `first`, by its number.
fn find_firsts(kinds: &[u8], values: &[i64], first_nodes: &mut [u16; 8])
    requires { (length values.now ≡ length kinds.now) × (length kinds.now ≤ 1024) × FewFirsts kinds.now values.now }
    ensures { first_nodes.new ≡ with_firsts 0 kinds.now values.now first_nodes.old }
{
    for (i, kind) in kinds.iter().enumerate() {
        if *kind == nodes::FIRST_NODE {
            put_first(first_nodes, values[i], i);
        }
    }
}

// What refusals 4 to 7 say of the streams and constraints that are stored, but for what the names of line 1 say alone.
fn test_stored(
    kinds: &[u8],
    values: &[i64],
    starts: &[u16],
    lows: &[i64],
    highs: &[i64],
    lefts: &[u16],
    rights: &[u16],
    faulty: bool,
    untils: usize,
    firsts: usize,
) -> lowest_refusal::Tested
    requires { (length values.now ≡ length kinds.now) × (length lows.now ≤ 8) × (length rights.now ≡ length lefts.now) }
    ensures { result ≡ tested_as (stored kinds.now values.now starts.now) lows.now highs.now lefts.now rights.now faulty untils firsts }
{
    let unknown = some_unknown(kinds, values, lows.len());
    let extent = extent_of(kinds, values, starts, lows, highs, lefts, rights);
    let letters = letters::letter_count(lows, highs);
    lowest_refusal::lowest_refusal(
        unknown,
        faulty,
        extent.ok,
        letters,
        untils,
        firsts,
        extent.ahead,
        extent.back,
    )
}

// The answer to a sheet of the form whose names of line 1 are not refused, from what is stored of it.
fn store_sheet(
    streams: StreamsRead,
    stream_arrays: StreamArrays,
    constraints: ConstraintsRead,
    constraint_arrays: ConstraintArrays,
) -> Reading
    requires { HeldSheet streams (stream_tables stream_arrays.names stream_arrays.lengths stream_arrays.lows stream_arrays.highs) stream_arrays.stream_kinds (state (stored constraint_arrays.kinds constraint_arrays.values constraint_arrays.starts) constraint_arrays.relations constraint_arrays.lefts constraint_arrays.rights constraints) }
    ensures { HeldReading streams (stream_tables stream_arrays.names stream_arrays.lengths stream_arrays.lows stream_arrays.highs) stream_arrays.stream_kinds (state (stored constraint_arrays.kinds constraint_arrays.values constraint_arrays.starts) constraint_arrays.relations constraint_arrays.lefts constraint_arrays.rights constraints) result }
{
    let names = stream_arrays.names;
    let lengths = stream_arrays.lengths;
    let lows = stream_arrays.lows;
    let highs = stream_arrays.highs;
    let stream_kinds = stream_arrays.stream_kinds;
    let kinds = constraint_arrays.kinds;
    let values = constraint_arrays.values;
    let starts = constraint_arrays.starts;
    let relations = constraint_arrays.relations;
    let lefts = constraint_arrays.lefts;
    let rights = constraint_arrays.rights;
    let stream_count = streams.count;
    let count = constraints.count;
    let nodes = constraints.nodes;
    let untils = constraints.untils;
    let firsts = constraints.firsts;
    let told = test_stored(
        &kinds[..nodes],
        &values[..nodes],
        &starts[..nodes],
        &lows[..stream_count],
        &highs[..stream_count],
        &lefts[..count],
        &rights[..count],
        streams.faulty | constraints.beyond,
        untils,
        firsts,
    );
    if told.refusal != 0 {
        return refused(told.refusal);
    }
    let mut first_nodes: [u16; 8] = [0; 8];
    find_firsts(&kinds[..nodes], &values[..nodes], &mut first_nodes);
    let sheet = StoredSheet {
        streams: stream_count,
        names,
        lengths,
        lows,
        highs,
        stream_kinds,
        letters: told.letters,
        constraints: count,
        relations,
        lefts,
        rights,
        nodes,
        kinds,
        values,
        starts,
        untils,
        firsts,
        first_nodes,
        ahead: told.ahead as usize,
        back: told.back as usize,
    };
    Reading { refusal: 0, sheet }
}

// The answer to a sheet whose header lines and constraint lines are these, where refusals 1 and 2 do not apply; `floors` tells the release.
fn read_lines(
    names_line: &[u8],
    lows_line: &[u8],
    highs_line: &[u8],
    kinds_line: &[u8],
    text: &[u8],
    floors: bool,
) -> Reading
    requires { (length (tokens names_line.now) ≤ 8) × LinesFit (lines text.now) }
    ensures { result ≡ reading_of (answer_to_form (form_of_lines floors (tokens names_line.now) (tokens lows_line.now) (tokens highs_line.now) (said_tokens (tokens kinds_line.now)) (lines text.now))) }
{
    let header = header::read_header(names_line, lows_line, highs_line, kinds_line);
    let streams = header.streams;
    if !streams.ok {
        return refused(3);
    }
    if streams.count == 0 {
        return refused(3);
    }
    let mut token_starts: [usize; 1024] = [0; 1024];
    let mut kinds: [u8; 1024] = [0; 1024];
    let mut values: [i64; 1024] = [0; 1024];
    let mut starts: [u16; 1024] = [0; 1024];
    let mut relations: [u8; 32] = [0; 32];
    let mut lefts: [u16; 32] = [0; 32];
    let mut rights: [u16; 32] = [0; 32];
    let constraints = read_constraints(
        names_line,
        text,
        &mut token_starts,
        &mut kinds,
        &mut values,
        &mut starts,
        &mut relations,
        &mut lefts,
        &mut rights,
    );
    let refusal = lowest_refusal::form_refusal(
        !(header.said & constraints.ok),
        refusals::names_refused(names_line),
    );
    if refusal != 0 {
        return refused(refusal);
    }
    restate(&mut kinds, floors);
    store_sheet(
        streams,
        header.arrays,
        constraints,
        ConstraintArrays {
            kinds,
            values,
            starts,
            relations,
            lefts,
            rights,
        },
    )
}

// The lowest refusal 1 to 7 that applies, or the stored sheet.
pub fn read(text: &[u8]) -> Reading
    ensures { result ≡ reading_of (answer_to text.now) }
{
    if refusals::bytes_refused(text) {
        return refused(1);
    }
    if refusals::lines_refused(text) {
        return refused(2);
    }
    let header = refusals::header_of(text);
    if !header.whole {
        return refused(3);
    }
    let names_start = header.names_start;
    let names_end = header.names_end;
    let lows_start = header.lows_start;
    let lows_end = header.lows_end;
    let highs_start = header.highs_start;
    let highs_end = header.highs_end;
    let kinds_start = header.kinds_start;
    let kinds_end = header.kinds_end;
    let from = header.constraints;
    read_lines(
        &text[names_start..names_end],
        &text[lows_start..lows_end],
        &text[highs_start..highs_end],
        &text[kinds_start..kinds_end],
        &text[from..],
        header.floors,
    )
}
