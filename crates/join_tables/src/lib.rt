// Joins two tables with their streams' descriptions (document 02, S-9).
#![tactic(auto)]

ghost use Rattle.std.specs.Prelude.{◌≡◌, cond, ◌/◌, min, eqb};
ghost use Rattle.basics.specs.Answers.{Says};
ghost use Rattle.automaton.specs.WellFormed.{IsWellFormed};
ghost use Rattle.outcome.specs.Compile.{situation_bound};
ghost use Rattle.given_tables.specs.Given.{given_table};
ghost use Rattle.pair_outcome.specs.Outcome.{join_room, join_tables, pair_answer};
ghost use Rattle.join_tables.specs.Outcome.{refused_join, told_by, JoinOutcome};

use joined_streams::JoinedStreams;
use pairs::PairSizes;
use streams::StreamsDescription;

// The refusal's number or 0; with 0 the number of states, of reachable pairs of states, of joined letters, and the joined streams. Laid out as in C, so that
// an exported function can give it back.
#[repr(C)]
#[derive(Clone, Copy)]
pub struct JoinAnswer {
    pub refusal: u32,
    pub states: u32,
    pub pairs: u32,
    pub letters: u32,
    pub streams: StreamsDescription,
}

// The lengths of the tables that are lent with one number a row.
#[derive(Clone, Copy)]
struct RowTables {
    finals: usize,
    keys: usize,
    live: usize,
    class: usize,
    next: usize,
    heads: usize,
    links: usize,
    envelopes: usize,
}

// "the fewest rows any lent table holds"; none for 0 letters.
fn rows_lent(letters: usize, entries: usize, rows: RowTables) -> usize
    ensures { result ≡ min (entries / letters) (min rows.finals (min rows.keys (min rows.live (min rows.class (min rows.next (min rows.heads (min rows.links rows.envelopes))))))) }
{
    if letters == 0 {
        return 0;
    }
    (entries / letters)
        .min(rows.finals)
        .min(rows.keys)
        .min(rows.live)
        .min(rows.class)
        .min(rows.next)
        .min(rows.heads)
        .min(rows.links)
        .min(rows.envelopes)
}

// Whether both tables are well formed.
fn well_formed(
    left_entries: &[u16],
    left_finals: &[u8],
    left_letters: usize,
    right_entries: &[u16],
    right_finals: &[u8],
    right_letters: usize,
) -> bool
    ensures { Says result (IsWellFormed left_letters left_entries.now left_finals.now × IsWellFormed right_letters right_entries.now right_finals.now) }
{
    tables::is_well_formed(left_entries, left_finals, left_letters)
        && tables::is_well_formed(right_entries, right_finals, right_letters)
}

fn refused(refusal: u32) -> JoinAnswer
    ensures { result ≡ refused_join refusal }
{
    JoinAnswer {
        refusal,
        states: 0,
        pairs: 0,
        letters: 0,
        streams: StreamsDescription::none(),
    }
}

// The answer for tables and streams that are not refused, from the rows lent, the pairs found and what the table's making gave: a refusal of pairs that were
// found says that they do not stay final.
fn made(streams: JoinedStreams, rows: usize, pairs: usize, table: minimise::Minimised) -> JoinAnswer
    ensures { result ≡ told_by (pair_answer rows (min pairs situation_bound) table) streams }
{
    match table.refusal {
        0 => JoinAnswer {
            refusal: 0,
            states: table.states,
            pairs: pairs.min(4096) as u32,
            letters: streams.letters,
            streams: streams.streams,
        },
        refusal if pairs != 0 => refused(refusal),
        _ if rows < 4096 => refused(10),
        _ => refused(8),
    }
}

// The refusal of the tables and streams: 11 where a table is not well formed, else that of the streams.
fn first_refusal(well_formed: bool, streams: JoinedStreams) -> u32
    ensures { result ≡ cond well_formed streams.refusal 11 }
{
    if well_formed { streams.refusal } else { 11 }
}

fn answered(
    refusal: u32,
    streams: JoinedStreams,
    rows: usize,
    pairs: usize,
    table: minimise::Minimised,
) -> JoinAnswer
    ensures { result ≡ cond (eqb refusal 0) (told_by (pair_answer rows (min pairs situation_bound) table) streams) (refused_join refusal) }
{
    if refusal == 0 {
        made(streams, rows, pairs, table)
    } else {
        refused(refusal)
    }
}

fn letters_of(refusal: u32, streams: JoinedStreams) -> usize
    ensures { result ≡ cond (eqb refusal 0) streams.letters 0 }
{
    if refusal == 0 {
        streams.letters as usize
    } else {
        0
    }
}

// Joins two tables.
pub fn join_tables(
    left_entries: &[u16],
    left_finals: &[u8],
    left_letters: usize,
    left_streams: StreamsDescription,
    right_entries: &[u16],
    right_finals: &[u8],
    right_letters: usize,
    right_streams: StreamsDescription,
    entries: &mut [u16],
    finals: &mut [u8],
    keys: &mut [u32],
    live: &mut [u32],
    class: &mut [u32],
    next: &mut [u32],
    heads: &mut [u32],
    links: &mut [u32],
    envelopes: &mut [u32],
) -> JoinAnswer
    ensures { JoinOutcome (given_table left_entries.now left_finals.now left_letters left_streams) (given_table right_entries.now right_finals.now right_letters right_streams) (join_room entries.old finals.old keys.old live.old class.old next.old heads.old links.old envelopes.old) result (join_tables entries.new finals.new keys.new live.new class.new next.new heads.new links.new envelopes.new) }
{
    let streams = joined_streams::join_streams(
        left_streams,
        left_letters,
        right_streams,
        right_letters,
    );
    let fit = well_formed(
        left_entries,
        left_finals,
        left_letters,
        right_entries,
        right_finals,
        right_letters,
    );
    let refusal = first_refusal(fit, streams);
    let letters = letters_of(refusal, streams);
    let rows = rows_lent(
        letters,
        entries.len(),
        RowTables {
            finals: finals.len(),
            keys: keys.len(),
            live: live.len(),
            class: class.len(),
            next: next.len(),
            heads: heads.len(),
            links: links.len(),
            envelopes: envelopes.len(),
        },
    );
    let pairs = pairs::find_pairs(
        left_entries,
        left_finals,
        right_entries,
        right_finals,
        &streams.left,
        &streams.right,
        PairSizes {
            left_letters,
            right_letters,
            letters,
            limit: compiled::most_situations(rows),
        },
        entries,
        finals,
        keys,
        heads,
        links,
    );
    let table = minimise::minimise(
        entries, finals, letters, pairs, live, class, next, heads, links, envelopes,
    );
    answered(refusal, streams, rows, pairs, table)
}
