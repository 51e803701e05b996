// Prints what `join` prints for the texts of two sheets: the joined table, or the line of a refusal. The crate `table_pages` writes the bytes; what is left here
// are the calls.
#![tactic(auto)]

ghost use Rattle.std.specs.Prelude.{◌≡◌, ◌≤◌, length};
ghost use Rattle.given_tables.specs.Given.{given_table};
ghost use Rattle.join_tables.specs.Outcome.{JoinOutcome};
ghost use Rattle.opened_tables.specs.Used.{opened_given};
ghost use Rattle.show_join.specs.Prints.{join_room_of_rows, join_tables_of_rows};
ghost use Rattle.show_join.specs.Shows.{ShowsTables, ShowsBoth, ShowsFrom, ShowsJoin};

use compiled_sheet::stored_streams;
use join_tables::JoinAnswer;
use opened_tables::{used_entries, used_rows};
use opening::OpenedTable;
use output::Handed;
use std::io::Write;
use streams::StreamsDescription;

// Joins two tables in lent tables of so many rows.
fn join_in_rows(
    left_entries: &[u16],
    left_finals: &[u8],
    left_letters: usize,
    left_streams: StreamsDescription,
    right_entries: &[u16],
    right_finals: &[u8],
    right_letters: usize,
    right_streams: StreamsDescription,
    rows: usize,
    entries: &mut [u16],
    finals: &mut [u8],
) -> JoinAnswer
    requires { rows ≤ 256 }
    ensures { JoinOutcome (given_table left_entries.now left_finals.now left_letters left_streams) (given_table right_entries.now right_finals.now right_letters right_streams) (join_room_of_rows (length entries.old) (length finals.old) rows) result (join_tables_of_rows rows entries.new finals.new) }
{
    let mut keys = lend::work_room();
    let mut live = lend::work_room();
    let mut class = lend::work_room();
    let mut next = lend::work_room();
    let mut heads = lend::work_room();
    let mut links = lend::work_room();
    let mut envelopes = lend::work_room();
    join_tables::join_tables(
        left_entries,
        left_finals,
        left_letters,
        left_streams,
        right_entries,
        right_finals,
        right_letters,
        right_streams,
        entries,
        finals,
        &mut keys[..rows],
        &mut live[..rows],
        &mut class[..rows],
        &mut next[..rows],
        &mut heads[..rows],
        &mut links[..rows],
        &mut envelopes[..rows],
    )
}

// Joins two tables in the rows lent for the joined letters, and prints the joined table or the refusal. Streams that are refused have no letters, and their join
// meets the same refusal.
fn show_tables<W: Write>(
    out: &mut W,
    left_entries: &[u16],
    left_finals: &[u8],
    left_letters: usize,
    left_streams: StreamsDescription,
    right_entries: &[u16],
    right_finals: &[u8],
    right_letters: usize,
    right_streams: StreamsDescription,
) -> Handed
    ensures { ShowsTables (given_table left_entries.now left_finals.now left_letters left_streams) (given_table right_entries.now right_finals.now right_letters right_streams) result }
{
    let streams = joined_streams::join_streams(
        left_streams,
        left_letters,
        right_streams,
        right_letters,
    );
    let letters = streams.letters as usize;
    let rows = lend::rows_lent(letters);
    let room = rows * letters;
    let mut entries = [0u16; 32768];
    let mut finals = [0u8; 256];
    let answer = join_in_rows(
        left_entries,
        left_finals,
        left_letters,
        left_streams,
        right_entries,
        right_finals,
        right_letters,
        right_streams,
        rows,
        &mut entries[..room],
        &mut finals[..rows],
    );
    table_pages::write_table(
        out,
        answer.streams,
        answer.letters as usize,
        answer.refusal,
        answer.states,
        &entries,
        &finals,
    )
}

// The refusal with which the first or the second table was opened, or what is printed of both.
fn show_both<W: Write>(
    out: &mut W,
    first: OpenedTable,
    entries: &[u16],
    finals: &[u8],
    second: OpenedTable,
    second_entries: &[u16],
    second_finals: &[u8],
) -> Handed
    requires { (length entries.now ≡ 32768) × (length finals.now ≡ 256) × (length second_entries.now ≡ 32768) × (length second_finals.now ≡ 256) }
    ensures { ShowsBoth first second (opened_given first entries.now finals.now) (opened_given second second_entries.now second_finals.now) result }
{
    if first.refusal != 0 {
        return pages::write_refusal(out, first.refusal);
    }
    if second.refusal != 0 {
        return pages::write_refusal(out, second.refusal);
    }
    let sheet = first.sheet;
    let rows = used_rows(first);
    let used = used_entries(first);
    let second_sheet = second.sheet;
    let second_rows = used_rows(second);
    let second_used = used_entries(second);
    show_tables(
        out,
        &entries[..used],
        &finals[..rows],
        sheet.letters as usize,
        stored_streams(sheet),
        &second_entries[..second_used],
        &second_finals[..second_rows],
        second_sheet.letters as usize,
        stored_streams(second_sheet),
    )
}

// The same for a first table that was opened.
fn show_from<W: Write>(
    out: &mut W,
    first: OpenedTable,
    entries: &[u16],
    finals: &[u8],
    second: &[u8],
) -> Handed
    requires { (length entries.now ≡ 32768) × (length finals.now ≡ 256) }
    ensures { ShowsFrom first entries.now finals.now second.now result }
{
    let mut second_entries = [0u16; 32768];
    let mut second_finals = [0u8; 256];
    let opened = opening::open_table(second, false, b"", &mut second_entries, &mut second_finals);
    show_both(
        out,
        first,
        entries,
        finals,
        opened,
        &second_entries,
        &second_finals,
    )
}

// Prints the joined table of two sheets, or the refusal of the first, of the second, or of the join.
pub fn show_join<W: Write>(out: &mut W, first: &[u8], second: &[u8]) -> Handed
    ensures { ShowsJoin first.now second.now result }
{
    let mut entries = [0u16; 32768];
    let mut finals = [0u8; 256];
    let opened = opening::open_table(first, false, b"", &mut entries, &mut finals);
    show_from(out, opened, &entries, &finals, second)
}
