// Writes the C header that `export` prints of a table to lent bytes. Each function appends its text from a place on; an answer is the place behind it, or
// one more than the lent bytes where it has no room there.
#![tactic(auto)]

ghost use Rattle.std.specs.Prelude.{suc, ◌≤◌, min, ◌++◌, length, take};
ghost use Rattle.text.specs.Bytes.{bytes_of};
ghost use Rattle.stored.specs.Number.{table_bytes};
ghost use Rattle.step.specs.Step.{entry_width};
ghost use Rattle.print.specs.Append.{Appends};
ghost use Rattle.print.specs.Text.{digits};
ghost use Rattle.print.specs.Lines.{lines_from, stored_names};
ghost use Rattle.export_text.specs.Export.{element, elements, elements_line, quoted, row_line, beginning, counts_line, checksum_line, stream_arrays, table_array, finals_array, ending, export_text};
ghost use Rattle.export_text.specs.Described.{described_export};

use print::{Number, append_bytes, append_each, append_natural};
use record_names::name_in;
use streams::StreamsDescription;

// ---- elements

// A number as an element.
fn append_element(out: &mut [u8], at: usize, value: u64) -> usize
    ensures { Appends at (element (digits value)) out.old out.new result }
{
    let value_at = append_bytes(out, at, b" ");
    let end = append_natural(out, value_at, value);
    append_bytes(out, end, b",")
}

// Numbers as elements.
fn append_elements<N: Number>(out: &mut [u8], at: usize, numbers: &[N]) -> usize
    requires { at ≤ suc (length out.old) }
    ensures { Appends at (elements N.text numbers.now) out.old out.new result }
{
    append_each(out, at, b" ", numbers, b",")
}

// Stored names as elements, each between quotation marks.
fn append_name_elements(
    out: &mut [u8],
    at: usize,
    names: &[u8],
    lengths: &[u8],
    count: usize,
) -> usize
    requires { at ≤ suc (length out.old) }
    ensures { Appends at (elements quoted (stored_names names.now lengths.now count)) out.old out.new result }
{
    let mut to = at;
    for i in 0..count {
        let name_at = append_bytes(out, to, b" \"");
        let end = append_bytes(out, name_at, name_in(names, lengths, i));
        to = append_bytes(out, end, b"\",");
    }
    to
}

// ---- the rows of the table

// The bytes of entries as elements, two an entry, the low one first.
fn append_entry_elements(out: &mut [u8], at: usize, entries: &[u16]) -> usize
    requires { at ≤ suc (length out.old) }
    ensures { Appends at (elements digits (table_bytes entry_width entries.now)) out.old out.new result }
{
    let mut to = at;
    for entry in entries {
        let entry = u64::from(*entry);
        let high_at = append_element(out, to, entry % 256);
        to = append_element(out, high_at, entry / 256);
    }
    to
}

// The line of a row.
fn append_row(out: &mut [u8], at: usize, row: &[u16]) -> usize
    ensures { Appends at (elements_line (elements digits (table_bytes entry_width row.now))) out.old out.new result }
{
    let row_at = append_bytes(out, at, b"   ");
    let end = append_entry_elements(out, row_at, row);
    append_bytes(out, end, b"\n")
}

// A line for the row of each state. Behind the last entry a row has no elements.
fn append_rows(out: &mut [u8], at: usize, entries: &[u16], letters: usize, states: usize) -> usize
    requires { at ≤ suc (length out.old) }
    ensures { Appends at (lines_from (row_line letters entries.now) 0 states) out.old out.new result }
{
    let mut to = at;
    let mut rest = entries;
    for state in 0..states {
        let (row, behind) = rest.split_at(letters.min(rest.len()));
        to = append_row(out, to, row);
        rest = behind;
    }
    to
}

// ---- the header

// The lines before the arrays.
fn put_counts(out: &mut [u8], streams: usize, letters: u32, states: usize, checksum: u32) -> usize
    ensures { Appends 0 (beginning ++ (counts_line streams letters states ++ (checksum_line checksum ++ bytes_of "\n"))) out.old out.new result }
{
    let streams_at = append_bytes(
        out,
        0,
        b"/* The table of a sheet for step.h, written by export. */\n#ifndef SHEET_TABLE_H\n#define SHEET_TABLE_H\n\n#include <stdint.h>\n\nenum { SHEET_STREAMS = ",
    );
    let letters_from = append_natural(out, streams_at, streams as u64);
    let letters_at = append_bytes(out, letters_from, b", SHEET_LETTERS = ");
    let states_from = append_natural(out, letters_at, u64::from(letters));
    let states_at = append_bytes(out, states_from, b", SHEET_STATES = ");
    let checksum_from = append_natural(out, states_at, states as u64);
    let checksum_at = append_bytes(out, checksum_from, b" };\n#define SHEET_CRC32 UINT32_C(");
    let end = append_natural(out, checksum_at, u64::from(checksum));
    append_bytes(out, end, b")\n\n")
}

// The arrays of the streams, whose names are stored, so many of them.
fn append_streams(
    out: &mut [u8],
    at: usize,
    names: &[u8],
    lengths: &[u8],
    count: usize,
    lows: &[i64],
    highs: &[i64],
    kinds: &[u8],
) -> usize
    ensures { Appends at (stream_arrays (stored_names names.now lengths.now count) lows.now highs.now kinds.now) out.old out.new result }
{
    let names_at = append_bytes(
        out,
        at,
        b"static const char *const sheet_names[SHEET_STREAMS] = {\n   ",
    );
    let names_end = append_name_elements(out, names_at, names, lengths, count);
    let lows_at = append_bytes(
        out,
        names_end,
        b"\n};\nstatic const int32_t sheet_lows[SHEET_STREAMS] = {\n   ",
    );
    let lows_end = append_elements(out, lows_at, lows);
    let highs_at = append_bytes(
        out,
        lows_end,
        b"\n};\nstatic const int32_t sheet_highs[SHEET_STREAMS] = {\n   ",
    );
    let highs_end = append_elements(out, highs_at, highs);
    let kinds_at = append_bytes(
        out,
        highs_end,
        b"\n};\nstatic const uint8_t sheet_kinds[SHEET_STREAMS] = {\n   ",
    );
    let kinds_end = append_elements(out, kinds_at, kinds);
    append_bytes(out, kinds_end, b"\n};\n")
}

// The arrays of streams that are described, eight at most.
fn append_described(out: &mut [u8], at: usize, streams: StreamsDescription) -> usize
    ensures { Appends at (stream_arrays (stored_names streams.names streams.lengths (min streams.count 8)) (take (min streams.count 8) streams.lows) (take (min streams.count 8) streams.highs) (take (min streams.count 8) streams.kinds)) out.old out.new result }
{
    let count = streams.count.min(8);
    append_streams(
        out,
        at,
        &streams.names,
        &streams.lengths,
        count,
        &streams.lows[..count],
        &streams.highs[..count],
        &streams.kinds[..count],
    )
}

// The arrays of the table and the header's end.
fn append_table(out: &mut [u8], at: usize, entries: &[u16], letters: usize, finals: &[u8]) -> usize
    ensures { Appends at (table_array letters (length finals.now) entries.now ++ (finals_array finals.now ++ ending)) out.old out.new result }
{
    let rows_at = append_bytes(
        out,
        at,
        b"static const uint8_t sheet_table[2 * SHEET_STATES * SHEET_LETTERS] = {\n",
    );
    let rows_end = append_rows(out, rows_at, entries, letters, finals.len());
    let finals_at = append_bytes(
        out,
        rows_end,
        b"};\nstatic const uint8_t sheet_finals[SHEET_STATES] = {\n   ",
    );
    let finals_end = append_elements(out, finals_at, finals);
    append_bytes(out, finals_end, b"\n};\n\n#endif\n")
}

// Writes the header of a table to the front of the bytes: so many letters, a state for each final byte, and the checksum of the sheet's text.
pub fn fill(
    streams: StreamsDescription,
    letters: u32,
    checksum: u32,
    entries: &[u16],
    finals: &[u8],
    out: &mut [u8],
) -> usize
    ensures { Appends 0 (export_text (described_export streams letters checksum entries.now finals.now)) out.old out.new result }
{
    let count = streams.count.min(8);
    let streams_at = put_counts(out, count, letters, finals.len(), checksum);
    let table_at = append_described(out, streams_at, streams);
    append_table(out, table_at, entries, letters as usize, finals)
}
