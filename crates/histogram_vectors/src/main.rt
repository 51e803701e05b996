// Reads cases from standard input and prints what `histogram` prints for each, with the record in chunks of 1, 3 and 64 bytes, one after the other. The
// enumerator wrote the input and what is expected: two numbers of four bytes, low first, for the length of both texts and that of the sheet, and then the
// bytes of the sheet and of the record.
#![tactic(auto)]

ghost use Rattle.std.specs.Prelude.{◌<◌};

use std::io::{Read, Write};
use tally::LineCounts;

// The lines of the record in chunks of so many bytes.
fn count_chunks(
    record: &[u8],
    chunk: usize,
    names: &[u8],
    lengths: &[u8],
    lows: &[i64],
    highs: &[i64],
    counts: &mut [u64],
) -> LineCounts
    requires { 0 < chunk }
{
    let mut reading = tally::begin();
    let mut at = 0;
    while at < record.len() {
        let end = at + chunk.min(record.len() - at);
        reading = tally::count_chunk(
            reading,
            &record[at..end],
            names,
            lengths,
            lows,
            highs,
            counts,
        );
        at = end;
    }
    tally::finish(reading, names, lengths, lows, highs, counts)
}

// Writes the lines page by page; no text has more than 16 pages.
fn write_pages<W: Write>(
    out: &mut W,
    counted: LineCounts,
    names: &[u8],
    lengths: &[u8],
    lows: &[i64],
    highs: &[i64],
    counts: &[u64],
) {
    let mut page = [0u8; 4096];
    let mut from = 0;
    for _ in 0..16u32 {
        let filled = histogram_text::fill_page(
            counted.refusal,
            counted.total,
            names,
            lengths,
            lows,
            highs,
            counts,
            from,
            &mut page,
        );
        output::write_front(out, &page, filled.size);
        from = filled.next;
    }
}

fn count_record<W: Write>(out: &mut W, sheet: reader::StoredSheet, record: &[u8], chunk: usize)
    requires { 0 < chunk }
{
    let names = sheet.names;
    let lengths = sheet.lengths;
    let lows = sheet.lows;
    let highs = sheet.highs;
    let streams = sheet.streams.min(8);
    let mut counts = [0u64; 1024];
    let counted = count_chunks(
        record,
        chunk,
        &names,
        &lengths[..streams],
        &lows[..streams],
        &highs[..streams],
        &mut counts,
    );
    write_pages(
        out,
        counted,
        &names,
        &lengths[..streams],
        &lows[..streams],
        &highs[..streams],
        &counts,
    );
}

fn write_refusal<W: Write>(out: &mut W, refusal: u32) {
    let mut line = [0u8; 32];
    let size = print::refusal_line(refusal, &mut line);
    output::write_front(out, &line, size);
}

fn answer<W: Write>(out: &mut W, text: &[u8], record: &[u8], chunk: usize)
    requires { 0 < chunk }
{
    let reading = reader::read(text);
    let refusal = reading.refusal;
    if refusal != 0 {
        write_refusal(out, refusal);
        return;
    }
    let sheet = reading.sheet;
    count_record(out, sheet, record, chunk);
}

// One case, the sheet and the record parted by the place where the sheet ends.
fn count_case<W: Write>(out: &mut W, bytes: &[u8], sheet_end: usize) {
    let end = sheet_end.min(bytes.len());
    let text = &bytes[..end];
    let record = &bytes[end..];
    answer(out, text, record, 1);
    answer(out, text, record, 3);
    answer(out, text, record, 64);
}

// One case; whether there was one.
fn one<R: Read, W: Write>(source: &mut R, out: &mut W) -> bool {
    let mut space = [0u8; 65536];
    let Some(case) = cases::read_case(source, 8, &mut space) else {
        return false;
    };
    let sheet_end = cases::number(&case.heading, 4) as usize;
    count_case(out, &space[..case.size], sheet_end);
    true
}

fn main(rt: HostRuntime) {
    let mut source = rt.stdin();
    let mut out = rt.stdout();
    for _ in 0..65536u32 {
        if !one(&mut source, &mut out) {
            return;
        }
    }
}
