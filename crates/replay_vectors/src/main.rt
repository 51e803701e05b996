// Reads cases from standard input and prints what `replay` prints for each, with the record in chunks of 1, 2, 3, 5, 7 and 64 bytes, one after the other.
// The enumerator wrote the input and what is expected: four numbers of four bytes, low first, for the length of the sheet, that of the record, whether a
// start is given and its length, and then the bytes of the sheet, the record and the start.
#![tactic(auto)]

ghost use Rattle.std.specs.Prelude.{◌<◌};

use opening::OpenedTable;
use replaying::Replay;
use std::io::{Read, Write};

fn write_end<W: Write>(
    out: &mut W,
    replay: Replay,
    names: &[u8],
    lengths: &[u8],
    lows: &[i64],
    highs: &[i64],
    entries: &[u16],
) {
    let mut line = [0u8; 32];
    let size = replaying::finish(replay, names, lengths, lows, highs, entries, &mut line);
    output::write_front(out, &line, size);
}

// The record in chunks of so many bytes, by way of few lent bytes.
fn play_chunks<W: Write>(
    out: &mut W,
    state: u32,
    record: &[u8],
    chunk: usize,
    names: &[u8],
    lengths: &[u8],
    lows: &[i64],
    highs: &[i64],
    entries: &[u16],
)
    requires { 0 < chunk }
{
    let mut page = [0u8; 40];
    let mut playing = replaying::begin(state);
    let mut at = 0;
    while at < record.len() {
        let end = at + chunk.min(record.len() - at);
        let written = playback::write_chunk(
            out,
            playing,
            &record[at..end],
            names,
            lengths,
            lows,
            highs,
            entries,
            &mut page,
        );
        playing = written.replay;
        at = end;
    }
    write_end(out, playing, names, lengths, lows, highs, entries);
}

fn write_refusal<W: Write>(out: &mut W, refusal: u32) {
    let mut line = [0u8; 32];
    let size = print::refusal_line(refusal, &mut line);
    output::write_front(out, &line, size);
}

fn answer<W: Write>(
    out: &mut W,
    table: OpenedTable,
    record: &[u8],
    chunk: usize,
    entries: &[u16; 32768],
)
    requires { 0 < chunk }
{
    let refusal = table.refusal;
    if refusal != 0 {
        write_refusal(out, refusal);
        return;
    }
    let sheet = table.sheet;
    let names = sheet.names;
    let lengths = sheet.lengths;
    let lows = sheet.lows;
    let highs = sheet.highs;
    let streams = sheet.streams.min(8);
    play_chunks(
        out,
        table.state,
        record,
        chunk,
        &names,
        &lengths[..streams],
        &lows[..streams],
        &highs[..streams],
        entries,
    );
}

// One case, the sheet, the record and the start given by the places where they end.
fn play_case<W: Write>(out: &mut W, bytes: &[u8], text_end: usize, record_end: usize, given: bool) {
    let end = record_end.min(bytes.len());
    let start = text_end.min(end);
    let mut entries = [0u16; 32768];
    let mut finals = [0u8; 256];
    let table = opening::open_table(
        &bytes[..start],
        given,
        &bytes[end..],
        &mut entries,
        &mut finals,
    );
    let record = &bytes[start..end];
    answer(out, table, record, 1, &entries);
    answer(out, table, record, 2, &entries);
    answer(out, table, record, 3, &entries);
    answer(out, table, record, 5, &entries);
    answer(out, table, record, 7, &entries);
    answer(out, table, record, 64, &entries);
}

// One case; whether there was one.
fn one<R: Read, W: Write>(source: &mut R, out: &mut W, space: &mut [u8]) -> bool {
    if space.len() < 16 {
        return false;
    }
    let n = input::read_full(source, &mut space[..16]);
    if n < 16 {
        return false;
    }
    let text_end = cases::number(space, 0) as usize;
    let record_end = text_end + cases::number(space, 4) as usize;
    let given = cases::number(space, 8) != 0;
    let size = record_end + cases::number(space, 12) as usize;
    if space.len() < size {
        return false;
    }
    let m = input::read_full(source, &mut space[..size]);
    if m < size {
        return false;
    }
    play_case(out, &space[..size], text_end, record_end, given);
    true
}

fn main(rt: HostRuntime) {
    let mut space = [0u8; 65536];
    let mut source = rt.stdin();
    let mut out = rt.stdout();
    let mut left: u32 = 65536;
    while 0 < left {
        if !one(&mut source, &mut out, &mut space) {
            return;
        }
        left -= 1;
    }
}
