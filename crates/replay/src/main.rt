// Plays a record against a sheet: `replay SHEET RECORD [START]`, the names of two files, and the state to start from instead of 0. A file that cannot be
// read counts as empty. The record is read in chunks of a fixed size, so that a record of any length takes the same memory. Where a later read of it
// fails, the lines printed remain, and a barred byte stands for what was not read. Failed reads and writes are told on standard error.
#![tactic(auto)]

use opening::OpenedTable;
use reader::StoredSheet;
use replaying::{Replay, Stage};
use std::env::Env;
use std::io::{Read, Write};
use std::rt::Files;

// The most reads of a record, so that the loop ends and line numbers fit. Full reads, of 65,536 bytes, come to every length that a file can have; a read
// may be shorter.
const READS: u64 = 140737488355328;

// Whether all lines were written, and whether a read failed.
#[derive(Clone, Copy)]
struct Played {
    whole: bool,
    failed: bool,
}

// Ends the record, and writes what its end prints; whether all was written.
fn write_end<W: Write>(
    out: &mut W,
    replay: Replay,
    names: &[u8],
    lengths: &[u8],
    lows: &[i64],
    highs: &[i64],
    entries: &[u16],
) -> bool {
    let mut line = [0u8; 32];
    let size = replaying::finish(replay, names, lengths, lows, highs, entries, &mut line);
    output::write_front(out, &line, size).whole
}

// Ends the record, behind a barred byte where it was not read whole.
fn end_record<W: Write>(
    out: &mut W,
    replay: Replay,
    cut: bool,
    names: &[u8],
    lengths: &[u8],
    lows: &[i64],
    highs: &[i64],
    entries: &[u16],
) -> bool {
    if !cut {
        return write_end(out, replay, names, lengths, lows, highs, entries);
    }
    let barred = [0u8];
    let mut line = [0u8; 32];
    let written = playback::write_chunk(
        out, replay, &barred, names, lengths, lows, highs, entries, &mut line,
    );
    write_end(out, written.replay, names, lengths, lows, highs, entries)
}

// Reads the record chunk by chunk, and writes what each prints, up to its end or to a refusal.
fn play<R: Read, W: Write>(
    source: &mut Option<R>,
    out: &mut W,
    state: u32,
    names: &[u8],
    lengths: &[u8],
    lows: &[i64],
    highs: &[i64],
    entries: &[u16],
) -> Played {
    let mut chunk = [0u8; 65536];
    let mut page = [0u8; 65536];
    let mut playing = replaying::begin(state);
    let mut failed = false;
    let mut left = READS;
    while 0 < left {
        let got = input::read_answer(source, &mut chunk);
        failed = got < 0;
        let size = io::count(got, &chunk);
        if size == 0 {
            break;
        }
        let written = playback::write_chunk(
            out,
            playing,
            &chunk[..size],
            names,
            lengths,
            lows,
            highs,
            entries,
            &mut page,
        );
        playing = written.replay;
        if playing.stage == Stage::Ended || !written.whole {
            return Played {
                whole: written.whole,
                failed: false,
            };
        }
        left -= 1;
    }
    let cut = failed && left < READS;
    Played {
        whole: end_record(out, playing, cut, names, lengths, lows, highs, entries),
        failed,
    }
}

// Plays the record that the second argument names.
fn play_file<R: Env + Files, W: Write>(
    rt: &R,
    out: &mut W,
    sheet: StoredSheet,
    state: u32,
    entries: &[u16],
) -> Played {
    let streams = sheet.streams.min(8);
    let mut source = input::open_argument(rt, 2);
    play(
        &mut source,
        out,
        state,
        &sheet.names,
        &sheet.lengths[..streams],
        &sheet.lows[..streams],
        &sheet.highs[..streams],
        entries,
    )
}

// Writes the line of a refusal; whether all was written.
fn write_refusal<W: Write>(out: &mut W, refusal: u32) -> bool {
    let mut line = [0u8; 32];
    let size = print::refusal_line(refusal, &mut line);
    output::write_front(out, &line, size).whole
}

// Writes the refusal of the sheet or the start, or plays the record.
fn answer<R: Env + Files, W: Write>(
    rt: &R,
    out: &mut W,
    table: OpenedTable,
    entries: &[u16; 32768],
) -> Played {
    if table.refusal != 0 {
        return Played {
            whole: write_refusal(out, table.refusal),
            failed: false,
        };
    }
    play_file(rt, out, table.sheet, table.state, entries)
}

fn main(rt: HostRuntime) {
    let mut text = [0u8; 16385];
    let mut source = input::open_argument(&rt, 1);
    let input = input::read_input(&mut source, &mut text);
    drop(source);
    output::tell(
        &mut rt.stderr(),
        input.failed,
        "replay: the sheet cannot be read\n",
    );
    let mut start = [0u8; 4096];
    let argument = input::take_argument(&rt, 3, &mut start);
    let mut entries = [0u16; 32768];
    let mut finals = [0u8; 256];
    let table = opening::open_table(
        &text[..input.size],
        argument.is_some(),
        &start[..argument.unwrap_or(0)],
        &mut entries,
        &mut finals,
    );
    let played = answer(&rt, &mut rt.stdout(), table, &entries);
    output::tell(
        &mut rt.stderr(),
        played.failed,
        "replay: the record cannot be read\n",
    );
    output::tell(
        &mut rt.stderr(),
        !played.whole,
        "replay: the states cannot be written\n",
    );
}
