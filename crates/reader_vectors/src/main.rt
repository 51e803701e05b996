// Reads sheets from standard input and prints a line for each: the refusal, how many streams, the letters, D, B, the untils and the firsts, and
// then each stream's name, low, high and kind. The enumerator wrote the input and what is expected: a number of four bytes, low first, and then as
// many bytes of a sheet, sheet after sheet.
#![tactic(auto)]

use cases::{print, print_signed};
use std::io::{Read, Write};

// A space, and a stream's name, low, high and kind.
fn print_stream<W: Write>(
    out: &mut W,
    names: &[u8],
    from: usize,
    length: u8,
    low: i64,
    high: i64,
    kind: u8,
) {
    let start = cases::bytes_within(from, names);
    let rest = &names[start..];
    let size = cases::bytes_within(length as usize, rest);
    let _ = output::write_whole(out, b" ");
    let _ = output::write_whole(out, &rest[..size]);
    let _ = output::write_whole(out, b" ");
    print_signed(out, low, b" ");
    print_signed(out, high, b" ");
    print(out, kind as u64, b"");
}

fn print_streams<W: Write>(
    out: &mut W,
    names: &[u8; 64],
    lengths: &[u8; 8],
    lows: &[i64; 8],
    highs: &[i64; 8],
    stream_kinds: &[u8; 8],
    count: usize,
) {
    let mut i = 0;
    while i < 8 {
        if i < count {
            let length = lengths[i];
            let low = lows[i];
            let high = highs[i];
            let kind = stream_kinds[i];
            print_stream(out, names, i * 8, length, low, high, kind);
        }
        i += 1;
    }
}

fn print_sheet<W: Write>(out: &mut W, text: &[u8]) {
    let reading = reader::read(text);
    let sheet = reading.sheet;
    print(out, reading.refusal as u64, b" ");
    print(out, sheet.streams as u64, b" ");
    print(out, sheet.letters as u64, b" ");
    print(out, sheet.ahead as u64, b" ");
    print(out, sheet.back as u64, b" ");
    print(out, sheet.untils as u64, b" ");
    print(out, sheet.firsts as u64, b"");
    let names = sheet.names;
    let lengths = sheet.lengths;
    let lows = sheet.lows;
    let highs = sheet.highs;
    let stream_kinds = sheet.stream_kinds;
    print_streams(
        out,
        &names,
        &lengths,
        &lows,
        &highs,
        &stream_kinds,
        sheet.streams,
    );
    let _ = output::write_whole(out, b"\n");
}

// One case; whether there was one.
fn one<R: Read, W: Write>(source: &mut R, out: &mut W) -> bool {
    let mut space = [0u8; 65536];
    let Some(case) = cases::read_case(source, 4, &mut space) else {
        return false;
    };
    print_sheet(out, &space[..case.size]);
    true
}

fn main(rt: HostRuntime) {
    let mut source = rt.stdin();
    let mut out = rt.stdout();
    for _ in 0..65536u32 {
        if !one(&mut source, &mut out) {
            return;
        }
    }
}
