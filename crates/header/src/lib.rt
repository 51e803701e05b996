// Reads the header lines and the line of kinds, and stores the streams.
#![tactic(auto)]

ghost use Rattle.std.specs.Prelude.{◌≡◌, false, ◌*◌, ◌<◌, ◌≤◌, length, set, replicate};
ghost use Rattle.std.proofs.lemmas.List.Edits.{sets};
ghost use Rattle.text.specs.Bytes.{tokens};
ghost use Rattle.header.specs.Streams.{stream_tables, no_stream_tables, StreamsOutcome, KindsOutcome, HeaderOutcome};

use scan::IntegerError;

// Whether the header lines have the form, how many streams they give, and whether a range is refused.
#[derive(Clone, Copy)]
pub struct StreamsRead {
    pub ok: bool,
    pub count: usize,
    pub faulty: bool,
}

// What is stored of the streams: eight bytes for each name, the names' lengths, the ranges, and the kinds, 0 for `set` and 1 for `read`.
#[derive(Clone, Copy)]
pub struct StreamArrays {
    pub names: [u8; 64],
    pub lengths: [u8; 8],
    pub lows: [i64; 8],
    pub highs: [i64; 8],
    pub stream_kinds: [u8; 8],
}

// What is read of the header lines, whether the line of kinds says nothing or a kind for each stream, and what is stored.
#[derive(Clone, Copy)]
pub struct HeaderRead {
    pub streams: StreamsRead,
    pub said: bool,
    pub arrays: StreamArrays,
}

// Stores a stream's name.
fn put_name(names: &mut [u8; 64], lengths: &mut [u8; 8], stream: usize, name: &[u8])
    requires { (stream < 8) × (length name.now ≤ 8) }
    ensures { (names.new ≡ sets names.old (stream * 8) name.now) × (lengths.new ≡ set lengths.old stream (length name.now)) }
{
    let from = stream * 8;
    names[from..from + name.len()].copy_from_slice(name);
    lengths[stream] = name.len() as u8;
}

// Stores a stream's range.
fn put_range(lows: &mut [i64; 8], highs: &mut [i64; 8], stream: usize, low: i64, high: i64)
    requires { stream < 8 }
    ensures { (lows.new ≡ set lows.old stream low) × (highs.new ≡ set highs.old stream high) }
{
    lows[stream] = low;
    highs[stream] = high;
}

fn no_streams() -> StreamsRead
    ensures { result.ok ≡ false }
{
    StreamsRead {
        ok: false,
        count: 0,
        faulty: false,
    }
}

// Reads the three header lines token by token and stores the streams. An end beyond the bound is stored as 0.
fn read_streams(
    names_line: &[u8],
    lows_line: &[u8],
    highs_line: &[u8],
    names: &mut [u8; 64],
    lengths: &mut [u8; 8],
    lows: &mut [i64; 8],
    highs: &mut [i64; 8],
) -> StreamsRead
    requires names_line_len_bound { length (tokens names_line.now) ≤ 8 }
    requires highs_value { stream_tables names.old lengths.old lows.old highs.old ≡ no_stream_tables }
    ensures { StreamsOutcome (tokens names_line.now) (tokens lows_line.now) (tokens highs_line.now) result (stream_tables names.new lengths.new lows.new highs.new) }
{
    let mut count: usize = 0;
    let mut faulty = false;
    let mut name_at = 0;
    let mut low_at = 0;
    let mut high_at = 0;
    loop {
        let name = scan::next_token(names_line, name_at);
        let name_start = name.start;
        let name_end = name.end;
        let low = scan::next_token(lows_line, low_at);
        let low_start = low.start;
        let low_end = low.end;
        let high = scan::next_token(highs_line, high_at);
        let high_start = high.start;
        let high_end = high.end;
        if name_start == name_end {
            return StreamsRead {
                ok: (low_start == low_end) & (high_start == high_end),
                count,
                faulty,
            };
        }
        let named = scan::is_name(&names_line[name_start..name_end]);
        let lowest = scan::read_integer(&lows_line[low_start..low_end]);
        let highest = scan::read_integer(&highs_line[high_start..high_end]);
        if !named
            || lowest == Err(IntegerError::NoInteger)
            || highest == Err(IntegerError::NoInteger)
        {
            return no_streams();
        }
        let least = lowest.unwrap_or(0);
        let most = highest.unwrap_or(0);
        put_name(names, lengths, count, &names_line[name_start..name_end]);
        put_range(lows, highs, count, least, most);
        faulty |= lowest_refusal::range_faulty(lowest.is_err(), highest.is_err(), least, most);
        count += 1;
        name_at = name_end;
        low_at = low_end;
        high_at = high_end;
    }
}

// Reads the line of kinds, "one of these for each stream", and stores them; a line without tokens says nothing, and all are `set`.
fn read_kinds(line: &[u8], count: usize, stream_kinds: &mut [u8; 8]) -> bool
    requires { (count ≤ 8) × (stream_kinds.old ≡ replicate 8 0) }
    ensures { KindsOutcome (tokens line.now) count result stream_kinds.new }
{
    let total = scan::token_count(line);
    if total == 0 {
        return true;
    }
    if total != count {
        return false;
    }
    let mut at = 0;
    for stream in 0..count {
        let scan::Span { start, end } = scan::next_token(line, at);
        let kind = vocabulary::stream_kind_code(&line[start..end]);
        if kind == nodes::NO_CODE {
            return false;
        }
        stream_kinds[stream] = kind;
        at = end;
    }
    true
}

// More names than streams can be.
fn no_header() -> HeaderRead
    ensures { result.streams.ok ≡ false }
{
    HeaderRead {
        streams: no_streams(),
        said: false,
        arrays: StreamArrays {
            names: [0; 64],
            lengths: [0; 8],
            lows: [0; 8],
            highs: [0; 8],
            stream_kinds: [0; 8],
        },
    }
}

// Reads the three header lines and the line of kinds.
pub fn read_header(
    names_line: &[u8],
    lows_line: &[u8],
    highs_line: &[u8],
    kinds_line: &[u8],
) -> HeaderRead
    ensures { HeaderOutcome (tokens names_line.now) (tokens lows_line.now) (tokens highs_line.now) (tokens kinds_line.now) result }
{
    if 8 < scan::token_count(names_line) {
        return no_header();
    }
    let mut names: [u8; 64] = [0; 64];
    let mut lengths: [u8; 8] = [0; 8];
    let mut lows: [i64; 8] = [0; 8];
    let mut highs: [i64; 8] = [0; 8];
    let streams = read_streams(
        names_line,
        lows_line,
        highs_line,
        &mut names,
        &mut lengths,
        &mut lows,
        &mut highs,
    );
    let mut stream_kinds: [u8; 8] = [0; 8];
    let said = read_kinds(kinds_line, streams.count.min(8), &mut stream_kinds);
    HeaderRead {
        streams,
        said,
        arrays: StreamArrays {
            names,
            lengths,
            lows,
            highs,
            stream_kinds,
        },
    }
}
