// Plays a record against a sheet's table, byte by byte, and writes what `replay` prints to lent bytes. What is kept between two chunks of a record
// is a struct of scalars, so that a record of any length takes the same memory. Every public function takes any replay and any slices.
#![tactic(auto)]

ghost use Rattle.std.specs.Prelude.{◌≡◌, ℕ, ◌<◌, ◌≤◌, List, [], ℤ, length};
ghost use Rattle.meaning.specs.Letter.{letter_count};
ghost use Rattle.automaton.specs.Stored.{entry_at};
ghost use Rattle.letters.specs.Described.{described, cut_count};
ghost use Rattle.replaying.specs.Machine.{PlayedSheet, played_sheet, start_replay, values_replay, ended_replay, advanced_to, led_to, HoldsOutcome, line_outcome, PlaysChunk, Advances, Finishes};

use record_names::NamesState;
use records::LineState;

// What is read next: the line of names, a line of values, or nothing, behind a refusal.
#[derive(Clone, Copy, PartialEq, Eq)]
pub enum Stage {
    Names,
    Values,
    Ended,
}

// Where the reading stands, whether bytes stand since the last byte 10, what is kept of the line, its number, and the state reached so far.
#[derive(Clone, Copy)]
pub struct Replay {
    pub stage: Stage,
    pub begun: bool,
    pub names: NamesState,
    pub line: LineState,
    pub number: u64,
    pub state: u32,
}

// The place in the chunk that is reached, and how many of the lent bytes are written.
#[derive(Clone, Copy)]
pub struct Advanced {
    pub replay: Replay,
    pub next: usize,
    pub size: usize,
}

// The refusal that a line of values leads to, or 0 and the state.
#[derive(Clone, Copy)]
struct Led {
    refusal: u32,
    state: u32,
}

// Whether a line of values is refused, or the state that it leads to; and how many of the lent bytes its line takes.
#[derive(Clone, Copy)]
struct LinePlayed {
    ended: bool,
    state: u32,
    size: usize,
}

// Before the first byte of a record, with the state to start from.
pub fn begin(state: u32) -> Replay
    ensures { result ≡ start_replay state }
{
    Replay {
        stage: Stage::Names,
        begun: false,
        names: record_names::names_start(),
        line: records::line_start(),
        number: 1,
        state: state,
    }
}

// A place of a chunk behind a refusal.
fn ended_at(begun: bool, next: usize, size: usize) -> Advanced
    ensures { result ≡ advanced_to (ended_replay begun) next size }
{
    Advanced {
        replay: Replay {
            stage: Stage::Ended,
            begun: begun,
            names: record_names::names_start(),
            line: records::line_start(),
            number: 0,
            state: 0,
        },
        next: next,
        size: size,
    }
}

// A place of a chunk in the lines of values.
fn values_at(
    begun: bool,
    names: NamesState,
    line: LineState,
    number: u64,
    state: u32,
    next: usize,
    size: usize,
) -> Advanced
    ensures { result ≡ advanced_to (values_replay begun names line number state) next size }
{
    Advanced {
        replay: Replay {
            stage: Stage::Values,
            begun: begun,
            names: names,
            line: line,
            number: number,
            state: state,
        },
        next: next,
        size: size,
    }
}

// The entry of a state for a letter; 0 beyond the list.
fn entry_at(entries: &[u16], letters: u32, state: u32, letter: u32) -> u32
    ensures { result ≡ entry_at letters entries.now state letter }
{
    let place = state as usize * letters as usize + letter as usize;
    if place < entries.len() {
        return entries[place] as u32;
    }
    0
}

// What a line of values leads to: "in the order 13, 14, 12".
fn line_leads(
    line: LineState,
    state: u32,
    letters: u32,
    lows: &[i64],
    highs: &[i64],
    entries: &[u16],
) -> Led
    requires { letters ≡ cut_count (letter_count (described lows.now highs.now)) }
    ensures { result ≡ led_to (line_outcome (played_sheet [] [] lows.now highs.now entries.now) line state) }
{
    let end = records::line_end(line, lows, highs);
    let refusal = end.refusal;
    if refusal != 0 {
        return Led {
            refusal: refusal,
            state: 0,
        };
    }
    let next = entry_at(entries, letters, state, end.letter);
    if next == 65535 {
        return Led {
            refusal: 12,
            state: 0,
        };
    }
    Led {
        refusal: 0,
        state: next,
    }
}

// The end of a line of values: "one such line per value line, counted from 1, with the state reached", or the line of a refusal.
fn end_values(
    line: LineState,
    number: u64,
    state: u32,
    letters: u32,
    lows: &[i64],
    highs: &[i64],
    entries: &[u16],
    out: &mut [u8],
) -> LinePlayed
    requires { (letters ≡ cut_count (letter_count (described lows.now highs.now))) × (32 ≤ length out.old) }
    ensures { HoldsOutcome number (line_outcome (played_sheet [] [] lows.now highs.now entries.now) line state) out.old out.new result }
{
    let led = line_leads(line, state, letters, lows, highs, entries);
    let refusal = led.refusal;
    if refusal != 0 {
        return LinePlayed {
            ended: true,
            state: 0,
            size: print::refusal_line(refusal, out),
        };
    }
    let next = led.state;
    LinePlayed {
        ended: false,
        state: next,
        size: print::pair_line(number, next as u64, out),
    }
}

// Reads the line of names. At its end the heading is printed, or the refusal: "names that differ, print no heading".
fn advance_names(
    replay: Replay,
    chunk: &[u8],
    from: usize,
    names: &[u8],
    lengths: &[u8],
    out: &mut [u8],
) -> Advanced
    requires { (replay.stage ≡ Stage.Names) × (from < length chunk.now) × (32 ≤ length out.old) }
    ensures { (from < result.next) × ((lows highs : List ℤ) (entries : List ℕ) → PlaysChunk (played_sheet names.now lengths.now lows highs entries) replay chunk.now from out.old out.new result) }
{
    let line = replay.line;
    let run = record_lines::run_names(replay.names, chunk, from, names, lengths);
    let read = run.names;
    let at = run.next;
    if chunk.len() <= at {
        return Advanced {
            replay: Replay {
                stage: Stage::Names,
                begun: true,
                names: read,
                line: line,
                number: replay.number,
                state: replay.state,
            },
            next: at,
            size: 0,
        };
    }
    if !record_names::names_end(read, names, lengths) {
        return ended_at(false, at + 1, print::refusal_line(13, out));
    }
    let size = print::text(b"line state\n", out);
    let start = record_names::names_start();
    values_at(
        false,
        start,
        line,
        replay.number,
        replay.state,
        at + 1,
        size,
    )
}

// Reads lines of values, as many as there is room for in the lent bytes, up to one that is refused.
fn advance_values(
    replay: Replay,
    letters: u32,
    chunk: &[u8],
    from: usize,
    lows: &[i64],
    highs: &[i64],
    entries: &[u16],
    out: &mut [u8],
) -> Advanced
    requires { (replay.stage ≡ Stage.Values) × (letters ≡ cut_count (letter_count (described lows.now highs.now))) × (from < length chunk.now) × (32 ≤ length out.old) }
    ensures { (from < result.next) × ((names lengths : List ℕ) → PlaysChunk (played_sheet names lengths lows.now highs.now entries.now) replay chunk.now from out.old out.new result) }
{
    let names = replay.names;
    let mut begun = replay.begun;
    let mut line = replay.line;
    let mut number = replay.number;
    let mut state = replay.state;
    let mut at = from;
    let mut size = 0;
    while at < chunk.len() {
        if out.len() - size < 32 {
            break;
        }
        let run = record_lines::run_values(line, chunk, at, lows, highs);
        line = run.line;
        at = run.next;
        begun = true;
        if at < chunk.len() {
            at += 1;
            let played = end_values(
                line,
                number,
                state,
                letters,
                lows,
                highs,
                entries,
                &mut out[size..],
            );
            size += played.size;
            if played.ended {
                return ended_at(false, at, size);
            }
            begun = false;
            line = records::line_start();
            number = record_lines::one_more(number);
            state = played.state;
        }
    }
    values_at(begun, names, line, number, state, at, size)
}

// Behind a refusal the rest of a chunk prints nothing.
fn skip_rest(chunk: &[u8], from: usize) -> Advanced
    requires { from < length chunk.now }
    ensures { (from < result.next) × ((s : PlayedSheet) (replay : Replay) (out : List ℕ) → replay.stage ≡ Stage.Ended → 32 ≤ length out → PlaysChunk s replay chunk.now from out out result) }
{
    let last = chunk.len() - 1;
    ended_at(chunk[last] != 10, chunk.len(), 0)
}

// Plays a part of the chunk, which ends with the stage, the chunk or the room.
fn advance_stage(
    replay: Replay,
    letters: u32,
    chunk: &[u8],
    from: usize,
    names: &[u8],
    lengths: &[u8],
    lows: &[i64],
    highs: &[i64],
    entries: &[u16],
    out: &mut [u8],
) -> Advanced
    requires { (letters ≡ cut_count (letter_count (described lows.now highs.now))) × (from < length chunk.now) × (32 ≤ length out.old) }
    ensures { (from < result.next) × PlaysChunk (played_sheet names.now lengths.now lows.now highs.now entries.now) replay chunk.now from out.old out.new result }
{
    let stage = replay.stage;
    match stage {
        Stage::Names => advance_names(replay, chunk, from, names, lengths, out),
        Stage::Values => { advance_values(replay, letters, chunk, from, lows, highs, entries, out) }
        Stage::Ended => skip_rest(chunk, from),
    }
}

// Plays the bytes of a chunk from a place on, to its end or until the lent bytes have no room for one more line, and writes what is printed to their
// front. `names` holds eight bytes for each of the sheet's names.
pub fn advance(
    replay: Replay,
    chunk: &[u8],
    from: usize,
    names: &[u8],
    lengths: &[u8],
    lows: &[i64],
    highs: &[i64],
    entries: &[u16],
    out: &mut [u8],
) -> Advanced
    ensures { Advances (played_sheet names.now lengths.now lows.now highs.now entries.now) replay chunk.now from out.old out.new result }
{
    let letters = letters::letter_count(lows, highs);
    let mut playing = replay;
    let mut at = from;
    let mut size = 0;
    while at < chunk.len() {
        if out.len() - size < 32 {
            break;
        }
        let part = advance_stage(
            playing,
            letters,
            chunk,
            at,
            names,
            lengths,
            lows,
            highs,
            entries,
            &mut out[size..],
        );
        playing = part.replay;
        at = part.next;
        size += part.size;
    }
    Advanced {
        replay: playing,
        next: at,
        size: size,
    }
}

// Ends the record: a last line without byte 10 ends with it, and a record without lines has no names. Gives how many of the lent bytes are written:
// none where they have no room for a line.
pub fn finish(
    replay: Replay,
    names: &[u8],
    lengths: &[u8],
    lows: &[i64],
    highs: &[i64],
    entries: &[u16],
    out: &mut [u8],
) -> usize
    ensures { Finishes (played_sheet names.now lengths.now lows.now highs.now entries.now) replay out.old out.new result }
{
    if out.len() < 32 {
        return 0;
    }
    if replay.begun {
        let end = [10u8];
        let ended = advance(replay, &end, 0, names, lengths, lows, highs, entries, out);
        return ended.size;
    }
    let stage = replay.stage;
    match stage {
        Stage::Names => print::refusal_line(13, out),
        Stage::Values => 0,
        Stage::Ended => 0,
    }
}
