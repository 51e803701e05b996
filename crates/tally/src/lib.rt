// Counts the value lines of a record by the letters that they are, chunk by chunk. What is kept between two chunks is a struct of scalars and one count for
// each letter, so that a record of any length takes the same memory. Every public function takes any tally and any slices.
#![tactic(auto)]

ghost use Rattle.std.specs.Prelude.{◌≡◌, Bool, List, ℕ, ◌<◌, ℤ, length, replicate};
ghost use Rattle.text.specs.Fold.{run_bytes};
ghost use Rattle.tally.specs.Machine.{counted_sheet, counting, tally_at, start_tally, refused_counts, count_byte, last_counted, FinishesTally, ReadsPart};

use record_names::NamesState;
use records::LineState;

// What is read next, with what is kept of it: the line of names; a line of values, behind so many; or nothing, behind a refusal.
#[derive(Clone, Copy)]
pub enum TallyStage {
    Names(NamesState),
    Values(LineState, u64),
    Refused(u32),
}

// Where the reading stands, and whether bytes stand since the last byte 10.
#[derive(Clone, Copy)]
pub struct Tally {
    pub begun: bool,
    pub stage: TallyStage,
}

// 13 or 14, or 0 with the number of value lines.
#[derive(Clone, Copy)]
pub struct LineCounts {
    pub refusal: u32,
    pub total: u64,
}

// A part of a chunk, read to a place.
#[derive(Clone, Copy)]
struct Part {
    tally: Tally,
    next: usize,
}

// Before the first byte of a record.
pub fn begin() -> Tally
    ensures { result ≡ start_tally }
{
    Tally {
        begun: false,
        stage: TallyStage::Names(record_names::names_start()),
    }
}

// A place of a chunk, with a stage.
fn part_to(begun: bool, stage: TallyStage, next: usize) -> Part
    ensures { result ≡ record { tally = tally_at begun stage; next = next } }
{
    Part {
        tally: Tally { begun, stage },
        next,
    }
}

// Reads the line of names to its end, or to that of the chunk.
fn count_names(line: NamesState, chunk: &[u8], from: usize, names: &[u8], lengths: &[u8]) -> Part
    requires { from < length chunk.now }
    ensures { (begun : Bool) (lows highs : List ℤ) (counts : List ℕ) → ReadsPart (counted_sheet names.now lengths.now lows highs) (tally_at begun (TallyStage.Names line)) chunk.now from counts counts result }
{
    let run = record_lines::run_names(line, chunk, from, names, lengths);
    let at = run.next;
    if chunk.len() <= at {
        return part_to(true, TallyStage::Names(run.names), at);
    }
    if record_names::names_end(run.names, names, lengths) {
        return part_to(false, TallyStage::Values(records::line_start(), 0), at + 1);
    }
    part_to(false, TallyStage::Refused(13), at + 1)
}

// Reads lines of values to the end of the chunk, or to one that is refused, and counts them.
fn count_values(
    begun: bool,
    start: LineState,
    before: u64,
    chunk: &[u8],
    from: usize,
    lows: &[i64],
    highs: &[i64],
    counts: &mut [u64],
) -> Part
    requires { from < length chunk.now }
    ensures { (names lengths : List ℕ) → ReadsPart (counted_sheet names lengths lows.now highs.now) (tally_at begun (TallyStage.Values start before)) chunk.now from counts.old counts.new result }
{
    let mut within = begun;
    let mut line = start;
    let mut total = before;
    let mut at = from;
    while at < chunk.len() {
        let run = record_lines::run_values(line, chunk, at, lows, highs);
        line = run.line;
        at = run.next;
        within = true;
        if at < chunk.len() {
            at += 1;
            let end = records::line_end(line, lows, highs);
            if end.refusal != 0 {
                return part_to(false, TallyStage::Refused(end.refusal), at);
            }
            held_lines::raise(counts, end.letter as usize);
            within = false;
            line = records::line_start();
            total = record_lines::one_more(total);
        }
    }
    part_to(within, TallyStage::Values(line, total), at)
}

// Behind a refusal the rest of a chunk is not looked at.
fn skip_rest(refusal: u32, chunk: &[u8], from: usize) -> Part
    requires { from < length chunk.now }
    ensures { (names lengths : List ℕ) (lows highs : List ℤ) (begun : Bool) (counts : List ℕ) → ReadsPart (counted_sheet names lengths lows highs) (tally_at begun (TallyStage.Refused refusal)) chunk.now from counts counts result }
{
    let last = chunk.len() - 1;
    part_to(
        chunk[last] != b'\n',
        TallyStage::Refused(refusal),
        chunk.len(),
    )
}

// Reads a part of the chunk, which ends with the stage or the chunk.
fn count_part(
    tally: Tally,
    chunk: &[u8],
    from: usize,
    names: &[u8],
    lengths: &[u8],
    lows: &[i64],
    highs: &[i64],
    counts: &mut [u64],
) -> Part
    requires { from < length chunk.now }
    ensures { ReadsPart (counted_sheet names.now lengths.now lows.now highs.now) tally chunk.now from counts.old counts.new result }
{
    match tally.stage {
        TallyStage::Names(line) => count_names(line, chunk, from, names, lengths),
        TallyStage::Values(line, total) => {
            count_values(tally.begun, line, total, chunk, from, lows, highs, counts)
        }
        TallyStage::Refused(refusal) => skip_rest(refusal, chunk, from),
    }
}

// Reads all bytes of a chunk, and counts the lines of values that end in it. `names` holds eight bytes for each of the sheet's names.
pub fn count_chunk(
    tally: Tally,
    chunk: &[u8],
    names: &[u8],
    lengths: &[u8],
    lows: &[i64],
    highs: &[i64],
    counts: &mut [u64],
) -> Tally
    ensures { counting result counts.new ≡ run_bytes (count_byte (counted_sheet names.now lengths.now lows.now highs.now)) (counting tally counts.old) chunk.now }
{
    let mut reading = tally;
    let mut at = 0;
    while at < chunk.len() {
        let part = count_part(reading, chunk, at, names, lengths, lows, highs, counts);
        reading = part.tally;
        at = part.next;
    }
    reading
}

// Ends a last line without byte 10.
fn last_line(
    tally: Tally,
    names: &[u8],
    lengths: &[u8],
    lows: &[i64],
    highs: &[i64],
    counts: &mut [u64],
) -> Tally
    ensures { counting result counts.new ≡ last_counted (counted_sheet names.now lengths.now lows.now highs.now) (counting tally counts.old) }
{
    if !tally.begun {
        return tally;
    }
    count_chunk(tally, b"\n", names, lengths, lows, highs, counts)
}

// What a refusal leaves: no count.
fn refused(refusal: u32, counts: &mut [u64]) -> LineCounts
    ensures { (result ≡ refused_counts refusal) × (counts.new ≡ replicate (length counts.old) 0) }
{
    counts.fill(0);
    LineCounts { refusal, total: 0 }
}

// Ends the record: a last line without byte 10 ends with it, and a record without lines has no names. After a refusal all counts are 0.
pub fn finish(
    tally: Tally,
    names: &[u8],
    lengths: &[u8],
    lows: &[i64],
    highs: &[i64],
    counts: &mut [u64],
) -> LineCounts
    ensures { FinishesTally (counted_sheet names.now lengths.now lows.now highs.now) tally counts.old counts.new result }
{
    let ended = last_line(tally, names, lengths, lows, highs, counts);
    match ended.stage {
        TallyStage::Names(_) => refused(13, counts),
        TallyStage::Values(_, total) => LineCounts { refusal: 0, total },
        TallyStage::Refused(refusal) => refused(refusal, counts),
    }
}
