// Reads the bytes of one line of a record within a chunk, from a place on to the line's byte 10 or to the end of the chunk; and counts lines. Every
// public function takes any state, any place and any slices.
#![tactic(auto)]

ghost use Rattle.std.specs.Prelude.{◌≡◌};
ghost use Rattle.std.proofs.Math.Seq.{slice};
ghost use Rattle.text.specs.Fold.{run_bytes};
ghost use Rattle.letters.specs.Described.{described};
ghost use Rattle.sheet.specs.Names.{name_in};
ghost use Rattle.records.specs.Machine.{line_byte};
ghost use Rattle.record_names.specs.Machine.{names_byte};
ghost use Rattle.record_lines.specs.Runs.{one_more, RunsLine};

use record_names::NamesState;
use records::LineState;

// The line of names, read to a place.
#[derive(Clone, Copy)]
pub struct NamesRun {
    pub names: NamesState,
    pub next: usize,
}

// A line of values, read to a place.
#[derive(Clone, Copy)]
pub struct ValuesRun {
    pub line: LineState,
    pub next: usize,
}

// Reads the line of names to its byte 10, or to the end of the chunk.
pub fn run_names(
    start: NamesState,
    chunk: &[u8],
    from: usize,
    names: &[u8],
    lengths: &[u8],
) -> NamesRun
    ensures { RunsLine chunk.now from result.next × (result.names ≡ run_bytes (names_byte (name_in names.now lengths.now)) start (slice from result.next chunk.now)) }
{
    let mut line = start;
    for at in from..chunk.len() {
        let byte = chunk[at];
        if byte == b'\n' {
            return NamesRun {
                names: line,
                next: at,
            };
        }
        line = record_names::names_byte(line, byte, names, lengths);
    }
    NamesRun {
        names: line,
        next: from.max(chunk.len()),
    }
}

// Reads a line of values to its byte 10, or to the end of the chunk.
pub fn run_values(
    start: LineState,
    chunk: &[u8],
    from: usize,
    lows: &[i64],
    highs: &[i64],
) -> ValuesRun
    ensures { RunsLine chunk.now from result.next × (result.line ≡ run_bytes (line_byte (described lows.now highs.now)) start (slice from result.next chunk.now)) }
{
    let mut line = start;
    for at in from..chunk.len() {
        let byte = chunk[at];
        if byte == b'\n' {
            return ValuesRun { line, next: at };
        }
        line = records::line_byte(line, byte, lows, highs);
    }
    ValuesRun {
        line,
        next: from.max(chunk.len()),
    }
}

// One more; the highest number of the machine stays, so that no sum wraps.
pub fn one_more(number: u64) -> u64
    ensures { result ≡ one_more number }
{
    number.saturating_add(1)
}
