// Counts the lines of a record in a file: the loop that reads chunks, over the crates `reads`, which says what a read comes to, and `tally`, which counts the
// lines.
#![tactic(auto)]

ghost use Rattle.std.specs.Prelude.{◌≡◌};
ghost use Rattle.reads.specs.Chunks.{ReadsAll};
ghost use Rattle.tally.specs.Machine.{counted_sheet, counting, start_tally, count_byte, is_refused_tally};
ghost use Rattle.record_file.specs.Reads.{is_refused_counting, or_unread, CountsFile};

use reads::ReadEnd;
use std::io::Read;
use std::rt::Files;
use tally::{LineCounts, Tally, TallyStage};

// The most reads of a record: those that a file of the greatest length fills with 65,536 bytes each, and one more that meets its end. A record that goes on
// behind them counts as one that cannot be read.
const READS: u64 = 140737488355329;

// The tally of what was read, and how the reading ended.
#[derive(Clone, Copy)]
struct ReadTally {
    tally: Tally,
    ended: ReadEnd,
}

// What is counted, and how the reading ended.
#[derive(Clone, Copy)]
pub struct FileCounts {
    pub counted: LineCounts,
    pub ended: ReadEnd,
}

// Behind a line with a fault nothing matters.
fn is_refused(tally: Tally) -> bool
    ensures { result ≡ is_refused_tally tally.stage }
{
    matches!(tally.stage, TallyStage::Refused(_))
}

// Reads the record chunk by chunk, and counts its lines, up to its end or to a line with a fault.
fn read_chunks<R: Read>(
    source: &mut Option<R>,
    names: &[u8],
    lengths: &[u8],
    lows: &[i64],
    highs: &[i64],
    counts: &mut [u64],
) -> ReadTally
    ensures { ReadsAll (count_byte (counted_sheet names.now lengths.now lows.now highs.now)) is_refused_counting (counting start_tally counts.old) (counting result.tally counts.new) result.ended }
{
    let mut chunk = [0u8; 65536];
    let mut left = READS;
    let mut tally = tally::begin();
    let mut answer = 1;
    'chunks: loop {
        if let Some(ended) = reads::so_far(is_refused(tally), answer, left) {
            return ReadTally { tally, ended };
        }
        answer = input::read_answer(source, &mut chunk);
        let size = io::count(answer, &chunk);
        tally = tally::count_chunk(tally, &chunk[..size], names, lengths, lows, highs, counts);
        left -= 1;
    }
}

// The tally, or 13 where the record was not read to its end or to a fault.
fn or_unread(tally: Tally, ended: ReadEnd) -> Tally
    ensures { result ≡ or_unread tally ended }
{
    match ended {
        ReadEnd::Complete | ReadEnd::Stopped => tally,
        ReadEnd::Incomplete => Tally {
            begun: false,
            stage: TallyStage::Refused(13),
        },
    }
}

// Counts the lines of the record in the file with this path.
pub fn count_file<F: Files>(
    files: &F,
    path: &[u8],
    names: &[u8],
    lengths: &[u8],
    lows: &[i64],
    highs: &[i64],
    counts: &mut [u64],
) -> FileCounts
    ensures { CountsFile (counted_sheet names.now lengths.now lows.now highs.now) counts.old counts.new result }
{
    let mut source = input::open_path(files, path);
    let read = read_chunks(&mut source, names, lengths, lows, highs, counts);
    drop(source);
    let last = or_unread(read.tally, read.ended);
    let counted = tally::finish(last, names, lengths, lows, highs, counts);
    FileCounts {
        counted,
        ended: read.ended,
    }
}
