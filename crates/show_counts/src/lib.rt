// Prints what `record_counts` prints: for each number of letters up to the one that a line before a sheet gives, how many records begin a solution and how many
// of them end in a final state, or the line of a refusal. What is left here is the loop that reads chunks, and the order of the refusals.
#![tactic(auto)]

ghost use Rattle.std.specs.Prelude.{◌≡◌, ◌*◌, ◌≤◌, min, length, take};
ghost use Rattle.print.specs.Text.{refusal_line};
ghost use Rattle.output.specs.Output.{Hands};
ghost use Rattle.reads.specs.Chunks.{ReadsAll};
ghost use Rattle.counting.specs.Counting.{CountsRecords};
ghost use Rattle.first_line.specs.Machine.{number_line_end, keeping, keep_byte, taken_start};
ghost use Rattle.counts_text.specs.Counts.{listed_text};
ghost use Rattle.show_counts.specs.Shows.{number_given, is_full, or_nothing, FindsFigures, ShowsRecordCounts, ShowsInput};

use first_line::Taken;
use opening::OpenedTable;
use output::Handed;
use reads::ReadEnd;
use std::io::{Read, Write};

// The most reads of an input: those that a file of the greatest length fills with 65,536 bytes each, and one more that meets its end. An input that goes on
// behind them counts as one that cannot be read.
const READS: u64 = 140737488355329;

// What was taken of an input, and how the reading of it ended.
#[derive(Clone, Copy)]
struct TakenInput {
    taken: Taken,
    ended: ReadEnd,
}

// How many bytes were taken by writes, and how the reading of the input ended.
#[derive(Clone, Copy)]
pub struct ShownInput {
    pub handed: Handed,
    pub ended: ReadEnd,
}

// The figures of the used rows; whether there are figures for so many letters.
fn count_used(
    table: OpenedTable,
    most: usize,
    entries: &[u16],
    finals: &[u8],
    figures: &mut [u64],
    final_figures: &mut [u64],
) -> bool
    requires { (table.states ≤ length finals.now) × (table.states * table.sheet.letters ≤ length entries.now) }
    ensures { CountsRecords table.sheet.letters (take (table.states * table.sheet.letters) entries.now) (take table.states finals.now) most (length figures.old) (length final_figures.old) result figures.new final_figures.new }
{
    let letters = table.sheet.letters as usize;
    let states = table.states as usize;
    let used = states * letters;
    counting::count_records(
        &entries[..used],
        &finals[..states],
        letters,
        most,
        figures,
        final_figures,
    )
}

// The refusal, or 0 with the figures in the lists.
fn find_figures(
    number: Option<u32>,
    text: &[u8],
    figures: &mut [u64],
    final_figures: &mut [u64],
) -> u32
    requires { (length figures.old ≡ 65) × (length final_figures.old ≡ 65) }
    ensures { FindsFigures (number_given number) text.now result figures.new final_figures.new }
{
    let mut entries = [0u16; 32768];
    let mut finals = [0u8; 256];
    let start = [0u8; 1];
    let table = opening::open_table(text, false, &start, &mut entries, &mut finals);
    let refusal = first_line::early_refusal(number, table.refusal);
    if refusal != 0 {
        return refusal;
    }
    let most = number.unwrap_or(0) as usize;
    if count_used(table, most, &entries, &finals, figures, final_figures) {
        return 0;
    }
    19
}

fn write_refusal<W: Write>(out: &mut W, refusal: u32) -> Handed
    ensures { Hands (refusal_line refusal) result.size result.whole }
{
    let mut line = [0u8; 32];
    let size = print::refusal_line(refusal, &mut line);
    output::write_front(out, &line, size)
}

// Writes the lines of figures, at most 65 of them.
fn write_lines<W: Write>(out: &mut W, figures: &[u64], final_figures: &[u64]) -> Handed
    requires { length figures.now ≤ 65 }
    ensures { Hands (listed_text figures.now final_figures.now (min (length figures.now) (length final_figures.now))) result.size result.whole }
{
    let mut page = [0u8; 4096];
    let size = counts_text::write_figures(figures, final_figures, &mut page);
    output::write_front(out, &page, size)
}

// Prints the figures of a sheet, compiled in the rows that `sluice` lends, or the refusal. The lists have room for the figures of 64 letters, so that a larger
// number is 19.
pub fn show_counts<W: Write>(out: &mut W, number: Option<u32>, text: &[u8]) -> Handed
    ensures { ShowsRecordCounts (number_given number) text.now result }
{
    let mut figures = [0u64; 65];
    let mut final_figures = [0u64; 65];
    let refusal = find_figures(number, text, &mut figures, &mut final_figures);
    if refusal != 0 {
        return write_refusal(out, refusal);
    }
    let count = (number.unwrap_or(0) as usize).min(64) + 1;
    write_lines(out, &figures[..count], &final_figures[..count])
}

// The same for what was taken of an input: the number of its line, and the bytes of the sheet in the lent ones.
pub fn show_taken<W: Write>(out: &mut W, taken: Taken, sheet: &[u8]) -> Handed
    ensures { ShowsRecordCounts (number_given (number_line_end taken.line)) (take taken.size sheet.now) result }
{
    let size = taken.size.min(sheet.len());
    show_counts(out, first_line::line_number(taken.line), &sheet[..size])
}

// Whether as many bytes are kept as tell that the sheet has too many.
fn is_full(taken: Taken, sheet: &[u8]) -> bool
    ensures { result ≡ is_full (keeping taken sheet.now) }
{
    16385 <= taken.size
}

// Takes the input chunk by chunk, up to its end or to more bytes than a sheet may have, which are refused whatever follows.
fn take_input<R: Read>(source: &mut Option<R>, sheet: &mut [u8]) -> TakenInput
    ensures { ReadsAll keep_byte is_full (keeping taken_start sheet.old) (keeping result.taken sheet.new) result.ended }
{
    let mut chunk = [0u8; 65536];
    let mut left = READS;
    let mut taken = first_line::take_start();
    let mut answer = 1;
    'chunks: loop {
        if let Some(ended) = reads::so_far(is_full(taken, sheet), answer, left) {
            return TakenInput { taken, ended };
        }
        answer = input::read_answer(source, &mut chunk);
        let size = io::count(answer, &chunk);
        taken = first_line::take_chunk(taken, &chunk[..size], sheet);
        left -= 1;
    }
}

// "a file it cannot read counts as empty"
fn or_nothing(taken: Taken, ended: ReadEnd) -> Taken
    ensures { result ≡ or_nothing taken ended }
{
    match ended {
        ReadEnd::Complete | ReadEnd::Stopped => taken,
        ReadEnd::Incomplete => first_line::take_start(),
    }
}

// Reads an input and prints the figures of its sheet, up to the number in the line before it, or the refusal.
pub fn show_input<R: Read, W: Write>(source: &mut Option<R>, out: &mut W) -> ShownInput
    ensures { ShowsInput result }
{
    let mut sheet = [0u8; 16385];
    let read = take_input(source, &mut sheet);
    let kept = or_nothing(read.taken, read.ended);
    ShownInput {
        handed: show_taken(out, kept, &sheet),
        ended: read.ended,
    }
}
