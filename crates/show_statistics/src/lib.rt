// Prints what `statistics` prints for the text of a sheet: its sizes, or as many of them as are known with a refusal. The crate `statistics_text` gives the
// bytes; what is left here are the calls.
#![tactic(auto)]

ghost use Rattle.compiled.specs.Answer.{answer_of};
ghost use Rattle.output.specs.Output.{Hands};
ghost use Rattle.statistics_text.specs.Text.{statistics_text};
ghost use Rattle.show_statistics.specs.Prints.{PrintsStatistics};
ghost use Rattle.show_statistics.specs.Shows.{ShowsStatistics, CountsSituations, KnowsSituations};

use compiled::Compiled;
use output::Handed;
use reader::StoredSheet;
use statistics_text::Statistics;
use std::io::Write;

// How many situations a stored sheet has, in tables of as many rows as are lent.
fn count_situations(sheet: StoredSheet) -> usize
    ensures { CountsSituations sheet result }
{
    let rows = lend::rows_lent(sheet.letters as usize);
    let mut entries = [0u16; 32768];
    let mut finals = [0u8; 256];
    let mut keys = lend::key_room();
    let mut heads = lend::work_room();
    let mut links = lend::work_room();
    situations::situations(
        sheet,
        rows,
        &mut entries,
        &mut finals,
        &mut keys,
        &mut heads,
        &mut links,
    )
}

// The situations that the compile tells. With 9 it tells none, and they are counted.
fn known_situations(sheet: StoredSheet, compiled: Compiled) -> usize
    ensures { KnowsSituations sheet (answer_of compiled) result }
{
    if compiled.refusal == 9 {
        return count_situations(sheet);
    }
    compiled.situations as usize
}

// The sizes of the sheet, compiled in the rows lent for its letters, with the refusal.
fn find_statistics(text: &[u8]) -> Statistics
    ensures { PrintsStatistics text.now (statistics_text result) }
{
    let reading = reader::read(text);
    let sheet = reading.sheet;
    let letters = sheet.letters as usize;
    let rows = lend::rows_lent(letters);
    let mut entries = [0u16; 32768];
    let mut finals = [0u8; 256];
    let compiled = lend::compile_lent(text, letters, &mut entries, &mut finals);
    let situations = known_situations(sheet, compiled);
    Statistics {
        refusal: compiled.refusal,
        letters: letters as u64,
        ahead: sheet.ahead as u64,
        back: sheet.back as u64,
        situations: situations as u64,
        states: compiled.states as u64,
        rows: rows as u64,
    }
}

// Writes the lines, for which there is room in 256 bytes.
fn write_statistics<W: Write>(out: &mut W, statistics: Statistics) -> Handed
    ensures { Hands (statistics_text statistics) result.size result.whole }
{
    let mut page = [0u8; 256];
    let size = statistics_text::fill(statistics, &mut page);
    output::write_front(out, &page, size)
}

// Prints the sizes of a sheet, or the refusal of a text that is none.
pub fn show_statistics<W: Write>(out: &mut W, text: &[u8]) -> Handed
    ensures { ShowsStatistics text.now result }
{
    let statistics = find_statistics(text);
    write_statistics(out, statistics)
}
