// Prints what `sluice` prints for a sheet: its table, or the line of its refusal. The crate `pages` gives the bytes and
// writes them; what is left here are the calls.
#![tactic(auto)]

ghost use Rattle.std.specs.Prelude.{◌≤◌, length};
ghost use Rattle.stored_ranges.specs.Ranges.{HasRanges};
ghost use Rattle.show.specs.Answer.{printout_of, PrintsAll, CompiledWith, Shown};

use pages::Table;
use std::io::Write;

// The number of the refusal that is printed, or 0; how many bytes were taken by writes, and whether each write took all of its bytes.
#[derive(Clone, Copy)]
pub struct Printed {
    pub refusal: u32,
    pub size: usize,
    pub whole: bool,
}

// Writes all lines of a table with the names and ranges of the stored sheet, or the line of a refusal.
fn write_pages<W: Write>(
    out: &mut W,
    sheet: reader::StoredSheet,
    refusal: u32,
    states: u32,
    entries: &[u16],
    finals: &[u8],
) -> Printed
    requires { HasRanges sheet × (length entries.now ≤ 32768) }
    ensures { PrintsAll (printout_of sheet refusal states entries.now finals.now) result }
{
    let streams = sheet.streams.min(8);
    let table = Table {
        refusal,
        states,
        names: &sheet.names,
        lengths: &sheet.lengths,
        lows: &sheet.lows[..streams],
        highs: &sheet.highs[..streams],
        entries,
        finals,
    };
    let mut page = [0u8; 65536];
    let handed = pages::write_pages(out, &table, &mut page);
    Printed {
        refusal,
        size: handed.size,
        whole: handed.whole,
    }
}

// Compiles the text in the rows lent for the sheet's letters, and prints the table or the refusal. What stands behind the rows lent is not printed.
fn show_sheet<W: Write>(out: &mut W, text: &[u8], sheet: reader::StoredSheet) -> Printed
    requires { HasRanges sheet }
    ensures { CompiledWith text.now sheet result }
{
    let mut entries = [0u16; 32768];
    let mut finals = [0u8; 256];
    let compiled = lend::compile_lent(text, sheet.letters as usize, &mut entries, &mut finals);
    write_pages(
        out,
        sheet,
        compiled.refusal,
        compiled.states,
        &entries,
        &finals,
    )
}

// "a program `sluice` that reads a sheet from standard input and prints its table", for the bytes that were read. Gives the number of the refusal
// that it printed, or 0 where it printed a table. A text that is no sheet has no letters, and its compile meets the same refusal.
pub fn show<W: Write>(out: &mut W, text: &[u8]) -> Printed
    ensures { Shown text.now result }
{
    show_sheet(out, text, reader::read(text).sheet)
}
