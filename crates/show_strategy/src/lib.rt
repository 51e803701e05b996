// Prints what `strategy` prints for a sheet: its play table, or the line of a refusal. The crate `play_text` gives the bytes, and the crate `pages` writes them; what
// is left here are the calls.
#![tactic(auto)]

ghost use Rattle.std.specs.Prelude.{◌≤◌, length};
ghost use Rattle.output.specs.Output.{Hands};
ghost use Rattle.lend.specs.Lend.{room_of_rows, tables_of_rows};
ghost use Rattle.stored_ranges.specs.Ranges.{HasRanges};
ghost use Rattle.game.specs.Call.{ForceSheetCall};
ghost use Rattle.play_text.specs.Output.{play_output};
ghost use Rattle.show_strategy.specs.Shows.{play_printout, ShownIn, ShowsStrategy};

use compiled_sheet::CompiledSheet;
use output::Handed;
use pages::Table;
use play_text::PrintedPlay;
use std::io::Write;

// Compiles the text with a play table in tables of so many rows.
fn force_in_rows(
    text: &[u8],
    rows: usize,
    entries: &mut [u16],
    finals: &mut [u8],
    play: &mut [u16],
) -> CompiledSheet
    requires { rows ≤ 256 }
    ensures { ForceSheetCall text.now (room_of_rows (length entries.old) (length finals.old) rows) (length play.old) result (tables_of_rows rows entries.new finals.new) play.new }
{
    let key_size = rows * 16;
    let mut keys = lend::key_room();
    let mut live = lend::work_room();
    let mut class = lend::work_room();
    let mut next = lend::work_room();
    let mut heads = lend::work_room();
    let mut links = lend::work_room();
    let mut envelopes = lend::work_room();
    game::force(
        text,
        entries,
        finals,
        &mut keys[..key_size],
        &mut live[..rows],
        &mut class[..rows],
        &mut next[..rows],
        &mut heads[..rows],
        &mut links[..rows],
        &mut envelopes[..rows],
        play,
    )
}

// Writes all lines of a play table with the names and ranges of the stored sheet, or the line of a refusal.
fn write_pages<'a, W: Write>(
    out: &mut W,
    sheet: reader::StoredSheet,
    refusal: u32,
    states: u32,
    choices: u32,
    entries: &'a [u16],
    finals: &'a [u8],
    play: &'a [u16],
) -> Handed
    requires { HasRanges sheet × (length entries.now ≤ 32768) × (length play.now ≤ 32768) }
    ensures { Hands (play_output (play_printout sheet refusal states choices entries.now finals.now play.now)) result.size result.whole }
{
    let streams = sheet.streams.min(8);
    let table = Table {
        refusal,
        states,
        names: &sheet.names,
        lengths: &sheet.lengths,
        lows: &sheet.lows[..streams],
        highs: &sheet.highs[..streams],
        entries,
        finals,
    };
    let printed = PrintedPlay {
        table,
        choices,
        play,
    };
    let mut page = [0u8; 65536];
    pages::write_pages(out, &printed, &mut page)
}

// Compiles the text in tables of so many rows, and prints the play table or the refusal.
fn show_in_rows<W: Write>(
    out: &mut W,
    text: &[u8],
    sheet: reader::StoredSheet,
    rows: usize,
    choices: u32,
    entries: &mut [u16],
    finals: &mut [u8],
    play: &mut [u16],
) -> Handed
    requires { HasRanges sheet × (rows ≤ 256) × (length entries.old ≤ 32768) × (length play.old ≤ 32768) }
    ensures { ShownIn text.now sheet rows choices (length entries.old) (length finals.old) (length play.old) result }
{
    let told = force_in_rows(text, rows, entries, finals, play);
    write_pages(
        out,
        sheet,
        told.refusal,
        told.states,
        choices,
        entries,
        finals,
        play,
    )
}

// Prints the play table of a sheet, compiled in the rows that `sluice` lends, with as many rows for the play table; or the refusal. A text that is no sheet has no
// letters, and its compile meets the same refusal.
pub fn show_strategy<W: Write>(out: &mut W, text: &[u8]) -> Handed
    ensures { ShowsStrategy text.now result }
{
    let reading = reader::read(text);
    let sheet = reading.sheet;
    let letters = sheet.letters as usize;
    let choices = choices::choice_count(compiled_sheet::stored_streams(sheet));
    let rows = lend::rows_lent(letters);
    let room = rows * letters;
    let play_room = (rows * choices as usize).min(32768);
    let mut entries = [0u16; 32768];
    let mut finals = [0u8; 256];
    let mut play = [0u16; 32768];
    show_in_rows(
        out,
        text,
        sheet,
        rows,
        choices,
        &mut entries[..room],
        &mut finals[..rows],
        &mut play[..play_room],
    )
}
