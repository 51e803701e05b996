// From a sheet's bytes to its table.
#![tactic(auto)]

ghost use Rattle.std.specs.Prelude.{◌≡◌, ◌/◌, min};
ghost use Rattle.compiled_sheet.specs.Told.{SheetCall};
ghost use Rattle.compile.specs.Lent.{room_of, tables_of};

use compiled_sheet::CompiledSheet;

// The rows that so many entries hold, with so many letters: none for 0 letters, which no sheet has.
fn entry_rows(entries: usize, letters: usize) -> usize
    ensures { result ≡ entries / letters }
{
    if letters == 0 { 0 } else { entries / letters }
}

// The fewest rows that one of the tables with one number a row holds, by their lengths.
fn work_rows(
    live: usize,
    class: usize,
    next: usize,
    heads: usize,
    links: usize,
    envelopes: usize,
) -> usize
    ensures { result ≡ min live (min class (min next (min heads (min links envelopes)))) }
{
    live.min(class)
        .min(next)
        .min(heads)
        .min(links)
        .min(envelopes)
}

// "the fewest rows any lent table holds", by the lengths of the others and the rows that those hold
fn fewest_rows(letters: usize, entries: usize, finals: usize, keys: usize, work: usize) -> usize
    ensures { result ≡ min (entries / letters) (min finals (min (keys / 16) work)) }
{
    entry_rows(entries, letters)
        .min(finals)
        .min(keys / 16)
        .min(work)
}

// Compiles a sheet's bytes: refusal 0 with the number of states and of situations, the letters and streams of the sheet, the table in the first rows of
// `entries` and `finals`, and every other number 0; or a refusal, and every table 0. The keys take 16 numbers a row, each of the other work tables one. A
// text that is no sheet is stored with no letters: exploring no rows leaves no graph, so that every table is cleared.
pub fn compile(
    text: &[u8],
    entries: &mut [u16],
    finals: &mut [u8],
    keys: &mut [u32],
    live: &mut [u32],
    class: &mut [u32],
    next: &mut [u32],
    heads: &mut [u32],
    links: &mut [u32],
    envelopes: &mut [u32],
) -> CompiledSheet
    ensures { SheetCall text.now (room_of entries.old finals.old keys.old live.old class.old next.old heads.old links.old envelopes.old) result (tables_of entries.new finals.new keys.new live.new class.new next.new heads.new links.new envelopes.new) }
{
    let reading = reader::read(text);
    let sheet = reading.sheet;
    let letters = sheet.letters as usize;
    let work = work_rows(
        live.len(),
        class.len(),
        next.len(),
        heads.len(),
        links.len(),
        envelopes.len(),
    );
    let rows = fewest_rows(letters, entries.len(), finals.len(), keys.len(), work);
    let limit = compiled::most_situations(rows);
    let count = situations::situations(sheet, limit, entries, finals, keys, heads, links);
    let table = minimise::minimise(
        entries, finals, letters, count, live, class, next, heads, links, envelopes,
    );
    let answer = compiled::answered(reading.refusal, compiled::made(rows, count, table));
    compiled_sheet::with_sheet(sheet, answer)
}
