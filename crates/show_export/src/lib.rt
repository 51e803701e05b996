// Prints what `export` prints for the text of a sheet: the C header of its table, or the line of its refusal. The crate `export_text` gives the bytes; what is
// left here are the calls, and the write that counts the bytes that it hands over.
#![tactic(auto)]

ghost use Rattle.std.specs.Prelude.{◌≡◌, length, take};
ghost use Rattle.std.proofs.Math.Option.{none};
ghost use Rattle.opening.specs.Opens.{OpensTable};
ghost use Rattle.show_export.specs.Prints.{PrintsExport};
ghost use Rattle.show_export.specs.Shows.{page_room, ShowsExport};

use compiled_sheet::stored_streams;
use opened_tables::{used_entries, used_rows};
use opening::OpenedTable;
use output::Handed;
use std::io::Write;

// Fills the front of the page with what is printed of a table that was opened for the text: the header of its used rows, or the line of its refusal. Gives its
// length.
fn fill_opened(
    text: &[u8],
    table: OpenedTable,
    entries: &[u16],
    finals: &[u8],
    page: &mut [u8],
) -> usize
    requires { OpensTable text.now none table entries.now finals.now × (length page.old ≡ page_room) }
    ensures { PrintsExport text.now (take result page.new) }
{
    let checksum = checksum::checksum(text);
    if table.refusal != 0 {
        return print::refusal_line(table.refusal, page);
    }
    let sheet = table.sheet;
    let rows = used_rows(table);
    let used = used_entries(table);
    export_text::fill(
        stored_streams(sheet),
        sheet.letters,
        checksum,
        &entries[..used],
        &finals[..rows],
        page,
    )
}

// Prints the header of the sheet's table, compiled in the rows that `sluice` lends, or the refusal.
pub fn show_export<W: Write>(out: &mut W, text: &[u8]) -> Handed
    ensures { ShowsExport text.now result }
{
    let mut entries = [0u16; 32768];
    let mut finals = [0u8; 256];
    let table = opening::open_table(text, false, b"", &mut entries, &mut finals);
    let mut page = [0u8; 344064];
    let size = fill_opened(text, table, &entries, &finals, &mut page);
    output::write_front(out, &page, size)
}
