// Prints what `migrate` prints for the texts of an old and of a new sheet: the states to go on from, or the line of a refusal. The crate `migration_text`
// gives the bytes; what is left here are the calls, and the write that counts the bytes that it hands over.
#![tactic(auto)]

ghost use Rattle.std.specs.Prelude.{◌≡◌, length, take};
ghost use Rattle.output.specs.Output.{Hands};
ghost use Rattle.migration_text.specs.Migration.{most_states, migration_output};
ghost use Rattle.opened_tables.specs.Used.{opened_given};
ghost use Rattle.show_migration.specs.Shows.{FindsStates, ShowsFrom, ShowsMigration};

use compiled_sheet::stored_streams;
use opened_tables::{used_entries, used_rows};
use opening::OpenedTable;
use output::Handed;
use std::io::Write;

// The refusal with which a table was opened, or that of the call for the states between the used rows of both, or 0 with the states in the list.
fn find_states(
    old: OpenedTable,
    entries: &[u16],
    finals: &[u8],
    new: OpenedTable,
    new_entries: &[u16],
    new_finals: &[u8],
    list: &mut [u16],
) -> u32
    requires { (length entries.now ≡ 32768) × (length finals.now ≡ most_states) × (length new_entries.now ≡ 32768) × (length new_finals.now ≡ most_states) }
    ensures { FindsStates old new (opened_given old entries.now finals.now) (opened_given new new_entries.now new_finals.now) (length list.old) result list.new }
{
    if old.refusal != 0 {
        return old.refusal;
    }
    if new.refusal != 0 {
        return new.refusal;
    }
    let sheet = old.sheet;
    let rows = used_rows(old);
    let used = used_entries(old);
    let new_sheet = new.sheet;
    let new_rows = used_rows(new);
    let new_used = used_entries(new);
    carry::carry(
        &entries[..used],
        &finals[..rows],
        sheet.letters as usize,
        stored_streams(sheet),
        &new_entries[..new_used],
        &new_finals[..new_rows],
        new_sheet.letters as usize,
        stored_streams(new_sheet),
        list,
    )
}

// Writes the refusal, or the states.
fn write_states<W: Write>(out: &mut W, refusal: u32, states: &[u16]) -> Handed
    ensures { Hands (migration_output refusal (take most_states states.now)) result.size result.whole }
{
    let mut page = [0u8; 4096];
    let size = migration_text::fill(refusal, states, &mut page);
    output::write_front(out, &page, size)
}

// The same for an old table that was opened.
fn show_opened<W: Write>(
    out: &mut W,
    old: OpenedTable,
    entries: &[u16],
    finals: &[u8],
    new: &[u8],
) -> Handed
    requires { (length entries.now ≡ 32768) × (length finals.now ≡ most_states) }
    ensures { ShowsFrom old entries.now finals.now new.now result }
{
    let mut new_entries = [0u16; 32768];
    let mut new_finals = [0u8; 256];
    let opened = opening::open_table(new, false, b"", &mut new_entries, &mut new_finals);
    let mut list = [0u16; 256];
    let refusal = find_states(
        old,
        entries,
        finals,
        opened,
        &new_entries,
        &new_finals,
        &mut list,
    );
    let rows = used_rows(old);
    write_states(out, refusal, &list[..rows])
}

// Prints for each state of the old sheet's table the state of the new sheet's table to go on from, or the refusal of the old sheet, of the new one, or of the
// change.
pub fn show_migration<W: Write>(out: &mut W, old: &[u8], new: &[u8]) -> Handed
    ensures { ShowsMigration old.now new.now result }
{
    let mut entries = [0u16; 32768];
    let mut finals = [0u8; 256];
    let opened = opening::open_table(old, false, b"", &mut entries, &mut finals);
    show_opened(out, opened, &entries, &finals, new)
}
