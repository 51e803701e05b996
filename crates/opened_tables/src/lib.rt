// The used rows of a table that a program opened, as it passes them on.
#![tactic(auto)]

ghost use Rattle.std.specs.Prelude.{◌≡◌, ◌*◌, ◌≤◌, min};
ghost use Rattle.opened_tables.specs.Used.{used_rows};

use opening::OpenedTable;

// How many rows of its array a table uses.
pub fn used_rows(table: OpenedTable) -> usize
    ensures { result ≡ used_rows table }
{
    (table.states as usize).min(256)
}

// How many entries so many rows take, and no more than the array has.
fn entries_of(rows: usize, letters: u32) -> usize
    requires { rows ≤ 256 }
    ensures { result ≡ min (rows * letters) 32768 }
{
    (rows * letters as usize).min(32768)
}

// How many entries the used rows of a table take.
pub fn used_entries(table: OpenedTable) -> usize
    ensures { result ≡ min (used_rows table * table.sheet.letters) 32768 }
{
    let sheet = table.sheet;
    entries_of(used_rows(table), sheet.letters)
}
