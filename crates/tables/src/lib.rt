// Whether a table that a host lends is well formed: the part of refusal 11 that is about the table alone (document 02, S-3).
#![tactic(auto)]

ghost use Rattle.std.specs.Prelude.{length};
ghost use Rattle.basics.specs.Answers.{Says};
ghost use Rattle.automaton.specs.WellFormed.{IsWellFormed};
ghost use Rattle.tables.specs.Parts.{HasTableSizes, AreRows, AreFlags};

use automaton::{MOST_ROWS, NO_STATE};

// Whether there are letters and rows, not too many rows, and one entry for each letter of each row.
fn has_sizes(entries: usize, rows: usize, letters: usize) -> bool
    ensures { Says result (HasTableSizes letters rows entries) }
{
    letters != 0
        && rows != 0
        && rows <= MOST_ROWS
        && basics::rows_fit(rows, letters, entries)
        && rows * letters == entries
}

// Whether each entry is a row or none. There is no way out of the loop, so that many entries are tested at once.
fn are_rows(entries: &[u16], rows: u16) -> bool
    ensures { Says result (AreRows entries.now rows (length entries.now)) }
{
    let mut all = true;
    for entry in entries {
        all &= (*entry < rows) | (*entry == NO_STATE);
    }
    all
}

// Whether each final byte is 0 or 1.
fn are_flags(finals: &[u8]) -> bool
    ensures { Says result (AreFlags finals.now) }
{
    finals.iter().all(|byte| *byte <= 1)
}

// Whether the table is well formed: it is whole, and has one final byte, 0 or 1, for each row.
pub fn is_well_formed(entries: &[u16], finals: &[u8], letters: usize) -> bool
    ensures { Says result (IsWellFormed letters entries.now finals.now) }
{
    let rows = finals.len();
    has_sizes(entries.len(), rows, letters) && are_flags(finals) && are_rows(entries, rows as u16)
}
