// Sets of rows of a stored graph: a number for each row, 1 where the row is marked. Each row of the graph has one entry for each
// letter; an entry that is no row's number names no row.
#![tactic(auto)]

ghost use Rattle.std.specs.Prelude.{◌≡◌, ◌+◌, ◌*◌, ◌<◌, ◌≤◌, length, get_or, replicate};
ghost use Rattle.basics.specs.Answers.{Says};
ghost use Rattle.marks.specs.Marks.{HasMarked, Pruned, Grown, IsFlagged, IfFits};
ghost use Rattle.marks.specs.Sweeps.{Swept, Closed};

use basics::rows_fit;

// The number of the row that an entry names, 0 for none.
pub fn number_at(numbers: &[u32], entry: u16) -> u32
    ensures { result ≡ get_or numbers.now entry 0 }
{
    let row = entry as usize;
    if row < numbers.len() { numbers[row] } else { 0 }
}

// Whether some of the `letters` entries from `start` on names a marked row.
fn has_marked(entries: &[u16], start: usize, letters: usize, marks: &[u32]) -> bool
    requires { start + letters ≤ length entries.now }
    ensures { Says result (HasMarked entries.now marks.now start letters) }
{
    for entry in &entries[start..start + letters] {
        if number_at(marks, *entry) == 1 {
            return true;
        }
    }
    false
}

// Turns the mark of one row to `to`: a row with a marked successor is marked, or a marked row without one is cleared. Whether it was.
fn turn_row(entries: &[u16], letters: usize, to: bool, row: usize, marks: &mut [u32]) -> bool
    requires { (row < length marks.old) × (length marks.old * letters ≤ length entries.now) }
    ensures { Swept to letters entries.now (λ s. s ≡ row) marks.old marks.new result }
{
    if (marks[row] == 1) == to || has_marked(entries, row * letters, letters, marks) != to {
        return false;
    }
    marks[row] = u32::from(to);
    true
}

// A sweep from the last row to the first. Whether a mark was turned.
fn sweep_down(entries: &[u16], letters: usize, to: bool, marks: &mut [u32]) -> bool
    requires { length marks.old * letters ≤ length entries.now }
    ensures { Swept to letters entries.now (λ s. s < length marks.old) marks.old marks.new result }
{
    let mut changed = false;
    for row in (0..marks.len()).rev() {
        changed |= turn_row(entries, letters, to, row, marks);
    }
    changed
}

// A sweep from the first row to the last. Whether a mark was turned.
fn sweep_up(entries: &[u16], letters: usize, to: bool, marks: &mut [u32]) -> bool
    requires { length marks.old * letters ≤ length entries.now }
    ensures { Swept to letters entries.now (λ s. s < length marks.old) marks.old marks.new result }
{
    let mut changed = false;
    for row in 0..marks.len() {
        changed |= turn_row(entries, letters, to, row, marks);
    }
    changed
}

// Sweeps down and up by turns until one turns nothing. Each of the others leaves fewer rows to turn.
fn sweeps(entries: &[u16], letters: usize, to: bool, marks: &mut [u32])
    requires { length marks.old * letters ≤ length entries.now }
    ensures { Closed to letters entries.now marks.old marks.new }
{
    'sweeps: while sweep_down(entries, letters, to, marks)
        && sweep_up(entries, letters, to, marks)
    {}
}

// Clears each mark from which no endless path leads through marked rows. If the rows are more than the entries have,
// nothing changes.
pub fn prune(entries: &[u16], letters: usize, marks: &mut [u32])
    ensures { IfFits letters entries.now marks.old marks.new (Pruned letters entries.now marks.old marks.new) }
{
    if rows_fit(marks.len(), letters, entries.len()) {
        sweeps(entries, letters, false, marks);
    }
}

// Marks each row from which a path leads to a marked row. If the rows are more than the entries have, nothing changes.
pub fn grow(entries: &[u16], letters: usize, marks: &mut [u32])
    ensures { IfFits letters entries.now marks.old marks.new (Grown letters entries.now marks.old marks.new) }
{
    if rows_fit(marks.len(), letters, entries.len()) {
        sweeps(entries, letters, true, marks);
    }
}

// Clears the mark of each row whose flag is not 1. A row without a flag is not flagged.
pub fn keep_flagged(flags: &[u8], marks: &mut [u32])
    ensures { IsFlagged flags.now marks.old marks.new }
{
    for (row, mark) in marks.iter_mut().enumerate() {
        if flags.len() <= row || flags[row] != 1 {
            *mark = 0;
        }
    }
}
