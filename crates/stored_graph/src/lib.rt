// Whether lent tables hold a graph. Each entry of a graph is a successor or 65,535, each flag 1 or 0 and never falls along an entry,
// and the rows stand in the order in which they are first met.
#![tactic(auto)]

ghost use Rattle.std.specs.Prelude.{suc, ◌<◌, ◌≤◌, length};
ghost use Rattle.basics.specs.Answers.{Says};
ghost use Rattle.stored_graph.specs.StoredGraph.{IsStoredGraph};
ghost use Rattle.stored_graph.specs.Checking.{HasGraphSizes, AreBits, Checked, CheckedTo};

use automaton::NO_STATE;

// Whether there are letters and rows, at most 4,096 rows, and room for them in the tables.
fn has_sizes(entries: &[u16], flags: &[u8], letters: usize, rows: usize) -> bool
    ensures { Says result (HasGraphSizes entries.now flags.now letters rows) }
{
    letters != 0
        && rows != 0
        && rows <= 4096
        && rows <= flags.len()
        && basics::rows_fit(rows, letters, entries.len())
}

// Whether each flag of the rows is 1 or 0.
fn are_bits(flags: &[u8], rows: usize) -> bool
    requires { rows ≤ length flags.now }
    ensures { Says result (AreBits flags.now rows) }
{
    flags[..rows].iter().all(|flag| *flag <= 1)
}

// Checks the entry of one row and letter, where `known` rows were met before. Gives how many are met after it, or none if the entry
// names no row, breaks the order or lets the flag fall.
fn check_entry(
    entries: &[u16],
    flags: &[u8],
    letters: usize,
    rows: usize,
    row: usize,
    letter: usize,
    known: usize,
) -> Option<usize>
    requires has_graph_sizes { HasGraphSizes entries.now flags.now letters rows }
    requires are_bits { AreBits flags.now rows }
    requires row_lt_rows { (row < rows) × (letter < letters) × (row < known) }
    requires checked { Checked entries.now flags.now letters rows row letter known }
    ensures { CheckedTo entries.now flags.now letters rows row (suc letter) result }
{
    let entry = entries[row * letters + letter];
    if entry == NO_STATE {
        return Some(known);
    }
    let target = entry as usize;
    if target > known || target >= rows || flags[target] < flags[row] {
        return None;
    }
    Some(known.max(target + 1))
}

// Checks the entries of one row, where `known` rows were met before it. Gives how many are met after it, or none if the tables are
// no graph.
fn check_row(
    entries: &[u16],
    flags: &[u8],
    letters: usize,
    rows: usize,
    row: usize,
    known: usize,
) -> Option<usize>
    requires has_graph_sizes { HasGraphSizes entries.now flags.now letters rows }
    requires are_bits { AreBits flags.now rows }
    requires row_lt_rows { (row < rows) × (row < known) }
    requires checked { Checked entries.now flags.now letters rows row 0 known }
    ensures { CheckedTo entries.now flags.now letters rows row letters result }
{
    let mut met = known;
    for letter in 0..letters {
        met = check_entry(entries, flags, letters, rows, row, letter, met)?;
    }
    Some(met)
}

// Whether every row is met before its entries are checked, and every entry passes.
fn is_checked(entries: &[u16], flags: &[u8], letters: usize, rows: usize) -> bool
    requires has_graph_sizes { HasGraphSizes entries.now flags.now letters rows }
    requires are_bits { AreBits flags.now rows }
    ensures { Says result (IsStoredGraph entries.now flags.now letters rows) }
{
    let mut met = 1;
    for row in 0..rows {
        if row >= met {
            return false;
        }
        let Some(known) = check_row(entries, flags, letters, rows, row, met) else {
            return false;
        };
        met = known;
    }
    met == rows
}

// Whether the tables hold a graph of that many letters and rows.
pub fn is_graph(entries: &[u16], flags: &[u8], letters: usize, rows: usize) -> bool
    ensures { Says result (IsStoredGraph entries.now flags.now letters rows) }
{
    has_sizes(entries, flags, letters, rows)
        && are_bits(flags, rows)
        && is_checked(entries, flags, letters, rows)
}
