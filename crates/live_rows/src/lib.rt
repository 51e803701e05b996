// The live rows of a graph in lent tables: those from which a path leads to a flagged row that has an endless path. And the final rows:
// live rows from which no endless path leads through live rows that are not flagged.
#![tactic(auto)]

ghost use Rattle.std.specs.Prelude.{◌≡◌, ◌*◌, ◌≤◌, length};
ghost use Rattle.basics.specs.Answers.{Says};
ghost use Rattle.live_rows.specs.Sets.{IsSet, LiveWithout, SameBeyond, LiveOutcome, FinalsOutcome};

// Whether tables of `entries` and `flags` numbers have room for the rows.
fn has_room(rows: usize, letters: usize, entries: usize, flags: usize) -> bool
    ensures { Says result ((rows * letters ≤ entries) × (rows ≤ flags)) }
{
    rows <= flags && basics::rows_fit(rows, letters, entries)
}

// Marks the live rows. If the rows are more than the entries or the flags have, nothing changes.
pub fn find_live(entries: &[u16], flags: &[u8], letters: usize, live: &mut [u32])
    ensures { LiveOutcome letters entries.now flags.now live.old live.new }
{
    if !has_room(live.len(), letters, entries.len(), flags.len()) {
        return;
    }
    live.fill(1);
    marks::prune(entries, letters, live);
    marks::keep_flagged(flags, live);
    marks::grow(entries, letters, live);
}

// Marks the live rows that are not flagged, and clears the other rows.
fn mark_pending(live: &[u32], flags: &[u8], pending: &mut [u32])
    requires { (length live.now ≤ length flags.now) × (length pending.old ≡ length live.now) }
    ensures { IsSet pending.new (length live.now) (LiveWithout live.now flags.now) }
{
    for (row, mark) in live.iter().enumerate() {
        pending[row] = u32::from(*mark == 1 && flags[row] != 1);
    }
}

// Sets the byte of each row: 1 if it is live and not marked in `endless`, and else 0. One function with `mark_pending` over the type of the numbers is no plainer: its
// contract would need a trait that says which number 1 is.
fn set_finals(live: &[u32], endless: &[u32], finals: &mut [u8])
    requires { (length endless.now ≡ length live.now) × (length live.now ≤ length finals.old) }
    ensures { IsSet finals.new (length live.now) (LiveWithout live.now endless.now) × SameBeyond finals.old finals.new (length live.now) }
{
    for (row, mark) in live.iter().enumerate() {
        finals[row] = u8::from(*mark == 1 && endless[row] != 1);
    }
}

// Puts the final bytes of the rows in place of their flags. `pending` is work room. If it has not as many rows, or these are more than
// the entries or the flags have, nothing changes.
pub fn find_finals(
    entries: &[u16],
    letters: usize,
    live: &[u32],
    pending: &mut [u32],
    flags: &mut [u8],
)
    ensures { FinalsOutcome letters entries.now live.now pending.old flags.old pending.new flags.new }
{
    if pending.len() != live.len() || !has_room(live.len(), letters, entries.len(), flags.len()) {
        return;
    }
    mark_pending(live, flags, pending);
    marks::prune(entries, letters, pending);
    set_finals(live, pending, flags);
}
