// For each state of an old table the state of a new one to go on from, without closing the weir (document 02, S-10).
//
// A queue over the old rows, from state 0 on, with the new state that the letters so far lead to. Each entry of an old row is held against the entry
// of its new state for the same letter: a row that is met first gets the new entry, and one that is met again must have it. So the entries of both tables
// are looked at in one pass. A row's new state is the one that every record leads to, or some row has none.
#![tactic(auto)]

ghost use Rattle.std.specs.Prelude.{◌≡◌, ℕ, ◌<◌, ◌≤◌, length, replicate};
ghost use Rattle.std.proofs.Math.Seq.{paste};
ghost use Rattle.automaton.specs.Table.{no_state};
ghost use Rattle.automaton.specs.WellFormed.{most_rows, WholeTable};
ghost use Rattle.given_tables.specs.Given.{given_table};
ghost use Rattle.carry.specs.Carry.{CarryOutcome, TablesRefusal};
ghost use Rattle.carry.specs.Queue.{HasPlace, EntryCarried, StoredCarryTurn, RowCarried, RowsCarried, ListFilled};

use automaton::{MOST_ROWS, NO_STATE};
use streams::StreamsDescription;

// Gives the row that an old entry leads to the state that the new one leads to. A row that has no state yet goes to the end of the queue. Gives how many
// rows are in the queue then, or none where the row has another state, or the new entry is missing.
fn carry_entry(
    entry: u16,
    state: u16,
    states: &mut [u16],
    queue: &mut [u16],
    count: usize,
) -> Option<usize>
    requires { HasPlace entry count states.old queue.old }
    ensures { EntryCarried entry state count states.old queue.old states.new queue.new result }
{
    if entry == NO_STATE {
        return Some(count);
    }
    if state == NO_STATE {
        return None;
    }
    let row = entry as usize;
    if states[row] == NO_STATE {
        states[row] = state;
        queue[count] = entry;
        return Some(count + 1);
    }
    if states[row] == state {
        Some(count)
    } else {
        None
    }
}

// Carries the entries of the row at the head of the queue, letter by letter. Gives how many rows are in the queue then, or none where some row has no
// state to go on from.
fn carry_row(
    entries: &[u16],
    new_entries: &[u16],
    letters: usize,
    head: usize,
    states: &mut [u16],
    queue: &mut [u16],
    count: usize,
) -> Option<usize>
    requires whole_table { WholeTable letters (length states.old) entries.now }
    requires by_index { ((rows : ℕ) × WholeTable letters rows new_entries.now) × (length queue.old ≡ most_rows) × (head < count) }
    requires stored_carry_turn { StoredCarryTurn letters (length states.old) entries.now new_entries.now states.old queue.old count head 0 }
    ensures { RowCarried letters entries.now new_entries.now head states.new queue.new result }
{
    let row = queue[head] as usize;
    let start = row * letters;
    let new_start = states[row] as usize * letters;
    let mut met = count;
    for letter in 0..letters {
        met = carry_entry(
            entries[start + letter],
            new_entries[new_start + letter],
            states,
            queue,
            met,
        )?;
    }
    Some(met)
}

// Carries every row that a record reaches, from state 0 on. Gives whether each of them has a state to go on from.
fn carry_rows(entries: &[u16], new_entries: &[u16], letters: usize, states: &mut [u16]) -> bool
    requires whole_table { WholeTable letters (length states.old) entries.now }
    requires by_index { ((rows : ℕ) × WholeTable letters rows new_entries.now) × (states.old ≡ replicate (length states.old) no_state) }
    ensures { RowsCarried letters entries.now new_entries.now states.new result }
{
    let mut queue = [0u16; MOST_ROWS];
    states[0] = 0;
    let mut count = 1;
    let mut head = 0;
    while head < count {
        let carried = carry_row(
            entries,
            new_entries,
            letters,
            head,
            states,
            &mut queue,
            count,
        );
        let Some(met) = carried else {
            return false;
        };
        count = met;
        head += 1;
    }
    true
}

// 11 or 17 where one of them applies to the two tables, or 0.
fn tables_refusal(
    entries: &[u16],
    finals: &[u8],
    letters: usize,
    streams: StreamsDescription,
    new_entries: &[u16],
    new_finals: &[u8],
    new_letters: usize,
    new_streams: StreamsDescription,
) -> u32
    ensures { TablesRefusal (given_table entries.now finals.now letters streams) (given_table new_entries.now new_finals.now new_letters new_streams) result }
{
    if !given_tables::is_fit(entries, finals, letters, streams) {
        return 11;
    }
    if !given_tables::is_fit(new_entries, new_finals, new_letters, new_streams) {
        return 11;
    }
    if given_tables::same_streams(streams, new_streams) {
        0
    } else {
        17
    }
}

// Copies the states to the front of the list.
fn copy(states: &[u16], list: &mut [u16])
    requires { length states.now ≤ length list.old }
    ensures { list.new ≡ paste list.old 0 states.now (length states.now) }
{
    list[..states.len()].copy_from_slice(states);
}

// Carries the rows of two tables over the same streams, and copies their states to the list. Gives 0 or the refusal. The list is zero, and there is a state,
// none yet, for each old row.
fn fill_list(
    entries: &[u16],
    new_entries: &[u16],
    letters: usize,
    states: &mut [u16],
    list: &mut [u16],
) -> u32
    requires whole_table { WholeTable letters (length states.old) entries.now }
    requires by_index { ((rows : ℕ) × WholeTable letters rows new_entries.now) × (states.old ≡ replicate (length states.old) no_state) × (list.old ≡ replicate (length list.old) 0) }
    ensures { ListFilled letters entries.now new_entries.now (length states.old) (length list.old) result list.new }
{
    if !carry_rows(entries, new_entries, letters, states) {
        return 18;
    }
    if list.len() < states.len() {
        return 10;
    }
    copy(states, list);
    0
}

// For each row of the old table the state of the new one to go on from, at the front of the list; 65,535 for a row that no record reaches. Gives 0 or the
// refusal.
pub fn carry(
    entries: &[u16],
    finals: &[u8],
    letters: usize,
    streams: StreamsDescription,
    new_entries: &[u16],
    new_finals: &[u8],
    new_letters: usize,
    new_streams: StreamsDescription,
    list: &mut [u16],
) -> u32
    ensures { CarryOutcome (given_table entries.now finals.now letters streams) (given_table new_entries.now new_finals.now new_letters new_streams) (length list.old) result list.new }
{
    list.fill(0);
    let refusal = tables_refusal(
        entries,
        finals,
        letters,
        streams,
        new_entries,
        new_finals,
        new_letters,
        new_streams,
    );
    if refusal != 0 {
        return refusal;
    }
    let rows = finals.len();
    let mut states = [NO_STATE; MOST_ROWS];
    fill_list(entries, new_entries, letters, &mut states[..rows], list)
}
