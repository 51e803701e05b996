// The course of fewest letters from a state of a lent table to a final state, of these the one with the fewest changes of set streams, and of these the
// first in number order (document 02, S-3 and S-8).
//
// A queue over the rows gives each row its layer, the fewest letters that lead to it. The goal is the least layer of a final row.
// Then what the rest of a course costs is found for each row before the goal and each letter before it, the last layer first: the cost
// behind each letter, and from these, stream by stream, the least with the changes to the letter (crate changes). From the start on, the
// first of the cheapest letters is the next one. So the entries are looked at in three passes, the stored costs in one pass for each
// stream, and both once more along the course.
#![tactic(auto)]

ghost use Rattle.std.specs.Prelude.{◌≡◌, ◌≢◌, List, ℕ, ◌*◌, ◌<◌, ◌≤◌, length, replicate};
ghost use Rattle.basics.specs.Lists.{at};
ghost use Rattle.automaton.specs.Stored.{entry_at, final_at};
ghost use Rattle.automaton.specs.WellFormed.{most_rows, WholeTable};
ghost use Rattle.automaton.specs.Layers.{IsLayers, IsGoal};
ghost use Rattle.streams.specs.declared.StreamsDescription.{StreamsDescription};
ghost use Rattle.changes.specs.Axes.{letter_total, axes_in, IsShape};
ghost use Rattle.course_tests.specs.Refusals.{IsFit};
ghost use Rattle.course.specs.Outcome.{BestCourse, CourseCall};
ghost use Rattle.course_tests.specs.Goal.{not_met};
ghost use Rattle.course.specs.Queue.{StoredTurn, EntryFits, HasRoom, EntryMet, RowMet, IsMet, IsQueue, QueueEnded};
ghost use Rattle.course.specs.Goal.{IsSearched};
ghost use Rattle.course.specs.Costs.{layered_in, cost_behind, LoadsRow, FindsRow, AreKnown, IsCheapest, HoldsBest};

use automaton::{MOST_ROWS, NO_STATE};
use changes::Shape;
use course_tests::{NO_COURSE, NOT_MET, goal_layer, goal_refusal, is_fit, total_cost};
use streams::StreamsDescription;

// The answer: 0 or the refusal, and how many letters the course has.
#[repr(C)]
#[derive(Clone, Copy)]
pub struct CourseAnswer {
    pub refusal: u32,
    pub count: u32,
}

// Puts the row that an entry leads to at the end of the queue, in the layer `next`, unless it is met already. Gives how many rows are met then.
fn meet(entry: u16, next: u16, layers: &mut [u16], queue: &mut [u16], count: usize) -> usize
    requires { HasRoom entry count layers.old queue.old }
    ensures { EntryMet entry next count layers.old queue.old layers.new queue.new result }
{
    if entry == NO_STATE {
        return count;
    }
    let row = entry as usize;
    if layers[row] != NOT_MET {
        return count;
    }
    layers[row] = next;
    queue[count] = entry;
    count + 1
}

// Meets the rows that the row at the head of the queue leads to, letter by letter. Gives how many rows are met then.
fn meet_row(
    entries: &[u16],
    letters: usize,
    head: usize,
    layers: &mut [u16],
    queue: &mut [u16],
    count: usize,
) -> usize
    requires whole_table { WholeTable letters (length layers.old) entries.now }
    requires queue_len { (length queue.old ≡ length layers.old) × (head < count) }
    requires stored_turn { StoredTurn letters (length layers.old) entries.now layers.old queue.old count head 0 }
    ensures { RowMet letters entries.now head queue.old layers.new queue.new result }
{
    let row = queue[head] as usize;
    let start = row * letters;
    let next = layers[row] + 1;
    let mut met = count;
    for letter in 0..letters {
        met = meet(entries[start + letter], next, layers, queue, met);
    }
    met
}

// Meets every row that the start leads to, layer by layer. Gives how many they are.
fn meet_rows(
    entries: &[u16],
    letters: usize,
    start: u16,
    layers: &mut [u16],
    queue: &mut [u16],
) -> usize
    requires whole_table { WholeTable letters (length layers.old) entries.now }
    requires queue_len { (length queue.old ≡ length layers.old) × (start < length layers.old) × (layers.old ≡ replicate (length layers.old) not_met) }
    ensures { QueueEnded letters entries.now start layers.new queue.new result }
{
    let first = start as usize;
    layers[first] = 0;
    queue[0] = start;
    let mut count = 1;
    let mut head = 0;
    while head < count {
        count = meet_row(entries, letters, head, layers, queue, count);
        head += 1;
    }
    count
}

// How many rows are met, and the goal layer.
#[derive(Clone, Copy)]
struct MetRows {
    count: usize,
    goal: u16,
}

// Meets every row that the start leads to, and finds the goal layer.
fn search(
    entries: &[u16],
    finals: &[u8],
    letters: usize,
    start: u16,
    layers: &mut [u16],
    queue: &mut [u16],
) -> MetRows
    requires whole_table { WholeTable letters (length layers.old) entries.now }
    requires finals_len { (length finals.now ≡ length layers.old) × (length queue.old ≡ length layers.old) × (start < length layers.old) × (layers.old ≡ replicate (length layers.old) not_met) }
    ensures { IsSearched letters entries.now finals.now start layers.new queue.new result.count result.goal }
{
    let count = meet_rows(entries, letters, start, layers, queue);
    MetRows {
        count: count,
        goal: goal_layer(finals, layers),
    }
}

// ---- costs, the last layer first

// What the rest of a course costs behind a letter that leads by this entry: NO_COURSE unless it leads to the layer `next` and a course goes on there.
fn cost_behind(
    entry: u16,
    letter: usize,
    finals: &[u8],
    letters: usize,
    next: u16,
    goal: u16,
    layers: &[u16],
    costs: &[u16],
) -> u16
    requires entry_fits { EntryFits entry (length layers.now) }
    requires finals_len { (length finals.now ≡ length layers.now) × (length layers.now * letters ≤ length costs.now) × (letter < letters) }
    ensures { (entries : List ℕ) → result ≡ cost_behind (layered_in letters entries finals.now layers.now goal) costs.now next entry letter }
{
    if entry == NO_STATE {
        return NO_COURSE;
    }
    let row = entry as usize;
    if layers[row] != next {
        return NO_COURSE;
    }
    if next != goal {
        return costs[row * letters + letter];
    }
    if finals[row] == 1 { 0 } else { NO_COURSE }
}

// Stores in a row what the rest of a course costs behind each letter.
fn load_row(
    entries: &[u16],
    finals: &[u8],
    letters: usize,
    row: usize,
    goal: u16,
    layers: &[u16],
    costs: &mut [u16],
)
    requires whole_table { WholeTable letters (length layers.now) entries.now }
    requires finals_len { (length finals.now ≡ length layers.now) × (length layers.now * letters ≤ length costs.old) × (row < length layers.now) × (at layers.now row < not_met) }
    ensures { LoadsRow (layered_in letters entries.now finals.now layers.now goal) row letters costs.old costs.new }
{
    let start = row * letters;
    let next = layers[row] + 1;
    for letter in 0..letters {
        let entry = entries[start + letter];
        costs[start + letter] = cost_behind(
            entry, letter, finals, letters, next, goal, layers, costs,
        );
    }
}

// The costs of a row before the goal layer, where those of the next layer are known.
fn find_row(
    entries: &[u16],
    finals: &[u8],
    letters: usize,
    shape: Shape,
    row: usize,
    goal: u16,
    layers: &[u16],
    costs: &mut [u16],
)
    requires whole_table { WholeTable letters (length layers.now) entries.now }
    requires finals_len { (length finals.now ≡ length layers.now) × (length layers.now * letters ≤ length costs.old) × (row < length layers.now) × (at layers.now row < not_met) × (letter_total (axes_in shape) ≡ letters) }
    ensures { FindsRow (axes_in shape) (layered_in letters entries.now finals.now layers.now goal) row costs.old costs.new }
{
    load_row(entries, finals, letters, row, goal, layers, costs);
    let start = row * letters;
    let end = start + letters;
    changes::lower_costs(shape, &mut costs[start..end]);
}

// The costs of every row before the goal layer, the last layer first.
fn find_costs(
    entries: &[u16],
    finals: &[u8],
    letters: usize,
    shape: Shape,
    met: MetRows,
    layers: &[u16],
    queue: &[u16],
    costs: &mut [u16],
)
    requires whole_table { WholeTable letters (length layers.now) entries.now }
    requires finals_len { (length finals.now ≡ length layers.now) × (length queue.now ≡ length layers.now) × (length layers.now * letters ≤ length costs.old) × (met.goal < most_rows) × (letter_total (axes_in shape) ≡ letters) }
    requires queue { IsQueue (length layers.now) (at layers.now) (at queue.now) met.count }
    ensures { AreKnown (axes_in shape) (layered_in letters entries.now finals.now layers.now met.goal) costs.new }
{
    let goal = met.goal;
    for left in (0..met.count).rev() {
        let row = queue[left] as usize;
        if layers[row] < goal {
            find_row(entries, finals, letters, shape, row, goal, layers, costs);
        }
    }
}

// ---- the way forward

// The first of the letters that cost least at a row, with what follows them.
fn cheapest_letter(
    entries: &[u16],
    finals: &[u8],
    letters: usize,
    row: usize,
    goal: u16,
    layers: &[u16],
    costs: &[u16],
    changes: &[u16],
) -> usize
    requires whole_table { WholeTable letters (length layers.now) entries.now }
    requires finals_len { (length finals.now ≡ length layers.now) × (length layers.now * letters ≤ length costs.now) × (row < length layers.now) × (at layers.now row < not_met) × (length changes.now ≡ letters) }
    ensures { IsCheapest (layered_in letters entries.now finals.now layers.now goal) costs.now (at changes.now) row result }
{
    let start = row * letters;
    let next = layers[row] + 1;
    let mut best = 0;
    let mut least: u32 = 131072;
    for letter in 0..letters {
        let entry = entries[start + letter];
        let cost = cost_behind(entry, letter, finals, letters, next, goal, layers, costs);
        let total = total_cost(changes[letter], cost);
        if total < least {
            least = total;
            best = letter;
        }
    }
    best
}

// Writes the letters of the course, from the start on.
fn follow(
    entries: &[u16],
    finals: &[u8],
    letters: usize,
    shape: Shape,
    start: usize,
    goal: u16,
    layers: &[u16],
    costs: &[u16],
    changes: &mut [u16],
    list: &mut [u32],
)
    requires whole_table { WholeTable letters (length layers.now) entries.now }
    requires finals_len { (length finals.now ≡ length layers.now) × (length layers.now * letters ≤ length costs.now) × (goal ≤ length list.old) × (goal < most_rows) × (letter_total (axes_in shape) ≡ letters) × (letters ≤ 1024) × (changes.old ≡ replicate letters 0) }
    requires layers { IsLayers letters (entry_at letters entries.now) start (IsMet (length layers.now) (at layers.now)) (at layers.now) }
    requires goal { IsGoal (final_at finals.now) (IsMet (length layers.now) (at layers.now)) (at layers.now) goal }
    requires are_known { AreKnown (axes_in shape) (layered_in letters entries.now finals.now layers.now goal) costs.now }
    ensures { HoldsBest (axes_in shape) (layered_in letters entries.now finals.now layers.now goal) start list.old list.new }
{
    let end = goal as usize;
    let mut row = start;
    for taken in 0..end {
        let letter = cheapest_letter(entries, finals, letters, row, goal, layers, costs, changes);
        list[taken] = letter as u32;
        row = entries[row * letters + letter] as usize;
        changes::count_changes(shape, letter, changes);
    }
}

// ---- the call

fn refused(refusal: u32) -> CourseAnswer
    ensures { (result.refusal ≡ refusal) × (result.count ≡ 0) }
{
    CourseAnswer { refusal, count: 0 }
}

// The costs and the way forward, where there is a course and room for it.
fn write_course(
    entries: &[u16],
    finals: &[u8],
    letters: usize,
    shape: Shape,
    start: usize,
    met: MetRows,
    layers: &[u16],
    queue: &[u16],
    list: &mut [u32],
    work: &mut [u16],
)
    requires whole_table { WholeTable letters (length layers.now) entries.now }
    requires finals_len { (length finals.now ≡ length layers.now) × (length queue.now ≡ length layers.now) × (length layers.now * letters ≤ length work.old) × (met.goal ≢ not_met) × (met.goal ≤ length list.old) × (letter_total (axes_in shape) ≡ letters) × (letters ≤ 1024) }
    requires searched { IsSearched letters entries.now finals.now start layers.now queue.now met.count met.goal }
    ensures { HoldsBest (axes_in shape) (layered_in letters entries.now finals.now layers.now met.goal) start list.old list.new }
{
    find_costs(entries, finals, letters, shape, met, layers, queue, work);
    let mut changes = [0u16; 1024];
    follow(
        entries,
        finals,
        letters,
        shape,
        start,
        met.goal,
        layers,
        work,
        &mut changes[..letters],
        list,
    );
}

// The course where 11 does not apply and the rows are met. The list is zero.
fn settle_course(
    entries: &[u16],
    finals: &[u8],
    letters: usize,
    shape: Shape,
    start: usize,
    met: MetRows,
    layers: &[u16],
    queue: &[u16],
    list: &mut [u32],
    work: &mut [u16],
) -> CourseAnswer
    requires whole_table { WholeTable letters (length layers.now) entries.now }
    requires finals_len { (length finals.now ≡ length layers.now) × (length queue.now ≡ length layers.now) × (letter_total (axes_in shape) ≡ letters) × (letters ≤ 1024) × (list.old ≡ replicate (length list.old) 0) }
    requires searched { IsSearched letters entries.now finals.now start layers.now queue.now met.count met.goal }
    ensures { (streams : StreamsDescription) → IsShape streams shape → IsFit letters entries.now finals.now streams start → BestCourse letters entries.now finals.now streams start (length list.old) (length work.old) result.refusal result.count list.new }
{
    let goal = met.goal;
    let refusal = goal_refusal(goal, list.len(), work.len(), entries.len());
    if refusal != 0 {
        return refused(refusal);
    }
    write_course(
        entries, finals, letters, shape, start, met, layers, queue, list, work,
    );
    CourseAnswer {
        refusal: 0,
        count: goal as u32,
    }
}

// The course where 11 does not apply. The list is zero, and layers and queue have a number for each row.
fn find_course(
    entries: &[u16],
    finals: &[u8],
    letters: usize,
    shape: Shape,
    start: u16,
    layers: &mut [u16],
    queue: &mut [u16],
    list: &mut [u32],
    work: &mut [u16],
) -> CourseAnswer
    requires whole_table { WholeTable letters (length layers.old) entries.now }
    requires finals_len { (length finals.now ≡ length layers.old) × (length queue.old ≡ length layers.old) × (start < length layers.old) × (letter_total (axes_in shape) ≡ letters) × (letters ≤ 1024) }
    requires layers_value { (layers.old ≡ replicate (length layers.old) not_met) × (list.old ≡ replicate (length list.old) 0) }
    ensures { (streams : StreamsDescription) → IsShape streams shape → IsFit letters entries.now finals.now streams start → BestCourse letters entries.now finals.now streams start (length list.old) (length work.old) result.refusal result.count list.new }
{
    let met = search(entries, finals, letters, start, layers, queue);
    settle_course(
        entries,
        finals,
        letters,
        shape,
        start as usize,
        met,
        layers,
        queue,
        list,
        work,
    )
}

// The course, or 11. The list is zero.
fn judged_course(
    entries: &[u16],
    finals: &[u8],
    letters: usize,
    streams: StreamsDescription,
    state: usize,
    list: &mut [u32],
    work: &mut [u16],
) -> CourseAnswer
    requires { list.old ≡ replicate (length list.old) 0 }
    ensures { BestCourse letters entries.now finals.now streams state (length list.old) (length work.old) result.refusal result.count list.new }
{
    if !is_fit(entries, finals, letters, streams, state) {
        return refused(11);
    }
    let rows = finals.len();
    let mut layers = [NOT_MET; MOST_ROWS];
    let mut queue = [0u16; MOST_ROWS];
    find_course(
        entries,
        finals,
        letters,
        changes::shape_of(streams),
        state as u16,
        &mut layers[..rows],
        &mut queue[..rows],
        list,
        work,
    )
}

// The course from a state of any table that is lent, with the streams that make its letters.
pub fn course(
    entries: &[u16],
    finals: &[u8],
    letters: u32,
    streams: StreamsDescription,
    state: u32,
    list: &mut [u32],
    work: &mut [u16],
) -> CourseAnswer
    ensures { CourseCall letters entries.now finals.now streams state (length list.old) (length work.old) result.refusal result.count list.new work.new }
{
    list.fill(0);
    let answer = judged_course(
        entries,
        finals,
        letters as usize,
        streams,
        state as usize,
        list,
        work,
    );
    work.fill(0);
    answer
}
