// What a call for a course tests, and what it adds up, apart from its tables: the refusals 11, 15 and 10, the goal layer, and what a letter costs.
#![tactic(auto)]

ghost use Rattle.std.specs.Prelude.{◌≡◌, length};
ghost use Rattle.basics.specs.Lists.{at};
ghost use Rattle.basics.specs.Answers.{Says};
ghost use Rattle.automaton.specs.Stored.{final_at};
ghost use Rattle.course_tests.specs.Goal.{IsGoalBelow};
ghost use Rattle.course_tests.specs.Refusals.{IsFit, GoalRefusal};
ghost use Rattle.course_tests.specs.Cost.{total_cost};

use streams::StreamsDescription;

// The layer of a row that is not met.
pub const NOT_MET: u16 = 65535;
// The cost that stands for no course.
pub const NO_COURSE: u16 = 65535;

// Whether the state is a row of a table that is well formed, and an accepted sheet could have the streams, which make the table's letters.
pub fn is_fit(
    entries: &[u16],
    finals: &[u8],
    letters: usize,
    streams: StreamsDescription,
    state: usize,
) -> bool
    ensures { Says result (IsFit letters entries.now finals.now streams state) }
{
    tables::is_well_formed(entries, finals, letters)
        && streams::streams_fit(streams, letters)
        && state < finals.len()
}

// The least layer of a final row that is met, or NOT_MET if there is none. A row without a final byte is not final.
pub fn goal_layer(finals: &[u8], layers: &[u16]) -> u16
    ensures { IsGoalBelow (final_at finals.now) (at layers.now) (length layers.now) result }
{
    let mut goal = NOT_MET;
    for row in 0..layers.len().min(finals.len()) {
        if finals[row] == 1 {
            goal = goal.min(layers[row]);
        }
    }
    goal
}

// The refusal by the goal layer and the rooms lent, or 0.
pub fn goal_refusal(goal: u16, room: usize, work: usize, entries: usize) -> u32
    ensures { GoalRefusal goal room work entries result }
{
    if goal == NOT_MET {
        return 15;
    }
    if work < entries || room < usize::from(goal) {
        return 10;
    }
    0
}

// What a letter costs with what follows it. No sum is as large as what stands for none.
pub fn total_cost(changes: u16, cost: u16) -> u32
    ensures { result ≡ total_cost changes cost }
{
    if cost == NO_COURSE {
        return 131072;
    }
    u32::from(changes) + u32::from(cost)
}
