// The step along a table of states, and the running place that it changes.
#![tactic(auto)]

ghost use Rattle.std.specs.Prelude.{◌≡◌, ◌+◌, ◌<◌, length};
ghost use Rattle.stored.specs.Number.{number_at};
ghost use Rattle.step.specs.Step.{entry_width, StepAnswer};
ghost use Rattle.step.specs.RunningPlace.{steps_after, PlaceStep};

use automaton::MOST_ROWS;

// "65,536 plus the refusal": an answer from this number on is a refusal.
const REFUSED: u32 = 65536;
// The host's refusal, by its arguments or its table.
const REFUSED_11: u32 = REFUSED + 11;
// The river's: the letter leads nowhere.
const REFUSED_12: u32 = REFUSED + 12;
// The entry for none.
const NO_STATE: u32 = automaton::NO_STATE as u32;

// The running place: the state, and the steps taken, which stay at their top.
#[repr(C)]
#[derive(Clone, Copy)]
pub struct Place {
    pub state: u32,
    pub steps: u32,
}

// What a step from a running place gives.
#[derive(Clone, Copy)]
pub struct Stepped {
    pub answer: u32,
    pub place: Place,
}

// The entry whose two bytes stand at `at`, low first.
fn entry_at(table: &[u8], at: usize) -> u32
    requires { at + 1 < length table.now }
    ensures { result ≡ number_at entry_width table.now at }
{
    let low = u32::from(table[at]);
    let high = u32::from(table[at + 1]);
    low + 256 * high
}

// The next state, or 65,536 plus the refusal.
// `table` is the bytes of the entries, row after row, two bytes an entry, low first.
pub fn step(table: &[u8], letters: u32, state: u32, letter: u32) -> u32
    ensures { StepAnswer table.now letters state letter result }
{
    let row = letters as usize * 2;
    if letters == 0 || table.len() % row != 0 {
        return REFUSED_11;
    }
    let rows = table.len() / row;
    if MOST_ROWS < rows || rows <= state as usize || letters <= letter {
        return REFUSED_11;
    }
    let at = (state as usize * letters as usize + letter as usize) * 2;
    let entry = entry_at(table, at);
    if entry == NO_STATE {
        return REFUSED_12;
    }
    if rows <= entry as usize {
        return REFUSED_11;
    }
    entry
}

// The steps taken after one more.
fn counted(steps: u32) -> u32
    ensures { result ≡ steps_after steps }
{
    steps.saturating_add(1)
}

// The place after a step to a state.
fn moved(place: Place, state: u32) -> Place
    ensures { (result.state ≡ state) × (result.steps ≡ steps_after place.steps) }
{
    Place {
        state,
        steps: counted(place.steps),
    }
}

// A step from a running place. A refusal leaves the place as it was.
pub fn step_place(place: Place, table: &[u8], letters: u32, letter: u32) -> Stepped
    ensures { PlaceStep table.now letters letter place result.answer result.place }
{
    let answer = step(table, letters, place.state, letter);
    if answer < REFUSED {
        Stepped {
            answer,
            place: moved(place, answer),
        }
    } else {
        Stepped { answer, place }
    }
}

// A step of the running place where it stands: the place is stored again, and the answer is given back.
pub fn advance(place: &mut Place, table: &[u8], letters: u32, letter: u32) -> u32
    ensures { PlaceStep table.now letters letter place.old result place.new }
{
    let stepped = step_place(*place, table, letters, letter);
    *place = stepped.place;
    stepped.answer
}
