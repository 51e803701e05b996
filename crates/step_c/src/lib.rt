// The entries by which C calls the step: a slice is a pointer and a length there. Each gives the answer of `step` under the same contract.
#![tactic(auto)]

ghost use Rattle.step.specs.RunningPlace.{PlaceStep};
ghost use Rattle.step.specs.Step.{StepAnswer};

use step::Place;

#[unsafe(no_mangle)]
pub extern "C" fn step(table: &[u8], letters: u32, state: u32, letter: u32) -> u32
    ensures { StepAnswer table.now letters state letter result }
{
    step::step(table, letters, state, letter)
}

#[unsafe(no_mangle)]
pub extern "C" fn advance(place: &mut Place, table: &[u8], letters: u32, letter: u32) -> u32
    ensures { PlaceStep table.now letters letter place.old result place.new }
{
    step::advance(place, table, letters, letter)
}
