// From a compiled table to its play table, with what is told of the sheet.
#![tactic(auto)]

ghost use Rattle.std.specs.Prelude.{◌≡◌};
ghost use Rattle.make_play.specs.Parts.{kept_if, PlayMade};

use compiled_sheet::CompiledSheet;

// Clears entries and final bytes where nothing can be forced.
fn keep_if(forced: bool, entries: &mut [u16], finals: &mut [u8])
    ensures { (entries.new ≡ kept_if forced entries.old) × (finals.new ≡ kept_if forced finals.old) }
{
    if !forced {
        entries.fill(0);
        finals.fill(0);
    }
}

// Makes the play table of a compiled table. Where none is compiled there are no states, so that nothing is forced.
pub fn make_play(
    told: CompiledSheet,
    entries: &mut [u16],
    finals: &mut [u8],
    live: &mut [u32],
    play: &mut [u16],
) -> CompiledSheet
    ensures { PlayMade told entries.old finals.old live.old play.old result entries.new finals.new live.new play.new }
{
    let streams = told.streams;
    let choices = choices::choice_count(streams) as usize;
    let mut choice = [0u16; 1024];
    choices::fill_choices(streams, &mut choice);
    let letters = (told.letters as usize).min(1024);
    let states = (told.states as usize).min(live.len());
    let forced = winning_rows::find_play(
        entries,
        finals,
        &choice[..letters],
        choices,
        &mut live[..states],
        play,
    );
    keep_if(forced, entries, finals);
    compiled_sheet::with_play(told, forced)
}
