// The entry by which C programs call `force`. A slice is a pointer and a length there.
#![tactic(auto)]

ghost use Rattle.std.specs.Prelude.{length};
ghost use Rattle.compile.specs.Lent.{room_of, tables_of};
ghost use Rattle.game.specs.Call.{ForceSheetCall};

use compiled_sheet::CompiledSheet;

#[unsafe(no_mangle)]
pub extern "C" fn strategy_c(
    text: &[u8],
    entries: &mut [u16],
    finals: &mut [u8],
    keys: &mut [u32],
    live: &mut [u32],
    class: &mut [u32],
    next: &mut [u32],
    heads: &mut [u32],
    links: &mut [u32],
    envelopes: &mut [u32],
    play: &mut [u16],
) -> CompiledSheet
    ensures { ForceSheetCall text.now (room_of entries.old finals.old keys.old live.old class.old next.old heads.old links.old envelopes.old) (length play.old) result (tables_of entries.new finals.new keys.new live.new class.new next.new heads.new links.new envelopes.new) play.new }
{
    game::force(
        text, entries, finals, keys, live, class, next, heads, links, envelopes, play,
    )
}
