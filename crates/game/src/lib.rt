// The compile with a play table (document 02, S-7): "Say from which states the keeper can make every endless play a solution, and give a play table". The
// compile is the one of the crate compile, in tables that hold no more rows than the play table does.
#![tactic(auto)]

ghost use Rattle.std.specs.Prelude.{length};
ghost use Rattle.compile.specs.Lent.{room_of, tables_of};
ghost use Rattle.game.specs.Call.{ForceSheetCall};

use compiled_sheet::CompiledSheet;

// Compiles a sheet's bytes with a play table: as the compile, with the play table among the lent tables, in the first rows of `play`; or a refusal, and every
// table 0. The final bytes are lent to the compile for as many rows as the play table holds, so that its refusals 8 and 10 count them.
pub fn force(
    text: &[u8],
    entries: &mut [u16],
    finals: &mut [u8],
    keys: &mut [u32],
    live: &mut [u32],
    class: &mut [u32],
    next: &mut [u32],
    heads: &mut [u32],
    links: &mut [u32],
    envelopes: &mut [u32],
    play: &mut [u16],
) -> CompiledSheet
    ensures { ForceSheetCall text.now (room_of entries.old finals.old keys.old live.old class.old next.old heads.old links.old envelopes.old) (length play.old) result (tables_of entries.new finals.new keys.new live.new class.new next.new heads.new links.new envelopes.new) play.new }
{
    let reading = reader::read(text);
    let sheet = reading.sheet;
    let held = choices::rows_held(compiled_sheet::stored_streams(sheet), play.len());
    let rows = held.min(finals.len());
    basics::clear_from(finals, rows, 0);
    let told = compile::compile(
        text,
        entries,
        &mut finals[..rows],
        keys,
        live,
        class,
        next,
        heads,
        links,
        envelopes,
    );
    make_play::make_play(told, entries, finals, live, play)
}
