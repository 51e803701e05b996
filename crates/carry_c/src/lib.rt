// The entry by which C programs call `carry`. A slice is a pointer and a length there.
#![tactic(auto)]

ghost use Rattle.std.specs.Prelude.{length};
ghost use Rattle.given_tables.specs.Given.{given_table};
ghost use Rattle.carry.specs.Carry.{CarryOutcome};

use streams::StreamsDescription;

#[unsafe(no_mangle)]
pub extern "C" fn carry_c(
    entries: &[u16],
    finals: &[u8],
    letters: u32,
    streams: StreamsDescription,
    new_entries: &[u16],
    new_finals: &[u8],
    new_letters: u32,
    new_streams: StreamsDescription,
    list: &mut [u16],
) -> u32
    ensures { CarryOutcome (given_table entries.now finals.now letters streams) (given_table new_entries.now new_finals.now new_letters new_streams) (length list.old) result list.new }
{
    carry::carry(
        entries,
        finals,
        letters as usize,
        streams,
        new_entries,
        new_finals,
        new_letters as usize,
        new_streams,
        list,
    )
}
