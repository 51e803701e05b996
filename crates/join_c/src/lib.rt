// The entry by which C programs call `join_tables`. A slice is a pointer and a length there.
#![tactic(auto)]

ghost use Rattle.given_tables.specs.Given.{given_table};
ghost use Rattle.pair_outcome.specs.Outcome.{join_room, join_tables};
ghost use Rattle.join_tables.specs.Outcome.{JoinOutcome};

use join_tables::JoinAnswer;
use streams::StreamsDescription;

#[unsafe(no_mangle)]
pub extern "C" fn join_c(
    left_entries: &[u16],
    left_finals: &[u8],
    left_letters: u32,
    left_streams: StreamsDescription,
    right_entries: &[u16],
    right_finals: &[u8],
    right_letters: u32,
    right_streams: StreamsDescription,
    entries: &mut [u16],
    finals: &mut [u8],
    keys: &mut [u32],
    live: &mut [u32],
    class: &mut [u32],
    next: &mut [u32],
    heads: &mut [u32],
    links: &mut [u32],
    envelopes: &mut [u32],
) -> JoinAnswer
    ensures { JoinOutcome (given_table left_entries.now left_finals.now left_letters left_streams) (given_table right_entries.now right_finals.now right_letters right_streams) (join_room entries.old finals.old keys.old live.old class.old next.old heads.old links.old envelopes.old) result (join_tables entries.new finals.new keys.new live.new class.new next.new heads.new links.new envelopes.new) }
{
    join_tables::join_tables(
        left_entries,
        left_finals,
        left_letters as usize,
        left_streams,
        right_entries,
        right_finals,
        right_letters as usize,
        right_streams,
        entries,
        finals,
        keys,
        live,
        class,
        next,
        heads,
        links,
        envelopes,
    )
}
