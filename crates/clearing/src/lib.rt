// Clears the lent tables of a graph or a table, but for the rows that are used.
#![tactic(auto)]

ghost use Rattle.clearing.specs.Tables.{AreCleared};

// Sets every entry from `used` on, every flag from `states` on and every number of the work tables to 0.
pub fn clear_tables(
    entries: &mut [u16],
    used: usize,
    flags: &mut [u8],
    states: usize,
    live: &mut [u32],
    class: &mut [u32],
    next: &mut [u32],
    heads: &mut [u32],
    links: &mut [u32],
    envelopes: &mut [u32],
)
    ensures { AreCleared used states entries.old flags.old live.old class.old next.old heads.old links.old envelopes.old entries.new flags.new live.new class.new next.new heads.new links.new envelopes.new }
{
    basics::clear_from(entries, used, 0);
    basics::clear_from(flags, states, 0);
    live.fill(0);
    class.fill(0);
    next.fill(0);
    heads.fill(0);
    links.fill(0);
    envelopes.fill(0);
}
