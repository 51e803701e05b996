// The entry by which the benchmark's C program calls `minimise`. A slice is a pointer and a length there.
#![tactic(auto)]

ghost use Rattle.std.specs.Prelude.{[], ◌∷◌};
ghost use Rattle.minimise.specs.Outcome.{MinimiseOutcome};

use minimise::Minimised;

#[unsafe(no_mangle)]
pub extern "C" fn minimise_c(
    entries: &mut [u16],
    flags: &mut [u8],
    letters: usize,
    rows: usize,
    live: &mut [u32],
    class: &mut [u32],
    next: &mut [u32],
    heads: &mut [u32],
    links: &mut [u32],
    envelopes: &mut [u32],
) -> Minimised
    ensures { MinimiseOutcome (record { entries = entries.entry.now; flags = flags.old; work = live.old ∷ (class.old ∷ (next.old ∷ (heads.old ∷ (links.old ∷ (envelopes.old ∷ []))))) }) letters rows result.refusal result.states (record { entries = entries.exit.now; flags = flags.new; work = live.new ∷ (class.new ∷ (next.new ∷ (heads.new ∷ (links.new ∷ (envelopes.new ∷ []))))) }) }
{
    minimise::minimise(
        entries, flags, letters, rows, live, class, next, heads, links, envelopes,
    )
}
