// Fills lent bytes with what `migrate` prints: a heading and a line for each old state with the new one, or the line of a refusal. A program only has to
// write them.
#![tactic(auto)]

ghost use Rattle.std.specs.Prelude.{◌≡◌, ◌≤◌, length, take};
ghost use Rattle.print.specs.Append.{Appends};
ghost use Rattle.migration_text.specs.Migration.{most_states, text_room, migration_heading, migrated_from, migration_output, Writes};

// A line for each state in order, from a place on. Gives the place behind them.
fn fill_lines(states: &[u16], start: usize, out: &mut [u8]) -> usize
    requires { (length states.now ≤ most_states) × (length out.old ≡ text_room) × (start ≡ length migration_heading) }
    ensures { Appends start (migrated_from 0 states.now) out.old out.new result × (result ≤ text_room) }
{
    let mut at = start;
    let mut old: usize = 0;
    while old < states.len() {
        at += print::pair_line(old as u64, states[old] as u64, &mut out[at..]);
        old += 1;
    }
    at
}

// The text at the front of the bytes; its length.
fn fill_text(refusal: u32, states: &[u16], out: &mut [u8]) -> usize
    requires { length out.old ≡ text_room }
    ensures { Writes (migration_output refusal (take most_states states.now)) out.old out.new result }
{
    if refusal != 0 {
        return print::refusal_line(refusal, out);
    }
    let count = states.len().min(256);
    let start = print::text(b"old new\n", out);
    fill_lines(&states[..count], start, out)
}

// Writes the text to the front of the bytes and gives its length: the first states, at most 256, or the line of a refusal, whose number is not 0.
pub fn fill(refusal: u32, states: &[u16], out: &mut [u8; 4096]) -> usize
    ensures { Writes (migration_output refusal (take most_states states.now)) out.old out.new result }
{
    fill_text(refusal, states, out)
}
