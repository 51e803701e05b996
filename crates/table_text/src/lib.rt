// Writes the text of a table to lent bytes: the line of the entry at a place. An answer is how many bytes it takes, or one more than the lent bytes where it
// has no room there.
#![tactic(auto)]

ghost use Rattle.print.specs.Append.{Appends};
ghost use Rattle.table_text.specs.Table.{place_text};

use print::{byte_at, entry_line};

// The line of the entry at a place, counted by state and letter; nothing where the entry is 65,535, where there is no such place, or where the
// streams have no letters, or more of either than a sheet can have.
pub fn entry_text(
    entries: &[u16],
    finals: &[u8],
    lows: &[i64],
    highs: &[i64],
    place: usize,
    out: &mut [u8],
) -> usize
    ensures { Appends 0 (place_text lows.now highs.now entries.now finals.now place) out.old out.new result }
{
    if entries.len() <= place {
        return 0;
    }
    let next = entries[place];
    if next == 65535 {
        return 0;
    }
    let count = letters::letter_count(lows, highs) as usize;
    if count == 0 {
        return 0;
    }
    let letter = (place % count) as u32;
    let mut values = [0i64; 8];
    if !letters::letter_values(lows, highs, letter, &mut values) {
        return 0;
    }
    let state = place / count;
    let streams = lows.len().min(highs.len());
    entry_line(state, byte_at(finals, state), &values[..streams], next, out)
}
