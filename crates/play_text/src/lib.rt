// What `strategy` prints, by its places. Place 0 has the heading, or the line of a refusal, and the places after it have, by state and choice, the line of the
// letter that the play table holds, or nothing where it holds 65,535.
#![tactic(auto)]

ghost use Rattle.print.specs.Append.{Appends};
ghost use Rattle.play_text.specs.Output.{held_text, printout_of_play, play_at, play_places};

use pages::{PlacedText, Table};

// What `strategy` prints: a refusal's number, or 0 and a table with its play table, of so many choices.
#[derive(Clone, Copy)]
pub struct PrintedPlay<'a> {
    pub table: Table<'a>,
    pub choices: u32,
    pub play: &'a [u16],
}

// The line of the letter held at a place, counted by state and choice; nothing where the play table holds 65,535, or where there is no such place.
fn held_line(
    choices: u32,
    lows: &[i64],
    highs: &[i64],
    entries: &[u16],
    finals: &[u8],
    play: &[u16],
    place: usize,
    line: &mut [u8],
) -> usize
    ensures { Appends 0 (held_text choices lows.now highs.now entries.now finals.now play.now place) line.old line.new result }
{
    if play.len() <= place || play[place] == 65535 {
        return 0;
    }
    let letters = letters::letter_count(lows, highs) as usize;
    // Without choices the first state is taken. A number that does not fit is that of no entry, and so is the largest.
    let state = place.checked_div(choices as usize).unwrap_or(0);
    let held = state
        .saturating_mul(letters)
        .saturating_add(usize::from(play[place]));
    table_text::entry_text(entries, finals, lows, highs, held, line)
}

impl<'a> PlacedText for PrintedPlay<'a> {
    ghost line = { λ p. play_at (printout_of_play p) };

    ghost count = { λ p. play_places p.table.refusal p.table.states p.choices p.play.now };

    fn place_count(&self) -> usize {
        if self.table.refusal != 0 {
            return 1;
        }
        (self.table.states as usize * self.choices as usize).min(self.play.len()) + 1
    }

    // `sluice`'s heading, then for each state and each choice in order `sluice`'s line of the letter held; or the one line of a refusal.
    fn line_at(&self, place: usize, line: &mut [u8]) -> usize {
        let table = self.table;
        if table.refusal != 0 {
            if place != 0 {
                return 0;
            }
            return print::refusal_line(table.refusal, line);
        }
        if place == 0 {
            return print::heading(table.names, table.lengths, table.lows.len(), line);
        }
        held_line(
            self.choices,
            table.lows,
            table.highs,
            table.entries,
            table.finals,
            self.play,
            place - 1,
            line,
        )
    }
}
