// Fills lent bytes with whole lines of a text from a place on, and writes all of a text page by page. The text that is given here is what `sluice` prints: place 0
// has the heading, or the line of a refusal, and the places after it have the lines of the entries, or nothing where an entry is 65,535.
#![tactic(auto)]

ghost use Rattle.std.specs.Prelude.{◌≡◌, ℕ, min, List, length};
ghost use Rattle.output.specs.Output.{Hands};
ghost use Rattle.print.specs.Text.{refusal_line};
ghost use Rattle.pages.specs.Lines.{line_room, HoldsLine, IsPage, HandsFitting};
ghost use Rattle.pages.specs.Output.{printout_of_table, output_at, places_of};

use output::Handed;
use std::io::Write;

// How many of the lent bytes hold lines, and the place after them.
#[derive(Clone, Copy)]
pub struct Page {
    pub size: usize,
    pub next: usize,
}

// A text by its places, each a line or nothing.
pub trait PlacedText {
    ghost line: { Self → ℕ → List ℕ };

    ghost count: { Self → ℕ };

    // How many places there are.
    fn place_count(&self) -> usize
        ensures { result ≡ count self.now };

    // Writes the line at a place to the front of the bytes and gives its length; for a line that is longer than the bytes, a number that is more than their count.
    fn line_at(&self, place: usize, out: &mut [u8]) -> usize
        ensures { HoldsLine (line self.now place) (length out.old) out.new result };
}

// What `sluice` prints: a refusal's number, or 0 and the table of so many states. A name is stored as eight bytes and a length.
#[derive(Clone, Copy)]
pub struct Table<'a> {
    pub refusal: u32,
    pub states: u32,
    pub names: &'a [u8],
    pub lengths: &'a [u8],
    pub lows: &'a [i64],
    pub highs: &'a [i64],
    pub entries: &'a [u16],
    pub finals: &'a [u8],
}

impl<'a> PlacedText for Table<'a> {
    ghost line = { λ t. output_at (printout_of_table t) };

    ghost count = { λ t. places_of (printout_of_table t) };

    fn place_count(&self) -> usize {
        if self.refusal != 0 {
            return 1;
        }
        let count = letters::letter_count(self.lows, self.highs);
        (self.states as usize * count as usize).min(self.entries.len()) + 1
    }

    fn line_at(&self, place: usize, out: &mut [u8]) -> usize {
        if self.refusal != 0 {
            if place != 0 {
                return 0;
            }
            return print::refusal_line(self.refusal, out);
        }
        if place == 0 {
            return print::heading(self.names, self.lengths, self.lows.len(), out);
        }
        table_text::entry_text(
            self.entries,
            self.finals,
            self.lows,
            self.highs,
            place - 1,
            out,
        )
    }
}

// The lines of the places from `from` on, as many as the bytes have room for.
pub fn fill_page<T: PlacedText>(text: &T, from: usize, out: &mut [u8]) -> Page
    ensures { IsPage (T.line text.now) (T.count text.now) from out.old out.new result }
{
    let count = text.place_count();
    let mut line = [0u8; 256];
    let mut size = 0;
    for place in from..count {
        let length = text.line_at(place, &mut line);
        if (out.len() - size).min(256) < length {
            return Page { size, next: place };
        }
        let end = size + length;
        out[size..end].copy_from_slice(&line[..length]);
        size = end;
    }
    Page {
        size,
        next: count.max(from),
    }
}

// Writes the one line of a refusal.
pub fn write_refusal<W: Write>(out: &mut W, refusal: u32) -> Handed
    ensures { Hands (refusal_line refusal) result.size result.whole }
{
    let mut line = [0u8; 32];
    let size = print::refusal_line(refusal, &mut line);
    output::write_front(out, &line, size)
}

// Writes the lines, page by page, and stops before a line that is longer than the page or than 256 bytes, at a write that fails, and where the bytes are more than a
// `usize` counts.
pub fn write_pages<T: PlacedText, W: Write>(out: &mut W, text: &T, page: &mut [u8]) -> Handed
    ensures { HandsFitting (T.line text.now) (T.count text.now) (min (length page.old) line_room) result.size result.whole }
{
    let mut size = 0;
    let mut from = 0;
    'pages: loop {
        let filled = fill_page(text, from, page);
        if filled.size == 0 {
            return Handed { size, whole: true };
        }
        let handed = output::write_front(out, page, filled.size);
        if !handed.whole {
            return Handed { size, whole: false };
        }
        size = match size.checked_add(handed.size) {
            Some(sum) => sum,
            None => return Handed { size, whole: false },
        };
        from = filled.next;
    }
}
