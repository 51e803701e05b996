// The choices of the river (document 02, S-7): how many there are, and the choice that each letter has. A letter's number is taken apart stream by stream, the
// last one first, and the digits of the read streams make the number of its choice.
#![tactic(auto)]

ghost use Rattle.std.specs.Prelude.{◌<◌, ◌≡◌};
ghost use Rattle.meaning.specs.Letter.{size};
ghost use Rattle.letters.specs.Described.{cut_count};
ghost use Rattle.streams.specs.Description.{stream_in};
ghost use Rattle.choices.specs.Counted.{letters_made, CanCount, IsChosen, ChoicesCounted, RowsHeld, ChoicesFilled};

use streams::StreamsDescription;

// The number of a letter's choice, and how many choices there are.
#[derive(Clone, Copy)]
struct ChoiceRead {
    number: u32,
    count: u32,
}

// How many letters the streams make, 1,025 for more than 1,024; 0 for more than eight streams, which no sheet has.
fn letters_made(streams: StreamsDescription) -> u32
    ensures { result ≡ letters_made streams }
{
    let count = streams.count;
    if 8 < count {
        return 0;
    }
    letters::letter_count(&streams.lows[..count], &streams.highs[..count])
}

// How many values a stream has; 1,025 where they are more.
fn values_in(streams: StreamsDescription, stream: usize) -> u32
    requires { stream < 8 }
    ensures { result ≡ cut_count (size (stream_in streams stream).range) }
{
    letters::values(streams.lows[stream], streams.highs[stream])
}

// The choice of a letter.
fn choice_of(streams: StreamsDescription, letter: u32) -> ChoiceRead
    requires { CanCount streams }
    ensures { IsChosen streams letter result }
{
    let mut rest = letter;
    let mut number = 0;
    let mut count = 1;
    for i in (0..streams.count).rev() {
        let size = values_in(streams, i);
        let is_read = streams.kinds[i] == nodes::READ_STREAM;
        if is_read {
            number += rest % size * count;
            count *= size;
        }
        rest /= size;
    }
    ChoiceRead { number, count }
}

// How many choices there are; 0 for more than eight streams, and where there are no letters or more than 1,024.
pub fn choice_count(streams: StreamsDescription) -> u32
    ensures { ChoicesCounted streams result }
{
    let letters = letters_made(streams);
    if letters == 0 || 1024 < letters {
        return 0;
    }
    choice_of(streams, 0).count
}

// Writes the choice of each letter to the front of `out`; whether there are letters, at most 1,024, and room for them. Else the list stays as it is.
pub fn fill_choices(streams: StreamsDescription, out: &mut [u16]) -> bool
    ensures { ChoicesFilled streams out.old result out.new }
{
    let letters = letters_made(streams);
    if letters == 0 || 1024 < letters || out.len() < letters as usize {
        return false;
    }
    for letter in 0..letters {
        let chosen = choice_of(streams, letter);
        out[letter as usize] = chosen.number as u16;
    }
    true
}

// How many rows a play table of so many numbers holds, one number a choice in each: none where the choices cannot be counted.
pub fn rows_held(streams: StreamsDescription, room: usize) -> usize
    ensures { RowsHeld streams room result }
{
    let choices = choice_count(streams) as usize;
    if choices == 0 { 0 } else { room / choices }
}
