// What the letters after a key need: the values of the key's letters and of its firsts, read from the key once for all of them.
#![tactic(auto)]

ghost use Rattle.std.specs.Prelude.{◌≡◌, ◌++◌, map, ℕ, ◌+◌, ◌*◌, ◌<◌, ◌≤◌, min, length, get_or, drop};
ghost use Rattle.std.proofs.Math.Seq.{paste};
ghost use Rattle.sheet.specs.Refusal.{stream_bound};
ghost use Rattle.nodes.specs.Bounded.{stored_value};
ghost use Rattle.basics.specs.Answers.{Says};
ghost use Rattle.sizes.specs.Room.{window_room};
ghost use Rattle.prepare.specs.Key.{raised, lowered};
ghost use Rattle.prepare.specs.Prepared.{window_of, PreparableSizes, IsPreparable, Prepares, AddsLetter};

use arithmetic::in_bound;
use sizes::{
    FIRST_BOUND, FIRSTS_PLACE, KEY_SIZE, PREPARED_SIZE, STREAM_BOUND, WINDOW_BOUND, WINDOW_ROOM,
};

// How many streams a sheet has, D, and D+B.
#[derive(Clone, Copy)]
pub struct Dimensions {
    pub streams: usize,
    pub ahead: usize,
    pub width: usize,
}

// A value that is given as one number, as a natural number, and back: a number beyond the magnitude bound stands for none.
pub fn raised(z: i64) -> u32
    ensures { result ≡ raised (stored_value z) }
{
    if in_bound(z) {
        return (z + 1000000000) as u32;
    }
    2000000001
}

fn lowered(x: u32) -> i64
    ensures { result ≡ lowered x }
{
    i64::from(x) - 1000000000
}

// Whether a letter's values are there, and room for 8 from the first of them on. `values` is how many values there are. No product wraps, since more
// than 8 streams count as 8.
fn has_values(letter: u32, streams: usize, values: usize) -> bool
    ensures { Says result (letter * min streams stream_bound + stream_bound ≤ values) }
{
    letter as usize * streams.min(STREAM_BOUND) + STREAM_BOUND <= values
}

// Whether the values of all these letters are there.
fn have_values(letters: &[u32], streams: usize, values: usize) -> bool
    requires { streams ≤ stream_bound }
    ensures { Says result ((p : ℕ) → p < length letters.now → get_or letters.now p 0 * streams + stream_bound ≤ values) }
{
    letters
        .iter()
        .all(|letter| has_values(*letter, streams, values))
}

// The values of the letters, one letter after the other. What stands behind them is as it was.
fn fill_window(window: &mut [i64], letter_values: &[i64], streams: usize, letters: &[u32])
    requires streams_in_bounds { length letters.now * streams ≤ length window.old }
    requires by_index { (p : ℕ) → p < length letters.now → get_or letters.now p 0 * streams + streams ≤ length letter_values.now }
    ensures { window.new ≡ window_of streams letter_values.now letters.now ++ drop (length letters.now * streams) window.old }
{
    let mut at = 0;
    for &letter in letters {
        let from = letter as usize * streams;
        window[at..at + streams].copy_from_slice(&letter_values[from..from + streams]);
        at += streams;
    }
}

// Puts the values of a letter, if they are there, after those of the letters that are held. As many values are copied as a letter can have, so that
// the copy has one size. If the window has less room than it can need, it stays.
pub fn add_letter(
    window: &mut [i64],
    letter_values: &[i64],
    streams: usize,
    held: usize,
    letter: u32,
)
    ensures { AddsLetter streams letter_values.now held letter window.old window.new }
{
    if window.len() < WINDOW_ROOM {
        return;
    }
    let few = streams.min(STREAM_BOUND);
    let at = held.min(WINDOW_BOUND) * few;
    if has_values(letter, few, letter_values.len()) {
        let from = letter as usize * few;
        let end = from + STREAM_BOUND;
        window[at..at + STREAM_BOUND].copy_from_slice(&letter_values[from..end]);
    }
}

// The values of the firsts that a key holds, behind a window.
fn lower_all(prepared: &mut [i64], numbers: &[u32])
    requires { window_room + length numbers.now ≤ length prepared.old }
    ensures { prepared.new ≡ paste prepared.old window_room (map lowered numbers.now) (length numbers.now) }
{
    for (i, &number) in numbers.iter().enumerate() {
        prepared[WINDOW_ROOM + i] = lowered(number);
    }
}

// Whether the sheet is small, and a key and the list for what is prepared have their sizes.
fn are_preparable(dimensions: Dimensions, count: usize, key: usize, room: usize) -> bool
    ensures { Says result (PreparableSizes dimensions.streams dimensions.width count key room) }
{
    dimensions.width <= WINDOW_BOUND
        && dimensions.streams <= STREAM_BOUND
        && count <= FIRST_BOUND
        && key == KEY_SIZE
        && room == PREPARED_SIZE
}

// Whether what the letters after a key need can be prepared. `values` is how many values there are, `room` how long the list is.
fn is_preparable(
    values: usize,
    dimensions: Dimensions,
    count: usize,
    key: &[u32],
    room: usize,
) -> bool
    ensures { Says result (IsPreparable values dimensions.streams dimensions.width count key.now room) }
{
    if !are_preparable(dimensions, count, key.len(), room) {
        return false;
    }
    let held = (key[0] as usize).min(dimensions.width);
    let end = held + 1;
    have_values(&key[1..end], dimensions.streams, values)
}

// What every letter after a key needs, in one list: the values of the key's letters, and behind the room for one more those of its firsts, of which
// there are `count`. If something has not its size, or a letter's values are not there, the list stays.
pub fn prepare(
    letter_values: &[i64],
    dimensions: Dimensions,
    count: usize,
    key: &[u32],
    prepared: &mut [i64],
)
    ensures { Prepares letter_values.now dimensions.streams dimensions.width count key.now prepared.old prepared.new }
{
    if !is_preparable(letter_values.len(), dimensions, count, key, prepared.len()) {
        return;
    }
    let held = (key[0] as usize).min(dimensions.width);
    let letters_end = held + 1;
    fill_window(
        prepared,
        letter_values,
        dimensions.streams,
        &key[1..letters_end],
    );
    let firsts_end = FIRSTS_PLACE + count;
    lower_all(prepared, &key[FIRSTS_PLACE..firsts_end]);
}
