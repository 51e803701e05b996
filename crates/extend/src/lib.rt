// One more letter after the record of a key.
#![tactic(auto)]

mod judge;
mod keys;

ghost use Rattle.std.specs.Prelude.{◌≡◌, cond, [], ◌∷◌, ◌++◌, map, ◌-◌, ◌≤◌, min, leb, ltb, length, take};
ghost use Rattle.sheet.specs.Refusal.{window_bound, first_bound, stream_bound};
ghost use Rattle.nodes.specs.Bounded.{value_in};
ghost use Rattle.nodes.specs.Evaluate.{stored, view, node_value};
ghost use Rattle.basics.specs.Answers.{Says};
ghost use Rattle.sizes.specs.Room.{key_size};
ghost use Rattle.prepare.specs.Key.{raised};
ghost use Rattle.extend.specs.Step.{lawful_with, judged_from, store_of, IsReady, Finished, SizesFit, Extends};

use judge::judge;
use keys::{raise_all, write_key};
use prepare::{Dimensions, add_letter};
use sizes::{
    CONSTRAINT_BOUND, FIRST_BOUND, FIRSTS_PLACE, KEY_SIZE, MARKS_PLACE, PREPARED_SIZE,
    STREAM_BOUND, WINDOW_BOUND, WINDOW_ROOM,
};

// Judges the record with one more letter at the time that is newly judged, D letters back; before D letters are there, nothing is judged.
fn judge_letter(
    kinds: &[u8; 1024],
    values: &[i64; 1024],
    starts: &[u16; 1024],
    relations: &[u8],
    lefts: &[u16],
    rights: &[u16],
    window: &[i64],
    streams: usize,
    firsts: &[i64],
    held: usize,
    ahead: usize,
    whole: bool,
    marks: u32,
) -> Option<u32>
    requires { (length lefts.now ≡ length relations.now) × (length rights.now ≡ length relations.now) × (length relations.now ≤ 32) }
    ensures { result ≡ cond (leb ahead held) (judged_from relations.now lefts.now rights.now (λ node. value_in (node_value (stored kinds.now values.now starts.now) (view window.now streams firsts.now whole) node (held - ahead))) 0 (length relations.now) marks) (lawful_with marks) }
{
    if held < ahead {
        return Some(marks);
    }
    judge(
        kinds,
        values,
        starts,
        relations,
        lefts,
        rights,
        window,
        streams,
        firsts,
        held - ahead,
        whole,
        marks,
    )
}

// How many firsts the longer record's key holds, and their numbers: none before the cut, their values at the cut, and later those of the key.
fn firsts_after(
    kinds: &[u8; 1024],
    values: &[i64; 1024],
    starts: &[u16; 1024],
    first_nodes: &[u16],
    window: &[i64],
    streams: usize,
    firsts: &[i64],
    whole: bool,
    size: usize,
    width: usize,
    held_firsts: &[u32],
    numbers: &mut [u32],
) -> usize
    requires { (length first_nodes.now ≤ length numbers.old) × (length held_firsts.now ≤ length numbers.old) }
    ensures numbers_after { take result numbers.new ≡ cond (leb size width) (cond (ltb size width) [] (map (λ node. raised (value_in (node_value (stored kinds.now values.now starts.now) (view window.now streams firsts.now whole) node 0))) first_nodes.now)) held_firsts.now }
    ensures upper_bound { result ≤ length numbers.old }
{
    if size < width {
        return 0;
    }
    if size == width {
        raise_all(
            kinds,
            values,
            starts,
            first_nodes,
            window,
            streams,
            firsts,
            whole,
            numbers,
        );
        return first_nodes.len();
    }
    basics::put(numbers, 0, held_firsts);
    held_firsts.len()
}

// Whether a lawful record stays lawful with its newest letter; if so, `fresh` gets the longer record's key, and if not, it stays. `letters` are those
// before it that are known.
fn finish(
    kinds: &[u8; 1024],
    values: &[i64; 1024],
    starts: &[u16; 1024],
    relations: &[u8],
    lefts: &[u16],
    rights: &[u16],
    first_nodes: &[u16],
    window: &[i64],
    firsts: &[i64],
    letters: &[u32],
    letter: u32,
    dimensions: Dimensions,
    size: usize,
    marks: u32,
    held_firsts: &[u32],
    fresh: &mut [u32],
) -> bool
    requires ready { IsReady (store_of kinds.now values.now starts.now relations.now lefts.now rights.now first_nodes.now [] dimensions.streams dimensions.ahead dimensions.width) }
    requires letters_len_bound { (length letters.now ≤ dimensions.width) × (length held_firsts.now ≤ first_bound) × (length fresh.old ≡ key_size) }
    ensures { Finished (store_of kinds.now values.now starts.now relations.now lefts.now rights.now first_nodes.now [] dimensions.streams dimensions.ahead dimensions.width) (view window.now dimensions.streams firsts.now (leb size dimensions.width)) size (letters.now ++ (letter ∷ [])) marks held_firsts.now fresh.old result fresh.new }
{
    let streams = dimensions.streams;
    let width = dimensions.width;
    let held = letters.len();
    let whole = size <= width;
    let Some(told) = judge_letter(
        kinds,
        values,
        starts,
        relations,
        lefts,
        rights,
        window,
        streams,
        firsts,
        held,
        dimensions.ahead,
        whole,
        marks,
    ) else {
        return false;
    };
    let mut numbers = [0u32; FIRST_BOUND];
    let filled = firsts_after(
        kinds,
        values,
        starts,
        first_nodes,
        window,
        streams,
        firsts,
        whole,
        size,
        width,
        held_firsts,
        &mut numbers,
    );
    let count = held + 1;
    let kept = count.min(width);
    let from = (count - kept).min(held);
    write_key(
        fresh,
        count as u32,
        &letters[from..held],
        letter,
        kept,
        &numbers[..filled],
        told,
    );
    true
}

// Whether the key, the prepared values and the new key have their sizes.
fn has_sizes(key: usize, prepared: usize, fresh: usize) -> bool
    ensures { Says result (SizesFit key prepared fresh) }
{
    key == KEY_SIZE && prepared == PREPARED_SIZE && fresh == KEY_SIZE
}

// The dimensions within the bounds.
fn bounded(dimensions: Dimensions) -> Dimensions
    ensures { (result.streams ≡ min dimensions.streams stream_bound) × (result.ahead ≡ dimensions.ahead) × (result.width ≡ min dimensions.width window_bound) }
{
    Dimensions {
        streams: dimensions.streams.min(STREAM_BOUND),
        ahead: dimensions.ahead,
        width: dimensions.width.min(WINDOW_BOUND),
    }
}

// Whether the record of a key stays lawful with one more letter; if so, `fresh` gets the longer record's key, and if not, it stays. What is prepared for
// the key stays so: only the letter's values, if they are there, are put after those of the key's letters. If the key or a list has not its size, the
// answer is no, and the lists stay. What is longer than the bounds allow is cut: a branch for it would keep the compiler from inlining the evaluation.
pub fn extend(
    kinds: &[u8; 1024],
    values: &[i64; 1024],
    starts: &[u16; 1024],
    relations: &[u8],
    lefts: &[u16],
    rights: &[u16],
    first_nodes: &[u16],
    letter_values: &[i64],
    dimensions: Dimensions,
    key: &[u32],
    letter: u32,
    prepared: &mut [i64],
    fresh: &mut [u32],
) -> bool
    ensures { Extends (store_of kinds.now values.now starts.now relations.now lefts.now rights.now first_nodes.now letter_values.now dimensions.streams dimensions.ahead dimensions.width) key.now letter prepared.old fresh.old prepared.new fresh.new result }
{
    if !has_sizes(key.len(), prepared.len(), fresh.len()) {
        return false;
    }
    let few = bounded(dimensions);
    let streams = few.streams;
    let count = relations
        .len()
        .min(CONSTRAINT_BOUND)
        .min(lefts.len().min(rights.len()));
    let firsts_count = first_nodes.len().min(FIRST_BOUND);
    let size = key[0] as usize;
    let held = size.min(few.width);
    add_letter(prepared, letter_values, streams, held, letter);
    let letters_end = held + 1;
    let window_end = letters_end * streams;
    let numbers_end = FIRSTS_PLACE + firsts_count;
    let firsts_end = WINDOW_ROOM + firsts_count;
    let marks = key[MARKS_PLACE];
    let known = &prepared[..];
    finish(
        kinds,
        values,
        starts,
        &relations[..count],
        &lefts[..count],
        &rights[..count],
        &first_nodes[..firsts_count],
        &known[..window_end],
        &known[WINDOW_ROOM..firsts_end],
        &key[1..letters_end],
        letter,
        few,
        size,
        marks,
        &key[FIRSTS_PLACE..numbers_end],
        fresh,
    )
}
