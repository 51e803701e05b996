// Changes of set streams between letters, for rows that hold one number for each letter (document 02, S-8): "a change being a set stream whose value
// differs from the letter before". The streams are taken one after the other, the last one first, so that no two letters are compared.
#![tactic(auto)]

ghost use Rattle.std.specs.Prelude.{◌≡◌, ◌⊎◌, ℕ, ◌+◌, ◌*◌, ◌≤◌, ◌<◌, length};
ghost use Rattle.basics.specs.Lists.{at};
ghost use Rattle.basics.specs.Answers.{Says};
ghost use Rattle.changes.specs.Axes.{axis_in, IsShape, letter_total, axes_in};
ghost use Rattle.changes.specs.Least.{LowersCosts, CountsChanges};
ghost use Rattle.changes.specs.Passes.{least_below, lowered_cost, change, LowersColumn, LowersBlock, LowersBlocks, SpreadsPart, SpreadsStream};

use streams::StreamsDescription;

// How many values each of the first `count` streams has, and its kind.
#[derive(Clone, Copy)]
pub struct Shape {
    pub count: usize,
    pub sizes: [u32; 8],
    pub kinds: [u8; 8],
}

// The shape of the streams. A stream of more than 1,024 values counts as one of 1,025.
pub fn shape_of(streams: StreamsDescription) -> Shape
    ensures { IsShape streams result }
{
    let lows = streams.lows;
    let highs = streams.highs;
    // An array that is put into a literal straight from another struct's field gets no generated proof.
    let kinds = streams.kinds;
    let mut sizes = [0u32; 8];
    for i in 0..8 {
        let next = i + 1;
        sizes[i] = letters::letter_count(&lows[i..next], &highs[i..next]);
    }
    Shape {
        count: streams.count,
        sizes,
        kinds,
    }
}

// The same number as one of places.
fn wide(size: u32) -> usize
    ensures { result ≡ size }
{
    size as usize
}

// How many values a stream has.
fn value_count(shape: Shape, stream: usize) -> usize
    requires { stream < 8 }
    ensures { result ≡ (axis_in shape stream).values }
{
    let sizes = shape.sizes;
    wide(sizes[stream])
}

fn is_set(shape: Shape, stream: usize) -> bool
    requires { stream < 8 }
    ensures { result ≡ (axis_in shape stream).counts }
{
    let kinds = shape.kinds;
    kinds[stream] != nodes::READ_STREAM
}

// Whether the streams make so many letters, and there is one.
fn makes(shape: Shape, letters: usize) -> bool
    ensures { Says result ((0 < letters) × (letter_total (axes_in shape) ≡ letters)) }
{
    if letters == 0 {
        return false;
    }
    let mut made: usize = 1;
    for stream in (0..shape.count.min(8)).rev() {
        let size = value_count(shape, stream);
        if !basics::rows_fit(size, made, letters) {
            return false;
        }
        made = size * made;
    }
    made == letters
}

// ---- the least cost with the changes to it

// The least of the numbers in a column, whose letters differ only in one stream's value.
fn column_least(row: &[u16], from: usize, size: usize, stride: usize) -> u16
    requires { (0 < size) × ((d : ℕ) → d < size → from + d * stride < length row.now) }
    ensures { result ≡ least_below size (λ d. at row.now (from + d * stride)) }
{
    let mut least = row[from];
    for value in 0..size {
        let cost = row[from + value * stride];
        if cost < least {
            least = cost;
        }
    }
    least
}

// What a number becomes: in a set stream the smaller of itself and one more than the least, in another stream the least.
fn lowered(is_set: bool, own: u16, least: u16) -> u16
    ensures { result ≡ lowered_cost is_set own least }
{
    if is_set {
        if least < own { least + 1 } else { own }
    } else {
        least
    }
}

fn lower_column(row: &mut [u16], from: usize, size: usize, stride: usize, is_set: bool, least: u16)
    requires { (0 < stride) × ((d : ℕ) → d < size → from + d * stride < length row.old) }
    ensures { LowersColumn is_set from stride least size row.old row.new }
{
    for value in 0..size {
        let place = from + value * stride;
        row[place] = lowered(is_set, row[place], least);
    }
}

// The pass over one stream in the block from `start` on: all its values, with all letters of the later streams.
fn lower_block(row: &mut [u16], start: usize, size: usize, stride: usize, is_set: bool)
    requires { (0 < size) × (start + size * stride ≤ length row.old) }
    ensures { LowersBlock is_set start size stride stride row.old row.new }
{
    for offset in 0..stride {
        let from = start + offset;
        let least = column_least(row, from, size, stride);
        lower_column(row, from, size, stride, is_set, least);
    }
}

// The pass over one stream whose later streams make `stride` letters.
fn lower_stream(row: &mut [u16], size: usize, stride: usize, is_set: bool)
    requires { (0 < size) × (0 < stride) × ((n : ℕ) × (length row.old ≡ n * (size * stride))) × (0 < length row.old) }
    ensures { (n : ℕ) → length row.old ≡ n * (size * stride) → LowersBlocks is_set size stride n row.old row.new }
{
    let width = size * stride;
    let mut start = 0;
    while start < row.len() {
        lower_block(row, start, size, stride, is_set);
        start += width;
    }
}

// Puts at every letter the least, over all letters, of the changes to the letter and its cost.
pub fn lower_costs(shape: Shape, row: &mut [u16])
    ensures { LowersCosts shape row.old row.new }
{
    if !makes(shape, row.len()) {
        return;
    }
    let mut stride = 1;
    for stream in (0..shape.count.min(8)).rev() {
        let size = value_count(shape, stream);
        lower_stream(row, size, stride, is_set(shape, stream));
        stride = size * stride;
    }
}

// ---- the changes from one letter to every other

// 1 where the value of a set stream changes.
fn change(is_set: bool, own: usize, value: usize) -> u16
    ensures { result ≡ change is_set own value }
{
    if is_set {
        if own == value { 0 } else { 1 }
    } else {
        0
    }
}

// Puts the first `stride` numbers, with `more` added, from a place on.
fn spread_part(row: &mut [u16], from: usize, stride: usize, more: u16)
    requires { ((from ≡ 0) ⊎ (stride ≤ from)) × (from + stride ≤ length row.old) × (more ≤ 1) × ((o : ℕ) → o < stride → at row.old o < 65535) }
    ensures { SpreadsPart from more stride row.old row.new }
{
    for offset in 0..stride {
        row[from + offset] = row[offset] + more;
    }
}

// The changes with one stream more, of which the letter has the value `own`. The last value comes first, since the later streams' changes stand in front.
fn spread_stream(row: &mut [u16], size: usize, stride: usize, own: usize, is_set: bool)
    requires { (size * stride ≤ length row.old) × ((o : ℕ) → o < stride → at row.old o < 65535) }
    ensures { SpreadsStream is_set size stride own 0 row.old row.new }
{
    for value in (0..size).rev() {
        spread_part(row, value * stride, stride, change(is_set, own, value));
    }
}

// Puts at every letter how many set streams differ between it and the given one.
pub fn count_changes(shape: Shape, letter: usize, row: &mut [u16])
    ensures { CountsChanges shape letter row.old row.new }
{
    if !makes(shape, row.len()) {
        return;
    }
    if row.len() <= letter {
        return;
    }
    let mut stride = 1;
    row[0] = 0;
    for stream in (0..shape.count.min(8)).rev() {
        let size = value_count(shape, stream);
        let own = letter / stride % size;
        spread_stream(row, size, stride, own, is_set(shape, stream));
        stride = size * stride;
    }
}
