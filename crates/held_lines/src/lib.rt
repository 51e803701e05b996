// Counts lines by the letters that they are, and gives how many of them hold a value of a stream. Every public function takes any counts and any slices.
#![tactic(auto)]

ghost use Rattle.std.specs.Prelude.{◌≡◌, ◌+◌, ◌^◌, ◌≤◌, ◌<◌, get_or};
ghost use Rattle.letters.specs.Described.{described};
ghost use Rattle.held_lines.specs.Held.{raised_count, cut_lines, block_lines, blocks_lines, held_lines};

// One more line for a letter; a letter without a place is not counted.
pub fn raise(counts: &mut [u64], letter: usize)
    ensures { counts.new ≡ raised_count counts.old letter }
{
    if letter < counts.len() {
        counts[letter] = record_lines::one_more(counts[letter]);
    }
}

// The sum; the highest number of the machine stays, so that no sum wraps.
fn add_lines(a: u64, b: u64) -> u64
    ensures { result ≡ cut_lines (a + b) }
{
    a.saturating_add(b)
}

// The count at a place; 0 beyond the list.
fn count_at(counts: &[u64], at: usize) -> u64
    ensures { result ≡ get_or counts.now at 0 }
{
    if at < counts.len() { counts[at] } else { 0 }
}

// The lines of so many letters from one on.
fn sum_block(counts: &[u64], from: usize, size: usize) -> u64
    requires { from + size < 2 ^ 64 }
    ensures { result ≡ cut_lines (block_lines counts.now from size) }
{
    let mut sum = 0;
    for i in 0..size {
        sum = add_lines(sum, count_at(counts, from + i));
    }
    sum
}

// The lines of the letters with this digit: a block of letters for each choice of values of the streams before.
fn sum_blocks(counts: &[u64], before: usize, size: usize, behind: usize, digit: u32) -> u64
    requires { (before ≤ 1025) × (size ≤ 1025) × (behind ≤ 1025) }
    ensures { result ≡ cut_lines (blocks_lines counts.now before size behind digit) }
{
    let mut sum = 0;
    for i in 0..before {
        let from = (i * size + digit as usize) * behind;
        sum = add_lines(sum, sum_block(counts, from, behind));
    }
    sum
}

// How many lines hold the value of a stream that lies so far above its lowest, from the lines of each letter; none where there is no such stream, or where
// the value is not among the first 1,025 of its range, of which a sheet has at most 1,024.
pub fn held_lines(counts: &[u64], lows: &[i64], highs: &[i64], stream: usize, digit: u32) -> u64
    ensures { result ≡ held_lines counts.now (described lows.now highs.now) stream digit }
{
    if lows.len().min(highs.len()) <= stream {
        return 0;
    }
    let next = stream + 1;
    let size = letters::letter_count(&lows[stream..next], &highs[stream..next]);
    if size <= digit {
        return 0;
    }
    let before = letters::letter_count(&lows[..stream], &highs[..stream]);
    let behind = letters::letter_count(&lows[next..], &highs[next..]);
    sum_blocks(
        counts,
        before as usize,
        size as usize,
        behind as usize,
        digit,
    )
}
