#![tactic(auto)]

ghost use Rattle.std.specs.Prelude.{◌≡◌, true, ◌+◌, ◌*◌, ◌≤◌, min, pos, nat_abs, ◌+ℤ◌, ◌-ℤ◌, length, ◌≤ℤ◌};
ghost use Rattle.std.specs.Int.{w64};
ghost use Rattle.std.proofs.Common.{SFits};
ghost use Rattle.meaning.specs.Letter.{size};
ghost use Rattle.letters.specs.Described.{ranged, described, cut_count, LetterCountCall, LetterNumberCall, has_letter, with_letter, has_room, with_letters};

// How far a value lies above a lower one; 1,024 where it is more. The sum and the difference are taken only where they do not wrap.
fn distance(low: i64, high: i64) -> u32
    requires { low ≤ℤ high }
    ensures { result ≡ min (nat_abs (high -ℤ low)) 1024 }
{
    if low < 9223372036854774784 && low + 1024 <= high {
        1024
    } else {
        (high - low) as u32
    }
}

// How many values a stream has; 1,025 where they are more.
pub fn values(low: i64, high: i64) -> u32
    ensures { result ≡ cut_count (size (ranged low high).range) }
{
    if high < low {
        0
    } else {
        distance(low, high) + 1
    }
}

// The product of two counts, cut before it can wrap.
fn product(a: u32, b: u32) -> u32
    requires { (a ≤ 1025) × (b ≤ 1025) }
    ensures { result ≡ cut_count (a * b) }
{
    (a * b).min(1025)
}

// How many letters there are: exact up to 1,024, and 1,025 where they are more.
pub fn letter_count(lows: &[i64], highs: &[i64]) -> u32
    ensures { LetterCountCall lows.now highs.now result }
{
    let mut count: u32 = 1;
    for i in (0..lows.len().min(highs.len())).rev() {
        count = product(values(lows[i], highs[i]), count);
    }
    count
}

// A value that lies so far above the lowest one.
fn raised(low: i64, digit: u32) -> i64
    requires { SFits w64 (low +ℤ pos digit) }
    ensures { result ≡ low +ℤ pos digit }
{
    low + i64::from(digit)
}

// Writes the values of a letter that is there. Its caller has counted the letters, so that they are not counted again for each letter.
fn write_letter(lows: &[i64], highs: &[i64], number: u32, out: &mut [i64])
    requires { has_letter (described lows.now highs.now) number (length out.old) ≡ true }
    ensures { out.new ≡ with_letter (described lows.now highs.now) number out.old }
{
    let mut rest = number;
    for i in (0..lows.len().min(highs.len())).rev() {
        let size = values(lows[i], highs[i]);
        out[i] = raised(lows[i], rest % size);
        rest /= size;
    }
}

// The values of the letter with a number, written to the front of `out`: "the last stream fastest, values rising from the lowest".
pub fn letter_values(lows: &[i64], highs: &[i64], number: u32, out: &mut [i64]) -> bool
    ensures { (result ≡ has_letter (described lows.now highs.now) number (length out.old)) × (out.new ≡ with_letter (described lows.now highs.now) number out.old) }
{
    let count = letter_count(lows, highs);
    if 1024 < count || count <= number || out.len() < lows.len().min(highs.len()) {
        return false;
    }
    write_letter(lows, highs, number, out);
    true
}

// The number of the letter with these values; 1,024, which no letter has, where they are no letter or the letters are more than 1,024.
pub fn letter_number(lows: &[i64], highs: &[i64], letter: &[i64]) -> u32
    ensures { LetterNumberCall lows.now highs.now letter.now result }
{
    let count = letter_count(lows, highs);
    let n = lows.len().min(highs.len());
    if count == 0 || 1024 < count || letter.len() != n {
        return 1024;
    }
    let mut number: u32 = 0;
    for (i, &value) in letter.iter().enumerate() {
        let low = lows[i];
        let high = highs[i];
        if value < low || high < value {
            return 1024;
        }
        let size = values(low, high);
        let digit = distance(low, value);
        number = number * size + digit;
    }
    number
}

// The values of all letters, written letter after letter to the front of `out`. Dividing the room by the count avoids a product that wraps.
pub fn fill_letters(lows: &[i64], highs: &[i64], out: &mut [i64]) -> bool
    ensures { (result ≡ has_room (described lows.now highs.now) (length out.old)) × (out.new ≡ with_letters (described lows.now highs.now) out.old) }
{
    let count = letter_count(lows, highs);
    if 1024 < count {
        return false;
    }
    if count == 0 {
        return true;
    }
    let n = lows.len().min(highs.len());
    if out.len() / (count as usize) < n {
        return false;
    }
    let mut at = 0;
    for number in 0..count {
        write_letter(lows, highs, number, &mut out[at..at + n]);
        at += n;
    }
    true
}
