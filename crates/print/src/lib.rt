// Writes lines to lent bytes: those that `sluice` prints (the heading, the line of an entry, and the line of a refusal), a line of two numbers,
// and any text; and pieces of a line, from a place on. An answer is the place behind the text, which for a line is how many bytes it takes, or one more than
// the lent bytes where it has no room there.
#![tactic(auto)]

ghost use Rattle.std.specs.Prelude.{◌≡◌, [], ◌∷◌, ◌++◌, map, suc, ◌+◌, ◌<◌, ◌≤◌, min, pos, List, ℕ, length, get_or};
ghost use Rattle.std.proofs.lemmas.List.Edits.{sets};
ghost use Rattle.print.specs.Append.{Appends};
ghost use Rattle.print.specs.Text.{digits, decimal, spaced, line, tokens_line, heading_line, entry_line, refusal_line};
ghost use Rattle.print.specs.Lines.{each, stored_names};
ghost use Rattle.sheet.specs.Names.{name_in};

use record_names::name_in;

// ---- pieces of a line, each from the place where the last one ended

// A text as it is given.
pub fn append_bytes(out: &mut [u8], at: usize, text: &[u8]) -> usize
    ensures { Appends at text.now out.old out.new result }
{
    if out.len() < at || out.len() - at < text.len() {
        return out.len() + 1;
    }
    let end = at + text.len();
    out[at..end].copy_from_slice(text);
    end
}

// The byte of a digit.
fn digit(value: u64) -> u8
    requires { value < 10 }
    ensures { result ≡ 48 + value }
{
    b'0' + value as u8
}

// How many digits a number has. They are counted three at a time, since a division takes longer than a comparison.
fn digit_count(value: u64) -> usize
    ensures { (result ≡ length (digits value)) × (result ≤ 20) }
{
    let mut rest = value;
    let mut count = 1;
    while 10 <= rest {
        if rest < 100 {
            return count + 1;
        }
        if rest < 1000 {
            return count + 2;
        }
        rest /= 1000;
        count += 3;
    }
    count
}

// Stores the digits of a number, the last one first.
fn put_digits(out: &mut [u8], at: usize, count: usize, value: u64)
    requires { (count ≡ length (digits value)) × (at + count ≤ length out.old) }
    ensures { out.new ≡ sets out.old at (digits value) }
{
    let mut rest = value;
    let mut to = at + count - 1;
    while 10 <= rest {
        out[to] = digit(rest % 10);
        rest /= 10;
        to -= 1;
    }
    out[to] = digit(rest);
}

// The digits of a number. They are counted first, and each is put in its place at once: short ones found elsewhere and then copied take over twice as long.
pub fn append_natural(out: &mut [u8], at: usize, value: u64) -> usize
    ensures { Appends at (digits value) out.old out.new result }
{
    let count = digit_count(value);
    if out.len() - at.min(out.len()) < count {
        return out.len() + 1;
    }
    put_digits(out, at, count, value);
    at + count
}

// An integer in decimal.
pub fn append_number(out: &mut [u8], at: usize, value: i64) -> usize
    ensures { Appends at (decimal value) out.old out.new result }
{
    let size = value.unsigned_abs();
    if value < 0 {
        let digits_at = append_bytes(out, at, b"-");
        return append_natural(out, digits_at, size);
    }
    append_natural(out, at, size)
}

// A number that is printed in decimal.
pub trait Number {
    ghost text: { Self → List ℕ };

    fn append(&self, out: &mut [u8], at: usize) -> usize
        ensures { Appends at (text self.now) out.old out.new result };
}

impl Number for u8 {
    ghost text = { digits };

    fn append(&self, out: &mut [u8], at: usize) -> usize {
        append_natural(out, at, u64::from(*self))
    }
}

impl Number for i64 {
    ghost text = { decimal };

    fn append(&self, out: &mut [u8], at: usize) -> usize {
        append_number(out, at, *self)
    }
}

// Numbers one after the other, each with one text before it and one behind it.
pub fn append_each<N: Number>(
    out: &mut [u8],
    at: usize,
    before: &[u8],
    numbers: &[N],
    after: &[u8],
) -> usize
    ensures { Appends at (each before.now N.text numbers.now after.now) out.old out.new result }
{
    let mut to = at.min(out.len() + 1);
    for number in numbers {
        let number_at = append_bytes(out, to, before);
        let end = number.append(out, number_at);
        to = append_bytes(out, end, after);
    }
    to
}

// A natural number and a space.
fn append_count(out: &mut [u8], at: usize, value: u64) -> usize
    ensures { Appends at (digits value ++ (32 ∷ [])) out.old out.new result }
{
    let to = append_natural(out, at, value);
    append_bytes(out, to, b" ")
}

// Numbers, each with a space after it.
fn append_values(out: &mut [u8], at: usize, values: &[i64]) -> usize
    requires { at ≤ suc (length out.old) }
    ensures { Appends at (spaced (map decimal values.now)) out.old out.new result }
{
    append_each(out, at, b"", values, b" ")
}

// The byte at a place, or 0 beyond the list.
pub fn byte_at(list: &[u8], i: usize) -> u8
    ensures { result ≡ get_or list.now i 0 }
{
    list.get(i).copied().unwrap_or(0)
}

// A stored name.
fn append_stored(out: &mut [u8], at: usize, names: &[u8], lengths: &[u8], i: usize) -> usize
    ensures { Appends at (name_in names.now lengths.now i) out.old out.new result }
{
    append_bytes(out, at, name_in(names, lengths, i))
}

// A stored name and a space.
fn append_name(out: &mut [u8], at: usize, names: &[u8], lengths: &[u8], i: usize) -> usize
    ensures { Appends at (name_in names.now lengths.now i ++ (32 ∷ [])) out.old out.new result }
{
    let to = append_stored(out, at, names, lengths, i);
    append_bytes(out, to, b" ")
}

// Stored names, each with a space after it.
fn append_names(out: &mut [u8], at: usize, names: &[u8], lengths: &[u8], count: usize) -> usize
    requires { at ≤ suc (length out.old) }
    ensures { Appends at (spaced (stored_names names.now lengths.now count)) out.old out.new result }
{
    let mut to = at;
    for i in 0..count {
        to = append_name(out, to, names, lengths, i);
    }
    to
}

// ---- lines

// "a heading with the names", those of the first eight streams. Each name is stored in eight bytes, with its length.
pub fn heading(names: &[u8], lengths: &[u8], streams: usize, out: &mut [u8]) -> usize
    ensures { Appends 0 (heading_line (stored_names names.now lengths.now (min streams 8))) out.old out.new result }
{
    let from = append_bytes(out, 0, b"state final ");
    let to = append_names(out, from, names, lengths, streams.min(8));
    append_bytes(out, to, b"next\n")
}

// "state, final (1 or 0), the letter's values, next state"
pub fn entry_line(state: usize, is_final: u8, values: &[i64], next: u16, out: &mut [u8]) -> usize
    ensures { Appends 0 (entry_line state is_final values.now next) out.old out.new result }
{
    let final_at = append_count(out, 0, state as u64);
    let values_at = append_count(out, final_at, u64::from(is_final));
    let next_at = append_values(out, values_at, values);
    let end = append_natural(out, next_at, u64::from(next));
    append_bytes(out, end, b"\n")
}

// The one line of a refusal.
pub fn refusal_line(number: u32, out: &mut [u8]) -> usize
    ensures { Appends 0 (refusal_line number) out.old out.new result }
{
    let to = append_bytes(out, 0, b"refused ");
    let end = append_natural(out, to, u64::from(number));
    append_bytes(out, end, b"\n")
}

// A line of two numbers.
pub fn pair_line(first: u64, second: u64, out: &mut [u8]) -> usize
    ensures { Appends 0 (line (decimal (pos first) ∷ []) (decimal (pos second))) out.old out.new result }
{
    let to = append_count(out, 0, first);
    let end = append_natural(out, to, second);
    append_bytes(out, end, b"\n")
}

// A line of the names of the first eight streams.
pub fn names_line(names: &[u8], lengths: &[u8], streams: usize, out: &mut [u8]) -> usize
    ensures { Appends 0 (tokens_line (stored_names names.now lengths.now (min streams 8))) out.old out.new result }
{
    let count = streams.min(8);
    if count == 0 {
        return append_bytes(out, 0, b"\n");
    }
    let last = count - 1;
    let to = append_names(out, 0, names, lengths, last);
    let end = append_stored(out, to, names, lengths, last);
    append_bytes(out, end, b"\n")
}

// A line of numbers.
pub fn numbers_line(values: &[i64], out: &mut [u8]) -> usize
    ensures { Appends 0 (tokens_line (map decimal values.now)) out.old out.new result }
{
    let Some((last, others)) = values.split_last() else {
        return append_bytes(out, 0, b"\n");
    };
    let to = append_values(out, 0, others);
    let end = last.append(out, to);
    append_bytes(out, end, b"\n")
}

// A line of a name, numbers and a count.
pub fn named_line(name: &[u8], values: &[i64], count: u64, out: &mut [u8]) -> usize
    ensures { Appends 0 (line (name.now ∷ map decimal values.now) (decimal (pos count))) out.old out.new result }
{
    let name_end = append_bytes(out, 0, name);
    let values_at = append_bytes(out, name_end, b" ");
    let count_at = append_values(out, values_at, values);
    let end = append_natural(out, count_at, count);
    append_bytes(out, end, b"\n")
}

// A text as it is given.
pub fn text(bytes: &[u8], out: &mut [u8]) -> usize
    ensures { Appends 0 bytes.now out.old out.new result }
{
    append_bytes(out, 0, bytes)
}
