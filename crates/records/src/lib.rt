// Reads a line of values of a record byte by byte. What is kept of a line is a struct of scalars, so that a line of any length takes the same memory. Every
// public function takes any state, any byte and any slices.
#![tactic(auto)]

ghost use Rattle.std.specs.Prelude.{◌≡◌, cond, take, drop};
ghost use Rattle.letters.specs.Described.{described};
ghost use Rattle.records.specs.Machine.{next_number, value_byte, value_end, refused_end, end_of, values_end, line_start, line_byte, line_end};

use integer_bytes::Phase;

// The token that is begun, how many tokens have ended, whether all of them are integers, and the number of the letter so far.
#[derive(Clone, Copy)]
pub struct ValuesState {
    pub phase: Phase,
    pub magnitude: u32,
    pub count: usize,
    pub integers: bool,
    pub number: u32,
}

// A line of values so far: whether a byte was barred, and whether a token is begun.
#[derive(Clone, Copy)]
pub struct LineState {
    pub barred: bool,
    pub begun: bool,
    pub values: ValuesState,
}

// 13 or 14, or 0 with the number of the letter.
#[derive(Clone, Copy)]
pub struct LineEnd {
    pub refusal: u32,
    pub letter: u32,
}

// The value at a place; no value where it is not there.
fn one_at(values: &[i64], at: usize) -> &[i64]
    ensures { result.now ≡ take 1 (drop at values.now) }
{
    if values.len() <= at {
        return &values[..0];
    }
    &values[at..at + 1]
}

// The number of the letter with the value of one more stream; 1,024, which no letter has, once a value is outside its range.
fn next_number(number: u32, value: i64, lows: &[i64], highs: &[i64]) -> u32
    ensures { result ≡ next_number (described lows.now highs.now) number value }
{
    if 1024 <= number {
        return 1024;
    }
    let digit = letters::letter_number(lows, highs, &[value]);
    if 1024 <= digit {
        return 1024;
    }
    number * letters::letter_count(lows, highs) + digit
}

fn value_byte(values: ValuesState, byte: u8) -> ValuesState
    ensures { result ≡ value_byte values byte }
{
    ValuesState {
        phase: integer_bytes::next_phase(values.phase, byte),
        magnitude: integer_bytes::next_magnitude(values.magnitude, byte),
        ..values
    }
}

fn value_end(values: ValuesState, lows: &[i64], highs: &[i64]) -> ValuesState
    ensures { result ≡ value_end (described lows.now highs.now) values }
{
    let value = integer_bytes::signed(values.magnitude, integer_bytes::is_negative(values.phase));
    let low = one_at(lows, values.count);
    let high = one_at(highs, values.count);
    ValuesState {
        phase: Phase::Empty,
        magnitude: 0,
        count: record_names::next_count(values.count),
        integers: values.integers & integer_bytes::ends_integer(values.phase),
        number: next_number(values.number, value, low, high),
    }
}

// The values with a token that is begun ended.
fn end_value(begun: bool, values: ValuesState, lows: &[i64], highs: &[i64]) -> ValuesState
    ensures { result ≡ cond begun (value_end (described lows.now highs.now) values) values }
{
    if begun {
        value_end(values, lows, highs)
    } else {
        values
    }
}

pub fn line_start() -> LineState
    ensures { result ≡ line_start }
{
    LineState {
        barred: false,
        begun: false,
        values: ValuesState {
            phase: Phase::Empty,
            magnitude: 0,
            count: 0,
            integers: true,
            number: 0,
        },
    }
}

// A line of values with one byte more. A bracket is a token by itself, and a byte that is in no token ends the one that is begun. Most bytes are
// digits, so that they are told first.
pub fn line_byte(line: LineState, byte: u8, lows: &[i64], highs: &[i64]) -> LineState
    ensures { result ≡ line_byte (described lows.now highs.now) line byte }
{
    let values = line.values;
    if integer_bytes::is_digit(byte) {
        return LineState {
            barred: line.barred,
            begun: true,
            values: value_byte(values, byte),
        };
    }
    let barred = line.barred | !record_names::is_plain(byte);
    if scan::is_inside(byte) {
        return LineState {
            barred,
            begun: true,
            values: value_byte(values, byte),
        };
    }
    let ended = end_value(line.begun, values, lows, highs);
    if text::is_bracket(byte) {
        return LineState {
            barred,
            begun: false,
            values: value_end(value_byte(ended, byte), lows, highs),
        };
    }
    LineState {
        barred,
        begun: false,
        values: ended,
    }
}

fn line_refusal(refusal: u32) -> LineEnd
    ensures { result ≡ refused_end refusal }
{
    LineEnd { refusal, letter: 0 }
}

// What the values of a line come to, its tokens all ended: "in the order 13, 14".
fn values_end(barred: bool, values: ValuesState, streams: usize) -> LineEnd
    ensures { result ≡ end_of (values_end streams barred values) }
{
    if barred || !values.integers || values.count != streams {
        return line_refusal(13);
    }
    if 1024 <= values.number {
        return line_refusal(14);
    }
    LineEnd {
        refusal: 0,
        letter: values.number,
    }
}

// The end of a line of values, at its byte 10 or at the end of the record.
pub fn line_end(line: LineState, lows: &[i64], highs: &[i64]) -> LineEnd
    ensures { result ≡ line_end (described lows.now highs.now) line }
{
    let ended = end_value(line.begun, line.values, lows, highs);
    values_end(line.barred, ended, lows.len().min(highs.len()))
}
