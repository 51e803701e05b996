// Reads tokens, lines, names and integers of a sheet's bytes, and finds the brackets that belong together. Every public function
// takes any bytes and any place.
#![tactic(auto)]

ghost use Rattle.std.specs.Prelude.{◌≡◌, ◌≤◌, cond, eqb, length};
ghost use Rattle.text.specs.Bytes.{is_inside, tokens};
ghost use Rattle.text.specs.Token.{same_bytes, is_name};
ghost use Rattle.sheet.specs.Vocabulary.{name_place};
ghost use Rattle.sheet.specs.Reading.{too_deep_from};
ghost use Rattle.scan.specs.Place.{TokenAt, LineAt, Skipped, RunEnd, PartnerAt};
ghost use Rattle.scan.specs.Start.{is_visible, begins_token};
ghost use Rattle.scan.specs.Integer.{integer_read, natural_read, signed_read, with_sign, cut};

// The bytes from `start` to before `end`.
#[derive(Clone, Copy)]
pub struct Span {
    pub start: usize,
    pub end: usize,
}

// A line's end, without the byte 10 that ends it, and the place where the next line begins.
#[derive(Clone, Copy)]
pub struct LineSpan {
    pub end: usize,
    pub next: usize,
}

// Why a token gives no value of an integer: it is no integer, or its magnitude is beyond the bound.
#[derive(Clone, Copy, PartialEq, Eq)]
pub enum IntegerError {
    NoInteger,
    Beyond,
}

// "bytes 33 to 126 without brackets"
pub fn is_inside(byte: u8) -> bool
    ensures { result ≡ is_inside byte }
{
    matches!(byte, b'!'..=b'~') && !text::is_bracket(byte)
}

// A byte that stands in a token.
fn is_visible(byte: u8) -> bool
    ensures { result ≡ is_visible byte }
{
    text::is_bracket(byte) || is_inside(byte)
}

// Whether a token begins with this byte, where `inside` says whether the byte before it is inside a run.
pub fn begins_token(inside: bool, byte: u8) -> bool
    ensures { result ≡ begins_token inside byte }
{
    text::is_bracket(byte) || !inside && is_inside(byte)
}

// The first place from `at` on with a byte of a token, or the length.
fn skip_between(text: &[u8], at: usize) -> usize
    ensures { Skipped text.now at result }
{
    for i in at..text.len() {
        if is_visible(text[i]) {
            return i;
        }
    }
    text.len()
}

// The first place from `at` on with a byte that is not inside a run, or the length.
fn run_end(text: &[u8], at: usize) -> usize
    requires { at ≤ length text.now }
    ensures { RunEnd text.now at result }
{
    for i in at..text.len() {
        if !is_inside(text[i]) {
            return i;
        }
    }
    text.len()
}

// The first token from `at` on; its start and end are the length where there is none.
pub fn next_token(text: &[u8], at: usize) -> Span
    ensures { TokenAt text.now at result }
{
    let start = skip_between(text, at);
    if text.len() <= start {
        return Span {
            start: text.len(),
            end: text.len(),
        };
    }
    let after = start + 1;
    if text::is_bracket(text[start]) {
        return Span { start, end: after };
    }
    let end = run_end(text, after);
    Span { start, end }
}

// The line that begins at `at`. Past the last line both places are the length.
pub fn next_line(text: &[u8], at: usize) -> LineSpan
    ensures { LineAt text.now at result }
{
    for i in at..text.len() {
        if text[i] == b'\n' {
            return LineSpan {
                end: i,
                next: i + 1,
            };
        }
    }
    LineSpan {
        end: text.len(),
        next: text.len(),
    }
}

// How many tokens the bytes have.
pub fn token_count(text: &[u8]) -> usize
    ensures { result ≡ length (tokens text.now) }
{
    let mut count = 0;
    let mut at = 0;
    loop {
        let Span { start, end } = next_token(text, at);
        if start == end {
            return count;
        }
        count += 1;
        at = end;
    }
}

// Whether two tokens have the same bytes.
pub fn same_bytes(left: &[u8], right: &[u8]) -> bool
    ensures { result ≡ same_bytes left.now right.now }
{
    left == right
}

// The place of a token among those of line 1, counted from 0; as many as there are tokens where it is none of them.
pub fn place_of(names: &[u8], name: &[u8]) -> usize
    ensures { result ≡ name_place (tokens names.now) name.now }
{
    let mut count = 0;
    let mut at = 0;
    loop {
        let Span { start, end } = next_token(names, at);
        if start == end || same_bytes(&names[start..end], name) {
            return count;
        }
        count += 1;
        at = end;
    }
}

// "A name is 1 to 8 letters a to z."
pub fn is_name(token: &[u8]) -> bool
    ensures { result ≡ is_name token.now }
{
    (1..=8).contains(&token.len()) && token.iter().all(|byte| byte.is_ascii_lowercase())
}

// The number that digits without a leading zero write, where the bytes are such digits. A number beyond the bound stays at the bound's successor, so that no product wraps.
fn read_natural(digits: &[u8]) -> Option<u64>
    ensures { result ≡ natural_read digits.now }
{
    if digits.is_empty() {
        return None;
    }
    if digits[0] == b'0' {
        return if digits.len() == 1 { Some(0) } else { None };
    }
    let mut value: u64 = 0;
    for byte in digits {
        if !byte.is_ascii_digit() {
            return None;
        }
        value = capped(value * 10 + u64::from(*byte - b'0'));
    }
    Some(value)
}

fn capped(value: u64) -> u64
    ensures { result ≡ cut value }
{
    value.min(1000000001)
}

// The integer with this magnitude, at most the bound, and this sign.
fn signed(value: u64, negative: bool) -> i64
    requires { value ≤ 1000000000 }
    ensures { result ≡ with_sign negative value }
{
    let magnitude = value as i64;
    if negative { -magnitude } else { magnitude }
}

// "An integer is digits with an optional `-` before them; a leading zero stands only in `0`, and `-0` is no integer."
pub fn read_integer(token: &[u8]) -> Result<i64, IntegerError>
    ensures { result ≡ integer_read token.now }
{
    if token.is_empty() {
        return Err(IntegerError::NoInteger);
    }
    if token[0] != b'-' {
        return integer_read(read_natural(token), false);
    }
    let natural = read_natural(&token[1..]);
    if natural == Some(0) {
        return Err(IntegerError::NoInteger);
    }
    integer_read(natural, true)
}

// Digits that were read, with a sign.
fn integer_read(natural: Option<u64>, negative: bool) -> Result<i64, IntegerError>
    ensures { result ≡ signed_read negative natural }
{
    let value = natural.ok_or(IntegerError::NoInteger)?;
    if 1000000000 < value {
        return Err(IntegerError::Beyond);
    }
    Ok(signed(value, negative))
}

// 1 where the byte is the one that is counted, else 0.
fn count_of(byte: u8, counted: u8) -> usize
    ensures { result ≡ cond (eqb byte counted) 1 0 }
{
    usize::from(byte == counted)
}

// Whether up to some place of the line there are more than 32 more `(` than `)`.
pub fn too_deep(line: &[u8]) -> bool
    ensures { result ≡ too_deep_from 0 0 line.now }
{
    let mut opened: usize = 0;
    let mut closed: usize = 0;
    for byte in line {
        opened += count_of(*byte, b'(');
        closed += count_of(*byte, b')');
        if 32 + closed < opened {
            return true;
        }
    }
    false
}

// The place of the bracket that closes the one before `at`, or the length: the first place where more brackets are closed than opened.
pub fn partner(text: &[u8], at: usize) -> usize
    ensures { PartnerAt text.now at result }
{
    let mut opened: usize = 0;
    let mut closed: usize = 0;
    for i in at..text.len() {
        let byte = text[i];
        opened += count_of(byte, b'(');
        closed += count_of(byte, b')');
        if opened < closed {
            return i;
        }
    }
    text.len()
}
