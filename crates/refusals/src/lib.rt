// The tests behind refusals 1 to 4 that need no stored sheet: of bytes, lines and names.
#![tactic(auto)]

ghost use Rattle.std.specs.Prelude.{◌≡◌, ◌≤◌, length};
ghost use Rattle.text.specs.Bytes.{lines, tokens};
ghost use Rattle.text.specs.Token.{is_one_of};
ghost use Rattle.sheet.specs.Form.{says_kinds, layout_in};
ghost use Rattle.sheet.specs.Refusal.{is_allowed};
ghost use Rattle.sheet.specs.Reading.{refuses1, refuses2};
ghost use Rattle.refusals.specs.Names.{names_refused};
ghost use Rattle.refusals.specs.Places.{release_read, ReleaseOf, KindsLineAt, HeaderOf, constraint_lines_refused};

use scan::{IntegerError, Span};

// Where the three header lines and the line of kinds stand and the constraint lines begin, whether quotients are rounded down, and whether the
// release is known and there are three header lines.
#[derive(Clone, Copy)]
pub struct Header {
    pub names_start: usize,
    pub names_end: usize,
    pub lows_start: usize,
    pub lows_end: usize,
    pub highs_start: usize,
    pub highs_end: usize,
    pub kinds_start: usize,
    pub kinds_end: usize,
    pub constraints: usize,
    pub floors: bool,
    pub whole: bool,
}

// Whether the release is one that is known, whether it is the one whose quotients are rounded down, and where the names line begins.
#[derive(Clone, Copy)]
struct Release {
    known: bool,
    floors: bool,
    names_start: usize,
}

// The release whose quotients are cut towards zero.
const FIRST_RELEASE: i64 = 1;

// The most constraint lines that a sheet has.
const MOST_LINES: usize = 32;

// "10 and 32 to 126"
fn is_allowed(byte: u8) -> bool
    ensures { result ≡ is_allowed byte }
{
    matches!(byte, b'\n' | b' '..=b'~')
}

// "1: too many bytes, or a byte other than 10 and 32 to 126."
pub fn bytes_refused(text: &[u8]) -> bool
    ensures { result ≡ refuses1 text.now }
{
    16384 < text.len() || !text.iter().all(|byte| is_allowed(*byte))
}

// The number of the release that a line says: "Only a first line of `release` and one integer is such a line".
fn release_number(line: &[u8]) -> Result<i64, IntegerError>
    ensures { result ≡ release_read (tokens line.now) }
{
    let word = scan::next_token(line, 0);
    if !vocabulary::is_release(&line[word.start..word.end]) || scan::token_count(line) != 2 {
        return Err(IntegerError::NoInteger);
    }
    let number = scan::next_token(line, word.end);
    scan::read_integer(&line[number.start..number.end])
}

// The release of a text, by its first line. A number beyond the bound counts as 0, which is no release.
fn release_of(text: &[u8]) -> Release
    ensures { ReleaseOf text.now result }
{
    let line = scan::next_line(text, 0);
    let said = release_number(&text[0..line.end]);
    if said == Err(IntegerError::NoInteger) {
        return Release {
            known: true,
            floors: false,
            names_start: 0,
        };
    }
    let number = said.unwrap_or(0);
    let floors = number == 2;
    Release {
        known: number == FIRST_RELEASE || floors,
        floors,
        names_start: line.next,
    }
}

// "known by `read` or `set` as its first token"
fn says_kinds(line: &[u8]) -> bool
    ensures { result ≡ says_kinds (tokens line.now) }
{
    let Span { start, end } = scan::next_token(line, 0);
    vocabulary::stream_kind_code(&line[start..end]) != nodes::NO_CODE
}

// The line of kinds that begins at `at`; it has no bytes where the line there says none.
fn kinds_line(text: &[u8], at: usize) -> scan::LineSpan
    requires { at ≤ length text.now }
    ensures { KindsLineAt text.now at result }
{
    let line = scan::next_line(text, at);
    let end = line.end;
    if says_kinds(&text[at..end]) {
        return line;
    }
    scan::LineSpan { end: at, next: at }
}

// The places of the header lines. A line that is missing has no bytes.
pub fn header_of(text: &[u8]) -> Header
    ensures { HeaderOf text.now result }
{
    let release = release_of(text);
    let names_start = release.names_start;
    let names = scan::next_line(text, names_start);
    let lows_start = names.next;
    let lows = scan::next_line(text, lows_start);
    let highs_start = lows.next;
    let highs = scan::next_line(text, highs_start);
    let kinds_start = highs.next;
    let kinds = kinds_line(text, kinds_start);
    Header {
        names_start,
        names_end: names.end,
        lows_start,
        lows_end: lows.end,
        highs_start,
        highs_end: highs.end,
        kinds_start,
        kinds_end: kinds.end,
        constraints: kinds.next,
        floors: release.floors,
        whole: release.known && highs_start < text.len(),
    }
}

// "32 lines after line 3, 1,024 tokens in them, or, up to some place in one of them, more than 32 more `(` than `)`", for the bytes of these lines.
fn constraint_lines_refused(text: &[u8]) -> bool
    ensures { result ≡ constraint_lines_refused (lines text.now) }
{
    let mut count: usize = 0;
    let mut tokens: usize = 0;
    let mut at = 0;
    while at < text.len() {
        let line = scan::next_line(text, at);
        let end = line.end;
        if scan::too_deep(&text[at..end]) {
            return true;
        }
        count += 1;
        tokens += scan::token_count(&text[at..end]);
        at = line.next;
    }
    MOST_LINES < count || 1024 < tokens
}

// "2: over 8 tokens in line 1, 32 lines after line 3, 1,024 tokens in them, or, up to some place in one of them, more than 32 more `(` than `)`."
// It "does not count this line", that of kinds, "or its tokens".
pub fn lines_refused(text: &[u8]) -> bool
    ensures { result ≡ refuses2 text.now }
{
    let header = header_of(text);
    8 < scan::token_count(&text[header.names_start..header.names_end])
        || constraint_lines_refused(&text[header.constraints..])
}

// Whether the token is one of the line's.
fn stands_in(line: &[u8], token: &[u8]) -> bool
    ensures { result ≡ is_one_of (tokens line.now) token.now }
{
    scan::place_of(line, token) < scan::token_count(line)
}

// "a name given twice, reserved", of line 1
pub fn names_refused(line: &[u8]) -> bool
    ensures { result ≡ names_refused (tokens line.now) }
{
    let mut at = 0;
    loop {
        let Span { start, end } = scan::next_token(line, at);
        if start == end {
            return false;
        }
        let name = &line[start..end];
        if vocabulary::is_reserved(name) || stands_in(&line[end..], name) {
            return true;
        }
        at = end;
    }
}
