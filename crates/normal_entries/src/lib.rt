// Entries of the normal form: read from tables of numbers, and stored as records in a lent list.
#![tactic(auto)]

ghost use Rattle.std.specs.Prelude.{◌≡◌, cond, suc, ◌<◌, length};
ghost use Rattle.normal_entries.specs.Fields.{left_is_node, right_is_node, replaces_in};
ghost use Rattle.normal_entries.specs.Entries.{refused_made, with_spans, blank, stored_place, stored_entry, listed};

// One entry of the normal form (`normal/specs/Encoded` says what its fields are). Laid out as in C, so that an exported function can be lent a list of them;
// twelve numbers of two bytes and two of eight, with no bytes between them.
#[repr(C)]
#[derive(Clone, Copy)]
pub struct Entry {
    pub kind: u16,
    pub relation: u16,
    pub stream_kind: u16,
    pub replaces: u16,
    pub left: u16,
    pub left_added: u16,
    pub left_begin: u16,
    pub left_end: u16,
    pub right: u16,
    pub right_added: u16,
    pub right_begin: u16,
    pub right_end: u16,
    pub low: i64,
    pub high: i64,
}

// The refusal's number or 0, the number of entries and of added streams. Laid out as in C, so that an exported function can give it back.
#[repr(C)]
#[derive(Clone, Copy)]
pub struct NormalForm {
    pub refusal: u32,
    pub entries: u32,
    pub added: u32,
}

// The answer; seven numbers for each entry, and behind those of all entries two for the span of each node; and the ends of the ranges.
#[derive(Clone, Copy)]
pub struct Made {
    pub answer: NormalForm,
    pub numbers: [u16; 30944],
    pub ends: [i64; 8256],
}

// The answer of a refusal.
pub fn refused_answer(number: u32) -> NormalForm
    ensures { result ≡ (refused_made number).answer }
{
    NormalForm {
        refusal: number,
        entries: 0,
        added: 0,
    }
}

// A refusal, with tables of zeros. Its own copies of them are gone before anything else is called.
#[inline(never)]
pub fn refused(number: u32) -> Made
    ensures { result ≡ refused_made number }
{
    Made {
        answer: refused_answer(number),
        numbers: [0; 30944],
        ends: [0; 8256],
    }
}

// Stores the spans of the nodes behind the numbers of the entries.
pub fn put_spans(numbers: &mut [u16; 30944], spans: &[u16; 2048])
    ensures { numbers.new ≡ with_spans numbers.old spans.now }
{
    numbers[28896..].copy_from_slice(spans);
}

// Whether the left of an entry of this kind is a node.
fn left_is_node(kind: u16) -> bool
    ensures { result ≡ left_is_node kind }
{
    kind == 1
}

// Whether the right of an entry of this kind is a node.
fn right_is_node(kind: u16) -> bool
    ensures { result ≡ right_is_node kind }
{
    kind == 1 || kind == 3
}

// A stream's number, and 0 for a node.
fn stream_of(is_node: bool, number: u16) -> u16
    ensures { result ≡ cond is_node 0 number }
{
    if is_node { 0 } else { number }
}

// The place behind a node, or the other place where there is none.
fn behind_node(is_node: bool, node: u16, other: usize) -> usize
    ensures { result ≡ cond is_node (suc node) other }
{
    if is_node {
        usize::from(node) + 1
    } else {
        other
    }
}

// 1 where the left stream of an entry stands for a whole `next` or `fby`, else 0.
fn replaces(kind: u16, left: u16, right: u16) -> u16
    ensures { result ≡ replaces_in kind left right }
{
    u16::from(kind == 5 || kind == 4 && left < right)
}

// A place of the span of the node that stands before `end`: its begin, or its end where `which` is 1. 0 where there is no node.
fn stored_place(numbers: &[u16; 30944], end: usize, which: usize) -> u16
    requires { which < 2 }
    ensures { result ≡ stored_place numbers.now which end }
{
    if end == 0 || 1024 < end {
        return 0;
    }
    numbers[28896 + (end - 1) * 2 + which]
}

// An entry of zeros.
fn blank_entry() -> Entry
    ensures { result ≡ blank }
{
    Entry {
        kind: 0,
        relation: 0,
        stream_kind: 0,
        replaces: 0,
        left: 0,
        left_added: 0,
        left_begin: 0,
        left_end: 0,
        right: 0,
        right_added: 0,
        right_begin: 0,
        right_end: 0,
        low: 0,
        high: 0,
    }
}

// The kind of an added stream: where the left of an entry names a stream, it is an added one.
const ADDED_STREAM_KIND: u16 = nodes::SET_STREAM as u16;

// The entry with the number i; all fields are 0 where there is none.
pub fn entry_at(numbers: &[u16; 30944], ends: &[i64; 8256], i: usize) -> Entry
    ensures { result ≡ stored_entry numbers.now ends.now i }
{
    if 4128 <= i {
        return blank_entry();
    }
    let at = i * 7;
    let kind = numbers[at];
    let left = numbers[at + 2];
    let right = numbers[at + 4];
    let is_left = left_is_node(kind);
    let is_right = right_is_node(kind);
    let before_left = behind_node(is_left, left, usize::from(numbers[at + 6]));
    let before_right = behind_node(is_right, right, 0);
    Entry {
        kind,
        relation: numbers[at + 1],
        stream_kind: ADDED_STREAM_KIND,
        replaces: replaces(kind, left, right),
        left: stream_of(is_left, left),
        left_added: numbers[at + 3],
        left_begin: stored_place(numbers, before_left, 0),
        left_end: stored_place(numbers, before_left, 1),
        right: stream_of(is_right, right),
        right_added: numbers[at + 5],
        right_begin: stored_place(numbers, before_right, 0),
        right_end: stored_place(numbers, before_right, 1),
        low: ends[i * 2],
        high: ends[i * 2 + 1],
    }
}

// Stores the entries that the numbers give, and entries of zeros behind them.
pub fn fill(list: &mut [Entry], numbers: &[u16; 30944], ends: &[i64; 8256])
    ensures { list.new ≡ listed (stored_entry numbers.now ends.now) (length list.old) }
{
    for (i, entry) in list.iter_mut().enumerate() {
        *entry = entry_at(numbers, ends, i);
    }
}
