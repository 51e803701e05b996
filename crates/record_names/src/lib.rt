// Reads the line with the sheet's names byte by byte. What is kept of it is a struct of scalars, so that a line of any length takes the same memory. Every
// public function takes any state, any byte and any slices.
#![tactic(auto)]

ghost use Rattle.std.specs.Prelude.{◌≡◌, cond, length};
ghost use Rattle.sheet.specs.Names.{name_in};
ghost use Rattle.record_names.specs.Line.{is_plain};
ghost use Rattle.record_names.specs.Machine.{next_count, is_byte_at, name_byte, name_end, names_start, names_byte, names_end};

// Whether the tokens are the names so far, how many have ended, and the place in the token that is begun.
#[derive(Clone, Copy)]
pub struct NameState {
    pub same: bool,
    pub count: usize,
    pub place: usize,
}

// The line of names so far: whether a byte was barred, and whether a token is begun.
#[derive(Clone, Copy)]
pub struct NamesState {
    pub barred: bool,
    pub begun: bool,
    pub names: NameState,
}

// "a byte refusal 1 bars" is any other; byte 10 ends the line.
pub fn is_plain(byte: u8) -> bool
    ensures { result ≡ is_plain byte }
{
    matches!(byte, b' '..=b'~')
}

// One more, cut at 9: there are at most 8 streams, and 8 bytes in a name.
pub fn next_count(count: usize) -> usize
    ensures { result ≡ next_count count }
{
    count.min(8) + 1
}

// The name of stream `i`, where `names` holds eight bytes for each name; what there is of it.
pub fn name_in<'a>(names: &'a [u8], lengths: &[u8], i: usize) -> &'a [u8]
    ensures { result.now ≡ name_in names.now lengths.now i }
{
    if names.len() / 8 < i || lengths.len() <= i {
        return &names[..0];
    }
    let start = i * 8;
    let end = (start + usize::from(lengths[i]).min(8)).min(names.len());
    &names[start..end]
}

fn is_byte_at(name: &[u8], place: usize, byte: u8) -> bool
    ensures { result ≡ is_byte_at name.now place byte }
{
    place < name.len() && byte == name[place]
}

fn name_byte(state: NameState, byte: u8, names: &[u8], lengths: &[u8]) -> NameState
    ensures { result ≡ name_byte (name_in names.now lengths.now) state byte }
{
    let name = name_in(names, lengths, state.count);
    NameState {
        same: state.same & is_byte_at(name, state.place, byte),
        place: next_count(state.place),
        ..state
    }
}

fn name_end(state: NameState, names: &[u8], lengths: &[u8]) -> NameState
    ensures { result ≡ name_end (name_in names.now lengths.now) state }
{
    let name = name_in(names, lengths, state.count);
    NameState {
        same: state.same & (state.place == name.len()),
        count: next_count(state.count),
        place: 0,
    }
}

// The names with a token that is begun ended.
fn end_name(begun: bool, state: NameState, names: &[u8], lengths: &[u8]) -> NameState
    ensures { result ≡ cond begun (name_end (name_in names.now lengths.now) state) state }
{
    if begun {
        name_end(state, names, lengths)
    } else {
        state
    }
}

pub fn names_start() -> NamesState
    ensures { result ≡ names_start }
{
    NamesState {
        barred: false,
        begun: false,
        names: NameState {
            same: true,
            count: 0,
            place: 0,
        },
    }
}

// The line of names with one byte more, where `names` holds eight bytes for each of the sheet's names and `lengths` their lengths.
pub fn names_byte(line: NamesState, byte: u8, names: &[u8], lengths: &[u8]) -> NamesState
    ensures { result ≡ names_byte (name_in names.now lengths.now) line byte }
{
    let barred = line.barred | !is_plain(byte);
    let state = line.names;
    if scan::is_inside(byte) {
        return NamesState {
            barred,
            begun: true,
            names: name_byte(state, byte, names, lengths),
        };
    }
    let ended = end_name(line.begun, state, names, lengths);
    if text::is_bracket(byte) {
        return NamesState {
            barred,
            begun: false,
            names: name_end(name_byte(ended, byte, names, lengths), names, lengths),
        };
    }
    NamesState {
        barred,
        begun: false,
        names: ended,
    }
}

// Whether the line that ends has the sheet's names, all of them, and no barred byte.
#[tactic(auto, unfolding(crate::specs::Machine::names_end))]
pub fn names_end(line: NamesState, names: &[u8], lengths: &[u8]) -> bool
    ensures { result ≡ names_end (name_in names.now lengths.now) (length lengths.now) line }
{
    let ended = end_name(line.begun, line.names, names, lengths);
    !line.barred && ended.same && ended.count == lengths.len()
}
