// What comes before a record is played or a course is found: the sheet is read and compiled, and the start is judged.
#![tactic(auto)]

ghost use Rattle.std.specs.Prelude.{◌≡◌, ◌≤◌};
ghost use Rattle.sheet.specs.Refusal.{magnitude_bound};
ghost use Rattle.opening.specs.Start.{start_text, start_state, state_below, judged};
ghost use Rattle.opening.specs.Opens.{OpensTable};

// The refusal's number, or 0 with the number of states and the state to start from; and the sheet as it is read.
#[derive(Clone, Copy)]
pub struct OpenedTable {
    pub refusal: u32,
    pub states: u32,
    pub state: u32,
    pub sheet: reader::StoredSheet,
}

// The state that a number is, of so many states.
fn state_of(value: i64, states: u32) -> Option<u32>
    ensures { result ≡ judged (state_below states value) }
{
    if value < 0 {
        return None;
    }
    let number = value as u64;
    if number < states as u64 {
        return Some(number as u32);
    }
    None
}

// The state to start from: 0, or the one that the text says where a start is given. An integer beyond the bound is no state, whatever its length.
fn judge_start(states: u32, given: bool, start: &[u8]) -> Option<u32>
    requires { states ≤ magnitude_bound }
    ensures { result ≡ judged (start_state states (start_text given start.now)) }
{
    if !given {
        return Some(0);
    }
    let Ok(value) = scan::read_integer(start) else {
        return None;
    };
    state_of(value, states)
}

// Reads and compiles the sheet, in the rows that programs lend, and judges the start. Entries and final bytes are those of the table, with zeros behind
// them; after a refusal they are zero.
pub fn open_table(
    text: &[u8],
    given: bool,
    start: &[u8],
    entries: &mut [u16; 32768],
    finals: &mut [u8; 256],
) -> OpenedTable
    ensures { OpensTable text.now (start_text given start.now) result entries.new finals.new }
{
    let sheet = reader::read(text).sheet;
    let compiled = lend::compile_lent(text, sheet.letters as usize, entries, finals);
    if compiled.refusal != 0 {
        return OpenedTable {
            refusal: compiled.refusal,
            states: 0,
            state: 0,
            sheet,
        };
    }
    let Some(state) = judge_start(compiled.states, given, start) else {
        entries.fill(0);
        finals.fill(0);
        return OpenedTable {
            refusal: 11,
            states: 0,
            state: 0,
            sheet,
        };
    };
    OpenedTable {
        refusal: 0,
        states: compiled.states,
        state,
        sheet,
    }
}
