// Takes an input byte by byte: a line that holds a number, and the bytes of a sheet behind it. What is kept of the line is a struct of scalars, so that a
// line of any length takes the same memory; of the sheet as many bytes are kept as lent bytes have room for.
#![tactic(auto)]

ghost use Rattle.std.specs.Prelude.{◌≡◌, true, cond, ◌+◌, ◌-◌, ◌*◌};
ghost use Rattle.text.specs.Fold.{run_bytes};
ghost use Rattle.first_line.specs.Machine.{first_digit, phase_byte, phase_end, cut_number, number_byte, number_end, number_line_byte, found_in, number_line_end, keeping, keep_byte, taken_start, store_byte, early_refusal};

// What the bytes of the line are so far: no token yet, `0` alone, digits, one number that has ended, or no number alone.
#[derive(Clone, Copy, PartialEq, Eq)]
pub enum NumberPhase {
    Start,
    Zero,
    Digits,
    Ended,
    NoNumber,
}

// The same, and the number so far, cut at 65.
#[derive(Clone, Copy)]
pub struct NumberState {
    pub phase: NumberPhase,
    pub value: u32,
}

// The line so far: whether a byte was barred, and whether a token is begun.
#[derive(Clone, Copy)]
pub struct NumberLine {
    pub barred: bool,
    pub begun: bool,
    pub number: NumberState,
}

// What is kept of an input: the line, whether it has ended, and how many of the lent bytes hold bytes of the sheet.
#[derive(Clone, Copy)]
pub struct Taken {
    pub line: NumberLine,
    pub behind: bool,
    pub size: usize,
}

fn digit_phase(byte: u8) -> NumberPhase
    ensures { result ≡ phase_byte NumberPhase.Digits byte }
{
    if integer_bytes::is_digit(byte) {
        NumberPhase::Digits
    } else {
        NumberPhase::NoNumber
    }
}

fn first_digit(byte: u8) -> NumberPhase
    ensures { result ≡ first_digit byte }
{
    if byte == b'0' {
        NumberPhase::Zero
    } else {
        digit_phase(byte)
    }
}

// "digits [..]; a leading zero stands only in `0`", and one token alone.
fn phase_byte(phase: NumberPhase, byte: u8) -> NumberPhase
    ensures { result ≡ phase_byte phase byte }
{
    match phase {
        NumberPhase::Start => first_digit(byte),
        NumberPhase::Digits => digit_phase(byte),
        NumberPhase::Zero | NumberPhase::Ended | NumberPhase::NoNumber => NumberPhase::NoNumber,
    }
}

fn phase_end(phase: NumberPhase) -> NumberPhase
    ensures { result ≡ phase_end phase }
{
    match phase {
        NumberPhase::Zero | NumberPhase::Digits => NumberPhase::Ended,
        NumberPhase::Start | NumberPhase::Ended | NumberPhase::NoNumber => NumberPhase::NoNumber,
    }
}

// The number with one digit more. Beyond 64 it stays at 65, so that no product wraps.
fn next_value(value: u32, byte: u8) -> u32
    ensures { result ≡ cut_number (value * 10 + (byte - 48)) }
{
    let next = u64::from(value) * 10 + integer_bytes::digit(byte);
    next.min(65) as u32
}

fn number_byte(number: NumberState, byte: u8) -> NumberState
    ensures { result ≡ number_byte number byte }
{
    NumberState {
        phase: phase_byte(number.phase, byte),
        value: next_value(number.value, byte),
    }
}

fn number_end(number: NumberState) -> NumberState
    ensures { result ≡ number_end number }
{
    NumberState {
        phase: phase_end(number.phase),
        ..number
    }
}

// The number with a token that is begun ended.
fn end_number(begun: bool, number: NumberState) -> NumberState
    ensures { result ≡ cond begun (number_end number) number }
{
    if begun { number_end(number) } else { number }
}

// The line with one byte more. A bracket is a token by itself, and a byte that is in no token ends the one that is begun.
fn line_byte(line: NumberLine, byte: u8) -> NumberLine
    ensures { result ≡ number_line_byte line byte }
{
    let number = line.number;
    let barred = line.barred | !record_names::is_plain(byte);
    if scan::is_inside(byte) {
        return NumberLine {
            barred,
            begun: true,
            number: number_byte(number, byte),
        };
    }
    let ended = end_number(line.begun, number);
    if text::is_bracket(byte) {
        return NumberLine {
            barred,
            begun: false,
            number: number_end(number_byte(ended, byte)),
        };
    }
    NumberLine {
        barred,
        begun: false,
        number: ended,
    }
}

fn found_in(phase: NumberPhase, value: u32) -> Option<u32>
    ensures { result ≡ found_in phase value }
{
    if phase == NumberPhase::Ended {
        Some(value)
    } else {
        None
    }
}

// Before the first byte of an input.
pub fn take_start() -> Taken
    ensures { result ≡ taken_start }
{
    Taken {
        line: NumberLine {
            barred: false,
            begun: false,
            number: NumberState {
                phase: NumberPhase::Start,
                value: 0,
            },
        },
        behind: false,
        size: 0,
    }
}

// A byte behind the line, which is kept where there is room.
fn store_byte(taken: Taken, byte: u8, sheet: &mut [u8]) -> Taken
    requires { taken.behind ≡ true }
    ensures { keeping result sheet.new ≡ store_byte (keeping taken sheet.old) byte }
{
    if sheet.len() <= taken.size {
        return taken;
    }
    sheet[taken.size] = byte;
    Taken {
        size: taken.size + 1,
        ..taken
    }
}

// One byte of an input.
fn take_byte(taken: Taken, byte: u8, sheet: &mut [u8]) -> Taken
    ensures { keeping result sheet.new ≡ keep_byte (keeping taken sheet.old) byte }
{
    if taken.behind {
        return store_byte(taken, byte, sheet);
    }
    if byte == b'\n' {
        return Taken {
            behind: true,
            ..taken
        };
    }
    Taken {
        line: line_byte(taken.line, byte),
        ..taken
    }
}

// The next bytes of an input, which may be cut anywhere. The bytes of the sheet are kept in the lent ones, as many as these have room for.
pub fn take_chunk(taken: Taken, chunk: &[u8], sheet: &mut [u8]) -> Taken
    ensures { keeping result sheet.new ≡ run_bytes keep_byte (keeping taken sheet.old) chunk.now }
{
    let mut kept = taken;
    for byte in chunk {
        kept = take_byte(kept, *byte, sheet);
    }
    kept
}

// The number of the line, cut at 65, at its byte 10 or at the end of the input; none where the line is no number.
#[tactic(auto, unfolding(crate::specs::Machine::number_line_end))]
pub fn line_number(line: NumberLine) -> Option<u32>
    ensures { result ≡ number_line_end line }
{
    if line.barred {
        return None;
    }
    let ended = end_number(line.begun, line.number);
    found_in(ended.phase, ended.value)
}

// The refusal of a sheet with that of the line before it, 0 for none: "a first line that is no integer from 0 up counts as 3". 1 and 2 come before it.
pub fn early_refusal(number: Option<u32>, refusal: u32) -> u32
    ensures { result ≡ early_refusal number refusal }
{
    if refusal == 1 || refusal == 2 || number.is_some() {
        refusal
    } else {
        3
    }
}
