// Reads a token that may be an integer byte by byte: whether it is one, its sign, and its magnitude, cut beyond every range, so that a token of any length
// takes the same memory. Every public function takes any phase, any magnitude and any byte.
#![tactic(auto)]

ghost use Rattle.std.specs.Prelude.{◌≡◌, ◌-◌};
ghost use Rattle.text.specs.Token.{is_digit};
ghost use Rattle.scan.specs.Integer.{with_sign};
ghost use Rattle.integer_bytes.specs.Phases.{digit_phase, next_phase, ends_integer, is_negative, next_magnitude};

// What the bytes of a token are so far: none, `-` alone, `0` alone, digits, digits behind `-`, or no beginning of an integer.
#[derive(Clone, Copy, PartialEq, Eq)]
pub enum Phase {
    Empty,
    Minus,
    Zero,
    Digits,
    MinusDigits,
    NoInteger,
}

pub fn is_digit(byte: u8) -> bool
    ensures { result ≡ is_digit byte }
{
    byte.is_ascii_digit()
}

fn digit_phase(byte: u8, phase: Phase) -> Phase
    ensures { result ≡ digit_phase byte phase }
{
    if is_digit(byte) {
        phase
    } else {
        Phase::NoInteger
    }
}

fn first_phase(byte: u8) -> Phase
    ensures { result ≡ next_phase Phase.Empty byte }
{
    match byte {
        b'-' => Phase::Minus,
        b'0' => Phase::Zero,
        _ => digit_phase(byte, Phase::Digits),
    }
}

fn minus_phase(byte: u8) -> Phase
    ensures { result ≡ next_phase Phase.Minus byte }
{
    if byte == b'0' {
        Phase::NoInteger
    } else {
        digit_phase(byte, Phase::MinusDigits)
    }
}

// "An integer is digits with an optional `-` before them; a leading zero stands only in `0`, and `-0` is no integer."
pub fn next_phase(phase: Phase, byte: u8) -> Phase
    ensures { result ≡ next_phase phase byte }
{
    match phase {
        Phase::Empty => first_phase(byte),
        Phase::Minus => minus_phase(byte),
        Phase::Zero => Phase::NoInteger,
        Phase::Digits => digit_phase(byte, Phase::Digits),
        Phase::MinusDigits => digit_phase(byte, Phase::MinusDigits),
        Phase::NoInteger => Phase::NoInteger,
    }
}

pub fn ends_integer(phase: Phase) -> bool
    ensures { result ≡ ends_integer phase }
{
    matches!(phase, Phase::Zero | Phase::Digits | Phase::MinusDigits)
}

pub fn is_negative(phase: Phase) -> bool
    ensures { result ≡ is_negative phase }
{
    phase == Phase::MinusDigits
}

// The number that a digit writes; 0 for the bytes before the digits.
pub fn digit(byte: u8) -> u64
    ensures { result ≡ byte - 48 }
{
    u64::from(byte.saturating_sub(b'0'))
}

// A magnitude beyond the bound stays at the bound's successor, so that no product wraps.
pub fn next_magnitude(magnitude: u32, byte: u8) -> u32
    ensures { result ≡ next_magnitude magnitude byte }
{
    let next = u64::from(magnitude) * 10 + digit(byte);
    next.min(1000000001) as u32
}

pub fn signed(magnitude: u32, negative: bool) -> i64
    ensures { result ≡ with_sign negative magnitude }
{
    let value = i64::from(magnitude);
    if negative { -value } else { value }
}
