#![tactic(auto)]

ghost use Rattle.std.specs.Prelude.{◌≡◌};
ghost use Rattle.text.specs.Bytes.{is_bracket};

// A byte that is a token by itself.
pub fn is_bracket(b: u8) -> bool
    ensures { result ≡ is_bracket b }
{
    matches!(b, b'(' | b')')
}
