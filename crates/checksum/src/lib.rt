// The checksum CRC-32 of a text, bit by bit.
#![tactic(auto)]

ghost use Rattle.std.specs.Prelude.{◌≡◌};
ghost use Rattle.checksum.specs.Checksum.{after_bit, after_byte, checksum_of};

// The register after one bit.
fn after_bit(register: u32) -> u32
    ensures { result ≡ after_bit register }
{
    let rest = register / 2;
    if register % 2 == 1 {
        rest ^ 0xEDB88320
    } else {
        rest
    }
}

// The register after a byte.
#[tactic(auto, unfolding(crate::specs::Checksum::after_bits))]
fn after_byte(register: u32, byte: u8) -> u32
    ensures { result ≡ after_byte register byte }
{
    let mut rest = register ^ u32::from(byte);
    for _ in 0..8u32 {
        rest = after_bit(rest);
    }
    rest
}

// The CRC-32 of the bytes.
#[tactic(auto, using(crate::proofs::Bytes::one_byte_more), unfolding(crate::specs::Checksum::after_bytes))]
pub fn checksum(text: &[u8]) -> u32
    ensures { result ≡ checksum_of text.now }
{
    let mut register = 0xFFFFFFFF;
    for byte in text {
        register = after_byte(register, *byte);
    }
    register ^ 0xFFFFFFFF
}
