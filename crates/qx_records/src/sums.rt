//! The checksums of long names.
ghost use Rattle.std.specs.Prelude.{◌≡◌};
ghost use Rattle.qx_records.specs.NameSum.{next_sum, signed_value, name_sum_of, name_sum_signed_of};

/// The checksum of a name whose bytes are unsigned, as this project writes it.
#[tactic(auto, unfolding(crate::specs::NameSum::name_sum_of))]
pub fn name_sum(name: &[u8]) -> u32
    ensures { result ≡ name_sum_of name.now }
{
    name.iter()
        .fold(0, |sum, byte| with_value(sum, u32::from(*byte)))
}

/// The checksum of a name whose bytes are signed, as older kernels wrote it.
#[tactic(auto, unfolding(crate::specs::NameSum::name_sum_signed_of))]
pub fn name_sum_signed(name: &[u8]) -> u32
    ensures { result ≡ name_sum_signed_of name.now }
{
    name.iter()
        .fold(0, |sum, byte| with_value(sum, value_of(*byte)))
}

/// A byte as a signed one, modulo 2^32.
fn value_of(byte: u8) -> u32
    ensures { result ≡ signed_value byte }
{
    if byte < 128 {
        u32::from(byte)
    } else {
        u32::from(byte) + 0xFFFF_FF00
    }
}

/// The checksum after one more byte, which counts as this value.
fn with_value(sum: u32, value: u32) -> u32
    ensures { result ≡ next_sum sum value }
{
    let top = if sum % 2 == 1 { 0x8000_0000 } else { 0 };
    (sum / 2).wrapping_add(value) ^ top
}
