//! Marks of keys: numbers by which most keys are told apart.
ghost use Rattle.std.specs.Prelude.{◌≡◌};
ghost use Rattle.key_index.specs.Marks.{mark_of};

/// A factor that spreads the bytes of short keys over the whole number.
const FACTOR: u64 = 0x9e37_79b9_7f4a_7c15;

/// The key's mark. Two keys may have one mark; that costs time, and changes no answer.
pub(crate) fn mark_of(key: &[u8]) -> u32
    ensures { result ≡ mark_of key.now }
{
    let mut digits: u64 = 0;
    for (at, byte) in key.iter().enumerate() {
        digits = digits.wrapping_add(u64::from(*byte)).wrapping_mul(FACTOR);
    }
    (digits >> 32) as u32
}
