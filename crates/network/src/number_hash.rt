//! How the table of flights hashes a number.
ghost use Rattle.std.specs.Prelude.{◌+◌, ◌*◌, ◌%◌, ◌^◌, bit_and, bit_xor, if◌then◌else◌, length, nat_eq, slice_index};

use std::hash::{BuildHasher, Hasher};

/// Hashes a number to its lower 24 bits, which choose the place in the table, and 8 bits that depend on
/// all of it, which tell the numbers of one place apart. Numbers in turn so stand side by side: what is
/// sent next is written where the last was.
#[derive(Clone, Copy, Debug)]
pub(crate) struct NumberHasher(u32);

impl NumberHasher {
    pub(crate) fn new() -> NumberHasher {
        NumberHasher(0)
    }
}

impl Hasher for NumberHasher {
    ghost write = { λ h bytes. record {
      0 = if nat_eq (length bytes) 4 then slice_index bytes 0 + slice_index bytes 1 * 256
          + slice_index bytes 2 * 65536 + slice_index bytes 3 * 16777216 else h.0;
    } };

    ghost finish = { λ h. bit_xor h.0 (bit_and ((h.0 * 0x9e37_79b1) % 2 ^ 32) 0xff00_0000) };

    #[inline(always)]
    fn finish(&self) -> u64 {
        u64::from(self.0 ^ (self.0.wrapping_mul(0x9e37_79b1) & 0xff00_0000))
    }

    #[inline(always)]
    fn write(&mut self, bytes: &[u8]) {
        if bytes.len() == 4 {
            self.0 = u32::from(bytes[0])
                + u32::from(bytes[1]) * 0x100
                + u32::from(bytes[2]) * 0x1_0000
                + u32::from(bytes[3]) * 0x100_0000;
        }
    }
}

impl BuildHasher for NumberHasher {
    type Hasher = NumberHasher;

    ghost build_hasher = { λ h. h };

    #[inline(always)]
    fn build_hasher(&self) -> NumberHasher {
        *self
    }
}
