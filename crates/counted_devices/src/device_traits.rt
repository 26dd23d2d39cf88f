//! Devices with the count of their failures.
ghost use Rattle.std.specs.Prelude.{ℕ, Bool, ◌≡◌, ◌≤◌, ◌^◌, false, is_ok};
ghost use Rattle.std.specs.Io.{ReadsAtMost, WritesAtMost};
ghost use Rattle.std.specs.Io.KnownBytes.{ReadConsumes, WriteAppends, Keeps};
ghost use Rattle.counted_devices.specs.Counts.{CountsBytes, CountsErrors, CountsWrite};

use std::io::{Read, Result, Write};

/// A device that counts: the errors that it answered, up to 2^64 - 1, and the bytes that it gave.
pub trait Counted {
    ghost failures: { Self → ℕ };

    ghost given: { Self → ℕ };

    /// How many errors were answered.
    fn failures(&self) -> u64
        ensures { result ≡ failures self.now };

    /// How many bytes were read.
    fn given(&self) -> u64
        ensures given { result ≡ given self.now }
        ensures most { result ≤ 2 ^ 62 };

    ghost most_given: { (device : Self) → given device ≤ 2 ^ 62 };
}

/// A reader that counts. It gives at most 2^62 bytes, and then only errors.
pub trait CountedRead: Read + Counted {
    /// Reads at most as many bytes as the block has room for. Each error is counted, also that of
    /// a reader that gave all the bytes that it may.
    fn read_counted(&mut self, block: &mut [u8]) -> Result<usize>
        ensures bound { ReadsAtMost result block.new }
        ensures bytes { ReadConsumes (Self.remaining self.old)
            (Self.remaining self.new) result block.new }
        ensures given { CountsBytes Self.given self.old self.new result }
        ensures counted { CountsErrors Self.failures self.old self.new result };
}

/// A writer that counts. It may hold back what it takes until it is flushed: it is flushed if the last
/// call of it was a flush that succeeded.
pub trait CountedWrite: Write + Counted {
    ghost is_flushed: { Self → Bool };

    /// Writes some of the text. Each error is counted, and so is a write that takes nothing of a
    /// text that isn't empty. What is taken isn't passed on yet: the writer isn't flushed.
    fn write_counted(&mut self, text: &[u8]) -> Result<usize>
        ensures bound { WritesAtMost result text.now }
        ensures bytes { WriteAppends (Self.contents self.old)
            (Self.contents self.new) result text.now }
        ensures given { Self.given self.new ≡ Self.given self.old }
        ensures held { is_flushed self.new ≡ false }
        ensures counted { CountsWrite Self.failures self.old self.new text.now result };

    /// Passes on what was written, and counts an error. The writer is flushed if it succeeds.
    fn flush_counted(&mut self) -> Result<()>
        ensures bytes { Keeps (Self.contents self.old) (Self.contents self.new) }
        ensures given { Self.given self.new ≡ Self.given self.old }
        ensures passed_on { is_flushed self.new ≡ is_ok result }
        ensures counted { CountsErrors Self.failures self.old self.new result };
}
