//! Readers and writers that count their failures.
ghost use Rattle.std.specs.Prelude.{◌≡◌, ◌≤◌, ◌+◌, ◌^◌, false, is_ok};
ghost use Rattle.std.specs.Io.{ReadsAtMost, WritesAtMost};
ghost use Rattle.std.specs.Io.KnownBytes.{ReadConsumes, WriteAppends, Keeps};
ghost use Rattle.counted_devices.specs.Counts.{CountsBytes, CountsErrors, CountsWrite, IsOneMore};

use crate::{Counted, CountedRead, CountedWrite};
use std::io::{Error, ErrorKind, Read, Result, Write};

/// The most bytes that a reader gives: 2^62.
const MOST: u64 = 4_611_686_018_427_387_904;

/// A reader or a writer, with the count of the errors that it answered, and whether the last that was
/// done was a flush that succeeded. The count stays at its greatest value. A reader so wrapped gives at
/// most 2^62 bytes, and then only errors.
#[derive(Drop)]
pub struct Counting<T> {
    inner: T,
    failures: u64,
    given: u64,
    is_flushed: bool,
    ghost most: { given ≤ 2 ^ 62 },
}

impl<T> Counting<T> {
    ghost use Rattle.counted_devices.specs.Devices.{device};

    /// Nothing counted yet.
    pub fn new(inner: T) -> Counting<T>
        ensures device { device result ≡ inner }
        ensures failures { ⟦<Counting<T> as Counted>⟧.failures result ≡ 0 }
        ensures given { ⟦<Counting<T> as Counted>⟧.given result ≡ 0 }
    {
        Counting {
            inner,
            failures: 0,
            given: 0,
            is_flushed: false,
        }
    }

    /// The reader or the writer.
    pub fn into_inner(self) -> T
        ensures { result ≡ device self }
    {
        let Counting { inner, .. } = self;
        inner
    }

    /// Counts an error.
    fn fail(&mut self)
        ensures inner { self.new.inner ≡ self.old.inner }
        ensures given { self.new.given ≡ self.old.given }
        ensures flushed { self.new.is_flushed ≡ self.old.is_flushed }
        ensures counted { IsOneMore self.old.failures self.new.failures }
    {
        self.failures = self.failures.saturating_add(1);
    }
}

impl<T> Counted for Counting<T> {
    ghost failures = { λ device. device.failures };

    ghost given = { λ device. device.given };

    ghost most_given = { λ device. device.most };

    fn failures(&self) -> u64 {
        self.failures
    }

    fn given(&self) -> u64 {
        self.given
    }
}

impl<R: Read> Read for Counting<R> {
    ghost remaining = { λ reader. R.remaining reader.inner };

    /// Reads from the inner reader. Its errors are counted, one each, and the bytes that it gave; after
    /// 2^62 bytes each read is an error, and is counted as one.
    fn read(&mut self, block: &mut [u8]) -> Result<usize>
        ensures bound { ReadsAtMost result block.new }
        ensures bytes { ReadConsumes (R.remaining self.old.inner)
            (R.remaining self.new.inner) result block.new }
        ensures given { CountsBytes (λ reader. reader.given) self.old self.new result }
        ensures counted { CountsErrors (λ reader. reader.failures) self.old self.new result }
    {
        self.read_counted(block)
    }
}

impl<R: Read> CountedRead for Counting<R> {
    fn read_counted(&mut self, block: &mut [u8]) -> Result<usize> {
        if self.given >= MOST {
            self.fail();
            return Err(Error::from(ErrorKind::FileTooLarge));
        }
        let room = (MOST - self.given).min(block.len() as u64) as usize;
        match self.inner.read(&mut block[..room]) {
            Ok(count) => {
                self.given += count as u64;
                Ok(count)
            }
            Err(error) => {
                self.fail();
                Err(error)
            }
        }
    }
}

impl<W: Write> Write for Counting<W> {
    ghost contents = { λ writer. W.contents writer.inner };

    /// Writes to the inner writer. Its errors are counted, one each, and so is a write that takes
    /// nothing of a text that isn't empty.
    fn write(&mut self, text: &[u8]) -> Result<usize>
        ensures bound { WritesAtMost result text.now }
        ensures bytes { WriteAppends (W.contents self.old.inner)
            (W.contents self.new.inner) result text.now }
        ensures given { self.new.given ≡ self.old.given }
        ensures held { self.new.is_flushed ≡ false }
        ensures counted { CountsWrite (λ writer. writer.failures) self.old self.new text.now result }
    {
        self.write_counted(text)
    }

    /// Flushes the inner writer. An error is counted.
    fn flush(&mut self) -> Result<()>
        ensures bytes { Keeps (W.contents self.old.inner) (W.contents self.new.inner) }
        ensures given { self.new.given ≡ self.old.given }
        ensures passed_on { self.new.is_flushed ≡ is_ok result }
        ensures counted { CountsErrors (λ writer. writer.failures) self.old self.new result }
    {
        self.flush_counted()
    }
}

impl<W: Write> CountedWrite for Counting<W> {
    ghost is_flushed = { λ writer. writer.is_flushed };

    fn write_counted(&mut self, text: &[u8]) -> Result<usize> {
        self.is_flushed = false;
        match self.inner.write(text) {
            Ok(count) => {
                if count == 0 && !text.is_empty() {
                    self.fail();
                }
                Ok(count)
            }
            Err(error) => {
                self.fail();
                Err(error)
            }
        }
    }

    fn flush_counted(&mut self) -> Result<()> {
        let flushed = self.inner.flush();
        self.is_flushed = flushed.is_ok();
        match flushed {
            Ok(()) => Ok(()),
            Err(error) => {
                self.fail();
                Err(error)
            }
        }
    }
}
