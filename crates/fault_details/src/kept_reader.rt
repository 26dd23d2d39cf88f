//! A reader that keeps what it gives.
ghost use Rattle.std.specs.Prelude.{[], ◌≡◌};
ghost use Rattle.std.specs.Io.{ReadsAtMost};
ghost use Rattle.std.specs.Io.KnownBytes.{ReadConsumes};
ghost use Rattle.fault_details.specs.KeptBytes.{IsKept, IsKeptThen, KeepsRead, kept_of, source_of};

use std::alloc::Global;
use std::io::{Read, Result};

/// The most bytes that are kept.
const MOST: usize = 16_777_216;

/// What is kept of the bytes that a reader gave.
#[derive(Debug, Drop)]
pub enum Kept {
    /// All of them.
    All(Vec<u8>),
    /// Nothing, since they are more than 16,777,216.
    TooMany,
    /// Nothing, since an allocation was refused.
    NoMemory,
}

impl Kept {
    /// Keeps these bytes too.
    fn add(&mut self, bytes: &[u8])
        ensures { IsKeptThen self.old bytes.now self.new }
    {
        let Kept::All(all) = self else {
            return;
        };
        if all.len().saturating_add(bytes.len()) > MOST {
            *self = Kept::TooMany;
            return;
        }
        match all.extend_from_slice(bytes) {
            Ok(()) => {}
            Err(_) => *self = Kept::NoMemory,
        }
    }
}

/// A reader that keeps what it gives, up to 16,777,216 bytes, so that it can be read once more as it was.
#[derive(Drop)]
pub struct KeptReader<R> {
    reader: R,
    kept: Kept,
}

impl<R> KeptReader<R> {
    /// It gave nothing yet.
    pub fn new(alloc: Global, reader: R) -> KeptReader<R>
        ensures reader { source_of result ≡ reader }
        ensures kept { IsKept [] (kept_of result) }
    {
        let kept = Kept::All(Vec::new(alloc));
        KeptReader { reader, kept }
    }

    /// What is kept.
    pub fn kept(&self) -> &Kept
        ensures { result.now ≡ kept_of self.now }
    {
        &self.kept
    }

    /// The reader whose bytes are kept.
    pub fn source(&self) -> &R
        ensures { result.now ≡ source_of self.now }
    {
        &self.reader
    }
}

impl<R: Read> Read for KeptReader<R> {
    ghost remaining = { λ reader. R.remaining (source_of reader) };

    /// Reads from the reader, and keeps what it gave.
    fn read(&mut self, block: &mut [u8]) -> Result<usize>
        ensures bound { ReadsAtMost result block.new }
        ensures bytes { ReadConsumes (R.remaining (source_of self.old))
            (R.remaining (source_of self.new)) result block.new }
        ensures kept { KeepsRead result block.new (kept_of self.old) (kept_of self.new) }
    {
        match self.reader.read(block) {
            Ok(count) => {
                self.kept.add(&block[..count]);
                Ok(count)
            }
            Err(error) => Err(error),
        }
    }
}
