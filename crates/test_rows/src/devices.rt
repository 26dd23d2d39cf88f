//! Readers and writers over memory, and such as fail.
ghost use Rattle.std.specs.Prelude.{◌≡◌, [], None};

use std::alloc::Global;
use std::io;
use std::io::{ErrorKind, Read, Write};

/// A size of pieces, and a room, that is more than any row needs.
pub const AMPLE: usize = 1_000_000_000;

/// A reader that gives a text in pieces of one size, and then ends, or fails in that way.
#[derive(Drop)]
pub struct Pieces<'a> {
    pub left: &'a [u8],
    pub size: usize,
    pub failure: Option<ErrorKind>,
}

impl<'a> Pieces<'a> {
    /// A reader that gives all at once, and then ends.
    pub fn whole(left: &'a [u8]) -> Pieces<'a>
        ensures left { result.left.now ≡ left.now }
        ensures size { result.size ≡ 1000000000 }
        ensures failure { result.failure ≡ None }
    {
        Pieces {
            left,
            size: AMPLE,
            failure: None,
        }
    }
}

impl Read for Pieces<'_> {
    fn read(&mut self, buffer: &mut [u8]) -> io::Result<usize> {
        if let Some(failure) = self.failure
            && self.left.is_empty()
        {
            return Err(io::Error::from(failure));
        }
        let count = self.size.min(buffer.len()).min(self.left.len());
        buffer[..count].copy_from_slice(&self.left[..count]);
        self.left = &self.left[count..];
        Ok(count)
    }
}

/// How many bytes a writer over memory makes ready for at first: about what any row writes.
const READY: usize = 1_048_576;

/// A writer with room for so many bytes, which then fails.
///
/// It makes its memory ready at once, and does without where that is refused: so where one allocation
/// alone is refused, it is one of what writes, and not of the writer.
#[derive(Drop)]
pub struct Bounded {
    pub taken: Vec<u8>,
    pub room: usize,
}

impl Bounded {
    /// With nothing taken.
    pub fn new(alloc: Global, room: usize) -> Bounded
        ensures taken { result.taken.items ≡ [] }
        ensures room { result.room ≡ room }
    {
        let taken = match Vec::with_capacity(alloc, room.min(READY)) {
            Ok(taken) => taken,
            Err(_) => Vec::new(alloc),
        };
        Bounded { taken, room }
    }
}

impl Write for Bounded {
    fn write(&mut self, bytes: &[u8]) -> io::Result<usize> {
        let count = bytes.len().min(self.room);
        if count == 0 && !bytes.is_empty() {
            return Err(io::Error::from(ErrorKind::StorageFull));
        }
        self.taken.extend_from_slice(&bytes[..count])?;
        self.room = self.room.saturating_sub(count);
        Ok(count)
    }

    fn flush(&mut self) -> io::Result<()> {
        Ok(())
    }
}
