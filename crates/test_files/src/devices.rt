//! Writers that take little, or fail; a reader without an end.
use crate::asked::Asked;
use std::io;
use std::io::{ErrorKind, Read, Write};

/// A writer that takes at most so many bytes at once, or fails at each call, or at each flush alone.
#[derive(Drop)]
pub struct Narrow {
    pub width: usize,
    pub fails: bool,
    pub holds: bool,
}

impl Narrow {
    /// The writer that a row asks for: `width=7` says how many bytes it takes at once, else 1, `fails` that
    /// it fails at each call, `holds` that it fails at each flush.
    pub fn asked(asked: Asked<'_>) -> Narrow {
        Narrow {
            width: asked.number("width", 1),
            fails: asked.has("fails"),
            holds: asked.has("holds"),
        }
    }
}

impl Write for Narrow {
    fn write(&mut self, bytes: &[u8]) -> io::Result<usize> {
        if self.fails {
            return Err(io::Error::from(ErrorKind::BrokenPipe));
        }
        Ok(self.width.min(bytes.len()))
    }

    fn flush(&mut self) -> io::Result<()> {
        if self.fails || self.holds {
            return Err(io::Error::from(ErrorKind::BrokenPipe));
        }
        Ok(())
    }
}

/// A reader that always fills its block, with what stands there.
#[derive(Drop)]
pub struct Endless;

impl Read for Endless {
    fn read(&mut self, block: &mut [u8]) -> io::Result<usize> {
        Ok(block.len())
    }
}
