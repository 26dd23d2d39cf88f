//! Files that were opened, and can be read once more.
use fault_details::{Kept, KeptReader};
use std::alloc::Global;
use std::fs::File;
use std::io;
use std::io::{Read, Seek, SeekFrom};
use tag::Memory;

/// How many bytes are read together.
const BLOCK: usize = 65_536;

/// A file that was opened. What is read of it is kept, as far as a `KeptReader` keeps it, so that it can be read
/// once more as it was.
#[derive(Drop)]
pub struct OpenedFile {
    reader: KeptReader<File>,
    /// Whether it can be read from its beginning once more, as a pipe can't.
    is_regular: bool,
}

/// Another reader of a file's bytes, from its beginning.
#[derive(Drop)]
pub enum Again<'a> {
    /// What was kept.
    Bytes(&'a [u8]),
    /// Of a file, so many bytes after its beginning. Other readers of the file may move it meanwhile.
    File { file: &'a File, at: u64 },
}

/// Why a file can't be read once more.
#[derive(Clone, Copy, Debug, PartialEq, Eq)]
pub enum Unread {
    /// It gives its bytes only once, and they were more than are kept.
    TooLong,
    /// Its device failed.
    Device,
    /// An allocation was refused.
    Memory,
}

impl From<Memory> for Unread {
    fn from(_: Memory) -> Self {
        Unread::Memory
    }
}

impl OpenedFile {
    /// Nothing was read yet.
    pub fn new(alloc: Global, file: File) -> OpenedFile {
        let is_regular = match file.metadata() {
            Ok(metadata) => metadata.is_file(),
            Err(_) => false,
        };
        let reader = KeptReader::new(alloc, file);
        OpenedFile { reader, is_regular }
    }

    /// Reads to the end, as far as what is read is kept.
    pub fn read_on(&mut self, alloc: Global) -> Result<(), Unread> {
        let Ok(mut block) = vec![in alloc; 0u8; BLOCK] else {
            return Err(Unread::Memory);
        };
        for _ in 0..u64::MAX {
            if !matches!(self.reader.kept(), Kept::All(_)) {
                break;
            }
            match self.reader.read(block.as_mut_slice()) {
                Ok(0) => break,
                Ok(_) => {}
                Err(_) => return Err(Unread::Device),
            }
        }
        Ok(())
    }

    /// Its bytes once more, from the beginning: as they were read, or where that many weren't kept, of a regular
    /// file as they are now.
    pub fn again(&self) -> Result<Again<'_>, Unread> {
        match self.reader.kept() {
            Kept::All(bytes) => Ok(Again::Bytes(bytes.as_slice())),
            Kept::TooMany | Kept::NoMemory if self.is_regular => Ok(Again::File {
                file: self.reader.source(),
                at: 0,
            }),
            Kept::TooMany => Err(Unread::TooLong),
            Kept::NoMemory => Err(Unread::Memory),
        }
    }
}

impl Read for OpenedFile {
    fn read(&mut self, block: &mut [u8]) -> io::Result<usize> {
        self.reader.read(block)
    }
}

impl Read for Again<'_> {
    fn read(&mut self, block: &mut [u8]) -> io::Result<usize> {
        match self {
            Again::Bytes(bytes) => bytes.read(block),
            Again::File { file, at } => {
                file.seek(SeekFrom::Start(*at))?;
                let count = file.read(block)?;
                *at = at.saturating_add(count as u64);
                Ok(count)
            }
        }
    }
}
