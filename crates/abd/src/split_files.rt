//! The folder of the pieces of a history, and the files in it.
ghost use Rattle.std.specs.Prelude.{◌≡◌, ◌≢◌};

use crate::names::FileName;
use cli::{Counting, Failure, Status};
use std::alloc::AllocFailed;
use std::fs::File;
use std::io::{ErrorKind, Write};
use std::sync::atomic::{AtomicI32, AtomicUsize, Ordering};
use std::{fs, io};
use tag::Memory;

/// What the name of a piece's file ends in until all pieces are whole.
const UNFINISHED: &str = ".part";

/// What is done with the folder of the pieces, or with the file of one of them, of that number from 1.
#[derive(Clone, Copy)]
pub enum Act {
    /// The folder is made.
    Make,
    /// It is looked into.
    Look,
    /// The file is made.
    Open(usize),
    /// It is written.
    Write(usize),
    /// It gets its own name.
    Rename(usize),
    /// It is removed.
    Remove(usize),
}

impl Act {
    /// The words for its refusal.
    fn refusal(self) -> &'static str {
        match self {
            Act::Make => "cannot make the folder",
            Act::Look => "cannot read the folder",
            Act::Open(_) => "cannot open",
            Act::Write(_) => "cannot write",
            Act::Rename(_) => "cannot rename",
            Act::Remove(_) => "cannot remove",
        }
    }

    /// The status that its refusal ends with: of the folder that of a file that can't be opened, of a piece that of a
    /// device that failed.
    fn status(self) -> Status
        ensures make { self ≡ Act.Make → result ≡ Status.Format }
        ensures look { self ≡ Act.Look → result ≡ Status.Format }
        ensures piece { self ≢ Act.Make → self ≢ Act.Look → result ≡ Status.Failed }
    {
        match self {
            Act::Make | Act::Look => Status::Format,
            Act::Open(_) | Act::Write(_) | Act::Rename(_) | Act::Remove(_) => Status::Failed,
        }
    }
}

/// Why pieces can't be written.
#[derive(Drop)]
pub enum Trouble {
    /// Something is in the folder.
    Filled,
    /// The system refuses that.
    Refused { act: Act, error: io::Error },
    /// Out of memory.
    Memory,
}

impl From<Memory> for Trouble {
    fn from(_: Memory) -> Trouble {
        Trouble::Memory
    }
}

impl<T: Drop> From<AllocFailed<T>> for Trouble {
    fn from(_: AllocFailed<T>) -> Trouble {
        Trouble::Memory
    }
}

/// That the system refuses that.
fn refused<T>(act: Act, error: io::Error) -> Result<T, Trouble> {
    Err(Trouble::Refused { act, error })
}

/// The last error of a write to a piece.
#[derive(Drop)]
pub struct WriteErrors {
    /// The piece, from 1; 0 if no write failed.
    number: AtomicUsize,
    /// The system's number of the error.
    code: AtomicI32,
}

impl WriteErrors {
    /// None yet.
    pub fn new() -> WriteErrors {
        WriteErrors {
            number: AtomicUsize::new(0),
            code: AtomicI32::new(0),
        }
    }

    /// A write to the piece failed.
    fn keep(&self, number: usize, error: &io::Error) {
        self.number.store(number, Ordering::SeqCst);
        let code = error.raw_os_error().unwrap_or(0);
        self.code.store(code, Ordering::SeqCst);
    }

    /// The error, if a write failed.
    pub fn trouble(&self) -> Option<Trouble> {
        match self.number.load(Ordering::SeqCst) {
            0 => None,
            number => Some(Trouble::Refused {
                act: Act::Write(number),
                error: io::Error::from_raw_os_error(self.code.load(Ordering::SeqCst)),
            }),
        }
    }
}

/// A piece's file while it is written.
#[derive(Drop)]
pub struct PieceFile<'a> {
    file: File,
    /// The piece, from 1.
    number: usize,
    /// Where an error is kept.
    errors: &'a WriteErrors,
}

impl Write for PieceFile<'_> {
    fn write(&mut self, bytes: &[u8]) -> io::Result<usize> {
        let written = self.file.write(bytes);
        if let Err(error) = &written {
            self.errors.keep(self.number, error);
        }
        written
    }

    fn flush(&mut self) -> io::Result<()> {
        self.file.flush()
    }
}

impl PieceFile<'_> {
    /// Closes it, once the device has it all.
    fn close(self) -> Result<(), Trouble> {
        match self.file.sync_all() {
            Ok(()) => Ok(()),
            Err(error) => refused(Act::Write(self.number), error),
        }
    }
}

/// How many digits the number has, which is at most 1,000.
fn digits(number: usize) -> usize {
    match number {
        0..=9 => 1,
        10..=99 => 2,
        100..=999 => 3,
        _ => 4,
    }
}

/// The folder of the pieces.
#[derive(Drop)]
pub struct Folder<'a> {
    rt: &'a HostRuntime,
    path: &'a str,
    /// How many pieces there are.
    parts: usize,
    /// Whether it was made for them.
    is_made: bool,
    /// How many of their files were made.
    opened: usize,
    /// How many of these have their own name.
    named: usize,
}

impl<'a> Folder<'a> {
    /// The folder at that path, for so many pieces. Nothing was done with it yet.
    pub fn new(rt: &'a HostRuntime, path: &'a str, parts: u16) -> Folder<'a> {
        Folder {
            rt,
            path,
            parts: usize::from(parts),
            is_made: false,
            opened: 0,
            named: 0,
        }
    }

    /// The path of a piece's file, with what its name ends in.
    fn path_of(&self, number: usize, end: &str) -> Result<String, Memory> {
        let (folder, width) = (self.path, digits(self.parts));
        let slash = if folder.ends_with('/') { "" } else { "/" };
        let alloc = self.rt.alloc();
        Ok(format!(in alloc; "{folder}{slash}piece-{number:0width$}.history{end}")?)
    }

    /// The path of a piece's file as it is now.
    fn present_path(&self, number: usize) -> Result<String, Memory> {
        let end = if number <= self.named { "" } else { UNFINISHED };
        self.path_of(number, end)
    }

    /// Sees that nothing is in the folder.
    fn look(&self) -> Result<(), Trouble> {
        let mut names = match fs::read_dir(self.rt, self.path) {
            Ok(names) => names,
            Err(error) => return refused(Act::Look, error),
        };
        match names.next() {
            None => Ok(()),
            Some(Ok(_)) => Err(Trouble::Filled),
            // There is a name, and it isn't text.
            Some(Err(error)) if error.kind() == ErrorKind::InvalidFilename => Err(Trouble::Filled),
            Some(Err(error)) => refused(Act::Look, error),
        }
    }

    /// Makes the folder, or if it is there sees that nothing is in it.
    pub fn make(&mut self) -> Result<(), Trouble> {
        match fs::create_dir(self.rt, self.path) {
            Ok(()) => {
                self.is_made = true;
                Ok(())
            }
            Err(error) if error.kind() == ErrorKind::AlreadyExists => self.look(),
            Err(error) => refused(Act::Make, error),
        }
    }

    /// Makes the file of the next piece.
    fn open_next<'e>(&mut self, errors: &'e WriteErrors) -> Result<PieceFile<'e>, Trouble> {
        let number = self.opened.saturating_add(1);
        let path = self.path_of(number, UNFINISHED)?;
        match File::create_new(self.rt, path.as_str()) {
            Ok(file) => {
                self.opened = number;
                Ok(PieceFile {
                    file,
                    number,
                    errors,
                })
            }
            Err(error) => refused(Act::Open(number), error),
        }
    }

    /// Makes the files of the pieces.
    pub fn open<'e>(
        &mut self,
        errors: &'e WriteErrors,
    ) -> Result<Vec<Counting<PieceFile<'e>>>, Trouble> {
        let mut files = Vec::new(self.rt.alloc());
        for _ in 0..self.parts {
            files.push(Counting::new(self.open_next(errors)?))?;
        }
        Ok(files)
    }

    /// Gives the piece's file its own name.
    fn rename(&mut self, number: usize) -> Result<(), Trouble> {
        let (from, to) = (self.path_of(number, UNFINISHED)?, self.path_of(number, "")?);
        match fs::rename(self.rt, from.as_str(), to.as_str()) {
            Ok(()) => {
                self.named = number;
                Ok(())
            }
            Err(error) => refused(Act::Rename(number), error),
        }
    }

    /// Closes the files, and gives each its own name, once all are whole.
    pub fn finish(&mut self, files: Vec<Counting<PieceFile<'_>>>) -> Result<(), Trouble> {
        for file in files {
            file.into_inner().close()?;
        }
        for number in 1..=self.parts {
            self.rename(number)?;
        }
        Ok(())
    }

    /// Removes the piece's file.
    fn remove(&self, number: usize) -> Result<(), Trouble> {
        let path = self.present_path(number)?;
        match fs::remove_file(self.rt, path.as_str()) {
            Ok(()) => Ok(()),
            Err(error) => refused(Act::Remove(number), error),
        }
    }

    /// Removes the files that were made, and the folder if it was. What can't be removed is said.
    pub fn clear(&self) {
        for number in 1..=self.opened {
            if let Err(trouble) = self.remove(number) {
                self.tell(trouble);
            }
        }
        if self.is_made {
            let _ = fs::remove_dir(self.rt, self.path);
        }
    }

    /// Says that of the file or the folder at the path.
    fn say(&self, path: &str, what: &str) -> Result<(), Memory> {
        let name = FileName::new(self.rt, path)?;
        let _ = eprintln!(self.rt; "abd: {}: {what}", name.told());
        Ok(())
    }

    /// Says that the system refuses that. The status then.
    fn tell_refused(&self, act: Act, error: io::Error) -> Result<Status, Memory> {
        let what = format!(in self.rt.alloc(); "{}: {error}", act.refusal())?;
        match act {
            Act::Make | Act::Look => self.say(self.path, what.as_str())?,
            Act::Open(number) | Act::Write(number) | Act::Rename(number) | Act::Remove(number) => {
                self.say(self.present_path(number)?.as_str(), what.as_str())?;
            }
        }
        Ok(act.status())
    }

    /// Says why the pieces can't be written. The status then.
    pub fn tell(&self, trouble: Trouble) -> Status {
        let told = match trouble {
            Trouble::Filled => match self.say(self.path, "isn't empty") {
                Ok(()) => Ok(Status::Format),
                Err(error) => Err(error),
            },
            Trouble::Refused { act, error } => self.tell_refused(act, error),
            Trouble::Memory => Err(Memory),
        };
        match told {
            Ok(status) => status,
            Err(Memory) => Failure::Memory.report(&mut Counting::new(self.rt.stderr())),
        }
    }
}
