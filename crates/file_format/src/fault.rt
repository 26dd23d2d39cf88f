//! Faults of files.
ghost use Rattle.std.specs.Prelude.{◌≡◌, codes};
ghost use Rattle.file_format.specs.Numbers.{line_fault_number, line_fault_text};

use counted_devices::{FaultNumbers, ReadFault};
use std::fmt;
use thiserror::Error;

/// What is wrong with a line. Of several the first that is tested is named: `TooLong`, then
/// `NotJson`, then the others in this order, `KeyInAnotherHall` after `Range` and `TooManyCalls`
/// last.
#[derive(Clone, Copy, Debug, PartialEq, Eq, Error)]
pub enum LineFault {
    /// The line is no JSON text, or isn't UTF-8.
    NotJson = 1,
    /// The first line isn't the header of such a file, or there is no line.
    NoHeader = 2,
    /// The header's version is missing or isn't 1.
    Version = 3,
    /// The line isn't an object, or a member is missing or of the wrong kind.
    Member = 4,
    /// A number, key, value or fixed text is outside its range.
    Range = 5,
    /// An invocation's call isn't the next number.
    CallOutOfTurn = 6,
    /// An invocation by a client with a pending call.
    ClientBusy = 7,
    /// A note or a response for a call that isn't pending.
    CallNotPending = 8,
    /// A write's response with a value, or a read's without one.
    WrongKind = 9,
    /// A second note for a call.
    NoteTwice = 10,
    /// More than 65,536 bytes, the line's end not counted.
    TooLong = 11,
    /// The 1,000,001st call.
    TooManyCalls = 12,
    /// An invocation in a hall that isn't its key's.
    KeyInAnotherHall = 15,
}

impl LineFault {
    /// The fault's number, 1 to 12, or 15.
    pub fn number(self) -> u8
        ensures { result ≡ line_fault_number self }
    {
        FaultNumbers::number(self)
    }

    /// The fault's text, as programs print it.
    pub fn text(self) -> &'static str
        ensures { result.now ≡ line_fault_text self }
    {
        FaultNumbers::text(self)
    }
}

impl fmt::Display for LineFault {
    fn fmt<W: fmt::Write>(&self, f: &mut fmt::Formatter<W>) -> fmt::Result {
        write!(f, "{}", self.text())
    }
}

/// What is wrong with a file, or with its reading.
pub type FaultKind = counted_devices::FaultKind<LineFault>;

/// What is wrong with a file, and the number of the line, from 1, that has the fault or was under
/// way when it came.
pub type FileFault = ReadFault<LineFault>;

/// Why the judgement of a line stopped: the line has a fault, or an allocation was refused.
pub type Stop = counted_devices::Stop<LineFault>;

impl FaultNumbers for LineFault {
    ghost number = { line_fault_number };

    ghost text = { line_fault_text };

    ghost title = { codes "fault" };

    ghost DEVICE = { 13 };

    ghost MEMORY = { 14 };

    const DEVICE: u8 = 13;

    const MEMORY: u8 = 14;

    fn number(self) -> u8 {
        self as u8
    }

    fn title() -> &'static str {
        "fault"
    }

    fn text(self) -> &'static str {
        match self {
            LineFault::NotJson => "not JSON",
            LineFault::NoHeader => "no header",
            LineFault::Version => "version",
            LineFault::Member => "member",
            LineFault::Range => "range",
            LineFault::CallOutOfTurn => "call out of turn",
            LineFault::ClientBusy => "client busy",
            LineFault::CallNotPending => "call not pending",
            LineFault::WrongKind => "response of the wrong kind",
            LineFault::NoteTwice => "note twice",
            LineFault::TooLong => "line too long",
            LineFault::TooManyCalls => "too many calls",
            LineFault::KeyInAnotherHall => "key in another hall",
        }
    }
}
