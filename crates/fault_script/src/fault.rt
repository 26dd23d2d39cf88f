//! Faults of scripts.
ghost use Rattle.std.specs.Prelude.{◌≡◌, codes};
ghost use Rattle.fault_script.specs.Numbers.{line_fault_number, line_fault_text};

use counted_devices::{FaultKind, FaultNumbers, ReadFault};
use std::fmt;
use thiserror::Error;

/// What is wrong with a line. Of several the first that is tested is named: `TooLong`, `NotUtf8`,
/// `TooManyCommands`, then `NoReplicas`, `UnknownCommand` and `Range`.
#[derive(Clone, Copy, Debug, PartialEq, Eq, Error)]
pub enum LineFault {
    /// The line isn't UTF-8.
    NotUtf8 = 1,
    /// The first command isn't `replicas`, or there is no command.
    NoReplicas = 2,
    /// The line is no form of a command, a line of the configuration stands where it may not, or a
    /// word that should be a number has other than digits.
    UnknownCommand = 3,
    /// A number, key or value is outside its range.
    Range = 4,
    /// More than 65,536 bytes, the line's end not counted.
    TooLong = 5,
    /// The 1,000,001st command.
    TooManyCommands = 6,
}

impl LineFault {
    /// The fault's number, 1 to 6.
    pub fn number(self) -> u8
        ensures { result ≡ line_fault_number self }
    {
        FaultNumbers::number(self)
    }

    /// The fault's text, as programs print it.
    pub fn text(self) -> &'static str
        ensures { result.now ≡ line_fault_text self }
    {
        FaultNumbers::text(self)
    }
}

impl fmt::Display for LineFault {
    fn fmt<W: fmt::Write>(&self, f: &mut fmt::Formatter<W>) -> fmt::Result {
        write!(f, "{}", self.text())
    }
}

/// What is wrong with a script, or with its reading.
pub type ErrorKind = FaultKind<LineFault>;

/// What is wrong with a script, and the number of the line, from 1, that has the fault or was under
/// way when it came.
pub type ScriptError = ReadFault<LineFault>;

/// Why the reading of a line stopped: the line has a fault, or an allocation was refused.
pub type Stop = counted_devices::Stop<LineFault>;

impl FaultNumbers for LineFault {
    ghost number = { line_fault_number };

    ghost text = { line_fault_text };

    ghost title = { codes "script fault" };

    ghost DEVICE = { 7 };

    ghost MEMORY = { 8 };

    const DEVICE: u8 = 7;

    const MEMORY: u8 = 8;

    fn number(self) -> u8 {
        self as u8
    }

    fn title() -> &'static str {
        "script fault"
    }

    fn text(self) -> &'static str {
        match self {
            LineFault::NotUtf8 => "not UTF-8",
            LineFault::NoReplicas => "no replicas",
            LineFault::UnknownCommand => "unknown command",
            LineFault::Range => "range",
            LineFault::TooLong => "line too long",
            LineFault::TooManyCommands => "too many commands",
        }
    }
}
