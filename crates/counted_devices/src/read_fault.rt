//! Faults of reading.
ghost use Rattle.std.specs.Prelude.{ℕ, ◌≡◌, List};
ghost use Rattle.counted_devices.specs.declared.read_fault.Stop.{Stop};
ghost use Rattle.counted_devices.specs.FaultTexts.{kind_text};
ghost use Rattle.counted_devices.specs.Numbers.{fault_number};
ghost use Rattle.counted_devices.specs.ReadFaults.{kind_of};

use std::fmt::Display;
use tag::Memory;
use thiserror::Error;

/// How the faults of a reader are numbered and printed, by the type of its faults of lines.
pub trait FaultNumbers: Copy + Display {
    ghost number: { Self → ℕ };

    ghost text: { Self → List ℕ };

    ghost title: { List ℕ };

    ghost DEVICE: { ℕ };

    ghost MEMORY: { ℕ };

    /// The number of a reader's failure.
    const DEVICE: u8;

    /// The number of an allocation that was refused.
    const MEMORY: u8;

    /// The number of a line's fault.
    fn number(self) -> u8
        ensures { result ≡ number self };

    /// What a fault is called where it is printed, as "fault".
    fn title() -> &'static str
        ensures { result.now ≡ title };

    /// What a line's fault is called where it is printed, after its number.
    fn text(self) -> &'static str
        ensures { result.now ≡ text self };
}

/// What is wrong with what was read, or with its reading.
#[derive(Clone, Copy, Debug, PartialEq, Eq, Error)]
#[error_bound(L: Display)]
pub enum FaultKind<L> {
    /// A line has a fault.
    #[error(transparent)]
    Line(L),
    /// The reader failed.
    #[error("device")]
    Device,
    /// An allocation was refused.
    #[error("memory")]
    Memory,
}

/// What is wrong with what was read, and the number of the line, from 1, that has the fault or was
/// under way when it came.
#[derive(Clone, Copy, Debug, PartialEq, Eq, Error)]
#[error("line {line}: {} {} {kind}", L::title(), .kind.number())]
#[error_bound(L: FaultNumbers)]
pub struct ReadFault<L> {
    pub line: u64,
    pub kind: FaultKind<L>,
}

/// Why the judgement of a line stopped: the line has a fault, or an allocation was refused.
#[derive(Clone, Copy, Debug, PartialEq, Eq)]
pub enum Stop<L> {
    Fault(L),
    Memory,
}

impl<L: FaultNumbers> FaultKind<L> {
    /// The fault's number: that of the line's fault, or one of the two after the last of those.
    pub fn number(self) -> u8
        ensures { result ≡ fault_number L.number L.DEVICE L.MEMORY self }
    {
        match self {
            FaultKind::Line(fault) => fault.number(),
            FaultKind::Device => L::DEVICE,
            FaultKind::Memory => L::MEMORY,
        }
    }

    /// What the fault is called: the text of the line's fault, or `device` or `memory`.
    pub fn text(self) -> &'static str
        ensures { result.now ≡ kind_text L.text self }
    {
        match self {
            FaultKind::Line(fault) => fault.text(),
            FaultKind::Device => "device",
            FaultKind::Memory => "memory",
        }
    }
}

impl<L> ReadFault<L> {
    /// Why the judgement of that line stopped, as a fault.
    pub fn at(line: u64, stop: Stop<L>) -> ReadFault<L>
        ensures line { result.line ≡ line }
        ensures kind { result.kind ≡ kind_of stop }
    {
        let kind = match stop {
            Stop::Fault(fault) => FaultKind::Line(fault),
            Stop::Memory => FaultKind::Memory,
        };
        ReadFault { line, kind }
    }
}

impl<L> From<Memory> for Stop<L> {
    ghost from_gives = { λ _ e. e ≡ Stop.Memory };

    fn from(_: Memory) -> Stop<L> {
        Stop::Memory
    }
}
