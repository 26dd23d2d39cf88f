//! Faults of writing.
ghost use Rattle.std.specs.Prelude.{◌≡◌};
ghost use Rattle.counted_devices.specs.declared.write_fault.WriteFault.{WriteFault};
ghost use Rattle.counted_devices.specs.Numbers.{write_fault_number};

use tag::Memory;
use thiserror::Error;

/// Why a text didn't go out whole.
#[derive(Clone, Copy, Debug, PartialEq, Eq, Error)]
pub enum WriteFault {
    /// The writer failed.
    #[error("device")]
    Device = 13,
    /// An allocation was refused.
    #[error("memory")]
    Memory = 14,
}

impl WriteFault {
    /// The fault's number, 13 or 14.
    pub fn number(self) -> u8
        ensures { result ≡ write_fault_number self }
    {
        self as u8
    }
}

impl From<Memory> for WriteFault {
    ghost from_gives = { λ _ e. e ≡ WriteFault.Memory };

    fn from(_: Memory) -> WriteFault {
        WriteFault::Memory
    }
}
