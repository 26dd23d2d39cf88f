//! Why a part has no tag order.
ghost use Rattle.std.specs.Prelude.{◌≡◌};
ghost use Rattle.witness_order.specs.declared.error.WitnessError.{WitnessError};
ghost use Rattle.witness_order.specs.Numbers.{witness_error_number};

use std::alloc::{AllocError, AllocFailed};
use tag::OpId;
use thiserror::Error;

/// Why there is no tag order.
#[derive(Clone, Copy, Debug, PartialEq, Eq, Error)]
pub enum WitnessError {
    /// The completed call has no note, and no completed call of a lower number lacks one.
    #[error("no note for call {}", .0.0)]
    NoNote(OpId),
    #[error("no memory")]
    Memory,
}

impl WitnessError {
    /// Its number in the order of the reasons, 1 or 2.
    pub fn number(self) -> u8
        ensures { result ≡ witness_error_number self }
    {
        match self {
            WitnessError::NoNote(_) => 1,
            WitnessError::Memory => 2,
        }
    }
}

impl<T: Drop> From<AllocFailed<T>> for WitnessError {
    ghost from_gives = { λ _ e. e ≡ WitnessError.Memory };

    fn from(_: AllocFailed<T>) -> WitnessError {
        WitnessError::Memory
    }
}

impl From<AllocError> for WitnessError {
    ghost from_gives = { λ _ e. e ≡ WitnessError.Memory };

    fn from(_: AllocError) -> WitnessError {
        WitnessError::Memory
    }
}
