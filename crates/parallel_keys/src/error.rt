//! Why orders weren't checked.
ghost use Rattle.std.specs.Prelude.{◌≡◌};
ghost use Rattle.parallel_keys.specs.declared.error.CheckError.{CheckError};
ghost use Rattle.parallel_keys.specs.Numbers.{check_error_number};

use std::alloc::AllocFailed;
use std::thread::SpawnError;
use tag::Memory;
use thiserror::Error;

/// Why the orders of keys weren't checked.
#[derive(Clone, Copy, Debug, PartialEq, Eq, Error)]
pub enum CheckError {
    /// An allocation was refused.
    #[error("no memory")]
    Memory = 1,
    /// A thread couldn't be started.
    #[error("no thread could be started")]
    Thread = 2,
}

impl CheckError {
    /// Its number in the order of the reasons, 1 or 2.
    pub fn number(self) -> u8
        ensures { result ≡ check_error_number self }
    {
        self as u8
    }
}

impl From<Memory> for CheckError {
    ghost from_gives = { λ _ e. e ≡ CheckError.Memory };

    fn from(_: Memory) -> CheckError {
        CheckError::Memory
    }
}

impl<T: Drop> From<AllocFailed<T>> for CheckError {
    ghost from_gives = { λ _ e. e ≡ CheckError.Memory };

    fn from(_: AllocFailed<T>) -> CheckError {
        CheckError::Memory
    }
}

impl<F: Drop> From<SpawnError<F>> for CheckError {
    ghost from_gives = { λ _ e. e ≡ CheckError.Thread };

    fn from(_: SpawnError<F>) -> CheckError {
        CheckError::Thread
    }
}
