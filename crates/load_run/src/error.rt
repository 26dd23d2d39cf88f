//! Why a load wasn't run to its end.
ghost use Rattle.std.specs.Prelude.{◌≡◌};
ghost use Rattle.load_run.specs.LoadErrors.{error_of_join, error_of_start};
ghost use Rattle.load_run.specs.declared.error.LoadError.{LoadError};

use node_threads::{JoinError, StartError};
use tag::Memory;
use thiserror::Error;

/// Why a load wasn't run to its end.
#[derive(Clone, Copy, Debug, PartialEq, Eq, Error)]
pub enum LoadError {
    /// An allocation failed.
    #[error("memory")]
    Memory,
    /// A thread couldn't be started.
    #[error("thread")]
    Thread,
    /// A caller's name had joined before. A store that was just started has none.
    #[error("client taken")]
    ClientTaken,
}

impl From<StartError> for LoadError {
    ghost from_gives = { λ error e. e ≡ error_of_start error };

    fn from(error: StartError) -> LoadError {
        match error {
            StartError::Memory => LoadError::Memory,
            StartError::Thread => LoadError::Thread,
        }
    }
}

impl From<JoinError> for LoadError {
    ghost from_gives = { λ error e. e ≡ error_of_join error };

    fn from(error: JoinError) -> LoadError {
        match error {
            JoinError::ClientTaken => LoadError::ClientTaken,
            JoinError::Memory => LoadError::Memory,
        }
    }
}

impl From<Memory> for LoadError {
    ghost from_gives = { λ _ e. e ≡ LoadError.Memory };

    fn from(_: Memory) -> LoadError {
        LoadError::Memory
    }
}
