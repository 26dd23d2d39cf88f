//! Why a call isn't completed.
ghost use Rattle.std.specs.Prelude.{◌≡◌};
ghost use Rattle.world_settle.specs.Numbers.{settle_error_name, settle_error_number};

use thiserror::Error;

/// Why a pending call wasn't completed. Of all reasons that apply it is the one with the lowest
/// number, as they stand here from 1. `NoMajority`, `NotPending` and `Room` come before any step.
#[derive(Clone, Copy, Debug, PartialEq, Eq, Error)]
pub enum SettleError {
    /// The replicas that are up have fewer votes than the greater of the ask and the put quorum.
    #[error("no majority of the replicas is up")]
    NoMajority,
    /// Nobody of that name joined, or the client is idle or stopped.
    #[error("no call of the client is pending")]
    NotPending,
    /// Fewer flights are left than the steps would send.
    #[error("fewer flights are left than the call needs")]
    Room,
    /// An allocation was refused after so many steps.
    #[error("no memory after {0} steps")]
    Memory(u32),
}

impl SettleError {
    /// Its number in the order of the reasons, 1 to 4.
    pub fn number(self) -> u8
        ensures { result ≡ settle_error_number self }
    {
        match self {
            SettleError::NoMajority => 1,
            SettleError::NotPending => 2,
            SettleError::Room => 3,
            SettleError::Memory(_) => 4,
        }
    }

    /// Its name, as it stands here.
    pub fn name(self) -> &'static str
        ensures { result.now ≡ settle_error_name self }
    {
        match self {
            SettleError::NoMajority => "NoMajority",
            SettleError::NotPending => "NotPending",
            SettleError::Room => "Room",
            SettleError::Memory(_) => "Memory",
        }
    }
}
