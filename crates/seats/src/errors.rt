//! Why a call has no answer.
ghost use Rattle.std.specs.Prelude.{◌≡◌};
ghost use Rattle.seats.specs.declared.errors.CallError.{CallError};
ghost use Rattle.seats.specs.Numbers.{call_error_name, call_error_number};

use std::alloc::AllocError;
use tag::Memory;
use thiserror::Error;

/// Why a call has no answer.
#[derive(Clone, Copy, Debug, PartialEq, Eq, Error)]
pub enum CallError {
    /// The rounds of a phase ran out. The client is stopped in that hall, the call is pending and in the
    /// log, and the seat is spent.
    #[error("unavailable")]
    Unavailable = 1,
    /// The seat is spent. All is as before.
    #[error("seat spent")]
    SeatSpent = 2,
    /// The seat is another store's, or has seen more than this store has. All is as before.
    #[error("foreign")]
    Foreign = 3,
    /// As many calls were invoked, or as many messages sent, as may be. Before the call began all is as
    /// before; later it is as after `Unavailable`.
    #[error("full")]
    Full = 4,
    /// An allocation failed. Before the call began all is as before; later it is as after `Unavailable`.
    #[error("memory")]
    Memory = 5,
}

impl CallError {
    /// Its number in the order of the reasons, 1 to 5.
    pub fn number(self) -> u8
        ensures { result ≡ call_error_number self }
    {
        self as u8
    }

    /// Its name, as it stands here.
    pub fn name(self) -> &'static str
        ensures { result.now ≡ call_error_name self }
    {
        match self {
            CallError::Unavailable => "Unavailable",
            CallError::SeatSpent => "SeatSpent",
            CallError::Foreign => "Foreign",
            CallError::Full => "Full",
            CallError::Memory => "Memory",
        }
    }
}

impl From<AllocError> for CallError {
    ghost from_gives = { λ _ e. e ≡ CallError.Memory };

    fn from(_: AllocError) -> CallError {
        CallError::Memory
    }
}

impl From<Memory> for CallError {
    ghost from_gives = { λ _ e. e ≡ CallError.Memory };

    fn from(_: Memory) -> CallError {
        CallError::Memory
    }
}
