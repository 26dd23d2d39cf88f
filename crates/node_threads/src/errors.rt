//! Why a store isn't started or joined, or leaves nothing.
ghost use Rattle.std.specs.Prelude.{◌≡◌};
ghost use Rattle.node_threads.specs.declared.errors.CloseError.{CloseError};
ghost use Rattle.node_threads.specs.declared.errors.JoinError.{JoinError};
ghost use Rattle.node_threads.specs.declared.errors.StartError.{StartError};
ghost use Rattle.node_threads.specs.Joins.{join_error_of};
ghost use Rattle.node_threads.specs.Numbers.{close_error_name, close_error_number};
ghost use Rattle.node_threads.specs.Numbers.{join_error_number, start_error_number};

use std::alloc::{AllocError, AllocFailed};
use tag::Memory;
use thiserror::Error;
use world_steps::Refusal;

/// Why a store couldn't be started.
#[derive(Clone, Copy, Debug, PartialEq, Eq, Error)]
pub enum StartError {
    /// An allocation failed.
    #[error("memory")]
    Memory = 1,
    /// A thread couldn't be started.
    #[error("thread")]
    Thread = 2,
}

impl StartError {
    /// Its number in the order of the reasons, 1 or 2.
    pub fn number(self) -> u8
        ensures { result ≡ start_error_number self }
    {
        self as u8
    }
}

/// Why a client has no seat.
#[derive(Clone, Copy, Debug, PartialEq, Eq, Error)]
pub enum JoinError {
    /// The name joined before, in some hall.
    #[error("client taken")]
    ClientTaken = 1,
    /// An allocation failed.
    #[error("memory")]
    Memory = 2,
}

impl JoinError {
    /// Its number in the order of the reasons, 1 or 2.
    pub fn number(self) -> u8
        ensures { result ≡ join_error_number self }
    {
        self as u8
    }
}

/// Why a closed store leaves nothing.
#[derive(Clone, Copy, Debug, PartialEq, Eq, Error)]
pub enum CloseError {
    /// A seat is another store's, or has other calls in its log than a hall's record.
    #[error("seat mismatch")]
    SeatMismatch = 1,
    /// An allocation failed.
    #[error("memory")]
    Memory = 2,
}

impl CloseError {
    /// Its number in the order of the reasons, 1 or 2.
    pub fn number(self) -> u8
        ensures { result ≡ close_error_number self }
    {
        self as u8
    }

    /// Its name, as it stands here.
    pub fn name(self) -> &'static str
        ensures { result.now ≡ close_error_name self }
    {
        match self {
            CloseError::SeatMismatch => "SeatMismatch",
            CloseError::Memory => "Memory",
        }
    }
}

impl From<AllocError> for JoinError {
    ghost from_gives = { λ _ e. e ≡ JoinError.Memory };

    fn from(_: AllocError) -> JoinError {
        JoinError::Memory
    }
}

impl From<Memory> for JoinError {
    ghost from_gives = { λ _ e. e ≡ JoinError.Memory };

    fn from(_: Memory) -> JoinError {
        JoinError::Memory
    }
}

impl<T: Drop> From<AllocFailed<T>> for JoinError {
    ghost from_gives = { λ _ e. e ≡ JoinError.Memory };

    fn from(_: AllocFailed<T>) -> JoinError {
        JoinError::Memory
    }
}

impl From<Refusal> for JoinError {
    ghost from_gives = { λ why e. e ≡ join_error_of why };

    fn from(refusal: Refusal) -> JoinError {
        match refusal {
            Refusal::Memory => JoinError::Memory,
            _ => JoinError::ClientTaken,
        }
    }
}

impl From<Memory> for CloseError {
    ghost from_gives = { λ _ e. e ≡ CloseError.Memory };

    fn from(_: Memory) -> CloseError {
        CloseError::Memory
    }
}

impl From<AllocError> for StartError {
    ghost from_gives = { λ _ e. e ≡ StartError.Memory };

    fn from(_: AllocError) -> StartError {
        StartError::Memory
    }
}

impl From<Memory> for StartError {
    ghost from_gives = { λ _ e. e ≡ StartError.Memory };

    fn from(_: Memory) -> StartError {
        StartError::Memory
    }
}

impl<T: Drop> From<AllocFailed<T>> for StartError {
    ghost from_gives = { λ _ e. e ≡ StartError.Memory };

    fn from(_: AllocFailed<T>) -> StartError {
        StartError::Memory
    }
}
