//! Why a run ends early.
use std::alloc::{AllocError, AllocFailed};
use tag::{Memory, NameError};

/// An allocation was refused; there isn't what there has to be: a name, quorums, limits, a replica, a client, a
/// client's call, a message, a call's client or a tag; or the worlds don't answer the same.
#[derive(Clone, Copy)]
pub enum Stop {
    Memory,
    Name,
    Quorums,
    Limits,
    Replica,
    Client,
    Call,
    Flight,
    Caller,
    Tag,
    Differs,
}

impl Stop {
    /// The words that say so.
    pub fn words(self) -> &'static str {
        match self {
            Stop::Memory => "NO MEMORY",
            Stop::Name => "a name is missing",
            Stop::Quorums => "the quorums are missing",
            Stop::Limits => "the limits are missing",
            Stop::Replica => "a replica is missing",
            Stop::Client => "a client is missing",
            Stop::Call => "a client's call is missing",
            Stop::Flight => "a message is missing",
            Stop::Caller => "a call's client is missing",
            Stop::Tag => "a tag is missing",
            Stop::Differs => "the worlds differ",
        }
    }
}

impl From<Memory> for Stop {
    fn from(_: Memory) -> Stop {
        Stop::Memory
    }
}

impl From<AllocError> for Stop {
    fn from(_: AllocError) -> Stop {
        Stop::Memory
    }
}

impl<T: Drop> From<AllocFailed<T>> for Stop {
    fn from(_: AllocFailed<T>) -> Stop {
        Stop::Memory
    }
}

impl From<NameError> for Stop {
    fn from(error: NameError) -> Stop {
        match error {
            NameError::Memory => Stop::Memory,
            _ => Stop::Name,
        }
    }
}
