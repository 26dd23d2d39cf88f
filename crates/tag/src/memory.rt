//! Want of memory.
use std::alloc::{AllocError, AllocFailed};
use thiserror::Error;

/// An allocation was refused: the allocator had no room. Nothing else is ever answered by it.
#[derive(Clone, Copy, Debug, PartialEq, Eq, Error)]
#[error("no memory")]
pub struct Memory;

impl From<AllocError> for Memory {
    fn from(_: AllocError) -> Memory {
        Memory
    }
}

impl<T: Drop> From<AllocFailed<T>> for Memory {
    fn from(_: AllocFailed<T>) -> Memory {
        Memory
    }
}
