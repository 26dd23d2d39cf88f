//! Rows of a history, and why one may be refused.
ghost use Rattle.std.specs.Prelude.{◌≡◌};
ghost use Rattle.recorder.specs.declared.row.RowRefusal.{RowRefusal};
ghost use Rattle.recorder.specs.Numbers.{row_refusal_number};

use crate::refs::{ActionRef, KeyRef, ReturnedRef};
use std::alloc::AllocFailed;
use tag::{ClientId, Memory, OpId, Tag};
use thiserror::Error;

/// A row of a history.
#[derive(Debug, Drop, PartialEq)]
pub enum Row<'h> {
    /// A client begins a call on a key.
    Invoke {
        op: OpId,
        client: ClientId,
        key: KeyRef<'h>,
        action: ActionRef<'h>,
    },
    /// A call's tag is fixed.
    Note {
        op: OpId,
        tag: Tag,
    },
    /// A call is answered.
    Respond {
        op: OpId,
        returned: ReturnedRef<'h>,
    },
}

/// Why a row was refused: of all reasons that apply the first in this list.
#[derive(Clone, Copy, Debug, PartialEq, Eq, Error)]
pub enum RowRefusal {
    #[error("the history has all the calls that it may have")]
    OpsFull = 1,
    #[error("the client has a call without a response")]
    ClientBusy = 2,
    #[error("the call isn't pending: it never began, or it has its response")]
    NotPending = 3,
    #[error("the answer isn't of the call's kind: a write is answered `written`, a read a value or none")]
    WrongKind = 4,
    #[error("the call has a note already")]
    NoteTwice = 5,
    #[error("no memory")]
    Memory = 6,
}

impl RowRefusal {
    /// Its number in the order of the reasons, 1 to 6.
    pub fn number(self) -> u8
        ensures { result ≡ row_refusal_number self }
    {
        self as u8
    }
}

impl From<Memory> for RowRefusal {
    ghost from_gives = { λ _ e. e ≡ RowRefusal.Memory };

    fn from(_: Memory) -> RowRefusal {
        RowRefusal::Memory
    }
}

impl<T: Drop> From<AllocFailed<T>> for RowRefusal {
    ghost from_gives = { λ _ e. e ≡ RowRefusal.Memory };

    fn from(_: AllocFailed<T>) -> RowRefusal {
        RowRefusal::Memory
    }
}
