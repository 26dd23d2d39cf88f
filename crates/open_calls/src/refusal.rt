//! Why a row of a call is refused.
ghost use Rattle.std.specs.Prelude.{◌≡◌};
ghost use Rattle.open_calls.specs.declared.refusal.CallRefusal.{CallRefusal};

use tag::Memory;
use thiserror::Error;

/// Why a row was refused: of all reasons that apply the first in this list.
#[derive(Clone, Copy, Debug, PartialEq, Eq, Error)]
pub enum CallRefusal {
    #[error("the call's number isn't the next one")]
    OutOfTurn = 1,
    #[error("the client has a call without a response")]
    ClientBusy = 2,
    #[error("the call isn't pending: it never began, or it has its response")]
    NotPending = 3,
    #[error("the answer isn't of the call's kind: a write is answered `written`, a read a value or none")]
    WrongKind = 4,
    #[error("the call has a note already")]
    NoteTwice = 5,
    #[error("no memory")]
    Memory = 6,
}

impl From<Memory> for CallRefusal {
    ghost from_gives = { λ _ e. e ≡ CallRefusal.Memory };

    fn from(_: Memory) -> CallRefusal {
        CallRefusal::Memory
    }
}
