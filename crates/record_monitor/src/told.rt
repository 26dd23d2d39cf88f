//! The calls that show why a key was refused.
ghost use Rattle.std.specs.Prelude.{◌≡◌, MatchBool};
ghost use Rattle.record_monitor.specs.Told.{ToldPrecedes};
ghost use Rattle.record_monitor.specs.KeyCalls.{is_ended_at};

use tag::{ClientId, OpId, Tag};

/// A note: the place of its row, and the tag.
#[derive(Clone, Copy, Debug, Drop, PartialEq, Eq)]
pub struct ToldNote {
    pub place: u64,
    pub tag: Tag,
}

/// A call, as it is told.
#[derive(Clone, Copy, Debug, Drop, PartialEq, Eq)]
pub struct ToldCall {
    pub op: OpId,
    pub client: ClientId,
    pub is_write: bool,
    /// The place of the row that begins it.
    pub begun: u64,
    /// Its note, if it had one by then.
    pub noted: Option<ToldNote>,
    /// The place of its response, if it had one by then.
    pub answered: Option<u64>,
}

/// A family of two that have to precede each other: its write, and those of its calls that show it.
#[derive(Debug, Drop)]
pub struct ToldSide {
    pub write: ToldCall,
    /// It precedes the call of the other family that began last.
    pub first_ended: ToldCall,
    /// The call of the other family that ended first precedes it.
    pub last_begun: ToldCall,
    /// What its write writes.
    pub value: String,
}

/// Why no order has the answer of a read: the calls that show it.
#[derive(Debug, Drop)]
pub enum Told {
    /// The read answers the value, but no write of it is kept: none began, or each was overwritten and forgotten.
    NoWrite {
        read: ToldCall,
        value: String,
    },
    /// The read answers nothing, and began after the earlier call had ended, which writes the value or answers it.
    LateNothing {
        read: ToldCall,
        earlier: ToldCall,
        value: String,
    },
    /// Each of the two families has a call that precedes one of the other. The read is of the first.
    Opposed {
        one: ToldSide,
        other: ToldSide,
    },
    /// The read answers the value. Each kept write of it was overwritten before the read began: these are two of them.
    AllOverwritten {
        read: ToldCall,
        value: String,
        first: OpId,
        second: OpId,
    },
}

impl ToldCall {
    /// Whether it was answered before the other call began.
    pub(crate) fn precedes(&self, later: &ToldCall) -> bool
        ensures { MatchBool result (ToldPrecedes self.now later.now) (ToldPrecedes self.now later.now → ⊥) }
    {
        match self.answered {
            Some(place) => place < later.begun,
            None => false,
        }
    }

    /// Whether it was answered at that place.
    pub(crate) fn is_ended_at(&self, end: u64) -> bool
        ensures { result ≡ is_ended_at end self.now }
    {
        match self.answered {
            Some(place) => place == end,
            None => false,
        }
    }
}
