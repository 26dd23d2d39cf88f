//! What may happen to a parcel, and at which points a program is asked.
ghost use Rattle.std.specs.Prelude.{◌≡◌};

use std::alloc::Global;
use tag::{OpId, ReplicaId};

/// A point at which a call asks the gate.
#[derive(Clone, Copy, Debug, PartialEq, Eq)]
pub enum Place {
    /// A request of the call was sent to the replica, and isn't posted yet. On the caller's thread.
    Request {
        hall: u8,
        call: OpId,
        replica: ReplicaId,
    },
    /// The replica made its reply, and didn't report it yet. On the replica's thread.
    Reply {
        hall: u8,
        call: OpId,
        replica: ReplicaId,
    },
    /// The call is ready, and isn't answered yet. On the caller's thread. What the gate says here
    /// doesn't count.
    Respond {
        hall: u8,
        call: OpId,
    },
}

/// What becomes of a parcel.
#[derive(Clone, Copy, Debug, Drop, PartialEq, Eq)]
pub enum Pass {
    /// It goes on.
    Go,
    /// It is lost.
    Drop,
    /// It goes on twice.
    Twice,
}

/// Is asked at each point of a call. No lock is held meanwhile.
pub trait Gate {
    ghost use Rattle.seats.specs.declared.gate.Pass.{Pass};
    ghost use Rattle.seats.specs.declared.gate.Place.{Place};

    // What it may answer at a place.
    ghost answers: { Self → Place → Pass → Type 0 };

    /// What becomes of the parcel there.
    fn at(&self, place: &Place) -> Pass
        ensures { answers self.now place.now result };
}

/// Lets each parcel go on.
#[derive(Clone, Copy, Debug, Drop)]
pub struct OpenGate;

impl Gate for OpenGate {
    ghost use Rattle.seats.specs.declared.gate.Pass.TheVariants.{Go};

    ghost answers = { λ gate place pass. pass ≡ Go };

    fn at(&self, place: &Place) -> Pass {
        Pass::Go
    }
}
