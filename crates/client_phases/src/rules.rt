//! What a client goes by: its name, the quorums, and whether a read may leave out its write-back.
ghost use Rattle.std.specs.Prelude.{◌≡◌, Option, List, ℕ};
ghost use Rattle.client_phases.specs.Asking.{LeavesRoom, counts, asking_from, is_agreed};
ghost use Rattle.client_phases.specs.States.{asking_outcome};

use crate::Taken;
use crate::asking::Tally;
use crate::calls::Call;
use quorum::{Quorums, ReplicaSet};
use tag::{Action, ClientId, OpId, ReplicaId};

/// Whether a read always puts the pair that it found.
#[derive(Clone, Copy, Debug, PartialEq, Eq)]
pub enum ReadMode {
    /// It does.
    Full,
    /// It doesn't if all replies that it counted carried one tag and came from a put quorum.
    Short,
}

/// A client's name, the quorums, and how it reads.
#[derive(Clone, Copy, Debug, PartialEq, Eq)]
pub struct Rules {
    pub name: ClientId,
    pub quorums: Quorums,
    pub reads: ReadMode,
}

impl Rules {
    /// Whether a reply to a call counts, beside those of the replicas that are counted.
    pub(crate) fn counts(
        &self,
        call: &Call,
        counted: &ReplicaSet,
        op: OpId,
        replica: ReplicaId,
    ) -> bool
        ensures { result ≡ counts self.now call.now counted.now op replica }
    {
        op == call.op && !counted.contains(replica) && replica.get() < self.quorums.replicas()
    }

    /// Whether a read puts nothing: it reads short, and a put quorum holds the pair already.
    fn is_agreed(&self, call: &Call, tally: &Tally) -> bool
        ensures { (found : Option (List ℕ))
            → result ≡ is_agreed self.now (asking_from call.now tally.now found) }
    {
        match (self.reads, &call.action) {
            (ReadMode::Short, Action::Read) => {
                tally.least == tally.best && self.quorums.is_put(&tally.counted)
            }
            _ => false,
        }
    }

    /// What an asking comes to.
    pub(crate) fn outcome(&self, call: &Call, tally: &Tally) -> Taken
        requires { LeavesRoom call.now.action tally.now.best }
        ensures { (found : Option (List ℕ))
            → result ≡ (asking_outcome self.now (asking_from call.now tally.now found)).1 }
    {
        if !self.quorums.is_ask(&tally.counted) {
            return Taken::Counted;
        }
        if self.is_agreed(call, tally) {
            return Taken::Agreed(tally.best);
        }
        match &call.action {
            Action::Read => Taken::Noted(tally.best),
            Action::Write(_) => Taken::Noted(tally.best.next(self.name)),
        }
    }
}
