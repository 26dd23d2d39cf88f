//! The asking phase.
ghost use Rattle.std.specs.Prelude.{◌≡◌, Option, List, ℕ, IfOk, if◌then◌else◌};
ghost use Rattle.std.specs.FinSet as finite;
ghost use Rattle.std.specs.Cmp.{and_per, on_per};
ghost use Rattle.std.specs.Ordering.{eq_of_both, is_lt, on};
ghost use Rattle.tag.specs.Tags.{tag_cmp};
ghost use Rattle.tag.specs.contracts.tags.TagPartialEq.TheImpl.Laws as tag;
ghost use Rattle.quorum.specs.contracts.sets.ReplicaSetPartialEq.TheImpl.Laws as set;
ghost use Rattle.replica.specs.contracts.pairs.PairPartialEq.TheImpl.Laws as pair;
ghost use Rattle.client_phases.specs.contracts.calls.CallPartialEq.TheImpl.Laws as call;
ghost use Rattle.client_phases.specs.Asking.{LeavesRoom, opening_of, asking_with, asking_from, query_of};
ghost use Rattle.client_phases.specs.declared.calls.Call.{Call};

use crate::calls::Call;
use quorum::ReplicaSet;
use replica::{Pair, Request};
use std::marker::Model;
use tag::{Memory, ReplicaId, Tag, Value};

/// The set with a further replica.
pub(crate) fn with_replica(mut counted: ReplicaSet, replica: ReplicaId) -> ReplicaSet
    ensures { result ≡ finite.insert counted replica }
{
    counted.add(replica);
    counted
}

/// The replicas that an asking has counted, and the greatest and the least tag that they told.
#[derive(Clone, Copy, Debug, PartialEq, Eq)]
pub struct Tally {
    pub counted: ReplicaSet,
    pub best: Tag,
    pub least: Tag,
}

impl Tally {
    /// The tally with a further replica that told this tag.
    pub(crate) fn with(self, replica: ReplicaId, tag: Tag) -> Tally
        ensures { (call : Call) (found value : Option (List ℕ))
            → asking_with (asking_from call self found) replica
            (record { tag = tag; value = value })
            ≡ asking_from call result
            (if is_lt (tag_cmp self.best tag) then value else found) }
    {
        let is_least = self.counted.count() == 0 || tag < self.least;
        Tally {
            counted: with_replica(self.counted, replica),
            best: if self.best < tag { tag } else { self.best },
            least: if is_least { tag } else { self.least },
        }
    }
}

/// An asking: its call, what it counted, and the value of the greatest tag.
#[derive(Debug, Drop)]
pub struct Asking {
    pub call: Call,
    pub tally: Tally,
    pub found: Option<Value>,
}

impl Model for Asking {
    ghost use Rattle.std.specs.Coded.{codes};
    ghost use Rattle.quorum.specs.Sets.{replicas_code};
    ghost use Rattle.client_phases.specs.Asking.{Asking, LeavesRoom, asking_from};

    ghost Value = { Asking };

    ghost coded = { Prim.hlevel (codes, replicas_code) };

    ghost view = { λ a. asking_from a.call a.tally a.found };

    ghost invariant = { λ a. LeavesRoom a.call.action a.tally.best };
}

impl PartialEq for Asking {
    ghost eq = { eq_of_both (on (λ a. a.call) ⟦<Call as PartialEq>⟧.eq)
        (eq_of_both (on (λ a. a.counted) ⟦<ReplicaSet as PartialEq>⟧.eq)
        (eq_of_both (on (λ a. a.best) ⟦<Pair as PartialEq>⟧.eq)
        (on (λ a. a.least) ⟦<Tag as PartialEq>⟧.eq))) };

    ghost laws = { and_per (on_per (λ a. a.call) call.laws-law) (and_per (on_per (λ a. a.counted)
        set.laws-law) (and_per (on_per (λ a. a.best) pair.laws-law)
        (on_per (λ a. a.least) tag.laws-law))) };

    fn eq(&self, other: &Asking) -> bool {
        self.call == other.call
            && self.tally.counted == other.tally.counted
            && (self.tally.best == other.tally.best && self.found == other.found)
            && self.tally.least == other.tally.least
    }
}

impl Asking {
    /// The asking of a call that has counted nobody.
    pub(crate) fn new(call: Call) -> Asking
        ensures { result ≡ opening_of call }
    {
        Asking {
            call,
            tally: Tally {
                counted: ReplicaSet::empty(),
                best: Tag::least(),
                least: Tag::least(),
            },
            found: None,
        }
    }

    /// The asking with a further replica that told this pair.
    pub(crate) fn with(self, replica: ReplicaId, pair: Pair) -> Asking
        requires { LeavesRoom self.call.action pair.tag }
        ensures { result ≡ asking_with self replica pair }
    {
        let Asking { call, tally, found } = self;
        let Pair { tag, value } = pair;
        let found = if tally.best < tag { value } else { found };
        Asking {
            call,
            tally: tally.with(replica, tag),
            found,
        }
    }

    /// What it asks of replicas.
    pub(crate) fn request(&self) -> Result<Request, Memory>
        ensures { IfOk result (λ request. request ≡ query_of self.now) }
    {
        Ok(Request::Query {
            op: self.call.op,
            key: self.call.key.copy()?,
        })
    }
}
