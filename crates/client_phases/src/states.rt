//! A client's state, and how a reply changes it.
ghost use Rattle.std.specs.Prelude.{◌≡◌, true};
ghost use Rattle.client_phases.specs.Asking.{counts, asking_with};
ghost use Rattle.client_phases.specs.States.{asking_outcome, reply_outcome, putting_outcome, MayReceiveIn};

use crate::Taken;
use crate::asking::{Asking, with_replica};
use crate::calls::Chosen;
use crate::rules::Rules;
use quorum::ReplicaSet;
use replica::{Pair, Reply};

/// Where a client stands, with all that belongs to it.
#[derive(Debug, Drop, PartialEq)]
pub enum State {
    Idle,
    Ask(Asking),
    Put { chosen: Chosen, counted: ReplicaSet },
    Ready(Chosen),
    Stopped,
}

impl Rules {
    /// What an asking comes to.
    pub(crate) fn end_asking(&self, asking: Asking) -> (State, Taken)
        ensures { result ≡ asking_outcome self.now asking }
    {
        let taken = self.outcome(&asking.call, &asking.tally);
        let state = match taken {
            Taken::Noted(tag) => State::Put {
                chosen: Chosen {
                    call: asking.call,
                    tag,
                    found: asking.found,
                },
                counted: ReplicaSet::empty(),
            },
            Taken::Agreed(tag) => State::Ready(Chosen {
                call: asking.call,
                tag,
                found: asking.found,
            }),
            _ => State::Ask(asking),
        };
        (state, taken)
    }

    /// What a putting comes to.
    pub(crate) fn end_putting(&self, chosen: Chosen, counted: ReplicaSet) -> (State, Taken)
        ensures { result ≡ putting_outcome self.now chosen counted }
    {
        if self.quorums.is_put(&counted) {
            (State::Ready(chosen), Taken::Ready)
        } else {
            (State::Put { chosen, counted }, Taken::Counted)
        }
    }

    /// The state after a reply, and what came of it.
    pub(crate) fn hear(&self, state: State, reply: Reply) -> (State, Taken)
        requires { MayReceiveIn self.now state reply }
        ensures { result ≡ reply_outcome self.now state reply }
    {
        match (state, reply) {
            (
                State::Ask(asking),
                Reply::Held {
                    op,
                    replica,
                    tag,
                    value,
                },
            ) => {
                if self.counts(&asking.call, &asking.tally.counted, op, replica) {
                    self.end_asking(asking.with(replica, Pair { tag, value }))
                } else {
                    (State::Ask(asking), Taken::Stale)
                }
            }
            (State::Put { chosen, counted }, Reply::Kept { op, replica }) => {
                if self.counts(&chosen.call, &counted, op, replica) {
                    self.end_putting(chosen, with_replica(counted, replica))
                } else {
                    (State::Put { chosen, counted }, Taken::Stale)
                }
            }
            (state, _) => (state, Taken::Stale),
        }
    }

    /// What would come of a reply.
    pub(crate) fn foresee(&self, state: &State, reply: &Reply) -> Taken
        requires { MayReceiveIn self.now state.now reply.now }
        ensures { result ≡ (reply_outcome self.now state.now reply.now).1 }
    {
        match (state, reply) {
            (
                State::Ask(asking),
                Reply::Held {
                    op,
                    replica,
                    tag,
                    ..
                },
            ) if self.counts(&asking.call, &asking.tally.counted, *op, *replica) => {
                self.outcome(&asking.call, &asking.tally.with(*replica, *tag))
            }
            (State::Put { chosen, counted }, Reply::Kept { op, replica })
                if self.counts(&chosen.call, counted, *op, *replica) => {
                if self.quorums.is_put(&with_replica(*counted, *replica)) {
                    Taken::Ready
                } else {
                    Taken::Counted
                }
            }
            _ => Taken::Stale,
        }
    }
}
