//! Clients.
ghost use Rattle.std.specs.Prelude.{◌≡◌, IfOk, None, Ok, Some};
ghost use Rattle.client_phases.specs.Clients.{MayReceive, answer_of, client_after, client_of};
ghost use Rattle.client_phases.specs.Clients.{counted_by, client_after_invoke, pending_of};
ghost use Rattle.client_phases.specs.Clients.{phase_of, request_of, client_after_respond};
ghost use Rattle.client_phases.specs.Clients.{client_after_stop, reply_result};

use crate::asking::Asking;
use crate::calls::Call;
use crate::rules::{ReadMode, Rules};
use crate::states::State;
use crate::{Phase, Taken};
use quorum::{Quorums, ReplicaSet};
use replica::{Reply, Request};
use std::mem;
use tag::{Action, ClientId, Key, Memory, OpId, Returned};

/// A client: its name, the quorums, how it reads, and its phase in its call.
#[derive(Debug, Drop, PartialEq)]
pub struct Client {
    rules: Rules,
    state: State,
}

impl Client {
    /// An idle client.
    pub fn new(name: ClientId, quorums: Quorums, reads: ReadMode) -> Client
        ensures { result ≡ client_of name quorums reads }
    {
        Client {
            rules: Rules {
                name,
                quorums,
                reads,
            },
            state: State::Idle,
        }
    }

    /// Where it stands.
    pub fn phase(&self) -> Phase
        ensures { result ≡ phase_of self.now }
    {
        match &self.state {
            State::Idle => Phase::Idle,
            State::Ask(_) => Phase::Ask,
            State::Put { .. } => Phase::Put,
            State::Ready(_) => Phase::Ready,
            State::Stopped => Phase::Stopped,
        }
    }

    /// Begins to ask for the call, with nobody counted. It has to be idle.
    pub fn invoke(&mut self, op: OpId, key: Key, action: Action)
        requires { phase_of self.old ≡ Phase.Idle }
        ensures { self.new ≡ client_after_invoke self.old op key action }
    {
        self.state = State::Ask(Asking::new(Call { op, key, action }));
    }

    /// What it sends to replicas: a query while it asks, its pair while it puts, and else nothing.
    /// `Memory` comes only if a copy of a text was refused.
    pub fn request(&self) -> Result<Option<Request>, Memory>
        ensures value { IfOk result (λ request. request ≡ request_of self.now) }
        ensures nothing { request_of self.now ≡ None → result ≡ Ok None }
    {
        match &self.state {
            State::Ask(asking) => Ok(Some(asking.request()?)),
            State::Put { chosen, .. } => Ok(Some(chosen.request()?)),
            _ => Ok(None),
        }
    }

    /// What `take` would make of the reply. As there, a pair that a write counts has to have a
    /// number below 1,000,000.
    pub fn foresee(&self, reply: &Reply) -> Taken
        requires { MayReceive self.now reply.now }
        ensures { result ≡ reply_result self.now reply.now }
    {
        self.rules.foresee(&self.state, reply)
    }

    /// Takes a reply. A stale one changes nothing; one that counts may end the phase.
    ///
    /// A reply counts if it names the pending call, is `Held` while the client asks or `Kept`
    /// while it puts, and comes from a replica below the count that this phase hasn't counted.
    pub fn take(&mut self, reply: Reply) -> Taken
        requires { MayReceive self.old reply }
        ensures answer { result ≡ reply_result self.old reply }
        ensures after { self.new ≡ client_after self.old reply }
        ensures stale { result ≡ Taken.Stale → self.new ≡ self.old }
    {
        let state = mem::replace(&mut self.state, State::Idle);
        let (state, taken) = self.rules.hear(state, reply);
        self.state = state;
        taken
    }

    /// A copy of the answer, which is there exactly when the client is ready. `Memory` comes only
    /// if the copy was refused.
    pub fn answer(&self) -> Result<Option<Returned>, Memory>
        ensures value { IfOk result (λ answer. answer ≡ answer_of self.now) }
        ensures nothing { answer_of self.now ≡ None → result ≡ Ok None }
    {
        match &self.state {
            State::Ready(chosen) => Ok(Some(chosen.answer()?)),
            _ => Ok(None),
        }
    }

    /// Gives the answer, and is idle again. It has to be ready.
    pub fn respond(&mut self) -> Returned
        requires { phase_of self.old ≡ Phase.Ready }
        ensures answer { Some result ≡ answer_of self.old }
        ensures after { self.new ≡ client_after_respond self.old }
    {
        match mem::replace(&mut self.state, State::Idle) {
            State::Ready(chosen) => chosen.into_answer(),
            _ => unreachable!(),
        }
    }

    /// Stops for good. A pending call has no answer then.
    pub fn stop(&mut self)
        ensures { self.new ≡ client_after_stop self.old }
    {
        self.state = State::Stopped;
    }

    /// The number of the pending call; none if the client is idle or stopped.
    pub fn pending(&self) -> Option<OpId>
        ensures { result ≡ pending_of self.now }
    {
        match &self.state {
            State::Ask(asking) => Some(asking.call.op),
            State::Put { chosen, .. } | State::Ready(chosen) => Some(chosen.call.op),
            State::Idle | State::Stopped => None,
        }
    }

    /// The replicas that it counted in this phase; none outside an asking and a putting.
    pub fn counted(&self) -> ReplicaSet
        ensures { result ≡ counted_by self.now }
    {
        match &self.state {
            State::Ask(asking) => asking.tally.counted,
            State::Put { counted, .. } => *counted,
            _ => ReplicaSet::empty(),
        }
    }
}
