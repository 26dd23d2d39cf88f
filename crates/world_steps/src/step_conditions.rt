//! When a step is refused.
ghost use Rattle.std.specs.Prelude.{◌≡◌, [], ◌∷◌, List, ℕ, Some, true, false};
ghost use Rattle.tag.specs.declared.actions.Action.{Action};
ghost use Rattle.replica.specs.declared.requests.Request.{Request};
ghost use Rattle.network.specs.declared.messages.Message.{Message};
ghost use Rattle.world_steps.specs.Refusals.{◌when◌, refusal_of, phase_at, first_of, arrival_refusals};
ghost use Rattle.world_steps.specs.Refusals.{flights_full};
ghost use Rattle.world_steps.specs.declared.step.Step.{Step};

use crate::system::System;
use crate::{Refusal, Step};
use client_phases::Phase;
use network::Message;
use tag::{ClientId, ReplicaId};

impl System {
    /// Where the client stands, if it joined.
    pub(crate) fn phase(&self, name: ClientId) -> Option<Phase>
        ensures { result ≡ phase_at self.now name }
    {
        match self.members.get(name) {
            Some(client) => Some(client.phase()),
            None => None,
        }
    }

    fn flights_refusal(&self) -> Option<Refusal>
        ensures { result ≡ first_of ((Refusal.FlightsFull, flights_full self.now) ∷ []) }
    {
        if self.pool.is_full() {
            return Some(Refusal::FlightsFull);
        }
        None
    }

    fn invoke_refusal(&self, name: ClientId) -> Option<Refusal>
        ensures { (key : List ℕ) (action : Action)
            → result ≡ refusal_of self.now (Step.Invoke name key action) }
    {
        match self.phase(name) {
            None => Some(Refusal::NoSuchClient),
            Some(Phase::Stopped) => Some(Refusal::ClientStopped),
            Some(Phase::Idle) if self.history.calls() >= self.history.limit() as usize => {
                Some(Refusal::OpsFull)
            }
            Some(Phase::Idle) => None,
            Some(_) => Some(Refusal::ClientBusy),
        }
    }

    fn send_refusal(&self, name: ClientId, replica: ReplicaId) -> Option<Refusal>
        ensures { result ≡ refusal_of self.now (Step.Send name replica) }
    {
        if usize::from(replica.get()) >= self.nodes.len() {
            return Some(Refusal::NoSuchReplica);
        }
        match self.phase(name) {
            None => Some(Refusal::NoSuchClient),
            Some(Phase::Stopped) => Some(Refusal::ClientStopped),
            Some(Phase::Ask | Phase::Put) => self.flights_refusal(),
            Some(_) => Some(Refusal::NothingToSend),
        }
    }

    fn respond_refusal(&self, name: ClientId) -> Option<Refusal>
        ensures { result ≡ refusal_of self.now (Step.Respond name) }
    {
        match self.phase(name) {
            None => Some(Refusal::NoSuchClient),
            Some(Phase::Stopped) => Some(Refusal::ClientStopped),
            Some(Phase::Ready) => None,
            Some(_) => Some(Refusal::NotReady),
        }
    }

    fn stop_refusal(&self, name: ClientId) -> Option<Refusal>
        ensures { result ≡ refusal_of self.now (Step.StopClient name) }
    {
        match self.phase(name) {
            None => Some(Refusal::NoSuchClient),
            Some(Phase::Stopped) => Some(Refusal::ClientStopped),
            Some(_) => None,
        }
    }

    fn deliver_refusal(&self, flight: u32) -> Option<Refusal>
        ensures { result ≡ refusal_of self.now (Step.Deliver flight) }
    {
        match self.pool.look(flight) {
            None => Some(Refusal::NotInFlight),
            Some(Message::ToReplica(number, _)) => self.request_refusal(*number),
            Some(Message::ToClient(name, _)) => match self.phase(*name) {
                Some(Phase::Stopped) => Some(Refusal::ClientStopped),
                _ => None,
            },
        }
    }

    fn request_refusal(&self, number: ReplicaId) -> Option<Refusal>
        ensures { (request : Request)
            → result ≡ first_of (arrival_refusals self.now
            (Some (Message.ToReplica number request))) }
    {
        match self.nodes.get(number) {
            Some(node) if !node.is_up => Some(Refusal::ReplicaDown),
            _ => self.flights_refusal(),
        }
    }

    fn repeat_refusal(&self, flight: u32) -> Option<Refusal>
        ensures { result ≡ refusal_of self.now (Step.Repeat flight) }
    {
        match self.pool.look(flight) {
            None => Some(Refusal::NotInFlight),
            Some(_) if self.pool.copies(flight) == 1000 => Some(Refusal::CopiesFull),
            Some(_) => None,
        }
    }

    fn up_refusal(&self, number: ReplicaId, is_up: bool) -> Option<Refusal>
        ensures stop { is_up ≡ false → result ≡ refusal_of self.now (Step.StopReplica number) }
        ensures start { is_up ≡ true → result ≡ refusal_of self.now (Step.StartReplica number) }
    {
        match self.nodes.get(number) {
            None => Some(Refusal::NoSuchReplica),
            Some(node) if node.is_up != is_up => None,
            Some(_) if is_up => Some(Refusal::ReplicaUp),
            Some(_) => Some(Refusal::ReplicaDown),
        }
    }

    /// Why the step is refused, if it is.
    pub(crate) fn refusal(&self, step: &Step) -> Option<Refusal>
        ensures { result ≡ refusal_of self.now step.now }
    {
        match step {
            Step::Join { client } => match self.members.get(*client) {
                Some(_) => Some(Refusal::ClientTaken),
                None => None,
            },
            Step::Invoke { client, .. } => self.invoke_refusal(*client),
            Step::Send { client, replica } => self.send_refusal(*client, *replica),
            Step::Deliver { flight } => self.deliver_refusal(*flight),
            Step::Lose { flight } => match self.pool.look(*flight) {
                None => Some(Refusal::NotInFlight),
                Some(_) => None,
            },
            Step::Repeat { flight } => self.repeat_refusal(*flight),
            Step::Respond { client } => self.respond_refusal(*client),
            Step::StopClient { client } => self.stop_refusal(*client),
            Step::StopReplica { replica } => self.up_refusal(*replica, false),
            Step::StartReplica { replica } => self.up_refusal(*replica, true),
        }
    }
}
