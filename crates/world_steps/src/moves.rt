//! What a step makes of a system that doesn't refuse it.
ghost use Rattle.std.specs.Prelude.{◌≡◌, ◌<◌, IfOk, OnOk, OnErr, Ok, Some, length, slice_get, true, false, ℕ};
ghost use Rattle.network.specs.Flights.{IsMessageOf};
ghost use Rattle.network.specs.Pools.{IsBag, with_sent};
ghost use Rattle.network.specs.declared.messages.Message.{Message};
ghost use Rattle.recorder.specs.Histories.{MayFollow};
ghost use Rattle.recorder.specs.Answers.{with_row};
ghost use Rattle.recorder.specs.declared.row.Row.{Row};
ghost use Rattle.client_phases.specs.Clients.{reply_result};
ghost use Rattle.client_phases.specs.declared.clients.Client.{Client};
ghost use Rattle.replica.specs.Replicas.{replica_after};
ghost use Rattle.replica.specs.declared.requests.Request.{Request};
ghost use Rattle.world_steps.specs.Systems.{answered_op, arrive, effect_of, lose, op_of, with_note, with_replica};
ghost use Rattle.world_steps.specs.declared.nodes.Node.{Node};
ghost use Rattle.world_steps.specs.Moves.{IsClient, IsReady, MayAdopt, MayAnswer, MayDeliver, MayHear};
ghost use Rattle.world_steps.specs.Moves.{MayInvoke, MayMove, MayNote, MayRepeat, MayRespond};
ghost use Rattle.world_steps.specs.Moves.{MaySend, MayServe, MayStop, Moves};

use crate::system::System;
use crate::{Effect, Step};
use client_phases::{Client, Taken};
use network::{Message, NetRefusal};
use recorder::{ActionRef, RowRefusal};
use replica::{Reply, Request};
use tag::{Action, ClientId, Key, Memory, OpId, ReplicaId, Returned, Tag};

/// The call that a request belongs to.
fn op_of(request: &Request) -> OpId
    ensures { result ≡ op_of request.now }
{
    match request {
        Request::Query { op, .. } | Request::Put { op, .. } => *op,
    }
}

/// The call that a reply belongs to.
fn answered_op(reply: &Reply) -> OpId
    ensures { result ≡ answered_op reply.now }
{
    match reply {
        Reply::Held { op, .. } | Reply::Kept { op, .. } => *op,
    }
}

impl System {
    fn join(&mut self, name: ClientId) -> Result<Effect, Memory>
        ensures { Moves self.old (Step.Join name) result self.new }
    {
        let client = Client::new(name, self.config.quorums(), self.config.reads());
        self.members.add(name, client)?;
        Ok(Effect::Joined)
    }

    fn invoke(&mut self, name: ClientId, key: Key, action: Action) -> Result<Effect, Memory>
        requires { MayInvoke self.old name }
        ensures { Moves self.old (Step.Invoke name key action) result self.new }
    {
        let shown = ActionRef::of(&action);
        match self.history.invoke_text(name, key.as_str(), &shown) {
            Ok(op) => {
                self.members.invoke(name, op, key, action);
                Ok(Effect::Invoked(op))
            }
            Err(RowRefusal::Memory) => Err(Memory),
            Err(_) => unreachable!(),
        }
    }

    /// Sends a message. There has to be room for it.
    fn post(&mut self, message: Message) -> Result<u32, Memory>
        requires { self.old.pool.sent < self.old.pool.limit }
        ensures number { IfOk result (λ number. number ≡ self.old.pool.sent) }
        ensures ok { OnOk result (self.new
            ≡ record self.old { pool = with_sent self.old.pool message }) }
        ensures bag { IsBag self.old.pool }
        ensures err { OnErr result (self.new ≡ self.old) }
    {
        let number = self.pool.sent();
        match self.pool.send(message) {
            Ok(_) => Ok(number),
            Err(NetRefusal::Memory) => Err(Memory),
            Err(_) => unreachable!(),
        }
    }

    fn send(&mut self, name: ClientId, replica: ReplicaId) -> Result<Effect, Memory>
        requires { MaySend self.old name }
        ensures { Moves self.old (Step.Send name replica) result self.new }
    {
        let request = match self.members.get(name) {
            Some(client) => client.request()?,
            None => None,
        };
        let Some(request) = request else {
            unreachable!()
        };
        let flight = self.post(Message::ToReplica(replica, request))?;
        Ok(Effect::Sent(flight))
    }

    /// Records a call's note.
    fn note(&mut self, op: OpId, tag: Tag) -> Result<(), Memory>
        requires { MayFollow self.old.history.rows (Row.Note op tag) }
        ensures ok { OnOk result (self.new
            ≡ record self.old { history = with_row self.old.history (Row.Note op tag) }) }
        ensures err { OnErr result (self.new ≡ self.old) }
    {
        match self.history.note(op, tag) {
            Ok(()) => Ok(()),
            Err(RowRefusal::Memory) => Err(Memory),
            Err(_) => unreachable!(),
        }
    }

    /// Records a call's response.
    #[tactic(auto, using(crate::proofs::Refused::respond_not_refused))]
    fn answer(&mut self, op: OpId, returned: Returned) -> Result<(), Memory>
        requires { MayAnswer self.old op returned }
        ensures ok { OnOk result (self.new
            ≡ record self.old { history = with_row self.old.history (Row.Respond op returned) }) }
        ensures err { OnErr result (self.new ≡ self.old) }
    {
        match self.history.respond(op, returned) {
            Ok(()) => Ok(()),
            Err(RowRefusal::Memory) => Err(Memory),
            Err(_) => unreachable!(),
        }
    }

    /// Has the replica of a request's flight do what it asks.
    fn adopt(&mut self, flight: u32) -> Result<(), Memory>
        requires { MayAdopt self.old flight }
        ensures ok { OnOk result ((number : ℕ) (request : Request) (node : Node)
            → IsMessageOf self.old.pool.flights flight (Message.ToReplica number request)
            → slice_get self.old.nodes number ≡ Some node
            → self.new ≡ with_replica self.old number node (replica_after node.replica request)) }
        ensures err { OnErr result (self.new ≡ self.old) }
    {
        let Some(Message::ToReplica(number, request)) = self.pool.look(flight) else {
            unreachable!()
        };
        let _ = self.nodes.handle(*number, request)?;
        Ok(())
    }

    /// Has a replica handle the request of a flight, and sends its reply. What may grow first is what can
    /// be taken back: a `Kept`, since the replica can't forget what it adopted.
    fn handle(&mut self, flight: u32) -> Result<Effect, Memory>
        requires { MayServe self.old flight }
        ensures effect { IfOk result
            (λ effect. effect_of self.old (Step.Deliver flight) ≡ Some effect) }
        ensures ok { OnOk result ((message : Message)
            → IsMessageOf self.old.pool.flights flight message
            → self.new ≡ arrive self.old message) }
        ensures err { OnErr result (self.new ≡ self.old) }
    {
        let Some(Message::ToReplica(number, request)) = self.pool.look(flight) else {
            unreachable!()
        };
        let Some(client) = self.history.caller(op_of(request)) else {
            unreachable!()
        };
        let number = *number;
        let sent = match request {
            Request::Query { .. } => {
                let reply = self.nodes.handle(number, request)?;
                self.post(Message::ToClient(client, reply))?
            }
            Request::Put { op, .. } => {
                let kept = Reply::Kept {
                    op: *op,
                    replica: number,
                };
                let sent = self.post(Message::ToClient(client, kept))?;
                if self.adopt(flight).is_err() {
                    self.pool.unsend();
                    return Err(Memory);
                }
                sent
            }
        };
        Ok(Effect::Answered(sent))
    }

    /// Records the note of a call, if what its client takes fixes the call's tag.
    fn note_outcome(&mut self, op: OpId, taken: &Taken) -> Result<(), Memory>
        requires { MayNote self.old op taken.now }
        ensures ok { OnOk result (self.new
            ≡ record self.old { history = with_note self.old.history op taken.now }) }
        ensures err { OnErr result (self.new ≡ self.old) }
    {
        match taken {
            Taken::Noted(tag) | Taken::Agreed(tag) => self.note(op, *tag),
            _ => Ok(()),
        }
    }

    /// Has a client take a reply, and records the note that it may make.
    fn hear(&mut self, name: ClientId, reply: Reply) -> Result<Effect, Memory>
        requires { MayHear self.old name reply }
        ensures effect { IfOk result
            (λ effect. (client : Client) → IsClient self.old name client
            → effect ≡ Effect.Taken (reply_result client reply)) }
        ensures ok { OnOk result (self.new ≡ arrive self.old (Message.ToClient name reply)) }
        ensures err { OnErr result (self.new ≡ self.old) }
    {
        let taken = match self.members.get(name) {
            Some(client) => client.foresee(&reply),
            None => unreachable!(),
        };
        self.note_outcome(answered_op(&reply), &taken)?;
        self.members.take(name, reply);
        Ok(Effect::Taken(taken))
    }

    /// A flight's message comes to whom it was sent.
    fn arrive(&mut self, flight: u32) -> Result<Effect, Memory>
        requires { MayDeliver self.old flight }
        ensures effect { IfOk result
            (λ effect. effect_of self.old (Step.Deliver flight) ≡ Some effect) }
        ensures ok { OnOk result ((message : Message)
            → IsMessageOf self.old.pool.flights flight message
            → self.new ≡ arrive self.old message) }
        ensures err { OnErr result (self.new ≡ self.old) }
    {
        match self.pool.look(flight) {
            Some(Message::ToReplica(..)) => self.handle(flight),
            Some(Message::ToClient(name, reply)) => {
                let (name, reply) = (*name, reply.copy()?);
                let effect = self.hear(name, reply)?;
                Ok(effect)
            }
            None => unreachable!(),
        }
    }

    fn deliver(&mut self, flight: u32) -> Result<Effect, Memory>
        requires { MayDeliver self.old flight }
        ensures { Moves self.old (Step.Deliver flight) result self.new }
    {
        let effect = self.arrive(flight)?;
        self.lose(flight);
        Ok(effect)
    }

    /// A copy of the flight goes, if there is one.
    fn lose(&mut self, flight: u32)
        ensures { self.new ≡ lose self.old flight }
    {
        let _ = self.pool.lose(flight);
    }

    /// Has a client answer its call. The call's number, and the answer that the client had; the record
    /// has a copy of it.
    pub(crate) fn respond(&mut self, name: ClientId) -> Result<(OpId, Returned), Memory>
        requires { MayRespond self.old name }
        ensures moves { IfOk result (λ answer. Moves self.old (Step.Respond name)
            (Ok (Effect.Responded answer.0)) self.new) }
        ensures ready { IfOk result (λ answer. IsReady self.old name answer.0 answer.1) }
        ensures err { OnErr result (self.new ≡ self.old) }
    {
        let Some(client) = self.members.get(name) else {
            unreachable!()
        };
        match (client.pending(), client.answer()?) {
            (Some(op), Some(copy)) => {
                self.answer(op, copy)?;
                match self.members.respond(name) {
                    Some(returned) => Ok((op, returned)),
                    None => unreachable!(),
                }
            }
            _ => unreachable!(),
        }
    }

    fn repeat(&mut self, flight: u32) -> Effect
        requires { MayRepeat self.old flight }
        ensures { Moves self.old (Step.Repeat flight) (Ok result) self.new }
    {
        let _ = self.pool.repeat(flight);
        Effect::Repeated
    }

    fn stop_client(&mut self, name: ClientId) -> Effect
        requires { MayStop self.old name }
        ensures { Moves self.old (Step.StopClient name) (Ok result) self.new }
    {
        self.members.stop(name);
        Effect::Stopped
    }

    fn stop_replica(&mut self, number: ReplicaId) -> Effect
        requires { number < length self.old.nodes }
        ensures { Moves self.old (Step.StopReplica number) (Ok result) self.new }
    {
        self.nodes.set_up(number, false);
        Effect::Stopped
    }

    fn start_replica(&mut self, number: ReplicaId) -> Effect
        requires { number < length self.old.nodes }
        ensures { Moves self.old (Step.StartReplica number) (Ok result) self.new }
    {
        self.nodes.set_up(number, true);
        Effect::Started
    }

    /// Takes a step that nothing refuses. On `Memory` nothing changed.
    pub(crate) fn apply(&mut self, step: Step) -> Result<Effect, Memory>
        requires { MayMove self.old step }
        ensures { Moves self.old step result self.new }
    {
        match step {
            Step::Join { client } => self.join(client),
            Step::Invoke {
                client,
                key,
                action,
            } => self.invoke(client, key, action),
            Step::Send { client, replica } => self.send(client, replica),
            Step::Deliver { flight } => self.deliver(flight),
            Step::Lose { flight } => {
                self.lose(flight);
                Ok(Effect::Lost)
            }
            Step::Repeat { flight } => Ok(self.repeat(flight)),
            Step::Respond { client } => match self.respond(client) {
                Ok((op, _)) => Ok(Effect::Responded(op)),
                Err(memory) => Err(memory),
            },
            Step::StopClient { client } => Ok(self.stop_client(client)),
            Step::StopReplica { replica } => Ok(self.stop_replica(replica)),
            Step::StartReplica { replica } => Ok(self.start_replica(replica)),
        }
    }
}
