//! What a step does, where nothing refuses it.
use super::clients::SlowClient;
use super::replicas::SlowReplica;
use super::rows::SlowRow;
use super::{SlowFlight, SlowWorld};
use crate::twin::stop::Stop;
use client_phases::{Phase, Taken};
use network::Message;
use replica::{Reply, Request};
use tag::{Action, ClientId, Key, OpId, ReplicaId, Tag};
use world_steps::{Effect, Step};

/// The row of an invocation.
fn invocation(op: OpId, client: ClientId, key: &Key, action: &Action) -> Result<SlowRow, Stop> {
    match (key.copy(), action.copy()) {
        (Ok(key), Ok(action)) => Ok(SlowRow::Invoke {
            op,
            client,
            key,
            action,
        }),
        _ => Err(Stop::Memory),
    }
}

impl SlowWorld {
    /// Takes a step that nothing refuses, and says what it did.
    pub(super) fn moved(&mut self, step: &Step) -> Result<Effect, Stop> {
        match step {
            Step::Join { client } => self.join(*client),
            Step::Invoke {
                client,
                key,
                action,
            } => self.invoke(*client, key, action),
            Step::Send { client, replica } => self.send(*client, *replica),
            Step::Deliver { flight } => self.deliver(*flight),
            Step::Lose { flight } => self.lose(*flight),
            Step::Repeat { flight } => self.repeat(*flight),
            Step::Respond { client } => self.respond(*client),
            Step::StopClient { client } => {
                self.client_mut(*client)?.end(Phase::Stopped);
                Ok(Effect::Stopped)
            }
            Step::StopReplica { replica } => {
                self.replica_mut(*replica)?.is_up = false;
                Ok(Effect::Stopped)
            }
            Step::StartReplica { replica } => {
                self.replica_mut(*replica)?.is_up = true;
                Ok(Effect::Started)
            }
        }
    }

    fn client_mut(&mut self, name: ClientId) -> Result<&mut SlowClient, Stop> {
        let found = self.clients.iter().position(|client| client.name == name);
        let place = found.ok_or(Stop::Client)?;
        self.clients.get_mut(place).ok_or(Stop::Client)
    }

    fn replica_mut(&mut self, number: ReplicaId) -> Result<&mut SlowReplica, Stop> {
        let place = usize::from(number.get());
        self.replicas.get_mut(place).ok_or(Stop::Replica)
    }

    fn flight_mut(&mut self, number: u32) -> Result<&mut SlowFlight, Stop> {
        self.flights.get_mut(number as usize).ok_or(Stop::Flight)
    }

    fn join(&mut self, name: ClientId) -> Result<Effect, Stop> {
        self.clients.push(SlowClient::new(self.alloc, name))?;
        Ok(Effect::Joined)
    }

    /// The call is recorded, and has the number of the calls before it.
    fn invoke(&mut self, name: ClientId, key: &Key, action: &Action) -> Result<Effect, Stop> {
        let op = OpId(self.call_count());
        self.client_mut(name)?.invoke(op, key, action)?;
        self.rows.push(invocation(op, name, key, action)?)?;
        Ok(Effect::Invoked(op))
    }

    /// A message that is sent has the next number, and one copy.
    fn put_in_flight(&mut self, message: Message) -> Result<u32, Stop> {
        let number = self.sent();
        self.flights.push(SlowFlight { message, copies: 1 })?;
        Ok(number)
    }

    fn send(&mut self, name: ClientId, replica: ReplicaId) -> Result<Effect, Stop> {
        let request = self.client_mut(name)?.request()?;
        let number = self.put_in_flight(Message::ToReplica(replica, request))?;
        Ok(Effect::Sent(number))
    }

    /// A copy comes to whom it was sent.
    fn carry(&mut self, number: u32) -> Result<Effect, Stop> {
        let message = self.flight_mut(number)?.message.copy()?;
        match &message {
            Message::ToReplica(replica, request) => self.handle(*replica, request),
            Message::ToClient(client, reply) => self.hear(*client, reply),
        }
    }

    /// A copy comes to whom it was sent, and goes.
    fn deliver(&mut self, number: u32) -> Result<Effect, Stop> {
        let effect = self.carry(number)?;
        let _ = self.lose(number)?;
        Ok(effect)
    }

    /// The client that made a call.
    fn caller(&self, call: OpId) -> Result<ClientId, Stop> {
        for row in &self.rows {
            if let SlowRow::Invoke { op, client, .. } = row {
                if *op == call {
                    return Ok(*client);
                }
            }
        }
        Err(Stop::Caller)
    }

    /// A replica handles a request, and its reply is sent to the client that made the call.
    fn handle(&mut self, number: ReplicaId, request: &Request) -> Result<Effect, Stop> {
        let op = match request {
            Request::Query { op, .. } => *op,
            Request::Put { op, .. } => *op,
        };
        let client = self.caller(op)?;
        let reply = self.replica_mut(number)?.answer(request)?;
        let number = self.put_in_flight(Message::ToClient(client, reply))?;
        Ok(Effect::Answered(number))
    }

    /// A client takes a reply, and a note that it makes is recorded.
    fn hear(&mut self, name: ClientId, reply: &Reply) -> Result<Effect, Stop> {
        let op = match reply {
            Reply::Held { op, .. } => *op,
            Reply::Kept { op, .. } => *op,
        };
        let taken = self.taken(name, reply)?;
        match taken {
            Taken::Noted(tag) => self.note(op, tag)?,
            Taken::Agreed(tag) => self.note(op, tag)?,
            _ => {}
        }
        Ok(Effect::Taken(taken))
    }

    fn taken(&mut self, name: ClientId, reply: &Reply) -> Result<Taken, Stop> {
        for client in &mut self.clients {
            if client.name == name {
                return client.hear(&self.rules, reply);
            }
        }
        Err(Stop::Client)
    }

    fn note(&mut self, op: OpId, tag: Tag) -> Result<(), Stop> {
        self.rows.push(SlowRow::Note { op, tag })?;
        Ok(())
    }

    fn lose(&mut self, number: u32) -> Result<Effect, Stop> {
        let flight = self.flight_mut(number)?;
        flight.copies = flight.copies.saturating_sub(1);
        Ok(Effect::Lost)
    }

    fn repeat(&mut self, number: u32) -> Result<Effect, Stop> {
        let flight = self.flight_mut(number)?;
        flight.copies = flight.copies.saturating_add(1);
        Ok(Effect::Repeated)
    }

    /// A client that is ready answers, which is recorded, and is idle.
    fn respond(&mut self, name: ClientId) -> Result<Effect, Stop> {
        let client = self.client_mut(name)?;
        let (op, returned) = client.answer()?;
        client.end(Phase::Idle);
        self.rows.push(SlowRow::Respond { op, returned })?;
        Ok(Effect::Responded(op))
    }
}
