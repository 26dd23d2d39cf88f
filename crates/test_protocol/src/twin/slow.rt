//! The slow world: lists alone, each found by going through it, as the definitions read.
mod clients;
mod moving;
mod replicas;
mod rows;
mod step_conditions;

use crate::twin::stop::Stop;
use client_phases::Phase;
pub use clients::Rules;
use clients::SlowClient;
use network::Message;
use replicas::SlowReplica;
pub use rows::SlowRow;
use std::alloc::Global;
use tag::{ClientId, ReplicaId};
use world_steps::{Effect, Refusal, Step};

/// A message with the count of its copies: 0 once it is spent.
#[derive(Drop)]
pub struct SlowFlight {
    message: Message,
    copies: u32,
}

/// The rules and limits, the clients that joined, the replicas, all messages by number, and the record.
#[derive(Drop)]
pub struct SlowWorld {
    alloc: Global,
    rules: Rules,
    calls: u32,
    limit: u32,
    clients: Vec<SlowClient>,
    replicas: Vec<SlowReplica>,
    flights: Vec<SlowFlight>,
    rows: Vec<SlowRow>,
}

impl SlowWorld {
    /// Before the first step: no client, all replicas up and empty, nothing sent, nothing recorded.
    pub fn new(alloc: Global, rules: Rules, calls: u32, limit: u32) -> Result<SlowWorld, Stop> {
        match replicas::all(alloc, rules.votes.len()) {
            Ok(replicas) => Ok(SlowWorld {
                alloc,
                rules,
                calls,
                limit,
                clients: Vec::new(alloc),
                replicas,
                flights: Vec::new(alloc),
                rows: Vec::new(alloc),
            }),
            Err(stop) => Err(stop),
        }
    }

    /// The record.
    pub fn rows(&self) -> &[SlowRow] {
        &self.rows
    }

    /// Takes a step: refuses it by the table, or moves. What it answers goes into `answer`.
    pub fn take(&mut self, step: &Step, answer: &mut Result<Effect, Refusal>) -> Result<(), Stop> {
        *answer = match self.refusal(step) {
            Some(refusal) => Err(refusal),
            None => Ok(self.moved(step)?),
        };
        Ok(())
    }
}

/// What the tests of the refusals ask.
impl SlowWorld {
    /// Where a client stands, if it joined.
    fn phase(&self, name: ClientId) -> Option<Phase> {
        for client in &self.clients {
            if client.name == name {
                return Some(client.phase);
            }
        }
        None
    }

    fn has_replica(&self, number: ReplicaId) -> bool {
        usize::from(number.get()) < self.replicas.len()
    }

    fn is_down(&self, number: ReplicaId) -> bool {
        match self.replicas.get(usize::from(number.get())) {
            Some(replica) => !replica.is_up,
            None => false,
        }
    }

    /// How many calls are recorded.
    fn call_count(&self) -> u32 {
        let mut count = 0u32;
        for row in &self.rows {
            if let SlowRow::Invoke { .. } = row {
                count = count.saturating_add(1);
            }
        }
        count
    }

    /// How many messages were sent.
    fn sent(&self) -> u32 {
        u32::try_from(self.flights.len()).unwrap_or(u32::MAX)
    }

    fn copies(&self, flight: u32) -> u32 {
        match self.flights.get(flight as usize) {
            Some(flight) => flight.copies,
            None => 0,
        }
    }
}
