//! The refusals: for each kind of step those that it may meet, each with its test.
use super::SlowWorld;
use client_phases::Phase;
use network::Message;
use tag::{ClientId, ReplicaId};
use world_steps::{Refusal, Step};

/// The first refusal whose test holds.
fn first_of(table: &[(Refusal, bool)]) -> Option<Refusal> {
    for row in table {
        if row.1 {
            return Some(row.0);
        }
    }
    None
}

impl SlowWorld {
    /// Why a step is refused, if it is: the first of its refusals, the lowest number first.
    pub(super) fn refusal(&self, step: &Step) -> Option<Refusal> {
        match step {
            Step::Join { client } => {
                first_of(&[(Refusal::ClientTaken, self.phase(*client).is_some())])
            }
            Step::Invoke { client, .. } => self.invoke_refusal(*client),
            Step::Send { client, replica } => self.send_refusal(*client, *replica),
            Step::Deliver { flight } => self.deliver_refusal(*flight),
            Step::Lose { flight } => {
                first_of(&[(Refusal::NotInFlight, self.copies(*flight) == 0)])
            }
            Step::Repeat { flight } => first_of(&[
                (Refusal::NotInFlight, self.copies(*flight) == 0),
                (Refusal::CopiesFull, self.copies(*flight) == 1000),
            ]),
            Step::Respond { client } => self.respond_refusal(*client),
            Step::StopClient { client } => self.client_refusal(*client),
            Step::StopReplica { replica } => first_of(&[
                (Refusal::NoSuchReplica, !self.has_replica(*replica)),
                (Refusal::ReplicaDown, self.is_down(*replica)),
            ]),
            Step::StartReplica { replica } => first_of(&[
                (Refusal::NoSuchReplica, !self.has_replica(*replica)),
                (Refusal::ReplicaUp, !self.is_down(*replica)),
            ]),
        }
    }

    /// A step of a client that didn't join or is stopped is refused.
    fn client_refusal(&self, client: ClientId) -> Option<Refusal> {
        let phase = self.phase(client);
        first_of(&[
            (Refusal::NoSuchClient, phase.is_none()),
            (Refusal::ClientStopped, phase == Some(Phase::Stopped)),
        ])
    }

    fn invoke_refusal(&self, client: ClientId) -> Option<Refusal> {
        self.client_refusal(client).or(first_of(&[
            (Refusal::ClientBusy, self.phase(client) != Some(Phase::Idle)),
            (Refusal::OpsFull, self.call_count() >= self.calls),
        ]))
    }

    fn send_refusal(&self, client: ClientId, replica: ReplicaId) -> Option<Refusal> {
        let phase = self.phase(client);
        let has_request = phase == Some(Phase::Ask) || phase == Some(Phase::Put);
        first_of(&[(Refusal::NoSuchReplica, !self.has_replica(replica))])
            .or(self.client_refusal(client))
            .or(first_of(&[
                (Refusal::NothingToSend, !has_request),
                (Refusal::FlightsFull, self.sent() >= self.limit),
            ]))
    }

    /// A message without a copy is gone.
    fn deliver_refusal(&self, number: u32) -> Option<Refusal> {
        let Some(flight) = self.flights.get(number as usize) else {
            return Some(Refusal::NotInFlight);
        };
        if flight.copies == 0 {
            return Some(Refusal::NotInFlight);
        }
        match &flight.message {
            Message::ToReplica(replica, _) => first_of(&[
                (Refusal::ReplicaDown, self.is_down(*replica)),
                (Refusal::FlightsFull, self.sent() >= self.limit),
            ]),
            Message::ToClient(client, _) => first_of(&[(
                Refusal::ClientStopped,
                self.phase(*client) == Some(Phase::Stopped),
            )]),
        }
    }

    fn respond_refusal(&self, client: ClientId) -> Option<Refusal> {
        let is_ready = self.phase(client) == Some(Phase::Ready);
        self.client_refusal(client)
            .or(first_of(&[(Refusal::NotReady, !is_ready)]))
    }
}
