//! What a client has counted when it hears a reply.
ghost use Rattle.std.specs.Prelude.{◌≡◌, option_copied};
ghost use Rattle.traces.specs.StepLines.{count_by, count_of, count_with, replier, votes_needed};

use client_phases::{Client, Phase};
use network::Message;
use quorum::{Quorums, ReplicaSet};
use replica::Reply;
use tag::ReplicaId;
use world_steps::{Step, World};

/// The replicas that a client counted in its phase, a further one, the votes of all of them, and how
/// many votes it needs.
#[derive(Clone, Copy, Debug)]
pub struct Count {
    pub(crate) earlier: ReplicaSet,
    pub(crate) replica: ReplicaId,
    pub(crate) votes: u8,
    pub(crate) needed: u8,
}

/// The replica that the reply is from.
fn replier(reply: &Reply) -> ReplicaId
    ensures { result ≡ replier reply.now }
{
    match reply {
        Reply::Held { replica, .. } | Reply::Kept { replica, .. } => *replica,
    }
}

/// How many votes end the phase.
fn votes_needed(quorums: &Quorums, phase: Phase) -> u8
    ensures { result ≡ votes_needed quorums.now phase }
{
    match phase {
        Phase::Ask => quorums.ask(),
        _ => quorums.put(),
    }
}

/// What the client counts with that replica.
fn count_by(quorums: &Quorums, client: &Client, replica: ReplicaId) -> Count
    ensures { result ≡ count_by quorums.now client.now replica }
{
    let earlier = client.counted();
    let mut counted = earlier;
    counted.add(replica);
    Count {
        earlier,
        replica,
        votes: quorums.votes(&counted),
        needed: votes_needed(quorums, client.phase()),
    }
}

/// What the client that the message is for counts with it.
fn count_with(world: &World, message: Option<&Message>) -> Option<Count>
    ensures { result ≡ count_with world.now (option_copied message.entry) }
{
    match message {
        Some(Message::ToClient(name, reply)) => match world.client(*name) {
            Some(client) => {
                let quorums = world.config().quorums();
                Some(count_by(&quorums, client, replier(reply)))
            }
            None => None,
        },
        _ => None,
    }
}

/// What the client that hears a reply by the step counts with it.
pub(crate) fn count_of(world: &World, step: &Step) -> Option<Count>
    ensures { result ≡ count_of world.now step.now }
{
    match step {
        Step::Deliver { flight } => count_with(world, world.pool().look(*flight)),
        _ => None,
    }
}
