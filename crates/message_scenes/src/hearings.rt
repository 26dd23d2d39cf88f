//! What clients make of the replies that they hear.
ghost use Rattle.std.specs.Prelude.{◌≡◌, ◌++◌, OnOk, Some, option_to_list};
ghost use Rattle.message_scenes.specs.Hearings.{heard_by, heard_with, receiver_of, votes_needed};

use client_phases::{Client, Phase, Taken};
use network::Message;
use quorum::Quorums;
use tag::{ClientId, Memory};
use world_steps::{Effect, Step, World};

/// What a client made of a reply that it heard.
#[derive(Clone, Copy, Debug)]
pub struct Hearing {
    /// The row of the step that delivered the reply.
    pub row: usize,
    pub client: ClientId,
    /// What came of it.
    pub taken: Taken,
    /// The votes of the replicas that the client has then counted in its phase.
    pub votes: u8,
    /// How many votes end that phase.
    pub needed: u8,
}

/// The client that hears a reply by the step, which isn't taken yet.
pub(crate) fn receiver_of(world: &World, step: &Step) -> Option<ClientId>
    ensures { result ≡ receiver_of world.now step.now }
{
    let Step::Deliver { flight } = step else {
        return None;
    };
    match world.pool().look(*flight) {
        Some(Message::ToClient(name, _)) => Some(*name),
        _ => None,
    }
}

/// How many votes end the phase.
fn votes_needed(quorums: &Quorums, phase: Phase) -> u8
    ensures { result ≡ votes_needed quorums.now phase }
{
    match phase {
        Phase::Ask => quorums.ask(),
        _ => quorums.put(),
    }
}

/// What came of a reply that the client heard, which then stands so.
fn heard_by(world: &World, row: usize, name: ClientId, taken: Taken, client: &Client) -> Hearing
    ensures { Some result
        ≡ heard_by row name taken world.now.config.quorums (Some client.now) }
{
    let quorums = world.config().quorums();
    Hearing {
        row,
        client: name,
        taken,
        votes: quorums.votes(&client.counted()),
        needed: votes_needed(&quorums, client.phase()),
    }
}

/// What came of the reply that the client heard by a step of that effect, in the world after it.
pub(crate) fn heard_with(
    world: &World,
    row: usize,
    receiver: Option<ClientId>,
    effect: &Effect,
) -> Option<Hearing>
    ensures { result ≡ heard_with row receiver (Some effect.now) world.now }
{
    let (Some(name), Effect::Taken(taken)) = (receiver, effect) else {
        return None;
    };
    match world.client(name) {
        Some(client) => Some(heard_by(world, row, name, *taken, client)),
        None => None,
    }
}

/// Adds what a client made of a reply, if one did.
pub(crate) fn add_hearing(
    hearings: &mut Vec<Hearing>,
    hearing: Option<Hearing>,
) -> Result<(), Memory>
    ensures { OnOk result (hearings.new.items ≡ hearings.old.items ++ option_to_list hearing) }
{
    if let Some(hearing) = hearing {
        // Without a look at this field no proof is found of the line below.
        let _taken = hearing.taken;
        hearings.push(hearing)?;
    }
    Ok(())
}
