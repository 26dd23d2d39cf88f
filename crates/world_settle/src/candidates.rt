//! The replicas that a call may ask next.
ghost use Rattle.std.specs.Prelude.{◌≡◌, ◌≤◌, ℕ, List, [], ◌∷◌, MatchOption, true};
ghost use Rattle.tag.specs.Limits.{replica_limit};
ghost use Rattle.quorum.specs.Quorums.{votes_of};
ghost use Rattle.world_steps.specs.Refusals.{has_request, phase_at};
ghost use Rattle.world_settle.specs.Refusing.{IsLeastCount, replicas_up};
ghost use Rattle.world_settle.specs.Settling.{candidates, counted_at};

use client_phases::Phase;
use quorum::ReplicaSet;
use tag::{ClientId, ReplicaId};
use world_steps::World;

/// The least replica that is up and that the set lacks.
pub(crate) fn first_candidate(world: &World, set: ReplicaSet) -> Option<ReplicaId>
    ensures { MatchOption result (candidates world.now set ≡ [])
        (λ replica. (others : List ℕ) × (candidates world.now set ≡ replica ∷ others)) }
{
    for number in 0..world.config().replicas() {
        let replica = ReplicaId::new(number).unwrap();
        if world.is_up(replica) && !set.contains(replica) {
            return Some(replica);
        }
    }
    None
}

/// The replicas that are up.
pub(crate) fn replicas_up(world: &World) -> ReplicaSet
    ensures { result ≡ replicas_up world.now }
{
    let mut set = ReplicaSet::empty();
    while let Some(replica) = first_candidate(world, set) {
        set.add(replica);
    }
    set
}

/// How many candidates, the least first, bring the set to so many votes. The replicas that are up
/// have to have them.
pub(crate) fn candidates_needed(world: &World, counted: ReplicaSet, votes: u8) -> u32
    requires { votes ≤ votes_of world.now.config.quorums.votes (replicas_up world.now) }
    ensures least { IsLeastCount
        (λ quorum. votes ≤ votes_of world.now.config.quorums.votes quorum) counted
        (candidates world.now counted) result }
    ensures few { result ≤ replica_limit }
{
    let quorums = world.config().quorums();
    let mut set = counted;
    let mut count = 0;
    while quorums.votes(&set) < votes {
        let Some(replica) = first_candidate(world, set) else {
            unreachable!()
        };
        set.add(replica);
        count += 1;
    }
    count
}

/// Where the client stands, if it joined.
pub(crate) fn phase_at(world: &World, client: ClientId) -> Option<Phase>
    ensures { result ≡ phase_at world.now client }
{
    match world.client(client) {
        Some(member) => Some(member.phase()),
        None => None,
    }
}

/// The replicas that the client counted in this phase.
pub(crate) fn counted_at(world: &World, client: ClientId) -> ReplicaSet
    ensures { result ≡ counted_at world.now client }
{
    match world.client(client) {
        Some(member) => member.counted(),
        None => ReplicaSet::empty(),
    }
}

/// The replica that the client's next request goes to; none if it neither asks nor puts.
pub(crate) fn next_replica(world: &World, client: ClientId) -> Option<ReplicaId>
    ensures { MatchOption result
        ((replica : ℕ) (others : List ℕ) → has_request (phase_at world.now client) ≡ true
        → candidates world.now (counted_at world.now client) ≡ replica ∷ others → ⊥)
        (λ replica. (has_request (phase_at world.now client) ≡ true) × (others : List ℕ)
        × (candidates world.now (counted_at world.now client) ≡ replica ∷ others)) }
{
    match phase_at(world, client) {
        Some(Phase::Ask | Phase::Put) => first_candidate(world, counted_at(world, client)),
        _ => None,
    }
}
