//! Whether a pending call can be completed.
ghost use Rattle.std.specs.Prelude.{◌≡◌, ◌+◌, ◌≤◌, ℕ, MatchOption, MatchResult};
ghost use Rattle.world_steps.specs.SoundSystems.{IsSound};
ghost use Rattle.world_settle.specs.Refusing.{HasMajority, HasNoPendingCall, HasPendingCall};
ghost use Rattle.world_settle.specs.Refusing.{IsUnsettled, MaySettle, NeedsAt};

use crate::SettleError;
use crate::candidates::{candidates_needed, counted_at, phase_at, replicas_up};
use client_phases::Phase;
use quorum::ReplicaSet;
use tag::ClientId;
use world_steps::World;

/// How many replicas the client's pending call needs, those that are asked and those that are to
/// keep its pair counted apart; none if no call is pending.
fn replicas_needed(world: &World, client: ClientId) -> Option<u32>
    requires { HasMajority world.now }
    ensures { MatchOption result (HasNoPendingCall world.now client)
        (λ count. HasPendingCall world.now client × (a : ℕ) × (b : ℕ) × NeedsAt world.now client a b
        × (count ≡ a + b) × (count ≤ 30)) }
{
    let quorums = world.config().quorums();
    let counted = counted_at(world, client);
    match phase_at(world, client) {
        Some(Phase::Ask) => {
            let asked = candidates_needed(world, counted, quorums.ask());
            let kept = candidates_needed(world, ReplicaSet::empty(), quorums.put());
            Some(asked + kept)
        }
        Some(Phase::Put) => Some(candidates_needed(world, counted, quorums.put())),
        Some(Phase::Ready) => Some(0),
        Some(Phase::Idle | Phase::Stopped) | None => None,
    }
}

/// Whether the client's pending call can be completed, and if not, why.
pub(crate) fn refuse(world: &World, client: ClientId) -> Result<(), SettleError>
    ensures settles { MatchResult result (λ _. MaySettle world.now client)
        (λ why. IsUnsettled world.now client why) }
    ensures sound { IsSound world.now }
{
    let quorums = world.config().quorums();
    if quorums.votes(&replicas_up(world)) < quorums.ask().max(quorums.put()) {
        return Err(SettleError::NoMajority);
    }
    let Some(needed) = replicas_needed(world, client) else {
        return Err(SettleError::NotPending);
    };
    let left = world.pool().limit() - world.pool().sent();
    if left < 2 * needed {
        return Err(SettleError::Room);
    }
    Ok(())
}
