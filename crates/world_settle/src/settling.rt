//! Completing a pending call.
ghost use Rattle.std.specs.Prelude.{◌≡◌, ◌<◌, ◌+◌, None, IfOk, IfErr, OnOk, OnErr};
ghost use Rattle.world_steps.specs.Refusals.{refusal_of};
ghost use Rattle.world_steps.specs.Runs.{next};
ghost use Rattle.world_steps.specs.SoundSystems.{IsSound};
ghost use Rattle.world_settle.specs.SettleAnswers.{Completes, IsWithin, IsWithinForMajorities};
ghost use Rattle.world_settle.specs.SettleAnswers.{IsWithinIfAgreed, KeepsEarlier, SettlesBy};
ghost use Rattle.world_settle.specs.StepsLeft.{BeginsAt};

use crate::SettleError;
use crate::settle_steps::SettleSteps;
use tag::ClientId;
use world_steps::{Step, World, laws};

/// Takes a step that isn't refused, and answers how many were taken with it.
fn take(world: &mut World, step: Step, count: u32) -> Result<u32, SettleError>
    requires taken { refusal_of world.old step ≡ None }
    requires few { count < 1000 }
    ensures count { IfOk result (λ after. after ≡ count + 1) }
    ensures next { OnOk result (world.new ≡ next world.old step) }
    ensures memory { IfErr result (λ why. why ≡ SettleError.Memory count) }
    ensures err { OnErr result (world.new ≡ world.old) }
{
    match world.take(step) {
        Ok(_) => Ok(count + 1),
        Err(_) => Err(SettleError::Memory(count)),
    }
}

/// Takes the steps.
fn take_all(world: &mut World, client: ClientId, mut steps: SettleSteps) -> Result<u32, SettleError>
    requires begins { BeginsAt world.old client steps }
    requires sound { IsSound world.old }
    ensures settles { SettlesBy world.old client result world.new }
    ensures sound { IsSound world.new }
{
    laws::steps_keep_a_system_sound();
    let mut count = 0;
    while let Some(step) = steps.next(world) {
        count = take(world, step, count)?;
    }
    Ok(count)
}

/// Completes the client's pending call, and answers how many steps it took.
///
/// While the client asks or puts, its request goes to the least replica that is up and not counted
/// yet, and the reply comes back; then the client responds. Of the refusals that apply the one with
/// the lowest number is answered: `NoMajority`, `NotPending` and `Room` before any step, with the
/// world equal to what it was; `Memory` with the steps that were taken before an allocation was refused,
/// with the world as those left it.
///
/// With majorities of n replicas it takes at most 6 (n / 2 + 1) + 1 steps, the division rounded
/// down; for a short read whose replies agree 3 for each replica that it still asks, and one.
pub fn settle(world: &mut World, client: ClientId) -> Result<u32, SettleError>
    ensures settles { SettlesBy world.old client result world.new }
    ensures sound { IsSound world.new }
    ensures earlier { KeepsEarlier world.old world.new }
    ensures completes { OnOk result (Completes world.old client world.new) }
    ensures within { IfOk result (λ count. IsWithin world.old client count) }
    ensures majorities { IfOk result (λ count. IsWithinForMajorities world.old count) }
    ensures agreed { IfOk result (λ count. IsWithinIfAgreed world.old client count) }
{
    laws::steps_keep_a_system_sound();
    let steps = SettleSteps::new(world, client)?;
    take_all(world, client, steps)
}
