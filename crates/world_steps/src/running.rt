//! Runs.
ghost use Rattle.std.specs.Prelude.{◌≡◌, IfOk, OnOk, OnErr, List, ℕ};
ghost use Rattle.recorder.specs.Records.{IsPart};
ghost use Rattle.recorder.specs.Sound.{TagSound};
ghost use Rattle.recorder.specs.declared.part.Call.{Call};
ghost use Rattle.world_steps.specs.Runs.{MayGrow, after, next};
ghost use Rattle.world_steps.specs.SoundSystems.{IsSound};

use crate::{Config, Refusal, Step, World};
use std::alloc::Global;
use tag::Memory;

/// Takes a step, and passes over a refusal other than for memory. An error comes only if the step
/// may allocate.
#[tactic(auto, using(crate::proofs::StepAnswers::next_is))]
fn advance(world: &mut World, step: &Step) -> Result<(), Memory>
    ensures next { OnOk result (world.new ≡ next world.old step.now) }
    ensures sound { OnOk result (IsSound world.new) }
    ensures grows { OnErr result (MayGrow step.now) }
{
    match world.step(step.copy()?) {
        Err(Refusal::Memory) => Err(Memory),
        _ => Ok(()),
    }
}

/// The world after these steps, from the opening one. Steps that are refused change nothing and are
/// passed over; a step that is refused for memory ends the run with `Memory`.
///
/// The opening world grows, too: so `Memory` may come of any list of steps, and no clause says of which.
///
/// Whatever the steps, the tags of each part of its record are sound, so that the calls of a key sorted
/// by tag are an order of them: the record is atomic.
pub fn run(alloc: Global, config: Config, steps: &[Step]) -> Result<World, Memory>
    ensures after { IfOk result (λ world. world ≡ after config steps.now) }
    ensures sound { IfOk result
        (λ world. (key : List ℕ) (part : List Call) → IsPart world.history.rows key part
        → TagSound part) }
{
    let mut world = World::new(alloc, config)?;
    for step in steps {
        advance(&mut world, step)?;
    }
    Ok(world)
}
