//! Observers.
ghost use Rattle.std.specs.Prelude.{◌≡◌, true, Some, None, Ok, IfOk, IsSome, OnOk};
ghost use Rattle.world_steps.specs.Refusals.{refusal_of};
ghost use Rattle.world_steps.specs.Runs.{Steps};
ghost use Rattle.world_steps.specs.declared.step.Step.{Step};
ghost use Rattle.world_steps.specs.declared.system.System.{System};
ghost use Rattle.script_runs.specs.Events.{Event, notices, tries};
ghost use Rattle.script_runs.specs.declared.origin.Origin.{Origin};

use crate::notice::Notice;
use crate::origin::Origin;
use tag::Memory;
use world_steps::{Effect, Refusal, Step, World};

/// Observes a script's run: keeps of it what it is to tell or to show. The run takes the steps.
pub trait Observer: Drop {
    /// What is noted of a step before it is taken, until it is.
    type Noted: Drop;

    // What becomes of the first state by what happens in the run is the second state.
    ghost sees: { Self → Event → Self → Type 0 };

    // Of the step of that origin, which the system is about to take, that is noted, and the first
    // state becomes the second.
    ghost notes: { Self → Origin → System → Step → Self → Self.Noted → Type 0 };

    /// Is told of a step that nothing refuses and that is taken next.
    fn before(&mut self, world: &World, origin: &Origin, step: &Step) -> Result<Self::Noted, Memory>
        requires { refusal_of world.now step.now ≡ None }
        ensures { IfOk result
            (λ noted. notes self.old origin.now world.now step.now self.new noted) };

    /// Is told what the step did of which that was noted, in the world after it.
    fn after(&mut self, world: &World, noted: Self::Noted, effect: &Effect) -> Result<(), Memory>
        ensures { OnOk result ((first : Self) (origin : Origin) (s : System) (step : Step)
            → notes first origin s step self.old noted → Steps s step (Ok effect.now) world.now
            → sees first (tries origin s step) self.new) };

    /// Is told that a step is refused, and why. The world stays as it was.
    fn refused(&mut self, origin: &Origin, step: &Step, why: Refusal) -> Result<(), Memory>
        ensures { OnOk result ((s : System) → refusal_of s step.now ≡ Some why
            → sees self.old (tries origin.now s step.now) self.new) };

    /// Whether a refused step of that origin is nothing to it: the run then needn't make the step.
    fn ignores_refused(&self, origin: &Origin) -> bool
        ensures { result ≡ true → (s : System) (step : Step) → IsSome (refusal_of s step)
            → sees self.now (tries origin.now s step) self.now };

    /// Is told what there is to say of the command of that line.
    fn notice(&mut self, line: u64, notice: &Notice) -> Result<(), Memory>
        ensures { OnOk result (sees self.old (notices line notice.now) self.new) };
}
