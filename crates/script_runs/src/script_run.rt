//! A script's run: each of its steps is taken here, and its observer is told of it.
ghost use Rattle.std.specs.Prelude.{◌≡◌, None, IfOk, IsSome, MatchOption, OnOk, is_none};
ghost use Rattle.random_steps.specs.Choices.{draw, step_of};
ghost use Rattle.world_settle.specs.StepsLeft.{BeginsAt};
ghost use Rattle.world_steps.specs.Refusals.{refusal_of};
ghost use Rattle.world_steps.specs.Runs.{next};
ghost use Rattle.script_runs.specs.Events.{tries, walk_tried};
ghost use Rattle.script_runs.specs.Observing.{Observes};
ghost use Rattle.script_runs.specs.Running.{ObservesOn, ObservesSettling, Walks};
ghost use Rattle.script_runs.specs.Walks.{walk_from};
ghost use Rattle.script_runs.specs.declared.command.Command.{Command};

use crate::command::{Command, NumberedCommand};
use crate::notice::Notice;
use crate::observer::Observer;
use crate::origin::{CommandKind, Origin};
use random_steps::RandomSteps;
use std::alloc::Global;
use tag::{ClientId, Memory};
use world_settle::SettleSteps;
use world_steps::{Step, World};

/// The world as the steps so far left it, and the observer that was told of them.
#[derive(Drop)]
pub struct ScriptRun<O> {
    pub world: World,
    pub observer: O,
}

impl<O: Observer> ScriptRun<O> {
    /// Takes a step that nothing refuses.
    fn take(&mut self, origin: &Origin, step: Step) -> Result<(), Memory>
        requires { refusal_of self.old.world step ≡ None }
        ensures seen { OnOk result (O.sees self.old.observer
            (tries origin.now self.old.world step) self.new.observer) }
        ensures system { OnOk result (self.new.world ≡ next self.old.world step) }
    {
        let noted = self.observer.before(&self.world, origin, &step)?;
        let effect = self.world.take(step)?;
        self.observer.after(&self.world, noted, &effect)
    }

    /// Takes the step unless it is refused, and answers whether it was taken.
    fn try_step(&mut self, origin: &Origin, step: Step) -> Result<bool, Memory>
        ensures seen { OnOk result (O.sees self.old.observer
            (tries origin.now self.old.world step) self.new.observer) }
        ensures system { OnOk result (self.new.world ≡ next self.old.world step) }
        ensures taken { IfOk result (λ taken.
            taken ≡ is_none (refusal_of self.old.world step)) }
    {
        if let Some(why) = self.world.refusal(&step) {
            self.observer.refused(origin, &step, why)?;
            return Ok(false);
        }
        self.take(origin, step)?;
        Ok(true)
    }

    /// The next random step; none if it is refused, and its refusal is nothing to the observer.
    fn next_random(
        &self,
        alloc: Global,
        origin: &Origin,
        steps: &mut RandomSteps,
    ) -> Result<Option<Step>, Memory>
        ensures step { let chosen = step_of self.now.world (draw steps.old) in
            IfOk result (λ found. MatchOption found
            (IsSome (refusal_of self.now.world chosen)
            × O.sees self.now.observer (tries origin.now self.now.world chosen) self.now.observer)
            (λ step. step ≡ chosen)) }
        ensures drawn { OnOk result (steps.new ≡ (draw steps.old).rest) }
    {
        if self.observer.ignores_refused(origin) {
            return steps.next_unless_busy(alloc, &self.world);
        }
        Ok(Some(steps.next(alloc, &self.world)?))
    }

    /// Takes the next random step unless it is refused, and answers whether it was taken.
    fn stride(
        &mut self,
        alloc: Global,
        origin: &Origin,
        steps: &mut RandomSteps,
    ) -> Result<bool, Memory>
        ensures seen { OnOk result (O.sees self.old.observer (tries origin.now self.old.world
            (step_of self.old.world (draw steps.old))) self.new.observer) }
        ensures system { OnOk result
            (self.new.world ≡ next self.old.world (step_of self.old.world (draw steps.old))) }
        ensures drawn { OnOk result (steps.new ≡ (draw steps.old).rest) }
        ensures taken { IfOk result (λ taken. taken
            ≡ is_none (refusal_of self.old.world (step_of self.old.world (draw steps.old)))) }
    {
        match self.next_random(alloc, origin, steps)? {
            Some(step) => self.try_step(origin, step),
            None => Ok(false),
        }
    }

    /// Takes so many random steps of that seed, and answers how many of them weren't refused.
    fn walk(&mut self, alloc: Global, origin: &Origin, seed: u64, count: u32) -> Result<u32, Memory>
        ensures seen { OnOk result (Observes O.sees self.old.observer
            (walk_tried origin.now (walk_from self.old.world seed) count) self.new.observer) }
        ensures walks { IfOk result
            (λ taken. Walks self.old.world seed count self.new.world taken) }
    {
        let mut steps = RandomSteps::new(seed);
        let mut taken = 0;
        for _turn in 0..count {
            taken += u32::from(self.stride(alloc, origin, &mut steps)?);
        }
        Ok(taken)
    }

    /// Takes the steps that complete a client's call, and answers how many there were.
    fn settle(
        &mut self,
        origin: &Origin,
        client: ClientId,
        mut steps: SettleSteps,
    ) -> Result<u32, Memory>
        requires { BeginsAt self.old.world client steps }
        ensures { IfOk result (λ count. ObservesSettling O.sees origin.now client count
            self.old.observer self.old.world self.new.observer self.new.world) }
    {
        let mut count = 0;
        while let Some(step) = steps.next(&self.world) {
            self.take(origin, step)?;
            count += 1;
        }
        Ok(count)
    }

    /// Runs the command of that line which completes the client's pending call.
    fn finish(&mut self, line: u64, client: ClientId) -> Result<(), Memory>
        ensures { OnOk result (ObservesOn O.sees self.old.observer self.old.world line
            (Command.Finish client) self.new.observer self.new.world) }
    {
        match SettleSteps::new(&self.world, client) {
            Ok(steps) => {
                let kind = CommandKind::Finish(client);
                self.observer.notice(line, &Notice::Finishes(client))?;
                let count = self.settle(&Origin { line, kind }, client, steps)?;
                self.observer.notice(line, &Notice::Finished(count))
            }
            Err(why) => self.observer.notice(line, &Notice::Unfinished(client, why)),
        }
    }

    /// Runs the command of that line which takes so many random steps of that seed.
    fn randomize(&mut self, alloc: Global, line: u64, seed: u64, count: u32) -> Result<(), Memory>
        ensures { OnOk result (ObservesOn O.sees self.old.observer self.old.world line
            (Command.Random seed count) self.new.observer self.new.world) }
    {
        let kind = CommandKind::Random { seed, count };
        self.observer
            .notice(line, &Notice::Randomizes { seed, count })?;
        let taken = self.walk(alloc, &Origin { line, kind }, seed, count)?;
        self.observer
            .notice(line, &Notice::Randomized { taken, count })
    }

    /// Runs the command.
    pub(crate) fn run(&mut self, alloc: Global, numbered: NumberedCommand) -> Result<(), Memory>
        ensures { OnOk result (ObservesOn O.sees self.old.observer self.old.world numbered.line
            numbered.command self.new.observer self.new.world) }
    {
        let NumberedCommand { line, command } = numbered;
        match command {
            Command::Step(step) => {
                let kind = CommandKind::Step;
                self.try_step(&Origin { line, kind }, step)?;
                Ok(())
            }
            Command::Finish(client) => self.finish(line, client),
            Command::Random { seed, count } => self.randomize(alloc, line, seed, count),
        }
    }
}
