//! Two observers of one run.
ghost use Rattle.std.specs.Prelude.{IfOk};
ghost use Rattle.script_runs.specs.Observing.{ObservesRun};

use crate::command::Script;
use crate::notice::Notice;
use crate::observer::Observer;
use crate::origin::Origin;
use crate::script_run::ScriptRun;
use crate::whole_run::observe;
use std::alloc::Global;
use tag::Memory;
use world_steps::{Effect, Refusal, Step, World};

/// Two observers of one run: each is told what it would be told alone.
#[derive(Drop)]
pub struct Both<A, B> {
    pub first: A,
    pub second: B,
}

impl<A: Observer, B: Observer> Observer for Both<A, B> {
    type Noted = (A::Noted, B::Noted);

    ghost sees = { λ old event new. A.sees old.first event new.first
        × B.sees old.second event new.second };

    ghost notes = { λ old origin s step new noted. A.notes old.first origin s step new.first noted.0
        × B.notes old.second origin s step new.second noted.1 };

    fn before(
        &mut self,
        world: &World,
        origin: &Origin,
        step: &Step,
    ) -> Result<(A::Noted, B::Noted), Memory> {
        let first = self.first.before(world, origin, step)?;
        let second = self.second.before(world, origin, step)?;
        Ok((first, second))
    }

    fn after(
        &mut self,
        world: &World,
        noted: (A::Noted, B::Noted),
        effect: &Effect,
    ) -> Result<(), Memory> {
        let (first, second) = noted;
        self.first.after(world, first, effect)?;
        self.second.after(world, second, effect)
    }

    fn refused(&mut self, origin: &Origin, step: &Step, why: Refusal) -> Result<(), Memory> {
        self.first.refused(origin, step, why)?;
        self.second.refused(origin, step, why)
    }

    fn ignores_refused(&self, origin: &Origin) -> bool {
        self.first.ignores_refused(origin) && self.second.ignores_refused(origin)
    }

    fn notice(&mut self, line: u64, notice: &Notice) -> Result<(), Memory> {
        self.first.notice(line, notice)?;
        self.second.notice(line, notice)
    }
}

/// Runs the script once, and has both observers told of all that happens.
///
/// `Memory` comes only where an allocation was refused, or from an observer.
pub fn observe_both<A: Observer, B: Observer>(
    alloc: Global,
    script: Script,
    first: A,
    second: B,
) -> Result<ScriptRun<Both<A, B>>, Memory>
    ensures first { IfOk result (λ run.
        ObservesRun A.sees script run.world first run.observer.first) }
    ensures second { IfOk result (λ run.
        ObservesRun B.sees script run.world second run.observer.second) }
{
    observe(alloc, script, Both { first, second })
}
