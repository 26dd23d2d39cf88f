//! The run of a whole script.
ghost use Rattle.std.specs.Prelude.{IfOk};
ghost use Rattle.script_runs.specs.Observing.{ObservesRun};

use crate::command::Script;
use crate::observer::Observer;
use crate::script_run::ScriptRun;
use std::alloc::Global;
use tag::Memory;
use world_steps::World;

/// Runs the script, and has the observer told of all that happens. The run at the end.
///
/// `Memory` comes only where an allocation was refused, or from the observer.
pub fn observe<O: Observer>(
    alloc: Global,
    script: Script,
    observer: O,
) -> Result<ScriptRun<O>, Memory>
    ensures { IfOk result (λ run.
        ObservesRun O.sees script run.world observer run.observer) }
{
    let Script { config, commands } = script;
    let world = World::new(alloc, config)?;
    let mut run = ScriptRun { world, observer };
    for numbered in commands {
        run.run(alloc, numbered)?;
    }
    Ok(run)
}
