//! The text of a script's trace.
ghost use Rattle.std.specs.Prelude.{IfOk};
ghost use Rattle.traces.specs.Traces.{IsTraceText};

use crate::telling::Telling;
use script_runs::{Script, observe};
use std::alloc::Global;
use tag::Memory;

/// The trace of the script: a line for each step of its run, in the order of the steps.
///
/// A line says who took the step and what came of it, or why it was refused. The steps are those
/// that `simulate` takes, so the world at the end is the same. At most `most` lines are told; then a
/// last line says how many were left out. `Memory` comes only where an allocation was refused.
pub fn trace_text(alloc: Global, script: Script, most: u32) -> Result<Vec<u8>, Memory>
    ensures { IfOk result (λ text. IsTraceText script most text.items) }
{
    let run = observe(alloc, script, Telling::new(alloc, most))?;
    run.observer.into_text()
}
