//! `abd trace`: the trace of a script.
ghost use Rattle.traces.specs.Traces.{IsTraceText};
ghost use Rattle.cli.specs.Devices.{file_states, writer_states};
ghost use Rattle.trace_command.specs.Endings.{EndsOnScript};

use crate::scripts::{made_of, script_in};
use cli::{Source, Status, conclude};
use counted_devices::{CountedRead, CountedWrite};
use std::alloc::Global;
use std::thread::Threads;
use traces::trace_text;

/// Reads the script, runs it, and prints its trace: a line for each step of its run, in the order of
/// the steps, `most` lines at most, and then, if some were left out, how many.
///
/// The steps are those that `simulate_command` takes. A step that is refused is no failure: its line
/// says why, and the status is `Good`. What goes to `out` is that text, once the whole of it is made,
/// or after a failure of `out` a beginning of it; nothing where the script has a fault. A failure is
/// said on `errors`.
pub fn trace_command<'a, S: CountedRead, W: CountedWrite, E: CountedWrite>(
    rt: &(impl Threads + Sync),
    alloc: Global,
    script: &mut Source<'a, S>,
    most: u32,
    out: &mut W,
    errors: &mut E,
) -> Status
    ensures { EndsOnScript (λ read text. IsTraceText read most text)
        (file_states S.remaining S.failures script.old script.new)
        (writer_states W.contents W.failures out.old out.new)
        (writer_states E.contents E.failures errors.old errors.new)
        result }
{
    match script_in(rt, alloc, script) {
        Ok(script) => conclude(made_of(alloc, trace_text(alloc, script, most)), out, errors),
        Err(failure) => failure.report(errors),
    }
}
