//! `abd simulate`: the history of a script's run.
ghost use Rattle.std.specs.Prelude.{◌≡◌};
ghost use Rattle.counted_devices.specs.DeviceStates.{states};
ghost use Rattle.cli.specs.Devices.{file_states};
ghost use Rattle.cli.specs.Reports.{ReportsSimulation};
ghost use Rattle.cli.specs.SimulationEndings.{EndsSimulation};

use crate::sources::Source;
use crate::status::{Failure, Status};
use counted_devices::{CountedRead, CountedWrite};
use fault_script::{SimulateError, simulate};
use std::alloc::Global;
use std::thread::Threads;

/// Reads the script, runs it, and writes what is said of its lines to `errors` and then the history
/// of the run to `out`.
///
/// Nothing goes to `out` before the whole run was made. A line that is refused is no failure: it
/// has its message, and the status is `Good`. A failure is said on `errors`, after the messages
/// that went there.
pub fn simulate_command<'a, S: CountedRead, W: CountedWrite, E: CountedWrite>(
    rt: &(impl Threads + Sync),
    alloc: Global,
    script: &mut Source<'a, S>,
    out: &mut W,
    errors: &mut E,
) -> Status
    ensures ends { EndsSimulation
        (states S.remaining S.failures script.old.reader script.new.reader)
        (states W.contents W.failures out.old out.new)
        (states E.contents E.failures errors.old errors.new)
        result }
    ensures faulty { result ≡ Status.Format → out.new ≡ out.old }
    ensures said { ReportsSimulation
        (file_states S.remaining S.failures script.old script.new)
        (states W.contents W.failures out.old out.new)
        (states E.contents E.failures errors.old errors.new)
        result }
{
    match simulate(rt, alloc, &mut script.reader, out, errors) {
        Ok(()) => Status::Good,
        Err(SimulateError::Script(error)) => {
            let name = script.name;
            Failure::Script { name, error }.report(errors)
        }
        Err(SimulateError::Memory) => Failure::Memory.report(errors),
        Err(SimulateError::Device) => Failure::Output.report(errors),
    }
}
