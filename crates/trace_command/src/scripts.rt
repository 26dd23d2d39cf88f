//! Scripts that were read, and what is made of them.
ghost use Rattle.std.specs.Prelude.{◌≡◌, [], IfOk, IfErr, Ok};
ghost use Rattle.counted_devices.specs.Deliveries.{ReadsFrom};
ghost use Rattle.counted_devices.specs.DeviceStates.{states};
ghost use Rattle.fault_script.specs.Scripts.{IsScript};
ghost use Rattle.cli.specs.Devices.{file_states};
ghost use Rattle.cli.specs.Reports.{IsScriptFault};
ghost use Rattle.cli.specs.declared.status.Failure.TheVariants as failure;

use cli::{Failure, Found, Made, Outcome, Source};
use counted_devices::CountedRead;
use fault_script::{Script, parse};
use std::alloc::Global;
use std::thread::Threads;
use tag::Memory;

/// The script that the file is.
pub(crate) fn script_in<'a, R: CountedRead>(
    rt: &(impl Threads + Sync),
    alloc: Global,
    source: &mut Source<'a, R>,
) -> Result<Script, Failure<'a>>
    ensures read { IfOk result (ReadsFrom IsScript
        (states R.remaining R.failures source.old.reader source.new.reader)) }
    ensures stops { IfErr result (IsScriptFault
        (file_states R.remaining R.failures source.old source.new)) }
{
    match parse(rt, alloc, &mut source.reader) {
        Ok(script) => Ok(script),
        Err(error) => Err(Failure::Script {
            name: source.name,
            error,
        }),
    }
}

/// The outcome of a text that was made of a script: all is well, whatever its run.
pub(crate) fn made_of(alloc: Global, text: Result<Vec<u8>, Memory>) -> Made<'static>
    ensures text { IfOk result (λ outcome. text ≡ Ok outcome.text) }
    ensures good { IfOk result (λ outcome. outcome.found ≡ Found.Good) }
    ensures quiet { IfOk result (λ outcome. outcome.notes.items ≡ []) }
    ensures stops { IfErr result (λ why. why ≡ failure.Memory) }
{
    Ok(Outcome::of_text(alloc, text?, Found::Good))
}
