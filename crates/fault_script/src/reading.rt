//! Scripts from readers.
ghost use Rattle.std.specs.Prelude.{◌≡◌, IfErr, IfOk, OnOk};
ghost use Rattle.counted_devices.specs.Deliveries.{ReadsFrom};
ghost use Rattle.counted_devices.specs.DeviceStates.{states};
ghost use Rattle.counted_devices.specs.FirstFaults.{StopsFrom};
ghost use Rattle.counted_devices.specs.ReadFaults.{FailsFrom};
ghost use Rattle.fault_script.specs.Scripts.{IsScript, script_faults};

use crate::ScriptError;
use crate::draft::Draft;
use counted_devices::CountedRead;
use line_files::read_file;
use script_runs::Script;
use std::alloc::Global;
use std::thread::Threads;

/// The script that the reader's bytes are, all of them up to its end.
///
/// Bytes with a fault are refused with their first one: of lines that came whole the first that has
/// a fault, then `Device` at the line under way where the reader failed. `Memory` comes only where
/// an allocation was refused. The reader keeps what follows the bytes that were read.
pub fn parse<R: CountedRead>(
    rt: &(impl Threads + Sync),
    alloc: Global,
    reader: &mut R,
) -> Result<Script, ScriptError>
    ensures read { IfOk result (ReadsFrom IsScript (states R.remaining R.failures reader.old reader.new)) }
    ensures counted { OnOk result (R.failures reader.new ≡ R.failures reader.old) }
    ensures fault { IfErr result (StopsFrom script_faults (states R.remaining R.failures reader.old reader.new)) }
    ensures device { IfErr result (FailsFrom (states R.remaining R.failures reader.old reader.new)) }
{
    read_file::<Draft, R>(rt, alloc, reader)
}
