//! Files that come from a reader.
ghost use Rattle.std.specs.Prelude.{◌≡◌, IfOk, IfErr, OnOk};
ghost use Rattle.counted_devices.specs.DeviceStates.{states};
ghost use Rattle.counted_devices.specs.Deliveries.{ReadsFrom};
ghost use Rattle.counted_devices.specs.FirstFaults.{StopsFrom};
ghost use Rattle.counted_devices.specs.ReadFaults.{FailsFrom};
ghost use Rattle.file_format.specs.Files.{file_faults};
ghost use Rattle.file_format.specs.HistoriesFormat.{histories_format, MakesHistories};
ghost use Rattle.file_format.specs.HistoryFormat.{history_format, MakesHistory};
ghost use Rattle.file_format.specs.OrderFormat.{order_format, MakesJoined};
ghost use Rattle.file_format.specs.Readings.{Reads};
ghost use Rattle.history_file.specs.NumberedRows.{MakesNumbered};

use crate::headed::Headed;
use crate::history_format::FileHistory;
use crate::numbered_format::{NumberedHalls, NumberedHistories};
use crate::order_format::Orders;
use counted_devices::CountedRead;
use file_format::{FileFault, HallHistories};
use line_files::read_file;
use recorder::{Histories, History, KeyOrder};
use std::alloc::Global;
use std::thread::Threads;

/// The history that the reader's bytes are, all of them up to its end.
///
/// A file with a fault is refused with its first one: of lines that came whole the first that has
/// a fault, then `Device` at the line under way where the reader failed. `Memory` comes only where
/// an allocation was refused. The reader keeps what follows the bytes that were read.
pub fn read_history<R: CountedRead>(
    rt: &(impl Threads + Sync),
    alloc: Global,
    reader: &mut R,
) -> Result<History, FileFault>
    ensures read { IfOk result (ReadsFrom (Reads history_format MakesHistory)
        (states R.remaining R.failures reader.old reader.new)) }
    ensures counted { OnOk result (R.failures reader.new ≡ R.failures reader.old) }
    ensures fault { IfErr result (StopsFrom (file_faults history_format)
        (states R.remaining R.failures reader.old reader.new)) }
    ensures device { IfErr result (FailsFrom (states R.remaining R.failures reader.old reader.new)) }
{
    read_file::<Headed<FileHistory>, R>(rt, alloc, reader)
}

/// The histories by hall that the reader's bytes are, all of them up to its end: of version 2, or
/// of version 1, which is one hall without quorums.
///
/// A file with a fault is refused as by `read_history`.
pub fn read_histories<R: CountedRead>(
    rt: &(impl Threads + Sync),
    alloc: Global,
    reader: &mut R,
) -> Result<Histories, FileFault>
    ensures read { IfOk result (ReadsFrom (Reads histories_format MakesHistories)
        (states R.remaining R.failures reader.old reader.new)) }
    ensures counted { OnOk result (R.failures reader.new ≡ R.failures reader.old) }
    ensures fault { IfErr result (StopsFrom (file_faults histories_format)
        (states R.remaining R.failures reader.old reader.new)) }
    ensures device { IfErr result (FailsFrom (states R.remaining R.failures reader.old reader.new)) }
{
    read_file::<Headed<HallHistories>, R>(rt, alloc, reader)
}

/// The histories by hall that the reader's bytes are, as `read_histories` gives them, with the line of
/// each row.
///
/// A file with a fault is refused as by `read_history`.
pub fn read_numbered_histories<R: CountedRead>(
    rt: &(impl Threads + Sync),
    alloc: Global,
    reader: &mut R,
) -> Result<NumberedHistories, FileFault>
    ensures read { IfOk result (ReadsFrom (Reads histories_format MakesNumbered)
        (states R.remaining R.failures reader.old reader.new)) }
    ensures counted { OnOk result (R.failures reader.new ≡ R.failures reader.old) }
    ensures fault { IfErr result (StopsFrom (file_faults histories_format)
        (states R.remaining R.failures reader.old reader.new)) }
    ensures device { IfErr result (FailsFrom (states R.remaining R.failures reader.old reader.new)) }
{
    read_file::<Headed<NumberedHalls>, R>(rt, alloc, reader)
}

/// The orders that the reader's bytes are, all of them up to its end: the keys in the order of
/// their first lines, each with its pieces joined.
///
/// A file with a fault is refused as by `read_history`.
pub fn read_orders<R: CountedRead>(
    rt: &(impl Threads + Sync),
    alloc: Global,
    reader: &mut R,
) -> Result<Vec<KeyOrder>, FileFault>
    ensures read { IfOk result (λ orders. ReadsFrom (Reads order_format MakesJoined)
        (states R.remaining R.failures reader.old reader.new) orders.items) }
    ensures counted { OnOk result (R.failures reader.new ≡ R.failures reader.old) }
    ensures fault { IfErr result (StopsFrom (file_faults order_format)
        (states R.remaining R.failures reader.old reader.new)) }
    ensures device { IfErr result (FailsFrom (states R.remaining R.failures reader.old reader.new)) }
{
    read_file::<Headed<Orders>, R>(rt, alloc, reader)
}
