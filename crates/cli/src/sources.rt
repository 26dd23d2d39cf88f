//! Files that were opened, and what is read from them.
ghost use Rattle.std.specs.Prelude.{◌≡◌, IfOk, IfErr};
ghost use Rattle.counted_devices.specs.Deliveries.{ReadsFrom};
ghost use Rattle.counted_devices.specs.DeviceStates.{states};
ghost use Rattle.file_format.specs.HistoriesFormat.{histories_format};
ghost use Rattle.file_format.specs.OrderFormat.{order_format, MakesJoined};
ghost use Rattle.file_format.specs.Readings.{Reads};
ghost use Rattle.cli.specs.Devices.{file_states};
ghost use Rattle.cli.specs.Readings.{ReadsHistories};
ghost use Rattle.cli.specs.Reports.{IsFaultOf};
ghost use Rattle.cli.specs.declared.status.Failure.TheVariants.{File};

use crate::status::Failure;
use counted_devices::CountedRead;
use file_format::FileFault;
use history_file::{read_histories, read_orders};
use recorder::{Histories, KeyOrder};
use std::alloc::Global;
use std::thread::Threads;

/// A file that was opened: its name as it was given, and its bytes.
#[derive(Drop)]
pub struct Source<'a, R> {
    pub name: &'a str,
    pub reader: R,
}

impl<'a, R> Source<'a, R> {
    /// The file of that name.
    pub fn new(name: &'a str, reader: R) -> Source<'a, R>
        ensures name { result.name ≡ name.entry }
        ensures reader { result.reader ≡ reader }
    {
        Source { name, reader }
    }

    /// That the file has that fault.
    pub fn faulty(&self, fault: FileFault) -> Failure<'a>
        ensures { result ≡ File self.now.name fault }
    {
        let name = self.name;
        Failure::File { name, fault }
    }
}

/// The histories that the file is.
pub(crate) fn histories_in<'a, R: CountedRead>(
    rt: &(impl Threads + Sync),
    alloc: Global,
    source: &mut Source<'a, R>,
) -> Result<Histories, Failure<'a>>
    ensures read { IfOk result (ReadsHistories
        (states R.remaining R.failures source.old.reader source.new.reader)) }
    ensures told { IfErr result (IsFaultOf histories_format
        (file_states R.remaining R.failures source.old source.new)) }
{
    match read_histories(rt, alloc, &mut source.reader) {
        Ok(histories) => Ok(histories),
        Err(fault) => Err(source.faulty(fault)),
    }
}

/// The orders that the file is.
pub fn orders_in<'a, R: CountedRead>(
    rt: &(impl Threads + Sync),
    alloc: Global,
    source: &mut Source<'a, R>,
) -> Result<Vec<KeyOrder>, Failure<'a>>
    ensures read { IfOk result (λ orders. ReadsFrom (Reads order_format MakesJoined)
        (states R.remaining R.failures source.old.reader source.new.reader) orders.items) }
    ensures told { IfErr result (IsFaultOf order_format
        (file_states R.remaining R.failures source.old source.new)) }
{
    match read_orders(rt, alloc, &mut source.reader) {
        Ok(orders) => Ok(orders),
        Err(fault) => Err(source.faulty(fault)),
    }
}
