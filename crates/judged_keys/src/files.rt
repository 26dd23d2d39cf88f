//! The files whose keys are judged.
ghost use Rattle.std.specs.Prelude.{◌≡◌, [], IfOk, IfErr};
ghost use Rattle.counted_devices.specs.DeviceStates.{states};
ghost use Rattle.cli.specs.Readings.{ReadsOrders, StopsFile};
ghost use Rattle.file_format.specs.HistoriesFormat.{histories_format};
ghost use Rattle.judged_keys.specs.Files.{CanBeJudged, ReadsNumbered, StopsAt};

use counted_devices::CountedRead;
use file_format::FileFault;
use history_file::{NumberedHistories, read_numbered_histories, read_orders};
use recorder::KeyOrder;
use std::alloc::Global;
use std::thread::Threads;

/// What keys are judged by: histories, each row with its line, and orders.
#[derive(Drop)]
pub struct Files {
    pub numbered: NumberedHistories,
    pub orders: Vec<KeyOrder>,
}

/// The file that couldn't be read, and its fault.
#[derive(Clone, Copy, Debug, PartialEq, Eq)]
pub enum FaultyFile {
    /// The history.
    History(FileFault),
    /// The orders, once the history was read.
    Orders(FileFault),
}

/// The histories that the reader's bytes are, and no orders.
pub fn history_in<H: CountedRead>(
    rt: &(impl Threads + Sync),
    alloc: Global,
    history: &mut H,
) -> Result<Files, FileFault>
    ensures read { IfOk result (λ files. ReadsNumbered
        (states H.remaining H.failures history.old history.new) files.numbered) }
    ensures none { IfOk result (λ files. files.orders.items ≡ []) }
    ensures judged { IfOk result CanBeJudged }
    ensures stops { IfErr result (StopsFile histories_format
        (states H.remaining H.failures history.old history.new)) }
{
    match read_numbered_histories(rt, alloc, history) {
        Ok(numbered) => Ok(Files {
            numbered,
            orders: Vec::new(alloc),
        }),
        Err(fault) => Err(fault),
    }
}

/// The histories that the one reader's bytes are, and then the orders that the other's are.
pub fn files_in<H: CountedRead, O: CountedRead>(
    rt: &(impl Threads + Sync),
    alloc: Global,
    history: &mut H,
    orders: &mut O,
) -> Result<Files, FaultyFile>
    ensures read { IfOk result (λ files. ReadsNumbered
        (states H.remaining H.failures history.old history.new) files.numbered) }
    ensures orders { IfOk result (λ files. ReadsOrders
        (states O.remaining O.failures orders.old orders.new) files.orders.items) }
    ensures judged { IfOk result CanBeJudged }
    ensures stops { IfErr result (StopsAt
        (states H.remaining H.failures history.old history.new)
        (states O.remaining O.failures orders.old orders.new)) }
{
    let numbered = match history_in(rt, alloc, history) {
        Ok(Files { numbered, .. }) => numbered,
        Err(fault) => return Err(FaultyFile::History(fault)),
    };
    match read_orders(rt, alloc, orders) {
        Ok(orders) => Ok(Files { numbered, orders }),
        Err(fault) => Err(FaultyFile::Orders(fault)),
    }
}
