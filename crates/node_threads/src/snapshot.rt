//! Copies of records, beside the log of a seat.
ghost use Rattle.std.specs.Prelude.{IfOk};
ghost use Rattle.node_threads.specs.Snapshots.{IsSnapshotFor};

use hall_lock::FreePass;
use recorder::History;
use seats::{CallError, Seat, entries_of_hall, is_log};
use std::alloc::Global;
use std::sync::{Mutex, Wait};
use world_steps::laws;

/// A copy of the hall's record, if it has what the seat has seen of it, and its client's calls.
pub(crate) fn snapshot_of<R: Wait>(
    rt: &R,
    alloc: Global,
    root: &Mutex<FreePass>,
    seat: &Seat,
    hall: u8,
) -> Result<History, CallError>
    ensures { IfOk result (λ history. IsSnapshotFor history seat.now hall) }
{
    laws::steps_keep_a_system_sound();
    let at = usize::from(hall);
    let history = root.lock(rt).history(rt)?;
    let entries = entries_of_hall(alloc, seat.log(), at)?;
    if history.row_count() < seat.seen(hall) {
        return Err(CallError::Foreign);
    }
    if !is_log(&history, seat.client(), &entries) {
        return Err(CallError::Foreign);
    }
    Ok(history)
}
