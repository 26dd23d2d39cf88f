//! What a closed store leaves: the records of its halls, and the orders that show them atomic.
ghost use Rattle.std.specs.Prelude.{◌≡◌, false, true, length, IfOk, IsTrue};
ghost use Rattle.node_threads.specs.Closings.{AreClosed, AreOfStore, HasLogs, HaveLogs, IsClosed};
ghost use Rattle.node_threads.specs.Closings.{IsOfAnotherStore, IsOfStore};

use crate::config::StoreConfig;
use crossbeam_channel::{Receiver, Sender};
use hall_journal::Hall;
use hall_lock::FreePass;
use recorder::{History, KeyOrder};
use seats::{Parcel, Seat, entries_of_hall, is_log};
use std::alloc::Global;
use std::sync::{Mutex, Wait};
use store_orders::laws::justified_records_are_of_a_linearizable_store;
use tag::{Memory, ReplicaId};
use witness_order::justified_orders;
use world_steps::{Config, Step};

/// What a hall of a closed store leaves.
#[derive(Drop)]
pub struct ClosedHall {
    /// What was fixed of its world.
    pub config: Config,
    /// Its record.
    pub history: History,
    /// The steps that it took, the first first.
    pub journal: Vec<Step>,
    /// For each key of the record an order of its calls, the keys as the record first sees them.
    pub orders: Vec<KeyOrder>,
}

/// What a closed store leaves.
#[derive(Drop)]
pub struct Closed {
    /// Its halls, hall 0 first.
    pub halls: Vec<ClosedHall>,
}

/// Has the replicas' threads end, and waits until they have.
pub(crate) fn end_replicas<R: Wait>(
    rt: &R,
    channels: Vec<Sender<Parcel>>,
    ends: &Receiver<ReplicaId>,
) {
    let count = channels.len();
    drop(channels);
    for _ in 0..count {
        let _ = ends.recv(rt);
    }
}

/// Whether the seat is of the store that is so configured, and of as many halls.
pub(crate) fn is_of_store(config: &StoreConfig, seat: &Seat) -> bool
    ensures own { IsTrue result → IsOfStore config.now seat.now }
    ensures known { IsOfStore config.now seat.now → result ≡ true }
    ensures other { IsOfAnotherStore config.now seat.now → result ≡ false }
{
    if seat.store() != config.store {
        return false;
    }
    seat.halls() == usize::from(config.halls.count())
}

/// Whether the seats are of the store that is so configured.
pub(crate) fn are_of_store(config: &StoreConfig, seats: &[Seat]) -> bool
    ensures { IsTrue result → AreOfStore config.now seats.now }
{
    for seat in seats {
        if !is_of_store(config, seat) {
            return false;
        }
    }
    true
}

/// Receives the halls for good: the record of each, and its orders.
pub(crate) fn closed_halls<R: Wait>(
    rt: &R,
    alloc: Global,
    roots: Vec<Mutex<FreePass>>,
) -> Result<Vec<ClosedHall>, Memory>
    ensures count { IfOk result (λ halls. length halls.items ≡ length roots.items) }
    ensures closed { IfOk result (λ halls. AreClosed halls.items) }
{
    let mut halls = Vec::new(alloc);
    for root in roots {
        let hall = root.into_inner().into_hall(rt);
        halls.push(closed_hall(alloc, hall)?)?;
    }
    Ok(halls)
}

/// The record of a hall, and its orders.
fn closed_hall(alloc: Global, hall: Hall) -> Result<ClosedHall, Memory>
    ensures { IfOk result (λ closed. IsClosed closed) }
{
    justified_records_are_of_a_linearizable_store();
    let (config, world, journal) = hall.into_parts();
    let history = world.into_history();
    let _formed = history.row_count();
    let orders = justified_orders(alloc, &history)?;
    Ok(ClosedHall {
        config,
        history,
        journal,
        orders,
    })
}

/// Whether each seat's entries of each hall are its client's calls in that hall's record.
pub(crate) fn are_logged(
    alloc: Global,
    halls: &[ClosedHall],
    seats: &[Seat],
) -> Result<bool, Memory>
    ensures { IfOk result (λ logged. IsTrue logged
        → HaveLogs halls.now seats.now) }
{
    for seat in seats {
        if !is_logged(alloc, halls, seat)? {
            return Ok(false);
        }
    }
    Ok(true)
}

/// Whether the seat's entries of each hall are its client's calls in that hall's record.
fn is_logged(alloc: Global, halls: &[ClosedHall], seat: &Seat) -> Result<bool, Memory>
    ensures { IfOk result (λ logged. IsTrue logged
        → HasLogs halls.now seat.now) }
{
    for hall in 0..halls.len() {
        let entries = entries_of_hall(alloc, seat.log(), hall)?;
        if !is_log(&halls[hall].history, seat.client(), &entries) {
            return Ok(false);
        }
    }
    Ok(true)
}
