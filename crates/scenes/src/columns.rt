//! The columns of a scene: each lane has its own, or, if there are many, lanes share some.
ghost use Rattle.std.specs.Prelude.{ℕ, ◌≡◌, ◌<◌, ◌↔◌, IfOk, Some, Contains, length, slice_get};
ghost use Rattle.std.specs.List.Sorted.{IsStrictlyIncreasing};
ghost use Rattle.scenes.specs.Columns.{AreColumnsOf, StandsIn};
ghost use Rattle.scenes.specs.FirstFit.{AreInLanes, AreCountedColumns};

use crate::Bar;
use crate::first_fit::{last_ends, shared_columns};
use std::alloc::Global;
use tag::{ClientId, Memory};

/// The most lanes that have a column each.
pub(crate) const OWN_COLUMNS: usize = 16;

/// A column of a scene.
#[derive(Debug, Drop)]
pub struct Column {
    /// The clients whose lanes stand in it, in rising order.
    pub clients: Vec<ClientId>,
}

/// In which column each lane stands, and how many columns there are.
#[derive(Debug, Drop)]
pub(crate) struct LaneColumns {
    pub(crate) of_lanes: Vec<usize>,
    pub(crate) count: usize,
}

/// A column of its own for each of so many lanes.
fn own_columns(alloc: Global, lanes: usize) -> Result<LaneColumns, Memory>
    ensures all { IfOk result (λ all. length all.of_lanes.items ≡ lanes) }
    ensures own { IfOk result (λ all. (lane : ℕ) → lane < lanes
        → slice_get all.of_lanes.items lane ≡ Some lane) }
    ensures count { IfOk result (λ all. all.count ≡ lanes) }
{
    let mut of_lanes = Vec::with_capacity(alloc, lanes)?;
    for lane in 0..lanes {
        of_lanes.push(lane)?;
    }
    Ok(LaneColumns {
        of_lanes,
        count: lanes,
    })
}

/// The columns of so many lanes, whose bars these are.
pub(crate) fn lane_columns(alloc: Global, lanes: usize, bars: &[Bar]) -> Result<LaneColumns, Memory>
    requires { AreInLanes lanes bars.now }
    ensures { IfOk result
        (λ all. AreCountedColumns bars.now lanes all.of_lanes.items all.count) }
{
    if lanes <= OWN_COLUMNS {
        own_columns(alloc, lanes)
    } else {
        let ends = last_ends(alloc, lanes, bars)?;
        shared_columns(alloc, bars, &ends)
    }
}

/// The clients of the lanes that stand in the column of that number.
fn clients_in(
    alloc: Global,
    lanes: &[ClientId],
    columns: &[usize],
    number: usize,
) -> Result<Vec<ClientId>, Memory>
    requires all { length columns.now ≡ length lanes.now }
    requires rising { IsStrictlyIncreasing lanes.now }
    ensures rising { IfOk result (λ clients. IsStrictlyIncreasing clients.items) }
    ensures clients { IfOk result (λ clients. (client : ℕ) → Contains clients.items client
        ↔ StandsIn lanes.now columns.now number client) }
{
    let mut clients = Vec::new(alloc);
    for lane in 0..lanes.len() {
        if columns[lane] == number {
            clients.push(lanes[lane])?;
        }
    }
    Ok(clients)
}

/// So many columns, each with its clients.
pub(crate) fn columns_of(
    alloc: Global,
    lanes: &[ClientId],
    columns: &[usize],
    count: usize,
) -> Result<Vec<Column>, Memory>
    requires all { length columns.now ≡ length lanes.now }
    requires rising { IsStrictlyIncreasing lanes.now }
    requires each { (number : ℕ) → number < count
        → (lane : ℕ) × (slice_get columns.now lane ≡ Some number) }
    requires within { (lane number : ℕ) → slice_get columns.now lane ≡ Some number
        → number < count }
    ensures { IfOk result (λ all. AreColumnsOf lanes.now columns.now all.items) }
{
    let mut all = Vec::with_capacity(alloc, count)?;
    for number in 0..count {
        let clients = clients_in(alloc, lanes, columns, number)?;
        all.push(Column { clients })?;
    }
    Ok(all)
}
