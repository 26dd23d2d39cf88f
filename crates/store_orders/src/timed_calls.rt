//! Calls with their linearization points.
ghost use Rattle.std.specs.Prelude.{◌≡◌, ℕ, IfOk, List, OnOk, Contains};
ghost use Rattle.recorder.specs.declared.part.Call.{Call};
ghost use Rattle.recorder.specs.Orders.{IsOrder};
ghost use Rattle.linearization_points.specs.Points.{AreApart};
ghost use Rattle.witness_order.specs.RecordOrders.{AreOrdersOf};
ghost use Rattle.store_orders.specs.TimedCalls.{AddsCalls, AreCallsWithPoints, AreSortedCalls, ShareNoNumber};

use linearization_points::points_of;
use recorder::{KeyOrder, Part, Parts};
use std::alloc::Global;
use tag::{Memory, OpId};

/// A call of a key's order, with its linearization point.
#[derive(Clone, Copy, PartialEq, Eq, PartialOrd, Ord)]
pub(crate) struct TimedCall {
    pub(crate) point: usize,
    /// Its place in the key's order.
    pub(crate) index: usize,
    pub(crate) op: OpId,
}

/// Adds the calls of an order of the part, each with its point.
fn add_calls(
    alloc: Global,
    calls: &mut Vec<TimedCall>,
    part: &Part<'_>,
    order: &[OpId],
) -> Result<(), Memory>
    requires apart { AreApart part.now }
    requires order { IsOrder part.now order.now }
    ensures { OnOk result (AddsCalls part.now order.now calls.old.items calls.new.items) }
{
    let points = points_of(alloc, part, order)?;
    for index in 0..order.len() {
        let point = points[index];
        calls.push(TimedCall {
            point,
            index,
            op: order[index],
        })?;
    }
    Ok(())
}

/// The calls of these orders of the parts, each with its point.
fn all_calls(
    alloc: Global,
    parts: &Parts<'_>,
    orders: &[KeyOrder],
) -> Result<Vec<TimedCall>, Memory>
    requires apart { (key : List ℕ) (part : List Call) → Contains parts.now.entries (key, part)
        → AreApart part }
    requires numbers { ShareNoNumber parts.now.entries }
    requires orders { AreOrdersOf parts.now.entries orders.now }
    ensures { IfOk result
        (λ calls. AreCallsWithPoints parts.now.entries orders.now calls.items) }
{
    let mut calls = Vec::new(alloc);
    for (place, own) in orders.iter().enumerate() {
        let (_key, part) = parts.entry(place);
        add_calls(alloc, &mut calls, &part, own.order.as_slice())?;
    }
    Ok(calls)
}

/// The same, sorted by point, place in the key's order, number.
pub(crate) fn sorted_calls(
    alloc: Global,
    parts: &Parts<'_>,
    orders: &[KeyOrder],
) -> Result<Vec<TimedCall>, Memory>
    requires apart { (key : List ℕ) (part : List Call) → Contains parts.now.entries (key, part)
        → AreApart part }
    requires numbers { ShareNoNumber parts.now.entries }
    requires orders { AreOrdersOf parts.now.entries orders.now }
    ensures { IfOk result (λ calls. AreSortedCalls parts.now.entries orders.now calls.items) }
{
    let mut calls = all_calls(alloc, parts, orders)?;
    calls.sort_unstable();
    Ok(calls)
}
