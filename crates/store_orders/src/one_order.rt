//! The order of the whole store.
ghost use Rattle.std.specs.Prelude.{◌≡◌, IfOk, map};
ghost use Rattle.witness_order.specs.RecordOrders.{Justify};
ghost use Rattle.store_orders.specs.StoreOrders.{IsStoreOrder};
ghost use Rattle.store_orders.specs.Turns.{AreTurns};

use crate::timed_calls::{TimedCall, sorted_calls};
use recorder::laws::{a_part_is_one_list, the_parts_are_one_list};
use recorder::{History, KeyOrder};
use std::alloc::{AllocError, Global};
use tag::{Memory, OpId};

/// The numbers of these calls.
fn numbers(alloc: Global, calls: &[TimedCall]) -> Result<Vec<OpId>, AllocError>
    ensures { IfOk result (λ ops. ops.items ≡ map (λ call. call.op) calls.now) }
{
    calls.iter().map(|call| call.op).collect(alloc)
}

/// One order of all calls, made of an order of each key: by linearization point, then by place in the
/// key's order, then by number. So each key's calls keep their order, and no call stands before one
/// that ended before it began, whatever their keys.
///
/// It takes `n log n` steps, and answers `Memory` only where an allocation was refused.
pub fn store_order(
    alloc: Global,
    history: &History,
    orders: &[KeyOrder],
) -> Result<Vec<OpId>, Memory>
    requires { Justify history.now.rows orders.now }
    ensures order { IfOk result (λ order. IsStoreOrder history.now.rows order.items) }
    ensures turns { IfOk result (λ order. AreTurns history.now.rows orders.now order.items) }
{
    a_part_is_one_list();
    the_parts_are_one_list();
    let _formed = history.row_count();
    let parts = history.parts()?;
    let calls = sorted_calls(alloc, &parts, orders)?;
    Ok(numbers(alloc, &calls)?)
}
