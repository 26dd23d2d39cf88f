//! The orders that show a record atomic.
ghost use Rattle.std.specs.Prelude.{◌≡◌, IfOk, List, ℕ, Contains};
ghost use Rattle.recorder.specs.Orders.{IsOrder};
ghost use Rattle.recorder.specs.Sound.{TagSound};
ghost use Rattle.recorder.specs.declared.part.Call.{Call};
ghost use Rattle.witness_order.specs.RecordOrders.{AreOrdersOf, HaveSoundTags, Justify};

use crate::{WitnessError, order_of};
use recorder::{History, KeyOrder, Part, Parts};
use std::alloc::Global;
use tag::{Key, Memory};

/// The order of a key's calls that their tags make.
fn key_order(alloc: Global, key: &Key, part: &Part<'_>) -> Result<KeyOrder, Memory>
    requires { TagSound part.now }
    ensures { IfOk result (λ order. (order.key ≡ key.now) × IsOrder part.now order.order) }
{
    match order_of(alloc, part) {
        Ok(order) => Ok(KeyOrder {
            key: key.copy()?,
            order,
        }),
        Err(WitnessError::Memory) => Err(Memory),
        Err(WitnessError::NoNote(_)) => unreachable!(),
    }
}

/// For each part the order that its tags make.
fn key_orders(alloc: Global, parts: &Parts<'_>) -> Result<Vec<KeyOrder>, Memory>
    requires { (key : List ℕ) (part : List Call) → Contains parts.now.entries (key, part)
        → TagSound part }
    ensures { IfOk result (λ orders. AreOrdersOf parts.now.entries orders.items) }
{
    let mut orders = Vec::with_capacity(alloc, parts.len())?;
    for place in 0..parts.len() {
        let (key, part) = parts.entry(place);
        orders.push(key_order(alloc, key.key(), &part)?)?;
    }
    Ok(orders)
}

/// For each key of the record an order of its calls, the keys as the record first sees them, where the
/// tags of each key's calls are sound. `Memory` comes only where an allocation was refused.
pub fn justified_orders(alloc: Global, history: &History) -> Result<Vec<KeyOrder>, Memory>
    requires { HaveSoundTags history.now.rows }
    ensures { IfOk result (λ orders. Justify history.now.rows orders.items) }
{
    let parts = history.parts()?;
    key_orders(alloc, &parts)
}
