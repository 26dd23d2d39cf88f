//! Runs with their orders.
ghost use Rattle.std.specs.Prelude.{◌≡◌, IfOk};
ghost use Rattle.world_steps.specs.Runs.{after};
ghost use Rattle.witness_order.specs.RecordOrders.{Justify};
ghost use Rattle.store_orders.specs.StoreOrders.{IsLinearizableStore};

use recorder::{History, KeyOrder};
use std::alloc::Global;
use store_orders::laws::justified_records_are_of_a_linearizable_store;
use tag::Memory;
use witness_order::justified_orders;
use world_steps::{Config, Step, run};

/// The record of the world after these steps, with an order of each key's calls, the keys as the
/// record first sees them.
///
/// For every configuration and every list of steps the record is atomic: each order is one of its
/// key's part, and all calls together have one too. Steps that are refused are passed over; `Memory`
/// comes only where an allocation was refused.
pub fn justified_run(
    alloc: Global,
    config: Config,
    steps: &[Step],
) -> Result<(History, Vec<KeyOrder>), Memory>
    ensures history { IfOk result (λ run. run.0 ≡ (after config steps.now).history) }
    ensures orders { IfOk result (λ run. Justify run.0.rows run.1.items) }
    ensures store { IfOk result (λ run. IsLinearizableStore run.0.rows) }
{
    justified_records_are_of_a_linearizable_store();
    let history = run(alloc, config, steps)?.into_history();
    let _formed = history.row_count();
    let orders = justified_orders(alloc, &history)?;
    Ok((history, orders))
}
