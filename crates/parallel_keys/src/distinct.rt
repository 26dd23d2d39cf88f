//! Whether orders are of different keys.
ghost use Rattle.std.specs.Prelude.{◌↔◌, IsTrue, IfOk};
ghost use Rattle.parallel_keys.specs.CheckedKeys.{AreDistinct};

use key_index::KeyNumbers;
use recorder::KeyOrder;
use std::alloc::Global;
use tag::Memory;

/// Whether no two of the orders are of one key, as `check_history` and `check_histories` ask. `Memory`
/// comes only where an allocation was refused.
pub fn are_distinct(alloc: Global, orders: &[KeyOrder]) -> Result<bool, Memory>
    ensures { IfOk result (λ distinct. IsTrue distinct ↔ AreDistinct orders.now) }
{
    let mut keys = KeyNumbers::new(alloc);
    for place in 0..orders.len() {
        if keys.number(&orders[place].key)? != place {
            return Ok(false);
        }
    }
    Ok(true)
}
