//! The order file that the tags of a history make, without a check of the orders.
ghost use Rattle.std.specs.Prelude.{IfOk, map};
ghost use Rattle.parallel_keys.specs.CheckedKeys.{all_parts};
ghost use Rattle.cli.specs.TagOrders.{OrdersKeys};

use crate::justify::order_file;
use crate::outcome::{Found, Outcome};
use crate::tag_orders::{TagOrders, tag_orders};
use recorder::Parts;
use std::alloc::Global;
use tag::Memory;

/// Makes each key's order from the notes of its part, and the order file.
pub(crate) fn ordered(alloc: Global, parts: &[Parts<'_>]) -> Result<Outcome, Memory>
    ensures { IfOk result (λ made. OrdersKeys (all_parts (map (λ p. p.entries) parts.now)) made.found
        made.text.items made.notes.items) }
{
    let TagOrders { orders, left_out } = tag_orders(alloc, parts)?;
    let text = order_file(alloc, orders.as_slice())?;
    let found = Found::of(left_out.is_empty());
    Ok(Outcome {
        text,
        notes: left_out,
        found,
    })
}
