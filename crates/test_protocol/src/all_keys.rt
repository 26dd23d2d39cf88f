//! The order of all keys of a world's record.
use std::alloc::Global;
use store_orders::store_order;
use tag::{Memory, OpId};
use test_rows::Answer;
use witness_order::justified_orders;
use world_steps::World;

/// The order of all calls of the record that the orders of its keys make.
fn order_of(alloc: Global, world: &World) -> Result<Vec<OpId>, Memory> {
    let history = world.history();
    let orders = justified_orders(alloc, history)?;
    store_order(alloc, history, &orders)
}

fn say_calls(out: &mut Answer, calls: &[OpId]) {
    out.push("order");
    for call in calls {
        let number = call.0;
        write!(out, " {number}");
    }
}

/// Says the order of all calls of the record.
pub fn say_store_order(out: &mut Answer, world: &World) {
    match order_of(out.alloc(), world) {
        Ok(order) => say_calls(out, order.as_slice()),
        Err(Memory) => out.refuse(),
    }
}
