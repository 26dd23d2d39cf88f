//! Pieces of orders, joined by key.
ghost use Rattle.std.specs.Prelude.{◌≡◌, [], ◌++◌, OnOk};
ghost use Rattle.file_format.specs.Joins.{Joins};

use crate::order_piece::OrderPiece;
use key_index::KeyNumbers;
use recorder::{KeyOrder, Order};
use std::alloc::Global;
use std::marker::Model;
use tag::{Memory, OpId};

/// Orders by key, each key once, in the order in which they were first seen.
///
/// A key is found in a time that grows with the logarithm of their count, whatever the keys are.
#[derive(Drop)]
pub struct JoinedOrders {
    list: Vec<KeyOrder>,
    /// The keys: a key's number is the place of its order.
    places: KeyNumbers,
}

impl Model for JoinedOrders {
    ghost use Rattle.std.specs.Prelude.{◌≡◌, List, map};
    ghost use Rattle.recorder.specs.declared.order.KeyOrder.{KeyOrder};

    ghost Value = { List KeyOrder };

    ghost view = { λ o. o.list.items };

    ghost invariant = { λ o. o.places ≡ map (λ one. one.key) o.list.items };
}

impl JoinedOrders {
    /// No order.
    pub fn new(alloc: Global) -> JoinedOrders
        ensures { result ≡ [] }
    {
        JoinedOrders {
            list: Vec::new(alloc),
            places: KeyNumbers::new(alloc),
        }
    }

    /// The orders, in the order of their keys.
    pub fn into_list(self) -> Vec<KeyOrder>
        ensures { result.items ≡ self }
    {
        let JoinedOrders { list, .. } = self;
        list
    }
}

/// Adds the calls at the end.
fn append(order: &mut Order, calls: &[OpId]) -> Result<(), Memory>
    ensures { OnOk result (order.new ≡ order.old ++ calls.now) }
{
    for call in calls {
        order.push(*call)?;
    }
    Ok(())
}

/// Joins the piece to the order of its key, which it begins where the key has none.
pub fn join(orders: &mut JoinedOrders, piece: OrderPiece) -> Result<(), Memory>
    ensures { OnOk result (Joins orders.old piece orders.new) }
{
    let OrderPiece { texts, order } = piece;
    let key = texts.to_key(*orders.list.allocator())?;
    // Whatever can be refused comes first, so that each key keeps its place.
    orders.list.reserve(1)?;
    let place = orders.places.number(&key)?;
    if place < orders.list.len() {
        return append(&mut orders.list[place].order, order.as_slice());
    }
    orders.list.push(KeyOrder { key, order })?;
    Ok(())
}
