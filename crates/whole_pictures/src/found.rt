//! What is shown beside the calls: one order of them all, or why a key is refused.
ghost use Rattle.std.specs.Prelude.{IfOk};
ghost use Rattle.witness_order.specs.RecordOrders.{Justify};
ghost use Rattle.judged_keys.specs.Findings.{IsSo};
ghost use Rattle.judged_keys.specs.Judgements.{judgement_of};
ghost use Rattle.whole_pictures.specs.WholeScenes.{CanBeShown, CanHavePoints, IsNoOrder, IsOneOrder};
ghost use Rattle.whole_pictures.specs.WholeScenes.{IsShownOf};

use crate::together::Together;
use draw_command::{Why, why_of};
use explanations::HallRows;
use judged_keys::JudgedKey;
use recorder::KeyOrder;
use std::alloc::Global;
use store_orders::laws::a_store_order_is_ordered_by_key;
use store_orders::store_order;
use tag::{Memory, OpId};

/// What a picture of all keys shows beside the calls.
#[derive(Drop)]
pub(crate) struct Shown {
    /// The order whose points are shown; no call where there is none.
    pub(crate) order: Vec<OpId>,
    /// Why a key is refused; nothing if none is.
    pub(crate) why: Why,
}

/// One order of all calls, and no reason.
fn one_order(alloc: Global, hall: &HallRows<'_>, orders: &[KeyOrder]) -> Result<Shown, Memory>
    requires { Justify hall.now.history.now.rows orders.now }
    ensures shown { IfOk result (λ shown. IsOneOrder hall.now orders.now shown.order.items
        shown.why.text.items shown.why.faulty.items) }
    ensures points { IfOk result
        (λ shown. CanHavePoints hall.now.history.now.rows shown.order.items) }
{
    a_store_order_is_ordered_by_key();
    let order = store_order(alloc, hall.history, orders)?;
    let text = Vec::new(alloc);
    let faulty = Vec::new(alloc);
    Ok(Shown {
        order,
        why: Why { text, faulty },
    })
}

/// No order, and why the key is refused.
fn no_order(alloc: Global, hall: &HallRows<'_>, key: &JudgedKey<'_>) -> Result<Shown, Memory>
    requires { let j = judgement_of key.now in IsSo j.one j.finding }
    ensures shown { IfOk result (λ shown. IsNoOrder hall.now key.now shown.order.items
        shown.why.text.items shown.why.faulty.items) }
    ensures points { IfOk result
        (λ shown. CanHavePoints hall.now.history.now.rows shown.order.items) }
{
    let why = why_of(alloc, hall, key)?;
    let order = Vec::new(alloc);
    Ok(Shown { order, why })
}

/// What is shown beside the calls of a hall of whose keys that was found together.
pub(crate) fn shown_of(
    alloc: Global,
    hall: &HallRows<'_>,
    together: &Together<'_>,
) -> Result<Shown, Memory>
    requires { CanBeShown hall.now.history.now.rows together.now }
    ensures shown { IfOk result (λ shown. IsShownOf hall.now together.now shown.order.items
        shown.why.text.items shown.why.faulty.items) }
    ensures points { IfOk result
        (λ shown. CanHavePoints hall.now.history.now.rows shown.order.items) }
{
    match together {
        Together::Ordered(orders) => one_order(alloc, hall, orders),
        Together::Refused(key, _) => no_order(alloc, hall, key),
        Together::Undecided(key) => no_order(alloc, hall, key),
    }
}
