//! Laws of store orders, each the contract of a function that does nothing.
ghost use Rattle.std.specs.Prelude.{◌≡◌, ◌<◌, ◌↔◌, ℕ, Contains, List};
ghost use Rattle.tag.specs.declared.numbers.OpId.{OpId};
ghost use Rattle.recorder.specs.declared.order.KeyOrder.{KeyOrder};
ghost use Rattle.recorder.specs.declared.row.Row.{Row};
ghost use Rattle.recorder.specs.declared.part.Call.{Call};
ghost use Rattle.recorder.specs.Histories.{IsWellFormed};
ghost use Rattle.recorder.specs.Orders.{IsLinearizable, IsOrder};
ghost use Rattle.recorder.specs.Parts.{IsSequence, Precedes};
ghost use Rattle.recorder.specs.Records.{AreParts, IsPart};
ghost use Rattle.linearization_points.specs.Points.{AreApart, ArePoints};
ghost use Rattle.witness_order.specs.RecordOrders.{Justify};
ghost use Rattle.store_orders.specs.StoreOrders.{IsLinearizableStore, IsStoreOrder, StandsIn};
ghost use Rattle.store_orders.specs.Turns.{AreCallsOf, AreInTurn, IsOrderedByKey};

use linearization_points::laws::precedence_is_kept_where_there_are_points;
use recorder::laws::a_part_is_one_list;

/// In an order of the store the calls of each key stand in an order of the key's part.
pub fn a_store_order_has_an_order_of_each_key()
    ensures { (rows : List Row) (order : List OpId) (key : List ℕ) (part : List Call)
        → IsStoreOrder rows order → IsPart rows key part
        → (turn : List OpId) × AreInTurn part order turn × IsOrder part turn }
{}

/// Linearizability is local: a store is linearizable exactly if the part of each key is.
pub fn linearizability_is_local()
    ensures { (rows : List Row) (parts : List (List ℕ × List Call)) → IsWellFormed rows
        → AreParts rows parts → IsLinearizableStore rows
        ↔ ((key : List ℕ) (part : List Call) → Contains parts (key, part) → IsLinearizable part) }
{
    a_part_is_one_list();
}

/// Orders of all keys show that the store is linearizable.
pub fn justified_records_are_of_a_linearizable_store()
    ensures { (rows : List Row) (orders : List KeyOrder) → IsWellFormed rows → Justify rows orders
        → IsLinearizableStore rows }
{
    a_part_is_one_list();
}

/// In an order of the store a call that precedes another stands before it, whatever their keys.
pub fn what_ends_first_stands_first()
    ensures { (rows : List Row) (order : List OpId) (i j : ℕ) (a b : Call) → IsWellFormed rows
        → IsStoreOrder rows order → StandsIn rows order i a → StandsIn rows order j b
        → Precedes a b → i < j }
{}

/// A list is an order of the store exactly if it keeps precedence over all calls and has an order of
/// each key.
pub fn a_store_order_is_ordered_by_key()
    ensures { (rows : List Row) (parts : List (List ℕ × List Call)) (calls : List Call)
        (order : List OpId) → AreParts rows parts → AreCallsOf rows calls
        → IsStoreOrder rows order ↔ IsOrderedByKey rows calls order }
{}

/// A history has a list of all its calls, whatever their keys.
pub fn a_history_has_a_list_of_all_calls()
    ensures { (rows : List Row) (parts : List (List ℕ × List Call)) → AreParts rows parts
        → (calls : List Call) × AreCallsOf rows calls }
{}

/// All calls of a history, whatever their keys, are a sequence.
pub fn all_calls_are_a_sequence()
    ensures { (rows : List Row) (calls : List Call) → IsWellFormed rows → AreCallsOf rows calls
        → IsSequence calls }
{}

/// No call of a history begins at the place of another's response.
pub fn all_calls_are_apart()
    ensures { (rows : List Row) (calls : List Call) → AreCallsOf rows calls → AreApart calls }
{}

/// An order of the store has linearization points.
pub fn a_store_order_has_points()
    ensures { (rows : List Row) (calls : List Call) (order : List OpId) → IsWellFormed rows
        → AreCallsOf rows calls → IsStoreOrder rows order
        → (points : List ℕ) × ArePoints calls order points }
{
    precedence_is_kept_where_there_are_points();
}
