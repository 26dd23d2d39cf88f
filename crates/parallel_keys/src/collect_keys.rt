//! The keys of histories and of orders, with what is checked of each.
ghost use Rattle.std.specs.Prelude.{◌≡◌, [], ◌++◌, List, length, map, IfOk, OnOk};
ghost use Rattle.parallel_keys.specs.CheckedKeys.{AreDistinct, all_parts, checked_keys};
ghost use Rattle.parallel_keys.specs.CheckedKeys.{keys_in, other_key, recorded_key};
ghost use Rattle.parallel_keys.specs.KeysToCheck.{AreNumbered, IsOrderTable, AddsOrder};
ghost use Rattle.parallel_keys.specs.KeysToCheck.{checked_in, collected_in, entry_of, what_of};

use crate::key_list::KeyList;
use key_index::KeyNumbers;
use recorder::{KeyOrder, Part, Parts};
use std::alloc::Global;
use tag::{Key, Memory, OpId};

/// A key, with its part and its order.
#[derive(Debug, Drop)]
pub struct KeyToCheck<'a> {
    pub key: &'a Key,
    pub part: Part<'a>,
    pub order: &'a [OpId],
}

/// A key that has a part, with its number among all such keys.
#[derive(Drop)]
struct NumberedKey<'a> {
    key: &'a Key,
    part: Part<'a>,
    number: usize,
}

/// The keys that have parts, in order. Equal keys have one number.
#[derive(Drop)]
struct RecordedKeys<'a> {
    list: Vec<NumberedKey<'a>>,
    numbers: KeyNumbers,
}

impl<'a> RecordedKeys<'a> {
    /// The keys of these parts.
    fn new(alloc: Global, parts: &'a [Parts<'a>]) -> Result<RecordedKeys<'a>, Memory>
        ensures entries { IfOk result (λ keys. map entry_of keys.list.items
            ≡ all_parts (map (λ p. p.entries) parts.now)) }
        ensures numbers { IfOk result (λ keys. AreNumbered keys.numbers keys.list.items) }
    {
        let mut list = Vec::new(alloc);
        let mut numbers = KeyNumbers::new(alloc);
        for own in parts {
            number_keys(own, &mut list, &mut numbers)?;
        }
        Ok(RecordedKeys { list, numbers })
    }
}

/// Adds the keys of a history's parts, each with its number.
fn number_keys<'a>(
    parts: &'a Parts<'a>,
    list: &mut Vec<NumberedKey<'a>>,
    numbers: &mut KeyNumbers,
) -> Result<(), Memory>
    requires { AreNumbered numbers.old list.old.items }
    ensures entries { OnOk result (map entry_of list.new.items
        ≡ map entry_of list.old.items ++ parts.now.entries) }
    ensures numbers { OnOk result (AreNumbered numbers.new list.new.items) }
{
    for place in 0..parts.len() {
        let (text, part) = parts.entry(place);
        let key = text.key();
        let number = numbers.number(key)?;
        list.push(NumberedKey { key, part, number })?;
    }
    Ok(())
}

/// Orders by the numbers of the keys that have parts.
#[derive(Drop)]
struct OrderTable<'a> {
    /// At each key's number the first order that is given for it, if any.
    given: Vec<Option<&'a [OpId]>>,
    /// The orders of all other keys, in order.
    others: Vec<&'a KeyOrder>,
}

impl<'a> OrderTable<'a> {
    /// The table of these orders, for keys with these numbers.
    fn new(
        alloc: Global,
        numbers: &KeyNumbers,
        orders: &'a [KeyOrder],
    ) -> Result<OrderTable<'a>, Memory>
        ensures { IfOk result (λ table. IsOrderTable numbers.now orders.now table) }
    {
        let mut given = Vec::new(alloc);
        given.resize(numbers.keys().len(), None)?;
        let others = Vec::new(alloc);
        let mut table = OrderTable { given, others };
        for one in orders {
            table.add(numbers, one)?;
        }
        Ok(table)
    }

    /// Adds the next order. A key that has an order keeps it.
    fn add(&mut self, numbers: &KeyNumbers, one: &'a KeyOrder) -> Result<(), Memory>
        requires { length self.old.given.items ≡ length numbers.now }
        ensures { OnOk result (AddsOrder numbers.now one.now self.old self.new) }
    {
        let Some(number) = numbers.find(&one.key) else {
            self.others.push(one)?;
            return Ok(());
        };
        if self.given[number].is_none() {
            self.given[number] = Some(one.order.as_slice());
        }
        Ok(())
    }
}

/// Adds the keys that have parts, each with the order that is given for it, or the empty one.
fn add_recorded<'a>(
    keys: &mut Vec<KeyToCheck<'a>>,
    recorded: RecordedKeys<'a>,
    table: &OrderTable<'a>,
) -> Result<(), Memory>
    requires numbers { AreNumbered recorded.numbers recorded.list.items }
    requires given { length table.now.given.items ≡ length recorded.numbers }
    ensures { OnOk result ((orders : List KeyOrder)
        → IsOrderTable recorded.entry.numbers orders table.now
        → map what_of keys.new.items ≡ map what_of keys.old.items
        ++ map (recorded_key orders) (map entry_of recorded.entry.list.items)) }
{
    for own in recorded.list {
        keys.push(KeyToCheck {
            key: own.key,
            part: own.part,
            order: table.given[own.number].unwrap_or(&[]),
        })?;
    }
    Ok(())
}

/// The same of one history's keys, where a key's number is its place.
fn add_own<'a>(
    keys: &mut Vec<KeyToCheck<'a>>,
    own: &'a Parts<'a>,
    table: &OrderTable<'a>,
) -> Result<(), Memory>
    requires { length table.now.given.items ≡ length own.now.entries }
    ensures { OnOk result ((orders : List KeyOrder)
        → IsOrderTable (keys_in own.now.entries) orders table.now
        → map what_of keys.new.items ≡ map what_of keys.old.items
        ++ map (recorded_key orders) own.now.entries) }
{
    for place in 0..own.len() {
        let (text, part) = own.entry(place);
        keys.push(KeyToCheck {
            key: text.key(),
            part,
            order: table.given[place].unwrap_or(&[]),
        })?;
    }
    Ok(())
}

/// Adds the keys of these orders, each with a part without a call.
fn add_others<'a>(keys: &mut Vec<KeyToCheck<'a>>, others: &[&'a KeyOrder]) -> Result<(), Memory>
    ensures { OnOk result (map what_of keys.new.items ≡ map what_of keys.old.items
        ++ map other_key (map (λ one. one.now) others.now)) }
{
    for one in others {
        keys.push(KeyToCheck {
            key: &one.key,
            part: Part::empty(),
            order: one.order.as_slice(),
        })?;
    }
    Ok(())
}

/// The keys of parts and orders.
#[derive(Drop)]
pub(crate) struct CollectedKeys<'a> {
    /// Those that have parts, in order.
    recorded: Vec<KeyToCheck<'a>>,
    /// The orders of all others, in order.
    others: Vec<&'a KeyOrder>,
}

impl<'a> CollectedKeys<'a> {
    /// The same of one history's parts, which have numbers for the keys already.
    fn of_one(
        alloc: Global,
        own: &'a Parts<'a>,
        orders: &'a [KeyOrder],
    ) -> Result<CollectedKeys<'a>, Memory>
        requires { AreDistinct orders.now }
        ensures { IfOk result (λ keys. collected_in keys
            ≡ checked_keys own.now.entries orders.now) }
    {
        let table = OrderTable::new(alloc, own.numbers(), orders)?;
        let mut recorded = Vec::with_capacity(alloc, own.len())?;
        add_own(&mut recorded, own, &table)?;
        Ok(CollectedKeys {
            recorded,
            others: table.others,
        })
    }

    /// The keys of these parts and orders.
    pub(crate) fn new(
        alloc: Global,
        parts: &'a [Parts<'a>],
        orders: &'a [KeyOrder],
    ) -> Result<CollectedKeys<'a>, Memory>
        requires { AreDistinct orders.now }
        ensures { IfOk result (λ keys. collected_in keys
            ≡ checked_keys (all_parts (map (λ p. p.entries) parts.now)) orders.now) }
    {
        if let [own] = parts {
            return CollectedKeys::of_one(alloc, own, orders);
        }
        let recorded = RecordedKeys::new(alloc, parts)?;
        let table = OrderTable::new(alloc, &recorded.numbers, orders)?;
        let mut keys = Vec::with_capacity(alloc, recorded.list.len())?;
        add_recorded(&mut keys, recorded, &table)?;
        Ok(CollectedKeys {
            recorded: keys,
            others: table.others,
        })
    }

    /// All of them, first those that have parts.
    pub(crate) fn list(&self) -> KeyList<'_>
        ensures { checked_in result ≡ collected_in self.now }
    {
        KeyList {
            recorded: self.recorded.as_slice(),
            others: self.others.as_slice(),
        }
    }
}

/// What is checked of these parts and orders: the keys that have parts, in order, then those that
/// only the orders have, whose part has no call.
pub fn keys_to_check<'a>(
    alloc: Global,
    parts: &'a [Parts<'a>],
    orders: &'a [KeyOrder],
) -> Result<Vec<KeyToCheck<'a>>, Memory>
    requires { AreDistinct orders.now }
    ensures { IfOk result (λ keys. map what_of keys.items
        ≡ checked_keys (all_parts (map (λ p. p.entries) parts.now)) orders.now) }
{
    let CollectedKeys {
        recorded: mut keys,
        others,
    } = CollectedKeys::new(alloc, parts, orders)?;
    add_others(&mut keys, &others)?;
    Ok(keys)
}
