//! The orders that the tags of a history make, without a check of them.
ghost use Rattle.std.specs.Prelude.{◌++◌, ◌∷◌, [], List, map, IfOk, OnOk};
ghost use Rattle.parallel_keys.specs.CheckedKeys.{all_parts};
ghost use Rattle.cli.specs.Justifications.{KeyPart};
ghost use Rattle.cli.specs.TagOrders.{AreMade};

use crate::noted_orders::Unjustified;
use recorder::{KeyOrder, Part, Parts};
use std::alloc::Global;
use tag::{Key, Memory};
use witness_order::{WitnessError, order_of};

/// The tag orders of keys, and what is said of the keys that have none.
#[derive(Debug, Drop)]
pub(crate) struct TagOrders {
    /// The tag order of each key whose completed calls all have notes.
    pub(crate) orders: Vec<KeyOrder>,
    /// A line for each other key.
    pub(crate) left_out: Vec<u8>,
}

impl TagOrders {
    /// Those of no key.
    fn new(alloc: Global) -> TagOrders
        ensures { AreMade [] result }
    {
        TagOrders {
            orders: Vec::new(alloc),
            left_out: Vec::new(alloc),
        }
    }

    /// Adds the key's tag order, or the line that says which of its calls has no note.
    fn add(&mut self, alloc: Global, key: &Key, part: &Part<'_>) -> Result<(), Memory>
        ensures { OnOk result ((before : List KeyPart) → AreMade before self.old
            → AreMade (before ++ (key.now, part.now) ∷ []) self.new) }
    {
        match order_of(alloc, part) {
            Ok(order) => {
                let key = key.copy()?;
                Ok(self.orders.push(KeyOrder { key, order })?)
            }
            Err(WitnessError::NoNote(op)) => {
                Unjustified::NoNote { key, op }.append_to(&mut self.left_out)
            }
            Err(WitnessError::Memory) => Err(Memory),
        }
    }

    /// Adds what the tags make of each key, the keys in their order there.
    fn add_hall(&mut self, alloc: Global, parts: &Parts<'_>) -> Result<(), Memory>
        ensures { OnOk result ((before : List KeyPart) → AreMade before self.old
            → AreMade (before ++ parts.now.entries) self.new) }
    {
        for place in 0..parts.len() {
            let (key, part) = parts.entry(place);
            self.add(alloc, key.key(), &part)?;
        }
        Ok(())
    }
}

/// What the tags make of each key of the parts, the halls one after another and the keys in their order
/// there.
pub(crate) fn tag_orders(alloc: Global, parts: &[Parts<'_>]) -> Result<TagOrders, Memory>
    ensures { IfOk result (AreMade (all_parts (map (λ p. p.entries) parts.now))) }
{
    let mut made = TagOrders::new(alloc);
    for own in parts {
        made.add_hall(alloc, own)?;
    }
    Ok(made)
}
