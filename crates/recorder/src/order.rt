//! Orders of calls.
ghost use Rattle.std.specs.Prelude.{◌≡◌, [], ◌∷◌, ◌++◌, OnOk, OnErr};

use std::alloc::Global;
use std::marker::Model;
use tag::{Key, Memory, OpId};

/// Calls in an order, by their numbers: any list of numbers. Whether it is an order of a part is
/// for a check to say.
#[derive(Debug, Drop)]
pub struct Order {
    ops: Vec<OpId>,
}

impl Model for Order {
    ghost use Rattle.std.specs.Prelude.{List};
    ghost use Rattle.tag.specs.declared.numbers.OpId.{OpId};

    ghost Value = { List OpId };

    ghost view = { λ o. o.ops.items };
}

impl Order {
    /// An order without a call.
    pub fn empty(alloc: Global) -> Order
        ensures { result ≡ [] }
    {
        Order {
            ops: Vec::new(alloc),
        }
    }

    /// The order of these calls.
    pub fn from_vec(ops: Vec<OpId>) -> Order
        ensures { result ≡ ops.items }
    {
        Order { ops }
    }

    /// The calls.
    pub fn into_vec(self) -> Vec<OpId>
        ensures { result.items ≡ self }
    {
        let Order { ops } = self;
        ops
    }

    /// The calls.
    pub fn as_slice(&self) -> &[OpId]
        ensures { result.now ≡ self.now }
    {
        self.ops.as_slice()
    }

    /// Adds a call after all others. On `Memory` the call is left out and the order unchanged.
    pub fn push(&mut self, op: OpId) -> Result<(), Memory>
        ensures ok { OnOk result (self.new ≡ self.old ++ op ∷ []) }
        ensures err { OnErr result (self.new ≡ self.old) }
    {
        self.ops.push(op)?;
        Ok(())
    }
}

/// An order of the calls on a key.
#[derive(Debug, Drop)]
pub struct KeyOrder {
    pub key: Key,
    pub order: Order,
}
