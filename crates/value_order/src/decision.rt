//! What values say of a part.
ghost use Rattle.std.specs.Prelude.{◌≡◌};
ghost use Rattle.value_order.specs.Numbers.{value_fault_number};

use recorder::Order;
use tag::OpId;

/// A read that has two writers: writes of the value that it answers which began no later than it was
/// answered.
#[derive(Clone, Copy, Debug, PartialEq, Eq)]
pub struct Doubt {
    pub read: OpId,
    /// Its writer with the least number.
    pub first: OpId,
    /// Its other writer with the least number.
    pub second: OpId,
}

/// A family of two that must precede each other, as far as calls had been answered when that showed.
#[derive(Clone, Copy, Debug, PartialEq, Eq)]
pub struct Side {
    /// The family's write.
    pub write: OpId,
    /// The call of the family that ended first.
    pub first_ended: OpId,
    /// The call of the family that began last.
    pub last_begun: OpId,
}

/// Why the calls of a part have no order. Of several faults the first in this order is said.
#[derive(Clone, Copy, Debug, PartialEq, Eq)]
pub enum ValueFault {
    /// The read answers what no write of the part writes; the least such read.
    NoWrite(OpId),
    /// The read was answered before any write of its value began; the least such read, and the first
    /// such write.
    Early(OpId, OpId),
    /// The read answers nothing, and began after the call had ended, which writes or answers a value;
    /// the least such read, and of such calls the one that ended first.
    LateNothing(OpId, OpId),
    /// The two families must precede each other. That showed when a read of the first was answered,
    /// and not before; the second has the least write of those that are then opposed to the first.
    Opposed(Side, Side),
    /// The read has two writers at least, and before it began each was overwritten by that write, which
    /// each precedes; the least such read.
    Overwritten(Doubt, OpId),
}

/// What values say of a part.
#[derive(Debug, Drop)]
pub enum Decision {
    /// An order of its calls: of those that are completed, and of the pending writes that a read answered.
    Atomic(Order),
    /// No list is an order of its calls.
    NotAtomic(ValueFault),
    /// A read has two writers, and there is no fault; the least such read.
    Undecided(Doubt),
}

/// What values say of a part, without its order.
#[derive(Clone, Copy, Debug, PartialEq, Eq)]
pub enum ValueVerdict {
    /// Its calls have an order.
    Atomic,
    /// No list is an order of its calls.
    NotAtomic(ValueFault),
    /// A read has two writers, and there is no fault; the least such read.
    Undecided(Doubt),
}

impl ValueFault {
    /// Its number in the order of the faults, 1 to 5.
    pub fn number(self) -> u8
        ensures { result ≡ value_fault_number self }
    {
        match self {
            ValueFault::NoWrite(_) => 1,
            ValueFault::Early(_, _) => 2,
            ValueFault::LateNothing(_, _) => 3,
            ValueFault::Opposed(_, _) => 4,
            ValueFault::Overwritten(_, _) => 5,
        }
    }
}
