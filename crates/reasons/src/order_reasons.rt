//! Why a list isn't an order of a part.
ghost use Rattle.certificate_check.specs.Verdicts.{IsFault};
ghost use Rattle.reasons.specs.OrderReasons.{IsOrderReason};

use crate::listed::Listed;
use certificate_check::Fault;
use recorder::{Call, Part};
use tag::OpId;

/// A call and its place in the order.
#[derive(Drop)]
pub struct PlacedCall<'h> {
    pub place: usize,
    pub call: Call<'h>,
}

/// Why a list isn't an order of a part: the calls that show its fault. Places are counted from 0.
#[derive(Drop)]
pub enum OrderReason<'h> {
    /// No call of the part has the number that stands at that place.
    UnknownCall {
        place: usize,
        op: OpId,
    },
    /// The call stands at both places; `earlier` is the first at which it does.
    CallTwice {
        earlier: usize,
        place: usize,
        call: Call<'h>,
    },
    /// The completed call isn't listed.
    MissingCall {
        call: Call<'h>,
    },
    /// The call at that place is a pending read.
    PendingRead {
        read: PlacedCall<'h>,
    },
    /// The read answers another value than the last write before it wrote, or, where no write
    /// stands before it, a value. `unnoted` is the first write that it may have read of those that
    /// have neither a response nor a note.
    WrongAnswer {
        read: PlacedCall<'h>,
        last: Option<PlacedCall<'h>>,
        unnoted: Option<Call<'h>>,
    },
    /// The later call was answered before the earlier one began.
    OrderBroken {
        earlier: PlacedCall<'h>,
        later: PlacedCall<'h>,
    },
}

/// The calls that show the fault, which is the verdict on the order.
///
/// It takes time in proportion to the order and the logarithm of the calls' count; of a wrong answer,
/// also to the calls that began before it.
pub fn order_reason<'h>(part: &Part<'h>, order: &[OpId], fault: Fault) -> OrderReason<'h>
    requires { IsFault part.now order.now fault }
    ensures { IsOrderReason part.now order.now fault result }
{
    Listed::new(part, order).reason(fault)
}
