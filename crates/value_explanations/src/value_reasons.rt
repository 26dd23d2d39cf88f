//! Why values give no order.
ghost use Rattle.std.specs.Prelude.{◌≡◌};
ghost use Rattle.value_order.specs.Decisions.{IsFault};
ghost use Rattle.value_explanations.specs.ValueReasons.{ArePartCalls, HasCallsOf, side_of};
ghost use Rattle.value_explanations.specs.ValueReasons.{IsValueReason};

use reasons::call_of;
use recorder::{Call, Part};
use value_order::{Side, ValueFault};

/// A family of two that must precede each other: its write, and those of its calls that show it.
#[derive(Drop)]
pub struct SideCalls<'h> {
    pub write: Call<'h>,
    /// It precedes the call of the other family that began last.
    pub first_ended: Call<'h>,
    /// The call of the other family that ended first precedes it.
    pub last_begun: Call<'h>,
}

/// Why values give no order: the calls that show the fault.
#[derive(Drop)]
pub enum ValueReason<'h> {
    /// The read answers what no write of the part writes.
    NoWrite {
        read: Call<'h>,
    },
    /// The read was answered before the write began, which is the first of its value.
    Early {
        read: Call<'h>,
        write: Call<'h>,
    },
    /// The read answers nothing, and began after the earlier call had ended, which writes a value or
    /// answers one.
    LateNothing {
        read: Call<'h>,
        earlier: Call<'h>,
    },
    /// Each of the two families has a call that precedes one of the other.
    Opposed {
        one: SideCalls<'h>,
        other: SideCalls<'h>,
    },
    /// The read has two writers at least; each of its writers precedes the write `between`, which
    /// precedes the read.
    Overwritten {
        read: Call<'h>,
        first: Call<'h>,
        second: Call<'h>,
        between: Call<'h>,
    },
}

/// The calls of the side.
fn side_calls<'h>(part: &Part<'h>, side: Side) -> SideCalls<'h>
    requires { HasCallsOf part.now side }
    ensures number { side_of result ≡ side }
    ensures calls { ArePartCalls part.now result }
{
    SideCalls {
        write: call_of(part, side.write),
        first_ended: call_of(part, side.first_ended),
        last_begun: call_of(part, side.last_begun),
    }
}

/// The calls that show the fault, which the part has.
///
/// It takes time in proportion to the logarithm of the calls' count.
pub fn value_reason<'h>(part: &Part<'h>, fault: ValueFault) -> ValueReason<'h>
    requires { IsFault part.now fault }
    ensures { IsValueReason part.now fault result }
{
    let _sequence = part.len();
    match fault {
        ValueFault::NoWrite(read) => ValueReason::NoWrite {
            read: call_of(part, read),
        },
        ValueFault::Early(read, write) => ValueReason::Early {
            read: call_of(part, read),
            write: call_of(part, write),
        },
        ValueFault::LateNothing(read, earlier) => ValueReason::LateNothing {
            read: call_of(part, read),
            earlier: call_of(part, earlier),
        },
        ValueFault::Opposed(one, other) => ValueReason::Opposed {
            one: side_calls(part, one),
            other: side_calls(part, other),
        },
        ValueFault::Overwritten(doubt, between) => ValueReason::Overwritten {
            read: call_of(part, doubt.read),
            first: call_of(part, doubt.first),
            second: call_of(part, doubt.second),
            between: call_of(part, between),
        },
    }
}
