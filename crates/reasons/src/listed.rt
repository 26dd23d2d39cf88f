//! The calls that a list names.
ghost use Rattle.std.specs.Prelude.{◌≡◌, ◌<◌, ℕ, List, length, IfSome, IfNone};
ghost use Rattle.recorder.specs.Parts.{IsSequence};

use crate::find::{call_of, find};
use crate::unnoted::unnoted_writer;
use crate::{OrderReason, PlacedCall};
use certificate_check::Fault;
use recorder::{Call, Part};
use tag::OpId;

/// A list of numbers beside the calls of a part.
#[derive(Drop)]
pub(crate) struct Listed<'a, 'h> {
    part: &'a Part<'h>,
    order: &'a [OpId],
    ghost sequence: { IsSequence part.now },
}

impl<'a, 'h> Listed<'a, 'h> {
    ghost use Rattle.recorder.specs.Orders.{StandsAt, WritesAt};
    ghost use Rattle.recorder.specs.Sound.{IsWrite};
    ghost use Rattle.certificate_check.specs.Verdicts.{IsFault, IsLeast, IsUnknown};
    ghost use Rattle.reasons.specs.OrderReasons.{IsOrderReason, IsLastWriteBefore, HasNumberOf};

    /// The list beside the part's calls.
    pub(crate) fn new(part: &'a Part<'h>, order: &'a [OpId]) -> Listed<'a, 'h>
        ensures part { result.part.now ≡ part.now }
        ensures order { result.order.now ≡ order.now }
    {
        let _sequence = part.len();
        Listed { part, order }
    }

    /// The calls that show the fault.
    pub(crate) fn reason(&self, fault: Fault) -> OrderReason<'h>
        requires { IsFault self.now.part.now self.now.order.now fault }
        ensures { IsOrderReason self.now.part.now self.now.order.now fault result }
    {
        match fault {
            Fault::UnknownCall(place) => OrderReason::UnknownCall {
                place,
                op: self.order[place],
            },
            Fault::CallTwice(place) => OrderReason::CallTwice {
                earlier: self.first_place(place),
                place,
                call: self.call_at(place),
            },
            Fault::MissingCall(op) => OrderReason::MissingCall {
                call: call_of(self.part, op),
            },
            Fault::PendingRead(place) => OrderReason::PendingRead {
                read: self.placed(place),
            },
            Fault::WrongAnswer(place) => self.wrong_answer(place),
            Fault::OrderBroken(earlier, later) => OrderReason::OrderBroken {
                earlier: self.placed(earlier),
                later: self.placed(later),
            },
        }
    }

    /// The read that answers another value than the last write before it wrote.
    fn wrong_answer(&self, place: usize) -> OrderReason<'h>
        requires { IsFault self.now.part.now self.now.order.now (Fault.WrongAnswer place) }
        ensures { IsOrderReason self.now.part.now self.now.order.now (Fault.WrongAnswer place) result }
    {
        let read = self.placed(place);
        let unnoted = unnoted_writer(self.part, &read.call);
        OrderReason::WrongAnswer {
            read,
            last: self.last_write_before(place),
            unnoted,
        }
    }

    /// The call at that place, at which one stands.
    fn call_at(&self, place: usize) -> Call<'h>
        requires within { place < length self.now.order.now }
        requires known { IsUnknown self.now.part.now self.now.order.now place → ⊥ }
        ensures { StandsAt self.now.part.now self.now.order.now place result }
    {
        match find(self.part, self.order[place]) {
            Some(call) => call,
            None => unreachable!(),
        }
    }

    /// The same, with the place.
    fn placed(&self, place: usize) -> PlacedCall<'h>
        requires within { place < length self.now.order.now }
        requires known { IsUnknown self.now.part.now self.now.order.now place → ⊥ }
        ensures place { result.place ≡ place }
        ensures call { StandsAt self.now.part.now self.now.order.now place result.call }
    {
        PlacedCall {
            place,
            call: self.call_at(place),
        }
    }

    /// The first place at which the same number stands as at that place.
    fn first_place(&self, place: usize) -> usize
        requires { place < length self.now.order.now }
        ensures { IsLeast (HasNumberOf self.now.order.now place) result }
    {
        let op = self.order[place];
        for i in 0..place {
            if self.order[i] == op {
                return i;
            }
        }
        place
    }

    /// The write at that place, if one stands there.
    fn write_at(&self, place: usize) -> Option<Call<'h>>
        requires { place < length self.now.order.now }
        ensures found { IfSome result
            (λ call. StandsAt self.now.part.now self.now.order.now place call
            × IsWrite call) }
        ensures none { IfNone result ((value : List ℕ)
            → WritesAt self.now.part.now self.now.order.now place value → ⊥) }
    {
        let Some(call) = find(self.part, self.order[place]) else {
            return None;
        };
        match call.action.written() {
            Some(_) => Some(call),
            None => None,
        }
    }

    /// The last write before that place, if there is one.
    fn last_write_before(&self, place: usize) -> Option<PlacedCall<'h>>
        requires { place < length self.now.order.now }
        ensures { IsLastWriteBefore self.now.part.now self.now.order.now place result }
    {
        for i in (0..place).rev() {
            if let Some(call) = self.write_at(i) {
                return Some(PlacedCall { place: i, call });
            }
        }
        None
    }
}
