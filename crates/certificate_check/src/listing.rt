//! An order with the calls that stand in it, and the lowest fault of it.
ghost use Rattle.std.specs.Prelude.{◌≡◌, ℕ, ◌<◌, IfSome, IfNone, IfOk, MatchResult, MatchOption};
ghost use Rattle.std.specs.Prelude.{Contains, slice_get, length, IsTrue, ◌↔◌, Option};
ghost use Rattle.tag.specs.declared.actions.Action.{Action};
ghost use Rattle.tag.specs.declared.actions.Returned.{Returned};
ghost use Rattle.recorder.specs.Parts.{IsPending, IsSequence};
ghost use Rattle.recorder.specs.States.{IsStateOf};
ghost use Rattle.recorder.specs.declared.part.Call.{Call};
ghost use Rattle.certificate_check.specs.Places.{HasOpAt, Locates};

use crate::{Fault, Verdict};
use recorder::{Call, CallState, Part, ReturnedRef, ValueRef};
use std::alloc::Global;
use tag::{Memory, OpId};

/// The index of the call of that number, if there is one, in steps that grow with the logarithm of
/// the count of calls.
pub fn find_call(part: &Part<'_>, op: OpId) -> Option<usize>
    ensures found { IfSome result (λ k. HasOpAt part.now k op) }
    ensures none { IfNone result ((call : Call) → Contains part.now call → call.op ≡ op → ⊥) }
{
    let mut low = 0;
    let mut high = part.len();
    'halves: while low < high {
        let middle = low + (high - low) / 2;
        let number = part.op(middle).0;
        if number == op.0 {
            return Some(middle);
        }
        if number < op.0 {
            low = middle + 1;
        } else {
            high = middle;
        }
    }
    None
}

/// The same, where one index is tried before the others.
fn find_near(part: &Part<'_>, near: usize, op: OpId) -> Option<usize>
    ensures found { IfSome result (λ k. HasOpAt part.now k op) }
    ensures none { IfNone result ((call : Call) → Contains part.now call → call.op ≡ op → ⊥) }
{
    if near < part.len() && part.op(near) == op {
        Some(near)
    } else {
        find_call(part, op)
    }
}

/// An order, and beside each place the index of its call.
#[derive(Drop)]
pub struct Listing<'a> {
    part: &'a Part<'a>,
    order: &'a [OpId],
    indexes: Vec<usize>,
    ghost sequence: { IsSequence part.now },
    ghost located: { Locates part.now order.now indexes.items },
}

impl<'a> Listing<'a> {
    ghost use Rattle.certificate_check.specs.Verdicts.{IsVerdict};
    ghost use Rattle.certificate_check.specs.Verdicts.{IsLeast, HasNone, IsFirst, IsUnknown};
    ghost use Rattle.certificate_check.specs.Verdicts.{IsRepeated, IsMissing, IsPendingRead};
    ghost use Rattle.certificate_check.specs.Verdicts.{IsWrongAnswer, BreaksPrecedence, BreaksPrecedenceAt};
    ghost use Rattle.certificate_check.specs.Places.{Marks};
    ghost use Rattle.recorder.specs.Orders.{StandsAt, IsComplete, IsLegal};

    /// The order with its calls, or the first place whose call isn't there.
    pub(crate) fn new(
        alloc: Global,
        part: &'a Part<'a>,
        order: &'a [OpId],
    ) -> Result<Result<Listing<'a>, usize>, Memory>
        ensures { IfOk result
            (λ answer. MatchResult answer
            (λ listing. (listing.part.now ≡ part.now) × (listing.order.now ≡ order.now))
            (λ i. IsLeast (IsUnknown part.now order.now) i)) }
    {
        let _sequence = part.len();
        let mut indexes = Vec::with_capacity(alloc, order.len())?;
        // Most orders list a key's calls nearly as they were invoked.
        let mut next = 0;
        for (i, op) in order.iter().enumerate() {
            match find_near(part, next, *op) {
                Some(index) => {
                    indexes.push(index)?;
                    next = index.wrapping_add(1);
                }
                None => return Ok(Err(i)),
            }
        }
        Ok(Ok(Listing {
            part,
            order,
            indexes,
        }))
    }

    /// The verdict on the order.
    pub(crate) fn verdict(&self, alloc: Global) -> Result<Verdict, Memory>
        ensures { IfOk result (λ verdict. IsVerdict self.now.part.now self.now.order.now verdict) }
    {
        let marks = match self.marks(alloc)? {
            Ok(marks) => marks,
            Err(i) => return Ok(Verdict::No(Fault::CallTwice(i))),
        };
        if let Some(op) = self.first_missing(&marks) {
            return Ok(Verdict::No(Fault::MissingCall(op)));
        }
        if let Some(i) = self.first_pending_read() {
            return Ok(Verdict::No(Fault::PendingRead(i)));
        }
        if let Some(i) = self.first_wrong_answer() {
            return Ok(Verdict::No(Fault::WrongAnswer(i)));
        }
        if let Some((i, j)) = self.first_broken() {
            return Ok(Verdict::No(Fault::OrderBroken(i, j)));
        }
        Ok(Verdict::Yes)
    }

    /// The call at that place.
    fn call_at(&self, i: usize) -> Call<'a>
        requires { i < length self.now.order.now }
        ensures { StandsAt self.now.part.now self.now.order.now i result }
    {
        self.part.call(self.indexes[i])
    }

    /// The call at that place, without its texts.
    fn state_at(&self, i: usize) -> CallState
        requires { i < length self.now.order.now }
        ensures { (call : Call) × StandsAt self.now.part.now self.now.order.now i call
            × IsStateOf call result }
    {
        self.part.state(self.indexes[i])
    }

    /// A mark for each call that is listed, or the first place whose call stands earlier too.
    fn marks(&self, alloc: Global) -> Result<Result<Vec<bool>, usize>, Memory>
        ensures { IfOk result
            (λ answer. MatchResult answer
            (λ marks. HasNone (IsRepeated self.now.order.now)
            × Marks self.now.part.now self.now.order.now marks.items)
            (λ i. IsLeast (IsRepeated self.now.order.now) i)) }
    {
        let mut marks = vec![in alloc; false; self.part.len()]?;
        for (i, index) in self.indexes.iter().enumerate() {
            if marks[*index] {
                return Ok(Err(i));
            }
            marks[*index] = true;
        }
        Ok(Ok(marks))
    }

    /// The first completed call without a mark.
    fn first_missing(&self, marks: &[bool]) -> Option<OpId>
        requires { Marks self.now.part.now self.now.order.now marks.now }
        ensures { MatchOption result (IsComplete self.now.part.now self.now.order.now)
            (λ op. IsLeast (IsMissing self.now.part.now self.now.order.now) op.0) }
    {
        for k in 0..self.part.len() {
            if !marks[k] {
                let call = self.part.call(k);
                if call.response.is_some() {
                    return Some(call.op);
                }
            }
        }
        None
    }

    /// The first place of a pending read.
    fn first_pending_read(&self) -> Option<usize>
        ensures { IsFirst (IsPendingRead self.now.part.now self.now.order.now) result }
    {
        for i in 0..self.order.len() {
            if is_pending_read(self.state_at(i)) {
                return Some(i);
            }
        }
        None
    }

    /// The first place of a read that answers another value than the last write before it wrote.
    fn first_wrong_answer(&self) -> Option<usize>
        ensures { MatchOption result (IsLegal self.now.part.now self.now.order.now)
            (λ i. IsLeast (IsWrongAnswer self.now.part.now self.now.order.now) i) }
    {
        let mut current: Option<ValueRef<'_>> = None;
        for i in 0..self.order.len() {
            let call = self.call_at(i);
            match call.action.written() {
                Some(value) => current = Some(value),
                None => {
                    if let Some(response) = &call.response {
                        if !answers(&response.returned, &current) {
                            return Some(i);
                        }
                    }
                }
            }
        }
        None
    }

    /// The first place of a call that was invoked after that place of the history.
    fn first_invoked_after(&self, place: usize) -> Option<usize>
        ensures { IsFirst (λ i. (call : Call)
            × StandsAt self.now.part.now self.now.order.now i call
            × (place < call.invoked)) result }
    {
        for i in 0..self.order.len() {
            if place < self.state_at(i).invoked as usize {
                return Some(i);
            }
        }
        None
    }

    /// The first place of a call with its response before the invocation of an earlier one, after
    /// the first such earlier place.
    fn first_broken(&self) -> Option<(usize, usize)>
        ensures { MatchOption result (HasNone (BreaksPrecedenceAt self.now.part.now self.now.order.now))
            (λ places. IsLeast (BreaksPrecedenceAt self.now.part.now self.now.order.now) places.1
            × IsLeast (BreaksPrecedence self.now.part.now self.now.order.now places.1) places.0) }
    {
        let mut latest = 0;
        for j in 0..self.order.len() {
            let state = self.state_at(j);
            if let Some(place) = state.response {
                if (place as usize) < latest {
                    match self.first_invoked_after(place as usize) {
                        Some(i) => return Some((i, j)),
                        None => unreachable!(),
                    }
                }
            }
            latest = latest.max(state.invoked as usize);
        }
        None
    }
}

/// Whether the call of that state is a read without a response.
fn is_pending_read(state: CallState) -> bool
    ensures { (call : Call) → IsStateOf call state → IsTrue result
        ↔ (IsPending call × (call.action ≡ Action.Read)) }
{
    state.response.is_none() && !state.is_write
}

/// Whether the answer is that value.
fn answers(returned: &ReturnedRef<'_>, value: &Option<ValueRef<'_>>) -> bool
    ensures { IsTrue result ↔ (returned.now ≡ Returned.Value value.now) }
{
    match returned.answered() {
        Some(answer) => answer == *value,
        None => false,
    }
}
