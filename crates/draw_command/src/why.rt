//! Why a key is refused.
ghost use Rattle.std.specs.Prelude.{◌≡◌, ◌++◌, IfOk};
ghost use Rattle.judged_keys.specs.Findings.{IsSo};
ghost use Rattle.judged_keys.specs.Judgements.{judgement_of};
ghost use Rattle.draw_command.specs.Drawings.{IsWhy, call_numbers, order_calls, reason_calls};
ghost use Rattle.draw_command.specs.Drawings.{tag_calls, value_calls};

use explain_command::{Reason, append_reason, reason_of};
use explanations::HallRows;
use judged_keys::JudgedKey;
use reasons::{OrderReason, TagReason};
use recorder::Call;
use std::alloc::Global;
use tag::{Memory, OpId};
use value_explanations::ValueReason;

/// Why a key is refused.
#[derive(Drop)]
pub struct Why {
    /// The sentences.
    pub text: Vec<u8>,
    /// The calls that they name.
    pub faulty: Vec<OpId>,
}

/// The calls, and after them the write, if there is one.
fn with_write(alloc: Global, calls: &[OpId], write: &Option<Call<'_>>) -> Result<Vec<OpId>, Memory>
    ensures { IfOk result (λ all. all.items ≡ calls.now ++ call_numbers write.now) }
{
    let mut all = Vec::from_slice(alloc, calls)?;
    if let Some(write) = write {
        all.push(write.op)?;
    }
    Ok(all)
}

/// The calls of the reason.
fn order_calls(alloc: Global, reason: &OrderReason<'_>) -> Result<Vec<OpId>, Memory>
    ensures { IfOk result (λ calls. calls.items ≡ order_calls reason.now) }
{
    match reason {
        OrderReason::UnknownCall { .. } => Ok(Vec::new(alloc)),
        OrderReason::CallTwice { call, .. } | OrderReason::MissingCall { call } => {
            Ok(Vec::from_slice(alloc, &[call.op])?)
        }
        OrderReason::PendingRead { read } => Ok(Vec::from_slice(alloc, &[read.call.op])?),
        OrderReason::WrongAnswer {
            read,
            last: None,
            unnoted,
        } => with_write(alloc, &[read.call.op], unnoted),
        OrderReason::WrongAnswer {
            read,
            last: Some(last),
            unnoted,
        } => with_write(alloc, &[read.call.op, last.call.op], unnoted),
        OrderReason::OrderBroken { earlier, later } => {
            Ok(Vec::from_slice(alloc, &[earlier.call.op, later.call.op])?)
        }
    }
}

/// The calls of the reason.
fn tag_calls(alloc: Global, reason: &TagReason<'_>) -> Result<Vec<OpId>, Memory>
    ensures { IfOk result (λ calls. calls.items ≡ tag_calls reason.now) }
{
    match reason {
        TagReason::NoNote { call } => Ok(Vec::from_slice(alloc, &[call.op])?),
        TagReason::LeastTag { write } => Ok(Vec::from_slice(alloc, &[write.op])?),
        TagReason::SameTag { earlier, later } | TagReason::NotAbove { earlier, later } => {
            Ok(Vec::from_slice(alloc, &[earlier.op, later.op])?)
        }
        TagReason::NoWrite { read, unnoted }
        | TagReason::OtherValue {
            read,
            write: None,
            unnoted,
        } => with_write(alloc, &[read.op], unnoted),
        TagReason::OtherValue {
            read,
            write: Some(write),
            unnoted,
        } => with_write(alloc, &[read.op, write.op], unnoted),
    }
}

/// The calls of the reason.
fn value_calls(alloc: Global, reason: &ValueReason<'_>) -> Result<Vec<OpId>, Memory>
    ensures { IfOk result (λ calls. calls.items ≡ value_calls reason.now) }
{
    let calls = match reason {
        ValueReason::NoWrite { read } => Vec::from_slice(alloc, &[read.op]),
        ValueReason::Early { read, write } => Vec::from_slice(alloc, &[read.op, write.op]),
        ValueReason::LateNothing { read, earlier } => {
            Vec::from_slice(alloc, &[read.op, earlier.op])
        }
        ValueReason::Opposed { one, other } => {
            let (there, back) = (other.last_begun.op, one.last_begun.op);
            let calls = [one.first_ended.op, there, other.first_ended.op, back];
            Vec::from_slice(alloc, &calls)
        }
        ValueReason::Overwritten {
            read,
            first,
            second,
            between,
        } => Vec::from_slice(alloc, &[read.op, first.op, second.op, between.op]),
    };
    Ok(calls?)
}

/// The calls of the reason.
fn reason_calls(alloc: Global, reason: &Reason<'_>) -> Result<Vec<OpId>, Memory>
    ensures { IfOk result (λ calls. calls.items ≡ reason_calls reason.now) }
{
    match reason {
        Reason::Order(reason) => order_calls(alloc, reason),
        Reason::Tags(reason) => tag_calls(alloc, reason),
        Reason::Values(reason, _, _) => value_calls(alloc, reason),
    }
}

/// Why the key is refused; nothing if it isn't.
pub fn why_of(alloc: Global, hall: &HallRows<'_>, key: &JudgedKey<'_>) -> Result<Why, Memory>
    requires { let j = judgement_of key.now in IsSo j.one j.finding }
    ensures { IfOk result (λ why.
        IsWhy hall.now (judgement_of key.now) why.text.items why.faulty.items) }
{
    let mut text = Vec::new(alloc);
    let Some(reason) = reason_of(alloc, key)? else {
        let faulty = Vec::new(alloc);
        return Ok(Why { text, faulty });
    };
    append_reason(&mut text, key.one.key, hall, &reason)?;
    let faulty = reason_calls(alloc, &reason)?;
    Ok(Why { text, faulty })
}
