//! What comes of a step.
ghost use Rattle.std.specs.Prelude.{◌≡◌, ◌++◌, codes, OnOk};
ghost use Rattle.sentences.specs.Words.{numbered};
ghost use Rattle.traces.specs.StepLines.{counted_text, effect_text, members_text, taken_text};
ghost use Rattle.traces.specs.StepLines.{votes_text};

use crate::counts::Count;
use crate::step_words::append_flight;
use crate::words::append_tag_between;
use client_phases::Taken;
use quorum::ReplicaSet;
use sentences::{append, append_number};
use tag::{Memory, OpId, ReplicaId};
use world_steps::Effect;

/// Adds the members of the set, with a comma after each.
fn append_members(text: &mut Vec<u8>, set: ReplicaSet) -> Result<(), Memory>
    ensures { OnOk result (text.new.items ≡ text.old.items ++ members_text set 15) }
{
    for number in 0..15 {
        if set.contains(ReplicaId::new(number).unwrap()) {
            append_number(text, "", u64::from(number))?;
            append(text, ", ")?;
        }
    }
    Ok(())
}

/// Adds the replicas that a client has counted.
#[tactic(auto, unfolding(crate::specs::StepLines::counted_text))]
fn append_counted(text: &mut Vec<u8>, count: &Option<Count>) -> Result<(), Memory>
    ensures { OnOk result (text.new.items ≡ text.old.items ++ counted_text count.now) }
{
    let Some(count) = count else {
        return Ok(());
    };
    append(text, "; it has counted ")?;
    append_members(text, count.earlier)?;
    append_number(text, "", u64::from(count.replica.get()))
}

/// Adds how many votes a client has counted, of those that it needs.
#[tactic(auto, unfolding(crate::specs::StepLines::votes_text))]
fn append_votes(text: &mut Vec<u8>, count: &Option<Count>) -> Result<(), Memory>
    ensures { OnOk result (text.new.items ≡ text.old.items ++ votes_text count.now) }
{
    let Some(count) = count else {
        return Ok(());
    };
    append_number(text, ": ", u64::from(count.votes))?;
    append_number(text, " of ", u64::from(count.needed))?;
    append(text, " votes")
}

/// Adds what a client makes of a reply.
#[tactic(auto, unfolding(crate::specs::StepLines::taken_text))]
fn append_taken(text: &mut Vec<u8>, count: &Option<Count>, taken: Taken) -> Result<(), Memory>
    ensures { OnOk result (text.new.items ≡ text.old.items ++ taken_text count.now taken) }
{
    match taken {
        Taken::Stale => append(text, "; the reply is stale and changes nothing"),
        Taken::Counted => {
            append_counted(text, count)?;
            append_votes(text, count)
        }
        Taken::Noted(tag) => {
            append_counted(text, count)?;
            append_tag_between(text, ": an ask quorum; it notes ", tag, " and puts")
        }
        Taken::Agreed(tag) => {
            append_counted(text, count)?;
            let ready = "; its call is ready without a write-back";
            append_tag_between(text, ": an ask quorum that agrees on ", tag, ready)
        }
        Taken::Ready => {
            append_counted(text, count)?;
            append(text, ": a put quorum; its call is ready")
        }
    }
}

/// Adds the call, and what comes of it.
fn append_call(text: &mut Vec<u8>, op: OpId, words: &str) -> Result<(), Memory>
    ensures { OnOk result
        (text.new.items ≡ text.old.items ++ numbered (codes ": call ") op.0 ++ words.now) }
{
    append_number(text, ": call ", u64::from(op.0))?;
    append(text, words)
}

/// Adds what comes of a step.
#[tactic(auto, unfolding(crate::specs::StepLines::effect_text))]
pub(crate) fn append_effect(
    text: &mut Vec<u8>,
    count: &Option<Count>,
    effect: Effect,
) -> Result<(), Memory>
    ensures { OnOk result (text.new.items ≡ text.old.items ++ effect_text count.now effect) }
{
    match effect {
        Effect::Invoked(op) => append_call(text, op, "; it asks"),
        Effect::Sent(flight) => append_flight(text, ": message ", flight),
        Effect::Answered(flight) => append_flight(text, ", and answers: message ", flight),
        Effect::Taken(taken) => append_taken(text, count, taken),
        Effect::Responded(op) => append_call(text, op, " is completed"),
        Effect::Joined | Effect::Lost | Effect::Repeated | Effect::Stopped | Effect::Started => {
            Ok(())
        }
    }
}
