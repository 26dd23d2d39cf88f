//! Which calls show why no order has the answer of a read.
ghost use Rattle.std.specs.Prelude.{◌≡◌, ℕ, List, IfOk, IfSome};
ghost use Rattle.std.specs.Option.{option_copied};
ghost use Rattle.recorder.specs.declared.row.Row.{Row};
ghost use Rattle.record_monitor.specs.KeyCalls.{KnowsCalls};
ghost use Rattle.record_monitor.specs.Told.{AnswersText, AnswersWith, IsTold, IsToldCall, IsToldSide};

use crate::key_calls::KeyCalls;
use crate::told::{Told, ToldCall, ToldSide};
use monitored_key::{KeptZone, MonitoredKey, Refusal};
use std::alloc::Global;
use tag::{Memory, OpId};

/// What is told of the zone of a family whose write writes the text, if the calls are there.
fn side_of(
    alloc: Global,
    calls: &KeyCalls,
    zone: &KeptZone,
    text: &str,
) -> Result<Option<ToldSide>, Memory>
    ensures { IfOk result (λ side. (rows : List Row) (key : List ℕ) → KnowsCalls rows key calls.now
        → IfSome side (IsToldSide rows key)) }
{
    let Some(write) = calls.begun_at(zone.begin) else {
        return Ok(None);
    };
    let Some(first_ended) = calls.ended_at(zone.end) else {
        return Ok(None);
    };
    let Some(last_begun) = calls.begun_at(zone.last) else {
        return Ok(None);
    };
    let value = String::from_str(alloc, text)?;
    Ok(Some(ToldSide {
        write,
        first_ended,
        last_begun,
        value,
    }))
}

/// The two families, unless one of them doesn't have to precede the other. The read joins the first.
fn opposed(mut one: ToldSide, other: ToldSide, read: &ToldCall) -> Option<Told>
    ensures { (rows : List Row) (key : List ℕ) → IsToldSide rows key one → IsToldSide rows key other
        → IsToldCall rows key read.now → IfSome result (IsTold rows key) }
{
    if one.last_begun.begun < read.begun {
        one.last_begun = *read;
    }
    let is_before = one.first_ended.precedes(&other.last_begun);
    let is_after = other.first_ended.precedes(&one.last_begun);
    if is_before && is_after {
        Some(Told::Opposed { one, other })
    } else {
        None
    }
}

/// The family that the read would join, and the one that overwrote it.
fn overwritten(
    calls: &KeyCalls,
    state: &MonitoredKey,
    read: &ToldCall,
    text: &str,
    number: u32,
    by: u32,
) -> Result<Option<Told>, Memory>
    ensures { IfOk result (λ told. (rows : List Row) (key : List ℕ) → KnowsCalls rows key calls.now
        → IsToldCall rows key read.now → IfSome told (IsTold rows key)) }
{
    let Some(zone) = state.zone(number) else {
        return Ok(None);
    };
    let Some(over) = state.zone(by) else {
        return Ok(None);
    };
    let Some(its) = state.text(by) else {
        return Ok(None);
    };
    let Some(one) = side_of(calls.alloc(), calls, &zone, text)? else {
        return Ok(None);
    };
    let Some(other) = side_of(calls.alloc(), calls, &over, its)? else {
        return Ok(None);
    };
    Ok(opposed(one, other, read))
}

/// The call that showed a value before the read began.
fn late(calls: &KeyCalls, read: &ToldCall) -> Result<Option<Told>, Memory>
    ensures { IfOk result (λ told. (rows : List Row) (key : List ℕ) → KnowsCalls rows key calls.now
        → IsToldCall rows key read.now → IfSome told (IsTold rows key)) }
{
    let Some(shown) = calls.first() else {
        return Ok(None);
    };
    if !shown.call.precedes(read) {
        return Ok(None);
    }
    let value = String::from_str(calls.alloc(), shown.value.as_str())?;
    Ok(Some(Told::LateNothing {
        read: *read,
        earlier: shown.call,
        value,
    }))
}

/// That no write of the value is kept.
fn no_write(alloc: Global, read: &ToldCall, text: &str) -> Result<Told, Memory>
    ensures { IfOk result (λ told. (rows : List Row) (key : List ℕ) → IsToldCall rows key read.now
        → AnswersText rows read.now text.now → IsTold rows key told) }
{
    let value = String::from_str(alloc, text)?;
    Ok(Told::NoWrite { read: *read, value })
}

/// That each kept write of the value was overwritten.
fn all_overwritten(
    alloc: Global,
    read: &ToldCall,
    text: &str,
    first: u32,
    second: u32,
) -> Result<Told, Memory>
    ensures { IfOk result (λ told. (rows : List Row) (key : List ℕ) → IsToldCall rows key read.now
        → AnswersText rows read.now text.now → IsTold rows key told) }
{
    let value = String::from_str(alloc, text)?;
    Ok(Told::AllOverwritten {
        read: *read,
        value,
        first: OpId(first),
        second: OpId(second),
    })
}

/// Why no order has the answer of the read, if the calls are there that show it. The state is that before the answer.
pub(crate) fn tell(
    calls: &KeyCalls,
    state: &MonitoredKey,
    read: &ToldCall,
    value: Option<&str>,
    refusal: Refusal,
) -> Result<Option<Told>, Memory>
    ensures { IfOk result (λ told. (rows : List Row) (key : List ℕ) → KnowsCalls rows key calls.now
        → IsToldCall rows key read.now → AnswersWith rows read.now (option_copied value.entry)
        → IfSome told (IsTold rows key)) }
{
    let Some(text) = value else {
        return late(calls, read);
    };
    match refusal {
        Refusal::NoWrite => Ok(Some(no_write(calls.alloc(), read, text)?)),
        Refusal::Overwritten(number, by) => overwritten(calls, state, read, text, number, by),
        Refusal::AllOverwritten(first, second) => {
            Ok(Some(all_overwritten(calls.alloc(), read, text, first, second)?))
        }
        Refusal::LateNothing(_) => Ok(None),
    }
}
