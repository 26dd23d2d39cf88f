//! Calls, and what has to come of them.
use crate::steps::Wanted;
use node_threads::{Answer, CallError, Receipt, Seat};
use recorder::{History, Row};
use std::alloc::Global;
use tag::{Action, ClientId, Value};

/// Writes that text, or reads.
pub fn action_of(alloc: Global, text: Option<&str>) -> Option<Action> {
    match text {
        Some(text) => Some(Action::Write(Value::new(alloc, text).ok()?)),
        None => Some(Action::Read),
    }
}

/// Whether the answer has to be so.
fn is_answer(answer: &Answer, wanted: Wanted<'_>) -> bool {
    match wanted {
        Wanted::Gives(text) => match &answer.value {
            Some(value) => value.as_str() == text,
            None => false,
        },
        Wanted::Answered | Wanted::MayBeUnavailable => true,
        Wanted::Fails(_) => false,
    }
}

/// Whether the call has to end in that error.
fn is_error(error: CallError, wanted: Wanted<'_>) -> bool {
    match wanted {
        Wanted::Fails(other) => error == other,
        Wanted::MayBeUnavailable => error == CallError::Unavailable,
        Wanted::Answered | Wanted::Gives(_) => false,
    }
}

/// Whether the call came out as it has to. Its receipt is the last, if it has one.
pub fn is_wanted(
    call: Result<Answer, CallError>,
    wanted: Wanted<'_>,
    receipt: &mut Option<Receipt>,
) -> bool {
    match call {
        Ok(answer) => {
            *receipt = Some(answer.receipt);
            is_answer(&answer, wanted)
        }
        Err(error) => is_error(error, wanted),
    }
}

/// Whether the seat has seen the response of the receipt once it met that.
pub fn meets(seat: &mut Seat, receipt: Option<Receipt>) -> bool {
    match receipt {
        Some(receipt) => seat.meet(&receipt).is_ok() && seat.seen(0) == receipt.place() + 1,
        None => false,
    }
}

/// Whether the seat is foreign where the receipt is met.
pub fn fails_to_meet(seat: &mut Seat, receipt: Option<Receipt>) -> bool {
    match receipt {
        Some(receipt) => seat.meet(&receipt) == Err(CallError::Foreign),
        None => false,
    }
}

/// How many calls of the client the record has.
pub fn calls_of(client: ClientId, history: &History) -> usize {
    let mut count = 0;
    for place in 0..history.row_count() {
        if let Row::Invoke { client: caller, .. } = history.row(place)
            && caller == client
        {
            count = usize::saturating_add(count, 1);
        }
    }
    count
}
