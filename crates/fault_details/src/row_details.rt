//! Why a row may not stand after the earlier rows of its hall.
ghost use Rattle.std.specs.Prelude.{◌≡◌, ◌++◌, Some, OnOk};
ghost use Rattle.fault_details.specs.RowDetails.{busy_row, busy_text, call_at, hall_text, kind_row};
ghost use Rattle.fault_details.specs.RowDetails.{kind_text, next_text, noted_row, noted_text};
ghost use Rattle.fault_details.specs.RowDetails.{place_of, row_text, unasked_text, unbegun_text};

use crate::earlier_rows::{EarlierRows, Sought};
use file_format::LineFault;
use recorder::{ActionRef, Row};
use sentences::{append, append_number};
use tag::Memory;

/// Adds the hall, where a file has several.
fn append_hall(text: &mut Vec<u8>, hall: Option<u8>) -> Result<(), Memory>
    ensures { OnOk result (text.new.items ≡ text.old.items ++ hall_text hall) }
{
    match hall {
        None => Ok(()),
        Some(hall) => append_number(text, " of hall ", u64::from(hall)),
    }
}

/// Says which number the next call has.
#[tactic(auto, unfolding(crate::specs::RowDetails::next_text))]
fn append_next(text: &mut Vec<u8>, earlier: &EarlierRows<'_>) -> Result<(), Memory>
    ensures { OnOk result (text.new.items ≡ text.old.items ++ next_text earlier.now) }
{
    append(text, "  the next call")?;
    append_hall(text, earlier.hall)?;
    append_number(text, " is ", earlier.calls())?;
    append(text, "\n")
}

/// Adds the call, what is said of it, and a line.
#[tactic(auto, unfolding(crate::specs::RowDetails::call_at))]
fn append_call_at(text: &mut Vec<u8>, call: u64, words: &str, line: u64) -> Result<(), Memory>
    ensures { OnOk result (text.new.items ≡ text.old.items ++ call_at call words.now line) }
{
    append_number(text, "  call ", call)?;
    append_number(text, words, line)
}

/// Says that the call has not begun.
#[tactic(auto, unfolding(crate::specs::RowDetails::unbegun_text))]
fn append_unbegun(text: &mut Vec<u8>, call: u64) -> Result<(), Memory>
    ensures { OnOk result (text.new.items ≡ text.old.items ++ unbegun_text call) }
{
    append_number(text, "  call ", call)?;
    append(text, " has not begun\n")
}

/// Says that the client's call, begun at that line, has no answer yet.
#[tactic(auto, unfolding(crate::specs::RowDetails::busy_text))]
fn append_busy(text: &mut Vec<u8>, client: u64, call: u64, line: u64) -> Result<(), Memory>
    ensures { OnOk result (text.new.items ≡ text.old.items ++ busy_text client call line) }
{
    append_number(text, "  client ", client)?;
    append_number(text, " began call ", call)?;
    append_number(text, " at line ", line)?;
    append(text, ", which has no answer yet\n")
}

/// Says that the call was noted with that number and that writer at that line.
#[tactic(auto, unfolding(crate::specs::RowDetails::noted_text))]
fn append_noted(
    text: &mut Vec<u8>,
    call: u64,
    number: u64,
    writer: u64,
    line: u64,
) -> Result<(), Memory>
    ensures { OnOk result
        (text.new.items ≡ text.old.items ++ noted_text call number writer line) }
{
    append_number(text, "  call ", call)?;
    append_number(text, " was noted (", number)?;
    append_number(text, ", ", writer)?;
    append_number(text, ") at line ", line)?;
    append(text, "\n")
}

/// Says what the answer to a call of that action has.
fn append_kind(
    text: &mut Vec<u8>,
    call: u64,
    action: &ActionRef<'_>,
    line: u64,
) -> Result<(), Memory>
    ensures { OnOk result (text.new.items ≡ text.old.items ++ kind_text call action.now line) }
{
    match action.written() {
        None => {
            append_call_at(text, call, " is a read, begun at line ", line)?;
            append(text, ": its answer has \"value\"\n")
        }
        Some(_) => {
            append_call_at(text, call, " is a write, begun at line ", line)?;
            append(text, ": its answer has no \"value\"\n")
        }
    }
}

/// Says of the row at that line that the call that it begins has no answer yet.
fn append_busy_row(text: &mut Vec<u8>, line: u64, row: &Row<'_>) -> Result<(), Memory>
    ensures { OnOk result (text.new.items ≡ text.old.items ++ busy_row line (Some row.now)) }
{
    match row {
        Row::Invoke { op, client, .. } => {
            append_busy(text, u64::from(client.get()), u64::from(op.0), line)
        }
        _ => Ok(()),
    }
}

/// Says of the row at that line which kind the call that it begins is of.
fn append_kind_row(text: &mut Vec<u8>, line: u64, row: &Row<'_>) -> Result<(), Memory>
    ensures { OnOk result (text.new.items ≡ text.old.items ++ kind_row line (Some row.now)) }
{
    match row {
        Row::Invoke { op, action, .. } => append_kind(text, u64::from(op.0), action, line),
        _ => Ok(()),
    }
}

/// Says of the row at that line that it notes the call.
fn append_noted_row(text: &mut Vec<u8>, line: u64, row: &Row<'_>) -> Result<(), Memory>
    ensures { OnOk result (text.new.items ≡ text.old.items ++ noted_row line (Some row.now)) }
{
    match row {
        Row::Note { op, tag } => append_noted(
            text,
            u64::from(op.0),
            u64::from(tag.number()),
            u64::from(tag.writer()),
            line,
        ),
        _ => Ok(()),
    }
}

/// Says that the call was answered, or that it has not begun.
fn append_unasked(text: &mut Vec<u8>, earlier: &EarlierRows<'_>, call: u64) -> Result<(), Memory>
    ensures { OnOk result (text.new.items ≡ text.old.items
        ++ unasked_text earlier.now call (place_of earlier.now (Sought.Answered call))) }
{
    match earlier.last_place(Sought::Answered(call)) {
        Some(place) => {
            append_call_at(text, call, " was answered at line ", earlier.line_at(place))?;
            append(text, "\n")
        }
        None => {
            append_unbegun(text, call)?;
            append_next(text, earlier)
        }
    }
}

/// Says why a row of that call and that client has the fault after the earlier rows of its hall, of a
/// fault that depends on them; of others nothing. A row that isn't an invocation has no client.
pub fn append_row_details(
    text: &mut Vec<u8>,
    earlier: &EarlierRows<'_>,
    fault: LineFault,
    call: u64,
    client: u64,
) -> Result<(), Memory>
    ensures { OnOk result
        (text.new.items ≡ text.old.items ++ row_text earlier.now fault call client) }
{
    let history = earlier.history;
    match fault {
        LineFault::CallOutOfTurn => append_next(text, earlier),
        LineFault::CallNotPending => append_unasked(text, earlier, call),
        LineFault::ClientBusy => match earlier.last_place(Sought::Client(client)) {
            Some(place) => append_busy_row(text, earlier.line_at(place), &history.row(place)),
            None => Ok(()),
        },
        LineFault::WrongKind => match earlier.last_place(Sought::Begun(call)) {
            Some(place) => append_kind_row(text, earlier.line_at(place), &history.row(place)),
            None => Ok(()),
        },
        LineFault::NoteTwice => match earlier.last_place(Sought::Noted(call)) {
            Some(place) => append_noted_row(text, earlier.line_at(place), &history.row(place)),
            None => Ok(()),
        },
        _ => Ok(()),
    }
}
