//! Rows from JSON values.
ghost use Rattle.std.specs.Prelude.{◌≡◌, codes, true, Some, IfOk, IfSome};
ghost use Rattle.serde_json.specs.Find.{get};
ghost use Rattle.tag.specs.Names.{is_value};
ghost use Rattle.file_format.specs.Documents.{row_data};
ghost use Rattle.file_format.specs.LineRows.{HaveValue, action_said, returned_said};
ghost use Rattle.counted_devices.specs.Answers.{Gives};
ghost use Rattle.file_format.specs.Rows.{invocation_of, written_in, action_of, invoke_in, note_in};
ghost use Rattle.file_format.specs.Rows.{answer_of, returned_of, respond_in, row_of, row_in};

use crate::LineFault;
use crate::document::Member;
use crate::fault::Stop;
use crate::line_row::LineRow;
use crate::line_texts::{LinePlace, LineText};
use crate::ranges::{client_of, key_of, op_of, tag_of, value_of};
use crate::row_document::RowDocument;
use row_members::Name;

#[tactic(auto, unfolding(crate::specs::Rows::invocation_of))]
fn invocation_of(
    place: &LinePlace,
    call: u64,
    client: u64,
    key: LineText<'_>,
    written: Option<LineText<'_>>,
) -> Result<LineRow, Stop>
    requires { IfSome written (λ value. is_value value.text.now ≡ true) }
    ensures { Gives (λ row. row) result
        (invocation_of call client key.entry.text.now (action_said written.entry)) }
{
    let op = op_of(call)?;
    let client = client_of(client)?;
    let key = key_of(key)?;
    Ok(LineRow::invoke(place, op, client, key, written)?)
}

#[tactic(auto, unfolding(crate::specs::Rows::written_in))]
fn written_in<'d>(document: &'d RowDocument<'_, '_>) -> Result<Option<LineText<'d>>, Stop>
    ensures given { Gives action_said result (written_in (row_data document.now)) }
    ensures lawful { IfOk result (λ written. IfSome written
        (λ value. is_value value.text.now ≡ true)) }
{
    let text = document.needed_text(Name::Value)?;
    let value = value_of(text)?;
    Ok(Some(value))
}

#[tactic(auto, unfolding(crate::specs::Rows::action_of))]
fn action_of<'d>(
    action: &str,
    document: &'d RowDocument<'_, '_>,
) -> Result<Option<LineText<'d>>, Stop>
    ensures given { Gives action_said result (action_of action.now (row_data document.now)) }
    ensures lawful { IfOk result (λ written. IfSome written
        (λ value. is_value value.text.now ≡ true)) }
{
    if action == "read" {
        Ok(None)
    } else if action == "write" {
        written_in(document)
    } else {
        Err(Stop::Fault(LineFault::Range))
    }
}

#[tactic(auto, unfolding(crate::specs::Rows::invoke_in))]
fn invoke_in(place: &LinePlace, document: &RowDocument<'_, '_>) -> Result<LineRow, Stop>
    ensures { Gives (λ row. row) result (invoke_in (row_data document.now)) }
{
    let call = document.needed_number(Name::Call)?;
    let client = document.needed_number(Name::Client)?;
    let key = document.needed_text(Name::Key)?;
    let name = document.needed_text(Name::Do)?;
    let written = action_of(name.text, document)?;
    invocation_of(place, call, client, key, written)
}

#[tactic(auto, unfolding(crate::specs::Rows::note_in))]
fn note_in(place: &LinePlace, document: &RowDocument<'_, '_>) -> Result<LineRow, Stop>
    ensures { Gives (λ row. row) result (note_in (row_data document.now)) }
{
    let call = document.needed_number(Name::Call)?;
    let number = document.needed_number(Name::Number)?;
    let writer = document.needed_number(Name::Writer)?;
    let op = op_of(call)?;
    let tag = tag_of(number, writer)?;
    Ok(LineRow::note(place, op, tag)?)
}

#[tactic(auto, unfolding(crate::specs::Rows::answer_of))]
fn answer_of(text: LineText<'_>) -> Result<Option<Option<LineText<'_>>>, Stop>
    ensures given { Gives returned_said result (answer_of (Some text.entry.text.now)) }
    ensures lawful { IfOk result HaveValue }
{
    let value = value_of(text)?;
    Ok(Some(Some(value)))
}

#[tactic(auto, unfolding(crate::specs::Rows::returned_of, crate::specs::Rows::answer_of))]
fn returned_in<'d>(document: &'d RowDocument<'_, '_>) -> Result<Option<Option<LineText<'d>>>, Stop>
    ensures given { Gives returned_said result
        (returned_of (get (codes "value") (row_data document.now))) }
    ensures lawful { IfOk result HaveValue }
{
    match document.member(Name::Value) {
        Member::Missing => Ok(None),
        Member::Null => Ok(Some(None)),
        Member::Text(text) => answer_of(text),
        Member::Other => Err(Stop::Fault(LineFault::Member)),
    }
}

#[tactic(auto, unfolding(crate::specs::Rows::respond_in))]
fn respond_in(place: &LinePlace, document: &RowDocument<'_, '_>) -> Result<LineRow, Stop>
    ensures { Gives (λ row. row) result (respond_in (row_data document.now)) }
{
    let call = document.needed_number(Name::Call)?;
    let answered = returned_in(document)?;
    let op = op_of(call)?;
    Ok(LineRow::respond(place, op, answered)?)
}

#[tactic(auto, unfolding(crate::specs::Rows::row_of))]
fn row_of(place: &LinePlace, kind: &str, document: &RowDocument<'_, '_>) -> Result<LineRow, Stop>
    ensures { Gives (λ row. row) result (row_of kind.now (row_data document.now)) }
{
    if kind == "invoke" {
        invoke_in(place, document)
    } else if kind == "note" {
        note_in(place, document)
    } else if kind == "respond" {
        respond_in(place, document)
    } else {
        Err(Stop::Fault(LineFault::Range))
    }
}

/// The row that the value says, whose line stands there.
#[tactic(auto, unfolding(crate::specs::Rows::row_in))]
pub(crate) fn row_in(place: &LinePlace, document: &RowDocument<'_, '_>) -> Result<LineRow, Stop>
    ensures { Gives (λ row. row) result (row_in (row_data document.now)) }
{
    let kind = document.needed_text(Name::Row)?;
    row_of(place, kind.text, document)
}
