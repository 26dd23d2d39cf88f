//! What is said of a call, in few words.
ghost use Rattle.std.specs.Prelude.{◌≡◌, ◌++◌, OnOk};
ghost use Rattle.pictures.specs.Words.{action_words, begin_words, client_sign, end_words, fault_sign};
ghost use Rattle.pictures.specs.Words.{is_written, line_words, name_words, note_words};
ghost use Rattle.pictures.specs.Words.{numbered_words, place_sign, response_words, returned_words, unless};

use crate::style::{
    ANSWER, BLANK, CALL_SIGN, CLIENT_SIGN, COLON, DONE, FAULT_SIGN, NOT_ANSWERED, PLACE_CLOSES,
    PLACE_OPENS, READS, WRITES,
};
use explanations::{HallRows, append_value};
use recorder::{ActionRef, Call, Response, ReturnedRef};
use sentences::{append, append_number, append_tag};
use tag::{ClientId, Memory, OpId, Tag};

/// Adds the words where there is room for them.
pub(crate) fn say_unless(words: &mut Vec<u8>, briefly: bool, more: &str) -> Result<(), Memory>
    ensures { OnOk result (words.new.items ≡ words.old.items ++ unless briefly more.now) }
{
    if briefly { Ok(()) } else { append(words, more) }
}

/// Adds what a call of that action does.
pub(crate) fn say_action(
    words: &mut Vec<u8>,
    action: &ActionRef<'_>,
    briefly: bool,
) -> Result<(), Memory>
    ensures { OnOk result (words.new.items ≡ words.old.items ++ action_words briefly action.now) }
{
    match action.written() {
        None => append(words, READS),
        Some(value) => {
            say_unless(words, briefly, WRITES)?;
            append_value(words, &Some(value))
        }
    }
}

/// Adds the name of a key and a colon, if there is one.
pub(crate) fn say_name(words: &mut Vec<u8>, name: &str) -> Result<(), Memory>
    ensures { OnOk result (words.new.items ≡ words.old.items ++ name_words name.now) }
{
    if name.is_empty() {
        return Ok(());
    }
    append(words, name)?;
    append(words, COLON)
}

/// Adds the sign of a call at fault, if it is one.
fn say_fault(words: &mut Vec<u8>, faulty: bool) -> Result<(), Memory>
    ensures { OnOk result (words.new.items ≡ words.old.items ++ fault_sign faulty) }
{
    if faulty {
        append(words, FAULT_SIGN)
    } else {
        Ok(())
    }
}

/// Adds the sign of a call at fault, if it is one, and the call's number after these words.
pub(crate) fn say_number(
    words: &mut Vec<u8>,
    before: &str,
    op: OpId,
    faulty: bool,
) -> Result<(), Memory>
    ensures { OnOk result
        (words.new.items ≡ words.old.items ++ numbered_words faulty before.now op) }
{
    say_fault(words, faulty)?;
    append_number(words, before, u64::from(op.0))
}

/// Adds the client's number and a blank, where it is to be said.
fn say_client(words: &mut Vec<u8>, client: ClientId, shared: bool) -> Result<(), Memory>
    ensures { OnOk result (words.new.items ≡ words.old.items ++ client_sign shared client) }
{
    if shared {
        append_number(words, CLIENT_SIGN, u64::from(client.get()))?;
        append(words, BLANK)
    } else {
        Ok(())
    }
}

/// What is said of a call beside what it is.
#[derive(Clone, Copy)]
pub(crate) struct Signs {
    /// Whether it is at fault.
    pub(crate) faulty: bool,
    /// Whether its column has several clients.
    pub(crate) shared: bool,
    /// Its place in an order that is refused.
    pub(crate) place: Option<usize>,
}

/// Adds the place in an order and a blank, if there is one.
fn say_place(words: &mut Vec<u8>, place: Option<usize>) -> Result<(), Memory>
    ensures { OnOk result (words.new.items ≡ words.old.items ++ place_sign place) }
{
    match place {
        None => Ok(()),
        Some(place) => {
            append_number(words, PLACE_OPENS, place as u64)?;
            append(words, PLACE_CLOSES)
        }
    }
}

/// Adds the call's number, its place in a refused order, its client in a shared column, the name of
/// its key, and what it does.
pub(crate) fn say_begin(
    words: &mut Vec<u8>,
    name: &str,
    call: &Call<'_>,
    signs: Signs,
    briefly: bool,
) -> Result<(), Memory>
    ensures { OnOk result (words.new.items
        ≡ words.old.items ++ begin_words signs briefly name.now call.now) }
{
    say_number(words, CALL_SIGN, call.op, signs.faulty)?;
    append(words, BLANK)?;
    say_place(words, signs.place)?;
    say_client(words, call.client, signs.shared)?;
    say_name(words, name)?;
    say_action(words, &call.action, briefly)
}

/// Adds what a response answers.
fn say_returned(words: &mut Vec<u8>, returned: &ReturnedRef<'_>) -> Result<(), Memory>
    ensures { OnOk result (words.new.items ≡ words.old.items ++ returned_words returned.now) }
{
    match returned.answered() {
        None => append(words, DONE),
        Some(value) => append_value(words, &value),
    }
}

/// Whether the response is a write's.
fn is_written(response: &Option<Response<'_>>) -> bool
    ensures { result ≡ is_written response.now }
{
    match response {
        Some(response) => response.returned.answered().is_none(),
        None => false,
    }
}

/// Adds what that response answers, or that there is none.
pub(crate) fn say_response(
    words: &mut Vec<u8>,
    response: &Option<Response<'_>>,
) -> Result<(), Memory>
    ensures { OnOk result (words.new.items ≡ words.old.items ++ response_words response.now) }
{
    match response {
        None => append(words, NOT_ANSWERED),
        Some(response) => say_returned(words, &response.returned),
    }
}

/// Adds what that response answers, where a call ends.
pub(crate) fn say_end(
    words: &mut Vec<u8>,
    response: &Option<Response<'_>>,
    briefly: bool,
) -> Result<(), Memory>
    ensures { OnOk result (words.new.items ≡ words.old.items ++ end_words briefly response.now) }
{
    say_unless(words, briefly || is_written(response), ANSWER)?;
    say_response(words, response)
}

/// Adds the tag, if there is one.
pub(crate) fn say_note(words: &mut Vec<u8>, note: Option<Tag>) -> Result<(), Memory>
    ensures { OnOk result (words.new.items ≡ words.old.items ++ note_words note) }
{
    match note {
        None => Ok(()),
        Some(tag) => append_tag(words, tag),
    }
}

/// Adds the line of the hall's row at that place, if there is one.
pub(crate) fn say_line(
    words: &mut Vec<u8>,
    hall: &HallRows<'_>,
    place: Option<usize>,
) -> Result<(), Memory>
    ensures { OnOk result (words.new.items ≡ words.old.items ++ line_words hall.now place) }
{
    match place {
        None => Ok(()),
        Some(place) => append_number(words, "", hall.line_at(place)),
    }
}
