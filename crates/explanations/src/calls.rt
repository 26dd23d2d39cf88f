//! Calls, as sentences name them.
ghost use Rattle.std.specs.Prelude.{◌≡◌, ◌++◌, OnOk};
ghost use Rattle.explanations.specs.Sentences.{action_text, call_line, call_text, note_text};
ghost use Rattle.explanations.specs.Sentences.{placed_line, response_text, returned_text};
ghost use Rattle.explanations.specs.Sentences.{unnoted_text};

use crate::hall_rows::HallRows;
use crate::pieces::Subject;
use crate::words::{append_op, append_value};
use recorder::{Call, ReturnedRef};
use sentences::{append, append_number, append_tag};
use tag::{Key, Memory};

/// Adds what a response answers, if it is a read's.
#[tactic(auto, unfolding(crate::specs::Sentences::returned_text))]
fn append_returned(text: &mut Vec<u8>, returned: &ReturnedRef<'_>) -> Result<(), Memory>
    ensures { OnOk result (text.new.items ≡ text.old.items ++ returned_text returned.now) }
{
    match returned.answered() {
        None => Ok(()),
        Some(value) => {
            append(text, " and answers ")?;
            append_value(text, &value)
        }
    }
}

impl Subject<'_, '_> {
    /// Adds what the call does on the key.
    #[tactic(auto, unfolding(crate::specs::Sentences::action_text))]
    fn append_action(&self, text: &mut Vec<u8>, call: &Call<'_>) -> Result<(), Memory>
        ensures { OnOk result (text.new.items
            ≡ text.old.items ++ action_text self.now.key.now call.now.action call.now.response) }
    {
        match call.action.written() {
            None => {
                append(text, ", reads ")?;
                append(text, self.key.as_str())?;
                match &call.response {
                    None => Ok(()),
                    Some(response) => append_returned(text, &response.returned),
                }
            }
            Some(value) => {
                append(text, ", writes ")?;
                append_value(text, &Some(value))?;
                append(text, " to ")?;
                append(text, self.key.as_str())
            }
        }
    }

    /// Adds the tag that the call is noted with, and the line of its note.
    #[tactic(auto, unfolding(crate::specs::Sentences::note_text))]
    fn append_note(&self, text: &mut Vec<u8>, call: &Call<'_>) -> Result<(), Memory>
        ensures { OnOk result (text.new.items
            ≡ text.old.items ++ note_text self.now.hall call.now call.now.note) }
    {
        match call.note {
            None => append(text, ", not noted"),
            Some(tag) => {
                append(text, ", noted ")?;
                append_tag(text, tag)?;
                append_number(text, " at line ", self.hall.note_line(call))
            }
        }
    }

    /// Adds the line of the response.
    #[tactic(auto, unfolding(crate::specs::Sentences::response_text))]
    fn append_response(&self, text: &mut Vec<u8>, call: &Call<'_>) -> Result<(), Memory>
        ensures { OnOk result (text.new.items
            ≡ text.old.items ++ response_text self.now.hall call.now.response) }
    {
        match &call.response {
            None => append(text, ", not answered)"),
            Some(response) => {
                let line = self.hall.line_at(response.place);
                append_number(text, ", answered at line ", line)?;
                append(text, ")")
            }
        }
    }

    /// Adds the call: its number, its client, what it does, and the lines of its rows.
    fn append_call(&self, text: &mut Vec<u8>, call: &Call<'_>) -> Result<(), Memory>
        ensures { OnOk result (text.new.items
            ≡ text.old.items ++ call_text self.now.key.now self.now.hall call.now) }
    {
        append_op(text, "call ", call.op)?;
        append_number(text, ", client ", u64::from(call.client.get()))?;
        self.append_action(text, call)?;
        append_number(text, " (began at line ", self.hall.line_at(call.invoked))?;
        self.append_note(text, call)?;
        self.append_response(text, call)
    }

    /// Adds the words, and then the call to the end of the line.
    #[tactic(auto, unfolding(crate::specs::Sentences::call_line))]
    pub(crate) fn append_line(
        &self,
        text: &mut Vec<u8>,
        words: &str,
        call: &Call<'_>,
    ) -> Result<(), Memory>
        ensures { OnOk result (text.new.items
            ≡ text.old.items ++ call_line self.now.key.now self.now.hall words.now call.now) }
    {
        append(text, words)?;
        self.append_call(text, call)?;
        append(text, "\n")
    }

    /// Says which write without a note the read may have read, if there is one.
    #[tactic(auto, unfolding(crate::specs::Sentences::unnoted_text))]
    pub(crate) fn say_unnoted(
        &self,
        text: &mut Vec<u8>,
        write: &Option<Call<'_>>,
    ) -> Result<(), Memory>
        ensures { OnOk result (text.new.items
            ≡ text.old.items ++ unnoted_text self.now.key.now self.now.hall write.now) }
    {
        match write {
            None => Ok(()),
            Some(write) => {
                let words =
                    "  the read answers what this write wrote, which was neither noted nor answered: ";
                self.append_line(text, words, write)
            }
        }
    }

    /// Adds the words, the place, and the call that stands there.
    #[tactic(auto, unfolding(crate::specs::Sentences::placed_line))]
    pub(crate) fn append_placed(
        &self,
        text: &mut Vec<u8>,
        words: &str,
        place: usize,
        call: &Call<'_>,
    ) -> Result<(), Memory>
        ensures { OnOk result (text.new.items ≡ text.old.items
            ++ placed_line self.now.key.now self.now.hall words.now place call.now) }
    {
        append_number(text, words, place as u64)?;
        self.append_line(text, ": ", call)
    }
}

/// Adds the call on the key, which has its rows in the hall: its number, its client, what it does,
/// and the lines of its rows.
pub fn append_call(
    text: &mut Vec<u8>,
    key: &Key,
    hall: &HallRows<'_>,
    call: &Call<'_>,
) -> Result<(), Memory>
    ensures { OnOk result
        (text.new.items ≡ text.old.items ++ call_text key.now hall.now call.now) }
{
    let subject = Subject { key, hall: *hall };
    subject.append_call(text, call)
}
