//! Calls, as a monitor tells them.
ghost use Rattle.std.specs.Prelude.{◌≡◌, ◌++◌, OnOk, Some};
ghost use Rattle.std.specs.Option.{option_copied};
ghost use Rattle.sentences.specs.Words.{value_text};
ghost use Rattle.monitor_sentences.specs.ToldCalls.{action_text, answer_line, answer_text, begun_text};
ghost use Rattle.monitor_sentences.specs.ToldCalls.{head_text, is_same, line_of, note_text, precedence_text, side_text};
ghost use Rattle.monitor_sentences.specs.ToldCalls.{told_text, untold_text};

use crate::pieces::{Piece, say};
use record_monitor::{ToldCall, ToldNote, ToldSide};
use sentences::{append, append_number, append_quoted};
use tag::Memory;

/// The line of the row at that place.
pub(crate) fn line_of(place: u64) -> u64
    ensures { result ≡ line_of place }
{
    place.saturating_add(2)
}

/// Says the numbers of the call and of its client.
#[tactic(auto, unfolding(crate::specs::ToldCalls::head_text))]
fn append_head(text: &mut Vec<u8>, call: &ToldCall) -> Result<(), Memory>
    ensures { OnOk result (text.new.items ≡ text.old.items ++ head_text call.now) }
{
    let client = Piece::Number(", client ", u64::from(call.client.get()));
    say(
        text,
        &[Piece::Number("  call ", u64::from(call.op.0)), client],
    )
}

/// Says the line on which a call began.
#[tactic(auto, unfolding(crate::specs::ToldCalls::begun_text))]
fn append_begun(text: &mut Vec<u8>, begun: u64) -> Result<(), Memory>
    ensures { OnOk result (text.new.items ≡ text.old.items ++ begun_text begun) }
{
    append_number(text, " (began at line ", line_of(begun))
}

/// Says the tag that a call is noted with, and the line of its note.
#[tactic(auto, unfolding(crate::specs::ToldCalls::note_text))]
fn append_note(text: &mut Vec<u8>, note: Option<ToldNote>) -> Result<(), Memory>
    ensures { OnOk result (text.new.items ≡ text.old.items ++ note_text note) }
{
    match note {
        None => append(text, ", not noted"),
        Some(note) => {
            let line = line_of(note.place);
            let at = Piece::Number(" at line ", line);
            say(text, &[Piece::Words(", noted "), Piece::Tag(note.tag), at])
        }
    }
}

/// Says the line of the answer, and ends the line.
#[tactic(auto, unfolding(crate::specs::ToldCalls::answer_text))]
fn append_answer(text: &mut Vec<u8>, answered: Option<u64>) -> Result<(), Memory>
    ensures { OnOk result (text.new.items ≡ text.old.items ++ answer_text answered) }
{
    match answered {
        None => append(text, ", not answered)\n"),
        Some(place) => {
            append_number(text, ", answered at line ", line_of(place))?;
            append(text, ")\n")
        }
    }
}

/// The line of the call's answer; 0 if it has none.
fn answer_line(call: &ToldCall) -> u64
    ensures { result ≡ answer_line call.now.answered }
{
    match call.answered {
        None => 0,
        Some(place) => line_of(place),
    }
}

/// Whether the two are one call.
fn is_same(a: &ToldCall, b: &ToldCall) -> bool
    ensures { result ≡ is_same a.now b.now }
{
    a.op.0 == b.op.0
}

/// Says that the earlier call was answered before the later one began.
#[tactic(auto, unfolding(crate::specs::ToldCalls::precedence_text))]
pub(crate) fn append_precedence(
    text: &mut Vec<u8>,
    earlier: &ToldCall,
    later: &ToldCall,
) -> Result<(), Memory>
    ensures { OnOk result
        (text.new.items ≡ text.old.items ++ precedence_text earlier.now later.now) }
{
    let pieces = [
        Piece::Number("  call ", u64::from(earlier.op.0)),
        Piece::Number(" was answered at line ", answer_line(earlier)),
        Piece::Number(", before call ", u64::from(later.op.0)),
        Piece::Number(" began at line ", line_of(later.begun)),
    ];
    say(text, &pieces)
}

/// What calls on a key are told with: the key, and what they write or answer.
#[derive(Clone, Copy)]
pub(crate) struct Subject<'a> {
    pub(crate) key: &'a str,
    /// None of a read that answers nothing.
    pub(crate) value: Option<&'a str>,
}

impl Subject<'_> {
    /// Says the value as a JSON text, or `null` if there is none.
    #[tactic(auto, unfolding(sentences::specs::Words::value_text))]
    fn append_value(&self, text: &mut Vec<u8>) -> Result<(), Memory>
        ensures { OnOk result
            (text.new.items ≡ text.old.items ++ value_text (option_copied self.now.value)) }
    {
        match self.value {
            None => append(text, "null"),
            Some(value) => append_quoted(text, value),
        }
    }

    /// Says what a write or a read does on the key.
    #[tactic(auto, unfolding(crate::specs::ToldCalls::action_text))]
    fn append_action(&self, text: &mut Vec<u8>, is_write: bool) -> Result<(), Memory>
        ensures { OnOk result (text.new.items ≡ text.old.items
            ++ action_text self.now.key.now (option_copied self.now.value) is_write) }
    {
        if is_write {
            append(text, ", writes ")?;
            self.append_value(text)?;
            append(text, " to ")?;
            append(text, self.key)
        } else {
            append(text, ", reads ")?;
            append(text, self.key)?;
            append(text, " and answers ")?;
            self.append_value(text)
        }
    }

    /// Says the call, a line.
    #[tactic(auto, unfolding(crate::specs::ToldCalls::told_text))]
    pub(crate) fn append_told(&self, text: &mut Vec<u8>, call: &ToldCall) -> Result<(), Memory>
        ensures { OnOk result (text.new.items ≡ text.old.items
            ++ told_text self.now.key.now (option_copied self.now.value) call.now) }
    {
        append_head(text, call)?;
        self.append_action(text, call.is_write)?;
        append_begun(text, call.begun)?;
        append_note(text, call.noted)?;
        append_answer(text, call.answered)
    }

    /// Says the call, unless it was told.
    fn append_untold(&self, text: &mut Vec<u8>, told: bool, call: &ToldCall) -> Result<(), Memory>
        ensures { OnOk result (text.new.items ≡ text.old.items
            ++ untold_text self.now.key.now (option_copied self.now.value) told call.now) }
    {
        if told {
            Ok(())
        } else {
            self.append_told(text, call)
        }
    }
}

/// Says the calls of a side, each once.
#[tactic(auto, unfolding(crate::specs::ToldCalls::side_text))]
pub(crate) fn append_side(text: &mut Vec<u8>, key: &str, side: &ToldSide) -> Result<(), Memory>
    ensures { OnOk result (text.new.items ≡ text.old.items ++ side_text key.now side.now) }
{
    let value = Some(side.value.as_str());
    let subject = Subject { key, value };
    let (first, last) = (&side.first_ended, &side.last_begun);
    subject.append_told(text, &side.write)?;
    subject.append_untold(text, is_same(first, &side.write), first)?;
    let told = is_same(last, &side.write) || is_same(last, first);
    subject.append_untold(text, told, last)
}
