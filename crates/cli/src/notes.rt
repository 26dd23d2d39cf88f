//! Whether calls have notes, and what people are told if none has.
ghost use Rattle.std.specs.Prelude.{◌≡◌, ◌++◌, IfOk, map};
ghost use Rattle.std.specs.List.{list_any};
ghost use Rattle.parallel_keys.specs.CheckedKeys.{all_parts};
ghost use Rattle.cli.specs.Hints.{has_note, have_notes, hint_of};

use crate::outcome::{Found, Outcome};
use recorder::{Part, Parts};
use sentences::append;
use tag::Memory;

/// Whether a call of the part has a note.
pub fn has_note(part: &Part<'_>) -> bool
    ensures { result ≡ has_note part.now }
{
    for place in 0..part.len() {
        let state = part.state(place);
        if state.note.is_some() {
            return true;
        }
    }
    false
}

/// Whether a call on one of a hall's keys has a note.
fn hall_has_note(own: &Parts<'_>) -> bool
    ensures { result ≡ list_any (λ entry. has_note entry.1) own.now.entries }
{
    for place in 0..own.len() {
        let (_, part) = own.entry(place);
        if has_note(&part) {
            return true;
        }
    }
    false
}

/// Whether a call on a key has a note.
fn have_notes(parts: &[Parts<'_>]) -> bool
    ensures { result ≡ have_notes (all_parts (map (λ p. p.entries) parts.now)) }
{
    for own in parts {
        if hall_has_note(own) {
            return true;
        }
    }
    false
}

/// The outcome of a justification of these parts, with a line more for `people` if a key is refused and no call
/// has a note.
pub(crate) fn hinted(outcome: Outcome, parts: &[Parts<'_>], people: bool) -> Result<Outcome, Memory>
    ensures text { IfOk result (λ told. told.text.items ≡ outcome.text.items) }
    ensures found { IfOk result (λ told. told.found ≡ outcome.found) }
    ensures notes { IfOk result (λ told. told.notes.items ≡ outcome.notes.items
        ++ hint_of people outcome.found (all_parts (map (λ p. p.entries) parts.now))) }
{
    let Outcome {
        text,
        mut notes,
        found,
    } = outcome;
    if people && found == Found::Refused && !have_notes(parts) {
        append(
            &mut notes,
            "abd: no call has a note; abd justify --by values makes orders from the values\n",
        )?;
    }
    Ok(Outcome { text, notes, found })
}
