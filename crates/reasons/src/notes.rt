//! Where calls are noted.
ghost use Rattle.std.specs.Prelude.{◌≡◌};
ghost use Rattle.reasons.specs.Notes.{is_note_of, note_place};

use recorder::{Call, History, Row};
use tag::OpId;

/// Whether the row is a note of that call.
fn is_note_of(row: &Row<'_>, op: OpId) -> bool
    ensures { result ≡ is_note_of op row.now }
{
    match row {
        Row::Note { op: noted, .. } => *noted == op,
        Row::Invoke { .. } | Row::Respond { .. } => false,
    }
}

/// The place of the row that notes the call, in the history that it is recorded in; `None` for a
/// call without a note.
///
/// It takes time in proportion to the rows between the call's invocation and its note.
pub fn note_place(history: &History, call: &Call<'_>) -> Option<usize>
    ensures { result ≡ note_place history.now.rows call.now }
{
    if call.note.is_none() {
        return None;
    }
    for place in call.invoked..history.row_count() {
        if is_note_of(&history.row(place), call.op) {
            return Some(place);
        }
    }
    None
}
