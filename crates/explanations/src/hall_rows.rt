//! Rows and their lines.
ghost use Rattle.std.specs.Prelude.{◌≡◌};

use reasons::note_place;
use recorder::{Call, History, Response};
use row_lines::RowLines;

/// A hall's history, and the line of each of its rows in the history file, from 1. Of a row whose
/// line isn't among them the line 0 is said.
#[derive(Clone, Copy)]
pub struct HallRows<'a> {
    pub history: &'a History,
    pub lines: &'a RowLines,
}

impl HallRows<'_> {
    ghost use Rattle.explanations.specs.Sentences.{line_at, line_of, note_line, response_line};

    /// The line of the row at that place.
    pub fn line_at(&self, place: usize) -> u64
        ensures { result ≡ line_at self.now place }
    {
        match self.lines.get(place) {
            Some(line) => line,
            None => 0,
        }
    }

    /// The line of the call's note.
    pub fn note_line(&self, call: &Call<'_>) -> u64
        ensures { result ≡ note_line self.now call.now }
    {
        match note_place(self.history, call) {
            Some(place) => self.line_at(place),
            None => 0,
        }
    }

    /// The line of the response.
    pub(crate) fn response_line(&self, response: &Option<Response<'_>>) -> u64
        ensures { result ≡ response_line self.now response.now }
    {
        match response {
            Some(response) => self.line_at(response.place),
            None => 0,
        }
    }
}
