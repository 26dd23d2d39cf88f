//! The earlier rows of a hall, and the rows among them that are looked for.
ghost use Rattle.std.specs.Prelude.{◌≡◌, ◌<◌, length, IfSome};
ghost use Rattle.recorder.specs.Histories.{call_count};
ghost use Rattle.fault_details.specs.RowDetails.{is_sought, last_place, line_at};

use recorder::{History, Row};
use row_lines::RowLines;

/// The rows of a hall before the line with the fault, and the line of each, from 1. Of a row whose
/// line isn't among them the line 0 is said.
#[derive(Clone, Copy)]
pub struct EarlierRows<'a> {
    /// The hall's number, where the file has halls.
    pub hall: Option<u8>,
    /// The history of those rows.
    pub history: &'a History,
    /// The line of each.
    pub lines: &'a RowLines,
}

/// Which row is looked for.
#[derive(Clone, Copy, Debug)]
pub(crate) enum Sought {
    /// One that begins a call of that client.
    Client(u64),
    /// The one that begins that call.
    Begun(u64),
    /// The one that notes that call.
    Noted(u64),
    /// The one that answers that call.
    Answered(u64),
}

/// Whether the row is one that is looked for.
fn is_sought(sought: Sought, row: &Row<'_>) -> bool
    ensures { result ≡ is_sought sought row.now }
{
    match (sought, row) {
        (Sought::Client(name), Row::Invoke { client, .. }) => u64::from(client.get()) == name,
        (Sought::Begun(call), Row::Invoke { op, .. }) => u64::from(op.0) == call,
        (Sought::Noted(call), Row::Note { op, .. }) => u64::from(op.0) == call,
        (Sought::Answered(call), Row::Respond { op, .. }) => u64::from(op.0) == call,
        _ => false,
    }
}

impl EarlierRows<'_> {
    /// The last place at which such a row stands.
    pub(crate) fn last_place(&self, sought: Sought) -> Option<usize>
        ensures place { result ≡ last_place sought self.now.history.now.rows }
        ensures inside { IfSome result (λ place. place < length self.now.history.now.rows) }
    {
        let mut count = self.history.row_count();
        while count > 0 {
            if is_sought(sought, &self.history.row(count - 1)) {
                return Some(count - 1);
            }
            count -= 1;
        }
        None
    }

    /// The line of the row at that place.
    pub(crate) fn line_at(&self, place: usize) -> u64
        ensures { result ≡ line_at self.now place }
    {
        match self.lines.get(place) {
            Some(line) => line,
            None => 0,
        }
    }

    /// How many calls the rows begin.
    pub(crate) fn calls(&self) -> u64
        ensures { result ≡ call_count self.now.history.now.rows }
    {
        self.history.calls() as u64
    }
}
