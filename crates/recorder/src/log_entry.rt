//! What a client's log has of a call.
ghost use Rattle.std.specs.Prelude.{◌≡◌};

use std::marker::Model;
use tag::{Action, Key, OpId, Returned};

/// A call of a client.
#[derive(Debug, Drop)]
pub struct Entry {
    /// The hall of its key.
    pub hall: u8,
    /// Its number in that hall's record.
    pub op: OpId,
    /// What it is on.
    pub key: Key,
    /// What it does.
    pub action: Action,
    /// The place of its invocation in that record.
    pub invoked: usize,
    /// Its answer with its place there; none while it is pending.
    pub response: Option<OwnResponse>,
}

/// A response, as `Response`, whose text is its own.
#[derive(Debug, Drop)]
pub struct OwnResponse {
    place: usize,
    returned: Returned,
}

impl Model for OwnResponse {
    ghost use Rattle.recorder.specs.declared.part.Response.{Response};

    ghost Value = { Response };

    ghost view = { λ r. record { place = r.place; returned = r.returned } };
}

impl OwnResponse {
    /// The response at that place.
    pub fn new(place: usize, returned: Returned) -> OwnResponse
        ensures { result ≡ record { place = place; returned = returned } }
    {
        OwnResponse { place, returned }
    }

    /// The place of its row.
    pub fn place(&self) -> usize
        ensures { result ≡ self.now.place }
    {
        self.place
    }

    /// What it answers.
    pub fn returned(&self) -> &Returned
        ensures { result.now ≡ self.now.returned }
    {
        &self.returned
    }
}
