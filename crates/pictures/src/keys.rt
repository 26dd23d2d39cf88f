//! On which keys the calls of a picture are.
ghost use Rattle.std.specs.Prelude.{◌≡◌};
ghost use Rattle.std.specs.List.{slice_get};
ghost use Rattle.std.specs.Option.{option_map};
ghost use Rattle.pictures.specs.Keys.{begun_on, key_of, said_key, title_words};

use crate::style::ALL_KEYS;
use recorder::{Call, History, Row};
use tag::Key;

/// On which keys the calls of a picture are.
#[derive(Clone, Copy)]
pub enum CallKeys<'a> {
    /// All on this one.
    One(&'a Key),
    /// Each on the one that the history records. It is said of each call.
    Recorded,
}

/// The key of the call that the row at that place begins, if it begins one.
fn begun_on(history: &History, place: usize) -> Option<&Key>
    ensures { option_map (λ key. key.now) result ≡ begun_on (slice_get history.now.rows place) }
{
    if place >= history.row_count() {
        return None;
    }
    match history.row(place) {
        Row::Invoke { key, .. } => Some(key.key()),
        _ => None,
    }
}

impl<'a> CallKeys<'a> {
    /// The key that the call is on.
    pub(crate) fn key_of(self, history: &'a History, call: &Call<'_>) -> Option<&'a Key>
        ensures { option_map (λ key. key.now) result ≡ key_of self.entry history.now.rows call.now }
    {
        match self {
            CallKeys::One(key) => Some(key),
            CallKeys::Recorded => begun_on(history, call.invoked),
        }
    }

    /// What is said of that key in a call's bar.
    pub(crate) fn said_key(self, key: &'a Key) -> &'a str
        ensures { result.now ≡ said_key self.entry key.now }
    {
        match self {
            CallKeys::One(_) => "",
            CallKeys::Recorded => key.as_str(),
        }
    }

    /// What the title says of the keys.
    pub(crate) fn title_words(self) -> &'a str
        ensures { result.now ≡ title_words self.entry }
    {
        match self {
            CallKeys::One(key) => key.as_str(),
            CallKeys::Recorded => ALL_KEYS,
        }
    }
}
