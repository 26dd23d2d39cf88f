//! The members of a row's line, read in one pass or through the JSON value that the line is.
ghost use Rattle.std.specs.Prelude.{◌≡◌, Some, option_and_then, option_map};
ghost use Rattle.serde_json.specs.Find.{as_number, as_str, as_u64, get};
ghost use Rattle.row_members.specs.Names.{text_of};
ghost use Rattle.row_members.specs.Values.{member_data};
ghost use Rattle.counted_devices.specs.Answers.{Gives};
ghost use Rattle.file_format.specs.Documents.{Classifies, row_data};
ghost use Rattle.file_format.specs.Members.{needed_member, number_at, text_at};

use crate::LineFault;
use crate::document::{Document, Member};
use crate::fault::Stop;
use crate::line_texts::LineText;
use row_members::{Member as Found, Name, RowMembers};

/// A row's line, as its members or as its JSON value.
#[derive(Clone, Copy)]
pub(crate) enum RowDocument<'d, 'a> {
    Members(&'d RowMembers<'a, 'd>),
    Value(&'d Document<'a>),
}

impl<'d, 'a> RowDocument<'d, 'a> {
    /// The member of that name.
    pub(crate) fn member(&self, name: Name) -> Member<'_>
        ensures { Classifies (get (text_of name) (row_data self.now)) result }
    {
        match self {
            RowDocument::Members(members) => member_in(members.member(name)),
            RowDocument::Value(document) => document.member(name.text()),
        }
    }

    /// The text that is the member of that name; without one the line has the fault `Member`.
    pub(crate) fn needed_text(&self, name: Name) -> Result<LineText<'_>, Stop>
        ensures { Gives (λ text. text.text.now) result
            (needed_member (text_at (text_of name) (row_data self.now))) }
    {
        match self {
            RowDocument::Members(members) => text_in(members.member(name)),
            RowDocument::Value(document) => document.needed_text(name.text()),
        }
    }

    /// The number that is the member of that name; without one the line has the fault `Member`.
    pub(crate) fn needed_number(&self, name: Name) -> Result<u64, Stop>
        ensures { Gives (λ number. number) result
            (needed_member (number_at (text_of name) (row_data self.now))) }
    {
        match self {
            RowDocument::Members(members) => number_in(members.member(name)),
            RowDocument::Value(document) => document.needed_number(name.text()),
        }
    }
}

/// The text that the member is.
fn text_in(found: Option<Found<'_>>) -> Result<LineText<'_>, Stop>
    ensures { Gives (λ text. text.text.now) result
        (needed_member (option_and_then as_str (option_map member_data found.entry))) }
{
    match found {
        Some(Found::Text { text, start }) => Ok(LineText { text, start }),
        _ => Err(Stop::Fault(LineFault::Member)),
    }
}

/// The number that the member is.
fn number_in(found: Option<Found<'_>>) -> Result<u64, Stop>
    ensures { Gives (λ number. number) result (needed_member (option_and_then as_u64
        (option_and_then as_number (option_map member_data found.entry)))) }
{
    match found {
        Some(Found::Number(number)) => Ok(number),
        _ => Err(Stop::Fault(LineFault::Member)),
    }
}

/// What the member is, if there is one.
fn member_in(found: Option<Found<'_>>) -> Member<'_>
    ensures { Classifies (option_map member_data found.entry) result }
{
    match found {
        None => Member::Missing,
        Some(member) => kind_of(member),
    }
}

/// What the member is.
fn kind_of(member: Found<'_>) -> Member<'_>
    ensures { Classifies (Some (member_data member.entry)) result }
{
    match member {
        Found::Null => Member::Null,
        Found::Number(_) => Member::Other,
        Found::Text { text, start } => Member::Text(LineText { text, start }),
    }
}
