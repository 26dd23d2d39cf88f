//! The JSON value that a line is.
ghost use Rattle.std.specs.Prelude.{◌≡◌, true, option_map};
ghost use Rattle.json.specs.Find.{as_array};
ghost use Rattle.json.specs.Value.{value_view, items_view};
ghost use Rattle.serde_json.specs.Find.{get};
ghost use Rattle.counted_devices.specs.Answers.{Gives};
ghost use Rattle.file_format.specs.Members.{needed_member, text_at, number_at, numbers_at};
ghost use Rattle.file_format.specs.Trees.{has_numbers, unsigned_of, all_unsigned};

use crate::LineFault;
use crate::fault::Stop;
use crate::line_texts::LineText;
use crate::numerals::unsigned_in;
use crate::tree::{has_numbers, tree_in};
use json::{Scratch, Value as Json};
use memchr::memmem;
use std::alloc::Global;
use std::str;
use tag::Memory;

/// The JSON value of a line, as `serde_json` reads it; its texts stay where they lie.
#[derive(Drop)]
pub(crate) struct Document<'a> {
    value: Json<'a>,
    line: &'a [u8],
    ghost numbers: { has_numbers (value_view value) ≡ true },
}

/// A member that may be missing.
pub(crate) enum Member<'a> {
    Missing,
    Null,
    Text(LineText<'a>),
    Other,
}

impl<'a> Document<'a> {
    ghost use Rattle.file_format.specs.Documents.{data_in, Classifies, ReadsDocument};

    /// The value that the line is; `NotJson` exactly where it is none.
    pub(crate) fn read(
        alloc: Global,
        line: &'a [u8],
        scratch: &'a mut Scratch,
    ) -> Result<Document<'a>, Stop>
        ensures { ReadsDocument line.now result }
    {
        let Ok(text) = str::from_utf8(line) else {
            return Err(Stop::Fault(LineFault::NotJson));
        };
        let value = tree_in(alloc, text, scratch)?;
        if !has_numbers(&value) {
            return Err(Stop::Fault(LineFault::NotJson));
        }
        Ok(Document { value, line })
    }

    /// The text, and where it stands in the line, or 0 where it doesn't.
    fn found<'t>(&self, text: &'t str) -> LineText<'t>
        ensures { result.text.now ≡ text.now }
    {
        LineText {
            text,
            start: memmem::find(self.line, text.as_bytes()).unwrap_or(0),
        }
    }

    /// The text that is the member of that name.
    fn string(&self, name: &str) -> Option<&str>
        ensures { option_map (λ text. text.now) result ≡ text_at name.now (data_in self.now) }
    {
        self.value.get(name)?.as_str()
    }

    /// The same, with its place.
    pub(crate) fn text(&self, name: &str) -> Option<LineText<'_>>
        ensures { option_map (λ text. text.text.now) result ≡ text_at name.now (data_in self.now) }
    {
        match self.string(name) {
            Some(text) => Some(self.found(text)),
            None => None,
        }
    }

    /// The number that is the member of that name.
    pub(crate) fn number(&self, name: &str) -> Option<u64>
        ensures { result ≡ number_at name.now (data_in self.now) }
    {
        number_in(self.value.get(name)?)
    }

    /// The member of that name.
    pub(crate) fn member(&self, name: &str) -> Member<'_>
        ensures { Classifies (get name.now (data_in self.now)) result }
    {
        let Some(value) = self.value.get(name) else {
            return Member::Missing;
        };
        if value.is_null() {
            return Member::Null;
        }
        match value.as_str() {
            Some(text) => Member::Text(self.found(text)),
            None => Member::Other,
        }
    }

    /// The text that is the member of that name; without one the line has the fault `Member`.
    pub(crate) fn needed_text(&self, name: &str) -> Result<LineText<'_>, Stop>
        ensures { Gives (λ text. text.text.now) result
            (needed_member (text_at name.now (data_in self.now))) }
    {
        self.text(name).ok_or(Stop::Fault(LineFault::Member))
    }

    /// The number that is the member of that name; without one the line has the fault `Member`.
    pub(crate) fn needed_number(&self, name: &str) -> Result<u64, Stop>
        ensures { Gives (λ number. number) result
            (needed_member (number_at name.now (data_in self.now))) }
    {
        self.number(name).ok_or(Stop::Fault(LineFault::Member))
    }

    /// The numbers that are the items of the member of that name; without an array of numbers the
    /// line has the fault `Member`.
    pub(crate) fn needed_numbers(&self, alloc: Global, name: &str) -> Result<Vec<u64>, Stop>
        ensures { Gives (λ numbers. numbers.items) result
            (needed_member (numbers_at name.now (data_in self.now))) }
    {
        let Some(value) = self.value.get(name) else {
            return Err(Stop::Fault(LineFault::Member));
        };
        match items_in(value) {
            Some(items) => numbers_in(alloc, items),
            None => Err(Stop::Fault(LineFault::Member)),
        }
    }
}

/// The items of the array that the tree is.
fn items_in<'v, 'a>(value: &'v Json<'a>) -> Option<&'v [Json<'a>]>
    ensures { option_map (λ items. items_view items.now) result ≡ as_array (value_view value.now) }
{
    if let Json::Array(items) = value {
        Some(items.as_slice())
    } else {
        None
    }
}

/// The number that the tree is.
fn number_in(value: &Json<'_>) -> Option<u64>
    ensures { result ≡ unsigned_of (value_view value.now) }
{
    unsigned_in(value.as_number()?)
}

/// The numbers that all the items are.
fn numbers_in(alloc: Global, items: &[Json<'_>]) -> Result<Vec<u64>, Stop>
    ensures { Gives (λ numbers. numbers.items) result
        (needed_member (all_unsigned (items_view items.now))) }
{
    let mut numbers = Vec::new(alloc);
    for item in items {
        match number_in(item) {
            Some(number) => numbers.push(number).map_err(Memory::from)?,
            None => return Err(Stop::Fault(LineFault::Member)),
        }
    }
    Ok(numbers)
}
