//! Trees of JSON, their texts as they lie in the line.
ghost use Rattle.std.specs.Prelude.{◌≡◌};
ghost use Rattle.json.specs.Value.{value_view, items_view, members_view};
ghost use Rattle.file_format.specs.Trees.{IsTree, has_numbers, items_have_numbers, members_have_numbers};

use crate::LineFault;
use crate::fault::Stop;
use crate::numerals::is_number;
use json::{Error, Reader, Scratch, Value as Json};
use std::alloc::Global;

/// How deep arrays and objects may nest.
const DEEPEST: usize = 127;

/// The tree that the text is; `NotJson` exactly where it is none.
pub(crate) fn tree_in<'a>(
    alloc: Global,
    text: &'a str,
    scratch: &'a mut Scratch,
) -> Result<Json<'a>, Stop>
    ensures { IsTree text.now result }
{
    let Ok(mut reader) = Reader::new(text, scratch) else {
        return Err(Stop::Memory);
    };
    match Json::read(alloc, &mut reader, DEEPEST) {
        Ok(value) => {
            if reader.next().is_some() {
                return Err(Stop::Fault(LineFault::NotJson));
            }
            Ok(value)
        }
        Err(Error::OutOfMemory) => Err(Stop::Memory),
        Err(_) => Err(Stop::Fault(LineFault::NotJson)),
    }
}

/// Whether each number in it is in the range of numbers that are read.
#[cycle(numbers)]
pub(crate) fn has_numbers(value: &Json<'_>) -> bool
    ensures { result ≡ has_numbers (value_view value.now) }
{
    match value {
        Json::Number(text) => is_number(text),
        Json::Array(items) => items_have_numbers(items),
        Json::Object(members) => members_have_numbers(members),
        _ => true,
    }
}

#[cycle(numbers)]
fn items_have_numbers(items: &Vec<Json<'_>>) -> bool
    ensures { result ≡ items_have_numbers (items_view items.now.items) }
{
    for item in items {
        if !has_numbers(item) {
            return false;
        }
    }
    true
}

#[cycle(numbers)]
fn members_have_numbers<'a>(members: &Vec<(&'a str, Json<'a>)>) -> bool
    ensures { result ≡ members_have_numbers (members_view members.now.items) }
{
    for member in members {
        if !has_numbers(&member.1) {
            return false;
        }
    }
    true
}
