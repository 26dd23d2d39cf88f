//! Cells of tables.
ghost use Rattle.std.specs.Prelude.{◌≡◌, ◌++◌, [], OnOk};
ghost use Rattle.markup.specs.Markup.{rendered};
ghost use Rattle.pictures.specs.Tables.{cell, content_words, heading, row_heading, scoped};
ghost use Rattle.pictures.specs.Words.{line_words, numbered_words};

use crate::style::{COLUMN, ROW_SCOPE};
use crate::words::{say_action, say_line, say_name, say_number, say_response};
use explanations::HallRows;
use labels::text_of;
use markup::{
    Attribute, AttributeName, Element, append_closing, append_opening, append_plain, append_text,
};
use recorder::{ActionRef, Response};
use sentences::append_number;
use std::alloc::Global;
use tag::{Memory, OpId};

/// What a cell says of a call.
#[derive(Clone, Copy)]
pub(crate) enum Content<'a> {
    Number(u64),
    /// What a call of that action does, on the key of that name.
    Does(&'a str, &'a ActionRef<'a>),
    /// What that response answers.
    Answers(&'a Option<Response<'a>>),
}

/// Adds a heading of that scope.
fn append_scoped(page: &mut Vec<u8>, scope: &str, words: &str) -> Result<(), Memory>
    ensures { OnOk result
        (page.new.items ≡ page.old.items ++ rendered (scoped scope.now words.now)) }
{
    let scope = Attribute::Words(AttributeName::Scope, scope);
    append_opening(page, Element::Th, &[scope])?;
    append_text(page, words)?;
    append_closing(page, Element::Th)
}

/// Adds the heading of a column.
pub(crate) fn append_heading(page: &mut Vec<u8>, words: &str) -> Result<(), Memory>
    ensures { OnOk result (page.new.items ≡ page.old.items ++ rendered (heading words.now)) }
{
    append_scoped(page, COLUMN, words)
}

/// Adds the heading of a call's row: its number, and whether it is at fault.
pub(crate) fn append_row_heading(
    alloc: Global,
    page: &mut Vec<u8>,
    op: OpId,
    faulty: bool,
) -> Result<(), Memory>
    ensures { OnOk result (page.new.items
        ≡ page.old.items ++ rendered (row_heading (numbered_words faulty [] op))) }
{
    let mut words = Vec::new(alloc);
    say_number(&mut words, "", op, faulty)?;
    append_scoped(page, ROW_SCOPE, text_of(&words))
}

/// Adds a cell with the words.
pub(crate) fn append_words(page: &mut Vec<u8>, words: &[u8]) -> Result<(), Memory>
    ensures { OnOk result (page.new.items ≡ page.old.items ++ rendered (cell words.now)) }
{
    append_plain(page, Element::Td, text_of(words))
}

/// Adds the words of the content.
fn say_content(words: &mut Vec<u8>, content: &Content<'_>) -> Result<(), Memory>
    ensures { OnOk result (words.new.items ≡ words.old.items ++ content_words content.now) }
{
    match *content {
        Content::Number(number) => append_number(words, "", number),
        Content::Does(name, action) => {
            say_name(words, name)?;
            say_action(words, action, false)
        }
        Content::Answers(response) => say_response(words, response),
    }
}

/// Adds a cell with that content.
pub(crate) fn append_cell(
    alloc: Global,
    page: &mut Vec<u8>,
    content: &Content<'_>,
) -> Result<(), Memory>
    ensures { OnOk result
        (page.new.items ≡ page.old.items ++ rendered (cell (content_words content.now))) }
{
    let mut words = Vec::new(alloc);
    say_content(&mut words, content)?;
    append_words(page, &words)
}

/// Adds a cell with the line of that place.
pub(crate) fn append_line(
    alloc: Global,
    page: &mut Vec<u8>,
    hall: &HallRows<'_>,
    place: Option<usize>,
) -> Result<(), Memory>
    ensures { OnOk result
        (page.new.items ≡ page.old.items ++ rendered (cell (line_words hall.now place))) }
{
    let mut words = Vec::new(alloc);
    say_line(&mut words, hall, place)?;
    append_words(page, &words)
}
