//! The table of the calls of a picture.
ghost use Rattle.std.specs.Prelude.{◌≡◌, ◌++◌, OnOk};
ghost use Rattle.markup.specs.Markup.{each, rendered};
ghost use Rattle.pictures.specs.Tables.{call_cells, heading, headings, line_cells, row_markup};
ghost use Rattle.pictures.specs.Tables.{rows_table, table_box, table_markup};

use crate::boxes::{append_named, open_box};
use crate::cells::{
    Content, append_cell, append_heading, append_line, append_row_heading, append_words,
};
use crate::picture::Picture;
use crate::style::{
    ANSWER_HEADING, ANSWERED_HEADING, BEGINS_HEADING, CALL_HEADING, CALLS, CLIENT_HEADING,
    DOES_HEADING, NOTE_HEADING, NOTED_HEADING, ROWS, TABLE_OF, TABLE_TITLE,
};
use crate::words::say_note;
use explanations::HallRows;
use labels::{Shape, append_each};
use markup::{Element, append_closing, append_opening, append_plain, open_of_class};
use recorder::Call;
use scenes::Bar;
use std::alloc::Global;
use tag::Memory;

/// The rows of a picture's table, each if its call and the call's key are known.
#[derive(Clone, Copy)]
struct Rows<'a> {
    alloc: Global,
    picture: &'a Picture<'a>,
}

/// Adds the headings of the columns, which have these words.
fn append_columns(page: &mut Vec<u8>, columns: &[&str]) -> Result<(), Memory>
    ensures { OnOk result (page.new.items ≡ page.old.items
        ++ rendered (each (λ words. heading words.now) columns.now)) }
{
    for words in columns {
        append_heading(page, words)?;
    }
    Ok(())
}

/// Adds the row of headings: of what a call does, and of where it stands in the history.
fn append_headings(page: &mut Vec<u8>) -> Result<(), Memory>
    ensures { OnOk result (page.new.items ≡ page.old.items ++ rendered headings) }
{
    let columns = [
        CALL_HEADING,
        CLIENT_HEADING,
        DOES_HEADING,
        ANSWER_HEADING,
        NOTE_HEADING,
        BEGINS_HEADING,
        NOTED_HEADING,
        ANSWERED_HEADING,
    ];
    append_opening(page, Element::Tr, &[])?;
    append_columns(page, &columns)?;
    append_closing(page, Element::Tr)
}

/// Adds the heading that says whether the call is at fault, and the cells of what it does, with that
/// name of its key.
fn append_call_cells(
    alloc: Global,
    page: &mut Vec<u8>,
    faulty: bool,
    name: &str,
    call: &Call<'_>,
) -> Result<(), Memory>
    ensures { OnOk result
        (page.new.items ≡ page.old.items ++ rendered (call_cells faulty name.now call.now)) }
{
    append_row_heading(alloc, page, call.op, faulty)?;
    append_cell(alloc, page, &Content::Number(u64::from(call.client.get())))?;
    append_cell(alloc, page, &Content::Does(name, &call.action))?;
    append_cell(alloc, page, &Content::Answers(&call.response))
}

/// Adds the cells with the call's note, and the lines of its bar's places.
fn append_line_cells(
    alloc: Global,
    page: &mut Vec<u8>,
    hall: &HallRows<'_>,
    bar: &Bar,
    call: &Call<'_>,
) -> Result<(), Memory>
    ensures { OnOk result
        (page.new.items ≡ page.old.items ++ rendered (line_cells hall.now bar.now call.now)) }
{
    let mut note = Vec::new(alloc);
    say_note(&mut note, call.note)?;
    append_words(page, &note)?;
    append_line(alloc, page, hall, Some(bar.begins))?;
    append_line(alloc, page, hall, bar.note)?;
    append_line(alloc, page, hall, bar.answered)
}

impl Shape for Rows<'_> {
    type Item = Bar;

    ghost can_append = { λ rows. Unit {0} };

    ghost shape = { λ rows. row_markup rows.picture.now };

    fn append(&self, page: &mut Vec<u8>, item: &Bar) -> Result<(), Memory> {
        let Some(call) = self.picture.call_of(item.call) else {
            return Ok(());
        };
        let Some(key) = self.picture.key_of(&call) else {
            return Ok(());
        };
        open_of_class(page, Element::Tr, self.picture.class_of(&call))?;
        let faulty = self.picture.is_faulty(call.op);
        let name = self.picture.keys.said_key(key);
        append_call_cells(self.alloc, page, faulty, name, &call)?;
        append_line_cells(self.alloc, page, &self.picture.hall, item, &call)?;
        append_closing(page, Element::Tr)
    }
}

/// Adds the table's caption, its headings and its body.
fn append_table(alloc: Global, page: &mut Vec<u8>, picture: &Picture<'_>) -> Result<(), Memory>
    ensures { OnOk result (page.new.items ≡ page.old.items ++ rendered (rows_table picture.now)) }
{
    let scene = picture.scene;
    append_opening(page, Element::Table, &[])?;
    append_named(page, Element::Caption, picture.keys)?;
    append_headings(page)?;
    append_each(page, &Rows { alloc, picture }, &scene.bars)?;
    append_closing(page, Element::Table)
}

/// Adds the table in a box that scrolls, which has a name and can have the focus.
fn append_box(alloc: Global, page: &mut Vec<u8>, picture: &Picture<'_>) -> Result<(), Memory>
    ensures { OnOk result (page.new.items ≡ page.old.items ++ rendered (table_box picture.now)) }
{
    open_box(alloc, page, ROWS, TABLE_OF, picture.keys)?;
    append_table(alloc, page, picture)?;
    append_closing(page, Element::Div)
}

/// Adds the table of the picture's calls, a row for each bar, folded.
pub fn append_call_table(
    alloc: Global,
    page: &mut Vec<u8>,
    picture: &Picture<'_>,
) -> Result<(), Memory>
    ensures { OnOk result
        (page.new.items ≡ page.old.items ++ rendered (table_markup picture.now)) }
{
    open_of_class(page, Element::Details, CALLS)?;
    append_plain(page, Element::Summary, TABLE_TITLE)?;
    append_box(alloc, page, picture)?;
    append_closing(page, Element::Details)
}
