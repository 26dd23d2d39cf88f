//! Rows of histories, by what they say of their calls.
ghost use Rattle.test_rows.specs.Recorded.{SaysOf};

use crate::Answer;
use recorder::{ActionRef, KeyRef, ReturnedRef, Row};
use tag::{ClientId, Tag};

/// What a row says of its call: who begins it, on which key, and what it does; or its tag; or its answer.
#[derive(Clone, Copy)]
pub enum RowSaid<'a, 'h> {
    Invoked(ClientId, &'a KeyRef<'h>, &'a ActionRef<'h>),
    Noted(Tag),
    Answered(&'a ReturnedRef<'h>),
}

/// The number of the row's call, and what it says of it.
pub fn said_by<'a, 'h>(row: &'a Row<'h>) -> (u32, RowSaid<'a, 'h>)
    ensures { SaysOf row.now result.0 result.1 }
{
    match row {
        Row::Note { op, tag } => (op.0, RowSaid::Noted(*tag)),
        Row::Respond { op, returned } => (op.0, RowSaid::Answered(returned)),
        Row::Invoke {
            op,
            client,
            key,
            action,
        } => (op.0, RowSaid::Invoked(*client, key, action)),
    }
}

/// A tag as `(NUMBER, WRITER)`.
pub fn say_tag(out: &mut Answer, tag: Tag) {
    let (number, writer) = (tag.number(), tag.writer());
    write!(out, "({number}, {writer})");
}

/// `read`, or `write TEXT`.
pub fn say_action(out: &mut Answer, action: &ActionRef<'_>) {
    match action.written() {
        None => out.push("read"),
        Some(value) => {
            let text = value.as_str();
            write!(out, "write {text}");
        }
    }
}
