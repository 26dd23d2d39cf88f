//! Rows as lines say them.
ghost use Rattle.std.specs.Prelude.{◌≡◌, true, IfOk, IfSome, IsUtf8};
ghost use Rattle.tag.specs.Names.{is_key, is_value};
ghost use Rattle.recorder.specs.declared.row.Row.{Row};
ghost use Rattle.file_format.specs.LineRows.{AreLawful, HaveValue, action_said, returned_said, row_with};

use crate::line_texts::{LinePart, LinePlace, LineText, LineTexts};
use std::marker::Model;
use tag::{ClientId, Memory, OpId, Tag};

/// What a row's line says beside its texts.
#[derive(Clone, Copy, Debug)]
pub(crate) enum RowKind {
    /// A client begins to read a key.
    Read { op: OpId, client: ClientId },
    /// A client begins to write a value to a key.
    Write { op: OpId, client: ClientId },
    /// A call's tag is fixed.
    Note { op: OpId, tag: Tag },
    /// A write is done.
    Done { op: OpId },
    /// A read finds no value.
    Absent { op: OpId },
    /// A read finds a value.
    Answer { op: OpId },
}

/// A row as its line says it. Its key and its value are parts of the bytes that the line is of; what is kept
/// of it is a row whose texts are copied once.
#[derive(Debug, Drop)]
pub struct LineRow {
    pub(crate) kind: RowKind,
    pub(crate) texts: LineTexts,
}

impl Model for LineRow {
    ghost use Rattle.recorder.specs.declared.row.Row.{Row};

    ghost Value = { Row };

    ghost use Rattle.file_format.specs.LineRows.{row_there, IsRowThere};

    ghost view = { row_there };

    ghost invariant = { IsRowThere };
}

impl LineRow {
    /// The row of that kind, whose line stands there.
    fn new(
        place: &LinePlace,
        kind: RowKind,
        key: LineText<'_>,
        value: LineText<'_>,
    ) -> Result<LineRow, Memory>
        requires { AreLawful kind key.text.now value.text.now }
        ensures { IfOk result (λ row. row ≡ row_with kind key.entry.text.now value.entry.text.now) }
    {
        let texts = LineTexts::new(place, key, value)?;
        Ok(LineRow { kind, texts })
    }

    /// The row of that kind, whose line of so many bytes stands there and has those parts. `None` says nothing.
    #[inline(always)]
    pub(crate) fn found(
        place: &LinePlace,
        length: usize,
        kind: RowKind,
        key: LinePart<'_>,
        value: LinePart<'_>,
    ) -> Result<Option<LineRow>, Memory>
        requires lawful { AreLawful kind key.text.now value.text.now }
        requires key { IsUtf8 key.text.now }
        requires value { IsUtf8 value.text.now }
        ensures { IfOk result (λ found. IfSome found
            (λ row. row ≡ row_with kind key.entry.text.now value.entry.text.now)) }
    {
        match place.parts(length, key, value)? {
            Some(texts) => Ok(Some(LineRow { kind, texts })),
            None => Ok(None),
        }
    }

    /// A client begins a call on the key: a write of that value, or a read.
    pub(crate) fn invoke(
        place: &LinePlace,
        op: OpId,
        client: ClientId,
        key: LineText<'_>,
        written: Option<LineText<'_>>,
    ) -> Result<LineRow, Memory>
        requires key { is_key key.text.now ≡ true }
        requires value { IfSome written (λ value. is_value value.text.now ≡ true) }
        ensures { IfOk result (λ row. row
            ≡ Row.Invoke op client key.entry.text.now (action_said written.entry)) }
    {
        match written {
            None => {
                let kind = RowKind::Read { op, client };
                LineRow::new(place, kind, key, LineText::none())
            }
            Some(value) => LineRow::new(place, RowKind::Write { op, client }, key, value),
        }
    }

    /// A call's tag is fixed.
    pub(crate) fn note(place: &LinePlace, op: OpId, tag: Tag) -> Result<LineRow, Memory>
        ensures { IfOk result (λ row. row ≡ Row.Note op tag) }
    {
        let none = LineText::none();
        LineRow::new(place, RowKind::Note { op, tag }, none, none)
    }

    /// A call is answered.
    pub(crate) fn respond(
        place: &LinePlace,
        op: OpId,
        answered: Option<Option<LineText<'_>>>,
    ) -> Result<LineRow, Memory>
        requires { HaveValue answered }
        ensures { IfOk result (λ row. row ≡ Row.Respond op (returned_said answered.entry)) }
    {
        let none = LineText::none();
        match answered {
            None => LineRow::new(place, RowKind::Done { op }, none, none),
            Some(None) => LineRow::new(place, RowKind::Absent { op }, none, none),
            Some(Some(value)) => LineRow::new(place, RowKind::Answer { op }, none, value),
        }
    }
}
