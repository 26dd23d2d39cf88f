//! The rows of a history, as it keeps them.
ghost use Rattle.std.specs.Prelude.{ℕ, ◌≡◌, ◌≤◌, ◌<◌, ◌*◌, List, [], ◌∷◌, ◌++◌, Some, true, length, OnOk, OnErr};
ghost use Rattle.std.specs.Prelude.{IfOk, get_or};
ghost use Rattle.std.specs.List.{slice_get};
ghost use Rattle.std.specs.Option.{ForSome};
ghost use Rattle.tag.specs.Limits.{value_limit};
ghost use Rattle.tag.specs.Names.{is_key, is_value};
ghost use Rattle.recorder.specs.Records.{AreFirstSeen};
ghost use Rattle.recorder.specs.Shown.{answer_of, written_of};
ghost use Rattle.recorder.specs.Tables.{row_limit, Extends};
ghost use Rattle.recorder.specs.Texts.{IsValueAt, KeepsValue, text_at, value_in};
ghost use Rattle.recorder.specs.KeptRows.{KeepsAnswer, span_of};

use crate::refs::{ActionRef, KeyRef, ReturnedRef, ValueRef};
use crate::row::Row;
use key_index::KeyNumbers;
use std::alloc::Global;
use std::marker::Model;
use std::str;
use tag::{ClientId, Memory, OpId, Tag};

/// Where the text of a value stands among all texts.
#[derive(Clone, Copy, Debug)]
pub(crate) struct Span {
    start: u32,
    length: u16,
}

/// A row as it is kept: its key by number, its text among all texts.
#[derive(Clone, Copy, Debug)]
enum KeptRow {
    Read {
        op: OpId,
        client: ClientId,
        key: u32,
    },
    Write {
        op: OpId,
        client: ClientId,
        key: u32,
        value: Span,
    },
    Note {
        op: OpId,
        tag: Tag,
    },
    Done {
        op: OpId,
    },
    Absent {
        op: OpId,
    },
    Answer {
        op: OpId,
        value: Span,
    },
}

/// Rows, in the order in which they came. The texts of values stand in one block, each key's once.
#[derive(Debug, Drop)]
pub(crate) struct RowTable {
    rows: Vec<KeptRow>,
    texts: Vec<u8>,
    keys: KeyNumbers,
}

impl Model for RowTable {
    ghost use Rattle.recorder.specs.Tables.{Table};

    ghost Value = { Table };

    ghost use Rattle.recorder.specs.KeptRows.{table_within, IsKeptTable};

    ghost view = { table_within };

    ghost invariant = { IsKeptTable };
}

impl RowTable {
    /// No row.
    pub(crate) fn new(alloc: Global) -> RowTable
        ensures { result ≡ record { rows = []; keys = []; texts = [] } }
    {
        RowTable {
            rows: Vec::new(alloc),
            texts: Vec::new(alloc),
            keys: KeyNumbers::new(alloc),
        }
    }

    /// How many rows there are.
    pub(crate) fn len(&self) -> usize
        ensures count { result ≡ length self.now.rows }
        ensures few { result ≤ row_limit }
    {
        self.rows.len()
    }

    /// The keys of the rows' calls, by number.
    pub(crate) fn keys(&self) -> &KeyNumbers
        ensures keys { result.now ≡ self.now.keys }
        ensures seen { AreFirstSeen self.now.rows self.now.keys }
    {
        &self.keys
    }

    /// The key of that number.
    pub(crate) fn key(&self, number: usize) -> KeyRef<'_>
        requires { number < length self.now.keys }
        ensures { result ≡ get_or self.now.keys number [] }
    {
        KeyRef::of(&self.keys.keys()[number])
    }

    /// The row at that place.
    pub(crate) fn row(&self, place: usize) -> Row<'_>
        requires { place < length self.now.rows }
        ensures { slice_get self.now.rows place ≡ Some result }
    {
        match self.rows[place] {
            KeptRow::Read { op, client, key } => Row::Invoke {
                op,
                client,
                key: self.key(key as usize),
                action: ActionRef::read(),
            },
            KeptRow::Write {
                op,
                client,
                key,
                value,
            } => Row::Invoke {
                op,
                client,
                key: self.key(key as usize),
                action: ActionRef::write(value_at(&self.texts, value)),
            },
            KeptRow::Note { op, tag } => Row::Note { op, tag },
            KeptRow::Done { op } => Row::Respond {
                op,
                returned: ReturnedRef::done(),
            },
            KeptRow::Absent { op } => Row::Respond {
                op,
                returned: ReturnedRef::value(None),
            },
            KeptRow::Answer { op, value } => Row::Respond {
                op,
                returned: ReturnedRef::value(Some(value_at(&self.texts, value))),
            },
        }
    }

    /// The value whose text stands there, if there is one.
    pub(crate) fn value(&self, span: Option<Span>) -> Option<ValueRef<'_>>
        requires { ForSome span (IsValueAt self.now.texts) }
        ensures { result ≡ value_in self.now.texts span }
    {
        match span {
            Some(span) => Some(value_at(&self.texts, span)),
            None => None,
        }
    }

    /// A table with equal rows, keys and texts.
    pub(crate) fn copy(&self) -> Result<RowTable, Memory>
        ensures { IfOk result (λ copy. copy ≡ self.now) }
    {
        let alloc = *self.rows.allocator();
        Ok(RowTable {
            rows: Vec::from_slice(alloc, &self.rows)?,
            texts: Vec::from_slice(alloc, &self.texts)?,
            keys: copied_keys(alloc, &self.keys)?,
        })
    }

    /// Adds that a client begins a call. Answers the key's number, and where the text of a value
    /// stands that the call writes. On `Memory` nothing changed.
    pub(crate) fn push_invoke(
        &mut self,
        op: OpId,
        client: ClientId,
        key: &str,
        action: &ActionRef<'_>,
    ) -> Result<(u32, Option<Span>), Memory>
        requires few { length self.old.rows < row_limit }
        requires lawful { is_key key.now ≡ true }
        ensures ok { OnOk result (self.new.rows
            ≡ self.old.rows ++ Row.Invoke op client key.now action.now ∷ []) }
        ensures grows { OnOk result (Extends self.old self.new) }
        ensures key { IfOk result (λ kept. slice_get self.new.keys kept.0 ≡ Some key.now) }
        ensures value { IfOk result
            (λ kept. KeepsValue self.new.texts kept.1 (written_of action.now)) }
        ensures err { OnErr result (self.new ≡ self.old) }
    {
        self.rows.reserve(1)?;
        let Some(value) = action.written() else {
            let key = self.keys.number_text(key)? as u32;
            self.rows.push(KeptRow::Read { op, client, key })?;
            return Ok((key, None));
        };
        let kept = self.texts.len();
        let value = keep_text(&mut self.texts, value.as_str())?;
        let Ok(key) = self.keys.number_text(key) else {
            self.texts.truncate(kept);
            return Err(Memory);
        };
        let key = key as u32;
        self.rows.push(KeptRow::Write {
            op,
            client,
            key,
            value,
        })?;
        Ok((key, Some(value)))
    }

    /// Adds that a call's tag is fixed. On `Memory` nothing changed.
    pub(crate) fn push_note(&mut self, op: OpId, tag: Tag) -> Result<(), Memory>
        requires { length self.old.rows < row_limit }
        ensures ok { OnOk result (self.new.rows ≡ self.old.rows ++ Row.Note op tag ∷ []) }
        ensures grows { OnOk result (Extends self.old self.new) }
        ensures err { OnErr result (self.new ≡ self.old) }
    {
        self.rows.push(KeptRow::Note { op, tag })?;
        Ok(())
    }

    /// Adds that a call is answered. Answers where the text of a value stands that it answers. On
    /// `Memory` nothing changed.
    pub(crate) fn push_respond(
        &mut self,
        op: OpId,
        returned: &ReturnedRef<'_>,
    ) -> Result<Option<Span>, Memory>
        requires { length self.old.rows < row_limit }
        ensures ok { OnOk result (self.new.rows
            ≡ self.old.rows ++ Row.Respond op returned.now ∷ []) }
        ensures grows { OnOk result (Extends self.old self.new) }
        ensures value { IfOk result
            (λ value. KeepsValue self.new.texts value (answer_of returned.now)) }
        ensures err { OnErr result (self.new ≡ self.old) }
    {
        self.rows.reserve(1)?;
        let row = keep_answer(&mut self.texts, op, returned)?;
        self.rows.push(row)?;
        Ok(span_of(&row))
    }
}

/// Where the text of the row's value stands, if it has one.
fn span_of(row: &KeptRow) -> Option<Span>
    ensures { result ≡ span_of row.now }
{
    match row {
        KeptRow::Write { value, .. } => Some(*value),
        KeptRow::Answer { value, .. } => Some(*value),
        _ => None,
    }
}

/// The same keys, with the same numbers.
fn copied_keys(alloc: Global, keys: &KeyNumbers) -> Result<KeyNumbers, Memory>
    ensures { IfOk result (λ copy. copy ≡ keys.now) }
{
    let mut copy = KeyNumbers::new(alloc);
    for key in keys.keys() {
        copy.number(key)?;
    }
    Ok(copy)
}

/// Keeps what a call answers, its text after all others. On `Memory` nothing changed.
fn keep_answer(texts: &mut Vec<u8>, op: OpId, returned: &ReturnedRef<'_>) -> Result<KeptRow, Memory>
    requires { length texts.old.items ≤ value_limit * row_limit }
    ensures ok { IfOk result (KeepsAnswer texts.old.items texts.new.items op returned.now) }
    ensures err { OnErr result (texts.new.items ≡ texts.old.items) }
{
    match returned.answered() {
        None => Ok(KeptRow::Done { op }),
        Some(None) => Ok(KeptRow::Absent { op }),
        Some(Some(value)) => {
            let value = keep_text(texts, value.as_str())?;
            Ok(KeptRow::Answer { op, value })
        }
    }
}

/// The value whose text stands there.
fn value_at(texts: &[u8], span: Span) -> ValueRef<'_>
    requires { IsValueAt texts.now span }
    ensures { result ≡ text_at texts.now span }
{
    let start = span.start as usize;
    let text = &texts[start..start + span.length as usize];
    ValueRef::of_text(unsafe { str::from_utf8_unchecked(text) })
}

/// Keeps the text after all others. On `Memory` nothing changed.
fn keep_text(texts: &mut Vec<u8>, text: &str) -> Result<Span, Memory>
    requires few { length texts.old.items ≤ value_limit * row_limit }
    requires short { is_value text.now ≡ true }
    ensures span { IfOk result (λ span. (span.start ≡ length texts.old.items)
        × (span.length ≡ length text.now)) }
    ensures texts { OnOk result (texts.new.items ≡ texts.old.items ++ text.now) }
    ensures err { OnErr result (texts.new.items ≡ texts.old.items) }
{
    let start = texts.len() as u32;
    texts.extend_from_slice(text.as_bytes())?;
    Ok(Span {
        start,
        length: text.len() as u16,
    })
}
