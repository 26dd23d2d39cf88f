//! Lines as this crate writes them, read without JSON.
//!
//! A row's line is taken in one pass, and each piece of it is compared with what is written there:
//! a line that is written otherwise isn't taken, and is read member by member. The number of a line, which
//! a row may be marked by, is compared so too, and is nothing that is kept. The line of a
//! piece of an order is guessed from its bytes, and taken only where the line that is written for
//! the guess is the very same; so nothing rests on the guess but the time that it takes.
ghost use Rattle.std.specs.Prelude.{◌≡◌, ◌++◌, codes, decimal, IfOk, IfSome, IsTrue};
ghost use Rattle.counted_devices.specs.Cuts.{with_end};
ghost use Rattle.file_format.specs.CanonicalLines.{IsHallRowLine, IsPieceLine, IsRowLine};
ghost use Rattle.file_format.specs.Ranges.{HasLineIn, IsOp};
ghost use Rattle.file_format.specs.RowTexts.{after_call, after_client, after_marks, noted_text};
ghost use Rattle.file_format.specs.SaidRows.{IsSaidBy};

use crate::beginnings::{behind, first_marks, first_members, first_number, is_all, last_value};
use crate::file_header::FileHeader;
use crate::hall_row::HallRow;
use crate::line_row::{LineRow, RowKind};
use crate::line_texts::{LinePart, LinePlace, LineText};
use crate::marks::Marks;
use crate::order_piece::OrderPiece;
use crate::texts::{MOST_IN_PIECE, append_piece};
use recorder::Order;
use row_members::plain_run;
use std::alloc::Global;
use std::str;
use tag::{ClientId, Memory, OpId, Tag, is_key};

/// What is before the key in the line of a piece.
const BEFORE_KEY: &[u8] = b"{\"key\":\"";

/// A row as its line says it, and what the line has as its member `hall`.
#[derive(Clone, Copy, Debug)]
struct SaidRow<'a> {
    hall: Option<u8>,
    kind: RowKind,
    key: LinePart<'a>,
    value: LinePart<'a>,
}

/// A call's number has 32 bits, as its type keeps it.
#[inline(always)]
fn call_in_range(op: OpId)
    ensures { IsOp op }
{}

/// The read whose line has these bytes after its action.
#[inline(always)]
fn asked_read(op: OpId, client: ClientId, bytes: &[u8]) -> Option<SaidRow<'_>>
    ensures { IfSome result
        (IsSaidBy (after_client op client (codes ",\"do\":\"read\"" ++ bytes.now))) }
{
    call_in_range(op);
    let _name = client.get();
    let (marks, key, rest) = first_members(bytes)?;
    if !is_all(rest, b",\"row\":\"invoke\"}") {
        return None;
    }
    Some(SaidRow {
        hall: marks.hall,
        kind: RowKind::Read { op, client },
        key,
        value: LinePart::none(),
    })
}

/// The write whose line has these bytes after its action.
#[inline(always)]
fn asked_write(op: OpId, client: ClientId, bytes: &[u8]) -> Option<SaidRow<'_>>
    ensures { IfSome result
        (IsSaidBy (after_client op client (codes ",\"do\":\"write\"" ++ bytes.now))) }
{
    call_in_range(op);
    let _name = client.get();
    let (marks, key, rest) = first_members(bytes)?;
    let rest = behind(rest, b",\"row\":\"invoke\",\"value\":")?;
    let value = last_value(rest)?;
    Some(SaidRow {
        hall: marks.hall,
        kind: RowKind::Write { op, client },
        key,
        value,
    })
}

/// The invocation whose line has these bytes after `"client":`.
#[inline(always)]
fn invocation(op: OpId, bytes: &[u8]) -> Option<SaidRow<'_>>
    ensures { IfSome result (IsSaidBy (after_call op (codes ",\"client\":" ++ bytes.now))) }
{
    let (name, rest) = first_number(bytes)?;
    let Ok(client) = ClientId::new(name) else {
        return None;
    };
    if let Some(rest) = behind(rest, b",\"do\":\"write\"") {
        return asked_write(op, client, rest);
    }
    if let Some(rest) = behind(rest, b",\"do\":\"read\"") {
        return asked_read(op, client, rest);
    }
    None
}

/// The tag of a note whose line has these bytes after `"number":`.
#[inline(always)]
fn note_tag(bytes: &[u8]) -> Option<Tag>
    ensures { IfSome result (λ tag. bytes.now ≡ noted_text tag) }
{
    let (count, rest) = first_number(bytes)?;
    let rest = behind(rest, b",\"row\":\"note\",\"writer\":")?;
    let (writer, rest) = first_number(rest)?;
    if !is_all(rest, b"}") {
        return None;
    }
    let tag = Tag::new(count, writer)?;
    Some(tag)
}

/// The note whose line has these bytes after `"number":`.
#[inline(always)]
fn note(op: OpId, marks: Marks, bytes: &[u8]) -> Option<SaidRow<'_>>
    requires { HasLineIn marks.line }
    ensures { IfSome result
        (IsSaidBy (after_call op (after_marks marks (codes ",\"number\":" ++ bytes.now)))) }
{
    let tag = note_tag(bytes)?;
    let none = LinePart::none();
    Some(SaidRow {
        hall: marks.hall,
        kind: RowKind::Note { op, tag },
        key: none,
        value: none,
    })
}

/// The response whose line has these bytes after its kind.
#[inline(always)]
fn response(op: OpId, marks: Marks, bytes: &[u8]) -> Option<SaidRow<'_>>
    requires { HasLineIn marks.line }
    ensures { IfSome result (IsSaidBy
        (after_call op (after_marks marks (codes ",\"row\":\"respond\"" ++ bytes.now)))) }
{
    call_in_range(op);
    let none = LinePart::none();
    if is_all(bytes, b"}") {
        let kind = RowKind::Done { op };
        return Some(SaidRow {
            hall: marks.hall,
            kind,
            key: none,
            value: none,
        });
    }
    if is_all(bytes, b",\"value\":null}") {
        let kind = RowKind::Absent { op };
        return Some(SaidRow {
            hall: marks.hall,
            kind,
            key: none,
            value: none,
        });
    }
    let rest = behind(bytes, b",\"value\":")?;
    let value = last_value(rest)?;
    let kind = RowKind::Answer { op };
    Some(SaidRow {
        hall: marks.hall,
        kind,
        key: none,
        value,
    })
}

/// The note or the response whose line has these bytes after its call.
#[inline(always)]
fn later(op: OpId, bytes: &[u8]) -> Option<SaidRow<'_>>
    ensures { IfSome result (IsSaidBy (after_call op bytes.now)) }
{
    let (marks, rest) = first_marks(bytes)?;
    if let Some(rest) = behind(rest, b",\"number\":") {
        return note(op, marks, rest);
    }
    let rest = behind(rest, b",\"row\":\"respond\"")?;
    response(op, marks, rest)
}

/// The row that the line is written for, and what the line has as its member `hall`.
#[inline(always)]
fn said_row(line: &[u8]) -> Option<SaidRow<'_>>
    ensures { IfSome result (IsSaidBy line.now) }
{
    let rest = behind(line, b"{\"call\":")?;
    let (call, rest) = first_number(rest)?;
    match behind(rest, b",\"client\":") {
        Some(rest) => invocation(OpId(call), rest),
        None => later(OpId(call), rest),
    }
}

/// Whether the numbers are the same, or both are missing.
#[inline(always)]
fn is_same(one: Option<u8>, other: Option<u8>) -> bool
    ensures { IsTrue result → one ≡ other }
{
    match (one, other) {
        (None, None) => true,
        (Some(one), Some(other)) => one == other,
        _ => false,
    }
}

/// The row that the line, without its end, is written for, which stands at that place. `None` says
/// nothing; `Memory` comes only where an allocation was refused.
#[inline(always)]
pub(crate) fn written_row(place: &LinePlace, line: &[u8]) -> Result<Option<LineRow>, Memory>
    ensures { IfOk result (λ found. IfSome found (IsRowLine line.now)) }
{
    let Some(said) = said_row(line) else {
        return Ok(None);
    };
    if !is_same(said.hall, None) {
        return Ok(None);
    }
    LineRow::found(place, line.len(), said.kind, said.key, said.value)
}

/// The same of a row with its hall, after that header.
#[inline(always)]
pub(crate) fn written_hall_row(
    header: &FileHeader,
    place: &LinePlace,
    line: &[u8],
) -> Result<Option<HallRow>, Memory>
    ensures { IfOk result (λ found. IfSome found (IsHallRowLine header.now line.now)) }
{
    let Some(said) = said_row(line) else {
        return Ok(None);
    };
    let hall = said.hall.unwrap_or(0);
    if hall >= header.halls() {
        return Ok(None);
    }
    if !is_same(header.place(hall), said.hall) {
        return Ok(None);
    }
    match LineRow::found(place, line.len(), said.kind, said.key, said.value)? {
        Some(row) => Ok(Some(HallRow { hall, row })),
        None => Ok(None),
    }
}

/// The decimal number that the bytes begin with, which wraps, and what is after it.
fn guessed_number(bytes: &[u8]) -> (u32, &[u8]) {
    let mut number = 0;
    let mut count = 0;
    while count < bytes.len() && bytes[count].is_ascii_digit() {
        let digit = u32::from(u8::wrapping_sub(bytes[count], b'0'));
        number = u32::wrapping_add(u32::wrapping_mul(number, 10), digit);
        count += 1;
    }
    (number, &bytes[count..])
}

/// Whether the text is the line with its end. It is spent.
fn is_line(text: &mut Vec<u8>, line: &[u8]) -> bool
    ensures { IsTrue result → text.old.items ≡ with_end line.now }
{
    text.pop() == Some(b'\n') && text.as_slice() == line
}

/// The numbers of at most 1,000 calls that the bytes begin with, a comma between two. It ends where
/// no number stands, so a line that is written otherwise costs no more than its own bytes.
fn guessed_calls(alloc: Global, bytes: &[u8]) -> Result<Vec<OpId>, Memory> {
    let mut calls = Vec::new(alloc);
    let mut rest = bytes;
    for _ in 0..MOST_IN_PIECE {
        if rest.is_empty() || !rest[0].is_ascii_digit() {
            return Ok(calls);
        }
        let (call, after) = guessed_number(rest);
        calls.push(OpId(call))?;
        rest = after.strip_prefix(b",".as_slice()).unwrap_or(after);
    }
    Ok(calls)
}

/// The piece of an order that the line may be.
fn guessed_piece(
    alloc: Global,
    place: &LinePlace,
    line: &[u8],
) -> Result<Option<OrderPiece>, Memory> {
    let Some(inside) = line.strip_prefix(BEFORE_KEY) else {
        return Ok(None);
    };
    let end = plain_run(inside).length;
    let Some(rest) = inside[end..].strip_prefix(b"\",\"order\":[".as_slice()) else {
        return Ok(None);
    };
    let Ok(text) = str::from_utf8(&inside[..end]) else {
        return Ok(None);
    };
    if !is_key(text.as_bytes()) {
        return Ok(None);
    }
    let order = Order::from_vec(guessed_calls(alloc, rest)?);
    let start = BEFORE_KEY.len();
    let piece = OrderPiece::new(place, LineText { text, start }, order)?;
    Ok(Some(piece))
}

/// The piece of an order that the line, without its end, is written for, which stands at that place,
/// where `text` is lent room for a line. `None` says nothing; `Memory` comes only where an allocation was
/// refused.
pub(crate) fn written_piece(
    alloc: Global,
    place: &LinePlace,
    text: &mut Vec<u8>,
    line: &[u8],
) -> Result<Option<OrderPiece>, Memory>
    ensures { IfOk result (λ found. IfSome found (IsPieceLine line.now)) }
{
    let Some(piece) = guessed_piece(alloc, place, line)? else {
        return Ok(None);
    };
    let calls = piece.calls();
    if calls.len() > MOST_IN_PIECE {
        return Ok(None);
    }
    text.clear();
    append_piece(text, piece.key(), calls)?;
    if is_line(text, line) {
        Ok(Some(piece))
    } else {
        Ok(None)
    }
}
