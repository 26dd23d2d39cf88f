//! Lines, as they are written.
ghost use Rattle.std.specs.Prelude.{◌≡◌, ◌++◌, ◌<◌, true, false, codes, decimal, length, slice_index, OnOk};
ghost use Rattle.std.specs.List.{list_all};
ghost use Rattle.json.specs.Print.{quoted};
ghost use Rattle.serde_json.specs.Data.{string, member, no_members};
ghost use Rattle.serde_json.specs.Written.{items_text, members_text};
ghost use Rattle.counted_devices.specs.Cuts.{with_end};
ghost use Rattle.row_members.specs.Scans.{is_plain};
ghost use Rattle.tag.specs.Names.{is_key};
ghost use Rattle.tag.specs.declared.actions.Returned.{Returned};
ghost use Rattle.file_format.specs.Ranges.{IsOp, HasAnswerIn, AreOps, IsInvocation, IsNote};
ghost use Rattle.file_format.specs.Ranges.{IsResponse, IsRowInRange, IsOrderInRange};
ghost use Rattle.file_format.specs.Texts.{header_data, file_header_data, hall_text, answered_member};
ghost use Rattle.file_format.specs.Texts.{line_member_text, calls_data, numbers_data, line_text};
ghost use Rattle.file_format.specs.Texts.{marked_text, row_text_with};
ghost use Rattle.file_format.specs.Texts.{piece_text};

use crate::file_header::FileHeader;
use crate::marks::Marks;
use itoa::Buffer;
use json::Writer;
use quorum::{Quorums, ReplicaSet};
use recorder::{ActionRef, Halls, ReturnedRef, Row, ValueRef};
use row_members::is_plain_byte;
use std::mem;
use tag::{ClientId, Memory, OpId, ReplicaId, Tag};

/// The most calls of a piece of an order.
pub const MOST_IN_PIECE: usize = 1_000;

/// Adds the bytes at the end.
fn append(out: &mut Vec<u8>, bytes: &[u8]) -> Result<(), Memory>
    ensures { OnOk result (out.new.items ≡ out.old.items ++ bytes.now) }
{
    out.extend_from_slice(bytes)?;
    Ok(())
}

/// Adds the bytes and then the number.
fn append_number(out: &mut Vec<u8>, before: &[u8], number: u32) -> Result<(), Memory>
    ensures text { OnOk result (out.new.items ≡ out.old.items ++ (before.now ++ decimal number)) }
    ensures range { OnOk result (IsOp (record { 0 = number })) }
{
    let mut digits = Buffer::new();
    out.extend_from_slice(before)?;
    out.extend_from_slice(digits.format(number).as_bytes())?;
    Ok(())
}

/// Whether the text stands in a JSON string without an escape.
fn is_plain(text: &str) -> bool
    ensures { result ≡ list_all is_plain text.now }
{
    text.as_bytes().iter().all(|byte| is_plain_byte(*byte))
}

/// Adds the text as a JSON string, with its escapes. Without memory all bytes are lost.
fn append_escaped(out: &mut Vec<u8>, text: &str) -> Result<(), Memory>
    ensures { OnOk result (out.new.items ≡ out.old.items ++ quoted text.now) }
{
    let alloc = *out.allocator();
    let mut writer = Writer::new(mem::replace(out, Vec::new(alloc)));
    writer.string(text)?;
    *out = writer.into_inner();
    Ok(())
}

/// Adds the bytes and then the text as a JSON string. Without memory all bytes are lost.
fn append_quoted(out: &mut Vec<u8>, before: &[u8], text: &str) -> Result<(), Memory>
    ensures { OnOk result (out.new.items ≡ out.old.items ++ (before.now ++ quoted text.now)) }
{
    out.extend_from_slice(before)?;
    // a writer of JSON readies room for a long text, which most texts don't need
    if !is_plain(text) {
        return append_escaped(out, text);
    }
    out.push(b'"')?;
    out.extend_from_slice(text.as_bytes())?;
    out.push(b'"')?;
    Ok(())
}

/// Adds the header of a file of that name.
pub(crate) fn append_header(out: &mut Vec<u8>, name: &str) -> Result<(), Memory>
    ensures { OnOk result (out.new.items ≡ out.old.items ++ line_text (header_data name.now)) }
{
    append_quoted(out, b"{\"abd\":", name)?;
    append(out, b",\"version\":1}\n")
}

/// How many votes the replica has.
fn vote_of(quorums: &Quorums, replica: ReplicaId) -> u8
    requires { replica < length quorums.now.votes }
    ensures { result ≡ slice_index quorums.now.votes replica }
{
    let mut alone = ReplicaSet::empty();
    alone.add(replica);
    quorums.votes(&alone)
}

/// Adds the votes of the replicas, a comma between two, and the bracket after them.
fn append_votes(out: &mut Vec<u8>, quorums: &Quorums) -> Result<(), Memory>
    ensures { OnOk result (out.new.items
        ≡ out.old.items ++ items_text false (numbers_data quorums.now.votes)) }
{
    for number in 0..quorums.replicas() {
        if let Some(replica) = ReplicaId::new(number) {
            let votes = u32::from(vote_of(quorums, replica));
            if number > 0 {
                append_number(out, b",", votes)?;
            } else {
                append_number(out, b"", votes)?;
            }
        }
    }
    append(out, b"]")
}

/// Adds the header of a history file of version 2.
fn append_quorums(out: &mut Vec<u8>, halls: Halls, quorums: &Quorums) -> Result<(), Memory>
    ensures { OnOk result (out.new.items
        ≡ out.old.items ++ line_text (file_header_data (FileHeader.Version2 halls quorums.now))) }
{
    append_number(
        out,
        b"{\"abd\":\"history\",\"ask\":",
        u32::from(quorums.ask()),
    )?;
    append_number(out, b",\"halls\":", u32::from(halls.count()))?;
    append_number(out, b",\"put\":", u32::from(quorums.put()))?;
    append(out, b",\"version\":2,\"votes\":[")?;
    append_votes(out, quorums)?;
    append(out, b"}\n")
}

/// Adds the header of a history file of either version.
#[tactic(auto, unfolding(crate::specs::Texts::file_header_data))]
pub(crate) fn append_file_header(out: &mut Vec<u8>, header: &FileHeader) -> Result<(), Memory>
    ensures { OnOk result (out.new.items
        ≡ out.old.items ++ line_text (file_header_data header.now)) }
{
    match header {
        FileHeader::Version1 => append_header(out, "history"),
        FileHeader::Version2 { halls, quorums } => append_quorums(out, *halls, quorums),
    }
}

/// Adds the bytes and then the row's hall, where that is a member.
fn append_hall(out: &mut Vec<u8>, before: &[u8], hall: Option<u8>) -> Result<(), Memory>
    ensures { OnOk result (out.new.items ≡ out.old.items ++ (before.now ++ hall_text hall)) }
{
    append(out, before)?;
    match hall {
        Some(hall) => append_number(out, b",\"hall\":", u32::from(hall)),
        None => Ok(()),
    }
}

/// Adds the number of the row's line, where that is a member.
fn append_line(out: &mut Vec<u8>, line: Option<u64>) -> Result<(), Memory>
    ensures { OnOk result (out.new.items ≡ out.old.items ++ line_member_text line) }
{
    let Some(line) = line else {
        return Ok(());
    };
    let mut digits = Buffer::new();
    out.extend_from_slice(b",\"line\":")?;
    out.extend_from_slice(digits.format(line).as_bytes())?;
    Ok(())
}

/// Adds the line of a row that begins a call, with the members that it is marked by.
pub(crate) fn append_invoke(
    out: &mut Vec<u8>,
    marks: Marks,
    op: OpId,
    client: ClientId,
    key: &str,
    action: &ActionRef<'_>,
) -> Result<(), Memory>
    requires { is_key key.now ≡ true }
    ensures text { OnOk result (out.new.items
        ≡ out.old.items ++ marked_text marks (Row.Invoke op client key.now action.now)) }
    ensures range { OnOk result (IsInvocation op client key.now action.now) }
{
    append_number(out, b"{\"call\":", op.0)?;
    append_number(out, b",\"client\":", client.get())?;
    match action.written() {
        None => {
            append_hall(out, b",\"do\":\"read\"", marks.hall)?;
            append_quoted(out, b",\"key\":", key)?;
            append_line(out, marks.line)?;
            append(out, b",\"row\":\"invoke\"}\n")
        }
        Some(value) => {
            append_hall(out, b",\"do\":\"write\"", marks.hall)?;
            append_quoted(out, b",\"key\":", key)?;
            append_line(out, marks.line)?;
            append_quoted(out, b",\"row\":\"invoke\",\"value\":", value.as_str())?;
            append(out, b"}\n")
        }
    }
}

/// Adds the line of a row that notes a call's tag, with the members that it is marked by.
pub(crate) fn append_note(out: &mut Vec<u8>, marks: Marks, op: OpId, tag: Tag) -> Result<(), Memory>
    ensures text { OnOk result (out.new.items
        ≡ out.old.items ++ marked_text marks (Row.Note op tag)) }
    ensures range { OnOk result (IsNote op tag) }
{
    append_number(out, b"{\"call\":", op.0)?;
    append_hall(out, b"", marks.hall)?;
    append_line(out, marks.line)?;
    append_number(out, b",\"number\":", tag.number())?;
    append_number(out, b",\"row\":\"note\",\"writer\":", tag.writer())?;
    append(out, b"}\n")
}

/// Adds what a read's response has after its call and the members that it is marked by.
fn append_answer(out: &mut Vec<u8>, answer: Option<ValueRef<'_>>) -> Result<(), Memory>
    ensures text { OnOk result (out.new.items
        ≡ out.old.items ++ with_end
        (members_text true (member (codes "row") (string (codes "respond"))
        (answered_member (Returned.Value answer.entry) no_members)))) }
    ensures range { OnOk result (HasAnswerIn (Returned.Value answer.entry)) }
{
    match answer {
        None => append(out, b",\"row\":\"respond\",\"value\":null}\n"),
        Some(value) => {
            append_quoted(out, b",\"row\":\"respond\",\"value\":", value.as_str())?;
            append(out, b"}\n")
        }
    }
}

/// Adds the line of a row that answers a call, with the members that it is marked by.
pub(crate) fn append_respond(
    out: &mut Vec<u8>,
    marks: Marks,
    op: OpId,
    returned: &ReturnedRef<'_>,
) -> Result<(), Memory>
    ensures text { OnOk result (out.new.items
        ≡ out.old.items ++ marked_text marks (Row.Respond op returned.now)) }
    ensures range { OnOk result (IsResponse op returned.now) }
{
    append_number(out, b"{\"call\":", op.0)?;
    append_hall(out, b"", marks.hall)?;
    append_line(out, marks.line)?;
    match returned.answered() {
        None => append(out, b",\"row\":\"respond\"}\n"),
        Some(answer) => append_answer(out, answer),
    }
}

/// Adds the row's line, with its hall where that is a member.
pub(crate) fn append_row(out: &mut Vec<u8>, hall: Option<u8>, row: &Row<'_>) -> Result<(), Memory>
    ensures text { OnOk result (out.new.items ≡ out.old.items ++ row_text_with hall row.now) }
    ensures range { OnOk result (IsRowInRange row.now) }
{
    let marks = Marks { hall, line: None };
    match row {
        Row::Invoke {
            op,
            client,
            key,
            action,
        } => append_invoke(out, marks, *op, *client, key.as_str(), action),
        Row::Note { op, tag } => append_note(out, marks, *op, *tag),
        Row::Respond { op, returned } => append_respond(out, marks, *op, returned),
    }
}

/// Adds the calls' numbers, a comma between two, and the bracket after them.
fn append_calls(out: &mut Vec<u8>, calls: &[OpId]) -> Result<(), Memory>
    ensures text { OnOk result (out.new.items
        ≡ out.old.items ++ items_text false (calls_data calls.now)) }
    ensures range { OnOk result (AreOps calls.now) }
{
    for (place, call) in calls.iter().enumerate() {
        if place > 0 {
            append_number(out, b",", call.0)?;
        } else {
            append_number(out, b"", call.0)?;
        }
    }
    append(out, b"]")
}

/// Adds the line of a piece of the key's order.
pub(crate) fn append_piece(out: &mut Vec<u8>, key: &str, calls: &[OpId]) -> Result<(), Memory>
    requires { is_key key.now ≡ true }
    ensures text { OnOk result (out.new.items
        ≡ out.old.items ++ piece_text (record { key = key.now; order = calls.now })) }
    ensures range { OnOk result (IsOrderInRange (record { key = key.now; order = calls.now })) }
{
    append_quoted(out, b"{\"key\":", key)?;
    append(out, b",\"order\":[")?;
    append_calls(out, calls)?;
    append(out, b"}\n")
}
