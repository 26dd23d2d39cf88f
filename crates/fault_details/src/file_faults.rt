//! Why a history file, or an order file, has its first fault.
ghost use Rattle.std.specs.Prelude.{◌≡◌, ◌++◌, [], Some, IfOk, IfSome, IfNone, OnOk, option_map};
ghost use Rattle.serde_json.specs.View.{view};
ghost use Rattle.counted_devices.specs.declared.read_fault.FaultKind.TheVariants.{Line};
ghost use Rattle.counted_devices.specs.DeviceStates.{states};
ghost use Rattle.fault_details.specs.declared.demands.LineKind.TheVariants as kind;
ghost use Rattle.fault_details.specs.FileFaults.{AddsAfter, AddsAtHall, AddsByItself, AddsHistory};
ghost use Rattle.fault_details.specs.FileFaults.{AddsHistoryIn, AddsHistoryLine, AddsInHalls, AddsKeyHall};
ghost use Rattle.fault_details.specs.FileFaults.{AddsOrders, AddsRow, is_of_keys};
ghost use Rattle.fault_details.specs.FileFaults.{Explains, IsFaulty, OfParsed, SaysOfLine, Tells};
ghost use Rattle.fault_details.specs.FileFaults.{hall_in, hall_line, halls_told, key_text, needs_earlier_rows};
ghost use Rattle.fault_details.specs.FileFaults.{number_or_zero, said};

use crate::demand::{number_of, text_of};
use crate::demands::LineKind;
use crate::earlier_rows::EarlierRows;
use crate::found_line::{FoundLine, find_line};
use crate::json_line::{Parsed, parse};
use crate::line_details::{FaultyLine, append_line_details};
use crate::row_details::append_row_details;
use counted_devices::{CountedRead, Counting};
use file_format::{FaultKind, FileFault, FileHeader, LineFault, Stop, judge_file_header};
use history_file::{NumberedHistories, read_numbered_histories};
use recorder::Halls;
use sentences::{append, append_number};
use serde_json::Value;
use std::alloc::Global;
use std::io::Read;
use std::thread::Threads;
use tag::{Memory, is_key};

/// Whether the fault of a line depends on the rows of its hall before it.
fn needs_earlier_rows(fault: LineFault) -> bool
    ensures { result ≡ needs_earlier_rows fault }
{
    match fault {
        LineFault::CallOutOfTurn
        | LineFault::ClientBusy
        | LineFault::CallNotPending
        | LineFault::WrongKind
        | LineFault::NoteTwice => true,
        _ => false,
    }
}

/// How many halls the header tells; none where it is of version 1.
fn halls_told(header: &FileHeader) -> Option<u8>
    ensures { result ≡ halls_told header.now }
{
    match header.quorums() {
        Some(_) => Some(header.halls()),
        None => None,
    }
}

/// The same of a line, which may be no header.
fn told_halls(alloc: Global, header: &[u8]) -> Result<Option<u8>, Memory>
    ensures { IfOk result (Tells header.now) }
{
    match judge_file_header(alloc, header) {
        Ok(told) => Ok(halls_told(&told)),
        Err(Stop::Fault(_)) => Ok(None),
        Err(Stop::Memory) => Err(Memory),
    }
}

/// Adds the key's hall, of so many.
#[tactic(auto, unfolding(crate::specs::FileFaults::hall_line))]
fn append_hall_line(text: &mut Vec<u8>, key: &str, hall: u64, count: u64) -> Result<(), Memory>
    ensures { OnOk result (text.new.items ≡ text.old.items ++ hall_line key.now hall count) }
{
    append(text, "  key ")?;
    append(text, key)?;
    append_number(text, " is of hall ", hall)?;
    append_number(text, " (of ", count)?;
    append(text, ")\n")
}

/// Says which of so many halls is the key's.
fn append_hall_of(text: &mut Vec<u8>, count: u8, key: &str) -> Result<(), Memory>
    ensures { OnOk result (text.new.items ≡ text.old.items ++ key_text count (Some key.now)) }
{
    if !is_key(key.as_bytes()) {
        return Ok(());
    }
    match Halls::new(count) {
        Some(halls) => append_hall_line(text, key, u64::from(halls.of_text(key)), u64::from(count)),
        None => Ok(()),
    }
}

/// Says which of so many halls is that of the key of the line.
fn append_hall_of_line(text: &mut Vec<u8>, line: &FoundLine, halls: u8) -> Result<(), Memory>
    ensures { OnOk result (OfParsed line.now (AddsKeyHall halls) text.old.items text.new.items) }
{
    match parse(*text.allocator(), line.bytes.as_slice())? {
        Parsed::Json(value) => match text_of(&value, "key") {
            Some(key) => append_hall_of(text, halls, key),
            None => Ok(()),
        },
        Parsed::Broken(_) => Ok(()),
    }
}

/// The line, which is of the first kind if it is the file's first, else of the other.
fn faulty_line(line: &FoundLine, first: LineKind, other: LineKind) -> FaultyLine<'_>
    ensures { IsFaulty line.now first other result }
{
    FaultyLine {
        kind: if line.number == 1 { first } else { other },
        bytes: line.bytes.as_slice(),
        has_end: line.has_end,
    }
}

/// Says why the line has a fault by itself.
fn append_by_itself(
    text: &mut Vec<u8>,
    line: &FoundLine,
    first: LineKind,
    other: LineKind,
    fault: LineFault,
) -> Result<(), Memory>
    ensures { OnOk result (AddsByItself first other line.now fault text.old.items text.new.items) }
{
    let faulty = faulty_line(line, first, other);
    append_line_details(*text.allocator(), text, &faulty, fault)
}

/// Whether the key of the row is one of another hall.
fn is_of_keys(fault: LineFault) -> bool
    ensures { result ≡ is_of_keys fault }
{
    match fault {
        LineFault::KeyInAnotherHall => true,
        _ => false,
    }
}

/// Says why the line of a history file of so many halls has a fault that needs no earlier row.
fn append_in_halls(
    text: &mut Vec<u8>,
    line: &FoundLine,
    count: u8,
    fault: LineFault,
) -> Result<(), Memory>
    ensures { OnOk result
        (AddsInHalls (is_of_keys fault) count line.now fault text.old.items text.new.items) }
{
    if is_of_keys(fault) {
        return append_hall_of_line(text, line, count);
    }
    let other = LineKind::Row { halls: Some(count) };
    append_by_itself(text, line, LineKind::HistoryHeader, other, fault)
}

/// The same of either version.
fn append_history_line(
    text: &mut Vec<u8>,
    line: &FoundLine,
    halls: Option<u8>,
    fault: LineFault,
) -> Result<(), Memory>
    ensures { OnOk result (AddsHistoryLine halls line.now fault text.old.items text.new.items) }
{
    match halls {
        Some(count) => append_in_halls(text, line, count, fault),
        None => {
            let other = LineKind::Row { halls: None };
            append_by_itself(text, line, LineKind::HistoryHeader, other, fault)
        }
    }
}

/// The hall of the row: its number in a file of several, else 0.
fn hall_in(halls: Option<u8>, value: &Value) -> Option<u8>
    ensures { result ≡ hall_in halls (view value.now) }
{
    match halls {
        None => Some(0),
        Some(_) => Some(number_of(value, "hall")?.min(255) as u8),
    }
}

/// The number that is the member of that name; 0 if there is none.
fn number_or_zero(value: &Value, name: &str) -> u64
    ensures { result ≡ number_or_zero name.now (view value.now) }
{
    number_of(value, name).unwrap_or(0)
}

/// Says why the row may not stand after the earlier rows of that hall.
fn append_at_hall(
    text: &mut Vec<u8>,
    halls: Option<u8>,
    numbered: &NumberedHistories,
    hall: u8,
    fault: LineFault,
    value: &Value,
) -> Result<(), Memory>
    ensures { OnOk result (AddsAtHall halls numbered.now (Some hall) fault (view value.now)
        text.old.items text.new.items) }
{
    let place = usize::from(hall);
    let (Some(history), Some(lines)) = (
        numbered.histories.halls().get(place),
        numbered.lines.get(place),
    ) else {
        return Ok(());
    };
    let earlier = EarlierRows {
        hall: if halls.is_some() { Some(hall) } else { None },
        history,
        lines,
    };
    let call = number_or_zero(value, "call");
    let client = number_or_zero(value, "client");
    append_row_details(text, &earlier, fault, call, client)
}

/// Says why the row may not stand after the earlier rows of its hall.
fn append_row(
    text: &mut Vec<u8>,
    halls: Option<u8>,
    numbered: &NumberedHistories,
    fault: LineFault,
    value: &Value,
) -> Result<(), Memory>
    ensures { OnOk result (AddsRow halls numbered.now fault (view value.now) text.old.items text.new.items) }
{
    match hall_in(halls, value) {
        Some(hall) => append_at_hall(text, halls, numbered, hall, fault, value),
        None => Ok(()),
    }
}

/// Reads the earlier rows again, and says why the row may not stand after them.
fn append_after<S: Read + Drop>(
    rt: &(impl Threads + Sync),
    text: &mut Vec<u8>,
    begins: u64,
    halls: Option<u8>,
    fault: LineFault,
    read: &Parsed,
    again: S,
) -> Result<(), Memory>
    ensures { OnOk result (AddsAfter (S.remaining again) begins halls fault read.now
        text.old.items text.new.items) }
{
    let Parsed::Json(value) = read else {
        return Ok(());
    };
    let mut earlier = Counting::new(again.take(begins));
    match read_numbered_histories(rt, *text.allocator(), &mut earlier) {
        Ok(numbered) => append_row(text, halls, &numbered, fault, value),
        Err(fault) if fault.kind == FaultKind::Memory => Err(Memory),
        Err(_) => Ok(()),
    }
}

/// Says why the line of a file of so many halls has the fault, by the earlier rows where it depends on them.
fn append_history_in<S: Read + Drop>(
    rt: &(impl Threads + Sync),
    text: &mut Vec<u8>,
    line: &FoundLine,
    halls: Option<u8>,
    fault: LineFault,
    again: S,
) -> Result<(), Memory>
    ensures { OnOk result (AddsHistoryIn (S.remaining again) (needs_earlier_rows fault) halls line.now
        fault text.old.items text.new.items) }
{
    if !needs_earlier_rows(fault) {
        return append_history_line(text, line, halls, fault);
    }
    let read = parse(*text.allocator(), line.bytes.as_slice())?;
    append_after(rt, text, line.begins, halls, fault, &read, again)
}

/// The same of a file whose first line tells the halls.
fn append_history<S: Read + Drop>(
    rt: &(impl Threads + Sync),
    text: &mut Vec<u8>,
    line: &FoundLine,
    fault: LineFault,
    again: S,
) -> Result<(), Memory>
    ensures { OnOk result (AddsHistory (S.remaining again) line.now fault text.old.items text.new.items) }
{
    let halls = told_halls(*text.allocator(), line.first.as_slice())?;
    append_history_in(rt, text, line, halls, fault, again)
}

/// The text, or where it has nothing, that the file isn't what it was.
pub(crate) fn said(mut text: Vec<u8>) -> Result<Vec<u8>, Memory>
    ensures { IfOk result (λ whole. whole.items ≡ said text.items) }
{
    if text.is_empty() {
        append(&mut text, "  the file can't be read again as it was\n")?;
    }
    Ok(text)
}

/// Why the line of a history file has that fault, in lines of their own, each after two blanks. Where the line
/// isn't there, or has the fault no more, it says so.
///
/// Where the fault depends on earlier rows `again` gives them: it begins where the file begins. Besides the rows
/// that are needed it keeps two lines.
pub fn explain_history_line<S: Read + Drop>(
    rt: &(impl Threads + Sync),
    alloc: Global,
    line: Option<FoundLine>,
    fault: LineFault,
    again: S,
) -> Result<Vec<u8>, Memory>
    ensures { IfOk result (λ text. SaysOfLine (AddsHistory (S.remaining again)) line fault text.items) }
{
    let mut text = Vec::new(alloc);
    let Some(line) = line else {
        return said(text);
    };
    append_history(rt, &mut text, &line, fault, again)?;
    said(text)
}

/// Why a history file has its first fault, as `explain_history_line` says it of the line of the fault; of a fault
/// of the device, and of out of memory, nothing.
///
/// The file is read again, up to the line of the fault: by `reader`, which gives that line, and where the fault
/// depends on earlier rows by `again`, which gives those. Both begin where the file begins.
pub fn explain_history_fault<R: CountedRead, S: Read + Drop>(
    rt: &(impl Threads + Sync),
    alloc: Global,
    reader: &mut R,
    again: S,
    fault: FileFault,
) -> Result<Vec<u8>, Memory>
    ensures { IfOk result (λ text. Explains (AddsHistory (S.remaining again))
        (states R.remaining R.failures reader.old reader.new) fault.line fault.kind text.items) }
{
    let FaultKind::Line(kind) = fault.kind else {
        return Ok(Vec::new(alloc));
    };
    let line = find_line(alloc, reader, fault.line)?;
    explain_history_line(rt, alloc, line, kind, again)
}

/// Why the line of an order file has that fault, in lines of their own, each after two blanks. Where the line
/// isn't there, or has the fault no more, it says so.
pub fn explain_orders_line(
    alloc: Global,
    line: Option<FoundLine>,
    fault: LineFault,
) -> Result<Vec<u8>, Memory>
    ensures { IfOk result (λ text. SaysOfLine AddsOrders line fault text.items) }
{
    let mut text = Vec::new(alloc);
    if let Some(line) = line {
        append_by_itself(
            &mut text,
            &line,
            LineKind::OrderHeader,
            LineKind::Piece,
            fault,
        )?;
    }
    said(text)
}

/// Why an order file has its first fault, as `explain_orders_line` says it of the line of the fault; of a fault
/// of the device, and of out of memory, nothing. The reader gives the file again, from its beginning.
pub fn explain_orders_fault<R: CountedRead>(
    alloc: Global,
    reader: &mut R,
    fault: FileFault,
) -> Result<Vec<u8>, Memory>
    ensures { IfOk result (λ text. Explains AddsOrders
        (states R.remaining R.failures reader.old reader.new) fault.line fault.kind text.items) }
{
    let FaultKind::Line(kind) = fault.kind else {
        return Ok(Vec::new(alloc));
    };
    let line = find_line(alloc, reader, fault.line)?;
    explain_orders_line(alloc, line, kind)
}
