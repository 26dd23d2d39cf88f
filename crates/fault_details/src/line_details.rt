//! Why a line by itself has its fault.
ghost use Rattle.std.specs.Prelude.{◌≡◌, ◌++◌, option_map, Some, IfOk, OnOk};
ghost use Rattle.serde_json.specs.View.{view};
ghost use Rattle.fault_details.specs.LineDetails.{demand_line, header_line, AddsMember};
ghost use Rattle.fault_details.specs.LineDetails.{AddsBroken, AddsLine, AddsWrongMember, is_text};
ghost use Rattle.fault_details.specs.LineDetails.{is_gone, limit_text, AddsNoJson, Stands};

use crate::demand::{Demand, Name, Test, append_allowed, first_failing};
use crate::demands::{LineKind, needed};
use crate::json_line::{Parsed, append_broken, append_cut, parse};
use crate::shown::append_shown;
use crate::written::{append_note, written};
use file_format::LineFault;
use sentences::append;
use serde_json::Value;
use std::alloc::Global;
use tag::Memory;

/// A line with a fault.
#[derive(Clone, Copy, Debug)]
pub struct FaultyLine<'a> {
    /// Which line of which file it is.
    pub kind: LineKind,
    /// Its bytes, without its end.
    pub bytes: &'a [u8],
    /// Whether it has its end.
    pub has_end: bool,
}

/// What stands in the line as that value, which was demanded, and that it is no natural number where it should be.
fn value_standing(
    alloc: Global,
    line: &[u8],
    demand: Demand,
    value: &Value,
) -> Result<Vec<u8>, Memory>
    ensures { IfOk result (λ text. Stands line.now demand.allowed (Some (view value.now)) text.items) }
{
    let mut text = Vec::new(alloc);
    let written = written(alloc, line, demand.name.text(), value)?;
    append_shown(&mut text, written.as_slice())?;
    append_note(&mut text, demand.allowed, value, written.as_slice())?;
    Ok(text)
}

/// What stands in the line as the member that was demanded.
fn standing(
    alloc: Global,
    line: &[u8],
    demand: Demand,
    member: Option<&Value>,
) -> Result<Vec<u8>, Memory>
    ensures { IfOk result (λ text. Stands line.now demand.allowed
        (option_map (λ value. view value.now) member.entry) text.items) }
{
    match member {
        Some(value) => value_standing(alloc, line, demand, value),
        None => {
            let mut text = Vec::new(alloc);
            append(&mut text, "missing")?;
            Ok(text)
        }
    }
}

/// Adds that the member of that name is that.
#[tactic(auto, unfolding(crate::specs::LineDetails::is_text))]
fn append_is(text: &mut Vec<u8>, name: Name, stands: &[u8]) -> Result<(), Memory>
    ensures { OnOk result (text.new.items ≡ text.old.items ++ is_text name stands.now) }
{
    append(text, "  \"")?;
    append(text, name.text())?;
    append(text, "\" is ")?;
    text.extend_from_slice(stands)?;
    Ok(())
}

/// Adds that the member is that, and what it should be.
fn append_demand_line(text: &mut Vec<u8>, demand: Demand, stands: &[u8]) -> Result<(), Memory>
    ensures { OnOk result (text.new.items ≡ text.old.items ++ demand_line demand stands.now) }
{
    append_is(text, demand.name, stands)?;
    append(text, ": it should be ")?;
    append_allowed(text, demand.allowed)?;
    append(text, "\n")
}

/// Adds a line on the first member, in the order of the format, that doesn't pass the test.
fn append_member(
    alloc: Global,
    text: &mut Vec<u8>,
    line: &FaultyLine<'_>,
    test: Test,
    value: &Value,
) -> Result<(), Memory>
    ensures { OnOk result
        (AddsMember line.now.kind test line.now.bytes.now (view value.now) text.old.items text.new.items) }
{
    if !value.is_object() {
        return append(text, "  the line is no object\n");
    }
    let demands = needed(alloc, line.kind, value)?;
    match first_failing(alloc, test, value, demands.as_slice())? {
        Some(demand) => {
            let member = value.get(demand.name.text());
            let stands = standing(alloc, line.bytes, demand, member)?;
            append_demand_line(text, demand, stands.as_slice())
        }
        None => Ok(()),
    }
}

/// Adds the header with which the file of such a line begins.
#[tactic(auto, unfolding(crate::specs::LineDetails::header_line))]
fn append_header(text: &mut Vec<u8>, kind: LineKind) -> Result<(), Memory>
    ensures { OnOk result (text.new.items ≡ text.old.items ++ header_line kind) }
{
    match kind {
        LineKind::OrderHeader => append(
            text,
            "  an order file begins with {\"abd\":\"orders\",\"version\":1}\n",
        ),
        _ => append(
            text,
            "  a history file begins with {\"abd\":\"history\",\"version\":1}, or with a header of version 2\n",
        ),
    }
}

/// Says which member of the line is wrong, if the line is JSON.
fn append_wrong(
    alloc: Global,
    text: &mut Vec<u8>,
    line: &FaultyLine<'_>,
    test: Test,
) -> Result<(), Memory>
    ensures { OnOk result (AddsWrongMember line.now.kind test line.now.bytes.now text.old.items text.new.items) }
{
    match parse(alloc, line.bytes)? {
        Parsed::Json(value) => append_member(alloc, text, line, test, &value),
        Parsed::Broken(_) => Ok(()),
    }
}

/// Whether nothing is there: no byte, and no end.
fn is_gone(bytes: &[u8], has_end: bool) -> bool
    ensures { result ≡ is_gone bytes.now has_end }
{
    bytes.is_empty() && !has_end
}

/// Says why the line is no JSON text.
fn append_reason(alloc: Global, text: &mut Vec<u8>, line: &FaultyLine<'_>) -> Result<(), Memory>
    ensures { OnOk result (AddsBroken line.now.bytes.now line.now.has_end text.old.items text.new.items) }
{
    if let Parsed::Broken(why) = parse(alloc, line.bytes)? {
        append_broken(text, why)?;
        append_cut(text, line.has_end)?;
    }
    Ok(())
}

/// The same of a line that is there.
fn append_no_json(alloc: Global, text: &mut Vec<u8>, line: &FaultyLine<'_>) -> Result<(), Memory>
    ensures { OnOk result (AddsNoJson (is_gone line.now.bytes.now line.now.has_end)
        line.now.bytes.now line.now.has_end text.old.items text.new.items) }
{
    if is_gone(line.bytes, line.has_end) {
        return Ok(());
    }
    append_reason(alloc, text, line)
}

/// Says how many calls the file of such a line may have.
fn append_limit(text: &mut Vec<u8>, kind: LineKind) -> Result<(), Memory>
    ensures { OnOk result (text.new.items ≡ text.old.items ++ limit_text kind) }
{
    match kind {
        LineKind::HistoryHeader | LineKind::Row { .. } => {
            append(text, "  a history file has at most 1,000,000 calls\n")
        }
        LineKind::OrderHeader | LineKind::Piece => append(
            text,
            "  all orders of a file together have at most 1,000,000 calls\n",
        ),
    }
}

/// Says why the line has the fault, of a fault that a line has by itself, or of a call too many; of
/// others nothing.
///
/// Of a member that is missing, of the wrong kind or outside its range it says the name, what stands
/// there and what is allowed; the first such in the order in which the format lists members. Of a
/// line that is no JSON it says where. The place in the line is only tested.
pub fn append_line_details(
    alloc: Global,
    text: &mut Vec<u8>,
    line: &FaultyLine<'_>,
    fault: LineFault,
) -> Result<(), Memory>
    ensures { OnOk result (AddsLine line.now fault text.old.items text.new.items) }
{
    match fault {
        LineFault::TooLong => append(text, "  a line has at most 65,536 bytes\n"),
        LineFault::NotJson => append_no_json(alloc, text, line),
        LineFault::Member => append_wrong(alloc, text, line, Test::Kind),
        LineFault::Range => append_wrong(alloc, text, line, Test::Range),
        LineFault::NoHeader | LineFault::Version => {
            append_wrong(alloc, text, line, Test::Range)?;
            append_header(text, line.kind)
        }
        LineFault::TooManyCalls => append_limit(text, line.kind),
        _ => Ok(()),
    }
}
