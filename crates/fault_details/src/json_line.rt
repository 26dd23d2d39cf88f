//! The JSON value that a line is, or why it is none.
ghost use Rattle.std.specs.Prelude.{◌≡◌, ◌≤◌, ◌++◌, length, take, IfOk, OnOk};
ghost use Rattle.fault_details.specs.Beginnings.{has_mark, is_blank, BeginsJson, HasText, IsReason};
ghost use Rattle.fault_details.specs.LineDetails.{broken_text, cut_text, invalid_text, Parses};

use crate::grouped::append_grouped;
use crate::json_beginning::json_beginning;
use sentences::append;
use serde_json::Value;
use serde_json::error::Category;
use std::alloc::Global;
use std::str;
use tag::Memory;

/// Why a line is no JSON text.
#[derive(Clone, Copy, Debug, PartialEq, Eq)]
pub(crate) enum Broken {
    /// It is empty, or all blanks.
    Blank,
    /// It begins with a byte order mark.
    Mark,
    /// It isn't UTF-8.
    NotUtf8,
    /// It ends within a value.
    EndsEarly,
    /// At that byte, counted from 1, stands what may not stand there.
    Invalid(u64),
}

/// What a line was read as.
#[derive(Drop)]
pub(crate) enum Parsed {
    /// A JSON value.
    Json(Value),
    /// No JSON text.
    Broken(Broken),
}

/// Whether the line has nothing but white space.
fn is_blank(line: &[u8]) -> bool
    ensures { result ≡ is_blank line.now }
{
    line.iter()
        .all(|byte| *byte == b' ' || *byte == b'\t' || *byte == b'\r')
}

/// Whether the line begins with a byte order mark.
fn has_mark(line: &[u8]) -> bool
    ensures { result ≡ has_mark line.now }
{
    line.starts_with(&[0xEF, 0xBB, 0xBF])
}

/// Why a line is no JSON text that is the beginning of one up to that place.
#[tactic(auto, using(crate::proofs::Stops::ends_early, crate::proofs::Stops::stops_at))]
fn stop_of(line: &[u8], place: usize) -> Broken
    requires text { HasText line.now }
    requires most { place ≤ length line.now }
    requires begins { BeginsJson (take place line.now) }
    ensures { IsReason line.now result }
{
    if place == line.len() {
        Broken::EndsEarly
    } else {
        Broken::Invalid(place as u64 + 1)
    }
}

/// Why a line that is UTF-8 but no JSON is none.
fn reason_of(alloc: Global, line: &[u8]) -> Result<Broken, Memory>
    ensures { IfOk result (IsReason line.now) }
{
    if is_blank(line) {
        return Ok(Broken::Blank);
    }
    if has_mark(line) {
        return Ok(Broken::Mark);
    }
    Ok(stop_of(line, json_beginning(alloc, line)?))
}

/// Reads the line as a JSON value.
pub(crate) fn parse(alloc: Global, line: &[u8]) -> Result<Parsed, Memory>
    ensures { IfOk result (Parses line.now) }
{
    let Ok(text) = str::from_utf8(line) else {
        return Ok(Parsed::Broken(Broken::NotUtf8));
    };
    match Value::from_str(alloc, text) {
        Ok(value) => Ok(Parsed::Json(value)),
        Err(error) if error.classify() == Category::Memory => Err(Memory),
        Err(_) => Ok(Parsed::Broken(reason_of(alloc, line)?)),
    }
}

/// Says at which byte the line stops being JSON.
#[tactic(auto, unfolding(crate::specs::LineDetails::invalid_text))]
fn append_invalid(text: &mut Vec<u8>, place: u64) -> Result<(), Memory>
    ensures { OnOk result (text.new.items ≡ text.old.items ++ invalid_text place) }
{
    append(text, "  the line stops being JSON at byte ")?;
    append_grouped(text, place)?;
    append(text, "\n")
}

/// Says why the line is no JSON text.
#[tactic(auto, unfolding(crate::specs::LineDetails::broken_text))]
pub(crate) fn append_broken(text: &mut Vec<u8>, why: Broken) -> Result<(), Memory>
    ensures { OnOk result (text.new.items ≡ text.old.items ++ broken_text why) }
{
    match why {
        Broken::Blank => append(text, "  the line is blank\n"),
        Broken::Mark => append(
            text,
            "  the line begins with a byte order mark, which no JSON text has\n",
        ),
        Broken::NotUtf8 => append(text, "  the line is not UTF-8\n"),
        Broken::EndsEarly => append(text, "  the JSON text of the line ends too soon\n"),
        Broken::Invalid(place) => append_invalid(text, place),
    }
}

/// Says of a line without an end what to do.
pub(crate) fn append_cut(text: &mut Vec<u8>, has_end: bool) -> Result<(), Memory>
    ensures { OnOk result (text.new.items ≡ text.old.items ++ cut_text has_end) }
{
    if has_end {
        return Ok(());
    }
    append(
        text,
        "  the line has no end: the log was cut there, so drop that line\n",
    )
}
