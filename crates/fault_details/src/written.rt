//! How a value stands in a line, and what is said of numbers that aren't natural.
ghost use Rattle.std.specs.Prelude.{◌≡◌, ◌++◌, true, false, None, Some, IfOk, OnOk};
ghost use Rattle.serde_json.specs.View.{items_view, view};
ghost use Rattle.fault_details.specs.Written.{are_numbers, asks_numbers, has_fraction, is_fraction_there};
ghost use Rattle.fault_details.specs.Written.{is_unnatural, note_text, unnatural_text, value_note};
ghost use Rattle.fault_details.specs.Written.{IsFractionIn, IsWritten};

use crate::demand::Allowed;
use crate::json_line::{Parsed, parse};
use crate::member_text::member_text;
use sentences::append;
use serde_json::Value;
use std::alloc::Global;
use tag::Memory;

/// Whether one of the items is a number without a place among the natural and negative ones of 64 bits.
fn is_fraction_there(items: &[Value]) -> bool
    ensures { result ≡ is_fraction_there (items_view items.now) }
{
    for item in items {
        if item.is_f64() {
            return true;
        }
    }
    false
}

/// Whether the value is such a number, or an array that has one.
fn has_fraction(value: &Value) -> bool
    ensures { result ≡ has_fraction (view value.now) }
{
    match value.as_array() {
        Some(items) => is_fraction_there(items.as_slice()),
        None => value.is_f64(),
    }
}

/// The value of the member of that name as it stands in the line, where that is JSON of a number of that sort.
fn fraction_text(alloc: Global, line: &[u8], name: &str) -> Result<Vec<u8>, Memory>
    ensures { IfOk result (λ text. IsFractionIn line.now text.items) }
{
    let mut text = Vec::new(alloc);
    if let Some(part) = member_text(alloc, line, name)?
        && let Parsed::Json(value) = parse(alloc, part)?
        && has_fraction(&value)
    {
        text.extend_from_slice(part)?;
        return Ok(text);
    }
    append(&mut text, "no natural number")?;
    Ok(text)
}

/// The value of the member of that name: a number with a fraction or an exponent, and an array with one, as it
/// stands in the line; others as a JSON text.
pub(crate) fn written(
    alloc: Global,
    line: &[u8],
    name: &str,
    value: &Value,
) -> Result<Vec<u8>, Memory>
    ensures { IfOk result (λ text. IsWritten line.now (view value.now) text.items) }
{
    if has_fraction(value) {
        return fraction_text(alloc, line, name);
    }
    Ok(value.to_string(alloc)?.into_bytes())
}

/// Whether the text has a sign, a fraction or an exponent.
fn is_unnatural(text: &[u8]) -> bool
    ensures { result ≡ is_unnatural text.now }
{
    text.iter().any(|byte| *byte == b'-' || *byte == b'.' || *byte == b'E' || *byte == b'e')
}

/// Whether all items are numbers.
fn are_numbers(items: &[Value]) -> bool
    ensures { result ≡ are_numbers (items_view items.now) }
{
    for item in items {
        if !item.is_number() {
            return false;
        }
    }
    true
}

/// Whether a number, or numbers, are allowed.
fn asks_numbers(allowed: Allowed) -> bool
    ensures { result ≡ asks_numbers allowed }
{
    match allowed {
        Allowed::Number { .. }
        | Allowed::OfVotes
        | Allowed::BesideAsk { .. }
        | Allowed::Votes
        | Allowed::Calls => true,
        _ => false,
    }
}

/// What is said of items that aren't all natural numbers, if they are numbers.
fn items_note(items: &[Value]) -> &'static str
    ensures { result.now ≡ unnatural_text (Some (items_view items.now)) false }
{
    if are_numbers(items) {
        ", which are not all natural numbers"
    } else {
        ""
    }
}

/// What is said of a value that is no natural number, if it is a number.
fn number_note(is_number: bool) -> &'static str
    ensures { result.now ≡ unnatural_text None is_number }
{
    if is_number {
        ", which is no natural number"
    } else {
        ""
    }
}

/// What is said of the value, written so: that it is no natural number, or that it has numbers of which one is none.
fn note_of(value: &Value, written: &[u8]) -> &'static str
    ensures { result.now ≡ value_note (view value.now) written.now }
{
    if !is_unnatural(written) {
        return "";
    }
    match value.as_array() {
        Some(items) => items_note(items.as_slice()),
        None => number_note(value.is_number()),
    }
}

/// Adds it.
pub(crate) fn append_note(
    text: &mut Vec<u8>,
    allowed: Allowed,
    value: &Value,
    written: &[u8],
) -> Result<(), Memory>
    ensures { OnOk result
        (text.new.items ≡ text.old.items ++ note_text allowed (view value.now) written.now) }
{
    if !asks_numbers(allowed) {
        return Ok(());
    }
    append(text, note_of(value, written))
}
