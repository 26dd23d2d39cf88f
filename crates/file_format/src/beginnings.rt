//! What the bytes of a line begin with, as this crate writes it, and what is after it.
ghost use Rattle.std.specs.Char.{is_ascii};
ghost use Rattle.std.specs.List.{list_all};
ghost use Rattle.std.specs.Prelude.{◌≡◌, ◌++◌, codes, decimal, true, IfSome, IsTrue, IsUtf8};
ghost use Rattle.json.specs.Print.{quoted};
ghost use Rattle.tag.specs.Names.{is_key};
ghost use Rattle.file_format.specs.Ranges.{HasLineIn, IsValue};
ghost use Rattle.file_format.specs.RowTexts.{after_key, after_marks};
ghost use Rattle.file_format.specs.Texts.{hall_text, line_member_text};

use crate::line_texts::LinePart;
use crate::marks::Marks;
use row_members::plain_run;
use std::str;
use tag::is_key;

/// The most bytes of a value.
const LONGEST_VALUE: usize = 256;

/// Whether the array has these bytes.
#[inline(always)]
fn has_bytes<const N: usize>(array: &[u8; N], bytes: &[u8; N]) -> bool
    ensures { IsTrue result → array.now ≡ bytes.now }
{
    *array == *bytes
}

/// What is after that beginning of the bytes.
#[inline(always)]
pub(crate) fn behind<'a, const N: usize>(bytes: &'a [u8], beginning: &[u8; N]) -> Option<&'a [u8]>
    ensures { IfSome result (λ rest. bytes.now ≡ beginning.now ++ rest.now) }
{
    let (first, rest) = bytes.split_first_chunk::<N>()?;
    if !has_bytes(first, beginning) {
        return None;
    }
    Some(rest)
}

/// Whether the bytes are that text.
#[inline(always)]
pub(crate) fn is_all<const N: usize>(bytes: &[u8], text: &[u8; N]) -> bool
    ensures { IsTrue result → bytes.now ≡ text.now }
{
    match bytes.as_array::<N>() {
        Some(array) => has_bytes(array, text),
        None => false,
    }
}

/// The number of at most 32 bits that the bytes begin with, as it is written, and what is after
/// it.
#[inline(always)]
pub(crate) fn first_number(bytes: &[u8]) -> Option<(u32, &[u8])>
    ensures { IfSome result (λ found. bytes.now ≡ decimal found.0 ++ found.1.now) }
{
    let (number, count) = row_members::first_number(bytes)?;
    if number > u64::from(u32::MAX) {
        return None;
    }
    Some((number as u32, &bytes[count..]))
}

/// The text in quotation marks that the bytes begin with, where it has no escape, whether it is ASCII,
/// and what is after it.
#[inline(always)]
fn first_text(bytes: &[u8]) -> Option<(LinePart<'_>, bool, &[u8])>
    ensures text { IfSome result (λ found. bytes.now ≡ quoted found.0.text.now ++ found.2.now) }
    ensures ascii { IfSome result (λ found. found.1 ≡ list_all is_ascii found.0.text.now) }
{
    let inside = behind(bytes, b"\"")?;
    let run = plain_run(inside);
    let end = run.length;
    let rest = behind(&inside[end..], b"\"")?;
    let text = LinePart {
        text: &inside[..end],
        behind: inside.len() - end,
    };
    Some((text, run.is_ascii, rest))
}

/// The number of the row's hall, where the bytes begin with it as a member, and what is after it.
#[inline(always)]
fn first_hall(bytes: &[u8]) -> Option<(Option<u8>, &[u8])>
    ensures { IfSome result (λ found. bytes.now ≡ hall_text found.0 ++ found.1.now) }
{
    let Some(rest) = behind(bytes, b",\"hall\":") else {
        return Some((None, bytes));
    };
    let (hall, rest) = first_number(rest)?;
    if hall > 255 {
        return None;
    }
    Some((Some(hall as u8), rest))
}

/// The number of the row's line, where the bytes begin with it as a member, and what is after it.
#[inline(always)]
fn first_line(bytes: &[u8]) -> Option<(Option<u64>, &[u8])>
    ensures text { IfSome result (λ found. bytes.now ≡ line_member_text found.0 ++ found.1.now) }
    ensures range { IfSome result (λ found. HasLineIn found.0) }
{
    let Some(rest) = behind(bytes, b",\"line\":") else {
        return Some((None, bytes));
    };
    let (line, count) = row_members::first_number(rest)?;
    Some((Some(line), &rest[count..]))
}

/// The members that a note or a response is marked by, with which the bytes begin, and what is after them.
#[inline(always)]
pub(crate) fn first_marks(bytes: &[u8]) -> Option<(Marks, &[u8])>
    ensures text { IfSome result (λ found. bytes.now ≡ after_marks found.0 found.1.now) }
    ensures range { IfSome result (λ found. HasLineIn found.0.line) }
{
    let (hall, rest) = first_hall(bytes)?;
    let (line, rest) = first_line(rest)?;
    Some((Marks { hall, line }, rest))
}

/// The key that the bytes begin with as a member, and what is after it.
#[inline(always)]
fn first_key(bytes: &[u8]) -> Option<(LinePart<'_>, &[u8])>
    ensures text { IfSome result
        (λ found. bytes.now ≡ codes ",\"key\":" ++ (quoted found.0.text.now ++ found.1.now)) }
    ensures lawful { IfSome result (λ found. is_key found.0.text.now ≡ true) }
{
    let rest = behind(bytes, b",\"key\":")?;
    let (key, _, rest) = first_text(rest)?;
    if !is_key(key.text) {
        return None;
    }
    Some((key, rest))
}

/// The key, between the members that an invocation is marked by, with which the bytes begin, and what is
/// after them.
#[inline(always)]
pub(crate) fn first_members(bytes: &[u8]) -> Option<(Marks, LinePart<'_>, &[u8])>
    ensures text { IfSome result
        (λ found. bytes.now ≡ after_key found.0 found.1.text.now found.2.now) }
    ensures lawful { IfSome result (λ found. is_key found.1.text.now ≡ true) }
    ensures range { IfSome result (λ found. HasLineIn found.0.line) }
{
    let (hall, rest) = first_hall(bytes)?;
    let (key, rest) = first_key(rest)?;
    let (line, rest) = first_line(rest)?;
    Some((Marks { hall, line }, key, rest))
}

/// Whether the bytes, which may be known to be ASCII, are a text.
#[inline(always)]
fn is_text(bytes: &[u8], ascii: bool) -> bool
    requires { IsTrue ascii → list_all is_ascii bytes.now ≡ true }
    ensures { IsTrue result → IsUtf8 bytes.now }
{
    ascii || str::from_utf8(bytes).is_ok()
}

/// Whether the bytes, which may be known to be ASCII, are a value's text.
#[inline(always)]
fn is_value(bytes: &[u8], ascii: bool) -> bool
    requires { IsTrue ascii → list_all is_ascii bytes.now ≡ true }
    ensures { IsTrue result → IsValue bytes.now }
{
    bytes.len() <= LONGEST_VALUE && is_text(bytes, ascii)
}

/// The value in quotation marks that is all that the bytes have before a brace.
#[inline(always)]
pub(crate) fn last_value(bytes: &[u8]) -> Option<LinePart<'_>>
    ensures text { IfSome result (λ value. bytes.now ≡ quoted value.text.now ++ codes "}") }
    ensures lawful { IfSome result (λ value. IsValue value.text.now) }
{
    let (value, is_ascii, rest) = first_text(bytes)?;
    if !is_all(rest, b"}") || !is_value(value.text, is_ascii) {
        return None;
    }
    Some(value)
}
