//! The values of a line's members.
ghost use Rattle.std.specs.Prelude.{◌≡◌, ◌<◌, ◌≤◌, ◌⊎◌, true, drop, length, slice_index};
ghost use Rattle.std.specs.Prelude.{IfNone, IfSome, IsFalse, IsTrue};
ghost use Rattle.json.specs.Word.{ends_word};
ghost use Rattle.row_members.specs.Scans.{BeginsWith, BeginsWithNone, HoldsValue};

use crate::member::Member;
use crate::scan::{after_space, begins_with, is_space, text_end};

/// The most digits of a number whose value certainly has 64 bits.
const MOST_DIGITS: usize = 19;

/// Whether a word of JSON that stands before that place has ended there.
fn is_ended(line: &[u8], at: usize) -> bool
    requires { at ≤ length line.now }
    ensures { IsTrue result → ends_word (drop at line.now) ≡ true }
{
    at >= line.len() || line[at] == b',' || line[at] == b'}' || is_space(line[at])
}

/// Whether so many digits at the front are as a number is written: some, and no zero before others.
#[inline(always)]
fn are_spelled(bytes: &[u8], count: usize) -> bool
    requires { count ≤ length bytes.now }
    ensures some { IsTrue result → 0 < count }
    ensures alone { IsTrue result → slice_index bytes.now 0 ≡ 48 → count ≡ 1 }
    ensures not { IsFalse result → (count ≡ 0) ⊎ ((slice_index bytes.now 0 ≡ 48) × (1 < count)) }
{
    count == 1 || (count > 1 && bytes[0] != b'0')
}

/// The number that the bytes begin with, as it is written, and how many digits it has. Of a number with
/// more than 19 digits the first 19 are read.
#[inline(always)]
pub fn first_number(bytes: &[u8]) -> Option<(u64, usize)>
    ensures found { IfSome result (λ found. BeginsWith bytes.now found.0 found.1) }
    ensures none { IfNone result (BeginsWithNone bytes.now) }
{
    let mut value: u64 = 0;
    let mut count = 0;
    while count < bytes.len().min(MOST_DIGITS) && bytes[count].is_ascii_digit() {
        value = value * 10 + u64::from(bytes[count] - b'0');
        count += 1;
    }
    if !are_spelled(bytes, count) {
        return None;
    }
    Some((value, count))
}

/// The text that stands there as a member's value, and the place after it.
fn text_at<'a>(text: &'a str, start: usize) -> Option<(Member<'a>, usize)>
    requires { start ≤ length text.now }
    ensures { IfSome result (λ found. HoldsValue text.now start found.0 found.1) }
{
    let end = text_end(text.as_bytes(), start)?;
    let inside = text.get(start + 1..end - 1)?;
    let member = Member::Text {
        text: inside,
        start: start + 1,
    };
    Some((member, end))
}

/// The null that stands there as a member's value, and the place after it.
fn null_at<'a>(line: &[u8], start: usize) -> Option<(Member<'a>, usize)>
    requires { start ≤ length line.now }
    ensures { IfSome result (λ found. HoldsValue line.now start found.0 found.1) }
{
    if begins_with(&line[start..], b"null") && is_ended(line, start + 4) {
        Some((Member::Null, start + 4))
    } else {
        None
    }
}

/// The number that stands there as a member's value, and the place after it.
fn number_at<'a>(line: &[u8], start: usize) -> Option<(Member<'a>, usize)>
    requires { start ≤ length line.now }
    ensures { IfSome result (λ found. HoldsValue line.now start found.0 found.1) }
{
    let (number, count) = first_number(&line[start..])?;
    if is_ended(line, start + count) {
        Some((Member::Number(number), start + count))
    } else {
        None
    }
}

/// What stands there as a member's value after white space, and the place after it.
pub(crate) fn value_at<'a>(text: &'a str, start: usize) -> Option<(Member<'a>, usize)>
    requires { start ≤ length text.now }
    ensures { IfSome result (λ found. HoldsValue text.now start found.0 found.1) }
{
    let line = text.as_bytes();
    let at = after_space(line, start);
    if at < line.len() && line[at] == b'"' {
        return text_at(text, at);
    }
    if at < line.len() && line[at] == b'n' {
        return null_at(line, at);
    }
    number_at(line, at)
}
