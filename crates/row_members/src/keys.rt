//! The keys of a line's members.
ghost use Rattle.std.specs.Prelude.{◌≡◌, ◌∷◌, [], ◌≤◌, ◌++◌, length, IfSome};
ghost use Rattle.row_members.specs.Names.{text_of};
ghost use Rattle.row_members.specs.Scans.{HoldsKey, HoldsName, IsNamed};

use crate::name::Name;
use crate::row_members::NAMES;
use crate::scan::{after_byte, after_space, begins_with, text_end};

/// The names, each at its place.
const NAMES_IN_ORDER: [Name; NAMES] = [
    Name::Call,
    Name::Client,
    Name::Do,
    Name::Hall,
    Name::Key,
    Name::Number,
    Name::Row,
    Name::Value,
    Name::Writer,
];

/// The name that the text is.
fn name_of(text: &[u8]) -> Option<Name>
    ensures { IsNamed text.now result }
{
    for place in 0..NAMES {
        let name = NAMES_IN_ORDER[place];
        if text == name.text().as_bytes() {
            return Some(name);
        }
    }
    None
}

/// The name, where its text stands there in quotation marks, and the place after it.
fn name_at<const N: usize>(
    line: &[u8],
    at: usize,
    quoted: &[u8; N],
    name: Name,
) -> Option<(Name, usize)>
    requires within { at ≤ length line.now }
    requires text { quoted.now ≡ 34 ∷ (text_of name ++ 34 ∷ []) }
    ensures { IfSome result (λ found. HoldsName line.now at found.0 found.1) }
{
    if begins_with(&line[at..], quoted) {
        Some((name, at + N))
    } else {
        None
    }
}

/// The name of the two that begin with a `c` that stands there in quotation marks.
fn call_or_client(line: &[u8], at: usize) -> Option<(Name, usize)>
    requires { at ≤ length line.now }
    ensures { IfSome result (λ found. HoldsName line.now at found.0 found.1) }
{
    if let Some(found) = name_at(line, at, b"\"call\"", Name::Call) {
        return Some(found);
    }
    name_at(line, at, b"\"client\"", Name::Client)
}

/// The name that stands there in quotation marks, and the place after it. `None` says nothing.
fn known_name(line: &[u8], at: usize) -> Option<(Name, usize)>
    requires { at ≤ length line.now }
    ensures { IfSome result (λ found. HoldsName line.now at found.0 found.1) }
{
    if at >= line.len() || at + 1 >= line.len() {
        return None;
    }
    match line[at + 1] {
        b'c' => call_or_client(line, at),
        b'd' => name_at(line, at, b"\"do\"", Name::Do),
        b'h' => name_at(line, at, b"\"hall\"", Name::Hall),
        b'k' => name_at(line, at, b"\"key\"", Name::Key),
        b'n' => name_at(line, at, b"\"number\"", Name::Number),
        b'r' => name_at(line, at, b"\"row\"", Name::Row),
        b'v' => name_at(line, at, b"\"value\"", Name::Value),
        b'w' => name_at(line, at, b"\"writer\"", Name::Writer),
        _ => None,
    }
}

/// The name that the text that stands there is, and the place after its colon.
fn any_key(line: &[u8], from: usize) -> Option<(Option<Name>, usize)>
    ensures { IfSome result (λ found. HoldsKey line.now from found.0 found.1) }
{
    let end = text_end(line, from)?;
    let name = name_of(&line[from + 1..end - 1]);
    let next = after_byte(line, end, b':')?;
    Some((name, next))
}

/// The name of the member that stands there, and the place after its colon.
pub(crate) fn key_at(line: &[u8], start: usize) -> Option<(Option<Name>, usize)>
    requires { start ≤ length line.now }
    ensures { IfSome result (λ found. HoldsKey line.now start found.0 found.1) }
{
    let from = after_space(line, start);
    // the nine names are known by their first letters, without a search for their ends
    if let Some((name, end)) = known_name(line, from) {
        let after = after_byte(line, end, b':')?;
        return Some((Some(name), after));
    }
    any_key(line, from)
}
