//! White space, single bytes and texts of a line, each from a place on.
ghost use Rattle.std.specs.Prelude.{◌≡◌, ◌<◌, ◌≤◌, ◌++◌, true, false, drop, length, slice_index, take};
ghost use Rattle.std.specs.Prelude.{IfSome, IsTrue};
ghost use Rattle.std.specs.Char.{is_ascii};
ghost use Rattle.std.specs.List.{list_all};
ghost use Rattle.json.specs.Word.{is_space};
ghost use Rattle.row_members.specs.Scans.{is_plain, HoldsText, Passes, Skips};

/// Whether JSON takes the byte for white space.
pub(crate) fn is_space(byte: u8) -> bool
    ensures { result ≡ is_space byte }
{
    byte == b' ' || byte == b'\t' || byte == b'\n' || byte == b'\r'
}

/// The place after white space.
pub(crate) fn after_space(line: &[u8], start: usize) -> usize
    requires { start ≤ length line.now }
    ensures { Skips line.now start result }
{
    let mut at = start;
    while at < line.len() && is_space(line[at]) {
        at += 1;
    }
    at
}

/// The place after white space and that byte.
pub(crate) fn after_byte(line: &[u8], start: usize, byte: u8) -> Option<usize>
    requires { start ≤ length line.now }
    ensures { IfSome result (Passes line.now start byte) }
{
    let at = after_space(line, start);
    if at < line.len() && line[at] == byte {
        Some(at + 1)
    } else {
        None
    }
}

/// Whether the byte stands for itself in a JSON string.
#[inline(always)]
pub fn is_plain_byte(byte: u8) -> bool
    ensures { result ≡ is_plain byte }
{
    byte >= b' ' && byte != b'"' && byte != b'\\'
}

/// Bytes that stand for themselves in a JSON string: how many, and whether all are ASCII.
#[derive(Debug, Drop)]
pub struct PlainRun {
    /// How many bytes.
    pub length: usize,
    /// Whether each is ASCII.
    pub is_ascii: bool,
}

/// The bytes at the front that stand for themselves in a JSON string, before one that doesn't, or the end.
#[inline(always)]
pub fn plain_run(bytes: &[u8]) -> PlainRun
    ensures length { result.length ≤ length bytes.now }
    ensures plain { list_all is_plain (take result.length bytes.now) ≡ true }
    ensures whole { result.length < length bytes.now → is_plain (slice_index bytes.now result.length) ≡ false }
    ensures ascii { result.is_ascii ≡ list_all is_ascii (take result.length bytes.now) }
{
    let mut length = 0;
    let mut is_ascii = true;
    while length < bytes.len() && is_plain_byte(bytes[length]) {
        is_ascii &= bytes[length].is_ascii();
        length += 1;
    }
    PlainRun { length, is_ascii }
}

/// The place after the text in quotation marks that stands there, where it has no escape.
pub(crate) fn text_end(line: &[u8], start: usize) -> Option<usize>
    ensures { IfSome result (HoldsText line.now start) }
{
    if start >= line.len() || line[start] != b'"' {
        return None;
    }
    let first = start + 1;
    let stop = first + plain_run(&line[first..]).length;
    if stop < line.len() && line[stop] == b'"' {
        Some(stop + 1)
    } else {
        None
    }
}

/// Whether the array has these bytes.
fn has_bytes<const N: usize>(array: &[u8; N], bytes: &[u8; N]) -> bool
    ensures { IsTrue result → array.now ≡ bytes.now }
{
    array == bytes
}

/// Whether the bytes begin with that text.
pub(crate) fn begins_with<const N: usize>(bytes: &[u8], text: &[u8; N]) -> bool
    ensures begins { IsTrue result → bytes.now ≡ text.now ++ drop N bytes.now }
    ensures within { IsTrue result → N ≤ length bytes.now }
{
    match bytes.first_chunk::<N>() {
        Some(array) => has_bytes(array, text),
        None => false,
    }
}
