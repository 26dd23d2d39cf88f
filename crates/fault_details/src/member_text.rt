//! The value of a member, as it stands in a line.
ghost use Rattle.std.specs.Prelude.{◌≡◌, None, Some, IfOk, IfSome};
ghost use Rattle.fault_details.specs.Written.{IsPart};

use crate::json_line::{Parsed, parse};
use std::alloc::Global;
use tag::Memory;

/// How deep the bytes so far nest, and whether they stand in quotation marks.
#[derive(Clone, Copy, Debug)]
struct Nesting {
    depth: usize,
    is_quoted: bool,
    is_escaped: bool,
}

impl Nesting {
    /// Before the first byte.
    fn new() -> Nesting {
        Nesting {
            depth: 0,
            is_quoted: false,
            is_escaped: false,
        }
    }

    /// Takes the next byte.
    fn step(&mut self, byte: u8) {
        if self.is_quoted {
            self.is_quoted = self.is_escaped || byte != b'"';
            self.is_escaped = !self.is_escaped && byte == b'\\';
            return;
        }
        match byte {
            b'"' => self.is_quoted = true,
            b'[' | b'{' => self.depth = self.depth.saturating_add(1),
            b']' | b'}' => self.depth = self.depth.saturating_sub(1),
            _ => {}
        }
    }

    /// Whether the byte ends a name or a value of the outermost object.
    fn is_end(&self, byte: u8) -> bool {
        self.depth == 1 && !self.is_quoted && matches!(byte, b':' | b',' | b'}')
    }

    /// Whether the byte is white space beside names and values, or begins the outermost object.
    fn is_outside(&self, byte: u8) -> bool {
        !self.is_quoted && (matches!(byte, b' ' | b'\t' | b'\r') || self.depth == 0)
    }
}

/// A name or a value under way: the place of its first byte, and the place after its last one.
#[derive(Clone, Copy, Debug)]
struct Span {
    first: Option<usize>,
    end: usize,
}

impl Span {
    /// Nothing yet.
    fn new() -> Span {
        Span {
            first: None,
            end: 0,
        }
    }

    /// Adds the byte at that place.
    fn add(&mut self, place: usize) {
        if self.first.is_none() {
            self.first = Some(place);
        }
        self.end = place.saturating_add(1);
    }

    /// Its bytes.
    #[tactic(auto, using(crate::proofs::Stops::part_of))]
    fn of<'l>(&self, line: &'l [u8]) -> Option<&'l [u8]>
        ensures { IfSome result (λ part. IsPart line.now part.now) }
    {
        match self.first {
            Some(first) if first <= self.end && self.end <= line.len() => {
                Some(&line[first..self.end])
            }
            _ => None,
        }
    }
}

/// Whether the bytes are that name as a JSON text.
fn is_name(alloc: Global, bytes: Option<&[u8]>, name: &str) -> Result<bool, Memory> {
    let Some(bytes) = bytes else {
        return Ok(false);
    };
    match parse(alloc, bytes)? {
        Parsed::Json(value) => Ok(value.as_str() == Some(name)),
        Parsed::Broken(_) => Ok(false),
    }
}

/// The value of the member of that name as it stands in the line, which is an object; of several the last.
pub(crate) fn member_text<'l>(
    alloc: Global,
    line: &'l [u8],
    name: &str,
) -> Result<Option<&'l [u8]>, Memory>
    ensures { IfOk result (λ found. IfSome found (λ part. IsPart line.now part.now)) }
{
    let mut nesting = Nesting::new();
    let mut span = Span::new();
    let mut is_wanted = false;
    let mut found = None;
    for place in 0..line.len() {
        let byte = line[place];
        if nesting.is_end(byte) {
            if byte == b':' {
                is_wanted = is_name(alloc, span.of(line), name)?;
            } else if is_wanted {
                found = span.of(line);
                is_wanted = false;
            }
            span = Span::new();
        } else if !nesting.is_outside(byte) {
            span.add(place);
        }
        nesting.step(byte);
    }
    Ok(found)
}
