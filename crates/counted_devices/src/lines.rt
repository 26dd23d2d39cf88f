//! Cutting bytes at ends of lines.
ghost use Rattle.std.specs.Prelude.{◌≡◌, ◌<◌, ◌≤◌, length, take, drop, map, slice_index, MatchOption, IfOk};
ghost use Rattle.counted_devices.specs.Cuts.{HasNoEnd, IsFirstEnd, Divides};

use memchr::{memchr, memrchr};
use std::alloc::Global;
use tag::Memory;

/// The byte that ends a line.
const END: u8 = 10;

/// The most bytes of a line, its end not counted.
pub const LONGEST: usize = 65_536;

/// How many bytes of lines are worth a chunk of their own.
const CHUNK: usize = 65_536;

/// Bytes as chunks of whole lines, each of which had its end, and a rest without one.
#[derive(Debug, Drop)]
pub struct Cut<'a> {
    pub chunks: Vec<&'a [u8]>,
    pub rest: &'a [u8],
}

/// The place of the first end of a line.
pub fn first_end(bytes: &[u8]) -> Option<usize>
    ensures { MatchOption result (HasNoEnd bytes.now)
        (λ i. (i < length bytes.now) × HasNoEnd (take i bytes.now)
        × (slice_index bytes.now i ≡ 10)) }
{
    memchr(END, bytes)
}

/// The place of the first end of a line from there on.
fn end_from(bytes: &[u8], from: usize) -> Option<usize>
    requires { from ≤ length bytes.now }
    ensures { MatchOption result (HasNoEnd (drop from bytes.now)) (IsFirstEnd bytes.now from) }
{
    let end = first_end(&bytes[from..])?;
    Some(from + end)
}

/// The place of the last end of a line.
fn last_end(bytes: &[u8]) -> Option<usize>
    ensures { MatchOption result (HasNoEnd bytes.now)
        (λ i. (i < length bytes.now) × (slice_index bytes.now i ≡ 10)) }
{
    memrchr(END, bytes)
}

/// The place of the first end of a line after a chunk's bytes, or else of the last end.
fn chunk_end(bytes: &[u8]) -> Option<usize>
    ensures { MatchOption result (HasNoEnd bytes.now)
        (λ i. (i < length bytes.now) × (slice_index bytes.now i ≡ 10)) }
{
    if bytes.len() > CHUNK {
        if let Some(end) = end_from(bytes, CHUNK) {
            return Some(end);
        }
    }
    last_end(bytes)
}

/// Cuts the bytes into chunks of whole lines.
pub fn cut_chunks(alloc: Global, bytes: &[u8]) -> Result<Cut<'_>, Memory>
    ensures { IfOk result (λ found. Divides bytes.now
        (map (λ chunk. chunk.now) found.chunks.items) found.rest.now) }
{
    let mut chunks = Vec::new(alloc);
    let mut rest = bytes;
    while let Some(end) = chunk_end(rest) {
        chunks.push(&rest[..end])?;
        rest = &rest[end + 1..];
    }
    Ok(Cut { chunks, rest })
}
