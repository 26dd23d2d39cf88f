//! How far the bytes of a line are the beginning of a JSON text.
ghost use Rattle.std.specs.Prelude.{◌≡◌, ◌≤◌, true, length, take, IfOk};
ghost use Rattle.row_members.specs.Values.{HasValue};
ghost use Rattle.fault_details.specs.Beginnings.{BeginsJson};

use crate::continuation::continuation;
use serde_json::Value;
use serde_json::error::Category;
use std::alloc::Global;
use std::str;
use tag::Memory;

/// The first place, not before that one, at which a character begins or the line ends.
fn next_boundary(line: &[u8], place: usize) -> usize
    requires { place ≤ length line.now }
    ensures first { place ≤ result }
    ensures most { result ≤ length line.now }
{
    let mut end = place;
    'bytes: while end < line.len() && line[end] >= 128 && line[end] < 192 {
        end += 1;
    }
    end
}

/// Whether the bytes are a JSON text.
#[tactic(auto, using(crate::proofs::Stops::json_there))]
fn is_json(alloc: Global, bytes: &[u8]) -> Result<bool, Memory>
    ensures { IfOk result (λ yes. yes ≡ true → HasValue bytes.now) }
{
    let Ok(text) = str::from_utf8(bytes) else {
        return Ok(false);
    };
    match Value::from_str(alloc, text) {
        Ok(_) => Ok(true),
        Err(error) if error.classify() == Category::Memory => Err(Memory),
        Err(_) => Ok(false),
    }
}

/// Whether a JSON text is found that begins with the line's bytes before that place.
fn begins_json(alloc: Global, line: &[u8], place: usize) -> Result<bool, Memory>
    requires { place ≤ length line.now }
    ensures { IfOk result (λ yes. yes ≡ true → BeginsJson (take place line.now)) }
{
    let end = next_boundary(line, place);
    let rest = continuation(alloc, &line[..end])?;
    let mut text = Vec::new(alloc);
    text.extend_from_slice(&line[..place])?;
    text.extend_from_slice(&line[place..end])?;
    text.extend_from_slice(rest.as_slice())?;
    is_json(alloc, text.as_slice())
}

/// Up to which place the line's bytes are the beginning of a JSON text. With the byte there they are none, as far as
/// one was looked for.
pub(crate) fn json_beginning(alloc: Global, line: &[u8]) -> Result<usize, Memory>
    ensures most { IfOk result (λ place. place ≤ length line.now) }
    ensures begins { IfOk result (λ place. BeginsJson (take place line.now)) }
{
    if begins_json(alloc, line, line.len())? {
        return Ok(line.len());
    }
    let mut place = 0;
    let mut end = line.len();
    'halves: while end - place > 1 {
        let middle = place + (end - place) / 2;
        if begins_json(alloc, line, middle)? {
            place = middle;
        } else {
            end = middle;
        }
    }
    Ok(place)
}
