//! How many reads there are, and how many are stale.
ghost use Rattle.std.specs.Prelude.{◌≡◌, ◌<◌, ◌↔◌, ℕ, IfOk, IsTrue, None, Some, length, min, slice_get};
ghost use Rattle.recorder.specs.declared.part.Call.{Call};
ghost use Rattle.value_order.specs.Ended.{IsFirstWriteEnd, WriteEnds};
ghost use Rattle.value_order.specs.Faults.{IsStale};
ghost use Rattle.value_order.specs.Sources.{AreSources};
ghost use Rattle.value_order.specs.Stales.{AreOverwriters, IsAnsweredRead, IsCount};

use crate::sources::Source;
use crate::stale::overwriters;
use crate::values::read_values;
use recorder::Part;
use std::alloc::Global;
use tag::Memory;

/// Whether the call at index `i` is a read that has a response.
fn is_answered_read(part: &Part<'_>, i: usize) -> bool
    requires { i < length part.now }
    ensures { (call : Call) × (slice_get part.now i ≡ Some call)
        × (IsTrue result ↔ IsAnsweredRead call) }
{
    let state = part.state(i);
    if state.is_write {
        return false;
    }
    state.response.is_some()
}

/// How many reads of the part have a response.
pub fn reads(part: &Part<'_>) -> usize
    ensures { IsCount IsAnsweredRead part.now result }
{
    let mut count = 0;
    for i in 0..part.len() {
        if is_answered_read(part, i) {
            count += 1;
        }
    }
    count
}

/// Where the call at index `i` ended, if it is a write that did.
fn write_end(part: &Part<'_>, i: usize) -> Option<u32>
    requires { i < length part.now }
    ensures { (end : ℕ) → (result ≡ Some end) ↔ WriteEnds part.now i end }
{
    let state = part.state(i);
    if state.is_write { state.response } else { None }
}

/// Of two ends, if there are two, the sooner one.
fn sooner_of(first: Option<u32>, end: u32) -> u32
    ensures first { first ≡ None → result ≡ end }
    ensures sooner { (other : ℕ) → first ≡ Some other → result ≡ min other end }
{
    match first {
        Some(other) => other.min(end),
        None => end,
    }
}

/// The first end of a write, if a write has one.
fn first_write_end(part: &Part<'_>) -> Option<u32>
    ensures { IsFirstWriteEnd part.now (length part.now) result }
{
    let mut first = None;
    for i in 0..part.len() {
        if let Some(end) = write_end(part, i) {
            first = Some(sooner_of(first, end));
        }
    }
    first
}

/// Whether the call at index `i` is a read that is stale.
fn is_stale(
    part: &Part<'_>,
    sources: &[Source],
    found: &[Option<usize>],
    first: Option<u32>,
    i: usize,
) -> bool
    requires inside { i < length part.now }
    requires sources { AreSources part.now sources.now }
    requires found { AreOverwriters part.now found.now }
    requires first { IsFirstWriteEnd part.now (length part.now) first }
    ensures { (call : Call) × (slice_get part.now i ≡ Some call)
        × (IsTrue result ↔ IsStale part.now call) }
{
    let Source::Nothing = sources[i] else {
        return found[i].is_some();
    };
    match first {
        Some(end) => end < part.state(i).invoked,
        None => false,
    }
}

/// How many reads of the part are stale: they answer what was overwritten before they began.
pub fn stale_reads(alloc: Global, part: &Part<'_>) -> Result<usize, Memory>
    ensures { IfOk result (λ count. IsCount (IsStale part.now) part.now count) }
{
    let values = read_values(alloc, part)?;
    let found = overwriters(
        alloc,
        &values.part,
        values.classes.as_slice(),
        values.nexts.as_slice(),
    )?;
    let first = first_write_end(part);
    let mut count = 0;
    for i in 0..part.len() {
        if is_stale(part, values.sources.as_slice(), found.as_slice(), first, i) {
            count += 1;
        }
    }
    Ok(count)
}
