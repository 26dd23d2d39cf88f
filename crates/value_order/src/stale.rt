//! Stale reads: reads of what was overwritten before they began.
ghost use Rattle.std.specs.Prelude.{◌≡◌, ◌<◌, ◌+◌, ◌↔◌, ℕ, IfOk, IsTrue, Some, length, slice_get};
ghost use Rattle.recorder.specs.Parts.{IsSequence};
ghost use Rattle.recorder.specs.declared.part.Call.{Call};
ghost use Rattle.value_order.specs.Classes.{AreClasses, AreNexts, IsWriteFrom};
ghost use Rattle.value_order.specs.Ended.{BeginsDuring, IsLatestBefore, IsSlower, IsSlowest, PrecedesAt};
ghost use Rattle.value_order.specs.Ended.{AreSlowest};
ghost use Rattle.value_order.specs.Stales.{AreOverwriters, IsOverwriter};

use crate::classes::Class;
use crate::ended::{Passed, ended_before, writes_by_end};
use crate::placed::PlacedPart;
use std::alloc::Global;
use tag::Memory;

/// Of the call at index `i` and the slowest before it, if there is one, the call that ends last; a
/// pending one does.
fn slower(part: &PlacedPart<'_, '_>, slowest: Option<usize>, i: usize) -> usize
    requires inside { i < length part.now }
    requires slowest { (slow : ℕ) → slowest ≡ Some slow → slow < length part.now }
    ensures { IsSlower part.now slowest i result }
{
    let Some(slow) = slowest else {
        return i;
    };
    let Some(end) = part.places(slow).response else {
        return slow;
    };
    match part.places(i).response {
        Some(other) => { if other > end { i } else { slow } }
        None => i,
    }
}

/// Whether the call at index `k` was answered before that at index `m` began.
fn precedes(part: &PlacedPart<'_, '_>, k: usize, m: usize) -> bool
    requires first { k < length part.now }
    requires second { m < length part.now }
    ensures { IsTrue result ↔ PrecedesAt part.now k m }
{
    let begun = part.places(m).invoked;
    match part.places(k).response {
        Some(end) => end < begun,
        None => false,
    }
}

/// Whether the next call, if there is one, began before the call at index `i` was answered.
fn begins_during(part: &PlacedPart<'_, '_>, next: Option<u32>, i: usize) -> bool
    requires inside { i < length part.now }
    requires next { (n : ℕ) → next ≡ Some n → n < length part.now }
    ensures { IsTrue result ↔ BeginsDuring part.now next i }
{
    let Some(next) = next else {
        return false;
    };
    match part.places(i).response {
        Some(end) => part.places(next as usize).invoked <= end,
        None => false,
    }
}

/// The write that each writer of the read at index `i` precedes, and that precedes the read, if it is
/// stale: `slowest` is the write of its value before it that ends last, `next` the first one after it,
/// and `latest` the last write that ended before it began.
fn overwriter(
    part: &PlacedPart<'_, '_>,
    classes: &[Class],
    first: u32,
    slowest: Option<usize>,
    next: Option<u32>,
    latest: Option<usize>,
    i: usize,
) -> Option<usize>
    requires sequence { IsSequence part.now }
    requires classes { AreClasses part.now classes.now }
    requires inside { i < length part.now }
    requires read { slice_get classes.now i ≡ Some (Class.Answers first) }
    requires slowest { IsSlowest part.now classes.now first i slowest }
    requires next { IsWriteFrom classes.now (i + 1) first next }
    requires latest { (call : Call) → slice_get part.now i ≡ Some call
        → IsLatestBefore part.now call.invoked latest }
    ensures { (call : Call) × (slice_get part.now i ≡ Some call)
        × IsOverwriter part.now call result }
{
    let latest = latest?;
    let slow = slowest?;
    if begins_during(part, next, i) {
        return None;
    }
    if precedes(part, slow, latest) {
        Some(latest)
    } else {
        None
    }
}

/// The same of the call at index `i`, whatever it is; `slowest` has the slowest write of each value.
fn overwriter_at(
    part: &PlacedPart<'_, '_>,
    classes: &[Class],
    nexts: &[Option<u32>],
    slowest: &[Option<usize>],
    latest: Option<usize>,
    i: usize,
) -> Option<usize>
    requires sequence { IsSequence part.now }
    requires classes { AreClasses part.now classes.now }
    requires nexts { AreNexts classes.now nexts.now }
    requires slowest { AreSlowest part.now classes.now i slowest.now }
    requires inside { i < length part.now }
    requires latest { (call : Call) → slice_get part.now i ≡ Some call
        → IsLatestBefore part.now call.invoked latest }
    ensures { (call : Call) × (slice_get part.now i ≡ Some call)
        × IsOverwriter part.now call result }
{
    let Class::Answers(first) = classes[i] else {
        return None;
    };
    overwriter(
        part,
        classes,
        first,
        slowest[first as usize],
        nexts[i],
        latest,
        i,
    )
}

/// Takes the call at index `i` for the slowest write of its value, if it is.
fn note_write(part: &PlacedPart<'_, '_>, classes: &[Class], slowest: &mut [Option<usize>], i: usize)
    requires classes { AreClasses part.now classes.now }
    requires slowest { AreSlowest part.now classes.now i slowest.old }
    requires inside { i < length part.now }
    ensures { AreSlowest part.now classes.now (i + 1) slowest.new }
{
    if let Class::Writes(first) = classes[i] {
        let first = first as usize;
        slowest[first] = Some(slower(part, slowest[first], i));
    }
}

/// Beside each read that answers a value and is stale a write that each of its writers precedes, and
/// that precedes it.
pub(crate) fn overwriters(
    alloc: Global,
    part: &PlacedPart<'_, '_>,
    classes: &[Class],
    nexts: &[Option<u32>],
) -> Result<Vec<Option<usize>>, Memory>
    requires classes { AreClasses part.now classes.now }
    requires nexts { AreNexts classes.now nexts.now }
    ensures { IfOk result (λ found. AreOverwriters part.now found.items) }
{
    let keys = writes_by_end(alloc, part)?;
    let mut before = Passed {
        count: 0,
        latest: None,
    };
    let mut slowest: Vec<Option<usize>> = vec![in alloc; None; part.len()]?;
    let mut found = Vec::with_capacity(alloc, part.len())?;
    for i in 0..part.len() {
        before = ended_before(keys.as_slice(), before, part.places(i).invoked);
        found.push(overwriter_at(part, classes, nexts, slowest.as_slice(), before.latest, i))?;
        note_write(part, classes, &mut slowest, i);
    }
    Ok(found)
}
