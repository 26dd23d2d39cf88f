//! What a call has read, by values alone.
ghost use Rattle.std.specs.Prelude.{◌≡◌, ◌<◌, ◌≤◌, ◌↔◌, IfOk, IsTrue, Some, length, slice_get};
ghost use Rattle.recorder.specs.Parts.{IsSequence};
ghost use Rattle.recorder.specs.declared.part.Call.{Call};
ghost use Rattle.value_order.specs.Classes.{AreClasses, AreNexts};
ghost use Rattle.value_order.specs.Sources.{AreSources, IsSource, family_of};

use crate::classes::Class;
use crate::placed::PlacedPart;
use std::alloc::Global;
use tag::Memory;

/// What a call has read, by values alone. Numbers are indexes of writes.
#[derive(Clone, Copy)]
pub(crate) enum Source {
    /// The call is a write.
    Write,
    /// The read's only writer.
    Only(u32),
    /// The two writers of the read with the least numbers.
    Doubt(u32, u32),
    /// The read was answered before any write of its value began, of which that is the first.
    Early(u32),
    /// The read answers what no write writes.
    Unwritten,
    /// The read answers nothing.
    Nothing,
    /// The read has no response.
    Pending,
}

/// The index of the write whose family the call at index `i` is of, if it is of one.
pub(crate) fn family_of(i: usize, source: Source) -> Option<usize>
    ensures { result ≡ family_of i source }
{
    match source {
        Source::Write => Some(i),
        Source::Only(write) => Some(write as usize),
        Source::Doubt(_, _)
        | Source::Early(_)
        | Source::Unwritten
        | Source::Nothing
        | Source::Pending => None,
    }
}

/// Whether the call at index `j` began no later than the place.
fn began_by(part: &PlacedPart<'_, '_>, j: u32, place: u32) -> bool
    requires { j < length part.now }
    ensures { (call : Call) × (slice_get part.now j ≡ Some call)
        × (IsTrue result ↔ (call.invoked ≤ place)) }
{
    part.places(j as usize).invoked <= place
}

/// The source of the read at index `i`, which answers the value whose first write has index `first`.
fn source_of_read(
    part: &PlacedPart<'_, '_>,
    classes: &[Class],
    nexts: &[Option<u32>],
    i: usize,
    first: u32,
) -> Source
    requires sequence { IsSequence part.now }
    requires classes { AreClasses part.now classes.now }
    requires nexts { AreNexts classes.now nexts.now }
    requires inside { i < length part.now }
    requires first { first < length nexts.now }
    requires read { slice_get classes.now i ≡ Some (Class.Answers first) }
    ensures { (call : Call) × (slice_get part.now i ≡ Some call) × IsSource part.now call result }
{
    let Some(place) = part.places(i).response else {
        return Source::Pending;
    };
    if !began_by(part, first, place) {
        return Source::Early(first);
    }
    match nexts[first as usize] {
        Some(second) => {
            if began_by(part, second, place) {
                Source::Doubt(first, second)
            } else {
                Source::Only(first)
            }
        }
        None => Source::Only(first),
    }
}

/// The source of the call at index `i`.
fn source_at(
    part: &PlacedPart<'_, '_>,
    classes: &[Class],
    nexts: &[Option<u32>],
    i: usize,
) -> Source
    requires sequence { IsSequence part.now }
    requires classes { AreClasses part.now classes.now }
    requires nexts { AreNexts classes.now nexts.now }
    requires inside { i < length part.now }
    ensures { (call : Call) × (slice_get part.now i ≡ Some call) × IsSource part.now call result }
{
    match classes[i] {
        Class::Writes(_) => Source::Write,
        Class::Answers(first) => source_of_read(part, classes, nexts, i, first),
        Class::Unwritten => Source::Unwritten,
        Class::Nothing => Source::Nothing,
        Class::Pending => Source::Pending,
    }
}

/// The source of each call.
pub(crate) fn sources(
    alloc: Global,
    part: &PlacedPart<'_, '_>,
    classes: &[Class],
    nexts: &[Option<u32>],
) -> Result<Vec<Source>, Memory>
    requires classes { AreClasses part.now classes.now }
    requires nexts { AreNexts classes.now nexts.now }
    ensures { IfOk result (λ sources. AreSources part.now sources.items) }
{
    let mut sources = Vec::with_capacity(alloc, part.len())?;
    for i in 0..part.len() {
        sources.push(source_at(part, classes, nexts, i))?;
    }
    Ok(sources)
}
