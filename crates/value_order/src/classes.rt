//! What a call says of values: the value is named by the index of its first write.
ghost use Rattle.std.specs.Prelude.{◌≡◌, ◌<◌, ◌+◌, IfOk, OnOk, length, slice_get, Some};
ghost use Rattle.recorder.specs.Sound.{IsRead};
ghost use Rattle.recorder.specs.declared.part.Call.{Call};
ghost use Rattle.value_order.specs.Classes.{AreClasses, AreWriteClasses, IsClass, IsWriteClass};
ghost use Rattle.value_order.specs.Firsts.{AreFirsts};
ghost use Rattle.value_order.specs.Placed.{ArePlaces};

use crate::firsts::Firsts;
use crate::placed::{PlacedPart, Places, places_of, short_index};
use recorder::Part;
use std::alloc::Global;
use tag::Memory;

/// What a call says of values. A number is the index of the value's first write.
#[derive(Clone, Copy)]
pub(crate) enum Class {
    Writes(u32),
    /// The read answers that value.
    Answers(u32),
    /// The read answers what no write writes.
    Unwritten,
    /// The read answers nothing.
    Nothing,
    /// The read has no response.
    Pending,
}

/// What a pass over the writes of a part finds.
#[derive(Drop)]
struct Writes<'h> {
    places: Vec<Places>,
    /// The classes of writes; those of reads are still open.
    classes: Vec<Class>,
    firsts: Firsts<'h>,
}

/// The class of the call at index `i`, if it is a write, which the first writes then know; else `Pending`.
fn class_of_write<'h>(part: &Part<'h>, i: usize, firsts: &mut Firsts<'h>) -> Result<Class, Memory>
    requires inside { i < length part.now }
    requires firsts { AreFirsts part.now i firsts.old.slots.items firsts.old.others }
    ensures class { IfOk result (IsWriteClass part.now i) }
    ensures kept { OnOk result (AreFirsts part.now (i + 1) firsts.new.slots.items firsts.new.others) }
{
    match part.call(i).action.written() {
        Some(value) => {
            let first = firsts.number(part, short_index(part, i), value.as_str())?;
            Ok(Class::Writes(first))
        }
        None => Ok(Class::Pending),
    }
}

/// The classes of writes.
fn classes_of_writes<'h>(alloc: Global, part: &Part<'h>) -> Result<Writes<'h>, Memory>
    ensures places { IfOk result (λ writes. ArePlaces part.now writes.places.items) }
    ensures classes { IfOk result (λ writes. AreWriteClasses part.now writes.classes.items) }
    ensures firsts { IfOk result (λ writes. AreFirsts part.now (length part.now)
        writes.firsts.slots.items writes.firsts.others) }
{
    let mut places = Vec::with_capacity(alloc, part.len())?;
    let mut classes = Vec::with_capacity(alloc, part.len())?;
    let mut firsts = Firsts::new(alloc, part.len())?;
    for i in 0..part.len() {
        places.push(places_of(part, i))?;
        classes.push(class_of_write(part, i, &mut firsts)?)?;
    }
    Ok(Writes {
        places,
        classes,
        firsts,
    })
}

/// The class of the call at index `i`, which is a read.
fn class_of_read<'h>(part: &Part<'h>, i: usize, firsts: &Firsts<'h>) -> Class
    requires inside { i < length part.now }
    requires read { (call : Call) → slice_get part.now i ≡ Some call → IsRead call }
    requires firsts { AreFirsts part.now (length part.now) firsts.now.slots.items firsts.now.others }
    ensures { (call : Call) × (slice_get part.now i ≡ Some call) × IsClass part.now call result }
{
    let Some(response) = part.call(i).response else {
        return Class::Pending;
    };
    match response.returned.answered() {
        Some(Some(value)) => match firsts.find(part, value.as_str()) {
            Some(first) => Class::Answers(first),
            None => Class::Unwritten,
        },
        Some(None) => Class::Nothing,
        None => Class::Unwritten,
    }
}

/// Fills in the classes of reads.
fn fill_in_reads<'h>(part: &Part<'h>, firsts: &Firsts<'h>, classes: &mut [Class])
    requires firsts { AreFirsts part.now (length part.now) firsts.now.slots.items firsts.now.others }
    requires writes { AreWriteClasses part.now classes.old }
    ensures { AreClasses part.now classes.new }
{
    for i in 0..part.len() {
        if let Class::Pending = classes[i] {
            classes[i] = class_of_read(part, i, firsts);
        }
    }
}

/// The part with its places, and the class of each call.
pub(crate) fn classes<'p, 'h>(
    alloc: Global,
    part: &'p Part<'h>,
) -> Result<(PlacedPart<'p, 'h>, Vec<Class>), Memory>
    ensures part { IfOk result (λ pair. pair.0 ≡ part.now) }
    ensures classes { IfOk result (λ pair. AreClasses part.now pair.1.items) }
{
    let Writes {
        places,
        mut classes,
        firsts,
    } = classes_of_writes(alloc, part)?;
    fill_in_reads(part, &firsts, &mut classes);
    Ok((PlacedPart::new(part, places), classes))
}
