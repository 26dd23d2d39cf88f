//! The decision by values.
ghost use Rattle.std.specs.Prelude.{IfOk, MatchOption};
ghost use Rattle.tag_check.specs.Least.{LacksCall};
ghost use Rattle.value_order.specs.Classes.{AreClasses, AreNexts};
ghost use Rattle.value_order.specs.Decisions.{IsDecision, IsExact, IsExactVerdict, IsFault, IsVerdict, LacksFaultsBefore};
ghost use Rattle.value_order.specs.Decisions.{LacksReadFaults};
ghost use Rattle.value_order.specs.Families.{HasNoneOpposed};
ghost use Rattle.value_order.specs.FamilyOrders.{AnswersFamilyOrder, IsSureVerdict};
ghost use Rattle.value_order.specs.Found.{IsDoubted, IsFound};
ghost use Rattle.value_order.specs.Sources.{AreSources};
ghost use Rattle.value_order.specs.Writers.{IsInDoubt, IsOnlyWriter};

use crate::classes::Class;
use crate::crossing::have_crossing;
use crate::decision::{Decision, Doubt, ValueFault, ValueVerdict};
use crate::faults::{first_doubt, first_early, first_unwritten};
use crate::keys::sorted_order;
use crate::nothings::first_late;
use crate::opposed::first_opposed;
use crate::overwritten::first_overwritten;
use crate::placed::{PlacedPart, attest};
use crate::sources::Source;
use crate::stale::overwriters;
use crate::values::{Values, read_values};
use crate::zones::{Zone, last_row, zones};
use recorder::Part;
use std::alloc::Global;
use tag::Memory;

/// What values say of a part.
#[derive(Drop)]
pub(crate) enum Found<'p, 'h> {
    /// It has an order, which is made from its families.
    Atomic(Families<'p, 'h>),
    NotAtomic(ValueFault),
    Undecided(Doubt),
}

/// What an order is made from.
#[derive(Drop)]
pub(crate) struct Families<'p, 'h> {
    pub(crate) part: PlacedPart<'p, 'h>,
    pub(crate) sources: Vec<Source>,
    pub(crate) zones: Vec<Zone>,
}

/// A read that has two writers, and what says whether it is stale.
#[derive(Drop)]
pub(crate) struct Doubted {
    pub(crate) doubt: Doubt,
    pub(crate) classes: Vec<Class>,
    pub(crate) nexts: Vec<Option<u32>>,
}

/// The first fault of 1 to 3.
fn read_fault(part: &PlacedPart<'_, '_>, sources: &[Source]) -> Option<ValueFault>
    requires { AreSources part.now sources.now }
    ensures { MatchOption result (LacksReadFaults part.now)
        (λ fault. IsFault part.now fault × LacksFaultsBefore part.now fault) }
{
    if let Some(read) = first_unwritten(part, sources) {
        return Some(ValueFault::NoWrite(read));
    }
    if let Some((write, read)) = first_early(part, sources) {
        return Some(ValueFault::Early(read, write));
    }
    match first_late(part, sources) {
        Some((read, call)) => Some(ValueFault::LateNothing(read, call)),
        None => None,
    }
}

/// The first read that has two writers. Without one the tables are given up, which is most of the memory.
fn first_doubted(
    part: &PlacedPart<'_, '_>,
    sources: &[Source],
    classes: Vec<Class>,
    nexts: Vec<Option<u32>>,
) -> Option<Doubted>
    requires sources { AreSources part.now sources.now }
    requires classes { AreClasses part.now classes.items }
    requires nexts { AreNexts classes.items nexts.items }
    ensures { MatchOption result (LacksCall part.now (IsInDoubt part.now)) (IsDoubted part.now) }
{
    let doubt = first_doubt(part, sources)?;
    Some(Doubted {
        doubt,
        classes,
        nexts,
    })
}

/// What is decided where a read has two writers, and there is none of the faults 1 to 4.
fn in_doubt<'p, 'h>(
    alloc: Global,
    part: &PlacedPart<'_, '_>,
    sources: &[Source],
    doubted: &Doubted,
) -> Result<Found<'p, 'h>, Memory>
    requires sources { AreSources part.now sources.now }
    requires doubted { IsDoubted part.now doubted.now }
    requires reads { LacksReadFaults part.now }
    requires opposed { HasNoneOpposed part.now (IsOnlyWriter part.now) }
    ensures { IfOk result (IsFound part.now) }
{
    let found = overwriters(
        alloc,
        part,
        doubted.classes.as_slice(),
        doubted.nexts.as_slice(),
    )?;
    match first_overwritten(part, sources, found.as_slice()) {
        Some((doubt, between)) => Ok(Found::NotAtomic(ValueFault::Overwritten(doubt, between))),
        None => Ok(Found::Undecided(doubted.doubt)),
    }
}

/// What is decided where there is none of the faults 1 to 3.
fn by_families<'p, 'h>(alloc: Global, values: Values<'p, 'h>) -> Result<Found<'p, 'h>, Memory>
    requires classes { AreClasses values.part values.classes.items }
    requires nexts { AreNexts values.classes.items values.nexts.items }
    requires sources { AreSources values.part values.sources.items }
    requires reads { LacksReadFaults values.part }
    ensures { IfOk result (IsFound values.entry.part) }
{
    let Values {
        part,
        classes,
        nexts,
        sources,
    } = values;
    part.attest();
    let doubted = first_doubted(&part, sources.as_slice(), classes, nexts);
    let last = last_row(&part);
    let zones = zones(alloc, &part, sources.as_slice(), last)?;
    if have_crossing(&part, sources.as_slice(), zones.as_slice()) {
        let (a, b) = first_opposed(alloc, &part, sources.as_slice(), last)?;
        return Ok(Found::NotAtomic(ValueFault::Opposed(a, b)));
    }
    match doubted {
        Some(doubted) => in_doubt(alloc, &part, sources.as_slice(), &doubted),
        None => Ok(Found::Atomic(Families {
            part,
            sources,
            zones,
        })),
    }
}

/// What values say of the part.
fn decide<'p, 'h>(alloc: Global, part: &'p Part<'h>) -> Result<Found<'p, 'h>, Memory>
    ensures { IfOk result (IsFound part.now) }
{
    let values = read_values(alloc, part)?;
    match read_fault(&values.part, values.sources.as_slice()) {
        Some(fault) => Ok(Found::NotAtomic(fault)),
        None => by_families(alloc, values),
    }
}

/// Whether the calls of a part are linearizable, by the values that they write and answer.
///
/// A fault is final, whatever else is in doubt: of several the first in their order is said. `Undecided`
/// comes only where a read has two writers and there is no fault, `Atomic` only where no read has two. There
/// the answer is `Atomic` exactly where there is an order, which isn't made. The time grows with the count of
/// calls and the bytes of values; with a doubt, or with chosen values, by `n log n`. `Memory` comes only where
/// an allocation was refused.
pub fn decide_by_values(alloc: Global, part: &Part<'_>) -> Result<ValueVerdict, Memory>
    ensures verdict { IfOk result (IsVerdict part.now) }
    ensures exact { IfOk result (IsExactVerdict part.now) }
    ensures sure { IfOk result (IsSureVerdict part.now) }
{
    attest(part);
    match decide(alloc, part)? {
        Found::Atomic(_) => Ok(ValueVerdict::Atomic),
        Found::NotAtomic(fault) => Ok(ValueVerdict::NotAtomic(fault)),
        Found::Undecided(doubt) => Ok(ValueVerdict::Undecided(doubt)),
    }
}

/// The same, with an order if it is `Atomic`.
///
/// The order has the calls family by family, a write and then its reads, sorted by where the families end
/// or begin. It takes `n log n` steps. `Memory` comes only where an allocation was refused.
pub fn order_by_values(alloc: Global, part: &Part<'_>) -> Result<Decision, Memory>
    ensures decision { IfOk result (IsDecision part.now) }
    ensures exact { IfOk result (IsExact part.now) }
    ensures families { IfOk result (AnswersFamilyOrder part.now) }
{
    attest(part);
    match decide(alloc, part)? {
        Found::Atomic(families) => Ok(Decision::Atomic(sorted_order(
            alloc,
            &families.part,
            families.sources.as_slice(),
            families.zones.as_slice(),
        )?)),
        Found::NotAtomic(fault) => Ok(Decision::NotAtomic(fault)),
        Found::Undecided(doubt) => Ok(Decision::Undecided(doubt)),
    }
}
