//! The inner zones: of those that began last before their first end, the ones that hold no other.
ghost use Rattle.std.specs.Prelude.{◌≡◌, Some, MatchBool, OnOk, OnErr};
ghost use Rattle.kept_zones.specs.Indexes.{ArePruned, HoldsOne, IsDone, IsHeld, IsLower, IsRising, IsRisingAfter};
ghost use Rattle.kept_zones.specs.Overwriting.{last_of};

use crate::places::Places;
use tag::Memory;

/// Takes out the zones that hold the one of that first end.
fn prune(inner: &mut Places, end: u64, last: u64)
    requires here { last_of inner.old.entries end ≡ Some last }
    requires rising { IsRisingAfter (last_of inner.old.entries) end }
    ensures pruned { ArePruned (last_of inner.old.entries) end last (last_of inner.new.entries) }
    ensures done { IsDone (last_of inner.new.entries) end last }
{
    'each: while let Some((place, begin)) = inner.first_after(end) {
        if begin > last {
            return;
        }
        inner.remove(place);
    }
}

/// Whether a zone that ended no later began no earlier.
fn holds(inner: &Places, end: u64, last: u64) -> bool
    requires { IsRising (last_of inner.now.entries) }
    ensures { MatchBool result (HoldsOne (last_of inner.now.entries) end last)
        (IsLower (last_of inner.now.entries) end last) }
{
    match inner.last_up_to(end) {
        Some((_, begin)) => last <= begin,
        None => false,
    }
}

/// Adds the zone, unless it holds an inner one; those that hold it go.
pub(crate) fn hold(inner: &mut Places, end: u64, last: u64) -> Result<(), Memory>
    requires { IsRising (last_of inner.old.entries) }
    ensures ok { OnOk result (IsHeld (last_of inner.old.entries) end last (last_of inner.new.entries)) }
    ensures err { OnErr result (inner.new.entries ≡ inner.old.entries) }
{
    if holds(inner, end, last) {
        return Ok(());
    }
    inner.insert(end, last)?;
    prune(inner, end, last);
    Ok(())
}
