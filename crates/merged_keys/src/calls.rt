//! The list of all calls.
ghost use Rattle.std.specs.Prelude.{◌≡◌};
ghost use Rattle.recorder.specs.Histories.{Recorded};
ghost use Rattle.recorder.specs.Records.{AreParts};
ghost use Rattle.store_orders.specs.Turns.{AreCallsOf};
ghost use Rattle.merged_keys.specs.MergedKeys.{merged};

use recorder::{Part, Parts};

/// All calls of a history, of the parts of its merged one: as they are recorded, in the order of their
/// invocations.
pub fn all_calls<'p>(parts: &'p Parts<'_>) -> Part<'p>
    ensures { (history : Recorded) → AreParts (merged history).rows parts.now.entries
        → AreCallsOf history.rows result }
{
    if parts.len() == 0 {
        return Part::empty();
    }
    let (_key, part) = parts.entry(0);
    part
}
