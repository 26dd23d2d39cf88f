//! How keys that are judged are presented.
ghost use Rattle.std.specs.Prelude.{◌≡◌, List, IfOk, IfErr, map};
ghost use Rattle.recorder.specs.declared.order.KeyOrder.{KeyOrder};
ghost use Rattle.parallel_keys.specs.CheckedKeys.{CheckedKey};
ghost use Rattle.parallel_keys.specs.KeysToCheck.{what_of};
ghost use Rattle.history_file.specs.declared.numbered_format.NumberedHistories.{NumberedHistories};
ghost use Rattle.cli.specs.declared.outcome.Outcome.{Outcome};
ghost use Rattle.cli.specs.declared.status.Failure.TheVariants as failure;
ghost use Rattle.judged_keys.specs.Files.{AreInFiles, CanBeJudged, HaveKeys, IsOfKeys};
ghost use Rattle.judged_keys.specs.Halls.{HasLinesOfEach};

use crate::files::Files;
use cli::Made;
use history_file::NumberedHistories;
use parallel_keys::{KeyToCheck, hall_parts, keys_to_check};
use std::alloc::Global;

/// What a command makes of keys that are judged: a text that explains them, or a page that draws them.
pub trait Presentation {
    /// What it makes of the keys of histories.
    ghost Presents: { Self → NumberedHistories → List CheckedKey → Outcome → Type 0 };

    /// Makes it of the keys that the histories have, and some orders.
    fn present(
        &self,
        alloc: Global,
        numbered: &NumberedHistories,
        keys: Vec<KeyToCheck<'_>>,
    ) -> Made<'static>
        requires lines { HasLinesOfEach numbered.now }
        requires keys { (orders : List KeyOrder)
            × HaveKeys numbered.now.histories orders (map what_of keys.items) }
        ensures made { IfOk result
            (Presents self.now numbered.now (map what_of keys.entry.items)) }
        ensures stops { IfErr result (λ why. why ≡ failure.Memory) };
}

/// What is made of the keys of the files that were read.
pub(crate) fn made_of<P: Presentation>(alloc: Global, shown: &P, files: &Files) -> Made<'static>
    requires { CanBeJudged files.now }
    ensures made { IfOk result (IsOfKeys (P.Presents shown.now) (AreInFiles files.now)) }
    ensures stops { IfErr result (λ why. why ≡ failure.Memory) }
{
    let parts = hall_parts(alloc, files.numbered.histories.halls())?;
    let keys = keys_to_check(alloc, parts.as_slice(), files.orders.as_slice())?;
    shown.present(alloc, &files.numbered, keys)
}
