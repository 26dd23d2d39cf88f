//! The check.
ghost use Rattle.std.specs.Prelude.{◌≡◌, ◌↔◌, IfOk, None};
ghost use Rattle.recorder.specs.Sound.{TagSound};
ghost use Rattle.tag_check.specs.Verdicts.{IsTagVerdict};

use crate::BrokenRule;
use crate::notes::Notes;
use recorder::Part;
use std::alloc::Global;
use tag::Memory;

/// The first rule of sound tags that the notes of the part's calls break, with the calls that break
/// it; `None` exactly where the tags are sound.
///
/// It takes time in proportion to the calls and the logarithm of their count, and answers `Memory`
/// only where an allocation was refused.
pub fn check_tags(alloc: Global, part: &Part<'_>) -> Result<Option<BrokenRule>, Memory>
    ensures verdict { IfOk result (λ broken. IsTagVerdict part.now broken) }
    ensures sound { IfOk result (λ broken. (broken ≡ None) ↔ TagSound part.now) }
{
    Notes::new(part).broken_rule(alloc)
}
