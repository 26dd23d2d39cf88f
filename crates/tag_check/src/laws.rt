//! Laws of the verdict, each the contract of a function that does nothing.
ghost use Rattle.std.specs.Prelude.{◌≡◌, List, Option, Some};
ghost use Rattle.recorder.specs.declared.part.Call.{Call};
ghost use Rattle.recorder.specs.Parts.{IsSequence};
ghost use Rattle.recorder.specs.Sound.{TagSound};
ghost use Rattle.tag_check.specs.declared.rule.BrokenRule.{BrokenRule};
ghost use Rattle.tag_check.specs.Verdicts.{IsTagVerdict};

/// Where a rule is broken, the tags aren't sound.
pub fn a_broken_rule_is_not_sound()
    ensures { (part : List Call) (rule : BrokenRule) → IsTagVerdict part (Some rule)
        → TagSound part → ⊥ }
{}

/// A part has one verdict.
pub fn the_verdict_is_one()
    ensures { (part : List Call) (verdict other : Option BrokenRule) → IsSequence part
        → IsTagVerdict part verdict → IsTagVerdict part other → verdict ≡ other }
{}
