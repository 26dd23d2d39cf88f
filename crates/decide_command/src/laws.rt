//! Laws of what is decided, each the contract of a function that does nothing.
ghost use Rattle.std.specs.Prelude.{[], Contains, List};
ghost use Rattle.recorder.specs.declared.part.Call.{Call};
ghost use Rattle.recorder.specs.Orders.{IsLinearizable};
ghost use Rattle.recorder.specs.Parts.{IsCompleted};
ghost use Rattle.recorder.specs.Sound.{TagSound};
ghost use Rattle.value_order.specs.Decisions.{LacksFaults};
ghost use Rattle.value_order.specs.Writers.{IsInDoubt};
ghost use Rattle.value_order.specs.declared.decision.Doubt.{Doubt};
ghost use Rattle.value_order.specs.declared.decision.ValueFault.{ValueFault};
ghost use Rattle.parallel_keys.specs.CheckedKeys.{CheckedKey};
ghost use Rattle.history_file.specs.declared.numbered_format.NumberedHistories.{NumberedHistories};
ghost use Rattle.cli.specs.declared.outcome.Outcome.{Outcome};
ghost use Rattle.judged_keys.specs.Files.{HaveKeys};
ghost use Rattle.judged_keys.specs.Findings.{IsSo};
ghost use Rattle.judged_keys.specs.Selected.{names_of};
ghost use Rattle.judged_keys.specs.declared.finding.Finding.TheVariants as finding;
ghost use Rattle.decide_command.specs.Decided.{DecidesKeys, selection_of};
ghost use Rattle.decide_command.specs.Findings.{Finds};
ghost use Rattle.decide_command.specs.declared.deciding.Deciding.{Deciding};

/// The calls of a key that is atomic have an order.
pub fn a_key_that_is_atomic_has_an_order()
    ensures { (one : CheckedKey) → IsSo one finding.Atomic → IsLinearizable one.part }
{}

/// Those of a key that isn't have none, whatever else is in doubt.
pub fn a_key_that_is_not_atomic_has_no_order()
    ensures { (one : CheckedKey) (fault : ValueFault) → IsSo one (finding.ValueFault fault)
        → IsLinearizable one.part → ⊥ }
{}

/// A key with sound tags is decided.
pub fn a_key_with_sound_tags_is_decided()
    ensures { (one : CheckedKey) (doubt : Doubt) → TagSound one.part
        → IsSo one (finding.Undecided doubt) → ⊥ }
{}

/// A key is undecided only if a completed read of it has two writers.
pub fn an_undecided_key_has_a_read_of_two_writers()
    ensures { (one : CheckedKey) (doubt : Doubt) → IsSo one (finding.Undecided doubt)
        → (read : Call) × Contains one.part read × IsCompleted read × IsInDoubt one.part read }
{}

/// A key is undecided only if it has no fault.
pub fn an_undecided_key_has_no_fault()
    ensures { (one : CheckedKey) (doubt : Doubt) → IsSo one (finding.Undecided doubt)
        → LacksFaults one.part }
{}

/// What was found is so of the selected keys of the histories.
pub fn what_is_found_is_so()
    ensures { (deciding : Deciding) (numbered : NumberedHistories) (keys : List CheckedKey)
        (outcome : Outcome) → HaveKeys numbered.histories [] keys
        → DecidesKeys deciding numbered keys outcome
        → Finds (names_of (selection_of deciding)) numbered.histories.halls keys outcome.found }
{}
