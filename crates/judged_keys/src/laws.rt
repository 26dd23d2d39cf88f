//! Laws of what is found, each the contract of a function that does nothing.
ghost use Rattle.parallel_keys.specs.CheckedKeys.{CheckedKey};
ghost use Rattle.value_order.specs.declared.decision.Decision.{Decision};
ghost use Rattle.judged_keys.specs.Findings.{IsFinding};
ghost use Rattle.judged_keys.specs.FoundOrders.{IsKeyDecision, finding_of};
ghost use Rattle.judged_keys.specs.declared.judged.Judged.TheVariants as judged;

/// What is found of a key with its order is what `judge` finds of it by its values.
pub fn a_key_decision_is_a_finding()
    ensures { (one : CheckedKey) (decided : Decision) → IsKeyDecision one.part decided
        → IsFinding judged.Values one (finding_of decided) }
{}
