//! Laws of the reasons, each the contract of a function that does nothing.
ghost use Rattle.std.specs.Prelude.{List};
ghost use Rattle.recorder.specs.declared.part.Call.{Call};
ghost use Rattle.recorder.specs.Orders.{IsLinearizable};
ghost use Rattle.recorder.specs.Parts.{IsSequence};
ghost use Rattle.value_order.specs.declared.decision.ValueFault.{ValueFault};
ghost use Rattle.value_explanations.specs.ValueReasons.{IsValueReason};
ghost use Rattle.value_explanations.specs.declared.value_reasons.ValueReason.{ValueReason};

/// Where a fault has a reason, no list is an order.
pub fn a_value_reason_refutes()
    ensures { (part : List Call) (fault : ValueFault) (reason : ValueReason) → IsSequence part
        → IsValueReason part fault reason → IsLinearizable part → ⊥ }
{}
