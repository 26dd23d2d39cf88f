//! Laws of the verdict, each the contract of a function that does nothing.
ghost use Rattle.std.specs.Prelude.{List};
ghost use Rattle.tag.specs.declared.numbers.OpId.{OpId};
ghost use Rattle.recorder.specs.declared.part.Call.{Call};
ghost use Rattle.recorder.specs.Orders.{IsLinearizable, IsOrder};
ghost use Rattle.certificate_check.specs.declared.verdict.Fault.{Fault};
ghost use Rattle.certificate_check.specs.declared.verdict.Verdict.TheVariants as verdict;
ghost use Rattle.certificate_check.specs.Verdicts.{IsVerdict};

/// Where the verdict is yes, the part is linearizable.
pub fn yes_is_linearizable()
    ensures { (part : List Call) (order : List OpId) → IsVerdict part order verdict.Yes
        → IsLinearizable part }
{}

/// Where it is no, the list isn't an order of the part.
pub fn no_is_no_order()
    ensures { (part : List Call) (order : List OpId) (fault : Fault)
        → IsVerdict part order (verdict.No fault) → IsOrder part order → ⊥ }
{}
