//! Whether a key's calls have an order, by their values, and which one.
ghost use Rattle.std.specs.Prelude.{IfOk, MatchOption};
ghost use Rattle.recorder.specs.Parts.{IsSequence};
ghost use Rattle.value_order.specs.Decisions.{LacksFaults};
ghost use Rattle.value_order.specs.Doubts.{IsLeastDoubt};
ghost use Rattle.value_order.specs.Writers.{IsInDoubt};
ghost use Rattle.parallel_keys.specs.KeysToCheck.{what_of};
ghost use Rattle.judged_keys.specs.Findings.{IsFinding, IsUndecided};
ghost use Rattle.judged_keys.specs.FoundOrders.{IsKeyDecision, IsOrderInDoubt};
ghost use Rattle.judged_keys.specs.declared.judged.Judged.TheVariants as judged;

use crate::finding::Finding;
use certificate_check::laws::no_is_no_order;
use certificate_check::{Verdict, check_part};
use parallel_keys::KeyToCheck;
use recorder::{Order, Part};
use std::alloc::Global;
use tag::Memory;
use value_order::laws::a_fault_refutes;
use value_order::{Decision, Doubt, ValueVerdict, decide_by_values, order_by_values};
use witness_order::laws::{
    noted_calls_have_a_tag_order, sound_tags_make_an_order, the_tag_order_is_one_list,
};
use witness_order::{WitnessError, order_of};

/// The order that the tags make of a part with that doubt and without a fault, if they make one.
fn order_in_doubt(alloc: Global, part: &Part<'_>, doubt: Doubt) -> Result<Option<Order>, Memory>
    requires doubt { IsLeastDoubt part.now (IsInDoubt part.now) doubt }
    requires faultless { LacksFaults part.now }
    ensures { IfOk result (λ found.
        MatchOption found (IsUndecided part.now doubt) (IsOrderInDoubt part.now)) }
{
    noted_calls_have_a_tag_order();
    sound_tags_make_an_order();
    let order = match order_of(alloc, part) {
        Ok(order) => order,
        Err(WitnessError::NoNote(_)) => return Ok(None),
        Err(WitnessError::Memory) => return Err(Memory),
    };
    match check_part(alloc, part, order.as_slice())? {
        Verdict::Yes => Ok(Some(order)),
        Verdict::No(_) => {
            no_is_no_order();
            the_tag_order_is_one_list();
            Ok(None)
        }
    }
}

/// What holds of every part.
fn attest(part: &Part<'_>)
    ensures { IsSequence part.now }
{
    let _ = part.len();
}

/// Judges the key by the values of its calls; where they leave it open, by the order that the tags make.
///
/// `Undecided` comes only where a read has two writers, there is no fault, and the tags aren't sound. It
/// takes `n log n` steps; `Memory` comes only where an allocation was refused.
#[tactic(auto, using(crate::proofs::FoundOrders::atomic_by_values, crate::proofs::FoundOrders::atomic_in_doubt))]
pub(crate) fn by_values(alloc: Global, one: &KeyToCheck<'_>) -> Result<Finding, Memory>
    ensures { IfOk result (IsFinding judged.Values (what_of one.now)) }
{
    attest(&one.part);
    a_fault_refutes();
    match decide_by_values(alloc, &one.part)? {
        ValueVerdict::Atomic => Ok(Finding::Atomic),
        ValueVerdict::NotAtomic(fault) => Ok(Finding::ValueFault(fault)),
        ValueVerdict::Undecided(doubt) => match order_in_doubt(alloc, &one.part, doubt)? {
            Some(_) => Ok(Finding::Atomic),
            None => Ok(Finding::Undecided(doubt)),
        },
    }
}

/// Judges a key with these calls as `judge` does by their values, and makes the order if it has one: that of
/// its families, or where values leave it open, the one that its tags make.
///
/// It takes `n log n` steps; `Memory` comes only where an allocation was refused.
#[tactic(auto, using(crate::proofs::FoundOrders::found_by_values))]
pub fn decide_key(alloc: Global, part: &Part<'_>) -> Result<Decision, Memory>
    ensures { IfOk result (IsKeyDecision part.now) }
{
    attest(part);
    a_fault_refutes();
    match order_by_values(alloc, part)? {
        Decision::Atomic(order) => Ok(Decision::Atomic(order)),
        Decision::NotAtomic(fault) => Ok(Decision::NotAtomic(fault)),
        Decision::Undecided(doubt) => match order_in_doubt(alloc, part, doubt)? {
            Some(order) => Ok(Decision::Atomic(order)),
            None => Ok(Decision::Undecided(doubt)),
        },
    }
}
