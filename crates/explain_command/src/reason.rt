//! Why keys are refused.
ghost use Rattle.std.specs.Prelude.{◌≡◌, ◌++◌, IfOk, OnOk};
ghost use Rattle.judged_keys.specs.Findings.{IsSo};
ghost use Rattle.judged_keys.specs.Judgements.{judgement_of};
ghost use Rattle.explain_command.specs.Lines.{stale_line};
ghost use Rattle.explain_command.specs.Reasons.{AreCounted, IsReason, reason_text};

use cli::{append, append_number};
use explanations::{HallRows, append_order_reason, append_tag_reason};
use judged_keys::{Finding, JudgedKey};
use reasons::{OrderReason, TagReason, order_reason, tag_reason};
use recorder::Part;
use std::alloc::Global;
use tag::{Key, Memory};
use value_explanations::{ValueReason, append_value_reason, value_reason};
use value_order::{reads, stale_reads};

/// Why a key is refused.
#[derive(Drop)]
pub enum Reason<'h> {
    /// The calls that show the fault of its order.
    Order(OrderReason<'h>),
    /// The calls that break the rule.
    Tags(TagReason<'h>),
    /// The calls that show the fault of their values; how many of its reads are stale, and how many it has.
    Values(ValueReason<'h>, usize, usize),
}

/// How many reads of the part are stale, and how many it has.
pub fn count_reads(alloc: Global, part: &Part<'_>) -> Result<(usize, usize), Memory>
    ensures { IfOk result (λ counts. AreCounted part.now counts.0 counts.1) }
{
    let stale = stale_reads(alloc, part)?;
    Ok((stale, reads(part)))
}

/// Why the key is refused; `None` if it isn't.
pub fn reason_of<'h>(alloc: Global, key: &JudgedKey<'h>) -> Result<Option<Reason<'h>>, Memory>
    requires { let j = judgement_of key.now in IsSo j.one j.finding }
    ensures { IfOk result (IsReason (judgement_of key.now)) }
{
    let part = &key.one.part;
    match key.finding {
        Finding::OrderFault(fault) => {
            Ok(Some(Reason::Order(order_reason(part, key.one.order, fault))))
        }
        Finding::TagFault(rule) => Ok(Some(Reason::Tags(tag_reason(part, rule)))),
        Finding::ValueFault(fault) => {
            let (stale, reads) = count_reads(alloc, part)?;
            Ok(Some(Reason::Values(value_reason(part, fault), stale, reads)))
        }
        _ => Ok(None),
    }
}

/// Says how many of so many reads are stale.
fn append_stale(text: &mut Vec<u8>, stale: usize, reads: usize) -> Result<(), Memory>
    ensures { OnOk result (text.new.items ≡ text.old.items ++ stale_line stale reads) }
{
    append_number(text, "  stale reads: ", stale as u64)?;
    append_number(text, " of ", reads as u64)?;
    append(text, " (a later write had ended before they began)\n")
}

/// Says why the key is refused; its calls have their rows in the hall. Out of memory, the text may end
/// within a sentence.
pub fn append_reason(
    text: &mut Vec<u8>,
    key: &Key,
    hall: &HallRows<'_>,
    reason: &Reason<'_>,
) -> Result<(), Memory>
    ensures { OnOk result
        (text.new.items ≡ text.old.items ++ reason_text key.now hall.now reason.now) }
{
    match reason {
        Reason::Order(reason) => append_order_reason(text, key, hall, reason),
        Reason::Tags(reason) => append_tag_reason(text, key, hall, reason),
        Reason::Values(reason, stale, reads) => {
            append_value_reason(text, key, hall, reason)?;
            append_stale(text, *stale, *reads)
        }
    }
}
