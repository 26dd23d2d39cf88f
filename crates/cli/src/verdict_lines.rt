//! Verdicts as texts: a line for each key that is checked.
ghost use Rattle.std.specs.Prelude.{◌≡◌, ◌++◌, OnOk};
ghost use Rattle.certificate_check.specs.Texts.{fault_text, verdict_text};
ghost use Rattle.cli.specs.VerdictLines.{line_text};

use certificate_check::{Fault, Verdict};
use sentences::{append, append_number};
use tag::{Key, Memory};

/// Says what is wrong with an order.
pub(crate) fn append_fault(text: &mut Vec<u8>, fault: Fault) -> Result<(), Memory>
    ensures { OnOk result (text.new.items ≡ text.old.items ++ fault_text fault) }
{
    let (words, number) = fault.beginning();
    append_number(text, words, number)?;
    match fault.rest() {
        Some((words, number)) => append_number(text, words, number),
        None => Ok(()),
    }
}

/// Says the verdict. Out of memory, it may have added a beginning of it.
pub fn append_verdict(text: &mut Vec<u8>, verdict: Verdict) -> Result<(), Memory>
    ensures { OnOk result (text.new.items ≡ text.old.items ++ verdict_text verdict) }
{
    append(text, verdict.word())?;
    match verdict {
        Verdict::Yes => Ok(()),
        Verdict::No(fault) => append_fault(text, fault),
    }
}

/// Says the verdict on a key's order, on a line of its own.
#[tactic(auto, unfolding(crate::specs::VerdictLines::line_text))]
pub(crate) fn append_line(text: &mut Vec<u8>, key: &Key, verdict: Verdict) -> Result<(), Memory>
    ensures { OnOk result (text.new.items ≡ text.old.items ++ line_text key.now verdict) }
{
    append(text, key.as_str())?;
    append(text, ": ")?;
    append_verdict(text, verdict)?;
    append(text, "\n")
}
