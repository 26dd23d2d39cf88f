//! The calls that faults and doubts name, as JSON lists.
ghost use Rattle.std.specs.Prelude.{◌≡◌, ◌++◌, ◌∷◌, OnOk};
ghost use Rattle.value_explanations.specs.ValueSentences.{calls_of_doubt, calls_of_fault};
ghost use Rattle.value_explanations.specs.ValueSentences.{calls_of_opposition, list_text};

use crate::oppositions::Opposition;
use crate::pieces::append_op;
use sentences::append;
use tag::{Memory, OpId};
use value_order::{Doubt, ValueFault};

/// Adds the calls as a JSON list of their numbers.
fn append_list(text: &mut Vec<u8>, first: OpId, others: &[OpId]) -> Result<(), Memory>
    ensures { OnOk result (text.new.items ≡ text.old.items ++ list_text (first ∷ others.now)) }
{
    append_op(text, "[", first)?;
    for other in others {
        append_op(text, ",", *other)?;
    }
    append(text, "]")
}

/// Adds the calls of two families that precede each other, as their sentence names them.
fn append_opposed(text: &mut Vec<u8>, opposition: Opposition) -> Result<(), Memory>
    ensures { OnOk result
        (text.new.items ≡ text.old.items ++ list_text (calls_of_opposition opposition)) }
{
    match opposition {
        Opposition::Chain(first, middle, last) => append_list(text, first, &[middle, last]),
        Opposition::Crossed(a, b) => {
            let others = [b.last_begun, b.first_ended, a.last_begun];
            append_list(text, a.first_ended, &others)
        }
    }
}

/// Adds the calls that the fault names, in the order of its sentence, as a JSON list of numbers.
///
/// Without memory the list may lack its end.
pub fn append_fault_calls(text: &mut Vec<u8>, fault: ValueFault) -> Result<(), Memory>
    ensures { OnOk result (text.new.items ≡ text.old.items ++ list_text (calls_of_fault fault)) }
{
    match fault {
        ValueFault::NoWrite(read) => append_list(text, read, &[]),
        ValueFault::Early(read, write) => append_list(text, read, &[write]),
        ValueFault::LateNothing(read, call) => append_list(text, read, &[call]),
        ValueFault::Opposed(a, b) => append_opposed(text, Opposition::of(a, b)),
        ValueFault::Overwritten(doubt, between) => {
            append_list(text, doubt.read, &[doubt.first, doubt.second, between])
        }
    }
}

/// Adds the calls that the doubt names, in the order of its sentence, as a JSON list of numbers.
///
/// Without memory the list may lack its end.
pub fn append_doubt_calls(text: &mut Vec<u8>, doubt: Doubt) -> Result<(), Memory>
    ensures { OnOk result (text.new.items ≡ text.old.items ++ list_text (calls_of_doubt doubt)) }
{
    append_list(text, doubt.first, &[doubt.second, doubt.read])
}
