//! The lines on keys for programs: an object of JSON for each.
ghost use Rattle.std.specs.Prelude.{◌≡◌, ◌++◌, List, OnOk, ℕ};
ghost use Rattle.judged_keys.specs.Findings.{IsFinding};
ghost use Rattle.judged_keys.specs.Judgements.{judgement_of};
ghost use Rattle.judged_keys.specs.declared.judged.Judged.TheVariants.{Values};
ghost use Rattle.decide_command.specs.JsonLines.{IsFaultObject, IsObject};
ghost use Rattle.decide_command.specs.JsonLines.{atomic_object, count_members, doubt_object, fault_members};
ghost use Rattle.decide_command.specs.JsonLines.{fault_object, key_member, missing_object};

use cli::{append, append_number};
use explain_command::count_reads;
use judged_keys::{Finding, JudgedKey};
use recorder::Part;
use sentences::append_quoted;
use std::alloc::Global;
use tag::{Key, Memory};
use value_explanations::{append_doubt_calls, append_fault_calls};
use value_order::{Doubt, ValueFault};

/// Begins the key's object.
fn begin_object(text: &mut Vec<u8>, key: &Key) -> Result<(), Memory>
    ensures { OnOk result (text.new.items ≡ text.old.items ++ key_member key.now) }
{
    append(text, "{\"key\":\"")?;
    append(text, key.as_str())?;
    append(text, "\",\"verdict\":")
}

/// Says that the key is atomic.
#[tactic(auto, unfolding(crate::specs::JsonLines::atomic_object))]
fn append_atomic_object(text: &mut Vec<u8>, key: &Key) -> Result<(), Memory>
    ensures { OnOk result (text.new.items ≡ text.old.items ++ atomic_object key.now) }
{
    begin_object(text, key)?;
    append(text, "\"atomic\"}\n")
}

/// Says that the key isn't atomic, as members: the fault and its calls.
fn append_fault_members(text: &mut Vec<u8>, fault: ValueFault) -> Result<(), Memory>
    ensures { OnOk result (text.new.items ≡ text.old.items ++ fault_members fault) }
{
    let number = u64::from(fault.number());
    append_number(text, "\"not atomic\",\"fault\":", number)?;
    append(text, ",\"calls\":")?;
    append_fault_calls(text, fault)
}

/// Says how many of so many reads are stale, as the last members.
fn append_count_members(text: &mut Vec<u8>, stale: usize, reads: usize) -> Result<(), Memory>
    ensures { OnOk result (text.new.items ≡ text.old.items ++ count_members stale reads) }
{
    append_number(text, ",\"stale\":", stale as u64)?;
    append_number(text, ",\"reads\":", reads as u64)?;
    append(text, "}\n")
}

/// Says that the key isn't atomic: the fault, its calls, and how many of so many reads are stale.
#[tactic(auto, unfolding(crate::specs::JsonLines::fault_object))]
fn append_fault_object(
    text: &mut Vec<u8>,
    key: &Key,
    fault: ValueFault,
    stale: usize,
    reads: usize,
) -> Result<(), Memory>
    ensures { OnOk result
        (text.new.items ≡ text.old.items ++ fault_object key.now fault stale reads) }
{
    begin_object(text, key)?;
    append_fault_members(text, fault)?;
    append_count_members(text, stale, reads)
}

/// Says that the key is undecided: the calls of the doubt.
#[tactic(auto, unfolding(crate::specs::JsonLines::doubt_object))]
fn append_doubt_object(text: &mut Vec<u8>, key: &Key, doubt: Doubt) -> Result<(), Memory>
    ensures { OnOk result (text.new.items ≡ text.old.items ++ doubt_object key.now doubt) }
{
    begin_object(text, key)?;
    append(text, "\"undecided\",\"calls\":")?;
    append_doubt_calls(text, doubt)?;
    append(text, "}\n")
}

/// Counts the stale reads of the part, and says that its key has that fault.
fn append_fault_of(
    alloc: Global,
    text: &mut Vec<u8>,
    key: &Key,
    part: &Part<'_>,
    fault: ValueFault,
) -> Result<(), Memory>
    ensures { OnOk result ((line : List ℕ) × IsFaultObject key.now part.now fault line
        × (text.new.items ≡ text.old.items ++ line)) }
{
    let (stale, reads) = count_reads(alloc, part)?;
    append_fault_object(text, key, fault, stale, reads)
}

/// Says what was found of the key, which was judged by its values.
pub(crate) fn append_object(
    alloc: Global,
    text: &mut Vec<u8>,
    key: &JudgedKey<'_>,
) -> Result<(), Memory>
    requires { let j = judgement_of key.now in IsFinding Values j.one j.finding }
    ensures { OnOk result ((line : List ℕ) × IsObject (judgement_of key.now) line
        × (text.new.items ≡ text.old.items ++ line)) }
{
    let one = key.one;
    match key.finding {
        Finding::Atomic => append_atomic_object(text, one.key),
        Finding::ValueFault(fault) => append_fault_of(alloc, text, one.key, &one.part, fault),
        Finding::Undecided(doubt) => append_doubt_object(text, one.key, doubt),
        _ => unreachable!(),
    }
}

/// Says that no key has the name.
#[tactic(auto, unfolding(crate::specs::JsonLines::missing_object))]
pub(crate) fn append_missing_object(text: &mut Vec<u8>, name: &str) -> Result<(), Memory>
    ensures { OnOk result (text.new.items ≡ text.old.items ++ missing_object name.now) }
{
    append(text, "{\"key\":")?;
    append_quoted(text, name)?;
    append(text, ",\"verdict\":\"no such key\"}\n")
}
