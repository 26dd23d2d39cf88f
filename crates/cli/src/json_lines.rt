//! The lines of a check in each form: for people, and as objects of JSON.
ghost use Rattle.std.specs.Prelude.{◌≡◌, ◌++◌, OnOk};
ghost use Rattle.cli.specs.JsonLines.{fault_members, json_line, place_members};
ghost use Rattle.cli.specs.JsonLines.{verdict_members};
ghost use Rattle.cli.specs.VerdictLines.{line_in};

use crate::verdict_lines::append_line;
use certificate_check::{Fault, Verdict};
use command_line::Lines;
use sentences::{append, append_number};
use tag::{Key, Memory};

/// Says where an order is wrong, as members of an object.
fn append_place_members(text: &mut Vec<u8>, fault: Fault) -> Result<(), Memory>
    ensures { OnOk result (text.new.items ≡ text.old.items ++ place_members fault) }
{
    match fault {
        Fault::MissingCall(op) => append_number(text, ",\"call\":", u64::from(op.0)),
        Fault::OrderBroken(i, j) => {
            append_number(text, ",\"at\":", i as u64)?;
            append_number(text, ",\"and\":", j as u64)
        }
        Fault::UnknownCall(i)
        | Fault::CallTwice(i)
        | Fault::PendingRead(i)
        | Fault::WrongAnswer(i) => append_number(text, ",\"at\":", i as u64),
    }
}

/// Says what is wrong with an order, as members of an object.
fn append_fault_members(text: &mut Vec<u8>, fault: Fault) -> Result<(), Memory>
    ensures { OnOk result (text.new.items ≡ text.old.items ++ fault_members fault) }
{
    append_number(text, ",\"fault\":", u64::from(fault.number()))?;
    append_place_members(text, fault)
}

/// Says a verdict, as a string and, if it is no, the members that say why.
fn append_verdict_members(text: &mut Vec<u8>, verdict: Verdict) -> Result<(), Memory>
    ensures { OnOk result (text.new.items ≡ text.old.items ++ verdict_members verdict) }
{
    match verdict {
        Verdict::Yes => append(text, "\"yes\""),
        Verdict::No(fault) => {
            append(text, "\"no\"")?;
            append_fault_members(text, fault)
        }
    }
}

/// Says the verdict on a key's order, as an object on a line of its own.
fn append_json_line(text: &mut Vec<u8>, key: &Key, verdict: Verdict) -> Result<(), Memory>
    ensures { OnOk result (text.new.items ≡ text.old.items ++ json_line key.now verdict) }
{
    append(text, "{\"key\":\"")?;
    append(text, key.as_str())?;
    append(text, "\",\"verdict\":")?;
    append_verdict_members(text, verdict)?;
    append(text, "}\n")
}

/// Says the verdict on a key's order in that form, on a line of its own.
pub(crate) fn append_line_in(
    text: &mut Vec<u8>,
    form: Lines,
    key: &Key,
    verdict: Verdict,
) -> Result<(), Memory>
    ensures { OnOk result (text.new.items ≡ text.old.items ++ line_in form key.now verdict) }
{
    match form {
        Lines::Plain => append_line(text, key, verdict),
        Lines::Json => append_json_line(text, key, verdict),
    }
}
