//! What was found of a key, for people.
ghost use Rattle.std.specs.Prelude.{◌≡◌, ◌++◌, OnOk};
ghost use Rattle.std.specs.Option.{option_copied};
ghost use Rattle.monitor_sentences.specs.Findings.{doubt_lines, due_text, ended_lines, fault_text, forgotten_text};
ghost use Rattle.monitor_sentences.specs.Findings.{from_text, late_text, opposed_text, overwritten_text, read_line};
ghost use Rattle.monitor_sentences.specs.Findings.{reason_if, reason_text, refused_lines, side_of, why_text};

use crate::pieces::{Piece, say};
use crate::told_calls::{Subject, append_precedence, append_side, line_of};
use record_monitor::{Told, ToldCall, ToldSide};
use sentences::{append, append_number};
use tag::{Memory, OpId};
use value_explanations::{append_circle, append_doubt, append_value_fault};
use value_order::{Doubt, Side, ValueFault};

/// The calls of the side by their numbers.
pub(crate) fn side_of(side: &ToldSide) -> Side
    ensures { result ≡ side_of side.now }
{
    Side {
        write: side.write.op,
        first_ended: side.first_ended.op,
        last_begun: side.last_begun.op,
    }
}

/// Says that the read answers what is no longer kept, or never was.
#[tactic(auto, unfolding(crate::specs::Findings::forgotten_text))]
fn append_forgotten(text: &mut Vec<u8>, read: OpId) -> Result<(), Memory>
    ensures { OnOk result (text.new.items ≡ text.old.items ++ forgotten_text read) }
{
    let answers = Piece::Words(" answers a value that was overwritten or never written");
    say(
        text,
        &[Piece::Number("1 read ", u64::from(read.0)), answers],
    )
}

/// Says that each kept write of what the read answers was overwritten.
#[tactic(auto, unfolding(crate::specs::Findings::overwritten_text))]
fn append_overwritten(
    text: &mut Vec<u8>,
    read: OpId,
    first: OpId,
    second: OpId,
) -> Result<(), Memory>
    ensures { OnOk result
        (text.new.items ≡ text.old.items ++ overwritten_text read first second) }
{
    let pieces = [
        Piece::Number("5 read ", u64::from(read.0)),
        Piece::Number(" answers what writes ", u64::from(first.0)),
        Piece::Number(" and ", u64::from(second.0)),
        Piece::Words(" wrote, but each was overwritten before it began"),
    ];
    say(text, &pieces)
}

/// Says which fault shows that no order is possible, with its number and those of the calls that show it.
fn append_fault(text: &mut Vec<u8>, told: &Told) -> Result<(), Memory>
    ensures { OnOk result (text.new.items ≡ text.old.items ++ fault_text told.now) }
{
    match told {
        Told::NoWrite { read, .. } => append_forgotten(text, read.op),
        Told::LateNothing { read, earlier, .. } => {
            append_value_fault(text, ValueFault::LateNothing(read.op, earlier.op))
        }
        Told::Opposed { one, other } => {
            append_value_fault(text, ValueFault::Opposed(side_of(one), side_of(other)))
        }
        Told::AllOverwritten {
            read,
            first,
            second,
            ..
        } => append_overwritten(text, read.op, *first, *second),
    }
}

/// Says that each of two families would have to come before the other.
#[tactic(auto, unfolding(crate::specs::Findings::opposed_text))]
fn append_opposed(
    text: &mut Vec<u8>,
    key: &str,
    one: &ToldSide,
    other: &ToldSide,
) -> Result<(), Memory>
    ensures { OnOk result
        (text.new.items ≡ text.old.items ++ opposed_text key.now one.now other.now) }
{
    append_side(text, key, one)?;
    append_side(text, key, other)?;
    append_precedence(text, &one.first_ended, &other.last_begun)?;
    append(text, "\n")?;
    append_precedence(text, &other.first_ended, &one.last_begun)?;
    append_circle(text)
}

/// Says that the read should have answered a value, and ends the line.
#[tactic(auto, unfolding(crate::specs::Findings::due_text))]
fn append_due(text: &mut Vec<u8>, read: OpId) -> Result<(), Memory>
    ensures { OnOk result (text.new.items ≡ text.old.items ++ due_text read) }
{
    let due = Piece::Words(" should have answered a value\n");
    say(text, &[Piece::Number(", so call ", u64::from(read.0)), due])
}

/// Says which earlier call shows that a read should have answered a value.
#[tactic(auto, unfolding(crate::specs::Findings::late_text))]
fn append_late<'a>(
    text: &mut Vec<u8>,
    key: &'a str,
    read: &ToldCall,
    earlier: &ToldCall,
    value: &'a str,
) -> Result<(), Memory>
    ensures { OnOk result
        (text.new.items ≡ text.old.items ++ late_text key.now read.now earlier.now value.now) }
{
    let shown = Subject {
        key,
        value: Some(value),
    };
    shown.append_told(text, earlier)?;
    Subject { key, value: None }.append_told(text, read)?;
    append_precedence(text, earlier, read)?;
    append_due(text, read.op)
}

/// Says which calls show the fault, and how.
#[tactic(auto, unfolding(crate::specs::Findings::reason_text))]
fn append_reason(text: &mut Vec<u8>, key: &str, told: &Told) -> Result<(), Memory>
    ensures { OnOk result (text.new.items ≡ text.old.items ++ reason_text key.now told.now) }
{
    match told {
        Told::NoWrite { read, value } | Told::AllOverwritten { read, value, .. } => {
            let value = Some(value.as_str());
            Subject { key, value }.append_told(text, read)
        }
        Told::LateNothing {
            read,
            earlier,
            value,
        } => append_late(text, key, read, earlier, value.as_str()),
        Told::Opposed { one, other } => append_opposed(text, key, one, other),
    }
}

/// Says from which line on no order of the calls on the key is possible.
#[tactic(auto, unfolding(crate::specs::Findings::from_text))]
fn append_from(text: &mut Vec<u8>, key: &str, place: u64) -> Result<(), Memory>
    ensures { OnOk result (text.new.items ≡ text.old.items ++ from_text key.now place) }
{
    let pieces = [
        Piece::Number("  from line ", line_of(place)),
        Piece::Words(" on no order of the calls on "),
        Piece::Words(key),
        Piece::Words(" is possible\n"),
    ];
    say(text, &pieces)
}

/// Says the fault after the words, if calls show it, and ends the line.
fn append_why(text: &mut Vec<u8>, told: Option<&Told>) -> Result<(), Memory>
    ensures { OnOk result (text.new.items ≡ text.old.items ++ why_text (option_copied told.entry)) }
{
    if let Some(told) = told {
        append(text, " ")?;
        append_fault(text, told)?;
    }
    append(text, "\n")
}

/// Says which calls show the fault, and how, if some do.
fn append_reason_if(text: &mut Vec<u8>, key: &str, told: Option<&Told>) -> Result<(), Memory>
    ensures { OnOk result (text.new.items ≡ text.old.items ++ reason_if key.now (option_copied told.entry)) }
{
    match told {
        Some(told) => append_reason(text, key, told),
        None => Ok(()),
    }
}

/// Says that no order of the key's calls up to the row at the place is possible, and which calls show it, if they are
/// known.
#[tactic(auto, unfolding(crate::specs::Findings::refused_lines))]
pub fn append_refused(
    text: &mut Vec<u8>,
    key: &str,
    place: u64,
    told: Option<&Told>,
) -> Result<(), Memory>
    ensures { OnOk result
        (text.new.items ≡ text.old.items ++ refused_lines key.now place (option_copied told.entry)) }
{
    append(text, key)?;
    append(text, ": not atomic")?;
    append_why(text, told)?;
    append_reason_if(text, key, told)?;
    append_from(text, key, place)
}

/// Says on which line the read was answered.
#[tactic(auto, unfolding(crate::specs::Findings::read_line))]
fn append_read_line(text: &mut Vec<u8>, read: OpId, place: u64) -> Result<(), Memory>
    ensures { OnOk result (text.new.items ≡ text.old.items ++ read_line read place) }
{
    let pieces = [
        Piece::Number("\n  read ", u64::from(read.0)),
        Piece::Number(" was answered at line ", line_of(place)),
        Piece::Words("\n"),
    ];
    say(text, &pieces)
}

/// Says which two writes a read of the key may have read that was answered by the row at the place.
#[tactic(auto, unfolding(crate::specs::Findings::doubt_lines))]
pub fn append_undecided(
    text: &mut Vec<u8>,
    key: &str,
    place: u64,
    doubt: Doubt,
) -> Result<(), Memory>
    ensures { OnOk result (text.new.items ≡ text.old.items ++ doubt_lines key.now place doubt) }
{
    append(text, key)?;
    append(text, ": undecided: ")?;
    append_doubt(text, doubt)?;
    append_read_line(text, doubt.read, place)
}

/// Says that a read of the key was given up, and is answered by the row at the place.
#[tactic(auto, unfolding(crate::specs::Findings::ended_lines))]
pub fn append_given_up(text: &mut Vec<u8>, key: &str, place: u64, read: OpId) -> Result<(), Memory>
    ensures { OnOk result (text.new.items ≡ text.old.items ++ ended_lines key.now place read) }
{
    append(text, key)?;
    append_number(text, ": read ", u64::from(read.0))?;
    append(text, " was given up, and is answered after all")?;
    append_read_line(text, read, place)
}
