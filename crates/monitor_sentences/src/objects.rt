//! What was found of a key, for programs: an object of JSON.
ghost use Rattle.std.specs.Prelude.{◌≡◌, ◌++◌, OnOk};
ghost use Rattle.std.specs.Option.{option_copied};
ghost use Rattle.monitor_sentences.specs.Objects.{beginning, calls_text, doubt_object, ended_object};
ghost use Rattle.monitor_sentences.specs.Objects.{given_up_members};
ghost use Rattle.monitor_sentences.specs.Objects.{ending, fault_number, refused_object, why_members};

use crate::findings::side_of;
use crate::pieces::{Piece, say};
use crate::told_calls::line_of;
use record_monitor::Told;
use sentences::{append, append_number};
use tag::{Memory, OpId};
use value_explanations::{append_doubt_calls, append_fault_calls};
use value_order::{Doubt, ValueFault};

/// The number of the fault.
fn fault_number(told: &Told) -> u64
    ensures { result ≡ fault_number told.now }
{
    match told {
        Told::NoWrite { .. } => 1,
        Told::LateNothing { .. } => 3,
        Told::Opposed { .. } => 4,
        Told::AllOverwritten { .. } => 5,
    }
}

/// Adds the calls that the fault names as a list, in the order of its sentence.
#[tactic(auto, unfolding(crate::specs::Objects::calls_text))]
fn append_calls(text: &mut Vec<u8>, told: &Told) -> Result<(), Memory>
    ensures { OnOk result (text.new.items ≡ text.old.items ++ calls_text told.now) }
{
    match told {
        Told::NoWrite { read, .. } => append_fault_calls(text, ValueFault::NoWrite(read.op)),
        Told::LateNothing { read, earlier, .. } => {
            append_fault_calls(text, ValueFault::LateNothing(read.op, earlier.op))
        }
        Told::Opposed { one, other } => {
            append_fault_calls(text, ValueFault::Opposed(side_of(one), side_of(other)))
        }
        Told::AllOverwritten {
            read,
            first,
            second,
            ..
        } => {
            let pieces = [
                Piece::Number("[", u64::from(read.op.0)),
                Piece::Number(",", u64::from(first.0)),
                Piece::Number(",", u64::from(second.0)),
                Piece::Words("]"),
            ];
            say(text, &pieces)
        }
    }
}

/// Begins the key's object, up to its verdict.
#[tactic(auto, unfolding(crate::specs::Objects::beginning))]
fn append_beginning(text: &mut Vec<u8>, key: &str) -> Result<(), Memory>
    ensures { OnOk result (text.new.items ≡ text.old.items ++ beginning key.now) }
{
    let ending = Piece::Words("\",\"verdict\":");
    say(
        text,
        &[Piece::Words("{\"key\":\""), Piece::Words(key), ending],
    )
}

/// Ends the key's object with the line of the row at the place.
#[tactic(auto, unfolding(crate::specs::Objects::ending))]
fn append_ending(text: &mut Vec<u8>, place: u64) -> Result<(), Memory>
    ensures { OnOk result (text.new.items ≡ text.old.items ++ ending place) }
{
    append_number(text, ",\"line\":", line_of(place))?;
    append(text, "}\n")
}

/// Adds the fault and its calls as members, if calls show it.
#[tactic(auto, unfolding(crate::specs::Objects::why_members))]
fn append_why_members(text: &mut Vec<u8>, told: Option<&Told>) -> Result<(), Memory>
    ensures { OnOk result (text.new.items ≡ text.old.items ++ why_members (option_copied told.entry)) }
{
    match told {
        None => Ok(()),
        Some(told) => {
            append_number(text, ",\"fault\":", fault_number(told))?;
            append(text, ",\"calls\":")?;
            append_calls(text, told)
        }
    }
}

/// Says that no order of the key's calls up to the row at the place is possible.
#[tactic(auto, unfolding(crate::specs::Objects::refused_object))]
pub fn append_refused_object(
    text: &mut Vec<u8>,
    key: &str,
    place: u64,
    told: Option<&Told>,
) -> Result<(), Memory>
    ensures { OnOk result
        (text.new.items ≡ text.old.items ++ refused_object key.now place (option_copied told.entry)) }
{
    append_beginning(text, key)?;
    append(text, "\"not atomic\"")?;
    append_why_members(text, told)?;
    append_ending(text, place)
}

/// Says which two writes a read of the key may have read that was answered by the row at the place.
#[tactic(auto, unfolding(crate::specs::Objects::doubt_object))]
pub fn append_undecided_object(
    text: &mut Vec<u8>,
    key: &str,
    place: u64,
    doubt: Doubt,
) -> Result<(), Memory>
    ensures { OnOk result (text.new.items ≡ text.old.items ++ doubt_object key.now place doubt) }
{
    append_beginning(text, key)?;
    append(text, "\"undecided\",\"calls\":")?;
    append_doubt_calls(text, doubt)?;
    append_ending(text, place)
}

/// Adds that a read was given up as members.
#[tactic(auto, unfolding(crate::specs::Objects::given_up_members))]
fn append_given_up_members(text: &mut Vec<u8>, read: OpId) -> Result<(), Memory>
    ensures { OnOk result (text.new.items ≡ text.old.items ++ given_up_members read) }
{
    let call = Piece::Number("\"given up\",\"calls\":[", u64::from(read.0));
    say(text, &[call, Piece::Words("]")])
}

/// Says that a read of the key was given up, and is answered by the row at the place.
#[tactic(auto, unfolding(crate::specs::Objects::ended_object))]
pub fn append_given_up_object(
    text: &mut Vec<u8>,
    key: &str,
    place: u64,
    read: OpId,
) -> Result<(), Memory>
    ensures { OnOk result (text.new.items ≡ text.old.items ++ ended_object key.now place read) }
{
    append_beginning(text, key)?;
    append_given_up_members(text, read)?;
    append_ending(text, place)
}
