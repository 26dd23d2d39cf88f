//! Faults and doubts, as texts.
ghost use Rattle.std.specs.Prelude.{◌≡◌, ◌++◌, OnOk};
ghost use Rattle.value_explanations.specs.ValueSentences.{doubt_text, opposition_text};
ghost use Rattle.value_explanations.specs.ValueSentences.{overwritten_text, value_fault_text};

use crate::oppositions::Opposition;
use crate::pieces::{Piece, say};
use tag::{Memory, OpId};
use value_order::{Doubt, ValueFault};

/// Says which calls of two families precede each other.
fn append_opposition(text: &mut Vec<u8>, opposition: Opposition) -> Result<(), Memory>
    ensures { OnOk result (text.new.items ≡ text.old.items ++ opposition_text opposition) }
{
    match opposition {
        Opposition::Chain(first, middle, last) => {
            let pieces = [
                Piece::Op("4 call ", first),
                Piece::Op(" comes before ", middle),
                Piece::Op(", and ", middle),
                Piece::Op(" before ", last),
                Piece::Op(", but ", first),
                Piece::Op(" and ", last),
                Piece::Words(" belong together"),
            ];
            say(text, &pieces)
        }
        Opposition::Crossed(a, b) => {
            let pieces = [
                Piece::Op("4 call ", a.first_ended),
                Piece::Op(" comes before ", b.last_begun),
                Piece::Op(", and call ", b.first_ended),
                Piece::Op(" before ", a.last_begun),
                Piece::Op(", but ", a.first_ended),
                Piece::Op(" and ", a.last_begun),
                Piece::Op(" belong together, and ", b.last_begun),
                Piece::Op(" and ", b.first_ended),
            ];
            say(text, &pieces)
        }
    }
}

/// Says that each writer of the read was overwritten before it began.
fn append_overwritten(text: &mut Vec<u8>, doubt: Doubt, between: OpId) -> Result<(), Memory>
    ensures { OnOk result (text.new.items ≡ text.old.items ++ overwritten_text doubt between) }
{
    let pieces = [
        Piece::Op("5 read ", doubt.read),
        Piece::Op(" answers what writes ", doubt.first),
        Piece::Op(" and ", doubt.second),
        Piece::Op(" wrote, but write ", between),
        Piece::Words(" came between them and it"),
    ];
    say(text, &pieces)
}

/// Says which fault the values have, with its number and those of the calls that show it.
///
/// Without memory the text may end within a word.
pub fn append_value_fault(text: &mut Vec<u8>, fault: ValueFault) -> Result<(), Memory>
    ensures { OnOk result (text.new.items ≡ text.old.items ++ value_fault_text fault) }
{
    match fault {
        ValueFault::NoWrite(read) => {
            let answers = Piece::Words(" answers");
            say(
                text,
                &[Piece::Op("1 no write of what read ", read), answers],
            )
        }
        ValueFault::Early(read, write) => {
            let began = Piece::Words(" of its value began");
            let ended = Piece::Op(" ended before write ", write);
            say(text, &[Piece::Op("2 read ", read), ended, began])
        }
        ValueFault::LateNothing(read, call) => {
            let ended = Piece::Words(" had ended before it began");
            let nothing = Piece::Op(" answers nothing, but call ", call);
            say(text, &[Piece::Op("3 read ", read), nothing, ended])
        }
        ValueFault::Opposed(a, b) => append_opposition(text, Opposition::of(a, b)),
        ValueFault::Overwritten(doubt, between) => append_overwritten(text, doubt, between),
    }
}

/// Says which two writes a read may have read, and which read.
///
/// Without memory the text may end within a word.
pub fn append_doubt(text: &mut Vec<u8>, doubt: Doubt) -> Result<(), Memory>
    ensures { OnOk result (text.new.items ≡ text.old.items ++ doubt_text doubt) }
{
    let pieces = [
        Piece::Op("writes ", doubt.first),
        Piece::Op(" and ", doubt.second),
        Piece::Op(" wrote what read ", doubt.read),
        Piece::Words(" answers"),
    ];
    say(text, &pieces)
}
