//! Why a list is no order, in sentences.
ghost use Rattle.std.specs.Prelude.{◌≡◌, ◌++◌, OnOk};
ghost use Rattle.explanations.specs.Sentences.{order_broken_text, order_reason_text, twice_text};
ghost use Rattle.explanations.specs.Sentences.{unknown_text, wrong_answer_text};

use crate::hall_rows::HallRows;
use crate::pieces::{Piece, Subject};
use reasons::{OrderReason, PlacedCall};
use recorder::Call;
use tag::{Key, Memory, OpId};

impl Subject<'_, '_> {
    /// Says that the call at that place is none on the key.
    #[tactic(auto, unfolding(crate::specs::Sentences::unknown_text))]
    fn say_unknown(&self, text: &mut Vec<u8>, place: usize, op: OpId) -> Result<(), Memory>
        ensures { OnOk result (text.new.items
            ≡ text.old.items ++ unknown_text self.now.key.now place op) }
    {
        let pieces = [
            Piece::Number("  place ", place as u64),
            Piece::Op(": call ", op),
            Piece::Key(", which is no call on "),
            Piece::Key("\n  so the order should list only calls on "),
            Piece::Words("\n"),
        ];
        self.say(text, &pieces)
    }

    /// Says that the call stands at two places.
    #[tactic(auto, unfolding(crate::specs::Sentences::twice_text))]
    fn say_twice(
        &self,
        text: &mut Vec<u8>,
        first: usize,
        place: usize,
        call: &Call<'_>,
    ) -> Result<(), Memory>
        ensures { OnOk result (text.new.items ≡ text.old.items
            ++ twice_text self.now.key.now self.now.hall first place call.now) }
    {
        let pieces = [
            Piece::Placed("  place ", first, call),
            Piece::Number("  place ", place as u64),
            Piece::Op(": call ", call.op),
            Piece::Words(" again\n  so the order should list it once\n"),
        ];
        self.say(text, &pieces)
    }

    /// Says that the read answers another value than the last write before it wrote.
    #[tactic(auto, unfolding(crate::specs::Sentences::wrong_answer_text))]
    fn say_wrong_answer<'c>(
        &self,
        text: &mut Vec<u8>,
        read: &'c PlacedCall<'c>,
        last: &'c Option<PlacedCall<'c>>,
    ) -> Result<(), Memory>
        ensures { OnOk result (text.new.items ≡ text.old.items
            ++ wrong_answer_text self.now.key.now self.now.hall read.now last.now) }
    {
        let placed = Piece::Placed("  place ", read.place, &read.call);
        match last {
            None => {
                let none = Piece::Words("  no write stands before it in the order\n");
                self.say(text, &[placed, none, Piece::Due(None)])
            }
            Some(last) => {
                let words = "  the last write before it in the order is at place ";
                let write = Piece::Placed(words, last.place, &last.call);
                let due = Piece::Due(last.call.action.written());
                self.say(text, &[placed, write, due])
            }
        }
    }

    /// Says that two calls stand against their precedence: the later one was answered before the
    /// earlier one began.
    #[tactic(auto, unfolding(crate::specs::Sentences::order_broken_text))]
    fn say_broken<'c>(
        &self,
        text: &mut Vec<u8>,
        earlier: &'c PlacedCall<'c>,
        later: &'c PlacedCall<'c>,
    ) -> Result<(), Memory>
        ensures { OnOk result (text.new.items ≡ text.old.items
            ++ order_broken_text self.now.key.now self.now.hall earlier.now later.now) }
    {
        let answered = self.hall.response_line(&later.call.response);
        let began = self.hall.line_at(earlier.call.invoked);
        let pieces = [
            Piece::Placed("  place ", earlier.place, &earlier.call),
            Piece::Placed("  place ", later.place, &later.call),
            Piece::Op("  call ", later.call.op),
            Piece::Number(" was answered at line ", answered),
            Piece::Op(", before call ", earlier.call.op),
            Piece::Number(" began at line ", began),
            Piece::Op(", so it should stand before call ", earlier.call.op),
            Piece::Words("\n"),
        ];
        self.say(text, &pieces)
    }
}

/// Says why a list is no order of the calls on the key, which have their rows in the hall.
///
/// Without memory the text may end within a sentence.
pub fn append_order_reason(
    text: &mut Vec<u8>,
    key: &Key,
    hall: &HallRows<'_>,
    reason: &OrderReason<'_>,
) -> Result<(), Memory>
    ensures { OnOk result
        (text.new.items ≡ text.old.items ++ order_reason_text key.now hall.now reason.now) }
{
    let subject = Subject { key, hall: *hall };
    match reason {
        OrderReason::UnknownCall { place, op } => subject.say_unknown(text, *place, *op),
        OrderReason::CallTwice {
            earlier,
            place,
            call,
        } => subject.say_twice(text, *earlier, *place, call),
        OrderReason::MissingCall { call } => {
            let due = "  it was answered, so the order should list it\n";
            subject.say(text, &[Piece::Line("  missing: ", call), Piece::Words(due)])
        }
        OrderReason::PendingRead { read } => {
            let due =
                "  a read that was not answered shows nothing, so the order should leave it out\n";
            let placed = Piece::Placed("  place ", read.place, &read.call);
            subject.say(text, &[placed, Piece::Words(due)])
        }
        OrderReason::WrongAnswer {
            read,
            last,
            unnoted,
        } => {
            subject.say_wrong_answer(text, read, last)?;
            subject.say_unnoted(text, unnoted)
        }
        OrderReason::OrderBroken { earlier, later } => subject.say_broken(text, earlier, later),
    }
}
