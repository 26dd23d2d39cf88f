//! Why tags aren't sound, in sentences.
ghost use Rattle.std.specs.Prelude.{◌≡◌, ◌++◌, unwrap_or, OnOk};
ghost use Rattle.tag.specs.Tags.{least};
ghost use Rattle.explanations.specs.Sentences.{broken_text, hint_text, no_write_text};
ghost use Rattle.explanations.specs.Sentences.{not_above_text, other_value_text, tag_reason_text};

use crate::hall_rows::HallRows;
use crate::pieces::{Piece, Subject};
use reasons::TagReason;
use recorder::Call;
use sentences::append;
use tag::{Key, Memory, Tag};

/// The tag that the call is noted with; the least, if it has no note.
fn noted_tag(call: &Call<'_>) -> Tag
    ensures { result ≡ unwrap_or call.now.note least }
{
    match call.note {
        Some(tag) => tag,
        None => Tag::least(),
    }
}

impl Subject<'_, '_> {
    /// Says that the later call's tag is too low: it began after the earlier one was answered.
    #[tactic(auto, unfolding(crate::specs::Sentences::not_above_text))]
    fn say_not_above<'c>(
        &self,
        text: &mut Vec<u8>,
        earlier: &'c Call<'c>,
        later: &'c Call<'c>,
    ) -> Result<(), Memory>
        ensures { OnOk result (text.new.items ≡ text.old.items
            ++ not_above_text self.now.key.now self.now.hall earlier.now later.now) }
    {
        let began = self.hall.line_at(later.invoked);
        let answered = self.hall.response_line(&earlier.response);
        let pieces = [
            Piece::Line("  ", earlier),
            Piece::Line("  ", later),
            Piece::Op("  call ", later.op),
            Piece::Number(" began at line ", began),
            Piece::Op(", after call ", earlier.op),
            Piece::Number(" was answered at line ", answered),
            Piece::Words(", so it should be noted "),
            Piece::Above(&later.action, noted_tag(earlier)),
            Piece::Words("\n"),
        ];
        self.say(text, &pieces)
    }

    /// Says that no write has the read's tag.
    #[tactic(auto, unfolding(crate::specs::Sentences::no_write_text))]
    fn say_no_write(&self, text: &mut Vec<u8>, read: &Call<'_>) -> Result<(), Memory>
        ensures { OnOk result (text.new.items
            ≡ text.old.items ++ no_write_text self.now.key.now self.now.hall read.now) }
    {
        let pieces = [
            Piece::Line("  ", read),
            Piece::Key("  no write on "),
            Piece::Words(" is noted "),
            Piece::Noted(noted_tag(read)),
            Piece::Words(", so the tag or the answer is from elsewhere\n"),
        ];
        self.say(text, &pieces)
    }

    /// Says that the read answers another value than its tag stands for.
    #[tactic(auto, unfolding(crate::specs::Sentences::other_value_text))]
    fn say_other_value<'c>(
        &self,
        text: &mut Vec<u8>,
        read: &'c Call<'c>,
        write: &'c Option<Call<'c>>,
    ) -> Result<(), Memory>
        ensures { OnOk result (text.new.items ≡ text.old.items
            ++ other_value_text self.now.key.now self.now.hall read.now write.now) }
    {
        let read = Piece::Line("  ", read);
        match write {
            None => {
                let least = Piece::Words("  (0, 0) is the tag before the first write\n");
                self.say(text, &[read, least, Piece::Due(None)])
            }
            Some(write) => {
                let same = Piece::Words("  the read has the tag of that write\n");
                let due = Piece::Due(write.action.written());
                self.say(text, &[read, Piece::Line("  ", write), same, due])
            }
        }
    }

    /// Says which calls break a rule of tags, and how.
    fn say_tag_reason(&self, text: &mut Vec<u8>, reason: &TagReason<'_>) -> Result<(), Memory>
        ensures { OnOk result (text.new.items
            ≡ text.old.items ++ broken_text self.now.key.now self.now.hall reason.now) }
    {
        match reason {
            TagReason::NoNote { call } => {
                let due = "  it was answered, so it should have a note\n";
                self.say(text, &[Piece::Line("  ", call), Piece::Words(due)])
            }
            TagReason::LeastTag { write } => {
                let due =
                    "  (0, 0) is the tag before the first write, so a write should be noted above it\n";
                self.say(text, &[Piece::Line("  ", write), Piece::Words(due)])
            }
            TagReason::SameTag { earlier, later } => {
                let due = Piece::Words("  two writes should not have one tag\n");
                self.say(
                    text,
                    &[Piece::Line("  ", earlier), Piece::Line("  ", later), due],
                )
            }
            TagReason::NotAbove { earlier, later } => self.say_not_above(text, earlier, later),
            TagReason::NoWrite { read, unnoted } => {
                self.say_no_write(text, read)?;
                self.say_unnoted(text, unnoted)
            }
            TagReason::OtherValue {
                read,
                write,
                unnoted,
            } => {
                self.say_other_value(text, read, write)?;
                self.say_unnoted(text, unnoted)
            }
        }
    }
}

/// What may have broken the rule.
fn hint(reason: &TagReason<'_>) -> &'static str
    ensures { result.now ≡ hint_text reason.now }
{
    match reason {
        TagReason::NoNote { .. } => {
            "an answer before the call was noted, or a log that lost a line"
        }
        TagReason::LeastTag { .. } => "a write that takes its tag without asking",
        TagReason::SameTag { .. } => {
            "a write that takes its tag without asking, quorums that do not meet, \
             stale replies that are counted, or a replica that forgets"
        }
        TagReason::NotAbove { .. } => {
            "a read without its write-back, quorums that do not meet, a tag taken without asking, \
             stale replies that are counted, or a replica that forgets"
        }
        TagReason::NoWrite { .. } => {
            "a value or a tag that no recorded write stored, or a log that lost a line"
        }
        TagReason::OtherValue { .. } => {
            "an answer from elsewhere, such as a value that was stored without its tag"
        }
    }
}

/// Says why the tags of the calls on the key aren't sound; the calls have their rows in the hall.
///
/// Without memory the text may end within a sentence.
pub fn append_tag_reason(
    text: &mut Vec<u8>,
    key: &Key,
    hall: &HallRows<'_>,
    reason: &TagReason<'_>,
) -> Result<(), Memory>
    ensures { OnOk result
        (text.new.items ≡ text.old.items ++ tag_reason_text key.now hall.now reason.now) }
{
    let subject = Subject { key, hall: *hall };
    subject.say_tag_reason(text, reason)?;
    append(text, "  hint: look for ")?;
    append(text, hint(reason))?;
    append(text, "\n")
}
