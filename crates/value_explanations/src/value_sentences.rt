//! Why values give no order, in sentences.
ghost use Rattle.std.specs.Prelude.{◌≡◌, ◌++◌, OnOk};
ghost use Rattle.explanations.specs.Sentences.{response_line};
ghost use Rattle.value_explanations.specs.ValueSentences.{between_text, circle_text, early_text};
ghost use Rattle.value_explanations.specs.ValueSentences.{is_same, late_text, no_write_text, opposed_text};
ghost use Rattle.value_explanations.specs.ValueSentences.{precedence_text, said_line, side_text};
ghost use Rattle.value_explanations.specs.ValueSentences.{unsaid_line, value_reason_text};

use crate::pieces::append_op;
use crate::value_reasons::{SideCalls, ValueReason};
use explanations::{HallRows, append_call};
use recorder::Call;
use sentences::{append, append_number};
use tag::{Key, Memory};

/// Why two families that must precede each other have no order.
const CIRCLE: &str =
    "\n  in an order the reads of a value stand between its write and the next write, \
     so each of these two values would have to come before the other\n";

/// Says why two families that must precede each other have no order.
#[tactic(auto, unfolding(crate::specs::ValueSentences::circle_text))]
pub fn append_circle(text: &mut Vec<u8>) -> Result<(), Memory>
    ensures { OnOk result (text.new.items ≡ text.old.items ++ circle_text) }
{
    append(text, CIRCLE)
}

/// The line of the call's response.
fn answered_line(hall: &HallRows<'_>, call: &Call<'_>) -> u64
    ensures { result ≡ response_line hall.now call.now.response }
{
    match &call.response {
        Some(response) => hall.line_at(response.place),
        None => 0,
    }
}

/// Says that the earlier call was answered before the later one began.
#[tactic(auto, unfolding(crate::specs::ValueSentences::precedence_text))]
fn append_precedence(
    text: &mut Vec<u8>,
    hall: &HallRows<'_>,
    earlier: &Call<'_>,
    later: &Call<'_>,
) -> Result<(), Memory>
    ensures { OnOk result (text.new.items
        ≡ text.old.items ++ precedence_text hall.now earlier.now later.now) }
{
    append_op(text, "  call ", earlier.op)?;
    append_number(text, " was answered at line ", answered_line(hall, earlier))?;
    append_op(text, ", before call ", later.op)?;
    append_number(text, " began at line ", hall.line_at(later.invoked))
}

/// Whether the two are one call of a part.
fn is_same(a: &Call<'_>, b: &Call<'_>) -> bool
    ensures { result ≡ is_same a.now b.now }
{
    a.op.0 == b.op.0
}

/// What sentences are about: a key, and the rows of its hall.
#[derive(Clone, Copy)]
struct Subject<'k, 'h> {
    key: &'k Key,
    hall: HallRows<'h>,
}

impl Subject<'_, '_> {
    /// Says the call, a line.
    #[tactic(auto, unfolding(explanations::specs::Sentences::call_line))]
    fn append_line(&self, text: &mut Vec<u8>, call: &Call<'_>) -> Result<(), Memory>
        ensures { OnOk result (text.new.items
            ≡ text.old.items ++ said_line self.now.key.now self.now.hall call.now) }
    {
        append(text, "  ")?;
        append_call(text, self.key, &self.hall, call)?;
        append(text, "\n")
    }

    /// Says the call, unless it was said.
    fn append_unsaid(&self, text: &mut Vec<u8>, said: bool, call: &Call<'_>) -> Result<(), Memory>
        ensures { OnOk result (text.new.items
            ≡ text.old.items ++ unsaid_line self.now.key.now self.now.hall said call.now) }
    {
        if said {
            Ok(())
        } else {
            self.append_line(text, call)
        }
    }

    /// Says the calls of the side, each once.
    #[tactic(auto, unfolding(crate::specs::ValueSentences::side_text))]
    fn append_side(&self, text: &mut Vec<u8>, side: &SideCalls<'_>) -> Result<(), Memory>
        ensures { OnOk result (text.new.items
            ≡ text.old.items ++ side_text self.now.key.now self.now.hall side.now) }
    {
        let first = &side.first_ended;
        let last = &side.last_begun;
        self.append_line(text, &side.write)?;
        self.append_unsaid(text, is_same(first, &side.write), first)?;
        let said = is_same(last, &side.write) || is_same(last, first);
        self.append_unsaid(text, said, last)
    }

    /// Says that no call writes what the read answers.
    #[tactic(auto, unfolding(crate::specs::ValueSentences::no_write_text))]
    fn say_no_write(&self, text: &mut Vec<u8>, read: &Call<'_>) -> Result<(), Memory>
        ensures { OnOk result (text.new.items
            ≡ text.old.items ++ no_write_text self.now.key.now self.now.hall read.now) }
    {
        self.append_line(text, read)?;
        append(text, "  no call on ")?;
        append(text, self.key.as_str())?;
        append(text, " writes what it answers\n")
    }

    /// Says that the read was answered before the write began.
    #[tactic(auto, unfolding(crate::specs::ValueSentences::early_text))]
    fn say_early(&self, text: &mut Vec<u8>, read: &Call<'_>, write: &Call<'_>) -> Result<(), Memory>
        ensures { OnOk result (text.new.items
            ≡ text.old.items ++ early_text self.now.key.now self.now.hall read.now write.now) }
    {
        self.append_line(text, read)?;
        self.append_line(text, write)?;
        append_precedence(text, &self.hall, read, write)?;
        append(text, ", and no earlier write has its value\n")
    }

    /// Says that the read should have answered a value.
    #[tactic(auto, unfolding(crate::specs::ValueSentences::late_text))]
    fn say_late(
        &self,
        text: &mut Vec<u8>,
        read: &Call<'_>,
        earlier: &Call<'_>,
    ) -> Result<(), Memory>
        ensures { OnOk result (text.new.items
            ≡ text.old.items ++ late_text self.now.key.now self.now.hall read.now earlier.now) }
    {
        self.append_line(text, earlier)?;
        self.append_line(text, read)?;
        append_precedence(text, &self.hall, earlier, read)?;
        append_op(text, ", so call ", read.op)?;
        append(text, " should have answered a value\n")
    }

    /// Says that each of the two families must precede the other.
    #[tactic(auto, unfolding(crate::specs::ValueSentences::opposed_text))]
    fn say_opposed(
        &self,
        text: &mut Vec<u8>,
        one: &SideCalls<'_>,
        other: &SideCalls<'_>,
    ) -> Result<(), Memory>
        ensures { OnOk result (text.new.items
            ≡ text.old.items ++ opposed_text self.now.key.now self.now.hall one.now other.now) }
    {
        self.append_side(text, one)?;
        self.append_side(text, other)?;
        append_precedence(text, &self.hall, &one.first_ended, &other.last_begun)?;
        append(text, "\n")?;
        append_precedence(text, &self.hall, &other.first_ended, &one.last_begun)?;
        append(text, CIRCLE)
    }

    /// Says that each of the writers was overwritten before the read began.
    #[tactic(auto, unfolding(crate::specs::ValueSentences::between_text))]
    fn say_overwritten(
        &self,
        text: &mut Vec<u8>,
        read: &Call<'_>,
        first: &Call<'_>,
        second: &Call<'_>,
        between: &Call<'_>,
    ) -> Result<(), Memory>
        ensures { OnOk result (text.new.items ≡ text.old.items ++ between_text
            self.now.key.now self.now.hall read.now first.now second.now between.now) }
    {
        self.append_line(text, read)?;
        self.append_line(text, first)?;
        self.append_line(text, second)?;
        self.append_line(text, between)?;
        append_op(text, "  call ", between.op)?;
        let words = " began after these writes were answered, and was answered before call ";
        append_op(text, words, read.op)?;
        append(text, " began\n")
    }

    /// Says which calls show the fault, and how.
    fn say_reason(&self, text: &mut Vec<u8>, reason: &ValueReason<'_>) -> Result<(), Memory>
        ensures { OnOk result (text.new.items
            ≡ text.old.items ++ value_reason_text self.now.key.now self.now.hall reason.now) }
    {
        match reason {
            ValueReason::NoWrite { read } => self.say_no_write(text, read),
            ValueReason::Early { read, write } => self.say_early(text, read, write),
            ValueReason::LateNothing { read, earlier } => self.say_late(text, read, earlier),
            ValueReason::Opposed { one, other } => self.say_opposed(text, one, other),
            ValueReason::Overwritten {
                read,
                first,
                second,
                between,
            } => self.say_overwritten(text, read, first, second, between),
        }
    }
}

/// Says why the values of the calls on the key give no order; the hall has the rows of the calls.
///
/// Without memory the text may end within a sentence.
pub fn append_value_reason(
    text: &mut Vec<u8>,
    key: &Key,
    hall: &HallRows<'_>,
    reason: &ValueReason<'_>,
) -> Result<(), Memory>
    ensures { OnOk result
        (text.new.items ≡ text.old.items ++ value_reason_text key.now hall.now reason.now) }
{
    let subject = Subject { key, hall: *hall };
    subject.say_reason(text, reason)
}
