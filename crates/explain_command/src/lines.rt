//! The lines on keys, for people.
ghost use Rattle.std.specs.Prelude.{◌≡◌, ◌++◌, OnOk};
ghost use Rattle.explain_command.specs.Lines.{finding_line, found_text, left_out_line};
ghost use Rattle.explain_command.specs.Lines.{hint_line, left_out_words, missing_text};

use certificate_check::Verdict;
use cli::{append, append_number, append_verdict};
use explanations::append_rule;
use judged_keys::{Finding, Judged};
use sentences::append_quoted;
use tag::{Key, Memory};
use value_explanations::{append_doubt, append_value_fault};

/// Says what was found.
fn append_found(text: &mut Vec<u8>, finding: Finding) -> Result<(), Memory>
    ensures { OnOk result (text.new.items ≡ text.old.items ++ found_text finding) }
{
    match finding {
        Finding::Ordered | Finding::Sound => append_verdict(text, Verdict::Yes),
        Finding::OrderFault(fault) => append_verdict(text, Verdict::No(fault)),
        Finding::TagFault(rule) => {
            append(text, "no tags ")?;
            append_rule(text, rule)
        }
        Finding::Atomic => append(text, "atomic"),
        Finding::ValueFault(fault) => {
            append(text, "not atomic ")?;
            append_value_fault(text, fault)
        }
        Finding::Undecided(doubt) => {
            append(text, "undecided: ")?;
            append_doubt(text, doubt)
        }
    }
}

/// Adds the line that says what was found of the key. Out of memory, it may have added a
/// beginning of it; so it is with each function here.
#[tactic(auto, unfolding(crate::specs::Lines::finding_line))]
pub fn append_finding(text: &mut Vec<u8>, key: &Key, finding: Finding) -> Result<(), Memory>
    ensures { OnOk result (text.new.items ≡ text.old.items ++ finding_line key.now finding) }
{
    append(text, key.as_str())?;
    append(text, ": ")?;
    append_found(text, finding)?;
    append(text, "\n")
}

/// Adds the line that says that no key has the name, which stands there as a JSON text.
pub fn append_missing(text: &mut Vec<u8>, name: &str) -> Result<(), Memory>
    ensures { OnOk result (text.new.items ≡ text.old.items ++ missing_text name.now) }
{
    append(text, "no such key ")?;
    append_quoted(text, name)?;
    append(text, "\n")
}

/// Adds the line that says that values judge a history without notes, if that is to be said.
pub(crate) fn append_hint(text: &mut Vec<u8>, hinted: bool) -> Result<(), Memory>
    ensures { OnOk result (text.new.items ≡ text.old.items ++ hint_line hinted) }
{
    if hinted {
        append(
            text,
            "no call has a note; abd decide judges the history by its values\n",
        )
    } else {
        Ok(())
    }
}

/// The words before the number of refused keys without a reason.
fn left_out_words(judged: Judged) -> &'static str
    ensures { result.now ≡ left_out_words judged }
{
    match judged {
        Judged::Orders | Judged::Tags => "refused keys not explained: ",
        Judged::Values => "keys that are not atomic and not explained: ",
    }
}

/// Adds the line that says how many refused keys have no reason, if any has none.
pub fn append_left_out(text: &mut Vec<u8>, judged: Judged, count: usize) -> Result<(), Memory>
    ensures { OnOk result (text.new.items ≡ text.old.items ++ left_out_line judged count) }
{
    if count == 0 {
        return Ok(());
    }
    append_number(text, left_out_words(judged), count as u64)?;
    append(text, "; --most N says how many are\n")
}
