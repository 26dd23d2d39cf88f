//! The explanation of keys: what `abd explain` says of them.
ghost use Rattle.std.specs.Prelude.{◌≡◌, ◌++◌, List, OnOk, ℕ};
ghost use Rattle.judged_keys.specs.Findings.{IsSo};
ghost use Rattle.judged_keys.specs.Halls.{HasLinesOfEach};
ghost use Rattle.judged_keys.specs.Judgements.{judgement_of};
ghost use Rattle.explain_command.specs.Explained.{ExplainsKeys, GivesReason, IsExplained};
ghost use Rattle.explain_command.specs.Explained.{explained_words, selection_of};

use crate::lines::{append_finding, append_hint, append_left_out, append_missing};
use crate::reason::{append_reason, reason_of};
use cli::Made;
use history_file::NumberedHistories;
use judged_keys::{JudgedKey, Presentation, Selection, Wording, hall_of, tell_keys};
use parallel_keys::KeyToCheck;
use std::alloc::Global;
use tag::Memory;

/// Which keys are explained.
#[derive(Clone, Copy, Debug)]
pub struct Explaining<'a> {
    pub selection: Selection<'a>,
}

/// Says why the key is refused, if it is.
fn append_why(
    alloc: Global,
    text: &mut Vec<u8>,
    numbered: &NumberedHistories,
    key: &JudgedKey<'_>,
) -> Result<(), Memory>
    requires lines { HasLinesOfEach numbered.now }
    requires found { let j = judgement_of key.now in IsSo j.one j.finding }
    ensures { OnOk result ((why : List ℕ) × GivesReason numbered.now (judgement_of key.now) why
        × (text.new.items ≡ text.old.items ++ why)) }
{
    let Some(reason) = reason_of(alloc, key)? else {
        return Ok(());
    };
    let hall = hall_of(numbered, key.one.key);
    append_reason(text, key.one.key, &hall, &reason)
}

/// Says for people what was found of the key; and why, if it is refused and `explained`.
pub fn append_explained(
    alloc: Global,
    text: &mut Vec<u8>,
    numbered: &NumberedHistories,
    key: &JudgedKey<'_>,
    explained: bool,
) -> Result<(), Memory>
    requires lines { HasLinesOfEach numbered.now }
    requires found { let j = judgement_of key.now in IsSo j.one j.finding }
    ensures { OnOk result ((said : List ℕ)
        × IsExplained numbered.now explained (judgement_of key.now) said
        × (text.new.items ≡ text.old.items ++ said)) }
{
    append_finding(text, key.one.key, key.finding)?;
    if explained {
        append_why(alloc, text, numbered, key)
    } else {
        Ok(())
    }
}

impl Wording for Explaining<'_> {
    ghost selected = { selection_of };

    ghost words = { explained_words };

    fn selection(&self) -> Selection<'_> {
        self.selection
    }

    fn say(
        &self,
        alloc: Global,
        text: &mut Vec<u8>,
        numbered: &NumberedHistories,
        key: &JudgedKey<'_>,
        explained: bool,
    ) -> Result<(), Memory> {
        append_explained(alloc, text, numbered, key, explained)
    }

    fn say_missing(&self, text: &mut Vec<u8>, name: &str) -> Result<(), Memory> {
        append_missing(text, name)
    }

    fn say_left_out(&self, text: &mut Vec<u8>, count: usize) -> Result<(), Memory> {
        append_left_out(text, self.selection.judged, count)
    }
}

/// The keys that are selected are explained. Of each stands the line that says what was found, on its order
/// that of `abd check`, on its tags `KEY: yes` or `KEY: no tags RULE`; below the first refused ones, up to
/// that many, why: each call that shows the fault or breaks the rule, with the lines of the history on which
/// it stands. Then it is said which of the names that were given no key has, and how many refused keys have
/// no reason there, if any has none. If tags are judged and no call of the history has a note, a last line says
/// what judges it.
impl Presentation for Explaining<'_> {
    ghost Presents = { ExplainsKeys };

    fn present(
        &self,
        alloc: Global,
        numbered: &NumberedHistories,
        keys: Vec<KeyToCheck<'_>>,
    ) -> Made<'static> {
        let hinted = self.selection.judges_no_notes(keys.as_slice());
        let mut outcome = tell_keys(alloc, self, numbered, keys)?;
        append_hint(&mut outcome.text, hinted)?;
        Ok(outcome)
    }
}
