//! The words in which it is told what was found of keys.
ghost use Rattle.std.specs.Prelude.{◌≡◌, ◌++◌, List, OnOk, ℕ};
ghost use Rattle.history_file.specs.declared.numbered_format.NumberedHistories.{NumberedHistories};
ghost use Rattle.judged_keys.specs.Findings.{IsFinding};
ghost use Rattle.judged_keys.specs.Halls.{HasLinesOfEach};
ghost use Rattle.judged_keys.specs.Judgements.{judgement_of};
ghost use Rattle.judged_keys.specs.Words.{Words};
ghost use Rattle.judged_keys.specs.declared.selection.Selection.{Selection};

use crate::finding::JudgedKey;
use crate::selection::Selection;
use history_file::NumberedHistories;
use std::alloc::Global;
use tag::Memory;

/// The words in which it is told what was found of keys, and of which keys that is told.
///
/// Each of its functions adds to a text. Out of memory, it may have added a beginning of that.
pub trait Wording {
    /// Which keys are judged.
    ghost selected: { Self → Selection };

    /// What is said of them.
    ghost words: { Self → Words };

    /// Which keys are judged, by what, and how many refused ones have their reason said.
    fn selection(&self) -> Selection<'_>
        ensures { result ≡ selected self.now };

    /// Says what was found of the key of these histories, and why if it is refused and `explained`.
    fn say(
        &self,
        alloc: Global,
        text: &mut Vec<u8>,
        numbered: &NumberedHistories,
        key: &JudgedKey<'_>,
        explained: bool,
    ) -> Result<(), Memory>
        requires lines { HasLinesOfEach numbered.now }
        requires found { let j = judgement_of key.now in
            IsFinding (selected self.now).judged j.one j.finding }
        ensures { OnOk result ((said : List ℕ)
            × (words self.now).Says numbered.now explained (judgement_of key.now) said
            × (text.new.items ≡ text.old.items ++ said)) };

    /// Says that no key has the name.
    fn say_missing(&self, text: &mut Vec<u8>, name: &str) -> Result<(), Memory>
        ensures { OnOk result
            (text.new.items ≡ text.old.items ++ (words self.now).missing name.now) };

    /// Says how many refused keys have no reason said, if any has none.
    fn say_left_out(&self, text: &mut Vec<u8>, count: usize) -> Result<(), Memory>
        ensures { OnOk result
            (text.new.items ≡ text.old.items ++ (words self.now).left_out count) };
}
