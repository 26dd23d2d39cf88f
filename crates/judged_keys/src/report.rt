//! What is said of keys, one after another.
ghost use Rattle.std.specs.Prelude.{◌≡◌, ◌∷◌, ◌++◌, [], ◌<◌, List, OnOk, IfOk, false, map};
ghost use Rattle.parallel_keys.specs.KeysToCheck.{what_of};
ghost use Rattle.judged_keys.specs.Findings.{IsFinding};
ghost use Rattle.judged_keys.specs.Halls.{HasLinesOfEach};
ghost use Rattle.judged_keys.specs.Judgements.{AreJudged, Judgement, judgement_of};
ghost use Rattle.judged_keys.specs.Tellings.{IsReportOf};

use crate::finding::{JudgedKey, judge};
use crate::wording::Wording;
use history_file::NumberedHistories;
use parallel_keys::KeyToCheck;
use std::alloc::Global;
use tag::Memory;

/// What is said of keys so far.
#[derive(Debug, Drop)]
pub(crate) struct Report {
    pub(crate) text: Vec<u8>,
    /// How many keys are refused.
    pub(crate) refused: usize,
    /// Whether a key is undecided.
    pub(crate) undecided: bool,
}

impl Report {
    /// Nothing said.
    fn new(alloc: Global) -> Report
        ensures text { result.text.items ≡ [] }
        ensures refused { result.refused ≡ 0 }
        ensures undecided { result.undecided ≡ false }
    {
        Report {
            text: Vec::new(alloc),
            refused: 0,
            undecided: false,
        }
    }

    /// Says what was found of one key more.
    fn say<W: Wording>(
        &mut self,
        alloc: Global,
        wording: &W,
        numbered: &NumberedHistories,
        key: &JudgedKey<'_>,
    ) -> Result<(), Memory>
        requires lines { HasLinesOfEach numbered.now }
        requires found { let j = judgement_of key.now in
            IsFinding (W.selected wording.now).judged j.one j.finding }
        requires room { self.old.refused < usize.MAX }
        ensures { OnOk result ((js : List Judgement)
            → IsReportOf (W.words wording.now) numbered.now (W.selected wording.now).most js self.old
            → IsReportOf (W.words wording.now) numbered.now (W.selected wording.now).most
            (js ++ judgement_of key.now ∷ []) self.new) }
    {
        let explained = self.refused < usize::from(wording.selection().most);
        wording.say(alloc, &mut self.text, numbered, key, explained)?;
        self.refused += usize::from(key.finding.is_refused());
        self.undecided |= key.finding.is_undecided();
        Ok(())
    }

    /// Judges these keys, each once, and says what was found.
    pub(crate) fn of_keys<W: Wording>(
        alloc: Global,
        wording: &W,
        numbered: &NumberedHistories,
        keys: &[KeyToCheck<'_>],
    ) -> Result<Report, Memory>
        requires { HasLinesOfEach numbered.now }
        ensures { IfOk result (λ report. (js : List Judgement)
            × AreJudged (W.selected wording.now).judged (map what_of keys.now) js
            × IsReportOf (W.words wording.now) numbered.now (W.selected wording.now).most js report) }
    {
        let judged = wording.selection().judged;
        let mut report = Report::new(alloc);
        for one in keys {
            let finding = judge(alloc, judged, one)?;
            report.say(alloc, wording, numbered, &JudgedKey { one, finding })?;
        }
        Ok(report)
    }
}
