//! Verdicts in little room.
ghost use Rattle.std.specs.Prelude.{◌≡◌, ◌<◌, ◌≤◌, ◌∷◌, ◌++◌, [], Some, length, OnOk};
ghost use Rattle.std.specs.List.{slice_get};
ghost use Rattle.parallel_keys.specs.VerdictLists.{verdict_of};

use certificate_check::{Fault, Verdict};
use std::alloc::Global;
use std::marker::Model;
use tag::Memory;

/// Verdicts in order. A yes takes 8 bytes, a quarter of a `Verdict`, and a no its fault beside them.
#[derive(Drop)]
pub struct VerdictList {
    /// Of each verdict 0 if it is a yes, else the place of its fault, from 1.
    marks: Vec<usize>,
    faults: Vec<Fault>,
}

impl Model for VerdictList {
    ghost use Rattle.std.specs.Prelude.{List};
    ghost use Rattle.certificate_check.specs.declared.verdict.Verdict.{Verdict};

    ghost Value = { List Verdict };

    ghost use Rattle.parallel_keys.specs.VerdictLists.{HaveFaults, verdicts_in};

    ghost view = { verdicts_in };

    ghost invariant = { HaveFaults };
}

/// The verdict of that mark.
fn verdict_of(faults: &[Fault], mark: usize) -> Verdict
    requires { mark ≤ length faults.now }
    ensures { result ≡ verdict_of faults.now mark }
{
    if mark == 0 {
        Verdict::Yes
    } else {
        Verdict::No(faults[mark - 1])
    }
}

impl VerdictList {
    /// No verdict.
    pub(crate) fn new(alloc: Global) -> VerdictList
        ensures { result ≡ [] }
    {
        VerdictList {
            marks: Vec::new(alloc),
            faults: Vec::new(alloc),
        }
    }

    /// Adds a yes after the others.
    fn push_yes(&mut self) -> Result<(), Memory>
        ensures { OnOk result (self.new ≡ self.old ++ Verdict.Yes ∷ []) }
    {
        self.marks.push(0)?;
        Ok(())
    }

    /// Adds a no after the others, for that fault.
    fn push_no(&mut self, fault: Fault) -> Result<(), Memory>
        ensures { OnOk result (self.new ≡ self.old ++ Verdict.No fault ∷ []) }
    {
        self.faults.push(fault)?;
        let mark = self.faults.len();
        self.marks.push(mark)?;
        Ok(())
    }

    /// Adds a verdict after the others.
    pub(crate) fn push(&mut self, verdict: Verdict) -> Result<(), Memory>
        ensures { OnOk result (self.new ≡ self.old ++ verdict ∷ []) }
    {
        match verdict {
            Verdict::Yes => self.push_yes(),
            Verdict::No(fault) => self.push_no(fault),
        }
    }

    /// The verdict at that place.
    pub(crate) fn get(&self, place: usize) -> Verdict
        requires { place < length self.now }
        ensures { slice_get self.now place ≡ Some result }
    {
        verdict_of(self.faults.as_slice(), self.marks[place])
    }
}
