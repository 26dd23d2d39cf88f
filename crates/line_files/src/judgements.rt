//! Judgements of lines, as threads made them side by side.
ghost use Rattle.std.specs.Prelude.{◌≡◌, [], true};

use counted_devices::Judgement;
use std::alloc::Global;
use std::marker::Model;
use std::mem;

/// What lines show, in their order.
///
/// Each chunk's lines fill a run of their own; what is in a run isn't moved.
#[derive(Drop)]
pub struct Judgements<T, L> {
    runs: Vec<Vec<Judgement<T, L>>>,
}

impl<T, L> Model for Judgements<T, L> {
    ghost use Rattle.std.specs.Prelude.{List};
    ghost use Rattle.std.specs.List.{flat_map};
    ghost use Rattle.counted_devices.specs.declared.judgement.Judgement.{Judgement};

    ghost Value = { List (Judgement T L) };

    ghost view = { λ j. flat_map (λ run. run.items) j.runs.items };
}

impl<T: Drop, L: Drop> Judgements<T, L> {
    ghost use Rattle.std.specs.List.{flat_map};

    /// Nothing is shown yet.
    pub(crate) fn new(alloc: Global) -> Judgements<T, L>
        ensures { result ≡ [] }
    {
        Judgements {
            runs: Vec::new(alloc),
        }
    }

    /// What the runs hold, one after the other.
    pub(crate) fn of(runs: Vec<Vec<Judgement<T, L>>>) -> Judgements<T, L>
        ensures { result ≡ flat_map (λ run. run.items) runs.items }
    {
        Judgements { runs }
    }

    /// Whether there is no run.
    pub(crate) fn is_empty(&self) -> bool
        ensures { result ≡ true → self.now ≡ [] }
    {
        self.runs.is_empty()
    }

    /// What is shown, after which nothing is.
    pub(crate) fn take(&mut self) -> Judgements<T, L>
        ensures { result ≡ self.old }
    {
        let alloc = *self.runs.allocator();
        Judgements {
            runs: mem::replace(&mut self.runs, Vec::new(alloc)),
        }
    }

    /// The runs.
    pub(crate) fn into_runs(self) -> Vec<Vec<Judgement<T, L>>>
        ensures { self ≡ flat_map (λ run. run.items) result.items }
    {
        let Judgements { runs } = self;
        runs
    }
}
