//! The keys that one worker checks.
ghost use Rattle.std.specs.Prelude.{◌≡◌};

use crate::checks::Checks;
use crate::gate::CheckGate;
use crate::verdict_list::VerdictList;
use std::alloc::Global;
use std::thread::Promise;
use tag::Memory;

/// The keys of one of several workers: those at its number, at its number and so many workers more,
/// and so on. As a promise it says what the worker's list of verdicts is.
#[derive(Clone, Copy)]
pub struct Share<'a> {
    pub checks: Checks<'a>,
    pub worker: usize,
    pub workers: usize,
}

/// The share of that worker.
pub(crate) fn share_of(checks: Checks<'_>, worker: usize, workers: usize) -> Share<'_>
    ensures { result ≡ record {
      checks = checks.entry;
      worker = worker;
      workers = workers;
    } }
{
    Share {
        checks,
        worker,
        workers,
    }
}

impl<'a> Promise<Result<VerdictList, Memory>> for Share<'a> {
    ghost use Rattle.std.specs.Prelude.{IfOk};
    ghost use Rattle.parallel_keys.specs.Shares.{AreOfShare};

    ghost kept_by = { λ share result. IfOk result (λ verdicts. AreOfShare share verdicts) };
}

impl<'a> Share<'a> {
    ghost use Rattle.std.specs.Prelude.{IfOk};
    ghost use Rattle.parallel_keys.specs.Shares.{AreOfShare, IsShare};

    /// Checks the orders of the share's keys, in order of index.
    pub(crate) fn check<G: CheckGate>(self, alloc: Global, gate: &G) -> Result<VerdictList, Memory>
        requires { IsShare self }
        ensures { IfOk result (λ verdicts. AreOfShare self.entry verdicts) }
    {
        let mut verdicts = VerdictList::new(alloc);
        let mut index = self.worker;
        while index < self.checks.len() {
            gate.at(index);
            verdicts.push(self.checks.check(alloc, index)?)?;
            index += self.workers;
        }
        Ok(verdicts)
    }
}
