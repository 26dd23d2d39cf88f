//! The check of many keys' orders.
ghost use Rattle.std.specs.Prelude.{◌≡◌, ◌<◌, ◌≤◌, ◌+◌, length, map, IfOk, MatchResult};
ghost use Rattle.parallel_keys.specs.IndexVerdicts.{AreLists, AreOfWorker, AreVerdicts};
ghost use Rattle.parallel_keys.specs.Checks.{ArePaired, parts_in, orders_in};
ghost use Rattle.parallel_keys.specs.Shares.{AreUpToShare, IsShare};
ghost use Rattle.parallel_keys.specs.Workers.{MayFail, worker_limit};

use crate::checks::Checks;
use crate::error::CheckError;
use crate::gate::CheckGate;
use crate::scoped::{spawn, within};
use crate::share::{Share, share_of};
use crate::verdict_list::VerdictList;
use crate::weave_verdicts::weave;
use crate::workers::Workers;
use certificate_check::Verdict;
use recorder::Part;
use std::alloc::Global;
use std::sync::Wait;
use std::thread::{PromisedHandle, Scope, Threads};
use tag::{Memory, OpId};

/// The verdict on the part and the order at an index.
#[derive(Clone, Copy, Debug, PartialEq, Eq)]
pub struct KeyVerdict {
    pub index: usize,
    pub verdict: Verdict,
}

/// Starts a worker on a thread of its own.
fn start<'s, 'e: 's, G: CheckGate + Sync>(
    scope: &'s Scope<'s, &'e ()>,
    alloc: Global,
    share: Share<'e>,
    gate: &'e G,
) -> Result<PromisedHandle<Result<VerdictList, Memory>, Share<'e>>, CheckError>
    requires { IsShare share }
    ensures { IfOk result (λ started. started.promise ≡ share.entry) }
{
    let Share {
        checks,
        worker,
        workers,
    } = share;
    Ok(spawn(
        scope,
        share,
        move || -> Result<VerdictList, Memory>
            requires { ArePaired checks × (worker < workers) × (workers ≤ worker_limit) }
            ensures { IfOk result (λ verdicts. AreOfWorker (parts_in checks.entry)
                (orders_in checks.entry) worker workers verdicts) }
        { share_of(checks, worker, workers).check(alloc, gate) },
    )?)
}

/// Runs the first workers of a row, each on a thread of its own but worker 0, which is the caller's
/// thread; the lists of their verdicts, in order of worker. All are started before one is waited for.
fn run_workers<'s, 'e: 's, R: Threads, G: CheckGate + Sync>(
    rt: &R,
    scope: &'s Scope<'s, &'e ()>,
    alloc: Global,
    last: Share<'e>,
    gate: &'e G,
) -> Result<Vec<VerdictList>, CheckError>
    requires { IsShare last }
    ensures { MatchResult result
        (λ lists. AreUpToShare last.entry lists.items)
        (MayFail (last.entry.worker + 1)) }
{
    if last.worker == 0 {
        let mut lists = Vec::new(alloc);
        lists.push(last.check(alloc, gate)?)?;
        return Ok(lists);
    }
    let started = start(scope, alloc, last, gate)?;
    let before = share_of(last.checks, last.worker - 1, last.workers);
    let mut lists = run_workers(rt, scope, alloc, before, gate)?;
    lists.push(started.join(rt)?)?;
    Ok(lists)
}

/// The lists of the verdicts of so many workers, in order of worker.
pub(crate) fn run_all<R: Threads + Wait, G: CheckGate + Sync>(
    rt: &R,
    alloc: Global,
    checks: Checks<'_>,
    workers: Workers,
    gate: &G,
) -> Result<Vec<VerdictList>, CheckError>
    requires { ArePaired checks }
    ensures { MatchResult result (λ lists. AreLists (parts_in checks.entry) (orders_in checks.entry)
        workers lists.items) (MayFail workers) }
{
    let count = usize::from(workers.count());
    within(
        rt,
        |scope| -> Result<Vec<VerdictList>, CheckError>
            requires { ArePaired checks × (0 < count) × (count ≤ worker_limit) }
            ensures { MatchResult result (λ lists. AreLists (parts_in checks.entry)
                (orders_in checks.entry) count lists.items)
                (MayFail count) }
        { run_workers(rt, scope, alloc, share_of(checks, count - 1, count), gate) },
    )
}

/// Checks the order at each index against the part there; a verdict for each index, in order of index.
///
/// Worker w of k checks the indexes w, w + k, w + 2k and so on. Each worker has a thread of its own, all
/// at once; worker 0's is the caller's, so one worker starts no thread. The gate is called on the
/// worker's thread before an index is checked. `Memory` comes only where an allocation was refused, `Thread`
/// only where a thread couldn't be started, and so never with one worker; the threads have ended then
/// too.
pub fn check_all<R: Threads + Wait, G: CheckGate + Sync>(
    rt: &R,
    alloc: Global,
    parts: &[&Part<'_>],
    orders: &[&[OpId]],
    workers: Workers,
    gate: &G,
) -> Result<Vec<KeyVerdict>, CheckError>
    requires { length parts.now ≡ length orders.now }
    ensures { MatchResult result (λ verdicts. AreVerdicts (map (λ p. p.now) parts.now)
        (map (λ o. o.now) orders.now) verdicts.items) (MayFail workers) }
{
    let checks = Checks::of_pairs(parts, orders);
    let lists = run_all(rt, alloc, checks, workers, gate)?;
    Ok(weave(alloc, checks, &lists)?)
}
