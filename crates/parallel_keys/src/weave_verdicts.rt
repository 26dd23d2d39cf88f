//! The workers' verdicts, put in order of index.
ghost use Rattle.std.specs.Prelude.{◌≡◌, ◌<◌, length, map, IfOk};
ghost use Rattle.parallel_keys.specs.Checks.{ArePaired, parts_in, orders_in};
ghost use Rattle.parallel_keys.specs.Histories.{AreOn};
ghost use Rattle.parallel_keys.specs.IndexVerdicts.{AreVerdicts, AreLists, IsVerdictAt};
ghost use Rattle.parallel_keys.specs.KeysToCheck.{checked_in};

use crate::check::KeyVerdict;
use crate::checks::Checks;
use crate::key_list::KeyList;
use crate::verdict_list::VerdictList;
use certificate_check::Verdict;
use std::alloc::Global;
use tag::{Key, Memory};

/// The verdict at index i: number i / k of worker i % k.
fn verdict_at(checks: Checks<'_>, lists: &[VerdictList], index: usize) -> Verdict
    requires some { 0 < length lists.now }
    requires lists { AreLists (parts_in checks) (orders_in checks) (length lists.now)
        lists.now }
    requires below { index < length (parts_in checks) }
    ensures { IsVerdictAt (parts_in checks.entry) (orders_in checks.entry) index result }
{
    let workers = lists.len();
    let own = &lists[index % workers];
    own.get(index / workers)
}

/// The verdicts in order of index.
pub(crate) fn weave(
    alloc: Global,
    checks: Checks<'_>,
    lists: &[VerdictList],
) -> Result<Vec<KeyVerdict>, Memory>
    requires paired { ArePaired checks }
    requires some { 0 < length lists.now }
    requires lists { AreLists (parts_in checks) (orders_in checks) (length lists.now)
        lists.now }
    ensures { IfOk result
        (λ verdicts. AreVerdicts (parts_in checks.entry) (orders_in checks.entry) verdicts.items) }
{
    let count = checks.len();
    let mut verdicts = Vec::with_capacity(alloc, count)?;
    for index in 0..count {
        let verdict = verdict_at(checks, lists, index);
        verdicts.push(KeyVerdict { index, verdict })?;
    }
    Ok(verdicts)
}

/// The keys in order, each with its verdict.
pub(crate) fn weave_keys(
    alloc: Global,
    keys: KeyList<'_>,
    lists: &[VerdictList],
) -> Result<Vec<(Key, Verdict)>, Memory>
    requires some { 0 < length lists.now }
    requires lists { AreLists (map (λ one. one.part) (checked_in keys))
        (map (λ one. one.order) (checked_in keys)) (length lists.now)
        lists.now }
    ensures { IfOk result (λ keyed. AreOn (checked_in keys.entry) keyed.items) }
{
    let checks = Checks::of_keys(keys);
    let count = keys.len();
    let mut keyed = Vec::with_capacity(alloc, count)?;
    for index in 0..count {
        keyed.push((keys.key(index).copy()?, verdict_at(checks, lists, index)))?;
    }
    Ok(keyed)
}
