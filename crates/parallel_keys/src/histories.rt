//! The check of the keys of recorded histories.
ghost use Rattle.std.specs.Prelude.{map, IfOk, MatchResult};
ghost use Rattle.parallel_keys.specs.CheckedKeys.{AreDistinct, all_parts, checked_keys};
ghost use Rattle.parallel_keys.specs.Histories.{AreHallParts, AreOn, AreVerdictsOnHistories, AreVerdictsOnHistory};
ghost use Rattle.parallel_keys.specs.KeysToCheck.{checked_in};
ghost use Rattle.parallel_keys.specs.Workers.{MayFail};

use crate::check::run_all;
use crate::checks::Checks;
use crate::collect_keys::CollectedKeys;
use crate::error::CheckError;
use crate::gate::CheckGate;
use crate::key_list::KeyList;
use crate::weave_verdicts::weave_keys;
use crate::workers::Workers;
use certificate_check::Verdict;
use recorder::{Histories, History, KeyOrder, Parts};
use std::alloc::Global;
use std::sync::Wait;
use std::thread::Threads;
use tag::{Key, Memory};

/// Checks the keys' orders; each key with its verdict, in their order.
fn check_keys<R: Threads + Wait, G: CheckGate + Sync>(
    rt: &R,
    alloc: Global,
    keys: KeyList<'_>,
    workers: Workers,
    gate: &G,
) -> Result<Vec<(Key, Verdict)>, CheckError>
    ensures { MatchResult result (λ keyed. AreOn (checked_in keys.entry) keyed.items)
        (MayFail workers) }
{
    let lists = run_all(rt, alloc, Checks::of_keys(keys), workers, gate)?;
    Ok(weave_keys(alloc, keys, &lists)?)
}

/// Checks the keys of these parts, in order, and then those that only the orders have.
fn check_parts<R: Threads + Wait, G: CheckGate + Sync>(
    rt: &R,
    alloc: Global,
    parts: &[Parts<'_>],
    orders: &[KeyOrder],
    workers: Workers,
    gate: &G,
) -> Result<Vec<(Key, Verdict)>, CheckError>
    requires { AreDistinct orders.now }
    ensures { MatchResult result (λ keyed.
        AreOn (checked_keys (all_parts (map (λ p. p.entries) parts.now)) orders.now) keyed.items)
        (MayFail workers) }
{
    let keys = CollectedKeys::new(alloc, parts, orders)?;
    check_keys(rt, alloc, keys.list(), workers, gate)
}

/// Checks orders of the keys of a history: each key with its verdict, first the history's keys, first
/// seen first, and then those that only the orders have, in their order there.
///
/// A key without an order is checked with the empty one, and a key without a call against the part
/// without a call. No two of the orders are of one key. Workers, gate and errors are those of
/// `check_all`, an index being the key's place in the answer.
pub fn check_history<R: Threads + Wait, G: CheckGate + Sync>(
    rt: &R,
    alloc: Global,
    history: &History,
    orders: &[KeyOrder],
    workers: Workers,
    gate: &G,
) -> Result<Vec<(Key, Verdict)>, CheckError>
    requires { AreDistinct orders.now }
    ensures { MatchResult result
        (λ keyed. AreVerdictsOnHistory history.now.rows orders.now keyed.items)
        (MayFail workers) }
{
    let parts = [history.parts()?];
    check_parts(rt, alloc, &parts, orders, workers, gate)
}

/// The parts of each history's keys, the histories in their order, in each the keys first seen first.
pub fn hall_parts(alloc: Global, histories: &[History]) -> Result<Vec<Parts<'_>>, Memory>
    ensures { IfOk result (λ parts. AreHallParts histories.now (map (λ p. p.entries) parts.items)) }
{
    let mut parts = Vec::with_capacity(alloc, histories.len())?;
    for history in histories {
        parts.push(history.parts()?)?;
    }
    Ok(parts)
}

/// Checks orders of histories by hall as `check_history` does those of one: first the keys of hall 0,
/// then those of hall 1 and so on, in each first seen first, and then those that only the orders have.
pub fn check_histories<R: Threads + Wait, G: CheckGate + Sync>(
    rt: &R,
    alloc: Global,
    histories: &Histories,
    orders: &[KeyOrder],
    workers: Workers,
    gate: &G,
) -> Result<Vec<(Key, Verdict)>, CheckError>
    requires { AreDistinct orders.now }
    ensures { MatchResult result
        (λ keyed. AreVerdictsOnHistories histories.now.halls orders.now keyed.items)
        (MayFail workers) }
{
    let parts = hall_parts(alloc, histories.halls())?;
    check_parts(rt, alloc, &parts, orders, workers, gate)
}
