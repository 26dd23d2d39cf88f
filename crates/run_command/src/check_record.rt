//! The check of the record and the orders that a closed store leaves.
ghost use Rattle.std.specs.Prelude.{◌≡◌, filter, length, IfOk};
ghost use Rattle.parallel_keys.specs.CheckedKeys.{AreDistinct};
ghost use Rattle.run_command.specs.RecordVerdicts.{IsFirstNo, IsFirstNoOfRecord, is_yes};

use certificate_check::{Fault, Verdict};
use load_run::Watch;
use parallel_keys::{CheckError, NoGate, Workers, check_histories};
use recorder::{Histories, KeyOrder};
use std::alloc::Global;
use std::sync::Wait;
use std::thread::Threads;
use tag::{Key, Memory};

/// A key whose order is refused.
#[derive(Debug, Drop)]
pub struct RefusedKey {
    /// The key.
    pub key: Key,
    /// What is wrong with its order.
    pub fault: Fault,
}

/// The first of the verdicts that is a no.
#[tactic(auto, using(cli::proofs::Told::yes_more, crate::proofs::Verdicts::first_here))]
fn first_no(verdicts: &[(Key, Verdict)]) -> Result<Option<RefusedKey>, Memory>
    ensures { IfOk result (IsFirstNo verdicts.now) }
{
    for told in verdicts {
        match told.1 {
            Verdict::Yes => {}
            Verdict::No(fault) => {
                let key = told.0.copy()?;
                return Ok(Some(RefusedKey { key, fault }));
            }
        }
    }
    Ok(None)
}

/// Whether the verdict on the key is yes.
fn says_yes(told: &(Key, Verdict)) -> bool
    ensures { result ≡ is_yes told.now.1 }
{
    match told.1 {
        Verdict::Yes => true,
        Verdict::No(_) => false,
    }
}

/// On how many keys the verdict is yes.
fn count_yes(verdicts: &[(Key, Verdict)]) -> usize
    ensures { result ≡ length (filter (λ told. is_yes told.1) verdicts.now) }
{
    verdicts.iter().filter(|told| says_yes(told)).count()
}

/// The first key whose order is refused, the keys of hall 0 first, then those of hall 1, and so on; none
/// where each key of every hall has an order of its calls. The watch is told how many are.
pub fn first_refused<R: Threads + Wait>(
    rt: &R,
    alloc: Global,
    histories: &Histories,
    orders: &[KeyOrder],
    watch: &impl Watch,
) -> Result<Option<RefusedKey>, CheckError>
    requires { AreDistinct orders.now }
    ensures { IfOk result (IsFirstNoOfRecord histories.now.halls orders.now) }
{
    let Some(workers) = Workers::new(1) else {
        unreachable!()
    };
    let verdicts = check_histories(rt, alloc, histories, orders, workers, &NoGate)?;
    watch.checked(verdicts.len(), count_yes(verdicts.as_slice()));
    Ok(first_no(verdicts.as_slice())?)
}
