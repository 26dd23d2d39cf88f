//! How a replica stops, or starts, in each hall of a store.
ghost use Rattle.std.specs.Prelude.{◌≡◌, ◌<◌, ◌≤◌, ◌+◌, ◌⊎◌, Err, None, length, IfErr, IfOk, OnOk};
ghost use Rattle.hall_lock.specs.Turns.{IsStepOfNoClient};
ghost use Rattle.node_threads.specs.Stores.{AllTakeOrNeedNot, idle_refusal, replica_count, switch_step};

use crate::config::StoreConfig;
use hall_lock::FreePass;
use std::sync::{Mutex, Wait};
use tag::{Memory, ReplicaId};
use world_steps::{Refusal, Step};

/// Whether a replica is to be down or up.
#[derive(Clone, Copy, Debug, PartialEq, Eq)]
pub(crate) enum Wanted {
    /// Down: it stops.
    Down,
    /// Up: it starts.
    Up,
}

/// How many halls took the step, and how many had nothing to do.
#[derive(Clone, Copy, Debug, PartialEq, Eq)]
struct Tally {
    took: usize,
    idle: usize,
}

impl Wanted {
    /// The step that makes it so.
    fn step(self, replica: ReplicaId) -> Step
        ensures step { result ≡ switch_step self replica }
        ensures free { IsStepOfNoClient result }
    {
        match self {
            Wanted::Down => Step::StopReplica { replica },
            Wanted::Up => Step::StartReplica { replica },
        }
    }

    /// Why a hall refuses that step where it is so already.
    fn idle(self) -> Refusal
        ensures { result ≡ idle_refusal self }
    {
        match self {
            Wanted::Down => Refusal::ReplicaDown,
            Wanted::Up => Refusal::ReplicaUp,
        }
    }
}

/// Has the replica stop, or start, in each of the store's halls. If each had nothing to do, that is the
/// answer; a number that isn't below the count of replicas is refused before any step.
pub(crate) fn switch_replica<R: Wait>(
    rt: &R,
    config: &StoreConfig,
    roots: &[Mutex<FreePass>],
    replica: ReplicaId,
    wanted: Wanted,
) -> Result<(), Refusal>
    requires { length roots.now ≡ config.now.halls }
    ensures lacks { replica_count config.now ≤ replica → result ≡ Err Refusal.NoSuchReplica }
    ensures each { OnOk result (AllTakeOrNeedNot config.now.halls (switch_step wanted replica)) }
    ensures why { replica < replica_count config.now
        → IfErr result (λ why. (why ≡ idle_refusal wanted) ⊎ (why ≡ Refusal.Memory)) }
{
    if replica.get() >= config.world.replicas() {
        return Err(Refusal::NoSuchReplica);
    }
    match switch_in_each(rt, roots, replica, wanted) {
        Ok(tally) if tally.took == 0 => Err(wanted.idle()),
        Ok(_) => Ok(()),
        Err(_) => Err(Refusal::Memory),
    }
}

/// Has the replica stop, or start, in each of these halls, the first first. `Memory` comes at the first hall
/// where an allocation failed; those before it are done.
fn switch_in_each<R: Wait>(
    rt: &R,
    roots: &[Mutex<FreePass>],
    replica: ReplicaId,
    wanted: Wanted,
) -> Result<Tally, Memory>
    ensures all { IfOk result (λ tally. tally.took + tally.idle ≡ length roots.now) }
    ensures each { OnOk result
        (AllTakeOrNeedNot (length roots.now) (switch_step wanted replica)) }
{
    let mut tally = Tally { took: 0, idle: 0 };
    for root in roots {
        match root.lock(rt).take(rt, wanted.step(replica)) {
            Ok(_) => tally.took += 1,
            Err(Refusal::Memory) => return Err(Memory),
            Err(_) => tally.idle += 1,
        }
    }
    Ok(tally)
}
