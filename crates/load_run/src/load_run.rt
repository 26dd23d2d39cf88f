//! A load, from the start of its store to its end.
ghost use Rattle.std.specs.Prelude.{◌≡◌, ◌++◌, map, IfOk, OnOk};
ghost use Rattle.load_run.specs.LoadStores.{gate_of, store_of, world_of};
ghost use Rattle.load_run.specs.Loads.{IsLoaded, refusals_of, refused_of};
ghost use Rattle.load.specs.Loads.{IsWithinLimits};

use crate::callers::{Called, add, call_together, join_all};
use crate::error::LoadError;
use crate::gate::{CountingGate, Watch};
use load::{Load, LoadOptions};
use node_threads::{CallError, CloseError, Closed, Seat, Store, StoreConfig};
use std::alloc::Global;
use std::sync::Wait;
use std::thread::Threads;
use tag::{ClientId, Memory};
use world_steps::Config;

/// A caller that made fewer calls than it had to.
#[derive(Clone, Copy, Debug, PartialEq, Eq)]
pub struct Refused {
    /// Its name.
    pub caller: ClientId,
    /// Why its last call was refused.
    pub error: CallError,
}

/// What a load leaves.
#[derive(Drop)]
pub struct LoadOutcome {
    /// The callers whose calls were refused, in order of name.
    pub refusals: Vec<Refused>,
    /// The store, closed, or why it couldn't be.
    pub closed: Result<Closed, CloseError>,
}

/// What is fixed of each hall's world by a load: its quorums, how its clients read, and up to 1,000,000
/// calls and 4,000,000 messages.
pub fn world_of(load: &LoadOptions) -> Config
    ensures { result ≡ world_of load.now }
{
    let Some(config) = Config::new(load.quorums.replicas(), 1_000_000, 4_000_000) else {
        unreachable!()
    };
    let Some(config) = config.with_reads(load.reads).with_quorums(load.quorums) else {
        unreachable!()
    };
    config
}

/// The gate of a load: it drops and doubles by the load's counts.
fn gate_of<L: Watch>(load: &LoadOptions, watch: L) -> CountingGate<L>
    ensures { result ≡ gate_of load.now }
{
    CountingGate::new(u64::from(load.drop), u64::from(load.double), watch)
}

/// Starts the store of a load.
fn start<R, L>(
    rt: &R,
    alloc: Global,
    load: &LoadOptions,
    watch: L,
) -> Result<Store<CountingGate<L>>, LoadError>
where
    R: Threads + Wait + Copy + Send + 'static,
    L: Watch + Send + Sync + Drop + 'static,
    requires { IsWithinLimits load.now }
    ensures { IfOk result (λ store. store ≡ store_of load.now) }
{
    let config = StoreConfig {
        store: 1,
        world: world_of(load),
        rounds: load.rounds,
        halls: load.halls,
    };
    Ok(Store::start(rt, alloc, config, gate_of(load, watch))?)
}

/// Adds the caller, where its call was refused.
fn add_refusal(
    refusals: &mut Vec<Refused>,
    caller: ClientId,
    refusal: Option<CallError>,
) -> Result<(), Memory>
    ensures { OnOk result (refusals.new.items
        ≡ refusals.old.items ++ refused_of caller refusal) }
{
    let Some(error) = refusal else {
        return Ok(());
    };
    add(refusals, Refused { caller, error })
}

/// The callers' seats, and those whose calls were refused.
fn split_callers(alloc: Global, callers: Vec<Called>) -> Result<(Vec<Seat>, Vec<Refused>), Memory>
    ensures seats { IfOk result (λ both. both.0.items ≡ map (λ c. c.seat) callers.items) }
    ensures refused { IfOk result (λ both. both.1.items ≡ refusals_of callers.items) }
{
    let mut seats = Vec::new(alloc);
    let mut refusals = Vec::new(alloc);
    for called in callers {
        let Called { seat, refusal } = called;
        add_refusal(&mut refusals, seat.client(), refusal)?;
        seats.push(seat)?;
    }
    Ok((seats, refusals))
}

/// Starts a store, has callers 1 and so on join it in order of name, lets each make its calls, one
/// after another and each caller in a thread of its own, and closes the store when all have ended.
///
/// A caller ends early at its first call that is refused. `Memory` comes only if an allocation
/// failed, `Thread` only if a thread couldn't be started; no store stands then, and the callers'
/// threads have ended. The watch is told of each call that is about to be answered, on its caller's
/// thread.
pub fn run_load<R, L>(
    rt: &R,
    alloc: Global,
    load: Load,
    watch: &L,
) -> Result<LoadOutcome, LoadError>
where
    R: Threads + Wait + Copy + Send + Sync + 'static,
    L: Watch + Send + Sync + Drop + 'static,
    ensures { IfOk result (λ loaded. IsLoaded load loaded) }
{
    let options = load.options();
    let store = start(rt, alloc, &options, watch.again()?)?;
    let seats = join_all(rt, alloc, &store, options.callers)?;
    let callers = call_together(rt, alloc, &store, seats, &options)?;
    let (seats, refusals) = split_callers(alloc, callers)?;
    Ok(LoadOutcome {
        refusals,
        closed: store.close(rt, alloc, seats),
    })
}
