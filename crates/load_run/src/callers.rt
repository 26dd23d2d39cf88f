//! Callers, each with a seat and a thread of its own.
ghost use Rattle.std.specs.Prelude.{◌≡◌, ◌++◌, ◌∷◌, [], ◌⊎◌, Err, map, IfErr, IfOk, OnErr, OnOk};
ghost use Rattle.node_threads.specs.Joins.{IsNewSeat};
ghost use Rattle.node_threads.specs.Stores.{reach_of};
ghost use Rattle.load_run.specs.Callers.{AreKeys, AreNew, AreOfSeats, AreSeated, IsCalled, IsDoneIn};
ghost use Rattle.load_run.specs.Callers.{IsOpenSeat, LeavesCall, MakesCall, RefusesTurn, work_of};
ghost use Rattle.load_run.specs.LoadStores.{settings_of};

use crate::error::LoadError;
use load::{LoadOptions, Turn, call_at};
use node_threads::{CallError, Gate, Seat, Store};
use std::alloc::Global;
use std::sync::Wait;
use std::thread;
use std::thread::{Promise, PromisedHandle, Scope, Threads, join_promised};
use tag::{ClientId, Memory};

/// A caller whose thread has ended.
#[derive(Drop)]
pub struct Called {
    /// Its seat, with its calls.
    pub seat: Seat,
    /// Why its last call was refused; none where all its calls were answered.
    pub refusal: Option<CallError>,
}

/// What a caller's thread has to do. As a promise it says what the caller's log then has, and why its last
/// call was refused.
#[derive(Clone, Copy)]
pub(crate) struct Work {
    /// How many keys there are.
    pub keys: u8,
    /// How many calls the caller makes.
    pub calls: u16,
    /// The caller.
    pub caller: u32,
    /// How many halls the store has.
    pub halls: u8,
    /// How many replicas it has.
    pub replicas: u8,
    /// How many rounds of messages a phase of a call makes.
    pub rounds: u16,
}

impl Promise<Called> for Work {
    ghost use Rattle.load_run.specs.Callers.{IsCalled};

    ghost kept_by = { IsCalled };
}

/// Adds an item at the end of a list.
pub(crate) fn add<T: Drop>(list: &mut Vec<T>, item: T) -> Result<(), Memory>
    ensures { OnOk result (list.new.items ≡ list.old.items ++ item ∷ []) }
{
    list.push(item)?;
    Ok(())
}

/// Makes the call of the turn.
fn call_once<R: Wait, G: Gate>(
    rt: &R,
    alloc: Global,
    store: &Store<G>,
    seat: &mut Seat,
    turn: Turn,
) -> Result<(), CallError>
    requires keys { AreKeys turn.keys }
    requires open_seat { IsOpenSeat store.now.config seat.old }
    ensures made { OnOk result (MakesCall store.now.config.halls turn seat.old seat.new) }
    ensures left { OnErr result (LeavesCall store.now.config.halls turn seat.old seat.new) }
    ensures refused { IfErr result (λ error. RefusesTurn (reach_of store.now.config)
        store.now.config.halls turn error seat.old seat.new) }
{
    let (key, action) = call_at(alloc, turn)?;
    store.call(rt, alloc, seat, key, action)?;
    Ok(())
}

/// Has a caller make the calls of its turns, one after another, up to the first that is refused.
fn make_calls<R: Wait, G: Gate>(
    rt: &R,
    alloc: Global,
    store: &Store<G>,
    mut seat: Seat,
    work: Work,
) -> Called
    requires keys { AreKeys work.keys }
    requires of { IsDoneIn store.now.config work }
    requires new { IsNewSeat store.now.config work.caller seat }
    ensures { IsCalled work result }
{
    for number in 0..work.calls {
        let turn = Turn {
            keys: work.keys,
            caller: work.caller,
            number,
        };
        if let Err(error) = call_once(rt, alloc, store, &mut seat, turn) {
            return Called {
                seat,
                refusal: Some(error),
            };
        }
    }
    Called {
        seat,
        refusal: None,
    }
}

/// Starts a caller on a thread of its own.
fn start<'s, 'e: 's, R: Wait + Sync, G: Gate + Send + Sync>(
    rt: &'e R,
    scope: &'s Scope<'s, &'e ()>,
    alloc: Global,
    store: &'e Store<G>,
    seat: Seat,
    work: Work,
) -> Result<PromisedHandle<Called, Work>, LoadError>
    requires keys { AreKeys work.keys }
    requires of { IsDoneIn store.now.config work }
    requires new { IsNewSeat store.now.config work.caller seat }
    ensures started { IfOk result (λ started. started.promise ≡ work) }
    ensures thread { IfErr result (λ error. error ≡ LoadError.Thread) }
{
    let started = scope.spawn_with(
        work,
        move || -> Called
            requires { AreKeys work.keys × IsDoneIn store.now.config work
                × IsNewSeat store.now.config work.caller seat }
            ensures { IsCalled work result }
        { make_calls(rt, alloc, store, seat, work) },
    );
    match started {
        Ok(started) => Ok(started),
        Err(_) => Err(LoadError::Thread),
    }
}

/// The work of a caller of the load.
fn work_of(load: &LoadOptions, caller: u32) -> Work
    ensures { result ≡ work_of load.now caller }
{
    Work {
        keys: load.keys,
        calls: load.calls,
        caller,
        halls: load.halls.count(),
        replicas: load.quorums.replicas(),
        rounds: load.rounds,
    }
}

/// Starts the callers of these seats, each on a thread of its own.
fn start_all<'s, 'e: 's, R: Wait + Sync, G: Gate + Send + Sync>(
    rt: &'e R,
    scope: &'s Scope<'s, &'e ()>,
    alloc: Global,
    store: &'e Store<G>,
    seats: Vec<Seat>,
    load: &LoadOptions,
) -> Result<Vec<PromisedHandle<Called, Work>>, LoadError>
    requires keys { AreKeys load.now.keys }
    requires of { store.now.config ≡ settings_of load.now }
    requires new { AreNew store.now.config seats.items }
    ensures started { IfOk result (λ started. map (λ h. h.promise) started.items
        ≡ map (λ s. work_of load.now s.client) seats.items) }
    ensures why { IfErr result (λ error. (error ≡ LoadError.Thread) ⊎ (error ≡ LoadError.Memory)) }
{
    let mut started = Vec::new(alloc);
    for seat in seats {
        let caller = seat.client().get();
        let work = work_of(load, caller);
        add(&mut started, start(rt, scope, alloc, store, seat, work)?)?;
    }
    Ok(started)
}

/// Has the callers of these seats make their calls, all at once, and waits until each has ended.
pub(crate) fn call_together<R, G>(
    rt: &R,
    alloc: Global,
    store: &Store<G>,
    seats: Vec<Seat>,
    load: &LoadOptions,
) -> Result<Vec<Called>, LoadError>
where
    R: Threads + Wait + Sync,
    G: Gate + Send + Sync,
    requires keys { AreKeys load.now.keys }
    requires of { store.now.config ≡ settings_of load.now }
    requires new { AreNew store.now.config seats.items }
    ensures called { IfOk result (λ callers. AreOfSeats load.now seats.items callers.items) }
    ensures why { IfErr result (λ error. (error ≡ LoadError.Thread) ⊎ (error ≡ LoadError.Memory)) }
{
    thread::scope(
        thread::scope_env(),
        rt,
        |scope| -> Result<Vec<Called>, LoadError>
            requires { AreKeys load.now.keys × (store.now.config ≡ settings_of load.now)
                × AreNew store.now.config seats.items }
            ensures called { IfOk result (λ callers.
                AreOfSeats load.entry.now seats.items callers.items) }
            ensures why { IfErr result (λ error.
                (error ≡ LoadError.Thread) ⊎ (error ≡ LoadError.Memory)) }
        {
            let started = start_all(rt, scope, alloc, store, seats, load)?;
            match join_promised(rt, started) {
                Ok(callers) => Ok(callers),
                Err(_) => Err(LoadError::Memory),
            }
        },
    )
}

/// Gives so many callers their seats, in order of name.
pub(crate) fn join_all<R: Wait, G: Gate>(
    rt: &R,
    alloc: Global,
    store: &Store<G>,
    callers: u8,
) -> Result<Vec<Seat>, LoadError>
    ensures seated { IfOk result (λ seats. AreSeated store.now.config callers seats.items) }
    ensures why { IfErr result (λ error.
        (error ≡ LoadError.ClientTaken) ⊎ (error ≡ LoadError.Memory)) }
{
    let mut seats = Vec::new(alloc);
    for number in 0..callers {
        let Ok(client) = ClientId::new(u32::from(number) + 1) else {
            unreachable!()
        };
        add(&mut seats, store.join(rt, alloc, client)?)?;
    }
    Ok(seats)
}
