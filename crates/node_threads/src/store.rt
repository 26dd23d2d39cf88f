//! A running store: its halls, and a thread for each replica.
ghost use Rattle.std.specs.Prelude.{ℕ, ◌≡◌, ◌<◌, ◌≤◌, ◌+◌, ◌⊎◌, ◌↔◌, Err, true, false, [], length};
ghost use Rattle.std.specs.Prelude.{IfErr, IfOk, IfSome, IsNone, OnErr, OnOk};
ghost use Rattle.recorder.specs.Halls.{hall_of};
ghost use Rattle.std.specs.Fn.{FnOnceReturnsAt};
ghost use Rattle.hall_lock.specs.Turns.{IsTold};
ghost use Rattle.seats.specs.Answers.{FailsWith, LeavesUnanswered, HasReason, IsAnswered, SeesFewer};
ghost use Rattle.node_threads.specs.Closings.{Closes, HasForeign, IsOfAnotherStore, IsOfStore};
ghost use Rattle.node_threads.specs.Joins.{IsNewSeat, IsNotJoined};
ghost use Rattle.node_threads.specs.Snapshots.{IsSnapshotFor};
ghost use Rattle.node_threads.specs.Stores.{AllTakeOrNeedNot, reach_of, replica_count, round_limit};
ghost use Rattle.world_steps.specs.declared.step.Step.TheVariants as event;

use crate::closing::{Closed, are_logged, are_of_store, closed_halls, end_replicas, is_of_store};
use crate::config::StoreConfig;
use crate::errors::{CloseError, JoinError, StartError};
use crate::join::{enter_halls, none_seen};
use crate::snapshot::snapshot_of;
use crate::switch_replica::{Wanted, switch_replica};
use crossbeam_channel::{Receiver, Sender, bounded, unbounded};
use hall_lock::FreePass;
use recorder::{Halls, History};
use seats::seating::{call_on, new_seat};
use seats::{Answer, CallError, Gate, Parcel, Seat, Transport, serve};
use std::alloc::Global;
use std::marker::Model;
use std::sync::{Arc, Mutex, Wait};
use std::thread;
use std::thread::Threads;
use tag::{Action, ClientId, Key, ReplicaId};
use world_steps::{Config, Refusal, World};

/// A running store. Each replica is served by a thread of its own, in all halls; they end when the store
/// is let go.
#[derive(Drop)]
pub struct Store<G> {
    config: StoreConfig,
    gate: Arc<G, Global>,
    roots: Vec<Mutex<FreePass>>,
    channels: Vec<Sender<Parcel>>,
    ends: Receiver<ReplicaId>,
}

impl<G> Model for Store<G> {
    ghost use Rattle.node_threads.specs.Stores.{Store};

    ghost Value = { Store G };

    ghost use Rattle.std.specs.Prelude.{◌≡◌, length};
    ghost use Rattle.node_threads.specs.Stores.{replica_count};

    ghost view = { λ s. record { config = s.config; gate = s.gate.value } };

    ghost invariant = { λ s. (length s.roots.items ≡ s.config.halls)
        × (length s.channels.items ≡ replica_count s.config) };
}

impl<G: Gate + Send + Sync + Drop + 'static> Store<G> {
    /// Starts a store: its halls, all new, and a thread for each replica, all up. After an error no store
    /// stands, and threads that were started are asked to end.
    pub fn start<R>(
        rt: &R,
        alloc: Global,
        config: StoreConfig,
        gate: G,
    ) -> Result<Store<G>, StartError>
    where
        R: Threads + Wait + Copy + Send + 'static,
        requires { (1 ≤ config.rounds) × (config.rounds ≤ round_limit) }
        ensures { IfOk result (λ store. store ≡ record { config = config; gate = gate }) }
    {
        let gate = Arc::new(alloc, gate)?;
        let roots = open_halls(rt, alloc, config.halls, config.world)?;
        let replicas = usize::from(config.world.replicas());
        let (ended, ends) = bounded(alloc, replicas)?;
        let channels = start_replicas(rt, alloc, &config, &roots, &gate, &ended)?;
        Ok(Store {
            config,
            gate,
            roots,
            channels,
            ends,
        })
    }
}

/// Opens so many new halls: a pass to each, under a lock of its own.
fn open_halls<R: Wait>(
    rt: &R,
    alloc: Global,
    halls: Halls,
    world: Config,
) -> Result<Vec<Mutex<FreePass>>, StartError>
    ensures { IfOk result (λ roots. length roots.items ≡ halls) }
{
    let mut roots = Vec::new(alloc);
    for _ in 0..halls.count() {
        roots.push(Mutex::new(FreePass::open(rt, alloc, world)?))?;
    }
    Ok(roots)
}

/// Starts a thread for each replica. The channels to them, by number.
fn start_replicas<R, G>(
    rt: &R,
    alloc: Global,
    config: &StoreConfig,
    roots: &[Mutex<FreePass>],
    gate: &Arc<G, Global>,
    ended: &Sender<ReplicaId>,
) -> Result<Vec<Sender<Parcel>>, StartError>
where
    R: Threads + Wait + Copy + Send + 'static,
    G: Gate + Send + Sync + Drop + 'static,
    requires { length roots.now ≡ config.now.halls }
    ensures { IfOk result (λ channels. length channels.items ≡ replica_count config.now) }
{
    let mut channels = Vec::new(alloc);
    for number in 0..config.world.replicas() {
        let Some(replica) = ReplicaId::new(number) else {
            unreachable!()
        };
        channels.push(start_replica(rt, alloc, replica, config.halls, roots, gate, ended)?)?;
    }
    Ok(channels)
}

/// Starts the thread of a replica. The channel to it.
fn start_replica<R, G>(
    rt: &R,
    alloc: Global,
    replica: ReplicaId,
    halls: Halls,
    roots: &[Mutex<FreePass>],
    gate: &Arc<G, Global>,
    ended: &Sender<ReplicaId>,
) -> Result<Sender<Parcel>, StartError>
where
    R: Threads + Wait + Copy + Send + 'static,
    G: Gate + Send + Sync + Drop + 'static,
    requires { length roots.now ≡ halls }
{
    let (channel, parcels) = unbounded(alloc)?;
    let passes = others(rt, alloc, roots)?;
    let ended = ended.clone()?;
    let own = *rt;
    let theirs = Arc::try_clone(gate)?;
    let started = thread::spawn(
        rt,
        move ||
            requires { length passes.items ≡ halls }
        {
            serve(&own, &*theirs, replica, halls, passes, parcels);
            // Each replica's end has its room from the start, so this neither waits nor takes memory.
            let _ = ended.send(&own, replica);
        },
    );
    is_started(started.is_ok())?;
    Ok(channel)
}

/// Says that a thread wasn't started, where it wasn't.
fn is_started(has_started: bool) -> Result<(), StartError>
    ensures started { OnOk result (has_started ≡ true) }
    ensures why { IfErr result (λ error. (error ≡ StartError.Thread) × (has_started ≡ false)) }
{
    if has_started {
        Ok(())
    } else {
        Err(StartError::Thread)
    }
}

/// Another pass to each hall.
fn others<R: Wait>(
    rt: &R,
    alloc: Global,
    roots: &[Mutex<FreePass>],
) -> Result<Vec<FreePass>, StartError>
    ensures { IfOk result (λ passes. length passes.items ≡ length roots.now) }
{
    let mut passes = Vec::new(alloc);
    for root in roots {
        passes.push(root.lock(rt).another()?)?;
    }
    Ok(passes)
}

impl<G: Gate> Store<G> {
    /// A seat for a new client, in all halls, which it joins one after another. After an error the client
    /// is stopped in the halls below the one that refused, and its name is spent there.
    pub fn join<R: Wait>(&self, rt: &R, alloc: Global, client: ClientId) -> Result<Seat, JoinError>
        ensures seat { IfOk result (IsNewSeat self.now.config client) }
        ensures why { IfErr result (λ error. IsNotJoined client error) }
    {
        let seen = none_seen(alloc, usize::from(self.config.halls.count()))?;
        let mut passes = Vec::new(alloc);
        if let Err(not) = enter_halls(rt, &self.roots, client, &mut passes) {
            return Err(not.error);
        }
        Ok(new_seat(alloc, self.config.store, client, passes, seen))
    }

    /// Makes a call of the seat's client.
    ///
    /// It goes to the hall of its key. If it is answered, the seat's log has one entry more, after all that
    /// the seat had seen, and the receipt tells of it. It may wait for other threads.
    pub fn call<R: Wait>(
        &self,
        rt: &R,
        alloc: Global,
        seat: &mut Seat,
        key: Key,
        action: Action,
    ) -> Result<Answer, CallError>
        ensures answered { IfOk result (λ answer.
            IsAnswered seat.old (hall_of self.now.config.halls key) key action answer seat.new) }
        ensures failed { IfErr result (λ error.
            FailsWith error seat.old (hall_of self.now.config.halls key) key action seat.new) }
        ensures left { OnErr result
            (LeavesUnanswered seat.old (hall_of self.now.config.halls key) key action seat.new) }
        ensures spent { seat.old.is_spent ≡ true
            → (result ≡ Err CallError.SeatSpent) × (seat.new ≡ seat.old) }
        ensures foreign { seat.old.is_spent ≡ false → IsOfAnotherStore self.now.config seat.old
            → (result ≡ Err CallError.Foreign) × (seat.new ≡ seat.old) }
        ensures own { OnOk result (IsOfStore self.now.config seat.old) }
        ensures reason { seat.old.is_spent ≡ false → IsOfStore self.now.config seat.old
            → IfErr result (λ error.
            HasReason (reach_of self.now.config) error seat.old (hall_of self.now.config.halls key) key action seat.new) }
        ensures stale { seat.old.is_spent ≡ false
            → SeesFewer seat.old (hall_of self.now.config.halls key) seat.new
            → (result ≡ Err CallError.Foreign) ⊎ (result ≡ Err CallError.Memory) }
    {
        if seat.is_spent() {
            return Err(CallError::SeatSpent);
        }
        if !is_of_store(&self.config, seat) {
            return Err(CallError::Foreign);
        }
        let hall = self.config.halls.of(&key);
        let channels = self.channels.as_slice();
        let transport = Transport::new(alloc, &*self.gate, channels, hall, self.config.rounds)?;
        call_on(seat, rt, &transport, key, action)
    }

    /// A copy of a hall's record, in which the seat's calls of that hall are its client's. `None` comes
    /// exactly for a hall that the store lacks. `Foreign` comes if the seat is of another store, or of
    /// another count of halls, or if the record has fewer rows than the seat has seen, or other calls of
    /// its client than its log has. A spent seat serves too.
    pub fn snapshot<R: Wait>(
        &self,
        rt: &R,
        alloc: Global,
        seat: &Seat,
        hall: u8,
    ) -> Option<Result<History, CallError>>
        ensures lacks { IsNone result ↔ (self.now.config.halls ≤ hall) }
        ensures foreign { IsOfAnotherStore self.now.config seat.now
            → IfSome result (λ given. given ≡ Err CallError.Foreign) }
        ensures own { IfSome result (λ given. OnOk given (IsOfStore self.now.config seat.now)) }
        ensures shown { IfSome result (λ given.
            IfOk given (λ history. IsSnapshotFor history seat.now hall)) }
    {
        match self.roots.get(usize::from(hall)) {
            Some(root) if is_of_store(&self.config, seat) => {
                Some(snapshot_of(rt, alloc, root, seat, hall))
            }
            Some(_) => Some(Err(CallError::Foreign)),
            None => None,
        }
    }

    /// Lends `look` the world of a hall, for one turn: the hall waits for it. `None` comes exactly for a hall
    /// that the store lacks, where `look` isn't called.
    pub fn look<R: Wait, T, F: FnOnce(&World) -> T>(&self, rt: &R, hall: u8, look: F) -> Option<T>
        requires { F.IsAlwaysCallable look }
        ensures lacks { IsNone result ↔ (self.now.config.halls ≤ hall) }
        ensures told { IfSome result (λ told.
            IsTold [] (λ s. FnOnceReturnsAt F.FnOnce look s told)) }
    {
        match self.roots.get(usize::from(hall)) {
            Some(root) => Some(root.lock(rt).look(rt, look)),
            None => None,
        }
    }

    /// Has the replica go down in each hall where it is up. `ReplicaDown` comes only if it is down in
    /// each, `NoSuchReplica` before any step. After `Memory` the halls below the one that refused are done,
    /// and the call may be made again.
    pub fn stop_replica<R: Wait>(&self, rt: &R, replica: ReplicaId) -> Result<(), Refusal>
        ensures lacks { replica_count self.now.config ≤ replica → result ≡ Err Refusal.NoSuchReplica }
        ensures why { replica < replica_count self.now.config
            → IfErr result (λ why. (why ≡ Refusal.ReplicaDown) ⊎ (why ≡ Refusal.Memory)) }
        ensures each { OnOk result
            (AllTakeOrNeedNot self.now.config.halls (event.StopReplica replica)) }
    {
        switch_replica(rt, &self.config, &self.roots, replica, Wanted::Down)
    }

    /// Has the replica go up in each hall where it is down, with what it stored. `ReplicaUp` comes only
    /// if it is up in each, `NoSuchReplica` before any step. After `Memory` the halls below the one that
    /// refused are done, and the call may be made again.
    pub fn start_replica<R: Wait>(&self, rt: &R, replica: ReplicaId) -> Result<(), Refusal>
        ensures lacks { replica_count self.now.config ≤ replica → result ≡ Err Refusal.NoSuchReplica }
        ensures why { replica < replica_count self.now.config
            → IfErr result (λ why. (why ≡ Refusal.ReplicaUp) ⊎ (why ≡ Refusal.Memory)) }
        ensures each { OnOk result
            (AllTakeOrNeedNot self.now.config.halls (event.StartReplica replica)) }
    {
        switch_replica(rt, &self.config, &self.roots, replica, Wanted::Up)
    }
}

impl<G: Gate + Drop> Store<G> {
    /// Ends the store, and gives what its halls leave: of each its record, the steps that made it, and for
    /// each key an order that shows the key's calls atomic.
    ///
    /// It has the replicas' threads end and waits for them, receives each hall for good, and compares
    /// the log of each seat with its client's calls in the records. `SeatMismatch` comes if a seat is
    /// of another store, or of another count of halls, or has other calls; `Memory` only if an
    /// allocation failed. The store is ended in every case.
    pub fn close<R: Wait>(
        self,
        rt: &R,
        alloc: Global,
        seats: Vec<Seat>,
    ) -> Result<Closed, CloseError>
        ensures closed { IfOk result (λ closed.
            Closes self.config seats.items closed.halls.items) }
        ensures foreign { HasForeign self.config seats.items
            → result ≡ Err CloseError.SeatMismatch }
    {
        let Store {
            config,
            roots,
            channels,
            ends,
            ..
        } = self;
        end_replicas(rt, channels, &ends);
        if !are_of_store(&config, &seats) {
            return Err(CloseError::SeatMismatch);
        }
        let halls = closed_halls(rt, alloc, roots)?;
        if !are_logged(alloc, &halls, &seats)? {
            return Err(CloseError::SeatMismatch);
        }
        Ok(Closed { halls })
    }
}
