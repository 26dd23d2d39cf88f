//! Steps on a store, or on two.
use crate::board::Board;
use crate::calls::{action_of, calls_of, fails_to_meet, is_wanted, meets};
use crate::rows::Row;
use crate::steps::{Deed, Shown, Step, Wanted};
use crate::turns::{TURNS, text_of, turn_of};
use node_threads::{Answer, CallError, Gate, JoinError, Receipt, Seat, Store};
use std::alloc::Global;
use std::sync::Wait;
use std::thread;
use std::thread::Threads;
use std::time::Clock;
use tag::{ClientId, Key, ReplicaId};
use world_steps::Refusal;

/// The row's store, the other store, if it has one, and what calls on them need.
#[derive(Drop)]
pub struct Scene<'a, R, G> {
    pub rt: &'a R,
    pub alloc: Global,
    pub store: &'a Store<G>,
    pub other: &'a Store<G>,
    pub board: &'a Board,
}

/// How a hall stands: which of replicas 0, 1 and 2 are up, and whether it is as it began.
#[derive(Clone, Copy)]
struct Standing {
    zero: bool,
    one: bool,
    two: bool,
    is_untouched: bool,
}

impl<R: Wait + Clock, G: Gate> Scene<'_, R, G> {
    /// The row's store, or the other.
    fn at(&self, is_there: bool) -> &Store<G> {
        if is_there { self.other } else { self.store }
    }

    /// Has the client join, and adds its seat.
    fn join(&self, store: &Store<G>, client: u32, seats: &mut Vec<Seat>) -> Result<(), JoinError> {
        let Ok(name) = ClientId::new(client) else {
            return Err(JoinError::ClientTaken);
        };
        if seats.reserve(1).is_err() {
            return Err(JoinError::Memory);
        }
        match store.join(self.rt, self.alloc, name) {
            Ok(seat) => {
                seats.push_reserved(seat);
                Ok(())
            }
            Err(error) => Err(error),
        }
    }

    /// Has the row's clients join, which adds their seats. Whether all can that have to, and no other.
    pub fn join_all(&self, row: &Row, seats: &mut Vec<Seat>) -> bool {
        for client in row.clients {
            let joined = self.join(self.at(client.is_there), client.name, seats);
            if joined.err() != client.error {
                return false;
            }
        }
        true
    }

    /// Writes that text to the key of that name, or reads it.
    fn call(
        &self,
        store: &Store<G>,
        seat: &mut Seat,
        name: &str,
        text: Option<&str>,
    ) -> Result<Answer, CallError> {
        let Ok(key) = Key::new(self.alloc, name) else {
            return Err(CallError::Memory);
        };
        let Some(action) = action_of(self.alloc, text) else {
            return Err(CallError::Memory);
        };
        store.call(self.rt, self.alloc, seat, key, action)
    }

    /// Makes the seat's calls. Whether all came out well.
    fn makes_calls(&self, store: &Store<G>, seat: &mut Seat) -> bool {
        let caller = seat.client().get();
        for number in 0..TURNS {
            let Some(text) = text_of(self.alloc, caller, number) else {
                return false;
            };
            let turn = turn_of(caller, number, text.as_str());
            let call = self.call(store, seat, turn.name, turn.text);
            if !is_wanted(call, turn.wanted, &mut None) {
                return false;
            }
        }
        true
    }

    /// What the seat is shown of the hall.
    fn shown(&self, store: &Store<G>, seat: &Seat, hall: u8) -> Shown {
        match store.snapshot(self.rt, self.alloc, seat, hall) {
            Some(Ok(history)) => Shown::Calls(calls_of(seat.client(), &history)),
            Some(Err(CallError::Foreign)) => Shown::Foreign,
            Some(Err(_)) => Shown::Nothing,
            None => Shown::NoHall,
        }
    }

    /// Whether the seat is shown so many rows of the hall.
    fn sees_rows(&self, store: &Store<G>, seat: &Seat, hall: u8, rows: usize) -> bool {
        match store.snapshot(self.rt, self.alloc, seat, hall) {
            Some(Ok(history)) => history.row_count() == rows,
            _ => false,
        }
    }

    /// Whether the halls' records, as the seat is shown them, have 50 calls of its client together, which is
    /// how many it has in its log.
    fn sees_its_calls(&self, store: &Store<G>, seat: &Seat, halls: u8) -> bool {
        let mut count = 0;
        for hall in 0..halls {
            let Shown::Calls(here) = self.shown(store, seat, hall) else {
                return false;
            };
            count = usize::saturating_add(count, here);
        }
        count == seat.log().len() && count == 50
    }

    /// Whether the deed comes out so.
    fn does(
        &self,
        store: &Store<G>,
        seat: &mut Seat,
        deed: &Deed,
        receipt: &mut Option<Receipt>,
    ) -> bool {
        match *deed {
            Deed::Writes(name, wanted) => {
                is_wanted(self.call(store, seat, name, Some("a")), wanted, receipt)
            }
            Deed::Reads(name, wanted) => {
                is_wanted(self.call(store, seat, name, None), wanted, receipt)
            }
            Deed::Meets => meets(seat, *receipt),
            Deed::FailsToMeet => fails_to_meet(seat, *receipt),
            Deed::IsSpent(is_spent) => seat.is_spent() == is_spent,
            Deed::HasLogged(count) => seat.log().len() == count,
            Deed::HasSeen(place) => seat.seen(0) == place,
            Deed::IsShown(hall, shown) => self.shown(store, seat, hall) == shown,
            Deed::SeesRows(hall, rows) => self.sees_rows(store, seat, hall, rows),
            Deed::Calls => self.makes_calls(store, seat),
            Deed::SeesItsCalls(halls) => self.sees_its_calls(store, seat, halls),
        }
    }

    /// Whether the replica is stopped or started, or isn't for that reason.
    fn switches(&self, store: &Store<G>, number: u8, starts: bool, why: Option<Refusal>) -> bool {
        let Some(replica) = ReplicaId::new(number) else {
            return false;
        };
        let switched = if starts {
            store.start_replica(self.rt, replica)
        } else {
            store.stop_replica(self.rt, replica)
        };
        match switched {
            Ok(()) => why.is_none(),
            Err(refusal) => why == Some(refusal),
        }
    }

    /// How the hall stands.
    fn standing(&self, store: &Store<G>, hall: u8) -> Option<Standing> {
        let (zero, one, two) = (ReplicaId::new(0)?, ReplicaId::new(1)?, ReplicaId::new(2)?);
        store.look(
            self.rt,
            hall,
            |world| Standing {
                zero: world.is_up(zero),
                one: world.is_up(one),
                two: world.is_up(two),
                is_untouched: world.history().row_count() == 0 && world.pool().sent() == 0,
            },
        )
    }

    /// Whether replica 1 stands so in each of so many halls, and replicas 0 and 2 are up.
    fn stands(&self, store: &Store<G>, halls: u8, is_up: bool) -> bool {
        for hall in 0..halls {
            match self.standing(store, hall) {
                Some(standing) if standing.zero && standing.two && standing.one == is_up => {}
                _ => return false,
            }
        }
        true
    }

    /// Whether replica 1 goes down in each of so many halls, once, and up again in each, once.
    fn goes_down_and_up(&self, store: &Store<G>, halls: u8) -> bool {
        for (starts, again) in [(false, Refusal::ReplicaDown), (true, Refusal::ReplicaUp)] {
            let goes = self.switches(store, 1, starts, None) && self.stands(store, halls, starts);
            if !goes || !self.switches(store, 1, starts, Some(again)) {
                return false;
            }
        }
        true
    }

    /// Looks on in hall 1 until the second has come so far. Whether it has, and there is no hall 2.
    fn looks_on(&self, store: &Store<G>) -> bool {
        let seen = store.look(self.rt, 1, |_| {
            self.board.first.give();
            self.board.wait(self.rt, &self.board.second)
        });
        seen == Some(true) && self.standing(store, 2).is_none()
    }

    /// Whether a step on the store comes out so.
    fn steps(&self, store: &Store<G>, step: &Step) -> bool {
        match *step {
            Step::Stops(number, why) => self.switches(store, number, false, why),
            Step::Starts(number, why) => self.switches(store, number, true, why),
            Step::GoesDownAndUp(halls) => self.goes_down_and_up(store, halls),
            Step::IsUntouched => match self.standing(store, 0) {
                Some(standing) => standing.is_untouched,
                None => false,
            },
            Step::LooksOn => self.looks_on(store),
            Step::First => {
                self.board.first.give();
                true
            }
            Step::Second => {
                self.board.second.give();
                true
            }
            Step::AwaitsFirst => self.board.wait(self.rt, &self.board.first),
            Step::HaveMet => self.board.first.is_given() && self.board.second.is_given(),
            Step::Here | Step::There | Step::By(..) => false,
        }
    }

    /// Takes the steps, one after another. Whether all come out so.
    pub fn run(&self, seats: &mut [Seat], steps: &[Step]) -> bool {
        let (mut is_there, mut receipt, mut is_good) = (false, None, true);
        for step in steps {
            let store = self.at(is_there);
            let comes_out = match step {
                Step::Here => {
                    is_there = false;
                    true
                }
                Step::There => {
                    is_there = true;
                    true
                }
                Step::By(place, deed) => match seats.get_mut(*place) {
                    Some(seat) => self.does(store, seat, deed, &mut receipt),
                    None => false,
                },
                other => self.steps(store, other),
            };
            is_good = comes_out && is_good;
        }
        is_good
    }

    /// Takes the steps of the thread that has the seats from that place on.
    fn run_thread(&self, row: &Row, start: usize, seats: &mut [Seat]) {
        let steps = match start.checked_div(row.each) {
            Some(number) => row.threads.get(number),
            None => None,
        };
        let is_good = match steps {
            Some(steps) => self.run(seats, steps),
            None => false,
        };
        if !is_good {
            self.board.wrong.give();
        }
    }
}

impl<R, G> Scene<'_, R, G>
where
    R: Threads + Wait + Clock + Copy + Send + Sync + 'static,
    G: Gate + Send + Sync + Drop + 'static,
{
    /// Has the row's threads take their steps, all at once. Whether all come out so.
    pub fn run_threads(&self, row: &Row, seats: &mut [Seat]) -> bool {
        if row.each > 0 {
            thread::for_each_chunk_mut(
                self.rt,
                seats,
                row.each,
                &|start, part| {
                    self.run_thread(row, start, part);
                },
            );
        }
        !self.board.wrong.is_given()
    }
}
