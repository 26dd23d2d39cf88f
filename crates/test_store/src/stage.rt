//! Plays rows.
use crate::board::Board;
use crate::gates::RowGate;
use crate::journal_rows::{About, JournalRow};
use crate::records::{are_atomic, has_one_pending_call};
use crate::rows::{End, Row};
use crate::scene::Scene;
use crate::shape::{Shape, config_of, have_config};
use crate::texts::{counts_text, parcels_text, places_text, steps_text};
use node_threads::{CloseError, Closed, Place, Seat, Store};
use std::alloc::Global;
use std::sync::atomic::Ordering;
use std::sync::{Arc, Wait};
use std::thread::Threads;
use std::time::Clock;

/// What rows run on: threads, and memory.
#[derive(Drop)]
pub struct Stage<'a, R> {
    pub rt: &'a R,
    pub alloc: Global,
}

/// A row that was played.
#[derive(Drop)]
struct Played {
    /// Whether all steps came out so.
    is_good: bool,
    /// What came of closing the store.
    closed: Result<Closed, CloseError>,
}

impl<R> Stage<'_, R>
where
    R: Threads + Wait + Clock + Copy + Send + Sync + 'static,
{
    /// Starts a store with a gate of the row's manner.
    fn start(
        &self,
        shape: &Shape,
        row: &Row,
        number: u64,
        board: &Arc<Board, Global>,
    ) -> Option<Store<RowGate<R>>> {
        let config = config_of(shape)?;
        let gate = RowGate {
            rt: *self.rt,
            manner: row.manner,
            number,
            board: Arc::try_clone(board).ok()?,
        };
        Store::start(self.rt, self.alloc, config, gate).ok()
    }

    /// Takes the row's steps. Whether all come out so.
    fn run(
        &self,
        row: &Row,
        store: &Store<RowGate<R>>,
        other: &Store<RowGate<R>>,
        board: &Board,
        seats: &mut Vec<Seat>,
    ) -> bool {
        let scene = Scene {
            rt: self.rt,
            alloc: self.alloc,
            store,
            other,
            board,
        };
        if !scene.join_all(row, seats) {
            return false;
        }
        let opened = scene.run(seats.as_mut_slice(), row.opening);
        let ran = scene.run_threads(row, seats.as_mut_slice());
        opened && ran && scene.run(seats.as_mut_slice(), row.closing)
    }

    /// Takes the row's steps, with another store if it needs one, which is closed then without a seat.
    fn run_with_other(
        &self,
        row: &Row,
        store: &Store<RowGate<R>>,
        board: &Arc<Board, Global>,
        seats: &mut Vec<Seat>,
    ) -> bool {
        let Some(shape) = &row.other else {
            return self.run(row, store, store, board, seats);
        };
        let Some(other) = self.start(shape, row, 0, board) else {
            return false;
        };
        let is_good = self.run(row, store, &other, board, seats);
        let _ = other.close(self.rt, self.alloc, Vec::new(self.alloc));
        is_good
    }

    /// Plays the row in a new store, whose gate holds whoever comes to the place of that number, if it does that.
    fn play(&self, row: &Row, number: u64, board: &Arc<Board, Global>) -> Option<Played> {
        let store = self.start(&row.shape, row, number, board)?;
        let mut seats = Vec::new(self.alloc);
        let is_good = self.run_with_other(row, &store, board, &mut seats);
        let closed = store.close(self.rt, self.alloc, seats);
        Some(Played { is_good, closed })
    }

    /// Whether the row comes out as it has to at the place of that number.
    fn comes_out_at(&self, row: &Row, number: u64) -> Option<bool> {
        let board = Arc::new(self.alloc, Board::new(self.alloc)).ok()?;
        let played = self.play(row, number, &board)?;
        Some(
            played.is_good
                && !board.missed.is_given()
                && ends(self.alloc, row, &board, &played.closed),
        )
    }

    /// Whether the row comes out as it has to, at all its places.
    pub fn comes_out(&self, row: &Row) -> Option<bool> {
        for place in 0..row.places {
            if !self.comes_out_at(row, place + 1)? {
                return Some(false);
            }
        }
        Some(true)
    }

    /// What the row's calls left.
    pub fn left_by(&self, row: &JournalRow) -> Option<String> {
        let board = Arc::new(self.alloc, Board::new(self.alloc)).ok()?;
        let played = self.play(&row.row, 1, &board)?;
        let places = board.places.lock(self.rt);
        if played.is_good && ends(self.alloc, &row.row, &board, &played.closed) {
            text_of(self.alloc, row.about, &played.closed, places.as_slice())
        } else {
            None
        }
    }
}

/// Whether what came of closing the row's store has to come of it.
fn ends(alloc: Global, row: &Row, board: &Board, closed: &Result<Closed, CloseError>) -> bool {
    match (row.end, closed) {
        (End::Closes, Ok(closed)) => have_config(closed, &row.shape) && are_atomic(alloc, closed),
        (End::ClosesAfter(parcels), Ok(closed)) => {
            are_atomic(alloc, closed) && board.parcels.load(Ordering::SeqCst) == parcels
        }
        (End::LeavesCall, Ok(closed)) => has_one_pending_call(closed) && are_atomic(alloc, closed),
        (End::Mismatches, Err(error)) => *error == CloseError::SeatMismatch,
        _ => false,
    }
}

/// The text that a row is about.
fn text_of(
    alloc: Global,
    about: About,
    closed: &Result<Closed, CloseError>,
    places: &[Place],
) -> Option<String> {
    let Ok(closed) = closed else {
        return None;
    };
    // The hall of `k0` is the last.
    let journal = closed.halls.last()?.journal.as_slice();
    match about {
        About::Journal => steps_text(alloc, journal),
        About::Counts => counts_text(alloc, journal),
        About::Places => places_text(alloc, places),
        About::Parcels => parcels_text(alloc, places),
    }
    .ok()
}
