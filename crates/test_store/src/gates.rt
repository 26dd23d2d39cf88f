//! Gates that aren't kind, and gates that wait.
use crate::board::Board;
use node_threads::{Gate, OpenGate, Pass, Place};
use std::alloc::Global;
use std::sync::atomic::{AtomicU64, Ordering};
use std::sync::{Arc, Wait};
use std::thread;
use std::time::{Clock, Duration};
use tag::OpId;

/// What a gate does. Places, and parcels, which are requests and replies, are numbered from 1.
#[derive(Clone, Copy)]
pub enum Manner {
    /// Lets each parcel go on.
    Open,
    /// Loses every reply.
    LosesReplies,
    /// Doubles every parcel, and says the same of answers.
    Doubles,
    /// Loses every fifth parcel, and of the others doubles every seventh.
    FifthAndSeventh,
    /// Writes down the places. Does so with the parcel of that number, and lets the others go.
    WritesDown(u64, Pass),
    /// Holds whoever comes to the place of the row's number, until it is told to let go.
    HoldsPlace,
    /// Holds call 0, once it is ready, until it is told to let go.
    HoldsAnswer,
    /// Holds each of replicas 0 and 1 at its reply until the other has come there.
    HoldsReplicas,
    /// Keeps replica 2 at each of its replies for a tenth of a second.
    KeepsReplica,
    /// Loses every reply but the first.
    LosesLaterReplies,
}

/// A gate of that manner.
#[derive(Drop)]
pub struct RowGate<R> {
    pub rt: R,
    pub manner: Manner,
    /// The number of the row's place.
    pub number: u64,
    pub board: Arc<Board, Global>,
}

/// The next number.
fn next(count: &AtomicU64) -> u64 {
    u64::wrapping_add(count.fetch_add(1, Ordering::SeqCst), 1)
}

/// What becomes of the parcel of that number.
fn pass_of(manner: Manner, place: &Place, number: u64) -> Pass {
    match manner {
        Manner::LosesReplies if matches!(place, Place::Reply { .. }) => Pass::Drop,
        Manner::LosesLaterReplies if matches!(place, Place::Reply { .. }) && number > 2 =>
            Pass::Drop,
        Manner::FifthAndSeventh if number % 5 == 0 => Pass::Drop,
        Manner::FifthAndSeventh if number % 7 == 0 => Pass::Twice,
        Manner::WritesDown(picked, pass) if number == picked => pass,
        Manner::Doubles => Pass::Twice,
        _ => OpenGate.at(place),
    }
}

impl<R: Wait + Clock> RowGate<R> {
    /// Writes the place down, or has whoever came there wait.
    fn hold(&self, place: &Place) {
        let board = &*self.board;
        let is_here = next(&board.came) == self.number;
        match (self.manner, place) {
            // A place that can't be written down for want of memory is missing in the row's text.
            (Manner::WritesDown(..), _) => {
                let _ = board.places.lock(&self.rt).push(*place);
            }
            (Manner::HoldsPlace, _) if is_here => {
                board.meet(&self.rt, &board.first, &board.second);
            }
            (Manner::HoldsAnswer, Place::Respond { call, .. }) if *call == OpId(0) => {
                board.meet(&self.rt, &board.first, &board.second);
            }
            (Manner::HoldsReplicas, Place::Reply { replica, .. }) if replica.get() == 0 => {
                board.meet(&self.rt, &board.first, &board.second);
            }
            (Manner::HoldsReplicas, Place::Reply { .. }) => {
                board.meet(&self.rt, &board.second, &board.first);
            }
            (Manner::KeepsReplica, Place::Reply { replica, .. }) if replica.get() == 2 => {
                thread::sleep(&self.rt, Duration::from_millis(100));
            }
            _ => {}
        }
    }
}

impl<R: Wait + Clock> Gate for RowGate<R> {
    ghost answers = { λ gate place pass. Unit {0} };

    fn at(&self, place: &Place) -> Pass {
        self.hold(place);
        match (self.manner, place) {
            (Manner::Doubles, Place::Respond { .. }) => Pass::Twice,
            (_, Place::Respond { .. }) => Pass::Go,
            _ => pass_of(self.manner, place, next(&self.board.parcels)),
        }
    }
}
