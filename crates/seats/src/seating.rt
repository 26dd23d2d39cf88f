//! What the store makes seats with, and makes calls on them with.
//!
//! A call goes to the hall of its key (`Halls::of`): the store sees to that, and these functions take any
//! hall. So `node_threads` uses them and doesn't give them to its callers; a program over a store lists
//! `node_threads`, and names nothing of this crate.
ghost use Rattle.std.specs.Prelude.{◌≡◌, ◌<◌, [], false, length};
ghost use Rattle.seats.specs.Answers.{CallLeaves};
ghost use Rattle.seats.specs.Rounds.{Reach};
ghost use Rattle.seats.specs.Seats.{AreFresh, value_of};

use crate::errand::Outcome;
use crate::errors::CallError;
use crate::gate::Gate;
use crate::receipt::Receipt;
use crate::seat::{Answer, Seat};
use crate::transport::Transport;
use hall_lock::{Begun, ClientPass, Ended};
use recorder::{Entry, OwnResponse};
use std::alloc::Global;
use std::sync::Wait;
use tag::{Action, ClientId, Key, Returned, Value};

/// A seat of a client that has just joined: a pass and a place for each hall, hall 0 first.
pub fn new_seat(
    alloc: Global,
    store: u64,
    client: ClientId,
    passes: Vec<ClientPass>,
    seen: Vec<usize>,
) -> Seat
    requires halls { length seen.items ≡ length passes.items }
    requires fresh { AreFresh client passes.items }
    ensures { result ≡ record {
      store = store;
      client = client;
      is_spent = false;
      log = [];
      passes = passes.items;
      seen = seen.items;
    } }
{
    Seat {
        store,
        client,
        is_spent: false,
        log: Vec::new(alloc),
        passes,
        seen,
    }
}

/// Makes a call of the seat's client in the transport's hall. It may wait for other threads. If an
/// allocation fails before the call began, all is as before; later the call is pending.
/// A record with fewer rows than the seat has seen gives `Foreign`, unless there was no memory for the call
/// before its first turn.
pub fn call_on<R: Wait, G: Gate>(
    seat: &mut Seat,
    rt: &R,
    transport: &Transport<G>,
    key: Key,
    action: Action,
) -> Result<Answer, CallError>
    requires unspent { seat.old.is_spent ≡ false }
    requires there { transport.now.hall < length seat.old.passes }
    ensures { CallLeaves (record {
      replicas = length transport.now.replicas.now;
      rounds = transport.now.rounds;
    }) seat.old transport.now.hall key action result seat.new }
{
    let hall = transport.hall;
    let at = usize::from(hall);
    let kept_key = key.copy()?;
    let kept_action = action.copy()?;
    seat.log.reserve(1)?;
    let seen = seat.seen[at];
    match transport.make_call(rt, &mut seat.passes[at], key, action, seen) {
        Outcome::Refused(error) => Err(error),
        Outcome::Pending(begun, error) => {
            seat.log
                .push_reserved(entry(hall, begun, kept_key, kept_action, None));
            seat.seen[at] = begun.place + 1;
            seat.is_spent = true;
            Err(error)
        }
        Outcome::Done(begun, ended) => {
            let place = ended.place;
            let (response, value) = response_of(ended);
            seat.log
                .push_reserved(entry(hall, begun, kept_key, kept_action, Some(response)));
            seat.seen[at] = place + 1;
            let receipt = Receipt::new(seat.store, hall, begun.op, place);
            Ok(Answer { value, receipt })
        }
    }
}

/// The entry of a call that began in that hall.
fn entry(hall: u8, begun: Begun, key: Key, action: Action, response: Option<OwnResponse>) -> Entry
    ensures { result ≡ record {
      hall = hall;
      op = begun.op;
      key = key;
      action = action;
      invoked = begun.place;
      response = response;
    } }
{
    Entry {
        hall,
        op: begun.op,
        key,
        action,
        invoked: begun.place,
        response,
    }
}

/// What an answered call leaves: its log the response, its caller the value.
fn response_of(ended: Ended) -> (OwnResponse, Option<Value>)
    ensures response { result.0 ≡ record { place = ended.place; returned = ended.returned } }
    ensures value { result.1 ≡ value_of ended.copy }
{
    let Ended {
        place,
        returned,
        copy,
        ..
    } = ended;
    (OwnResponse::new(place, returned), value_of(copy))
}

/// What a read answered; a write none.
fn value_of(returned: Returned) -> Option<Value>
    ensures { result ≡ value_of returned }
{
    match returned {
        Returned::Value(value) => value,
        Returned::Written => None,
    }
}
