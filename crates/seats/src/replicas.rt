//! Replicas, each served by a thread of its own.
ghost use Rattle.std.specs.Prelude.{◌≡◌, length};
ghost use Rattle.seats.specs.Parcels.{ReplyMeetsGate, ServesRequest};

use crate::gate::{Gate, Pass, Place};
use crate::patience::next_message;
use crossbeam_channel::{Receiver, Sender};
use hall_lock::FreePass;
use recorder::Halls;
use std::sync::Wait;
use tag::{OpId, ReplicaId};
use world_steps::Step;

/// A request that was posted to a replica.
#[derive(Drop)]
pub struct Parcel {
    /// The hall of its call.
    pub hall: u8,
    /// The call that it was sent for.
    pub call: OpId,
    /// Its flight in that hall.
    pub flight: u32,
    /// Where the replica reports.
    pub reports: Sender<Report>,
}

/// What became of a parcel.
#[derive(Clone, Copy, Debug, Drop)]
pub enum Report {
    /// There is no reply.
    Blank,
    /// The reply is this flight.
    Reply(u32),
    /// The reply is this flight, and came twice.
    Twice(u32),
}

/// Serves a replica in all halls, with a pass to each, as long as there may be parcels.
pub fn serve<R: Wait, G: Gate>(
    rt: &R,
    gate: &G,
    replica: ReplicaId,
    halls: Halls,
    mut passes: Vec<FreePass>,
    parcels: Receiver<Parcel>,
)
    requires { length passes.items ≡ halls }
{
    for _ in rt.forever() {
        let Some(parcel) = next_message(rt, &parcels) else {
            return;
        };
        let report = if parcel.hall < halls.count() {
            handle(
                rt,
                gate,
                replica,
                &mut passes[usize::from(parcel.hall)],
                &parcel,
            )
        } else {
            Report::Blank
        };
        // The report has its room (`report_room`), so this neither waits nor takes memory; a caller that
        // has ended hears no more.
        let _ = parcel.reports.send(rt, report);
    }
}

/// Has the replica handle a request. Its reply comes back as the gate says.
fn handle<R: Wait, G: Gate>(
    rt: &R,
    gate: &G,
    replica: ReplicaId,
    pass: &mut FreePass,
    parcel: &Parcel,
) -> Report
    ensures { ServesRequest (G.answers gate.now) parcel.now.hall parcel.now.call pass.old replica
        parcel.now.flight result pass.new }
{
    let flight = match pass.deliver(rt, replica, parcel.flight) {
        Ok(flight) => flight,
        Err(_) => return Report::Blank,
    };
    let place = Place::Reply {
        hall: parcel.hall,
        call: parcel.call,
        replica,
    };
    report_of(rt, pass, gate.at(&place), flight)
}

/// Loses a reply or has it come once more, as the gate says. What is reported of it.
fn report_of<R: Wait>(rt: &R, pass: &mut FreePass, answer: Pass, flight: u32) -> Report
    ensures { ReplyMeetsGate answer pass.old flight result pass.new }
{
    match answer {
        Pass::Go => Report::Reply(flight),
        Pass::Drop => {
            let _ = pass.take(rt, Step::Lose { flight });
            Report::Blank
        }
        Pass::Twice => match pass.take(rt, Step::Repeat { flight }) {
            Ok(_) => Report::Twice(flight),
            Err(_) => Report::Reply(flight),
        },
    }
}
