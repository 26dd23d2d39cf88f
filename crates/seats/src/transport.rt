//! What carries a call's messages between its client and the replicas.
ghost use Rattle.std.specs.Prelude.{◌≡◌, ◌-◌, ◌*◌, ◌^◌, IfOk, min};

use crate::gate::Gate;
use crate::replicas::{Parcel, Report};
use crossbeam_channel::{Receiver, Sender, bounded};
use std::alloc::Global;
use tag::Memory;

/// What carries the messages of a call in its hall, made before the call begins.
#[derive(Drop)]
pub struct Transport<'a, G> {
    pub gate: &'a G,
    /// The channels to the replicas, by their numbers.
    pub replicas: &'a [Sender<Parcel>],
    pub hall: u8,
    /// How many rounds a phase makes at most.
    pub rounds: u16,
    /// Where the replicas report, and where that is heard. It has room for all reports that can be under way.
    pub reports: Sender<Report>,
    pub inbox: Receiver<Report>,
}

/// How many reports of a call can be under way at most, with so many replicas.
///
/// A replica reports once on each parcel, also where its reply came twice, and a round sends each replica at
/// most two parcels. A round begins only when no report is awaited, except the first of the second phase:
/// reports of the last round of the first phase may then still be under way. So they are at most those of
/// two rounds. A call has no third phase: replies to the first are stale in the second.
fn report_room(replicas: usize) -> usize
    ensures { result ≡ min (4 * replicas) (2 ^ 64 - 1) }
{
    replicas.saturating_mul(4)
}

impl<'a, G: Gate> Transport<'a, G> {
    /// The transport in that hall, with the gate, the replicas and the rounds that are given. What is
    /// reported of the call has its room from now on, so no report needs memory, and none waits.
    pub fn new(
        alloc: Global,
        gate: &'a G,
        replicas: &'a [Sender<Parcel>],
        hall: u8,
        rounds: u16,
    ) -> Result<Transport<'a, G>, Memory>
        ensures gate { IfOk result (λ transport. transport.gate.now ≡ gate.now) }
        ensures replicas { IfOk result (λ transport. transport.replicas.now ≡ replicas.now) }
        ensures hall { IfOk result (λ transport. transport.hall ≡ hall) }
        ensures rounds { IfOk result (λ transport. transport.rounds ≡ rounds) }
    {
        let (reports, inbox) = bounded(alloc, report_room(replicas.len()))?;
        Ok(Transport {
            gate,
            replicas,
            hall,
            rounds,
            reports,
            inbox,
        })
    }
}
