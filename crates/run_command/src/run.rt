//! `abd run`.
ghost use Rattle.std.specs.Prelude.{◌≡◌, ◌⊎◌};
ghost use Rattle.counted_devices.specs.Counts.{IsOneMore};
ghost use Rattle.counted_devices.specs.DeviceStates.{states};
ghost use Rattle.node_threads.specs.Closings.{AreClosed};
ghost use Rattle.run_command.specs.Messages.{SaysEnding};
ghost use Rattle.run_command.specs.Runs.{EndsClosedHalls, EndsRun};

use crate::check_record::first_refused;
use crate::join_halls::{ClosedRecord, closed_record};
use crate::shown::shown_text;
use crate::telling::{
    tell_check, tell_close, tell_load, tell_no_text, tell_refusals, tell_refused_key,
};
use cli::{Failure, Status};
use command_line::RunAsked;
use counted_devices::{CountedWrite, write_text};
use load_run::{LoadOutcome, Watch, run_load, world_of};
use node_threads::ClosedHall;
use std::alloc::Global;
use std::sync::Wait;
use std::thread::Threads;

/// Checks the keys of the closed halls, and writes what is shown of their histories.
#[tactic(auto, using(crate::proofs::Ending::ends_checked))]
fn finish<R: Threads + Wait, W: CountedWrite, E: CountedWrite>(
    rt: &R,
    alloc: Global,
    asked: RunAsked,
    halls: Vec<ClosedHall>,
    watch: &impl Watch,
    out: &mut W,
    errors: &mut E,
) -> Status
    requires { AreClosed halls.items }
    ensures ends { EndsClosedHalls asked halls.items
        (states W.contents W.failures out.old out.new) result }
    ensures said { SaysEnding halls.items
        (states W.contents W.failures out.old out.new)
        (states E.contents E.failures errors.old errors.new) result }
    ensures failed { result ≡ Status.Failed
        → (out.new ≡ out.old) ⊎ IsOneMore (W.failures out.old) (W.failures out.new) }
{
    let config = world_of(&asked.load.options());
    let ClosedRecord { histories, orders } = match closed_record(alloc, halls, config) {
        Ok(record) => record,
        Err(error) => return tell_no_text(error, errors),
    };
    let first = match first_refused(rt, alloc, &histories, orders.as_slice(), watch) {
        Ok(first) => first,
        Err(error) => return tell_check(error, errors),
    };
    let status = tell_refused_key(alloc, &first, errors);
    if status == Status::Failed {
        return status;
    }
    let text = match shown_text(alloc, &histories, asked.shown) {
        Ok(text) => text,
        Err(error) => return tell_no_text(error, errors),
    };
    match write_text(text.as_slice(), out) {
        Ok(()) => status,
        Err(_) => Failure::Output.report(errors),
    }
}

/// Runs a store under the load, closes it, checks each key of each hall, and writes the history of
/// the hall that is shown, or the histories of all halls, by hall.
///
/// `Good` where the verdict on every key is yes. The history is written also where a key is
/// refused, with the quorums that the closed halls were configured with; nothing is where the load
/// wasn't run to its end, the store wasn't closed, a closed hall has another configuration than
/// was asked for, or memory ran out. On `errors` is said, in this order: which callers' calls were
/// refused, why the store wasn't closed, the first key that is refused, a failure. The watch is
/// told of each call that is about to be answered, on its caller's thread, and of none once any of
/// this is said; then how many keys were checked, and how many of them are yes.
#[tactic(auto, using(crate::proofs::Ending::ends_closed, crate::proofs::Ending::ends_open))]
pub fn run_command<R, L, W: CountedWrite, E: CountedWrite>(
    rt: &R,
    alloc: Global,
    asked: RunAsked,
    watch: &L,
    out: &mut W,
    errors: &mut E,
) -> Status
where
    R: Threads + Wait + Copy + Send + Sync + 'static,
    L: Watch + Send + Sync + Drop + 'static,
    ensures ends { EndsRun asked
        (states W.contents W.failures out.old out.new)
        (states E.contents E.failures errors.old errors.new) result }
    ensures failed { result ≡ Status.Failed
        → (out.new ≡ out.old) ⊎ IsOneMore (W.failures out.old) (W.failures out.new) }
{
    let loaded = match run_load(rt, alloc, asked.load, watch) {
        Ok(loaded) => loaded,
        Err(error) => return tell_load(error, errors),
    };
    let LoadOutcome { refusals, closed } = loaded;
    tell_refusals(refusals.as_slice(), errors);
    match closed {
        Ok(closed) => finish(rt, alloc, asked, closed.halls, watch, out, errors),
        Err(error) => tell_close(error, errors),
    }
}
