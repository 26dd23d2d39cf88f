//! `abd check`: the verdict on each key's order.
ghost use Rattle.cli.specs.Checks.{EndsCheck};
ghost use Rattle.cli.specs.Devices.{file_states, writer_states};

use crate::check_outcome::check_outcome;
use crate::outcome::conclude;
use crate::sources::{Source, histories_in, orders_in};
use crate::status::Status;
use command_line::Lines;
use counted_devices::{CountedRead, CountedWrite};
use parallel_keys::Workers;
use std::alloc::Global;
use std::sync::Wait;
use std::thread::Threads;

/// Reads the history, of version 1 or 2, and then the orders, and prints a line for each key in that form: the
/// keys of the history hall by hall, in each in the order in which it first sees them, then those
/// that only the orders have.
///
/// What goes to `out` is those lines, once all keys are checked, or after a failure of `out` a
/// beginning of them; nothing where either file has a fault. A fault of the orders is answered only
/// where the history was read whole. A failure is said on `errors`. `Good` where every line says
/// yes, `Refused` where one says no. The lines and the status are the same for every number of
/// workers, each of which checks its share of the keys.
pub fn check_command<'a, H: CountedRead, O: CountedRead, W: CountedWrite, E: CountedWrite>(
    rt: &(impl Threads + Wait + Sync),
    alloc: Global,
    history: &mut Source<'a, H>,
    orders: &mut Source<'a, O>,
    workers: Workers,
    form: Lines,
    out: &mut W,
    errors: &mut E,
) -> Status
    ensures { EndsCheck form workers
        (file_states H.remaining H.failures history.old history.new)
        (file_states O.remaining O.failures orders.old orders.new)
        (writer_states W.contents W.failures out.old out.new)
        (writer_states E.contents E.failures errors.old errors.new)
        result }
{
    let histories = match histories_in(rt, alloc, history) {
        Ok(histories) => histories,
        Err(failure) => return failure.report(errors),
    };
    let orders = match orders_in(rt, alloc, orders) {
        Ok(orders) => orders,
        Err(failure) => return failure.report(errors),
    };
    let made = check_outcome(rt, alloc, &histories, orders.as_slice(), workers, form);
    conclude(made, out, errors)
}
