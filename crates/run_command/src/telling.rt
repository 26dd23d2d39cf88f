//! What is said of a run on standard error. What it refuses is lost, as there is nowhere else to say it.
ghost use Rattle.std.specs.Prelude.{◌≡◌, ◌++◌, codes};
ghost use Rattle.counted_devices.specs.DeviceStates.{states};
ghost use Rattle.cli.specs.Devices.{ReceivesOrFails};
ghost use Rattle.cli.specs.declared.status.Status.{Status};
ghost use Rattle.run_command.specs.Messages.{ReceivesLines, TellsKey, check_line, close_line, load_line};
ghost use Rattle.run_command.specs.Messages.{no_text_line, refusal_line, refusal_lines};
ghost use Rattle.run_command.specs.Runs.{status_of_close};

use crate::check_record::RefusedKey;
use crate::shown::NoText;
use cli::{Failure, Status, Unjustified, say};
use counted_devices::CountedWrite;
use itoa::Buffer;
use load_run::{LoadError, Refused};
use node_threads::CloseError;
use parallel_keys::CheckError;
use std::alloc::Global;

/// Says that the call of a caller was refused, and why, one line.
fn say_refused<'a, E: CountedWrite>(caller: &'a str, number: &'a str, name: &'a str, errors: &mut E)
    ensures { ReceivesOrFails (states E.contents E.failures errors.old errors.new)
        (codes "abd: caller " ++ caller.now ++ codes ": call refused "
        ++ number.now ++ codes " " ++ name.now ++ codes "\n") }
{
    let pieces = [
        "abd: caller ",
        caller,
        ": call refused ",
        number,
        " ",
        name,
        "\n",
    ];
    say(&pieces, errors);
}

/// Says that the caller's call was refused, and why.
fn tell_refused<E: CountedWrite>(refused: Refused, errors: &mut E)
    ensures { ReceivesOrFails (states E.contents E.failures errors.old errors.new) (refusal_line refused) }
{
    let (mut caller, mut number) = (Buffer::new(), Buffer::new());
    say_refused(
        caller.format(refused.caller.get()),
        number.format(refused.error.number()),
        refused.error.name(),
        errors,
    );
}

/// Says of each caller whose call was refused why, in order of name.
pub(crate) fn tell_refusals<E: CountedWrite>(refusals: &[Refused], errors: &mut E)
    ensures { ReceivesLines (states E.contents E.failures errors.old errors.new)
        (refusal_lines refusals.now) }
{
    for refused in refusals {
        tell_refused(*refused, errors);
    }
}

/// Says why the load wasn't run to its end. The status.
pub(crate) fn tell_load<E: CountedWrite>(error: LoadError, errors: &mut E) -> Status
    ensures status { result ≡ Status.Failed }
    ensures told { ReceivesOrFails (states E.contents E.failures errors.old errors.new) (load_line error) }
{
    match error {
        LoadError::Memory => Failure::Memory.report(errors),
        LoadError::Thread => Failure::Thread.report(errors),
        LoadError::ClientTaken => {
            say(&["abd: a caller's name was taken\n"], errors);
            Status::Failed
        }
    }
}

/// Says why the store wasn't closed. The status.
pub(crate) fn tell_close<E: CountedWrite>(error: CloseError, errors: &mut E) -> Status
    ensures status { result ≡ status_of_close error }
    ensures told { ReceivesOrFails (states E.contents E.failures errors.old errors.new) (close_line error) }
{
    let mut number = Buffer::new();
    say_close(number.format(error.number()), error.name(), errors);
    match error {
        CloseError::SeatMismatch => Status::Refused,
        CloseError::Memory => Status::Failed,
    }
}

/// Says that the store wasn't closed, and why, one line.
fn say_close<'a, E: CountedWrite>(number: &'a str, name: &'a str, errors: &mut E)
    ensures { ReceivesOrFails (states E.contents E.failures errors.old errors.new)
        (codes "abd: close refused " ++ number.now ++ codes " " ++ name.now ++ codes "\n") }
{
    say(&["abd: close refused ", number, " ", name, "\n"], errors);
}

/// Says why the keys weren't checked. The status.
pub(crate) fn tell_check<E: CountedWrite>(error: CheckError, errors: &mut E) -> Status
    ensures status { result ≡ Status.Failed }
    ensures told { ReceivesOrFails (states E.contents E.failures errors.old errors.new) (check_line error) }
{
    Failure::from(error).report(errors)
}

/// Says why there is no text to write. The status.
pub(crate) fn tell_no_text<E: CountedWrite>(error: NoText, errors: &mut E) -> Status
    ensures status { result ≡ Status.Failed }
    ensures told { ReceivesOrFails (states E.contents E.failures errors.old errors.new)
        (no_text_line error) }
{
    match error {
        NoText::Memory => Failure::Memory.report(errors),
        NoText::Apart => {
            say(&["abd: the halls' records make no history\n"], errors);
            Status::Failed
        }
    }
}

/// Says the first key whose order is refused, if one is. The status; `Failed` where an allocation was refused,
/// which is said instead.
pub(crate) fn tell_refused_key<E: CountedWrite>(
    alloc: Global,
    first: &Option<RefusedKey>,
    errors: &mut E,
) -> Status
    ensures { TellsKey first.now (states E.contents E.failures errors.old errors.new) result }
{
    let Some(refused) = first else {
        return Status::Good;
    };
    let (key, fault) = (&refused.key, refused.fault);
    Unjustified::NoOrder { key, fault }.report(alloc, errors)
}
