//! What is said if the words of a command line make no command.
ghost use Rattle.std.specs.Prelude.{string_bytes};
ghost use Rattle.counted_devices.specs.DeviceStates.{states};
ghost use Rattle.cli.specs.Devices.{ReceivesOrFails, writer_states};
ghost use Rattle.cli.specs.Outcomes.{Ends};
ghost use Rattle.cli.specs.Usages.{EndsUsage, IsShown};

use crate::outcome::{Found, Outcome, conclude};
use crate::status::{Failure, Status};
use command_line::Usage;
use counted_devices::{CountedWrite, write_text};
use std::alloc::Global;

/// The outcome that shows the text.
fn shown(alloc: Global, text: String) -> Outcome
    ensures { IsShown (string_bytes text) result }
{
    Outcome::of_text(alloc, text.into_bytes(), Found::Good)
}

/// Writes the text.
fn show<W: CountedWrite, E: CountedWrite>(
    alloc: Global,
    text: String,
    out: &mut W,
    errors: &mut E,
) -> Status
    ensures { Ends (IsShown (string_bytes text)) (λ why. ⊥)
        (writer_states W.contents W.failures out.old out.new)
        (writer_states E.contents E.failures errors.old errors.new)
        result }
{
    conclude(Ok(shown(alloc, text)), out, errors)
}

/// Says the text. What the writer refuses is lost, as there is nowhere else to say it.
fn say_text<E: CountedWrite>(text: &[u8], errors: &mut E)
    ensures { ReceivesOrFails (states E.contents E.failures errors.old errors.new) text.now }
{
    let _ = write_text(text, errors);
}

/// Writes the help or the version that was asked for to `out`, or says on `errors` why the words make
/// no command.
///
/// `Good` only if the text went out; `Usage` only if the words have a fault. After a failure of `out`
/// a beginning of the text may have gone out, and the failure is said on `errors`.
pub fn usage_command<W: CountedWrite, E: CountedWrite>(
    alloc: Global,
    usage: Usage,
    out: &mut W,
    errors: &mut E,
) -> Status
    ensures { EndsUsage usage
        (writer_states W.contents W.failures out.old out.new)
        (writer_states E.contents E.failures errors.old errors.new)
        result }
{
    match usage {
        Usage::Help(text) => show(alloc, text, out, errors),
        Usage::Version(text) => show(alloc, text, out, errors),
        Usage::Fault(text) => {
            say_text(text.as_bytes(), errors);
            Status::Usage
        }
        Usage::Memory => Failure::Memory.report(errors),
    }
}
