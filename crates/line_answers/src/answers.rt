//! Answers to rows, as answers to their lines.
ghost use Rattle.std.specs.Prelude.{◌≡◌};
ghost use Rattle.line_answers.specs.Stops.{line_answer, stop_of};

use file_format::{LineFault, Stop};
use open_calls::CallRefusal;

/// The fault of a line whose row is refused.
fn stop_of(refusal: CallRefusal) -> Stop
    ensures { result ≡ stop_of refusal }
{
    match refusal {
        CallRefusal::OutOfTurn => Stop::Fault(LineFault::CallOutOfTurn),
        CallRefusal::ClientBusy => Stop::Fault(LineFault::ClientBusy),
        CallRefusal::NotPending => Stop::Fault(LineFault::CallNotPending),
        CallRefusal::WrongKind => Stop::Fault(LineFault::WrongKind),
        CallRefusal::NoteTwice => Stop::Fault(LineFault::NoteTwice),
        CallRefusal::Memory => Stop::Memory,
    }
}

/// What is answered to a row, as it is answered to its line.
pub fn line_answer<T>(answer: Result<T, CallRefusal>) -> Result<T, Stop>
    ensures { result ≡ line_answer answer }
{
    match answer {
        Ok(taken) => Ok(taken),
        Err(refusal) => Err(stop_of(refusal)),
    }
}
