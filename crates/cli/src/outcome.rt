//! What a command makes of its files, and how it is sent.
ghost use Rattle.std.specs.Prelude.{◌≡◌, [], OnErr, OnOk, Ok, Err};
ghost use Rattle.counted_devices.specs.DeviceStates.{states};
ghost use Rattle.cli.specs.Devices.{FailsOnce, Receives, ReceivesOrFails, ReceivesPrefix};
ghost use Rattle.cli.specs.Devices.{Writes, writer_states};
ghost use Rattle.cli.specs.Outcomes.{Ends, ended, found_of};

use crate::status::{Failure, Status};
use counted_devices::{CountedWrite, WriteFault, write_text};
use std::alloc::Global;

/// What a command that ran found of the keys.
#[derive(Clone, Copy, Debug, PartialEq, Eq)]
pub enum Found {
    /// All is as it should be.
    Good,
    /// A key is refused.
    Refused,
    /// No key is refused; whether one is atomic isn't decided.
    Undecided,
}

impl Found {
    /// `Good`, or else `Refused`.
    pub fn of(good: bool) -> Found
        ensures { result ≡ found_of good }
    {
        if good { Found::Good } else { Found::Refused }
    }

    /// How the command ends.
    fn status(self) -> Status
        ensures { result ≡ ended self }
    {
        match self {
            Found::Good => Status::Good,
            Found::Refused => Status::Refused,
            Found::Undecided => Status::Undecided,
        }
    }
}

/// What a command makes of its files.
#[derive(Debug, Drop)]
pub struct Outcome {
    /// What goes to the output.
    pub text: Vec<u8>,
    /// What goes to standard error then.
    pub notes: Vec<u8>,
    /// What it found.
    pub found: Found,
}

/// What a command made of its files, or why it made nothing.
pub type Made<'a> = Result<Outcome, Failure<'a>>;

/// Writes the text, if it isn't empty.
fn put<W: CountedWrite>(text: &[u8], out: &mut W) -> Result<(), WriteFault>
    ensures sent { OnOk result
        (Writes (writer_states W.contents W.failures out.old out.new) Receives text.now) }
    ensures begun { OnErr result
        (ReceivesPrefix (states W.contents W.failures out.old out.new) text.now) }
    ensures failed { OnErr result (FailsOnce (states W.contents W.failures out.old out.new)) }
{
    if text.is_empty() {
        return Ok(());
    }
    write_text(text, out)
}

/// Says the notes, if there are any. What the writer refuses is lost, as there is nowhere else to say it.
fn note<E: CountedWrite>(notes: &[u8], errors: &mut E)
    ensures { Writes (writer_states E.contents E.failures errors.old errors.new) ReceivesOrFails notes.now }
{
    if !notes.is_empty() {
        let _ = write_text(notes, errors);
    }
}

impl Outcome {
    /// That text, and nothing for standard error.
    pub fn of_text(alloc: Global, text: Vec<u8>, found: Found) -> Outcome
        ensures text { result.text ≡ text }
        ensures notes { result.notes.items ≡ [] }
        ensures found { result.found ≡ found }
    {
        let notes = Vec::new(alloc);
        Outcome { text, notes, found }
    }

    /// Writes the text, and then says the notes. A failure of `out` is said on `errors` instead.
    fn send<W: CountedWrite, E: CountedWrite>(&self, out: &mut W, errors: &mut E) -> Status
        ensures { Ends (λ outcome. outcome ≡ self.now) (λ failure. ⊥)
            (writer_states W.contents W.failures out.old out.new)
            (writer_states E.contents E.failures errors.old errors.new)
            result }
    {
        if put(self.text.as_slice(), out).is_err() {
            return Failure::Output.report(errors);
        }
        note(self.notes.as_slice(), errors);
        self.found.status()
    }
}

/// Sends what was made, or says on `errors` why nothing was: how the command ends.
///
/// Nothing goes to `out` if nothing was made; after a failure of `out` a beginning of the text may have gone
/// out, and the failure is said on `errors`.
pub fn conclude<W: CountedWrite, E: CountedWrite>(
    made: Made<'_>,
    out: &mut W,
    errors: &mut E,
) -> Status
    ensures { Ends (λ outcome. made.entry ≡ Ok outcome) (λ failure. made.entry ≡ Err failure)
        (writer_states W.contents W.failures out.old out.new)
        (writer_states E.contents E.failures errors.old errors.new)
        result }
{
    match made {
        Ok(outcome) => outcome.send(out, errors),
        Err(failure) => failure.report(errors),
    }
}
