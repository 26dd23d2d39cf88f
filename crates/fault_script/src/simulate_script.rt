//! Scripts from readers, and the records of their runs to writers.
ghost use Rattle.std.specs.Prelude.{◌≡◌, ◌⊎◌, IfErr, IfOk, IsErrOf, OnOk};
ghost use Rattle.counted_devices.specs.DeviceStates.{states};
ghost use Rattle.counted_devices.specs.FirstFaults.{StopsFrom};
ghost use Rattle.counted_devices.specs.ReadFaults.{FailsFrom};
ghost use Rattle.fault_script.specs.Numbers.{simulate_error_number};
ghost use Rattle.fault_script.specs.Scripts.{script_faults};
ghost use Rattle.fault_script.specs.Simulations.{AreTextsOf, FailsAfterStart, IfScript, SendsBoth};
ghost use Rattle.fault_script.specs.Simulations.{Simulates, TakesText};
ghost use Rattle.fault_script.specs.declared.simulate_script.SimulateError.{SimulateError};

use crate::messages::Messages;
use crate::{ScriptError, parse};
use counted_devices::{CountedRead, CountedWrite, write_text};
use file_format::history_text;
use script_runs::{Script, observe};
use std::alloc::Global;
use std::thread::Threads;
use tag::Memory;
use thiserror::Error;

/// Why a script wasn't simulated.
#[derive(Clone, Copy, Debug, PartialEq, Eq, Error)]
pub enum SimulateError {
    /// The script couldn't be read.
    #[error(transparent)]
    Script(ScriptError),
    /// An allocation was refused.
    #[error("no memory")]
    Memory,
    /// A writer failed.
    #[error("device")]
    Device,
}

impl From<Memory> for SimulateError {
    ghost from_gives = { λ _ e. e ≡ SimulateError.Memory };

    fn from(_: Memory) -> SimulateError {
        SimulateError::Memory
    }
}

impl SimulateError {
    /// Its number as the reasons stand here, 1 to 3.
    pub fn number(self) -> u8
        ensures { result ≡ simulate_error_number self }
    {
        match self {
            SimulateError::Script(_) => 1,
            SimulateError::Memory => 2,
            SimulateError::Device => 3,
        }
    }
}

/// What a run of a script says, and the text of its record.
#[derive(Drop)]
struct Texts {
    messages: Vec<u8>,
    history: Vec<u8>,
}

/// The texts of the script's run.
fn texts_of(alloc: Global, script: Script) -> Result<Texts, Memory>
    ensures { IfOk result (λ texts. AreTextsOf script texts.messages.items texts.history.items) }
{
    let run = observe(alloc, script, Messages::new(alloc))?;
    let history = history_text(alloc, &run.world.into_history())?;
    Ok(Texts {
        messages: run.observer.text,
        history,
    })
}

/// Writes the messages, and then the history.
fn write_texts<W: CountedWrite, M: CountedWrite>(
    texts: &Texts,
    out: &mut W,
    messages: &mut M,
) -> Result<(), SimulateError>
    ensures written { OnOk result (SendsBoth (states M.contents M.failures messages.old messages.new)
        (states W.contents W.failures out.old out.new) texts.now.messages.items texts.now.history.items) }
    ensures begun { IfErr result (λ error.
        (FailsAfterStart (states M.contents M.failures messages.old messages.new) texts.now.messages.items
        × (out.new ≡ out.old))
        ⊎ (TakesText (states M.contents M.failures messages.old messages.new) texts.now.messages.items
        × FailsAfterStart (states W.contents W.failures out.old out.new) texts.now.history.items)) }
    ensures device { IfErr result (λ error. error ≡ SimulateError.Device) }
{
    if write_text(texts.messages.as_slice(), messages).is_err() {
        return Err(SimulateError::Device);
    }
    match write_text(texts.history.as_slice(), out) {
        Ok(()) => Ok(()),
        Err(_) => Err(SimulateError::Device),
    }
}

/// Reads a script to its reader's end, runs it, and writes what is said of its commands to
/// `messages` and then the text of its record to `out`.
///
/// A step that is refused has a message and changes nothing, and so has a call that can't be
/// finished; random steps have one message together, which tells how many of them were taken. What
/// is written to `out` is the history of a run whose parts have sound tags, so that the calls of a
/// key sorted by tag are an order of it. Both texts are made before the first byte of either goes
/// out: a script that can't be read, or an allocation that is refused, leaves both writers as they were.
/// `Device` comes only where a writer failed; a beginning of the messages may then have gone out, or
/// the messages and a beginning of the history.
pub fn simulate<R: CountedRead, W: CountedWrite, M: CountedWrite>(
    rt: &(impl Threads + Sync),
    alloc: Global,
    reader: &mut R,
    out: &mut W,
    messages: &mut M,
) -> Result<(), SimulateError>
    ensures written { OnOk result (Simulates (states R.remaining R.failures reader.old reader.new)
        (SendsBoth (states M.contents M.failures messages.old messages.new)
        (states W.contents W.failures out.old out.new))) }
    ensures begun { IsErrOf result SimulateError.Device
        → Simulates (states R.remaining R.failures reader.old reader.new) (λ said text.
        (FailsAfterStart (states M.contents M.failures messages.old messages.new) said × (out.new ≡ out.old))
        ⊎ (TakesText (states M.contents M.failures messages.old messages.new) said
        × FailsAfterStart (states W.contents W.failures out.old out.new) text)) }
    ensures fault { IfErr result (λ error. IfScript error (λ why.
        StopsFrom script_faults (states R.remaining R.failures reader.old reader.new) why
        × FailsFrom (states R.remaining R.failures reader.old reader.new) why
        × (out.new ≡ out.old) × (messages.new ≡ messages.old))) }
    ensures memory { IsErrOf result SimulateError.Memory
        → (out.new ≡ out.old) × (messages.new ≡ messages.old) }
{
    let script = parse(rt, alloc, reader).map_err(SimulateError::Script)?;
    let texts = texts_of(alloc, script)?;
    write_texts(&texts, out, messages)
}
