//! A script that was given as a history.
ghost use Rattle.std.specs.Prelude.{◌≡◌, ◌++◌, IfOk, OnOk};
ghost use Rattle.counted_devices.specs.DeviceStates.{states};
ghost use Rattle.fault_details.specs.ScriptFaults.{begins_script, begins_word, is_fault_of_scripts};
ghost use Rattle.fault_details.specs.ScriptFaults.{is_space, script_fault_line, seems_script};
ghost use Rattle.fault_details.specs.ScriptFaults.{ExplainsScript};

use crate::script_faults::explain_script_fault;
use counted_devices::CountedRead;
use fault_script::{ErrorKind, ScriptError, parse};
use file_format::{FaultKind, FileFault, LineFault};
use sentences::{append, append_number};
use std::alloc::Global;
use std::thread::Threads;
use tag::Memory;

/// Whether the byte is a blank, a tab, or an end of a line.
fn is_space(byte: u8) -> bool
    ensures { result ≡ is_space byte }
{
    byte == b' ' || byte == b'\t' || byte == b'\n' || byte == b'\r'
}

/// Whether the byte is a letter or `#`.
fn begins_word(byte: u8) -> bool
    ensures { result ≡ begins_word byte }
{
    (byte >= b'A' && byte <= b'Z') || (byte >= b'a' && byte <= b'z') || byte == b'#'
}

/// Whether the first byte that is no white space is a letter or `#`.
fn begins_script(bytes: &[u8]) -> bool
    ensures { result ≡ begins_script bytes.now }
{
    for byte in bytes {
        if !is_space(*byte) {
            return begins_word(*byte);
        }
    }
    false
}

/// Whether a script's line has that fault as a line of a history.
fn is_fault_of_scripts(kind: FaultKind) -> bool
    ensures { result ≡ is_fault_of_scripts kind }
{
    match kind {
        FaultKind::Line(LineFault::NotJson | LineFault::TooLong) => true,
        _ => false,
    }
}

/// Whether a file that has that fault as a history, and begins with those bytes, is taken for a script: its
/// first line is no JSON, or too long, and its first byte that is no white space is a letter or `#`.
pub fn seems_script(fault: FileFault, bytes: &[u8]) -> bool
    ensures { result ≡ seems_script fault bytes.now }
{
    fault.line == 1 && (is_fault_of_scripts(fault.kind) && begins_script(bytes))
}

/// Adds the fault that the file has as a script.
#[tactic(auto, unfolding(crate::specs::ScriptFaults::script_fault_line))]
fn append_fault(text: &mut Vec<u8>, fault: ScriptError) -> Result<(), Memory>
    ensures { OnOk result (text.new.items ≡ text.old.items ++ script_fault_line fault) }
{
    append_number(text, "  as a script: line ", fault.line)?;
    append_number(text, ": script fault ", u64::from(fault.kind.number()))?;
    append(text, " ")?;
    append(text, fault.kind.text())?;
    append(text, "\n")
}

/// What is said of a script that was given as a history: that it is one, or its first fault, and why. Both
/// readers give it from its beginning.
pub fn explain_script<R: CountedRead, S: CountedRead>(
    rt: &(impl Threads + Sync),
    alloc: Global,
    first: &mut R,
    again: &mut S,
) -> Result<Vec<u8>, Memory>
    ensures { IfOk result (λ text. ExplainsScript
        (states R.remaining R.failures first.old first.new)
        (states S.remaining S.failures again.old again.new) text.items) }
{
    let mut text = Vec::new(alloc);
    match parse(rt, alloc, first) {
        Ok(_) => append(&mut text, "  it is a script, which abd simulate runs\n")?,
        Err(fault) if fault.kind == ErrorKind::Memory => return Err(Memory),
        Err(fault) => {
            append_fault(&mut text, fault)?;
            let details = explain_script_fault(alloc, again, fault)?;
            text.extend_from_slice(details.as_slice())?;
        }
    }
    Ok(text)
}
