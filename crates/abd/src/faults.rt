//! Faults of files, explained on standard error below the line that names them.
use crate::opened::{OpenedFile, Unread};
use cli::Counting;
use fault_details::{explain_history_fault, explain_orders_fault, explain_script, seems_script};
use file_format::{FaultKind, FileFault};
use std::io::Read;
use std::thread::Threads;

/// Why a fault isn't explained.
fn unexplained(why: Unread) -> &'static str {
    match why {
        Unread::TooLong => {
            "  not explained: the file can't be read again, and more than 16,777,216 bytes of it were read\n"
        }
        Unread::Device => "  not explained: the file can't be read again\n",
        Unread::Memory => "  not explained: no memory\n",
    }
}

/// Says why a file has its fault, or why that isn't explained. If standard error takes it not, it is lost.
fn say(rt: &HostRuntime, why: Result<Vec<u8>, Unread>) {
    match why {
        Ok(text) => {
            if let Ok(words) = std::str::from_utf8(text.as_slice()) {
                let _ = rt.eprint(words);
            }
        }
        Err(why) => {
            let _ = rt.eprint(unexplained(why));
        }
    }
}

/// The first bytes of the file, of which one read gives 65,536 at most.
fn first_bytes(rt: &HostRuntime, file: &OpenedFile) -> Result<Vec<u8>, Unread> {
    let Ok(mut bytes) = vec![in rt.alloc(); 0u8; 65_536] else {
        return Err(Unread::Memory);
    };
    match file.again()?.read(bytes.as_mut_slice()) {
        Ok(count) => {
            bytes.truncate(count);
            Ok(bytes)
        }
        Err(_) => Err(Unread::Device),
    }
}

/// Of a script that was given as a history: why it has a fault, if it has one.
fn script_details(
    rt: &HostRuntime,
    threads: &(impl Threads + Sync),
    file: &OpenedFile,
) -> Result<Vec<u8>, Unread> {
    let mut first = Counting::new(file.again()?);
    let mut again = Counting::new(file.again()?);
    Ok(explain_script(threads, rt.alloc(), &mut first, &mut again)?)
}

/// Why the history has the fault. Of a script the rest is read too.
fn history_details(
    rt: &HostRuntime,
    threads: &(impl Threads + Sync),
    mut file: OpenedFile,
    fault: FileFault,
) -> Result<Vec<u8>, Unread> {
    if seems_script(fault, first_bytes(rt, &file)?.as_slice()) {
        file.read_on(rt.alloc())?;
        return script_details(rt, threads, &file);
    }
    let mut reader = Counting::new(file.again()?);
    let again = file.again()?;
    Ok(explain_history_fault(threads, rt.alloc(), &mut reader, again, fault)?)
}

/// Why the orders have the fault.
fn orders_details(
    rt: &HostRuntime,
    file: &OpenedFile,
    fault: FileFault,
) -> Result<Vec<u8>, Unread> {
    let mut reader = Counting::new(file.again()?);
    Ok(explain_orders_fault(rt.alloc(), &mut reader, fault)?)
}

/// Whether the fault is one of a line.
fn is_of_a_line(fault: FileFault) -> bool {
    matches!(fault.kind, FaultKind::Line(_))
}

/// Says on standard error why the history has the fault.
pub fn explain_history(
    rt: &HostRuntime,
    threads: &(impl Threads + Sync),
    file: OpenedFile,
    fault: FileFault,
) {
    if is_of_a_line(fault) {
        say(rt, history_details(rt, threads, file, fault));
    }
}

/// Says on standard error why the orders have the fault.
pub fn explain_orders(rt: &HostRuntime, file: &OpenedFile, fault: FileFault) {
    if is_of_a_line(fault) {
        say(rt, orders_details(rt, file, fault));
    }
}
