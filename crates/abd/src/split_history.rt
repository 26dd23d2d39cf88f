//! The command `split`: it opens the pieces' files, and gives them their names once all are whole.
use crate::split_files::{Folder, WriteErrors};
use crate::split_progress::Splitting;
use cli::{Counting, Source, Status};
use command_line::SplitAsked;
use split_command::{NoWatch, Split, Watch, split_command};
use std::io::{IsTerminal, Read};
use std::thread::Threads;

/// How many calls on how many keys the pieces have.
#[derive(Clone, Copy)]
struct Counts {
    calls: u64,
    keys: usize,
}

/// Splits what the reader gives into files in the folder. What is wrong is said; the status then.
fn split_into<R: Read + Drop>(
    rt: &HostRuntime,
    threads: &(impl Threads + Sync),
    folder: &mut Folder<'_>,
    history: &mut Source<'_, Counting<R>>,
    watch: &impl Watch,
) -> Result<Counts, Status> {
    if let Err(trouble) = folder.make() {
        return Err(folder.tell(trouble));
    }
    let failed = WriteErrors::new();
    let files = match folder.open(&failed) {
        Ok(files) => files,
        Err(trouble) => return Err(folder.tell(trouble)),
    };
    // The words ask for a piece at least.
    if files.is_empty() {
        return Err(Status::Usage);
    }
    let mut errors = Counting::new(rt.stderr());
    let alloc = rt.alloc();
    match split_command(threads, alloc, history, files, watch, &mut errors) {
        Ok(Split { files, calls, keys }) => match folder.finish(files) {
            Ok(()) => Ok(Counts { calls, keys }),
            Err(trouble) => Err(folder.tell(trouble)),
        },
        Err(status) => {
            if let Some(trouble) = failed.trouble() {
                folder.tell(trouble);
            }
            Err(status)
        }
    }
}

/// Splits what the reader gives. If that fails nothing is left of it.
fn split_watched<R: Read + Drop>(
    rt: &HostRuntime,
    threads: &(impl Threads + Sync),
    history: &mut Source<'_, Counting<R>>,
    asked: &SplitAsked<'_>,
    watch: &impl Watch,
) -> Result<Counts, Status> {
    let mut folder = Folder::new(rt, asked.into, asked.parts);
    let split = split_into(rt, threads, &mut folder, history, watch);
    if split.is_err() {
        folder.clear();
    }
    split
}

/// Splits what the reader gives, of that name. Only a terminal is told how far it is, and how it ended.
pub fn split_from<R: Read + Drop>(
    rt: &HostRuntime,
    threads: &(impl Threads + Sync),
    name: &str,
    reader: R,
    asked: &SplitAsked<'_>,
) -> Status {
    let mut history = Source::new(name, Counting::new(reader));
    if rt.stderr().is_terminal() {
        if let Ok(watch) = Splitting::new(*rt) {
            return match split_watched(rt, threads, &mut history, asked, &watch) {
                Ok(counts) => {
                    watch.say_end(counts.calls, counts.keys, asked.parts);
                    Status::Good
                }
                Err(status) => status,
            };
        }
    }
    match split_watched(rt, threads, &mut history, asked, &NoWatch) {
        Ok(_) => Status::Good,
        Err(status) => status,
    }
}
