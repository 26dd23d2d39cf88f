//! The program `abd`: it opens files, hands them to the commands, and ends with their status.
#![tactic(auto)]

mod faults;
mod names;
mod opened;
mod progress;
mod seconds;
mod split_files;
mod split_history;
mod split_progress;
mod watching;

use crate::faults::{explain_history, explain_orders};
use crate::names::FileName;
use crate::opened::OpenedFile;
use crate::progress::{Progress, SharedProgress};
use crate::split_history::split_from;
use crate::watching::Watching;
use cli::{
    Counting, Failure, Source, Status, check_command, justify_command, simulate_command,
    usage_command,
};
use command_line::{
    By, CheckAsked, Command, DecideAsked, DrawAsked, JustifyAsked, KeysAsked, MonitorAsked,
    RunAsked, SplitAsked, command,
};
use decide_command::Deciding;
use draw_command::Drawn;
use explain_command::Explaining;
use judged_keys::{
    FaultyFile, Presentation, Selection, judge_history_command, judge_orders_command,
};
use justify_by_values::Justifying;
use monitor_command::{Monitoring, monitor_command};
use run_command::{NoWatch, Watch, run_command};
use std::fs::File;
use std::io::{ErrorKind, IsTerminal, Read, Stderr, Stdout};
use std::process::ExitCode;
use std::sync::Wait;
use std::thread::Threads;
use std::{env, fs};
use trace_command::{trace_command, trace_page_command};
use whole_pictures::Whole;

/// A file that was opened, whose failures are counted.
type Opened<'a> = Source<'a, Counting<File>>;

/// The same of a file that can be read once more.
type Rereadable<'a> = Source<'a, Counting<OpenedFile>>;

/// Standard output, whose failures are counted.
type Out = Counting<Stdout>;

/// Standard error, whose failures are counted.
type Errors = Counting<Stderr>;

/// What messages call standard input.
const STANDARD_INPUT: &str = "standard input";

/// Says the failure on standard error. Its status.
fn fail(rt: &HostRuntime, failure: Failure<'_>) -> Status {
    failure.report(&mut Counting::new(rt.stderr()))
}

/// Opens the file. If it can't be opened, says so; the status then.
fn open<'a>(rt: &HostRuntime, name: &'a FileName<'_>) -> Result<Opened<'a>, Status> {
    match fs::open(rt, name.given) {
        Ok(file) => Ok(Source::new(name.told(), Counting::new(file))),
        Err(_) => Err(fail(rt, Failure::Closed { name: name.told() })),
    }
}

/// Standard output and standard error.
fn outputs(rt: &HostRuntime) -> (Out, Errors) {
    (Counting::new(rt.stdout()), Counting::new(rt.stderr()))
}

/// The file, of which nothing was read, as one that can be read once more.
fn rereadable<'a>(rt: &HostRuntime, file: Opened<'a>) -> Rereadable<'a> {
    let opened = OpenedFile::new(rt.alloc(), file.reader.into_inner());
    Source::new(file.name, Counting::new(opened))
}

/// Opens the file, and hands it on.
fn on_opened<F>(rt: &HostRuntime, name: &str, run: F) -> Status
where
    F: FnOnce(Opened<'_>) -> Status,
    requires { F.IsAlwaysCallable run }
{
    let Ok(name) = FileName::new(rt, name) else {
        return fail(rt, Failure::Memory);
    };
    match open(rt, &name) {
        Ok(file) => run(file),
        Err(status) => status,
    }
}

/// Opens the file, and runs the command on it.
fn on_file<F>(rt: &HostRuntime, name: &str, run: F) -> Status
where
    F: FnOnce(Opened<'_>, &mut Out, &mut Errors) -> Status,
    requires { F.IsAlwaysCallable run }
{
    on_opened(rt, name, |file| {
        let (mut out, mut errors) = outputs(rt);
        run(file, &mut out, &mut errors)
    })
}

/// Opens both files; the second only if the first could be opened.
fn open_both<'a>(
    rt: &HostRuntime,
    history: &'a FileName<'_>,
    orders: &'a FileName<'_>,
) -> Result<(Opened<'a>, Opened<'a>), Status> {
    let history = match open(rt, history) {
        Ok(history) => history,
        Err(status) => return Err(status),
    };
    match open(rt, orders) {
        Ok(orders) => Ok((history, orders)),
        Err(status) => Err(status),
    }
}

/// Opens both files before either is read, and runs the command on them.
fn on_both<F>(rt: &HostRuntime, history: &str, orders: &str, run: F) -> Status
where
    F: for<'a> FnOnce(Opened<'a>, Opened<'a>, &mut Out, &mut Errors) -> Status,
    requires { F.IsAlwaysCallable run }
{
    let (Ok(history), Ok(orders)) = (FileName::new(rt, history), FileName::new(rt, orders)) else {
        return fail(rt, Failure::Memory);
    };
    match open_both(rt, &history, &orders) {
        Ok((history, orders)) => {
            let (mut out, mut errors) = outputs(rt);
            run(history, orders, &mut out, &mut errors)
        }
        Err(status) => status,
    }
}

/// Checks the orders.
fn check(
    rt: &HostRuntime,
    threads: &(impl Threads + Wait + Sync),
    asked: &CheckAsked<'_>,
) -> Status {
    let (history, orders) = (asked.history, asked.orders);
    let (workers, form) = (asked.workers, asked.form);
    on_both(
        rt,
        history,
        orders,
        |mut history, mut orders, out, errors| {
            let (history, orders) = (&mut history, &mut orders);
            let alloc = rt.alloc();
            check_command(threads, alloc, history, orders, workers, form, out, errors)
        },
    )
}

/// Judges the keys of the history, and shows them so. Of a faulty file it explains what is wrong with it.
fn judge_history(
    rt: &HostRuntime,
    threads: &(impl Threads + Sync),
    history: &str,
    shown: &impl Presentation,
) -> Status {
    on_file(rt, history, |history, out, errors| {
        let mut history = rereadable(rt, history);
        let ended = judge_history_command(threads, rt.alloc(), &mut history, shown, out, errors);
        if let Some(FaultyFile::History(fault)) = ended.faulty {
            explain_history(rt, threads, history.reader.into_inner(), fault);
        }
        ended.status
    })
}

/// Judges the keys of the history by the orders, and shows them so. Of a faulty file it explains what is wrong with
/// it.
fn judge_orders(
    rt: &HostRuntime,
    threads: &(impl Threads + Sync),
    history: &str,
    orders: &str,
    shown: &impl Presentation,
) -> Status {
    on_both(rt, history, orders, |history, orders, out, errors| {
        let (mut history, mut orders) = (rereadable(rt, history), rereadable(rt, orders));
        let (first, second) = (&mut history, &mut orders);
        let ended = judge_orders_command(threads, rt.alloc(), first, second, shown, out, errors);
        match ended.faulty {
            Some(FaultyFile::History(fault)) => {
                explain_history(rt, threads, history.reader.into_inner(), fault);
            }
            Some(FaultyFile::Orders(fault)) => {
                explain_orders(rt, &orders.reader.into_inner(), fault);
            }
            None => {}
        }
        ended.status
    })
}

/// Judges the keys of the history, by the orders if there are some, and shows them so.
fn judge(
    rt: &HostRuntime,
    threads: &(impl Threads + Sync),
    history: &str,
    orders: Option<&str>,
    shown: &impl Presentation,
) -> Status {
    match orders {
        Some(orders) => judge_orders(rt, threads, history, orders, shown),
        None => judge_history(rt, threads, history, shown),
    }
}

/// Decides the history's keys by their values.
fn decide(rt: &HostRuntime, threads: &(impl Threads + Sync), asked: &DecideAsked<'_>) -> Status {
    judge(rt, threads, asked.history, None, &Deciding::of(asked))
}

/// Explains the history's keys.
fn explain(rt: &HostRuntime, threads: &(impl Threads + Sync), asked: &KeysAsked<'_>) -> Status {
    let selection = Selection::of(asked);
    let explaining = Explaining { selection };
    judge(rt, threads, asked.history, asked.orders, &explaining)
}

/// Draws the calls of the history's keys.
fn draw(rt: &HostRuntime, threads: &(impl Threads + Sync), asked: &DrawAsked<'_>) -> Status {
    let (history, orders) = (asked.keys.history, asked.keys.orders);
    if asked.whole {
        judge(rt, threads, history, orders, &Whole::of(asked))
    } else {
        judge(rt, threads, history, orders, &Drawn::of(asked))
    }
}

/// Justifies the history by its tags, or writes the orders that its tags make. Only a terminal is told what makes
/// orders of a history without notes.
fn justify_by_tags(
    rt: &HostRuntime,
    threads: &(impl Threads + Sync),
    history: &str,
    unchecked: bool,
) -> Status {
    let people = rt.stderr().is_terminal();
    on_file(rt, history, |mut history, out, errors| {
        let history = &mut history;
        justify_command(threads, rt.alloc(), history, unchecked, people, out, errors)
    })
}

/// Writes the orders of the history that are found by its values.
fn justify_by_values(
    rt: &HostRuntime,
    threads: &(impl Threads + Sync),
    history: &str,
    unchecked: bool,
) -> Status {
    let justifying = Justifying { unchecked };
    on_file(rt, history, |mut history, out, errors| {
        let history = &mut history;
        judge_history_command(threads, rt.alloc(), history, &justifying, out, errors).status
    })
}

/// Writes orders of the history's keys.
fn justify(rt: &HostRuntime, threads: &(impl Threads + Sync), asked: &JustifyAsked<'_>) -> Status {
    match asked.by {
        By::Tags => justify_by_tags(rt, threads, asked.history, asked.unchecked),
        By::Values => justify_by_values(rt, threads, asked.history, asked.unchecked),
    }
}

/// Judges what the reader gives, of that name. Only a terminal is told how far it is.
fn monitor_from<R: Read + Drop>(
    rt: &HostRuntime,
    threads: &(impl Threads + Sync),
    name: &str,
    reader: R,
    asked: Monitoring,
) -> Status {
    let (mut out, mut errors) = outputs(rt);
    let mut history = Source::new(name, Counting::new(reader));
    let alloc = rt.alloc();
    if rt.stderr().is_terminal() {
        if let Ok(watch) = Watching::new(*rt) {
            return monitor_command(
                threads,
                alloc,
                &mut history,
                asked,
                &watch,
                &mut out,
                &mut errors,
            );
        }
    }
    let watch = monitor_command::NoWatch;
    monitor_command(
        threads,
        alloc,
        &mut history,
        asked,
        &watch,
        &mut out,
        &mut errors,
    )
}

/// Judges a history while it comes, from the file or from standard input.
fn monitor(rt: &HostRuntime, threads: &(impl Threads + Sync), asked: &MonitorAsked<'_>) -> Status {
    let monitoring = Monitoring::of(asked);
    match asked.history {
        Some(history) => on_opened(rt, history, |file| {
            monitor_from(rt, threads, file.name, file.reader.into_inner(), monitoring)
        }),
        None => monitor_from(rt, threads, STANDARD_INPUT, rt.stdin(), monitoring),
    }
}

/// Writes a history, from the file or from standard input, as several.
fn split(rt: &HostRuntime, threads: &(impl Threads + Sync), asked: &SplitAsked<'_>) -> Status {
    match asked.history {
        Some(history) => on_opened(rt, history, |file| {
            split_from(rt, threads, file.name, file.reader.into_inner(), asked)
        }),
        None => split_from(rt, threads, STANDARD_INPUT, rt.stdin(), asked),
    }
}

/// Simulates the script.
fn simulate(rt: &HostRuntime, threads: &(impl Threads + Sync), script: &str) -> Status {
    on_file(rt, script, |mut script, out, errors| {
        simulate_command(threads, rt.alloc(), &mut script, out, errors)
    })
}

/// Tells the script's run.
fn trace(rt: &HostRuntime, threads: &(impl Threads + Sync), script: &str, most: u32) -> Status {
    on_file(rt, script, |mut script, out, errors| {
        trace_command(threads, rt.alloc(), &mut script, most, out, errors)
    })
}

/// Reads the file's bytes, as far as they can be read.
fn words_in(rt: &HostRuntime, file: &mut File) -> Result<Vec<u8>, Failure<'static>> {
    let mut words = Vec::new(rt.alloc());
    match file.read_to_end(&mut words) {
        Err(error) if error.kind() == ErrorKind::OutOfMemory => Err(Failure::Memory),
        _ => Ok(words),
    }
}

/// Draws the run of the script in the file on a page. Its bytes are read first, since the page shows them; where
/// they can't be read to their end, the command finds the same failure once more, and says so.
fn trace_page_in(
    rt: &HostRuntime,
    threads: &(impl Threads + Sync),
    file: Opened<'_>,
    most: u32,
) -> Status {
    let (name, mut file) = (file.name, file.reader.into_inner());
    let words = match words_in(rt, &mut file) {
        Ok(words) => words,
        Err(failure) => return fail(rt, failure),
    };
    let reader = Counting::new(words.as_slice().chain(file));
    let mut script = Source::new(name, reader);
    let (mut out, mut errors) = outputs(rt);
    let alloc = rt.alloc();
    let drawn = Drawn {
        file: name,
        ..Drawn::by_default()
    };
    let words = words.as_slice();
    trace_page_command(
        threads,
        alloc,
        &mut script,
        words,
        most,
        drawn,
        &mut out,
        &mut errors,
    )
}

/// Draws the script's run on a page.
fn trace_page(
    rt: &HostRuntime,
    threads: &(impl Threads + Sync),
    script: &str,
    most: u32,
) -> Status {
    on_opened(rt, script, |file| trace_page_in(rt, threads, file, most))
}

/// Runs a store under a load that is watched.
fn run_watched<R, L>(rt: &HostRuntime, threads: &R, asked: RunAsked, watch: &L) -> Status
where
    R: Threads + Wait + Copy + Send + Sync + 'static,
    L: Watch + Send + Sync + Drop + 'static,
{
    let (mut out, mut errors) = outputs(rt);
    let alloc = rt.alloc();
    run_command(threads, alloc, asked, watch, &mut out, &mut errors)
}

/// A progress of the run. None if its clock can't be read, or out of memory.
fn progress_of(rt: &HostRuntime, asked: &RunAsked) -> Option<SharedProgress<HostRuntime>> {
    let load = asked.load.options();
    let calls = u32::from(load.callers) * u32::from(load.calls);
    let progress = Progress::new(*rt, calls).ok()?;
    SharedProgress::new(rt.alloc(), progress).ok()
}

/// Runs a store under a load. Only a terminal is told how far it is, and how it ended.
fn run<R>(rt: &HostRuntime, threads: &R, asked: RunAsked) -> Status
where
    R: Threads + Wait + Copy + Send + Sync + 'static,
{
    if !rt.stderr().is_terminal() {
        return run_watched(rt, threads, asked, &NoWatch);
    }
    let Some(progress) = progress_of(rt, &asked) else {
        return run_watched(rt, threads, asked, &NoWatch);
    };
    let status = run_watched(rt, threads, asked, &progress);
    progress.say_end();
    status
}

/// Does what was asked for.
fn obey<R>(rt: &HostRuntime, threads: &R, asked: &Command<'_>) -> Status
where
    R: Threads + Wait + Copy + Send + Sync + 'static,
{
    match asked {
        Command::Check(asked) => check(rt, threads, asked),
        Command::Decide(asked) => decide(rt, threads, asked),
        Command::Draw(asked) => draw(rt, threads, asked),
        Command::Explain(asked) => explain(rt, threads, asked),
        Command::Justify(asked) => justify(rt, threads, asked),
        Command::Monitor(asked) => monitor(rt, threads, asked),
        Command::Simulate { script } => simulate(rt, threads, script),
        Command::Split(asked) => split(rt, threads, asked),
        Command::Trace { script, most } => trace(rt, threads, script, *most),
        Command::TracePage { script, most } => trace_page(rt, threads, script, *most),
        Command::Run(asked) => run(rt, threads, *asked),
    }
}

/// Does what the program's words ask for.
fn answer<R>(rt: &HostRuntime, threads: &R) -> Status
where
    R: Threads + Wait + Copy + Send + Sync + 'static,
{
    let words = match env::args(rt) {
        Ok(words) => words,
        Err(error) if error.kind() == ErrorKind::OutOfMemory => {
            return fail(rt, Failure::Memory);
        }
        Err(_) => {
            let _ = rt.eprintln("abd: the arguments aren't text; see abd --help");
            return Status::Usage;
        }
    };
    let words: Vec<String> = match words.collect(rt.alloc()) {
        Ok(words) => words,
        Err(_) => return fail(rt, Failure::Memory),
    };
    match command(rt.alloc(), words.as_slice()) {
        Ok(asked) => obey(rt, threads, &asked),
        Err(usage) => {
            let (mut out, mut errors) = outputs(rt);
            usage_command(rt.alloc(), usage, &mut out, &mut errors)
        }
    }
}

fn main(rt: HostRuntime) -> ExitCode {
    ExitCode::from(answer(&rt, &rt).code())
}
