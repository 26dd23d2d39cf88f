//! Rows of command lines.
use client_phases::ReadMode;
use command_line::{
    By, CheckAsked, Command, DecideAsked, DrawAsked, JustifyAsked, KeysAsked, Lines, MonitorAsked,
    RunAsked, Shown, SplitAsked, Usage, command,
};
use std::alloc::{AllocError, Global};
use test_rows::{Answer, text_said, words_of};

/// The load that is asked for, and what is shown of it.
fn say_run(out: &mut Answer, asked: &RunAsked) {
    let load = asked.load.options();
    let (replicas, ask, put) = (
        load.quorums.replicas(),
        load.quorums.ask(),
        load.quorums.put(),
    );
    let reads = match load.reads {
        ReadMode::Full => "full",
        ReadMode::Short => "short",
    };
    let halls = load.halls.count();
    let (callers, calls, keys, rounds) = (load.callers, load.calls, load.keys, load.rounds);
    let (drop, double) = (load.drop, load.double);
    write!(
        out,
        "{replicas} replicas, ask {ask}, put {put}, {halls} halls, {reads} reads, "
    );
    write!(
        out,
        "{callers} callers, {calls} calls, {keys} keys, {rounds} rounds, "
    );
    write!(out, "drop {drop}, double {double}, ");
    match asked.shown {
        Shown::Hall(hall) => write!(out, "hall {hall}\n"),
        Shown::All => out.push("all halls\n"),
    }
}

/// The form of the lines.
fn form_said(form: Lines) -> &'static str {
    match form {
        Lines::Plain => "",
        Lines::Json => ", JSON",
    }
}

/// The files that are to be checked, by how many workers, and the form of the lines.
fn say_check(out: &mut Answer, asked: &CheckAsked<'_>) {
    let (history, orders, count) = (asked.history, asked.orders, asked.workers.count());
    let form = form_said(asked.form);
    write!(
        out,
        "check of [{history}] and [{orders}], workers: {count}{form}\n"
    )
}

/// The command of that name, its files, the key alone, and how many keys.
fn say_keys(out: &mut Answer, name: &str, asked: &KeysAsked<'_>) {
    let (history, most) = (asked.history, asked.most);
    let orders = asked.orders.unwrap_or("");
    let key = asked.key.unwrap_or("");
    write!(
        out,
        "{name} of [{history}] and [{orders}], key [{key}], most {most}"
    )
}

/// What keys are judged by, or orders made by.
fn by_said(by: By) -> &'static str {
    match by {
        By::Tags => "",
        By::Values => ", by values",
    }
}

/// What is drawn: which keys, how many calls, and the call among them.
fn say_drawing(out: &mut Answer, asked: &DrawAsked<'_>) {
    say_keys(out, "draw", &asked.keys);
    let (by, calls) = (by_said(asked.by), asked.calls);
    write!(out, "{by}, calls {calls}");
    if let Some(call) = asked.around {
        write!(out, ", around {call}");
    }
    if asked.whole {
        out.push(", whole");
    }
    out.push("\n");
}

/// Which history is justified, and how.
fn say_justification(out: &mut Answer, asked: &JustifyAsked<'_>) {
    let (history, by) = (asked.history, by_said(asked.by));
    let way = if asked.unchecked { ", unchecked" } else { "" };
    write!(out, "justify of [{history}]{by}{way}\n");
}

/// Which keys are decided, how many of them are explained, and in which form.
fn say_decision(out: &mut Answer, asked: &DecideAsked<'_>) {
    let (history, most) = (asked.history, asked.most);
    let form = form_said(asked.form);
    write!(out, "decide of [{history}]");
    for key in &asked.keys {
        write!(out, ", key [{key}]");
    }
    write!(out, ", most {most}{form}\n");
}

/// What is monitored, and how.
fn say_monitoring(out: &mut Answer, asked: &MonitorAsked<'_>) {
    let (history, give_up) = (asked.history.unwrap_or(""), asked.give_up);
    let all = if asked.all { ", all" } else { "" };
    let form = form_said(asked.form);
    write!(
        out,
        "monitor of [{history}]{all}, give up {give_up}{form}\n"
    );
}

/// What is split, into how many pieces, and where.
fn say_splitting(out: &mut Answer, asked: &SplitAsked<'_>) {
    let (history, parts, into) = (asked.history.unwrap_or(""), asked.parts, asked.into);
    write!(out, "split of [{history}] into {parts} in [{into}]\n");
}

/// What the command asks for.
fn say_asked(out: &mut Answer, asked: &Command<'_>) {
    match asked {
        Command::Check(asked) => say_check(out, asked),
        Command::Decide(asked) => say_decision(out, asked),
        Command::Draw(asked) => say_drawing(out, asked),
        Command::Explain(asked) => {
            say_keys(out, "explain", asked);
            out.push("\n");
        }
        Command::Justify(asked) => say_justification(out, asked),
        Command::Monitor(asked) => say_monitoring(out, asked),
        Command::Simulate { script } => write!(out, "simulate of [{script}]\n"),
        Command::Split(asked) => say_splitting(out, asked),
        Command::Trace { script, most } => write!(out, "trace of [{script}], most {most}\n"),
        Command::TracePage { script, most } => write!(out, "page of [{script}], most {most}\n"),
        Command::Run(asked) => say_run(out, asked),
    }
}

/// What comes of a line that isn't a command's: after ` says ` stood the word.
fn usage_said(alloc: Global, usage: &Usage, word: &str) -> Result<String, AllocError> {
    match usage {
        Usage::Help(text) => text_said(alloc, "help", text.as_str(), word),
        Usage::Version(text) => text_said(alloc, "version", text.as_str(), word),
        Usage::Fault(text) => text_said(alloc, "fault", text.as_str(), word),
        Usage::Memory => String::from_str(alloc, "no memory\n"),
    }
}

/// What a line of words asks for; after ` says ` stands a word that the help, the version or the fault has
/// to have.
fn say_line(out: &mut Answer, line: &str) {
    let (words, word) = line.split_once(" says ").unwrap_or((line, ""));
    let words = words_of(out, words, '|');
    let alloc = out.alloc();
    match command(alloc, words.as_slice()) {
        Ok(asked) => say_asked(out, &asked),
        Err(usage) => out.push_made(usage_said(alloc, &usage, word)),
    }
}

/// What each line asks for.
pub fn say_words(out: &mut Answer, lines: &str) {
    for line in lines.lines() {
        say_line(out, line);
    }
}

/// The first line of what the words have said in place of a command.
fn first_line_of(usage: &Usage) -> &str {
    let text = match usage {
        Usage::Help(text) | Usage::Version(text) | Usage::Fault(text) => text.as_str(),
        Usage::Memory => "no memory",
    };
    text.lines().next().unwrap_or("")
}

/// What a line asks for, and the first line of what is said in place of a command.
fn say_first_line(out: &mut Answer, line: &str) {
    let words = words_of(out, line, '|');
    match command(out.alloc(), words.as_slice()) {
        Ok(asked) => say_asked(out, &asked),
        Err(usage) => write!(out, "{}\n", first_line_of(&usage)),
    }
}

/// What each line asks for, and the first line of what is said in place of a command.
pub fn say_first_lines(out: &mut Answer, lines: &str) {
    for line in lines.lines() {
        say_first_line(out, line);
    }
}
