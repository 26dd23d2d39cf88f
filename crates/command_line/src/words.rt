//! The words of a command line.
ghost use Rattle.std.specs.Prelude.{◌≡◌, IfErr, IfOk, MatchResult, codes, map, string_bytes};
ghost use Rattle.clap.specs.Words.{kind_of, subcommand_rows_of};
ghost use Rattle.command_line.specs.Reading.{Finds, FindsOrLacks, IsNone, rows_in};
ghost use Rattle.command_line.specs.Words.{Asks, AsksAround, AsksBy, AsksDrawnBy, AsksForm};
ghost use Rattle.command_line.specs.Words.{AsksKeys, AsksMost, AsksNothing, AsksWhole, HasWords};
ghost use Rattle.command_line.specs.Words.{IsSaid, IsUsageOf, MakesAs, MakesNothing, MakesOf};

use crate::asked::{
    By, CheckAsked, Command, DecideAsked, DrawAsked, JustifyAsked, KeysAsked, MonitorAsked,
    SplitAsked, Usage,
};
use crate::defaults;
use crate::fault::WordsFault;
use crate::forms::abd_words;
use crate::lines::Lines;
use crate::ranges::{ANY_NUMBER, GIVE_UP, PARTS, SHOWN_CALLS, SHOWN_KEYS, WORKERS};
use crate::reading::{has_flag, needed_in, number_in, text_in, texts_in};
use crate::run_words::run_in;
use clap::error::ErrorKind;
use clap::{ArgMatches, Error};
use load::ranges::NumberRange;
use parallel_keys::Workers;
use std::alloc::{AllocError, Global};

/// The text of an error of clap's; if it were empty, where help is.
fn text_of(alloc: Global, error: &Error) -> Result<String, AllocError>
    ensures { IfOk result (λ text. HasWords (string_bytes text)) }
{
    let text = error.to_string(alloc)?;
    if text.as_str().is_empty() {
        return String::from_str(alloc, "abd: see abd --help\n");
    }
    Ok(text)
}

/// What an error of clap's says.
fn usage_of(alloc: Global, error: &Error) -> Usage
    ensures kind { IsUsageOf (kind_of error.now) result }
    ensures said { IsSaid result }
{
    let Ok(text) = text_of(alloc, error) else {
        return Usage::Memory;
    };
    match error.kind() {
        ErrorKind::OutOfMemory => Usage::Memory,
        ErrorKind::DisplayHelp => Usage::Help(text),
        ErrorKind::DisplayVersion => Usage::Version(text),
        _ => Usage::Fault(text),
    }
}

/// The form of the lines that are asked for.
fn form_in(matches: &ArgMatches<'_>) -> Lines
    ensures { AsksForm (rows_in matches.now) result }
{
    if has_flag(matches, "json") {
        Lines::Json
    } else {
        Lines::Plain
    }
}

/// `check`, of the words after its name.
fn check_in<'a>(matches: &ArgMatches<'a>) -> Result<Command<'a>, WordsFault>
    ensures { Finds result (MakesAs (codes "check") (rows_in matches.now)) }
{
    let history = needed_in(matches, "HISTORY")?;
    let orders = needed_in(matches, "ORDERS")?;
    let count = number_in(matches, "workers", WORKERS)?;
    let Some(workers) = Workers::new(count as u8) else {
        unreachable!()
    };
    let form = form_in(matches);
    Ok(Command::Check(CheckAsked {
        history,
        orders,
        workers,
        form,
    }))
}

/// `decide`, of the words after its name.
fn decide_in<'a>(alloc: Global, matches: &ArgMatches<'a>) -> Result<Command<'a>, WordsFault>
    ensures { FindsOrLacks result (MakesAs (codes "decide") (rows_in matches.now)) }
{
    let history = needed_in(matches, "HISTORY")?;
    let most = number_in(matches, "most", SHOWN_KEYS)? as u16;
    let form = form_in(matches);
    let keys = texts_in(alloc, matches, "key")?;
    let asked = DecideAsked {
        history,
        keys,
        most,
        form,
    };
    Ok(Command::Decide(asked))
}

/// The number of the call that is named, if one is.
fn around_in(matches: &ArgMatches<'_>) -> Result<Option<u32>, WordsFault>
    ensures { Finds result (AsksAround (rows_in matches.now)) }
{
    if text_in(matches, "around").is_none() {
        return Ok(None);
    }
    let call = number_in(matches, "around", ANY_NUMBER)?;
    Ok(Some(call))
}

/// How many keys, lines or steps are asked for; the default where the words don't say it.
fn most_in(matches: &ArgMatches<'_>, range: NumberRange, default: u32) -> Result<u32, WordsFault>
    ensures { Finds result (AsksMost (rows_in matches.now) range default) }
{
    if text_in(matches, "most").is_none() {
        return Ok(default);
    }
    number_in(matches, "most", range)
}

/// The files, the key and how many keys the words after `explain` or `draw` ask for.
fn keys_in<'a>(matches: &ArgMatches<'a>) -> Result<KeysAsked<'a>, WordsFault>
    ensures { Finds result (AsksKeys (rows_in matches.now)) }
{
    let history = needed_in(matches, "HISTORY")?;
    let most = most_in(matches, SHOWN_KEYS, u32::from(defaults::KEYS))?;
    Ok(KeysAsked {
        history,
        orders: text_in(matches, "ORDERS"),
        key: text_in(matches, "key"),
        most: most as u16,
    })
}

/// What is asked for by `--by`; tags where the words don't say it.
fn by_in(matches: &ArgMatches<'_>) -> Result<By, WordsFault>
    ensures { Finds result (AsksBy (rows_in matches.now)) }
{
    let Some(text) = text_in(matches, "by") else {
        return Ok(By::Tags);
    };
    if text == "tags" {
        Ok(By::Tags)
    } else if text == "values" {
        Ok(By::Values)
    } else {
        Err(WordsFault::By)
    }
}

/// The same of `draw`, where it doesn't stand beside orders.
fn drawn_by(matches: &ArgMatches<'_>) -> Result<By, WordsFault>
    ensures { Finds result (AsksDrawnBy (rows_in matches.now)) }
{
    let by = by_in(matches)?;
    if text_in(matches, "by").is_some() && text_in(matches, "ORDERS").is_some() {
        return Err(WordsFault::ByAndOrders);
    }
    Ok(by)
}

/// Whether all keys have one picture, where no keys are chosen beside it.
fn whole_in(matches: &ArgMatches<'_>) -> Result<bool, WordsFault>
    ensures { Finds result (AsksWhole (rows_in matches.now)) }
{
    let whole = has_flag(matches, "whole");
    if whole && (text_in(matches, "key").is_some() || text_in(matches, "most").is_some()) {
        return Err(WordsFault::WholeAndKeys);
    }
    Ok(whole)
}

/// `draw`, of the words after its name.
fn draw_in<'a>(matches: &ArgMatches<'a>) -> Result<Command<'a>, WordsFault>
    ensures { Finds result (MakesAs (codes "draw") (rows_in matches.now)) }
{
    let keys = keys_in(matches)?;
    let by = drawn_by(matches)?;
    let calls = number_in(matches, "calls", SHOWN_CALLS)?;
    let around = around_in(matches)?;
    let whole = whole_in(matches)?;
    Ok(Command::Draw(DrawAsked {
        keys,
        by,
        calls: calls as u16,
        around,
        whole,
    }))
}

/// `explain`, of the words after its name.
fn explain_in<'a>(matches: &ArgMatches<'a>) -> Result<Command<'a>, WordsFault>
    ensures { Finds result (MakesAs (codes "explain") (rows_in matches.now)) }
{
    let asked = keys_in(matches)?;
    Ok(Command::Explain(asked))
}

/// `justify`, of the words after its name.
fn justify_in<'a>(matches: &ArgMatches<'a>) -> Result<Command<'a>, WordsFault>
    ensures { Finds result (MakesAs (codes "justify") (rows_in matches.now)) }
{
    let history = needed_in(matches, "HISTORY")?;
    let by = by_in(matches)?;
    let unchecked = has_flag(matches, "unchecked");
    let asked = JustifyAsked {
        history,
        by,
        unchecked,
    };
    Ok(Command::Justify(asked))
}

/// `monitor`, of the words after its name.
fn monitor_in<'a>(matches: &ArgMatches<'a>) -> Result<Command<'a>, WordsFault>
    ensures { Finds result (MakesAs (codes "monitor") (rows_in matches.now)) }
{
    let give_up = number_in(matches, "give-up", GIVE_UP)?;
    Ok(Command::Monitor(MonitorAsked {
        history: text_in(matches, "FILE"),
        all: has_flag(matches, "all"),
        give_up,
        form: form_in(matches),
    }))
}

/// `simulate`, of the words after its name.
fn simulate_in<'a>(matches: &ArgMatches<'a>) -> Result<Command<'a>, WordsFault>
    ensures { Finds result (MakesAs (codes "simulate") (rows_in matches.now)) }
{
    let script = needed_in(matches, "SCRIPT")?;
    Ok(Command::Simulate { script })
}

/// `split`, of the words after its name.
fn split_in<'a>(matches: &ArgMatches<'a>) -> Result<Command<'a>, WordsFault>
    ensures { Finds result (MakesAs (codes "split") (rows_in matches.now)) }
{
    let parts = number_in(matches, "parts", PARTS)? as u16;
    let into = needed_in(matches, "into")?;
    Ok(Command::Split(SplitAsked {
        history: text_in(matches, "FILE"),
        parts,
        into,
    }))
}

/// `trace`, of the words after its name.
fn trace_in<'a>(matches: &ArgMatches<'a>) -> Result<Command<'a>, WordsFault>
    ensures { Finds result (MakesAs (codes "trace") (rows_in matches.now)) }
{
    let script = needed_in(matches, "SCRIPT")?;
    if has_flag(matches, "draw") {
        let asked = most_in(matches, ANY_NUMBER, 1000)?;
        let most = asked.min(SHOWN_KEYS.most);
        Ok(Command::TracePage { script, most })
    } else {
        let most = most_in(matches, ANY_NUMBER, 10_000)?;
        Ok(Command::Trace { script, most })
    }
}

/// The command of that name, of the words after it.
fn made_in<'a>(
    alloc: Global,
    name: &str,
    matches: &ArgMatches<'a>,
) -> Result<Command<'a>, WordsFault>
    ensures { FindsOrLacks result (MakesAs name.now (rows_in matches.now)) }
{
    match name {
        "check" => check_in(matches),
        "decide" => decide_in(alloc, matches),
        "draw" => draw_in(matches),
        "explain" => explain_in(matches),
        "justify" => justify_in(matches),
        "monitor" => monitor_in(matches),
        "run" => Ok(Command::Run(run_in(alloc, matches)?)),
        "simulate" => simulate_in(matches),
        "split" => split_in(matches),
        "trace" => trace_in(matches),
        _ => Err(WordsFault::NoCommand),
    }
}

/// The command that was met.
fn command_in<'a>(alloc: Global, matches: &ArgMatches<'a>) -> Result<Command<'a>, WordsFault>
    ensures { FindsOrLacks result (MakesOf (subcommand_rows_of matches.now)) }
{
    match matches.subcommand() {
        Some((name, found)) => made_in(alloc, name, found),
        None => Err(WordsFault::NoCommand),
    }
}

/// The line that says why words make no command.
fn fault_text(alloc: Global, fault: WordsFault) -> Result<String, AllocError>
    ensures { IfOk result (λ text. HasWords (string_bytes text)) }
{
    let mut text = String::from_str(alloc, "abd: ")?;
    text.push_str(fault.to_string(alloc)?.as_str())?;
    text.push_str("\n")?;
    Ok(text)
}

/// Says why words make no command.
fn usage_of_fault(alloc: Global, fault: WordsFault) -> Usage
    ensures kind { IsUsageOf ErrorKind.MissingSubcommand result }
    ensures said { IsSaid result }
    ensures memory { fault ≡ WordsFault.Memory → result ≡ Usage.Memory }
{
    match fault {
        WordsFault::Memory => Usage::Memory,
        _ => match fault_text(alloc, fault) {
            Ok(text) => Usage::Fault(text),
            Err(_) => Usage::Memory,
        },
    }
}

/// The command that was met, or what is said if there is none.
fn answer_to<'a>(alloc: Global, matches: &ArgMatches<'a>) -> Result<Command<'a>, Usage>
    ensures makes { MatchResult result (MakesOf (subcommand_rows_of matches.now))
        (MakesNothing (IsNone (MakesOf (subcommand_rows_of matches.now)))) }
    ensures said { IfErr result IsSaid }
{
    match command_in(alloc, matches) {
        Ok(command) => Ok(command),
        Err(fault) => Err(usage_of_fault(alloc, fault)),
    }
}

/// The command that the words, the program's own name first, ask for.
///
/// Help, the version and faults come with a text for people, never an empty one. Help and the
/// version are answered only where they were asked for, a fault only where the words have one.
pub fn command<'a>(alloc: Global, words: &'a [String]) -> Result<Command<'a>, Usage>
    ensures asked { IfOk result (Asks (map string_bytes words.now)) }
    ensures not_asked { IfErr result (AsksNothing (map string_bytes words.now)) }
    ensures said { IfErr result IsSaid }
{
    let Ok(abd) = abd_words(alloc) else {
        return Err(Usage::Memory);
    };
    match abd.try_get_matches_from(words) {
        Ok(matches) => answer_to(alloc, &matches),
        Err(error) => Err(usage_of(alloc, &error)),
    }
}
