//! The commands of `abd`, as clap takes them.
ghost use Rattle.std.specs.Prelude.{◌≡◌, IfOk};
ghost use Rattle.clap.specs.Words.{app_of};
ghost use Rattle.command_line.specs.CommandWords.{IsAdded, IsForm};
ghost use Rattle.command_line.specs.Forms.{abd_app, bare_app, check_app, decide_app, draw_app};
ghost use Rattle.command_line.specs.Forms.{explain_app, justify_app, monitor_app, run_app, simulate_app, split_app};
ghost use Rattle.command_line.specs.Forms.{trace_app};

use crate::defaults::{CALLS_WORD, KEYS_WORD};
use crate::ranges::{
    ANY_NUMBER, GIVE_UP, HALLS, PARTS, REPLICAS, SHOWN_CALLS, SHOWN_HALL, SHOWN_KEYS, VOTES,
    WORKERS,
};
use crate::word::Takes::{
    Argument, FreeArgument, NeededNumber, NeededText, Nothing, Number, Text, Texts,
};
use crate::word::{Word, command_of};
use crate::{help, run_help as run};
use clap::Command;
use load::ranges::{CALLERS, CALLS, FAULTS, KEYS, ROUNDS};
use std::alloc::{AllocError, Global};

/// A row of a table of words, whose values call no function: the word's name, what help calls what
/// stands after it and its default, if something stands there, what it is, and what help says of it.
macro_rules! command_word {
    ($name:expr, $takes:expr, $help:expr) => {
        command_word!($name, "", None, $takes, $help)
    };
    ($name:expr, $value:expr, $default:expr, $takes:expr, $help:expr) => {
        Word {
            name: $name,
            value: $value,
            default: $default,
            takes: $takes,
            help: $help,
        }
    };
}

/// The words of `abd check`.
static CHECK_WORDS: [Word<'static>; 4] = [
    command_word!("HISTORY", Argument, help::HISTORY),
    command_word!("ORDERS", Argument, help::ORDERS),
    command_word!("workers", "N", Some("1"), Number(WORKERS), help::WORKERS),
    command_word!("json", Nothing, help::JSON),
];

/// `abd check HISTORY ORDERS [--workers N] [--json]`.
fn check_words<'a>(alloc: Global) -> Result<Command<'a>, AllocError>
    ensures { IfOk result (IsForm check_app) }
{
    command_of(alloc, "check", help::CHECK, &CHECK_WORDS)
}

/// The words of `abd decide`.
static DECIDE_WORDS: [Word<'static>; 4] = [
    command_word!("HISTORY", Argument, help::HISTORY),
    command_word!("key", "KEY", None, Texts, help::DECIDED_KEYS),
    command_word!("most", "N", KEYS_WORD, Number(SHOWN_KEYS), help::REASONS),
    command_word!("json", Nothing, help::JSON),
];

/// `abd decide HISTORY [--key KEY]... [--most N] [--json]`.
fn decide_words<'a>(alloc: Global) -> Result<Command<'a>, AllocError>
    ensures { IfOk result (IsForm decide_app) }
{
    command_of(alloc, "decide", help::DECIDE, &DECIDE_WORDS)
}

/// The words of `abd draw`.
static DRAW_WORDS: [Word<'static>; 8] = [
    command_word!("HISTORY", Argument, help::HISTORY),
    command_word!("ORDERS", FreeArgument, help::ORDERS),
    command_word!("by", "HOW", None, Text, help::DRAWN_BY),
    command_word!("key", "KEY", None, Text, help::DRAWN_KEY),
    command_word!("most", "N", None, Number(SHOWN_KEYS), help::PICTURES),
    command_word!("calls", "N", CALLS_WORD, Number(SHOWN_CALLS), help::CALLS),
    command_word!("around", "CALL", None, Number(ANY_NUMBER), help::AROUND),
    command_word!("whole", Nothing, help::WHOLE),
];

/// `abd draw HISTORY [ORDERS] [--by HOW] [--key KEY] [--most N] [--calls N] [--around CALL] [--whole]`.
fn draw_words<'a>(alloc: Global) -> Result<Command<'a>, AllocError>
    ensures { IfOk result (IsForm draw_app) }
{
    command_of(alloc, "draw", help::DRAW, &DRAW_WORDS)
}

/// The words of `abd explain`.
static EXPLAIN_WORDS: [Word<'static>; 4] = [
    command_word!("HISTORY", Argument, help::HISTORY),
    command_word!("ORDERS", FreeArgument, help::ORDERS),
    command_word!("key", "KEY", None, Text, help::KEY),
    command_word!("most", "N", None, Number(SHOWN_KEYS), help::MOST),
];

/// `abd explain HISTORY [ORDERS] [--key KEY] [--most N]`.
fn explain_words<'a>(alloc: Global) -> Result<Command<'a>, AllocError>
    ensures { IfOk result (IsForm explain_app) }
{
    command_of(alloc, "explain", help::EXPLAIN, &EXPLAIN_WORDS)
}

/// The words of `abd justify`.
static JUSTIFY_WORDS: [Word<'static>; 3] = [
    command_word!("HISTORY", Argument, help::NOTED),
    command_word!("by", "HOW", None, Text, help::MADE_BY),
    command_word!("unchecked", Nothing, help::UNCHECKED),
];

/// `abd justify HISTORY [--by HOW] [--unchecked]`.
fn justify_words<'a>(alloc: Global) -> Result<Command<'a>, AllocError>
    ensures { IfOk result (IsForm justify_app) }
{
    command_of(alloc, "justify", help::JUSTIFY, &JUSTIFY_WORDS)
}

/// The words of `abd monitor`.
static MONITOR_WORDS: [Word<'static>; 4] = [
    command_word!("FILE", FreeArgument, help::RECORD),
    command_word!("all", Nothing, help::ALL_KEYS),
    command_word!(
        "give-up",
        "N",
        Some("1000000"),
        Number(GIVE_UP),
        help::GIVE_UP
    ),
    command_word!("json", Nothing, help::OBJECTS),
];

/// `abd monitor [FILE] [--all] [--give-up N] [--json]`.
fn monitor_words<'a>(alloc: Global) -> Result<Command<'a>, AllocError>
    ensures { IfOk result (IsForm monitor_app) }
{
    command_of(alloc, "monitor", help::MONITOR, &MONITOR_WORDS)
}

/// The words of `abd simulate`.
static SIMULATE_WORDS: [Word<'static>; 1] = [command_word!("SCRIPT", Argument, help::SCRIPT)];

/// `abd simulate SCRIPT`.
fn simulate_words<'a>(alloc: Global) -> Result<Command<'a>, AllocError>
    ensures { IfOk result (IsForm simulate_app) }
{
    command_of(alloc, "simulate", help::SIMULATE, &SIMULATE_WORDS)
}

/// The words of `abd split`.
static SPLIT_WORDS: [Word<'static>; 3] = [
    command_word!("FILE", FreeArgument, help::RECORD),
    command_word!("parts", "N", None, NeededNumber(PARTS), help::PARTS),
    command_word!("into", "DIR", None, NeededText, help::INTO),
];

/// `abd split [FILE] --parts N --into DIR`.
fn split_words<'a>(alloc: Global) -> Result<Command<'a>, AllocError>
    ensures { IfOk result (IsForm split_app) }
{
    command_of(alloc, "split", help::SPLIT, &SPLIT_WORDS)
}

/// The words of `abd trace`.
static TRACE_WORDS: [Word<'static>; 3] = [
    command_word!("SCRIPT", Argument, help::SCRIPT),
    command_word!("most", "N", None, Number(ANY_NUMBER), help::LINES),
    command_word!("draw", Nothing, help::MESSAGES),
];

/// `abd trace SCRIPT [--most N] [--draw]`.
fn trace_words<'a>(alloc: Global) -> Result<Command<'a>, AllocError>
    ensures { IfOk result (IsForm trace_app) }
{
    command_of(alloc, "trace", help::TRACE, &TRACE_WORDS)
}

/// The words of `abd run`.
static RUN_WORDS: [Word<'static>; 13] = [
    command_word!("replicas", "N", Some("3"), Number(REPLICAS), run::REPLICAS),
    command_word!("callers", "C", Some("4"), Number(CALLERS), run::CALLERS),
    command_word!("calls", "T", Some("50"), Number(CALLS), run::CALLS),
    command_word!("keys", "K", Some("2"), Number(KEYS), run::KEYS),
    command_word!("rounds", "R", Some("1000"), Number(ROUNDS), run::ROUNDS),
    command_word!("drop", "D", Some("0"), Number(FAULTS), run::DROP),
    command_word!("double", "E", Some("0"), Number(FAULTS), run::DOUBLE),
    command_word!("halls", "H", Some("1"), Number(HALLS), run::HALLS),
    command_word!("show", "N", None, Number(SHOWN_HALL), run::SHOW),
    command_word!("reads", "HOW", Some("full"), Text, run::READS),
    command_word!("votes", "DIGITS", None, Text, run::VOTES),
    command_word!("ask", "A", None, Number(VOTES), run::ASK),
    command_word!("put", "P", None, Number(VOTES), run::PUT),
];

/// `abd run` with its options.
fn run_words<'a>(alloc: Global) -> Result<Command<'a>, AllocError>
    ensures { IfOk result (IsForm run_app) }
{
    command_of(alloc, "run", run::RUN, &RUN_WORDS)
}

/// `abd` by itself.
fn bare_words<'a>(alloc: Global) -> Result<Command<'a>, AllocError>
    ensures { IfOk result (λ words. app_of words ≡ bare_app) }
{
    let bare = command_of(alloc, "abd", help::ABD, &[])?;
    Ok(bare.version(help::VERSION).subcommand_required(true))
}

/// These commands and one more, if it was made.
fn added<'a>(
    words: Command<'a>,
    one: Result<Command<'a>, AllocError>,
) -> Result<Command<'a>, AllocError>
    ensures { IfOk result (IsAdded (app_of words.entry) one.entry) }
{
    words.subcommand(one?)
}

/// `abd` with its commands.
pub(crate) fn abd_words<'a>(alloc: Global) -> Result<Command<'a>, AllocError>
    ensures { IfOk result (λ words. app_of words ≡ abd_app) }
{
    let words = added(bare_words(alloc)?, check_words(alloc))?;
    let words = added(words, decide_words(alloc))?;
    let words = added(words, draw_words(alloc))?;
    let words = added(words, explain_words(alloc))?;
    let words = added(words, justify_words(alloc))?;
    let words = added(words, monitor_words(alloc))?;
    let words = added(words, simulate_words(alloc))?;
    let words = added(words, split_words(alloc))?;
    let words = added(words, trace_words(alloc))?;
    added(words, run_words(alloc))
}
