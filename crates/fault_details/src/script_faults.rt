//! Why a script has its first fault.
ghost use Rattle.std.specs.Prelude.{IfOk, OnOk};
ghost use Rattle.counted_devices.specs.DeviceStates.{states};
ghost use Rattle.fault_details.specs.FileFaults.{Explains, SaysOfLine};
ghost use Rattle.fault_details.specs.ScriptFaults.{AddsScript};

use crate::demand::{Allowed, append_allowed};
use crate::file_faults::said;
use crate::found_line::{FoundLine, find_line};
use crate::shown::{append_quoted, append_sentence};
use counted_devices::CountedRead;
use fault_script::{ErrorKind, LineFault, ScriptError};
use sentences::append;
use std::alloc::Global;
use std::str;
use tag::{Memory, is_key};

/// A word of a command that has to be a number, or a key.
#[derive(Clone, Copy, Debug, PartialEq, Eq)]
enum Part {
    Client,
    Replica,
    Message,
    Seed,
    Count,
    Replicas,
    Calls,
    Messages,
    Key,
}

impl Part {
    /// What it is called.
    fn name(self) -> &'static str {
        match self {
            Part::Client => "CLIENT",
            Part::Replica => "REPLICA",
            Part::Message => "M",
            Part::Seed => "SEED",
            Part::Count => "COUNT",
            Part::Replicas => "N",
            Part::Calls => "CALLS",
            Part::Messages => "MESSAGES",
            Part::Key => "KEY",
        }
    }

    /// What it has to be.
    fn allowed(self) -> Allowed {
        let (least, most) = match self {
            Part::Client => (1, 65_535),
            Part::Replica => (0, 14),
            Part::Message => (0, 4_294_967_295),
            Part::Seed => (0, u64::MAX),
            Part::Count => (0, 1_000_000),
            Part::Replicas => (1, 15),
            Part::Calls => (1, 1_000_000),
            Part::Messages => (1, 16_000_000),
            Part::Key => return Allowed::Key,
        };
        Allowed::Number { least, most }
    }

    /// Whether the word is a number, if it has to be one.
    fn has_form(self, word: &str) -> bool {
        self == Part::Key || word.as_bytes().iter().all(|byte| byte.is_ascii_digit())
    }

    /// Whether the word is in its range.
    fn is_in_range(self, word: &str) -> bool {
        match self.allowed() {
            Allowed::Number { least, most } => match word.parse::<u64>() {
                Ok(number) => least <= number && number <= most,
                Err(_) => false,
            },
            _ => is_key(word.as_bytes()),
        }
    }
}

/// The first four words of a line; those that aren't there are empty.
#[derive(Clone, Copy)]
struct FirstWords<'a> {
    verb: &'a str,
    others: [&'a str; 3],
}

impl<'a> FirstWords<'a> {
    /// The first words of the line.
    fn of(line: &'a str) -> FirstWords<'a> {
        let line = line.strip_suffix("\r").unwrap_or(line);
        let mut words = line
            .split(|letter| letter == ' ' || letter == '\t')
            .filter(|word| !word.is_empty());
        let verb = words.next().unwrap_or("");
        let first = words.next().unwrap_or("");
        let second = words.next().unwrap_or("");
        let third = words.next().unwrap_or("");
        FirstWords {
            verb,
            others: [first, second, third],
        }
    }

    /// What the word at that place after the first has to be, if it has to be a number or a key.
    fn part(&self, place: usize) -> Option<Part> {
        match (self.verb, place) {
            ("join" | "respond" | "finish" | "send" | "invoke", 0) => Some(Part::Client),
            ("deliver" | "lose" | "repeat", 0) => Some(Part::Message),
            ("random", 0) => Some(Part::Seed),
            ("random", 1) => Some(Part::Count),
            ("replicas", 0) => Some(Part::Replicas),
            ("replicas", 1) => Some(Part::Calls),
            ("replicas", 2) => Some(Part::Messages),
            ("send", 1) => Some(Part::Replica),
            ("stop", 1) if self.others[0] == "client" => Some(Part::Client),
            ("start" | "stop", 1) if self.others[0] == "replica" => Some(Part::Replica),
            ("invoke", 2) => Some(Part::Key),
            _ => None,
        }
    }

    /// The first word that isn't what it has to be, with what it has to be.
    fn first_wrong(&self, fault: LineFault) -> Option<(Part, &'a str)> {
        for place in 0..3 {
            let word = self.others[place];
            if let Some(part) = self.part(place)
                && !word.is_empty()
            {
                let is_right = match fault {
                    LineFault::Range => part.is_in_range(word),
                    _ => part.has_form(word),
                };
                if !is_right {
                    return Some((part, word));
                }
            }
        }
        None
    }

    /// How a line with that first word is written, if it is a command's.
    fn form(&self) -> Option<&'static str> {
        match self.verb {
            "replicas" => Some("replicas N [CALLS [MESSAGES]], as the first command, once"),
            "reads" => Some("reads full or reads short, directly after replicas"),
            "votes" => Some(
                "votes V .. ask A put P, with a V for each replica, after replicas or reads",
            ),
            "join" => Some("join CLIENT"),
            "invoke" => Some("invoke CLIENT read KEY, or invoke CLIENT write KEY VALUE"),
            "send" => Some("send CLIENT REPLICA"),
            "deliver" => Some("deliver M"),
            "lose" => Some("lose M"),
            "repeat" => Some("repeat M"),
            "respond" => Some("respond CLIENT"),
            "stop" => Some("stop client CLIENT, or stop replica REPLICA"),
            "start" => Some("start replica REPLICA"),
            "finish" => Some("finish CLIENT"),
            "random" => Some("random SEED COUNT"),
            _ => None,
        }
    }
}

/// Adds that the word should be other.
fn append_wrong(text: &mut Vec<u8>, part: Part, word: &str) -> Result<(), Memory> {
    append(text, part.name())?;
    append(text, " is ")?;
    append_quoted(text, word)?;
    append(text, ": it should be ")?;
    append_allowed(text, part.allowed())
}

/// Adds why the words make no command.
fn append_unknown(text: &mut Vec<u8>, words: &FirstWords<'_>) -> Result<(), Memory> {
    match (words.first_wrong(LineFault::UnknownCommand), words.form()) {
        (Some((part, word)), _) => append_wrong(text, part, word),
        (None, Some(form)) => {
            append(text, "it should be: ")?;
            append(text, form)
        }
        (None, None) => {
            append_quoted(text, words.verb)?;
            append(text, " is no command")
        }
    }
}

/// Adds which word is out of its range.
fn append_range(text: &mut Vec<u8>, words: &FirstWords<'_>) -> Result<(), Memory> {
    match words.first_wrong(LineFault::Range) {
        Some((part, word)) => append_wrong(text, part, word),
        None if words.verb == "votes" => append(
            text,
            "each V should be 1 to 9, A and P 1 to the sum of all V, and A and P together more than that",
        ),
        None => append(text, "VALUE should have at most 256 bytes"),
    }
}

/// Adds what the first command should be.
fn append_first(text: &mut Vec<u8>, words: &FirstWords<'_>) -> Result<(), Memory> {
    if !words.verb.is_empty() && !words.verb.starts_with("#") {
        append_quoted(text, words.verb)?;
        append(text, " is the first word: ")?;
    }
    append(
        text,
        "the first command should be replicas N [CALLS [MESSAGES]]",
    )
}

/// Why the line has the fault, in words.
fn words_on(alloc: Global, line: &[u8], fault: LineFault) -> Result<Vec<u8>, Memory> {
    let mut text = Vec::new(alloc);
    let words = FirstWords::of(str::from_utf8(line).unwrap_or(""));
    match fault {
        LineFault::NotUtf8 => append(&mut text, "a script is UTF-8")?,
        LineFault::NoReplicas => append_first(&mut text, &words)?,
        LineFault::UnknownCommand => append_unknown(&mut text, &words)?,
        LineFault::Range => append_range(&mut text, &words)?,
        LineFault::TooLong => append(&mut text, "a line has at most 65,536 bytes")?,
        LineFault::TooManyCommands => append(&mut text, "a script has at most 1,000,000 commands")?,
    }
    Ok(text)
}

/// Says why the line has the fault, in one line after two blanks, with no control character.
fn append_script_line(text: &mut Vec<u8>, line: &FoundLine, fault: LineFault) -> Result<(), Memory>
    ensures { OnOk result (AddsScript line.now fault text.old.items text.new.items) }
{
    let words = words_on(*text.allocator(), line.bytes.as_slice(), fault)?;
    append_sentence(text, words.as_slice())
}

/// Why the line of a script has that fault, in one line after two blanks, with no control character. Where the
/// line isn't there, that is said.
///
/// Which word is named, and the other words of the line, are only tested.
pub fn explain_script_line(
    alloc: Global,
    line: Option<FoundLine>,
    fault: LineFault,
) -> Result<Vec<u8>, Memory>
    ensures { IfOk result (λ text. SaysOfLine AddsScript line fault text.items) }
{
    let mut text = Vec::new(alloc);
    if let Some(line) = line {
        append_script_line(&mut text, &line, fault)?;
    }
    said(text)
}

/// Why a script has its first fault, as `explain_script_line` says it of the line of the fault; of a fault of the
/// device, and of out of memory, nothing. The reader gives the script again, from its beginning.
pub fn explain_script_fault<R: CountedRead>(
    alloc: Global,
    reader: &mut R,
    fault: ScriptError,
) -> Result<Vec<u8>, Memory>
    ensures { IfOk result (λ text. Explains AddsScript
        (states R.remaining R.failures reader.old reader.new) fault.line fault.kind text.items) }
{
    let ErrorKind::Line(kind) = fault.kind else {
        return Ok(Vec::new(alloc));
    };
    let line = find_line(alloc, reader, fault.line)?;
    explain_script_line(alloc, line, kind)
}
