//! What words that clap took ask for, word by word.
ghost use Rattle.std.specs.Prelude.{◌≡◌, ◌↔◌, IsTrue, IfOk, map, option_map};
ghost use Rattle.clap.specs.Words.{first_of};
ghost use Rattle.command_line.specs.Reading.{AsksNumber, Finds, GivesFlag, Names, rows_in};
ghost use Rattle.command_line.specs.Reading.{texts_given};

use crate::fault::WordsFault;
use clap::ArgMatches;
use load::ranges::NumberRange;
use std::alloc::{AllocError, Global};

/// Whether the flag is given.
pub(crate) fn has_flag(matches: &ArgMatches<'_>, name: &str) -> bool
    ensures { IsTrue result ↔ GivesFlag (rows_in matches.now) name.now }
{
    matches.get_one::<bool>(name).unwrap_or(false)
}

/// What stands in an argument's place, or after an option, or else its default.
pub(crate) fn text_in<'a>(matches: &ArgMatches<'a>, name: &str) -> Option<&'a str>
    ensures { option_map (λ text. text.now) result ≡ first_of name.now (rows_in matches.now) }
{
    matches.get_str(name)
}

/// The same where it has to be there.
pub(crate) fn needed_in<'a>(matches: &ArgMatches<'a>, name: &str) -> Result<&'a str, WordsFault>
    ensures { Finds result (Names (rows_in matches.now) name.now) }
{
    match text_in(matches, name) {
        Some(text) => Ok(text),
        None => Err(WordsFault::NoCommand),
    }
}

/// What stands after each option of that name, in their order.
pub(crate) fn texts_in<'a>(
    alloc: Global,
    matches: &ArgMatches<'a>,
    name: &str,
) -> Result<Vec<&'a str>, AllocError>
    ensures { IfOk result (λ texts. map (λ text. text.now) texts.items
        ≡ texts_given (rows_in matches.now) name.now) }
{
    match matches.get_strs(name) {
        Some(texts) => Vec::from_slice(alloc, texts),
        None => Ok(Vec::new(alloc)),
    }
}

/// The number that stands after the option, where it is within the range.
pub(crate) fn number_in(
    matches: &ArgMatches<'_>,
    name: &str,
    range: NumberRange,
) -> Result<u32, WordsFault>
    ensures { Finds result (AsksNumber (rows_in matches.now) name.now range) }
{
    let Some(number) = matches.get_one::<u32>(name) else {
        return Err(WordsFault::Number);
    };
    if range.has(number) {
        Ok(number)
    } else {
        Err(WordsFault::Number)
    }
}
