//! The words of a command, as clap takes them.
ghost use Rattle.std.specs.Prelude.{◌≡◌, false, map, IfOk};
ghost use Rattle.clap.specs.Words.{new_rule, rule_of};
ghost use Rattle.command_line.specs.CommandWords.{IsForm, command_app, number_option, rule_by, rule_of_word};

use crate::help::CommandHelp;
use crate::word::Takes::{
    Argument, FreeArgument, NeededNumber, NeededText, Nothing, Number, Text, Texts,
};
use clap::builder::ValueParser;
use clap::{Arg, ArgAction, Command};
use load::ranges::NumberRange;
use std::alloc::{AllocError, Global};

/// What a word is, and what stands in its place or after it.
#[derive(Clone, Copy)]
pub(crate) enum Takes {
    /// An argument, which has to be there.
    Argument,
    /// An argument, which may be missing.
    FreeArgument,
    /// An option, after which nothing stands.
    Nothing,
    /// An option, after which a text stands.
    Text,
    /// Such an option, which may be given more than once.
    Texts,
    /// An option, after which one of these numbers stands.
    Number(NumberRange),
    /// An option with a text, which has to be there.
    NeededText,
    /// An option with one of these numbers, which has to be there.
    NeededNumber(NumberRange),
}

/// A word of a command.
#[derive(Clone, Copy)]
pub(crate) struct Word<'a> {
    /// Its name.
    pub(crate) name: &'a str,
    /// What help calls what stands after it; nothing of an argument.
    pub(crate) value: &'a str,
    /// What stands there if it isn't given; `None` if nothing does.
    pub(crate) default: Option<&'a str>,
    /// What it is, and what stands in its place or after it.
    pub(crate) takes: Takes,
    /// What help says of it.
    pub(crate) help: &'a str,
}

/// The option of that name, after which one of these numbers stands, which help calls so.
fn numbered<'a>(named: Arg<'a>, name: &'a str, value: &'a str, range: NumberRange) -> Arg<'a>
    requires { rule_of named ≡ new_rule name.now }
    ensures rule { rule_of result ≡ number_option range name.entry.now }
    ensures local { result.global ≡ named.entry.global }
{
    named.long(name).value_name(value).value_parser(ValueParser::signed(
        i64::from(range.least),
        i64::from(range.most),
    ))
}

impl<'a> Word<'a> {
    /// The word without its default.
    fn bare(&self, alloc: Global) -> Arg<'a>
        ensures rule { rule_of result ≡ rule_by self.now.takes self.now.name.now }
        ensures local { result.global ≡ false }
    {
        let named = Arg::new(alloc, self.name).help(self.help);
        match self.takes {
            Argument => named.required(true),
            FreeArgument => named,
            Nothing => named.long(self.name).action(ArgAction::SetTrue),
            Text => named.long(self.name).value_name(self.value),
            Texts => named
                .long(self.name)
                .value_name(self.value)
                .action(ArgAction::Append),
            Number(range) => numbered(named, self.name, self.value, range),
            NeededText => named.long(self.name).value_name(self.value).required(true),
            NeededNumber(range) => numbered(named, self.name, self.value, range).required(true),
        }
    }

    /// The word as clap takes it.
    fn argument(&self, alloc: Global) -> Arg<'a>
        ensures rule { rule_of result ≡ rule_of_word self.now }
        ensures local { result.global ≡ false }
    {
        let bare = self.bare(alloc);
        match self.default {
            Some(default) => bare.default_value(default),
            None => bare,
        }
    }
}

/// The command of that name, with what help says of it, and its words, in their order.
pub(crate) fn command_of<'a>(
    alloc: Global,
    name: &'a str,
    says: CommandHelp,
    words: &[Word<'a>],
) -> Result<Command<'a>, AllocError>
    ensures { IfOk result (IsForm (command_app name.entry.now (map rule_of_word words.now))) }
{
    let mut made = Command::new(alloc, name)
        .about(says.about)
        .after_help(says.after);
    for word in words {
        made = made.arg(word.argument(alloc))?;
    }
    Ok(made)
}
