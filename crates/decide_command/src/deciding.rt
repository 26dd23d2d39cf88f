//! What `abd decide` tells of keys.
ghost use Rattle.std.specs.Prelude.{◌≡◌, map};
ghost use Rattle.judged_keys.specs.Selected.{names_of};
ghost use Rattle.judged_keys.specs.declared.judged.Judged.TheVariants.{Values};
ghost use Rattle.decide_command.specs.Decided.{DecidesKeys, decided_words, selection_of};

use crate::json_lines::{append_missing_object, append_object};
use cli::Made;
use command_line::{DecideAsked, Lines};
use explain_command::{append_explained, append_left_out, append_missing};
use history_file::NumberedHistories;
use judged_keys::{Judged, JudgedKey, Names, Presentation, Selection, Wording, tell_keys};
use parallel_keys::KeyToCheck;
use std::alloc::Global;
use tag::Memory;

/// Which keys are decided, and in which form it is told.
#[derive(Clone, Copy, Debug)]
pub struct Deciding<'a> {
    /// The names of the keys that alone are decided; each key if none is named.
    pub keys: Names<'a>,
    /// How many keys that aren't atomic have their reason said, at most.
    pub most: u16,
    /// The form of the lines.
    pub form: Lines,
}

impl<'a> Deciding<'a> {
    /// What the words ask for.
    pub fn of(asked: &'a DecideAsked<'a>) -> Deciding<'a>
        ensures keys { names_of (selection_of result)
            ≡ map (λ name. name.now) asked.now.keys.items }
        ensures most { result.most ≡ asked.now.most }
        ensures form { result.form ≡ asked.now.form }
    {
        Deciding {
            keys: Names::Several(asked.keys.as_slice()),
            most: asked.most,
            form: asked.form,
        }
    }
}

impl Wording for Deciding<'_> {
    ghost selected = { selection_of };

    ghost words = { decided_words };

    fn selection(&self) -> Selection<'_> {
        Selection {
            judged: Judged::Values,
            keys: self.keys,
            most: self.most,
        }
    }

    fn say(
        &self,
        alloc: Global,
        text: &mut Vec<u8>,
        numbered: &NumberedHistories,
        key: &JudgedKey<'_>,
        explained: bool,
    ) -> Result<(), Memory> {
        match self.form {
            Lines::Plain => append_explained(alloc, text, numbered, key, explained),
            Lines::Json => append_object(alloc, text, key),
        }
    }

    fn say_missing(&self, text: &mut Vec<u8>, name: &str) -> Result<(), Memory> {
        match self.form {
            Lines::Plain => append_missing(text, name),
            Lines::Json => append_missing_object(text, name),
        }
    }

    fn say_left_out(&self, text: &mut Vec<u8>, count: usize) -> Result<(), Memory> {
        match self.form {
            Lines::Plain => append_left_out(text, Judged::Values, count),
            Lines::Json => Ok(()),
        }
    }
}

/// Of each key that is selected it is told whether its calls have an order: for people a line, and below
/// those of the first keys that have none, up to that many, why, with the lines of the history on which the
/// calls stand, and how many of its reads are stale; for programs an object of JSON. Then it is told which
/// of the names that were given no key has, and for people how many keys that have no order have no reason
/// there.
impl Presentation for Deciding<'_> {
    ghost Presents = { DecidesKeys };

    fn present(
        &self,
        alloc: Global,
        numbered: &NumberedHistories,
        keys: Vec<KeyToCheck<'_>>,
    ) -> Made<'static> {
        Ok(tell_keys(alloc, self, numbered, keys)?)
    }
}
