//! Which keys are judged.
ghost use Rattle.std.specs.Prelude.{◌≡◌, IfOk, filter, is_some, map, option_map, option_to_list};
ghost use Rattle.parallel_keys.specs.KeysToCheck.{what_of};
ghost use Rattle.judged_keys.specs.Notes.{judges_no_notes};
ghost use Rattle.judged_keys.specs.Selected.{is_selected, judged_without_values, missing_names, names_of};

use crate::judged::Judged;
use crate::names::Names;
use crate::notes::lack_notes;
use command_line::KeysAsked;
use parallel_keys::KeyToCheck;
use std::alloc::Global;
use tag::Memory;

/// Which keys are judged, by what, and how many of them are said or shown more of.
#[derive(Clone, Copy, Debug)]
pub struct Selection<'a> {
    pub judged: Judged,
    /// The names of the keys that alone are judged; each key if none is named.
    pub keys: Names<'a>,
    /// How many refused keys have their reason said, or how many keys are drawn, at most.
    pub most: u16,
}

impl<'a> Selection<'a> {
    /// The keys that the words ask for, judged by the orders, or without orders by their tags.
    pub fn of(asked: &KeysAsked<'a>) -> Selection<'a>
        ensures judged { result.judged ≡ judged_without_values (is_some asked.now.orders) }
        ensures keys { names_of result
            ≡ option_to_list (option_map (λ name. name.now) asked.now.key) }
        ensures most { result.most ≡ asked.now.most }
    {
        let judged = if asked.orders.is_some() {
            Judged::Orders
        } else {
            Judged::Tags
        };
        Selection {
            judged,
            keys: Names::of(asked.key),
            most: asked.most,
        }
    }

    /// Whether keys are judged by their tags, and none of these, the keys of a history, has any.
    pub fn judges_no_notes(&self, keys: &[KeyToCheck<'_>]) -> bool
        ensures { result ≡ judges_no_notes self.now.judged (map what_of keys.now) }
    {
        match self.judged {
            Judged::Tags => lack_notes(keys),
            Judged::Orders | Judged::Values => false,
        }
    }

    /// Keeps those of the keys that are selected, in their order.
    pub fn select(&self, keys: &mut Vec<KeyToCheck<'_>>)
        ensures { keys.new.items
            ≡ filter (λ one. is_selected (names_of self.now) one.key.now) keys.old.items }
    {
        keys.retain(|one| self.keys.take(one.key));
    }

    /// Those of the names that none of the keys has, in their order.
    pub fn missing_names(
        &self,
        alloc: Global,
        keys: &[KeyToCheck<'_>],
    ) -> Result<Vec<&'a str>, Memory>
        ensures { IfOk result (λ names. map (λ name. name.now) names.items
            ≡ missing_names (map what_of keys.now) (names_of self.now)) }
    {
        self.keys.missing(alloc, keys)
    }
}
