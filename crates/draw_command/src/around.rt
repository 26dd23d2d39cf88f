//! On which key the call is around which calls are to be shown, if no key that is drawn has it.
ghost use Rattle.std.specs.Prelude.{◌≡◌, ◌++◌, IfOk, OnOk, filter, map};
ghost use Rattle.std.specs.List.{list_any};
ghost use Rattle.markup.specs.Markup.{each, rendered};
ghost use Rattle.sentences.specs.Words.{quoted_text};
ghost use Rattle.parallel_keys.specs.KeysToCheck.{what_of};
ghost use Rattle.judged_keys.specs.Judgements.{judgement_of};
ghost use Rattle.draw_command.specs.Pages.{elsewhere_line, has_call, keys_around, nowhere_line};
ghost use Rattle.draw_command.specs.Pages.{said, search_markup};

use crate::showing::has_call;
use crate::texts::append_said;
use crate::words;
use judged_keys::JudgedKey;
use markup::{Element, append_closing, append_number, append_text, open_of_class};
use parallel_keys::KeyToCheck;
use sentences::append_quoted;
use std::alloc::Global;
use tag::{Key, Memory};

/// The names of those of the keys that have the call of that number.
fn keys_with<'a>(
    alloc: Global,
    number: u64,
    keys: &[KeyToCheck<'a>],
) -> Result<Vec<&'a Key>, Memory>
    ensures { IfOk result (λ names. names.items
        ≡ map (λ one. one.key) (filter (λ one. has_call one.part number) keys.now)) }
{
    let names = keys
        .iter()
        .filter(|one| has_call(&one.part, number))
        .map(|one| one.key);
    Ok(names.collect(alloc)?)
}

/// The names of those of the keys that have the call around which calls are to be shown.
pub(crate) fn keys_around<'a>(
    alloc: Global,
    around: Option<u64>,
    keys: &[KeyToCheck<'a>],
) -> Result<Vec<&'a Key>, Memory>
    ensures { IfOk result (λ names. map (λ name. name.now) names.items
        ≡ keys_around around (map what_of keys.now)) }
{
    match around {
        None => Ok(Vec::new(alloc)),
        Some(number) => keys_with(alloc, number, keys),
    }
}

/// Whether one of the keys has the call of that number.
fn have_call(keys: &[JudgedKey<'_>], number: u64) -> bool
    ensures { result ≡ list_any (λ key. has_call key.one.now.part number) keys.now }
{
    keys.iter().any(|key| has_call(&key.one.part, number))
}

/// Adds a key's name as a JSON text.
fn append_name(alloc: Global, page: &mut Vec<u8>, key: &Key) -> Result<(), Memory>
    ensures { OnOk result
        (page.new.items ≡ page.old.items ++ rendered (said (quoted_text key.now))) }
{
    let mut name = Vec::new(alloc);
    append_quoted(&mut name, key.as_str())?;
    append_said(alloc, page, name.as_slice())
}

/// Says that the call is on that key, which isn't drawn.
#[tactic(auto, unfolding(markup::specs::Markup::rendered))]
fn append_elsewhere(alloc: Global, page: &mut Vec<u8>, number: u64, key: &Key) -> Result<(), Memory>
    ensures { OnOk result (page.new.items
        ≡ page.old.items ++ rendered (elsewhere_line number key.now)) }
{
    open_of_class(page, Element::P, words::HINT)?;
    append_text(page, words::AROUND)?;
    append_number(page, number)?;
    append_text(page, words::ON_KEY)?;
    append_name(alloc, page, key)?;
    append_text(page, words::UNDRAWN_KEY)?;
    append_closing(page, Element::P)
}

/// Says of each of the keys that the call is on it.
fn append_names(alloc: Global, page: &mut Vec<u8>, number: u64, keys: &[&Key]) -> Result<(), Memory>
    ensures { OnOk result (page.new.items ≡ page.old.items
        ++ rendered (each (elsewhere_line number) (map (λ key. key.now) keys.now))) }
{
    for key in keys {
        append_elsewhere(alloc, page, number, key)?;
    }
    Ok(())
}

/// Says that the history has no call of that number, if so many keys have one and that is none.
#[tactic(auto, unfolding(markup::specs::Markup::rendered))]
fn append_nowhere(page: &mut Vec<u8>, number: u64, count: usize) -> Result<(), Memory>
    ensures { OnOk result (page.new.items
        ≡ page.old.items ++ rendered (nowhere_line number count)) }
{
    if count > 0 {
        return Ok(());
    }
    open_of_class(page, Element::P, words::HINT)?;
    append_text(page, words::NOWHERE)?;
    append_number(page, number)?;
    append_text(page, words::STOP)?;
    append_closing(page, Element::P)
}

/// Says where the call is around which calls are to be shown, if one is given that no drawn key has.
#[tactic(auto, unfolding(markup::specs::Markup::rendered))]
pub(crate) fn append_search(
    alloc: Global,
    page: &mut Vec<u8>,
    around: Option<u64>,
    drawn: &[JudgedKey<'_>],
    keys: &[&Key],
) -> Result<(), Memory>
    ensures { OnOk result (page.new.items ≡ page.old.items ++ rendered (search_markup around
        (map judgement_of drawn.now) (map (λ key. key.now) keys.now))) }
{
    let Some(number) = around else {
        return Ok(());
    };
    if have_call(drawn, number) {
        return Ok(());
    }
    append_names(alloc, page, number, keys)?;
    append_nowhere(page, number, keys.len())
}
