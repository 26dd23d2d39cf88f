//! What is told of keys.
ghost use Rattle.std.specs.Prelude.{◌≡◌, ◌++◌, IfOk, OnOk, map};
ghost use Rattle.std.specs.List.{flat_map};
ghost use Rattle.parallel_keys.specs.KeysToCheck.{what_of};
ghost use Rattle.judged_keys.specs.Halls.{HasLinesOfEach};
ghost use Rattle.judged_keys.specs.Tellings.{TellsKeys, found_in};

use crate::report::Report;
use crate::wording::Wording;
use cli::{Found, Outcome};
use history_file::NumberedHistories;
use parallel_keys::KeyToCheck;
use std::alloc::Global;
use tag::Memory;

/// What was found of all keys, if so many are refused, and if one is undecided; these names are of no key.
pub fn found_in(refused: usize, undecided: bool, missing: &[&str]) -> Found
    ensures { result ≡ found_in refused undecided (map (λ name. name.now) missing.now) }
{
    if refused > 0 || !missing.is_empty() {
        Found::Refused
    } else if undecided {
        Found::Undecided
    } else {
        Found::Good
    }
}

/// Says of each of the names that no key has it.
fn say_missing<W: Wording>(text: &mut Vec<u8>, wording: &W, names: &[&str]) -> Result<(), Memory>
    ensures { OnOk result (text.new.items ≡ text.old.items
        ++ flat_map (W.words wording.now).missing (map (λ name. name.now) names.now)) }
{
    for name in names {
        wording.say_missing(text, name)?;
    }
    Ok(())
}

/// Judges those of the keys that are selected, each once, and tells what was found: of each key, in
/// their order, with why the first so many are refused; which names no key has; and how many refused keys
/// have no reason there.
pub fn tell_keys<W: Wording>(
    alloc: Global,
    wording: &W,
    numbered: &NumberedHistories,
    mut keys: Vec<KeyToCheck<'_>>,
) -> Result<Outcome, Memory>
    requires { HasLinesOfEach numbered.now }
    ensures { IfOk result (TellsKeys (W.words wording.now) (W.selected wording.now) numbered.now
        (map what_of keys.entry.items)) }
{
    let selection = wording.selection();
    let missing = selection.missing_names(alloc, keys.as_slice())?;
    selection.select(&mut keys);
    let Report {
        mut text,
        refused,
        undecided,
    } = Report::of_keys(alloc, wording, numbered, keys.as_slice())?;
    say_missing(&mut text, wording, missing.as_slice())?;
    wording.say_left_out(
        &mut text,
        refused.saturating_sub(usize::from(selection.most)),
    )?;
    let found = found_in(refused, undecided, missing.as_slice());
    Ok(Outcome::of_text(alloc, text, found))
}
