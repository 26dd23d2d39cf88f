//! What a page says and shows of histories.
ghost use Rattle.std.specs.Prelude.{◌≡◌, ◌<◌, ◌++◌, IfOk, List, OnOk, Some, length, map, nat_lt};
ghost use Rattle.std.specs.Prelude.{slice_get};
ghost use Rattle.std.specs.List.{list_any};
ghost use Rattle.markup.specs.Markup.{rendered};
ghost use Rattle.cli.specs.Hints.{has_note};
ghost use Rattle.recorder.specs.Histories.{Recorded};
ghost use Rattle.recorder.specs.Records.{AreParts};
ghost use Rattle.recorder.specs.declared.order.KeyOrder.{KeyOrder};
ghost use Rattle.parallel_keys.specs.CheckedKeys.{KeyParts};
ghost use Rattle.parallel_keys.specs.KeysToCheck.{what_of};
ghost use Rattle.judged_keys.specs.Files.{HaveKeys};
ghost use Rattle.judged_keys.specs.Halls.{HasLinesOfEach};
ghost use Rattle.draw_command.specs.Making.{Adds};
ghost use Rattle.whole_pictures.specs.Together.{found_with};
ghost use Rattle.whole_pictures.specs.WholePages.{IsWholeContent, above_sections, none_line};

use crate::section::{add_others, add_section, hall_at};
use crate::together::Together;
use crate::whole::Task;
use crate::words;
use cli::{Found, has_note};
use markup::{Element, append_worded};
use parallel_keys::KeyToCheck;
use pictures::append_legend;
use recorder::laws::the_parts_are_one_list;
use std::alloc::Global;
use tag::Memory;

/// What was found of all, after one more.
fn with(found: Found, together: &Together<'_>) -> Found
    ensures { result ≡ found_with found together.now }
{
    match together {
        Together::Ordered(_) => found,
        Together::Refused(_, _) => Found::Refused,
        Together::Undecided(_) => match found {
            Found::Refused => Found::Refused,
            Found::Good => Found::Undecided,
            Found::Undecided => Found::Undecided,
        },
    }
}

/// How many keys the hall of that number has.
fn key_count(task: &Task<'_>, number: usize) -> Result<usize, Memory>
    requires lines { HasLinesOfEach task.now.numbered.now }
    requires number { number < length task.now.numbered.now.histories.halls }
    ensures { IfOk result (λ count. (history : Recorded) (parts : KeyParts)
        → slice_get task.now.numbered.now.histories.halls number ≡ Some history
        → AreParts history.rows parts → count ≡ length parts) }
{
    the_parts_are_one_list();
    let hall = hall_at(task.numbered, number);
    let parts = hall.history.parts()?;
    Ok(parts.len())
}

/// Whether a call on one of the keys has a note.
fn have_notes(keys: &[KeyToCheck<'_>]) -> bool
    ensures { result ≡ list_any (λ one. has_note one.part) keys.now }
{
    keys.iter().any(|one| has_note(&one.part))
}

/// Whether one of the keys has a call.
fn have_calls(keys: &[KeyToCheck<'_>]) -> bool
    ensures { result ≡ list_any (λ one. nat_lt 0 (length one.part)) keys.now }
{
    keys.iter().any(|one| 0 < one.part.len())
}

/// Says that no call is drawn, unless there is one.
#[tactic(auto, unfolding(markup::specs::Markup::rendered))]
fn append_none(page: &mut Vec<u8>, called: bool) -> Result<(), Memory>
    ensures { OnOk result (page.new.items ≡ page.old.items ++ rendered (none_line called)) }
{
    if called {
        Ok(())
    } else {
        append_worded(page, Element::P, words::HINT, words::NO_CALL)
    }
}

/// Adds what stands above the sections.
#[tactic(auto, unfolding(markup::specs::Markup::rendered))]
fn append_above(page: &mut Vec<u8>, called: bool, tagged: bool) -> Result<(), Memory>
    ensures { OnOk result (page.new.items
        ≡ page.old.items ++ rendered (above_sections called tagged)) }
{
    append_none(page, called)?;
    append_legend(page, tagged)
}

/// Says that no call is drawn, if there is none, and adds a section for each hall, and one of the keys without
/// calls if one of them is refused. What was found of all.
pub(crate) fn add_halls(
    alloc: Global,
    page: &mut Vec<u8>,
    task: &Task<'_>,
    keys: &[KeyToCheck<'_>],
) -> Result<Found, Memory>
    requires lines { HasLinesOfEach task.now.numbered.now }
    requires keys { (orders : List KeyOrder)
        × HaveKeys task.now.numbered.now.histories orders (map what_of keys.now) }
    ensures { IfOk result (λ found. Adds (IsWholeContent task.now.numbered.now task.now.drawn
        (map what_of keys.now) found) page.old.items page.new.items) }
{
    let called = have_calls(keys);
    let tagged = have_notes(keys);
    append_above(page, called, tagged)?;
    let halls = task.numbered.histories.halls().len();
    let mut found = Found::Good;
    let mut from = 0usize;
    for number in 0..halls {
        let count = key_count(task, number)?;
        let (_earlier, left) = keys.split_at(from);
        let (own, _later) = left.split_at(count);
        let together = add_section(alloc, page, task, number, own)?;
        found = with(found, &together);
        from += count;
    }
    let (_of_halls, rest) = keys.split_at(from);
    let together = add_others(alloc, page, task, rest)?;
    Ok(with(found, &together))
}
