//! Texts of sections.
ghost use Rattle.std.specs.Prelude.{◌≡◌, ◌++◌, OnOk};
ghost use Rattle.markup.specs.Markup.{rendered};
ghost use Rattle.whole_pictures.specs.WholePages.{count_markup, found_class, found_words};
ghost use Rattle.whole_pictures.specs.WholePages.{hall_words, heading_markup, key_markup};
ghost use Rattle.whole_pictures.specs.WholePages.{reason_markup};

use crate::together::Together;
use crate::words;
use call_links::Links;
use draw_command::{append_finding, append_why};
use judged_keys::JudgedKey;
use markup::{
    Attribute, AttributeName, Element, append_closing, append_number, append_opening, append_text,
    open_of_class,
};
use std::alloc::Global;
use tag::Memory;

/// What is found of the keys together, in few words.
pub(crate) fn found_words(together: &Together<'_>) -> &'static str
    ensures { result.now ≡ found_words together.now }
{
    match together {
        Together::Ordered(_) => words::ONE_ORDER,
        Together::Refused(_, _) => words::A_KEY_IS_REFUSED,
        Together::Undecided(_) => words::A_KEY_IS_UNDECIDED,
    }
}

/// The class of keys of which that was found together.
pub(crate) fn found_class(together: &Together<'_>) -> &'static str
    ensures { result.now ≡ found_class together.now }
{
    match together {
        Together::Ordered(_) => words::YES,
        Together::Refused(_, _) => words::NO,
        Together::Undecided(_) => words::UNDECIDED,
    }
}

/// Adds the number of a hall, if there are several halls.
#[tactic(auto, unfolding(markup::specs::Markup::rendered))]
fn append_hall(page: &mut Vec<u8>, number: usize, halls: usize) -> Result<(), Memory>
    ensures { OnOk result (page.new.items ≡ page.old.items ++ rendered (hall_words number halls)) }
{
    if halls <= 1 {
        return Ok(());
    }
    append_text(page, words::HALL)?;
    append_number(page, number as u64)?;
    append_text(page, words::COMMA)
}

/// Adds the heading of the section of a hall of whose keys that was found together.
#[tactic(auto, unfolding(markup::specs::Markup::rendered))]
pub(crate) fn append_heading(
    page: &mut Vec<u8>,
    number: usize,
    halls: usize,
    together: &Together<'_>,
) -> Result<(), Memory>
    ensures { OnOk result (page.new.items
        ≡ page.old.items ++ rendered (heading_markup number halls together.now)) }
{
    append_opening(page, Element::H2, &[])?;
    append_hall(page, number, halls)?;
    append_text(page, words::ALL_KEYS)?;
    append_text(page, found_words(together))?;
    append_closing(page, Element::H2)
}

/// Adds what was found of the key, and why.
#[tactic(auto, unfolding(markup::specs::Markup::rendered))]
fn append_key(
    alloc: Global,
    page: &mut Vec<u8>,
    links: &Links<'_>,
    key: &JudgedKey<'_>,
    why: &[u8],
) -> Result<(), Memory>
    ensures { OnOk result (page.new.items ≡ page.old.items ++ rendered
        (key_markup links.now.targets.now links.now.calls.now key.now why.now)) }
{
    let class = Attribute::Words(AttributeName::Class, words::WHY);
    append_opening(page, Element::P, &[class])?;
    append_finding(alloc, page, key)?;
    append_closing(page, Element::P)?;
    append_why(alloc, page, links, why)
}

/// Says how many keys are refused, and where the others are drawn.
#[tactic(auto, unfolding(markup::specs::Markup::rendered))]
fn append_count(page: &mut Vec<u8>, count: usize) -> Result<(), Memory>
    ensures { OnOk result (page.new.items ≡ page.old.items ++ rendered (count_markup count)) }
{
    open_of_class(page, Element::P, words::SUM)?;
    append_text(page, words::KEYS_REFUSED)?;
    append_number(page, count as u64)?;
    append_text(page, words::WHY_THE_FIRST_IS)?;
    append_closing(page, Element::P)
}

/// Adds what was found of the key that is refused or undecided, if one is, and why; above a refused one how
/// many are.
#[tactic(auto, unfolding(markup::specs::Markup::rendered))]
pub(crate) fn append_reason(
    alloc: Global,
    page: &mut Vec<u8>,
    links: &Links<'_>,
    together: &Together<'_>,
    why: &[u8],
) -> Result<(), Memory>
    ensures { OnOk result (page.new.items ≡ page.old.items ++ rendered
        (reason_markup links.now.targets.now links.now.calls.now together.now why.now)) }
{
    match together {
        Together::Ordered(_) => Ok(()),
        Together::Refused(key, count) => {
            append_count(page, *count)?;
            append_key(alloc, page, links, key, why)
        }
        Together::Undecided(key) => append_key(alloc, page, links, key, why),
    }
}
