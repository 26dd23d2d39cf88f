//! What stands above a page's table: its sums.
ghost use Rattle.std.specs.Prelude.{◌≡◌, ◌++◌, length, map, OnOk};
ghost use Rattle.markup.specs.Markup.{each, rendered};
ghost use Rattle.explain_command.specs.Lines.{missing_text};
ghost use Rattle.draw_command.specs.Pages.{front_markup, hint_markup, missing_line, none_line};
ghost use Rattle.draw_command.specs.Pages.{said};

use crate::texts::{append_counted, append_said};
use crate::words;
use explain_command::append_missing as append_name_missing;
use judged_keys::Findings;
use markup::{Attribute, AttributeName, Element, append_closing, append_opening, append_worded};
use std::alloc::Global;
use tag::Memory;

/// Adds the words that no key has the name.
fn append_words(alloc: Global, page: &mut Vec<u8>, name: &str) -> Result<(), Memory>
    ensures { OnOk result
        (page.new.items ≡ page.old.items ++ rendered (said (missing_text name.now))) }
{
    let mut line = Vec::new(alloc);
    append_name_missing(&mut line, name)?;
    append_said(alloc, page, line.as_slice())
}

/// Adds the line that says that no key has the name.
#[tactic(auto, unfolding(markup::specs::Markup::rendered))]
fn append_name(alloc: Global, page: &mut Vec<u8>, name: &str) -> Result<(), Memory>
    ensures { OnOk result
        (page.new.items ≡ page.old.items ++ rendered (missing_line name.now)) }
{
    let class = Attribute::Words(AttributeName::Class, words::MISSING);
    append_opening(page, Element::P, &[class])?;
    append_words(alloc, page, name)?;
    append_closing(page, Element::P)
}

/// Says of each of the names that no key has it.
fn append_missing(alloc: Global, page: &mut Vec<u8>, names: &[&str]) -> Result<(), Memory>
    ensures { OnOk result (page.new.items ≡ page.old.items
        ++ rendered (each missing_line (map (λ name. name.now) names.now))) }
{
    for name in names {
        append_name(alloc, page, name)?;
    }
    Ok(())
}

/// Says that values judge a history without notes, if that is to be said.
#[tactic(auto, unfolding(markup::specs::Markup::rendered))]
pub fn append_hint(page: &mut Vec<u8>, hinted: bool) -> Result<(), Memory>
    ensures { OnOk result (page.new.items ≡ page.old.items ++ rendered (hint_markup hinted)) }
{
    if hinted {
        append_worded(page, Element::P, words::HINT, words::NO_NOTES)
    } else {
        Ok(())
    }
}

/// Says that no call is drawn, if there are no keys.
#[tactic(auto, unfolding(markup::specs::Markup::rendered))]
fn append_none(page: &mut Vec<u8>, count: usize) -> Result<(), Memory>
    ensures { OnOk result (page.new.items ≡ page.old.items ++ rendered (none_line count)) }
{
    if count == 0 {
        append_worded(page, Element::P, words::HINT, words::NO_KEYS)
    } else {
        Ok(())
    }
}

/// Adds how many of the keys are refused, and the names that no key has.
#[tactic(auto, unfolding(markup::specs::Markup::rendered))]
pub(crate) fn append_front(
    alloc: Global,
    page: &mut Vec<u8>,
    findings: &Findings<'_>,
    missing: &[&str],
) -> Result<(), Memory>
    ensures { OnOk result (page.new.items ≡ page.old.items ++ rendered (front_markup
        (length findings.now.keys.items) findings.now.refused
        (map (λ name. name.now) missing.now))) }
{
    let count = findings.keys.as_slice().len();
    let refused = (words::REFUSED, findings.refused as u64);
    append_counted(page, words::SUM, refused, (words::OF_KEYS, count as u64))?;
    append_none(page, count)?;
    append_missing(alloc, page, missing)
}
