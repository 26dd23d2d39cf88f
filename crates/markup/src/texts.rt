//! Elements around a text, and numbers as texts.
ghost use Rattle.std.specs.Prelude.{◌≡◌, ◌++◌, decimal, OnOk};
ghost use Rattle.markup.specs.Markup.{rendered, text};
ghost use Rattle.markup.specs.Texts.{plain, worded};

use crate::attributes::append_decimal;
use crate::escapes::append_text;
use crate::names::Element;
use crate::page_tags::{append_closing, append_opening, open_of_class};
use tag::Memory;

/// Adds an element around the text. If it fails, a beginning of that may have been added; so it is
/// with each function here.
#[tactic(auto, unfolding(crate::specs::Markup::rendered))]
pub fn append_plain(page: &mut Vec<u8>, element: Element, words: &str) -> Result<(), Memory>
    ensures { OnOk result (page.new.items
        ≡ page.old.items ++ rendered (plain element words.now)) }
{
    append_opening(page, element, &[])?;
    append_text(page, words)?;
    append_closing(page, element)
}

/// Adds an element of that class around the text.
#[tactic(auto, unfolding(crate::specs::Markup::rendered))]
pub fn append_worded(
    page: &mut Vec<u8>,
    element: Element,
    class: &str,
    words: &str,
) -> Result<(), Memory>
    ensures { OnOk result (page.new.items
        ≡ page.old.items ++ rendered (worded element class.now words.now)) }
{
    open_of_class(page, element, class)?;
    append_text(page, words)?;
    append_closing(page, element)
}

/// Adds the number, in decimal digits.
#[tactic(auto, unfolding(crate::specs::Markup::rendered))]
pub fn append_number(page: &mut Vec<u8>, number: u64) -> Result<(), Memory>
    ensures { OnOk result (page.new.items ≡ page.old.items ++ rendered (text (decimal number))) }
{
    append_decimal(page, number)
}
