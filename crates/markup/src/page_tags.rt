//! Tags, and what stands between them.
ghost use Rattle.std.specs.Prelude.{◌≡◌, ◌++◌, codes, map, OnOk};
ghost use Rattle.markup.specs.Markup.{attribute_of, closing_tag, lone_tag, opening_tag, element_tag};
ghost use Rattle.markup.specs.Texts.{of_class};

use crate::attributes::{Attribute, append_attributes};
use crate::names::{AttributeName, Element};
use sentences::append;
use tag::Memory;

/// Adds the element's name and the attributes.
#[tactic(auto, unfolding(crate::specs::Markup::element_tag))]
fn append_tag(
    page: &mut Vec<u8>,
    element: Element,
    attributes: &[Attribute<'_>],
) -> Result<(), Memory>
    ensures { OnOk result (page.new.items
        ≡ page.old.items ++ element_tag element (map attribute_of attributes.now)) }
{
    append(page, element.name())?;
    append_attributes(page, attributes)
}

/// Adds the tag that opens the element. If it fails, a beginning of that may have been added; so it
/// is with each function here.
#[tactic(auto, unfolding(crate::specs::Markup::opening_tag))]
pub fn append_opening(
    page: &mut Vec<u8>,
    element: Element,
    attributes: &[Attribute<'_>],
) -> Result<(), Memory>
    ensures { OnOk result (page.new.items
        ≡ page.old.items ++ opening_tag element (map attribute_of attributes.now)) }
{
    append(page, "<")?;
    append_tag(page, element, attributes)?;
    append(page, ">")
}

/// Adds the tag that opens an element of that class.
pub fn open_of_class(page: &mut Vec<u8>, element: Element, class: &str) -> Result<(), Memory>
    ensures { OnOk result (page.new.items
        ≡ page.old.items ++ opening_tag element (of_class class.now)) }
{
    let attribute = Attribute::Words(AttributeName::Class, class);
    append_opening(page, element, &[attribute])
}

/// Adds the tag that closes the element.
#[tactic(auto, unfolding(crate::specs::Markup::closing_tag))]
pub fn append_closing(page: &mut Vec<u8>, element: Element) -> Result<(), Memory>
    ensures { OnOk result (page.new.items ≡ page.old.items ++ closing_tag element) }
{
    append(page, "</")?;
    append(page, element.name())?;
    append(page, ">")
}

/// Adds the tag of an element that holds nothing: any of SVG, and of HTML those that never hold
/// anything, as `meta` and `br`. Readers of HTML take such a tag of another element for an opening.
#[tactic(auto, unfolding(crate::specs::Markup::lone_tag))]
pub fn append_empty(
    page: &mut Vec<u8>,
    element: Element,
    attributes: &[Attribute<'_>],
) -> Result<(), Memory>
    ensures { OnOk result (page.new.items
        ≡ page.old.items ++ lone_tag element (map attribute_of attributes.now)) }
{
    append(page, "<")?;
    append_tag(page, element, attributes)?;
    append(page, " />")
}

/// Adds the end of a line of the file.
pub fn append_line_end(page: &mut Vec<u8>) -> Result<(), Memory>
    ensures { OnOk result (page.new.items ≡ page.old.items ++ codes "\n") }
{
    append(page, "\n")
}

/// Adds what a page begins with, before its element `html`.
pub fn append_doctype(page: &mut Vec<u8>) -> Result<(), Memory>
    ensures { OnOk result (page.new.items ≡ page.old.items ++ codes "<!DOCTYPE html>\n") }
{
    append(page, "<!DOCTYPE html>\n")
}
