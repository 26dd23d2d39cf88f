//! The boxes in which pictures and tables scroll, and what they are called.
ghost use Rattle.std.specs.Prelude.{◌≡◌, ◌++◌, OnOk};
ghost use Rattle.markup.specs.Markup.{opening_tag, rendered};
ghost use Rattle.markup.specs.declared.names.Element.TheVariants as tag;
ghost use Rattle.pictures.specs.Boxes.{box_attributes, named_attributes, named_calls};

use crate::keys::CallKeys;
use crate::style::{REGION, TITLE};
use labels::text_of;
use markup::{Attribute, AttributeName, Element, append_closing, append_opening, append_text};
use sentences::append;
use std::alloc::Global;
use tag::Memory;

/// Adds an element that says on which keys the calls are.
pub(crate) fn append_named(
    page: &mut Vec<u8>,
    element: Element,
    keys: CallKeys<'_>,
) -> Result<(), Memory>
    ensures { OnOk result
        (page.new.items ≡ page.old.items ++ rendered (named_calls element keys.entry)) }
{
    append_opening(page, element, &[])?;
    append_text(page, TITLE)?;
    append_text(page, keys.title_words())?;
    append_closing(page, element)
}

/// Opens a box of that class and of that name, which can have the focus.
fn open_named<'a>(page: &mut Vec<u8>, class: &'a str, name: &'a str) -> Result<(), Memory>
    ensures { OnOk result (page.new.items
        ≡ page.old.items ++ opening_tag tag.Div (named_attributes class.now name.now)) }
{
    let attributes = [
        Attribute::Words(AttributeName::Class, class),
        Attribute::Words(AttributeName::Role, REGION),
        Attribute::Words(AttributeName::AriaLabel, name),
        Attribute::Number(AttributeName::Tabindex, 0),
    ];
    append_opening(page, Element::Div, &attributes)
}

/// Opens a box of that class, whose name has these words and then the keys of its calls.
pub(crate) fn open_box(
    alloc: Global,
    page: &mut Vec<u8>,
    class: &str,
    words: &str,
    keys: CallKeys<'_>,
) -> Result<(), Memory>
    ensures { OnOk result (page.new.items ≡ page.old.items
        ++ opening_tag tag.Div (box_attributes class.now words.now keys.entry)) }
{
    let mut name = Vec::new(alloc);
    append(&mut name, words)?;
    append(&mut name, keys.title_words())?;
    open_named(page, class, text_of(&name))
}
