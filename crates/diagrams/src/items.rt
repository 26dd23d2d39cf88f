//! The list of a diagram's calls and messages, and the box in which it scrolls.
ghost use Rattle.std.specs.Prelude.{◌≡◌, ◌++◌, OnOk};
ghost use Rattle.markup.specs.Markup.{opening_tag};
ghost use Rattle.markup.specs.declared.names.Element.TheVariants as tag;
ghost use Rattle.labels.specs.Places.{IsNear};
ghost use Rattle.diagrams.specs.Items.{box_attributes, hidden_attributes, item_attributes};
ghost use Rattle.diagrams.specs.Items.{list_attributes};

use crate::style::{ITEM, LIST, MESSAGES, REGION, TITLE, TRUE};
use markup::{Attribute, AttributeName, Element, append_opening};
use tag::Memory;

/// Opens an item of that class, which can have the focus.
pub(crate) fn open_item(page: &mut Vec<u8>, class: &str) -> Result<(), Memory>
    ensures { OnOk result (page.new.items
        ≡ page.old.items ++ opening_tag tag.G (item_attributes class.now)) }
{
    let attributes = [
        Attribute::Words(AttributeName::Class, class),
        Attribute::Words(AttributeName::Role, ITEM),
        Attribute::Number(AttributeName::Tabindex, 0),
    ];
    append_opening(page, Element::G, &attributes)
}

/// Opens the list, which is so wide and so high.
pub(crate) fn open_list(page: &mut Vec<u8>, width: u64, height: u64) -> Result<(), Memory>
    requires width { IsNear width }
    requires height { IsNear height }
    ensures { OnOk result (page.new.items
        ≡ page.old.items ++ opening_tag tag.Svg (list_attributes width height)) }
{
    let attributes = [
        Attribute::Words(AttributeName::Role, LIST),
        Attribute::Number(AttributeName::Width, width),
        Attribute::Number(AttributeName::Height, height),
        Attribute::AllTenths(AttributeName::ViewBox, &[0, 0, width * 10, height * 10]),
    ];
    append_opening(page, Element::Svg, &attributes)
}

/// Opens the box in which it scrolls.
pub(crate) fn open_box(page: &mut Vec<u8>) -> Result<(), Memory>
    ensures { OnOk result
        (page.new.items ≡ page.old.items ++ opening_tag tag.Div box_attributes) }
{
    let attributes = [
        Attribute::Words(AttributeName::Id, MESSAGES),
        Attribute::Words(AttributeName::Class, MESSAGES),
        Attribute::Words(AttributeName::Role, REGION),
        Attribute::Words(AttributeName::AriaLabel, TITLE),
        Attribute::Number(AttributeName::Tabindex, 0),
    ];
    append_opening(page, Element::Div, &attributes)
}

/// Opens a group of that class of what says nothing to who doesn't see it.
pub(crate) fn open_hidden(page: &mut Vec<u8>, class: &str) -> Result<(), Memory>
    ensures { OnOk result (page.new.items
        ≡ page.old.items ++ opening_tag tag.G (hidden_attributes class.now)) }
{
    let attributes = [
        Attribute::Words(AttributeName::Class, class),
        Attribute::Words(AttributeName::AriaHidden, TRUE),
    ];
    append_opening(page, Element::G, &attributes)
}
