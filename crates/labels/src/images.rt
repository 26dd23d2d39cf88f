//! The element of a picture, and that of a view of what it shows.
ghost use Rattle.std.specs.Prelude.{◌≡◌, ◌++◌, OnOk};
ghost use Rattle.markup.specs.Markup.{opening_tag};
ghost use Rattle.markup.specs.declared.names.Element.TheVariants as tag;
ghost use Rattle.labels.specs.Images.{image_attributes, view_attributes};
ghost use Rattle.labels.specs.Places.{IsNear};

use crate::style::IMAGE;
use markup::{Attribute, AttributeName, Element, append_opening};
use tag::Memory;

/// Opens the element of a picture that is so wide and so high.
pub fn open_image(page: &mut Vec<u8>, width: u64, height: u64) -> Result<(), Memory>
    requires width { IsNear width }
    requires height { IsNear height }
    ensures { OnOk result (page.new.items
        ≡ page.old.items ++ opening_tag tag.Svg (image_attributes width height)) }
{
    let attributes = [
        Attribute::Words(AttributeName::Role, IMAGE),
        Attribute::Number(AttributeName::Width, width),
        Attribute::Number(AttributeName::Height, height),
        Attribute::AllTenths(AttributeName::ViewBox, &[0, 0, width * 10, height * 10]),
    ];
    append_opening(page, Element::Svg, &attributes)
}

/// Opens a view that is so wide, from there down so high.
pub fn open_view(page: &mut Vec<u8>, width: u64, top: u64, height: u64) -> Result<(), Memory>
    requires width { IsNear width }
    requires top { IsNear top }
    requires height { IsNear height }
    ensures { OnOk result (page.new.items
        ≡ page.old.items ++ opening_tag tag.Svg (view_attributes width top height)) }
{
    let attributes = [
        Attribute::Number(AttributeName::Width, width),
        Attribute::Number(AttributeName::Height, height),
        Attribute::AllTenths(
            AttributeName::ViewBox,
            &[0, top * 10, width * 10, height * 10],
        ),
    ];
    append_opening(page, Element::Svg, &attributes)
}
