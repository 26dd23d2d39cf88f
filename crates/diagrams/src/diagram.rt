//! The diagram of the messages of a script's run.
ghost use Rattle.std.specs.Prelude.{◌≡◌, ◌++◌, OnOk};
ghost use Rattle.markup.specs.Markup.{opening_tag, rendered};
ghost use Rattle.markup.specs.declared.names.Element.TheVariants as tag;
ghost use Rattle.diagram_places.specs.Layout.{HasClientsInOrder};
ghost use Rattle.diagrams.specs.Diagrams.{content, diagram, head, omitted_text, plane, prologue};
ghost use Rattle.diagrams.specs.Diagrams.{shapes, svg, svg_attributes, texts};

use crate::curtains::append_curtains;
use crate::hearings::Hearings;
use crate::items::{open_box, open_hidden, open_list};
use crate::lifelines::append_lifelines;
use crate::lit::{Arrows, Bars};
use crate::replicas::{Downs, Holdings};
use crate::rows::{Reasons, Rows};
use crate::strips::append_strips;
use crate::style::{AUTO, HEAD, HEAD_BOX, HEAD_PATH, LIFELINES, MORE, OMITTED, TEXTS, TITLE};
use crate::texts::CallTexts;
use diagram_places::sizes::{
    BOTTOM, COMMAND_LEFT, HEAD_MIDDLE, HEAD_SIZE, HEAD_TIP, SENTENCE_LETTERS, TEXT_BASE,
};
use diagram_places::{down, rows_of, width_of};
use labels::{Spot, append_each, append_each_indexed, append_numbered, append_title};
use markup::{Attribute, AttributeName, Element, append_closing, append_empty, append_opening};
use message_scenes::MessageScene;
use std::alloc::Global;
use tag::Memory;

/// Adds the head of arrows.
fn append_head(page: &mut Vec<u8>) -> Result<(), Memory>
    ensures { OnOk result (page.new.items ≡ page.old.items ++ rendered head) }
{
    let attributes = [
        Attribute::Words(AttributeName::Id, HEAD),
        Attribute::Words(AttributeName::ViewBox, HEAD_BOX),
        Attribute::Number(AttributeName::RefX, HEAD_TIP),
        Attribute::Number(AttributeName::RefY, HEAD_MIDDLE),
        Attribute::Number(AttributeName::MarkerWidth, HEAD_SIZE),
        Attribute::Number(AttributeName::MarkerHeight, HEAD_SIZE),
        Attribute::Words(AttributeName::Orient, AUTO),
    ];
    append_opening(page, Element::Marker, &attributes)?;
    let shape = [
        Attribute::Words(AttributeName::Class, HEAD),
        Attribute::Words(AttributeName::D, HEAD_PATH),
    ];
    append_empty(page, Element::Path, &shape)?;
    append_closing(page, Element::Marker)
}

/// Adds the diagram's title, and the head of its arrows.
fn append_prologue(page: &mut Vec<u8>) -> Result<(), Memory>
    ensures { OnOk result (page.new.items ≡ page.old.items ++ rendered prologue) }
{
    append_title(page, TITLE.as_bytes())?;
    append_opening(page, Element::Defs, &[])?;
    append_head(page)?;
    append_closing(page, Element::Defs)
}

/// Adds how many further steps there were, if there were any.
fn append_omitted(alloc: Global, page: &mut Vec<u8>, scene: &MessageScene) -> Result<(), Memory>
    ensures { OnOk result (page.new.items ≡ page.old.items ++ rendered (omitted_text scene.now)) }
{
    if scene.omitted > 0 {
        let y = down(TEXT_BASE, rows_of(scene));
        let spot = Spot::new(MORE, COMMAND_LEFT, y, SENTENCE_LETTERS);
        append_numbered(alloc, page, &spot, OMITTED, scene.omitted)
    } else {
        Ok(())
    }
}

/// Adds what arrows and calls stand on.
fn append_plane(alloc: Global, page: &mut Vec<u8>, scene: &MessageScene) -> Result<(), Memory>
    requires { HasClientsInOrder scene.now }
    ensures { OnOk result (page.new.items ≡ page.old.items ++ rendered (plane scene.now)) }
{
    append_each_indexed(page, &Rows { alloc, scene }, &scene.rows)?;
    open_hidden(page, LIFELINES)?;
    append_lifelines(alloc, page, scene)?;
    append_each(page, &Downs { alloc, scene }, &scene.downs)?;
    append_closing(page, Element::G)
}

/// Adds the texts at lifelines, and the reasons.
fn append_texts(alloc: Global, page: &mut Vec<u8>, scene: &MessageScene) -> Result<(), Memory>
    requires { HasClientsInOrder scene.now }
    ensures { OnOk result (page.new.items ≡ page.old.items ++ rendered (texts scene.now)) }
{
    let texts = CallTexts { alloc, scene };
    append_each(page, &texts, &scene.calls)?;
    append_each(page, &Hearings { texts }, &scene.hearings)?;
    append_each(page, &Holdings { alloc, scene }, &scene.holdings)?;
    append_each_indexed(page, &Reasons { alloc }, &scene.rows)
}

/// Adds the bars of the calls, the arrows above them, and above these the texts.
fn append_shapes(alloc: Global, page: &mut Vec<u8>, scene: &MessageScene) -> Result<(), Memory>
    requires { HasClientsInOrder scene.now }
    ensures { OnOk result (page.new.items ≡ page.old.items ++ rendered (shapes scene.now)) }
{
    append_each(page, &Bars { alloc, scene }, &scene.calls)?;
    append_each(page, &Arrows { alloc, scene }, &scene.arrows)?;
    open_hidden(page, TEXTS)?;
    append_texts(alloc, page, scene)?;
    append_closing(page, Element::G)
}

/// Opens the diagram's element.
fn open_svg(page: &mut Vec<u8>, scene: &MessageScene) -> Result<(), Memory>
    ensures { OnOk result (page.new.items
        ≡ page.old.items ++ opening_tag tag.Svg (svg_attributes scene.now)) }
{
    open_list(page, width_of(scene), down(BOTTOM, rows_of(scene)))
}

/// Adds what stands in the diagram's element.
fn append_content(alloc: Global, page: &mut Vec<u8>, scene: &MessageScene) -> Result<(), Memory>
    requires { HasClientsInOrder scene.now }
    ensures { OnOk result (page.new.items ≡ page.old.items ++ rendered (content scene.now)) }
{
    append_prologue(page)?;
    append_plane(alloc, page, scene)?;
    append_shapes(alloc, page, scene)?;
    append_omitted(alloc, page, scene)?;
    append_curtains(alloc, page, scene)
}

/// Adds the diagram's element.
fn append_svg(alloc: Global, page: &mut Vec<u8>, scene: &MessageScene) -> Result<(), Memory>
    requires { HasClientsInOrder scene.now }
    ensures { OnOk result (page.new.items ≡ page.old.items ++ rendered (svg scene.now)) }
{
    open_svg(page, scene)?;
    append_content(alloc, page, scene)?;
    append_closing(page, Element::Svg)
}

/// Adds the diagram: each row, each lifeline, each arrow, each call, each reply that is heard, each
/// put and each down time of the scene. It scrolls where the window is too narrow; on paper there are
/// strips of its rows.
///
/// If it fails, a beginning of that may have been added; so it is with each function here.
pub fn append_diagram(alloc: Global, page: &mut Vec<u8>, scene: &MessageScene) -> Result<(), Memory>
    requires { HasClientsInOrder scene.now }
    ensures { OnOk result (page.new.items ≡ page.old.items ++ rendered (diagram scene.now)) }
{
    open_box(page)?;
    append_strips(alloc, page, scene)?;
    append_svg(alloc, page, scene)?;
    append_closing(page, Element::Div)
}
