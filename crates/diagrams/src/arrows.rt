//! What is seen of the arrows of a diagram, one for each copy of a message.
ghost use Rattle.std.specs.Prelude.{◌≡◌, ◌++◌, OnOk};
ghost use Rattle.markup.specs.Markup.{rendered};
ghost use Rattle.labels.specs.Places.{IsNear};
ghost use Rattle.diagram_places.specs.Layout.{HasClientsInOrder};
ghost use Rattle.diagram_places.specs.Ways.{IsNearWay};
ghost use Rattle.diagrams.specs.Arrows.{arrow_class, arrow_label, arrow_shape, cross, cross_of};
ghost use Rattle.diagrams.specs.Arrows.{direction_class, end_class, in_arrow};
ghost use Rattle.diagram_words.specs.Words.{arrow_title};
ghost use Rattle.labels.specs.Labels.{title};

use crate::style::{ARRIVING, CROSS, LABEL, LOST, REPLY, REQUEST, STALE, UNDER_WAY};
use diagram_places::sizes::{ARM, LABEL_BASE, LABEL_LETTERS};
use diagram_places::{down, is_request, label_x, way_of};
use diagram_words::{say_arrow, say_arrow_title};
use labels::{Spot, Way, append_label, append_line, append_title};
use markup::{Element, append_closing, open_of_class};
use message_scenes::{Arrow, ArrowEnd, MessageScene};
use std::alloc::Global;
use tag::Memory;

/// The class of a request, or of a reply.
fn direction_class(request: bool) -> &'static str
    ensures { result.now ≡ direction_class request }
{
    if request { REQUEST } else { REPLY }
}

/// The class of a line that so ends.
fn end_class(end: &ArrowEnd) -> &'static str
    ensures { result.now ≡ end_class end.now }
{
    match end {
        ArrowEnd::Arrives(_) => ARRIVING,
        ArrowEnd::Stale(_) => STALE,
        ArrowEnd::Lost(_) => LOST,
        ArrowEnd::Open => UNDER_WAY,
    }
}

/// Adds a cross at the end of the line.
fn append_cross(page: &mut Vec<u8>, way: Way) -> Result<(), Memory>
    requires { IsNearWay way }
    ensures { OnOk result (page.new.items ≡ page.old.items ++ rendered (cross way.x2 way.y2)) }
{
    let (left, right) = (way.x2.saturating_sub(ARM), way.x2 + ARM);
    let (top, bottom) = (way.y2.saturating_sub(ARM), way.y2 + ARM);
    let falling = Way {
        x1: left,
        y1: top,
        x2: right,
        y2: bottom,
    };
    let rising = Way {
        x1: left,
        y1: bottom,
        x2: right,
        y2: top,
    };
    append_line(page, CROSS, falling)?;
    append_line(page, CROSS, rising)
}

/// Adds a cross at the end of the line, if the copy is lost.
fn append_cross_of(page: &mut Vec<u8>, end: ArrowEnd, way: Way) -> Result<(), Memory>
    requires { IsNearWay way }
    ensures { OnOk result (page.new.items ≡ page.old.items ++ rendered (cross_of end way)) }
{
    match end {
        ArrowEnd::Lost(_) => append_cross(page, way),
        _ => Ok(()),
    }
}

/// Adds the number of its message, from whom to whom it goes, and what it asks or tells, as a title.
pub(crate) fn append_arrow_title(
    alloc: Global,
    page: &mut Vec<u8>,
    arrow: &Arrow,
) -> Result<(), Memory>
    ensures { OnOk result
        (page.new.items ≡ page.old.items ++ rendered (title (arrow_title arrow.now))) }
{
    let mut words = Vec::new(alloc);
    say_arrow_title(&mut words, arrow)?;
    append_title(page, &words)
}

/// Adds the number of its message, and what it asks or tells.
fn append_arrow_label(
    alloc: Global,
    page: &mut Vec<u8>,
    way: Way,
    arrow: &Arrow,
) -> Result<(), Memory>
    requires { IsNearWay way }
    ensures { OnOk result
        (page.new.items ≡ page.old.items ++ rendered (arrow_label way arrow.now)) }
{
    let mut words = Vec::new(alloc);
    say_arrow(&mut words, arrow)?;
    let x = label_x(is_request(&arrow.message), way);
    let spot = Spot::new(LABEL, x, down(LABEL_BASE, arrow.begins), LABEL_LETTERS);
    append_label(alloc, page, &spot, &words)
}

/// Adds what is seen of the arrow.
pub(crate) fn append_in_arrow(
    alloc: Global,
    page: &mut Vec<u8>,
    way: Way,
    arrow: &Arrow,
) -> Result<(), Memory>
    requires { IsNearWay way }
    ensures { OnOk result (page.new.items ≡ page.old.items ++ rendered (in_arrow way arrow.now)) }
{
    append_line(page, end_class(&arrow.end), way)?;
    append_cross_of(page, arrow.end, way)?;
    append_arrow_label(alloc, page, way, arrow)
}

/// The class of the arrow.
pub(crate) fn arrow_class(arrow: &Arrow) -> &'static str
    ensures { result.now ≡ arrow_class arrow.now }
{
    direction_class(is_request(&arrow.message))
}

/// Adds what is seen of the arrow, by itself.
pub(crate) fn append_arrow_shape(
    alloc: Global,
    page: &mut Vec<u8>,
    scene: &MessageScene,
    arrow: &Arrow,
) -> Result<(), Memory>
    requires { HasClientsInOrder scene.now }
    ensures { OnOk result
        (page.new.items ≡ page.old.items ++ rendered (arrow_shape scene.now arrow.now)) }
{
    open_of_class(page, Element::G, arrow_class(arrow))?;
    append_in_arrow(alloc, page, way_of(scene, arrow), arrow)?;
    append_closing(page, Element::G)
}
