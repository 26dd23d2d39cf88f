//! The bars of a diagram, one for each call on its client's lifeline.
ghost use Rattle.std.specs.Prelude.{◌≡◌, ◌++◌, OnOk};
ghost use Rattle.markup.specs.Markup.{rendered};
ghost use Rattle.labels.specs.Labels.{title};
ghost use Rattle.labels.specs.Places.{IsNear, IsNearFrame};
ghost use Rattle.diagram_places.specs.Layout.{HasClientsInOrder};
ghost use Rattle.diagrams.specs.Calls.{action_class, bar_shape, in_bar, last_part, open_corners};
ghost use Rattle.diagrams.specs.Calls.{parts, shut_part, stop_of};
ghost use Rattle.diagram_words.specs.Words.{begin_words};

use crate::style::{ASKING, PUTTING, READING, STOP, WRITING};
use diagram_places::sizes::{MOMENT, STOP_LEFT, STOP_RIGHT};
use diagram_places::{bottom_of, client_x, down, piece};
use diagram_words::say_begin;
use labels::{Frame, Way, append_line, append_polyline, append_title};
use markup::{Attribute, AttributeName, Element, append_closing, append_empty, open_of_class};
use message_scenes::{CallBar, CallEnd, MessageScene, PlacedNote};
use std::alloc::Global;
use tag::{Action, ClientId, Memory};

/// The class of the bar of such a call.
pub(crate) fn action_class(action: &Action) -> &'static str
    ensures { result.now ≡ action_class action.now }
{
    match action {
        Action::Read => READING,
        Action::Write(_) => WRITING,
    }
}

/// Adds a part with four sides.
pub(crate) fn append_shut(page: &mut Vec<u8>, class: &str, frame: Frame) -> Result<(), Memory>
    ensures { OnOk result
        (page.new.items ≡ page.old.items ++ rendered (shut_part class.now frame)) }
{
    let class = Attribute::Words(AttributeName::Class, class);
    let [x, y, width, height] = frame.attributes();
    append_empty(page, Element::Rect, &[class, x, y, width, height])
}

/// The corners of a part without a side below, in tenths of a pixel: each a distance right, and one
/// down.
fn open_corners(frame: Frame) -> [u64; 8]
    requires { IsNearFrame frame }
    ensures { result ≡ open_corners frame }
{
    let (left, right, top, bottom) = (frame.left, frame.right, frame.top, frame.bottom);
    [
        left * 10,
        bottom * 10,
        left * 10,
        top * 10,
        right * 10,
        top * 10,
        right * 10,
        bottom * 10,
    ]
}

/// Adds the last part of a bar that so ends.
fn append_last(page: &mut Vec<u8>, end: &CallEnd, class: &str, frame: Frame) -> Result<(), Memory>
    requires { IsNearFrame frame }
    ensures { OnOk result
        (page.new.items ≡ page.old.items ++ rendered (last_part end.now class.now frame)) }
{
    match end {
        CallEnd::Open => append_polyline(page, class, &open_corners(frame)),
        _ => append_shut(page, class, frame),
    }
}

/// Adds the parts of the bar: where its call asks, and where it puts.
fn append_parts(page: &mut Vec<u8>, scene: &MessageScene, bar: &CallBar) -> Result<(), Memory>
    requires { HasClientsInOrder scene.now }
    ensures { OnOk result (page.new.items
        ≡ page.old.items ++ rendered (parts scene.now bar.now.note bar.now)) }
{
    let end = &bar.end;
    let (top, bottom) = (down(MOMENT, bar.begins), bottom_of(scene, end));
    match bar.note {
        None => append_last(page, end, ASKING, piece(scene, bar.client, top, bottom)),
        Some(PlacedNote { row, .. }) => {
            let middle = down(MOMENT, row);
            append_shut(page, ASKING, piece(scene, bar.client, top, middle))?;
            append_last(page, end, PUTTING, piece(scene, bar.client, middle, bottom))
        }
    }
}

/// Adds a line across the client's lifeline where the client stopped, if the call ends so.
fn append_stop(page: &mut Vec<u8>, scene: &MessageScene, bar: &CallBar) -> Result<(), Memory>
    requires { HasClientsInOrder scene.now }
    ensures { OnOk result (page.new.items ≡ page.old.items
        ++ rendered (stop_of scene.now bar.now.client bar.now.end)) }
{
    match &bar.end {
        CallEnd::Stopped(row) => {
            let left = client_x(scene, STOP_LEFT, bar.client);
            let right = client_x(scene, STOP_RIGHT, bar.client);
            append_line(page, STOP, Way::level(down(MOMENT, *row), left, right))
        }
        _ => Ok(()),
    }
}

/// Adds what the call does, as a title.
pub(crate) fn append_call_title(
    alloc: Global,
    page: &mut Vec<u8>,
    bar: &CallBar,
) -> Result<(), Memory>
    ensures { OnOk result
        (page.new.items ≡ page.old.items ++ rendered (title (begin_words bar.now))) }
{
    let mut words = Vec::new(alloc);
    say_begin(&mut words, bar)?;
    append_title(page, &words)
}

/// Adds what is seen of the bar.
pub(crate) fn append_in_bar(
    page: &mut Vec<u8>,
    scene: &MessageScene,
    bar: &CallBar,
) -> Result<(), Memory>
    requires { HasClientsInOrder scene.now }
    ensures { OnOk result
        (page.new.items ≡ page.old.items ++ rendered (in_bar scene.now bar.now)) }
{
    append_parts(page, scene, bar)?;
    append_stop(page, scene, bar)
}

/// Adds what is seen of the bar, by itself.
pub(crate) fn append_bar_shape(
    page: &mut Vec<u8>,
    scene: &MessageScene,
    bar: &CallBar,
) -> Result<(), Memory>
    requires { HasClientsInOrder scene.now }
    ensures { OnOk result
        (page.new.items ≡ page.old.items ++ rendered (bar_shape scene.now bar.now)) }
{
    open_of_class(page, Element::G, action_class(&bar.action))?;
    append_in_bar(page, scene, bar)?;
    append_closing(page, Element::G)
}
