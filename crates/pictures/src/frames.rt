//! The shapes of bars.
ghost use Rattle.std.specs.Prelude.{◌≡◌, ◌++◌, OnOk};
ghost use Rattle.markup.specs.Markup.{rendered};
ghost use Rattle.labels.specs.Places.{IsNear, IsNearFrame};
ghost use Rattle.pictures.specs.Layout.{IsInOrder};
ghost use Rattle.pictures.specs.Frames.{bottom_of, corner_of, frame_of, open_bottom, open_corners};
ghost use Rattle.pictures.specs.Frames.{shape, shut_shape};

use crate::layout::{across, column_of, column_width, down, row_of_place, rows_of, rows_up_to};
use crate::sizes::{
    BAR_FOOT, BAR_LEFT, BAR_MARGINS, BAR_TOP, FLOOR, OPEN_FOOT, READ_CORNER, WRITE_CORNER,
};
use crate::style::OPEN;
use labels::{Frame, append_polyline};
use markup::{Attribute, AttributeName, Element, append_empty};
use recorder::ActionRef;
use scenes::{Bar, Scene};
use tag::Memory;

/// The bottom of the bar of a pending call with that end.
fn open_bottom(scene: &Scene, ends: Option<usize>) -> u64
    requires { IsInOrder scene.now }
    ensures bottom { result ≡ open_bottom scene.now ends }
    ensures near { IsNear result }
{
    match ends {
        Some(place) => down(OPEN_FOOT, rows_up_to(scene, place)),
        None => down(FLOOR, rows_of(scene)),
    }
}

/// The bottom of a bar with that response and that end.
fn bottom_of(scene: &Scene, answered: Option<usize>, ends: Option<usize>) -> u64
    requires { IsInOrder scene.now }
    ensures bottom { result ≡ bottom_of scene.now answered ends }
    ensures near { IsNear result }
{
    match answered {
        Some(place) => down(BAR_FOOT, row_of_place(scene, place)),
        None => open_bottom(scene, ends),
    }
}

/// Where the bar stands.
pub(crate) fn frame_of(scene: &Scene, bar: &Bar) -> Frame
    requires { IsInOrder scene.now }
    ensures frame { result ≡ frame_of scene.now bar.now }
    ensures near { IsNearFrame result }
{
    let width = column_width(scene) - BAR_MARGINS;
    let column = column_of(scene, bar.lane);
    Frame {
        left: across(scene, BAR_LEFT, column),
        right: across(scene, BAR_LEFT + width, column),
        top: down(BAR_TOP, row_of_place(scene, bar.begins)),
        bottom: bottom_of(scene, bar.answered, bar.ends),
    }
}

/// How round the corners are of a bar of that action.
pub(crate) fn corner_of(action: &ActionRef<'_>) -> u8
    ensures { result ≡ corner_of action.now }
{
    match action.written() {
        None => READ_CORNER,
        Some(_) => WRITE_CORNER,
    }
}

/// Adds the shape of an answered call.
fn append_shut(page: &mut Vec<u8>, frame: Frame, corner: u8) -> Result<(), Memory>
    ensures { OnOk result
        (page.new.items ≡ page.old.items ++ rendered (shut_shape frame corner)) }
{
    let [x, y, width, height] = frame.attributes();
    let corner = Attribute::Number(AttributeName::Rx, u64::from(corner));
    append_empty(page, Element::Rect, &[x, y, width, height, corner])
}

/// The corners of an open shape, in tenths of a pixel: each a distance right, and one down.
fn open_corners(frame: Frame, corner: u8) -> [u64; 12]
    requires { IsNearFrame frame }
    ensures { result ≡ open_corners frame corner }
{
    let corner = u64::from(corner);
    let (left, right, top, bottom) = (frame.left, frame.right, frame.top, frame.bottom);
    [
        left * 10,
        bottom * 10,
        left * 10,
        (top + corner) * 10,
        (left + corner) * 10,
        top * 10,
        right.saturating_sub(corner) * 10,
        top * 10,
        right * 10,
        (top + corner) * 10,
        right * 10,
        bottom * 10,
    ]
}

/// Adds the shape of the bar: with four sides, or of a pending call with an open end.
pub(crate) fn append_shape(
    page: &mut Vec<u8>,
    scene: &Scene,
    bar: &Bar,
    corner: u8,
) -> Result<(), Memory>
    requires { IsInOrder scene.now }
    ensures { OnOk result
        (page.new.items ≡ page.old.items ++ rendered (shape scene.now bar.now corner)) }
{
    let frame = frame_of(scene, bar);
    match bar.answered {
        Some(_) => append_shut(page, frame, corner),
        None => append_polyline(page, OPEN, &open_corners(frame, corner)),
    }
}
