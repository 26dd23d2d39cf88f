//! The arrow between two calls whose precedence an order breaks.
ghost use Rattle.std.specs.Prelude.{◌≡◌, ◌++◌, OnOk};
ghost use Rattle.markup.specs.Markup.{rendered};
ghost use Rattle.labels.specs.Labels.{polyline};
ghost use Rattle.labels.specs.Places.{IsNear, IsNearFrame};
ghost use Rattle.pictures.specs.Layout.{IsInOrder};
ghost use Rattle.pictures.specs.Arrows.{arrow_corners, arrow_markup, arrow_tip, arrow_word, between};
ghost use Rattle.pictures.specs.Arrows.{end_of, last_row, word_left};
ghost use Rattle.pictures.specs.declared.style.TheConstants.{ARROW};

use crate::frames::frame_of;
use crate::layout::{across, down, row_of_place};
use crate::sizes::{
    ARROW_END, ARROW_LEFT, ARROW_RIGHT, HEAD_HEIGHT, HEAD_WIDTH, LINE_LETTERS, MIDDLE, RIGHT,
    TEXT_BASE, WORD_MARGIN,
};
use crate::style::{ARROW, BEFORE, BEFORE_WORD};
use labels::{Frame, Spot, append_label, append_polyline};
use scenes::{Arrow, Bar, Scene};
use sentences::append;
use std::alloc::Global;
use tag::Memory;

/// The row in which the bar's call is answered; a pending one's begins there.
fn last_row(scene: &Scene, bar: &Bar) -> usize
    requires { IsInOrder scene.now }
    ensures { result ≡ last_row scene.now bar.now }
{
    match bar.answered {
        Some(place) => row_of_place(scene, place),
        None => row_of_place(scene, bar.begins),
    }
}

/// How far right the arrow's tip stands: on the far side of the bar to which it leads.
fn arrow_tip(from: Frame, to: Frame) -> u64
    requires { IsNearFrame to }
    ensures { result ≡ arrow_tip from to }
{
    if to.left < from.left {
        to.left + ARROW_LEFT
    } else {
        to.right.saturating_sub(ARROW_RIGHT)
    }
}

/// Where the arrow's word begins: beside the bar that stands farther left of the two.
fn word_left(from: Frame, to: Frame) -> u64
    requires from { IsNearFrame from }
    requires to { IsNearFrame to }
    ensures { result ≡ word_left from to }
{
    if to.left < from.left {
        to.left + ARROW_LEFT + WORD_MARGIN
    } else {
        from.right + WORD_MARGIN
    }
}

/// The corners of the arrow, in tenths of a pixel: each a distance right, and one down.
fn arrow_corners(from: Frame, to: Frame, y: u64) -> [u64; 12]
    requires from { IsNearFrame from }
    requires to { IsNearFrame to }
    requires y { IsNear y }
    ensures { result ≡ arrow_corners from to y }
{
    let tip = arrow_tip(from, to);
    let side = tip.min(from.right).max(from.left);
    let above = to.top.saturating_sub(HEAD_HEIGHT);
    [
        side * 10,
        y * 10,
        tip * 10,
        y * 10,
        tip * 10,
        to.top * 10,
        tip.saturating_sub(HEAD_WIDTH) * 10,
        above * 10,
        tip * 10,
        to.top * 10,
        (tip + HEAD_WIDTH) * 10,
        above * 10,
    ]
}

/// Adds the arrow from the one frame to the other, which begins at that height.
fn append_shaft(page: &mut Vec<u8>, from: Frame, to: Frame, y: u64) -> Result<(), Memory>
    requires from { IsNearFrame from }
    requires to { IsNearFrame to }
    requires y { IsNear y }
    ensures { OnOk result (page.new.items ≡ page.old.items
        ++ rendered (polyline ARROW.now (arrow_corners from to y))) }
{
    append_polyline(page, ARROW, &arrow_corners(from, to, y))
}

/// Adds the arrow's word there.
fn append_word(alloc: Global, page: &mut Vec<u8>, x: u64, y: u64) -> Result<(), Memory>
    ensures { OnOk result (page.new.items ≡ page.old.items ++ rendered (arrow_word x y)) }
{
    let mut words = Vec::new(alloc);
    append(&mut words, BEFORE_WORD)?;
    let spot = Spot::new(BEFORE, x, y, LINE_LETTERS);
    append_label(alloc, page, &spot, &words)
}

/// Adds the arrow from the one bar to the other, and its word.
fn append_between(
    alloc: Global,
    page: &mut Vec<u8>,
    scene: &Scene,
    from: &Bar,
    to: &Bar,
) -> Result<(), Memory>
    requires { IsInOrder scene.now }
    ensures { OnOk result
        (page.new.items ≡ page.old.items ++ rendered (between scene.now from.now to.now)) }
{
    let row = last_row(scene, from);
    let begin = frame_of(scene, from);
    let end = frame_of(scene, to);
    append_shaft(page, begin, end, down(MIDDLE, row))?;
    append_word(alloc, page, word_left(begin, end), down(TEXT_BASE, row))
}

/// Adds the arrow, if there is one.
pub(crate) fn append_arrow(
    alloc: Global,
    page: &mut Vec<u8>,
    scene: &Scene,
    arrow: Option<Arrow>,
) -> Result<(), Memory>
    requires { IsInOrder scene.now }
    ensures { OnOk result
        (page.new.items ≡ page.old.items ++ rendered (arrow_markup scene.now arrow)) }
{
    let Some(arrow) = arrow else {
        return Ok(());
    };
    let Some(from) = scene.bars.get(arrow.from) else {
        return Ok(());
    };
    let Some(to) = scene.bars.get(arrow.to) else {
        return Ok(());
    };
    append_between(alloc, page, scene, from, to)
}

/// Where the picture ends in the column after the last.
pub(crate) fn end_of(scene: &Scene, arrow: Option<Arrow>) -> u64
    ensures end { result ≡ end_of scene.now arrow }
    ensures near { IsNear result }
{
    match arrow {
        None => across(scene, RIGHT, scene.columns.len()),
        Some(_) => across(scene, ARROW_END, scene.columns.len()),
    }
}
