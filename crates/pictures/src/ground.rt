//! What bars stand on: columns, and a row for each tick and for each gap.
ghost use Rattle.std.specs.Prelude.{◌≡◌, ◌<◌, ◌++◌, length, OnOk};
ghost use Rattle.markup.specs.Markup.{rendered};
ghost use Rattle.pictures.specs.Layout.{IsInOrder};
ghost use Rattle.pictures.specs.Ground.{column_markup, gap_markup, level_line, middle_of, tick_markup};

use crate::layout::{across, column_width, down, row_of_gap, row_of_place, rows_of};
use crate::sizes::{COLUMN_LEFT, FLOOR, MIDDLE, ROW_TOP};
use crate::style::{GAP, LANE, TICK};
use labels::{IndexedShape, Shape, Way, append_line};
use scenes::{Column, Gap, Scene};
use tag::Memory;

/// The lines in the middle of a scene's columns.
#[derive(Clone, Copy)]
pub(crate) struct Guides<'a> {
    pub(crate) scene: &'a Scene,
}

/// The ticks of a scene: a line in the row of each.
#[derive(Clone, Copy)]
pub(crate) struct Ticks<'a> {
    pub(crate) scene: &'a Scene,
}

/// The gaps of a scene: a line in the row of each.
#[derive(Clone, Copy)]
pub(crate) struct Gaps<'a> {
    pub(crate) scene: &'a Scene,
}

/// The middle of the column.
pub(crate) fn middle_of(scene: &Scene, column: usize) -> u64
    ensures { result ≡ middle_of scene.now column }
{
    across(scene, COLUMN_LEFT + column_width(scene) / 2, column)
}

impl IndexedShape for Guides<'_> {
    type Item = Column;

    ghost can_append = { λ guides index. Unit {0} };

    ghost shape = { λ guides. column_markup guides.scene.now };

    fn append(&self, page: &mut Vec<u8>, index: usize, _item: &Column) -> Result<(), Memory> {
        let x = middle_of(self.scene, index);
        let bottom = down(FLOOR, rows_of(self.scene));
        append_line(page, LANE, Way::upright(x, ROW_TOP, bottom))
    }
}

/// Adds the line of that class over all columns, at that height.
fn append_level(page: &mut Vec<u8>, scene: &Scene, class: &str, y: u64) -> Result<(), Memory>
    ensures { OnOk result
        (page.new.items ≡ page.old.items ++ rendered (level_line scene.now class.now y)) }
{
    let right = across(scene, COLUMN_LEFT, scene.columns.len());
    append_line(page, class, Way::level(y, COLUMN_LEFT, right))
}

impl Shape for Ticks<'_> {
    type Item = usize;

    ghost can_append = { λ ticks. IsInOrder ticks.scene.now };

    ghost shape = { λ ticks. tick_markup ticks.scene.now };

    fn append(&self, page: &mut Vec<u8>, item: &usize) -> Result<(), Memory> {
        let row = row_of_place(self.scene, *item);
        append_level(page, self.scene, TICK, down(MIDDLE, row))
    }
}

impl IndexedShape for Gaps<'_> {
    type Item = Gap;

    ghost can_append = { λ gaps index. IsInOrder gaps.scene.now
        × (index < length gaps.scene.now.gaps.items) };

    ghost shape = { λ gaps. gap_markup gaps.scene.now };

    fn append(&self, page: &mut Vec<u8>, index: usize, item: &Gap) -> Result<(), Memory> {
        let row = row_of_gap(self.scene, index, item.place);
        append_level(page, self.scene, GAP, down(MIDDLE, row))
    }
}
