//! Linearization points, as dots.
ghost use Rattle.std.specs.Prelude.{◌≡◌, ◌<◌, ◌++◌, length, slice_get, OnOk};
ghost use Rattle.markup.specs.Markup.{rendered};
ghost use Rattle.pictures.specs.Layout.{IsInOrder};
ghost use Rattle.pictures.specs.Dots.{circle, dot_column, dot_markup, lane_or_first};

use crate::layout::{across, column_of, down, row_of_dot};
use crate::sizes::{DOT_LEFT, DOT_RADIUS, LINE_LETTERS, MIDDLE, NUMBER_LEFT, TEXT_BASE};
use crate::style::{DOT, NUMBER};
use labels::{IndexedShape, Spot, append_numbered};
use markup::{Attribute, AttributeName, Element, append_empty};
use scenes::{Dot, Scene};
use std::alloc::Global;
use tag::Memory;

/// The dots of a scene, and beside each its place in the order.
#[derive(Clone, Copy)]
pub(crate) struct Dots<'a> {
    pub(crate) alloc: Global,
    pub(crate) scene: &'a Scene,
}

/// The lane of the dot's bar; the first if there is none.
fn lane_of(scene: &Scene, dot: &Dot) -> usize
    ensures { result ≡ lane_or_first (slice_get scene.now.bars.items dot.now.bar) }
{
    match scene.bars.get(dot.bar) {
        Some(bar) => bar.lane,
        None => 0,
    }
}

/// The column of the dot's bar.
pub(crate) fn dot_column(scene: &Scene, dot: &Dot) -> usize
    ensures { result ≡ dot_column scene.now dot.now }
{
    column_of(scene, lane_of(scene, dot))
}

/// Adds a circle at that place.
fn append_circle(page: &mut Vec<u8>, x: u64, y: u64) -> Result<(), Memory>
    ensures { OnOk result (page.new.items ≡ page.old.items ++ rendered (circle x y)) }
{
    let attributes = [
        Attribute::Words(AttributeName::Class, DOT),
        Attribute::Number(AttributeName::Cx, x),
        Attribute::Number(AttributeName::Cy, y),
        Attribute::Number(AttributeName::R, DOT_RADIUS),
    ];
    append_empty(page, Element::Circle, &attributes)
}

impl IndexedShape for Dots<'_> {
    type Item = Dot;

    ghost can_append = { λ dots index. IsInOrder dots.scene.now
        × (index < length dots.scene.now.dots.items) };

    ghost shape = { λ dots. dot_markup dots.scene.now };

    fn append(&self, page: &mut Vec<u8>, index: usize, item: &Dot) -> Result<(), Memory> {
        let row = row_of_dot(self.scene, index, item.place);
        let column = dot_column(self.scene, item);
        append_circle(
            page,
            across(self.scene, DOT_LEFT, column),
            down(MIDDLE, row),
        )?;
        let x = across(self.scene, NUMBER_LEFT, column);
        let spot = Spot::new(NUMBER, x, down(TEXT_BASE, row), LINE_LETTERS);
        append_numbered(self.alloc, page, &spot, "", item.number as u64)
    }
}
