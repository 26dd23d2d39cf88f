//! What a strip shows on paper of ticks, gaps and dots.
ghost use Rattle.std.specs.Prelude.{◌≡◌, ◌<◌, ◌++◌, flat_map, length, IfOk, OnOk};
ghost use Rattle.markup.specs.Markup.{rendered};
ghost use Rattle.pictures.specs.Layout.{IsInOrder};
ghost use Rattle.pictures.specs.Marks.{corner_in, corners_in, dot_in, dot_row, gap_in, ground_in, joins};
ghost use Rattle.pictures.specs.Marks.{level_way, line_in, path_in, place_in, shows_place, tick_in};
ghost use Rattle.pictures.specs.Marks.{ticks_in};

use crate::dots::Dots;
use crate::ground::{Gaps, Guides};
use crate::layout::{across, down, row_of_dot, row_of_gap, row_of_place};
use crate::path::add_corner;
use crate::sizes::{COLUMN_LEFT, MIDDLE};
use crate::strips::{Lines, Omissions};
use crate::style::{BLANK, LEVEL, MOVE, PATH, TICK};
use explanations::HallRows;
use labels::{
    IndexedShape, Shape, append_each, append_each_indexed, append_polyline, shows_row, shows_some,
    text_of,
};
use markup::{Attribute, AttributeName, Element, append_empty};
use scenes::{Dot, Gap, Scene};
use sentences::append_number;
use std::alloc::Global;
use tag::Memory;

/// Whether the strip shows the row of that place.
fn shows_place(scene: &Scene, strip: usize, place: usize) -> bool
    requires { IsInOrder scene.now }
    ensures { result ≡ shows_place scene.now strip place }
{
    shows_row(strip, row_of_place(scene, place))
}

/// That place, if there is one and the strip shows its row.
pub(crate) fn place_in(scene: &Scene, strip: usize, place: Option<usize>) -> Option<usize>
    requires { IsInOrder scene.now }
    ensures { result ≡ place_in scene.now strip place }
{
    match place {
        Some(place) if shows_place(scene, strip, place) => Some(place),
        _ => None,
    }
}

/// Adds the line over all columns at that height, as a path has it.
fn add_level(way: &mut Vec<u8>, scene: &Scene, y: u64) -> Result<(), Memory>
    ensures { OnOk result (way.new.items ≡ way.old.items ++ level_way scene.now y) }
{
    append_number(way, MOVE, COLUMN_LEFT)?;
    append_number(way, BLANK, y)?;
    append_number(way, LEVEL, across(scene, COLUMN_LEFT, scene.columns.len()))
}

/// Adds the line of the tick of that place, if the strip shows its row.
fn add_tick(way: &mut Vec<u8>, scene: &Scene, strip: usize, place: usize) -> Result<(), Memory>
    requires { IsInOrder scene.now }
    ensures { OnOk result (way.new.items ≡ way.old.items ++ tick_in scene.now strip place) }
{
    if shows_place(scene, strip, place) {
        add_level(way, scene, down(MIDDLE, row_of_place(scene, place)))
    } else {
        Ok(())
    }
}

/// The lines of the ticks in the strip's rows.
fn ticks_way(alloc: Global, scene: &Scene, strip: usize) -> Result<Vec<u8>, Memory>
    requires { IsInOrder scene.now }
    ensures { IfOk result
        (λ way. way.items ≡ flat_map (tick_in scene.now strip) scene.now.ticks.items) }
{
    let mut way = Vec::new(alloc);
    for place in &scene.ticks {
        add_tick(&mut way, scene, strip, *place)?;
    }
    Ok(way)
}

/// Adds the lines of the ticks in the strip's rows, as one path.
fn append_ticks(
    alloc: Global,
    page: &mut Vec<u8>,
    scene: &Scene,
    strip: usize,
) -> Result<(), Memory>
    requires { IsInOrder scene.now }
    ensures { OnOk result
        (page.new.items ≡ page.old.items ++ rendered (ticks_in scene.now strip)) }
{
    let way = ticks_way(alloc, scene, strip)?;
    let attributes = [
        Attribute::Words(AttributeName::Class, TICK),
        Attribute::Words(AttributeName::D, text_of(&way)),
    ];
    append_empty(page, Element::Path, &attributes)
}

/// The lines of the history file in a strip's rows.
#[derive(Clone, Copy)]
struct LinesIn<'a> {
    lines: Lines<'a>,
    strip: usize,
}

impl Shape for LinesIn<'_> {
    type Item = usize;

    ghost can_append = { λ own. IsInOrder own.lines.scene.now };

    ghost shape = { λ own. line_in own.lines.scene.now own.strip own.lines.hall.now };

    fn append(&self, page: &mut Vec<u8>, item: &usize) -> Result<(), Memory> {
        if shows_place(self.lines.scene, self.strip, *item) {
            self.lines.append(page, item)
        } else {
            Ok(())
        }
    }
}

/// The gaps in a strip's rows, and how many calls they leave out.
#[derive(Clone, Copy)]
struct GapsIn<'a> {
    alloc: Global,
    scene: &'a Scene,
    strip: usize,
}

impl IndexedShape for GapsIn<'_> {
    type Item = Gap;

    ghost can_append = { λ own index. IsInOrder own.scene.now
        × (index < length own.scene.now.gaps.items) };

    ghost shape = { λ own. gap_in own.scene.now own.strip };

    fn append(&self, page: &mut Vec<u8>, index: usize, item: &Gap) -> Result<(), Memory> {
        let GapsIn {
            alloc,
            scene,
            strip,
        } = *self;
        if shows_row(strip, row_of_gap(scene, index, item.place)) {
            Gaps { scene }.append(page, index, item)?;
            Omissions { alloc, scene }.append(page, index, item)
        } else {
            Ok(())
        }
    }
}

/// The dots in a strip's rows.
#[derive(Clone, Copy)]
pub(crate) struct DotsIn<'a> {
    pub(crate) alloc: Global,
    pub(crate) scene: &'a Scene,
    pub(crate) strip: usize,
}

impl IndexedShape for DotsIn<'_> {
    type Item = Dot;

    ghost can_append = { λ own index. IsInOrder own.scene.now
        × (index < length own.scene.now.dots.items) };

    ghost shape = { λ own. dot_in own.scene.now own.strip };

    fn append(&self, page: &mut Vec<u8>, index: usize, item: &Dot) -> Result<(), Memory> {
        let DotsIn {
            alloc,
            scene,
            strip,
        } = *self;
        if shows_row(strip, row_of_dot(scene, index, item.place)) {
            Dots { alloc, scene }.append(page, index, item)
        } else {
            Ok(())
        }
    }
}

/// The row of the dot of that index.
fn dot_row(scene: &Scene, index: usize) -> usize
    requires { IsInOrder scene.now }
    ensures { result ≡ dot_row scene.now index }
{
    match scene.dots.get(index) {
        Some(dot) => row_of_dot(scene, index, dot.place),
        None => 0,
    }
}

/// Whether the line from the dot before that of this index to the one after it crosses the strip.
fn joins(scene: &Scene, strip: usize, index: usize) -> bool
    requires order { IsInOrder scene.now }
    requires index { index < length scene.now.dots.items }
    ensures { result ≡ joins scene.now strip index }
{
    let last = scene.dots.len() - 1;
    let before = dot_row(scene, index.saturating_sub(1));
    let after = dot_row(scene, (index + 1).min(last));
    shows_some(strip, before, Some(after))
}

/// Adds where the dot of that index stands, if that line crosses the strip.
fn add_corner_in(
    all: &mut Vec<u64>,
    scene: &Scene,
    strip: usize,
    index: usize,
    dot: &Dot,
) -> Result<(), Memory>
    requires order { IsInOrder scene.now }
    requires index { index < length scene.now.dots.items }
    ensures { OnOk result
        (all.new.items ≡ all.old.items ++ corner_in scene.now strip index dot.now) }
{
    if joins(scene, strip, index) {
        add_corner(all, scene, index, dot)
    } else {
        Ok(())
    }
}

/// Where the dots stand that are joined within the strip, along the order.
fn corners_in(alloc: Global, scene: &Scene, strip: usize) -> Result<Vec<u64>, Memory>
    requires { IsInOrder scene.now }
    ensures { IfOk result
        (λ all. all.items ≡ corners_in scene.now strip 0 scene.now.dots.items) }
{
    let mut all = Vec::new(alloc);
    for (index, dot) in scene.dots.iter().enumerate() {
        add_corner_in(&mut all, scene, strip, index, dot)?;
    }
    Ok(all)
}

/// Adds the part of the line along the order that crosses the strip.
pub(crate) fn append_path_in(
    alloc: Global,
    page: &mut Vec<u8>,
    scene: &Scene,
    strip: usize,
) -> Result<(), Memory>
    requires { IsInOrder scene.now }
    ensures { OnOk result (page.new.items ≡ page.old.items ++ rendered (path_in scene.now strip)) }
{
    let all = corners_in(alloc, scene, strip)?;
    append_polyline(page, PATH, &all)
}

/// Adds what bars stand on in the strip.
pub(crate) fn append_ground_in(
    alloc: Global,
    page: &mut Vec<u8>,
    scene: &Scene,
    strip: usize,
    hall: &HallRows<'_>,
) -> Result<(), Memory>
    requires { IsInOrder scene.now }
    ensures { OnOk result
        (page.new.items ≡ page.old.items ++ rendered (ground_in scene.now strip hall.now)) }
{
    append_each_indexed(page, &Guides { scene }, &scene.columns)?;
    append_ticks(alloc, page, scene, strip)?;
    let gaps = GapsIn {
        alloc,
        scene,
        strip,
    };
    append_each_indexed(page, &gaps, &scene.gaps)?;
    let lines = Lines { alloc, scene, hall };
    append_each(page, &LinesIn { lines, strip }, &scene.ticks)
}
