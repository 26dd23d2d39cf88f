//! Where a picture shows what, in pixels.
ghost use Rattle.std.specs.Prelude.{◌≡◌, ◌<◌, ◌≤◌, length, map};
ghost use Rattle.std.specs.List.Sorted.{IsNonDecreasing, IsStrictlyIncreasing};
ghost use Rattle.labels.specs.Places.{IsNear};
ghost use Rattle.pictures.specs.Layout.{IsInOrder, across, column_of, column_width, dots_before};
ghost use Rattle.pictures.specs.Layout.{dots_up_to, down, gaps_up_to, is_shared, room_of, row_of_dot};
ghost use Rattle.pictures.specs.Layout.{row_of_gap, row_of_place, rows_of, rows_up_to, ticks_before};
ghost use Rattle.pictures.specs.Layout.{ticks_up_to};

use crate::sizes::{COLUMNS, LETTER, MARGINS, NARROWEST, ROW, WIDEST};
use labels::pixels;
use scenes::{Dot, Gap, Scene};

/// So far down in that row, from its first one.
pub(crate) fn down(start: u64, row: usize) -> u64
    ensures down { result ≡ down start row }
    ensures near { IsNear result }
{
    pixels(start, row, ROW)
}

/// The width of a column.
pub(crate) fn column_width(scene: &Scene) -> u64
    ensures { result ≡ column_width scene.now }
{
    let columns = scene.columns.len().max(1) as u64;
    (COLUMNS / columns).min(WIDEST).max(NARROWEST)
}

/// So far right in that column, from the first one.
pub(crate) fn across(scene: &Scene, start: u64, column: usize) -> u64
    ensures across { result ≡ across scene.now start column }
    ensures near { IsNear result }
{
    pixels(start, column, column_width(scene))
}

/// The column of that lane; the first if there is none.
pub(crate) fn column_of(scene: &Scene, lane: usize) -> usize
    ensures { result ≡ column_of scene.now lane }
{
    match scene.lane_columns.get(lane) {
        Some(column) => *column,
        None => 0,
    }
}

/// Whether several lanes stand in that column.
pub(crate) fn is_shared(scene: &Scene, column: usize) -> bool
    ensures { result ≡ is_shared scene.now column }
{
    match scene.columns.get(column) {
        Some(column) => column.clients.len() > 1,
        None => false,
    }
}

/// How many letters a column holds.
pub(crate) fn room_of(scene: &Scene) -> u64
    ensures { result ≡ room_of scene.now }
{
    (column_width(scene) - MARGINS) / LETTER
}

/// How many of the ticks stand before the place.
fn ticks_before(ticks: &[usize], place: usize) -> usize
    requires { IsStrictlyIncreasing ticks.now }
    ensures count { result ≡ ticks_before ticks.now place }
    ensures bound { result ≤ length ticks.now }
{
    ticks.partition_point(|tick| *tick < place)
}

/// How many of the ticks don't stand after the place.
fn ticks_up_to(ticks: &[usize], place: usize) -> usize
    requires { IsStrictlyIncreasing ticks.now }
    ensures count { result ≡ ticks_up_to ticks.now place }
    ensures bound { result ≤ length ticks.now }
{
    ticks.partition_point(|tick| *tick <= place)
}

/// How many of the dots stand before the place.
fn dots_before(dots: &[Dot], place: usize) -> usize
    requires { IsNonDecreasing (map (λ dot. dot.place) dots.now) }
    ensures count { result ≡ dots_before dots.now place }
    ensures bound { result ≤ length dots.now }
{
    dots.partition_point(|dot| dot.place < place)
}

/// How many of the dots don't stand after the place.
fn dots_up_to(dots: &[Dot], place: usize) -> usize
    requires { IsNonDecreasing (map (λ dot. dot.place) dots.now) }
    ensures count { result ≡ dots_up_to dots.now place }
    ensures bound { result ≤ length dots.now }
{
    dots.partition_point(|dot| dot.place <= place)
}

/// How many of the gaps don't begin after the place.
fn gaps_up_to(gaps: &[Gap], place: usize) -> usize
    requires { IsStrictlyIncreasing (map (λ gap. gap.place) gaps.now) }
    ensures count { result ≡ gaps_up_to gaps.now place }
    ensures bound { result ≤ length gaps.now }
{
    gaps.partition_point(|gap| gap.place <= place)
}

/// The row of that place.
pub(crate) fn row_of_place(scene: &Scene, place: usize) -> usize
    requires { IsInOrder scene.now }
    ensures { result ≡ row_of_place scene.now place }
{
    ticks_before(&scene.ticks, place)
        + dots_before(&scene.dots, place)
        + gaps_up_to(&scene.gaps, place)
}

/// How many rows there are up to that place.
pub(crate) fn rows_up_to(scene: &Scene, place: usize) -> usize
    requires { IsInOrder scene.now }
    ensures { result ≡ rows_up_to scene.now place }
{
    ticks_up_to(&scene.ticks, place)
        + dots_up_to(&scene.dots, place)
        + gaps_up_to(&scene.gaps, place)
}

/// The row of the dot of that index, at its place.
pub(crate) fn row_of_dot(scene: &Scene, index: usize, place: usize) -> usize
    requires order { IsInOrder scene.now }
    requires index { index < length scene.now.dots.items }
    ensures { result ≡ row_of_dot scene.now index place }
{
    ticks_up_to(&scene.ticks, place) + index + gaps_up_to(&scene.gaps, place)
}

/// The row of the gap of that index, at its place.
pub(crate) fn row_of_gap(scene: &Scene, index: usize, place: usize) -> usize
    requires order { IsInOrder scene.now }
    requires index { index < length scene.now.gaps.items }
    ensures { result ≡ row_of_gap scene.now index place }
{
    ticks_before(&scene.ticks, place) + dots_before(&scene.dots, place) + index
}

/// How many rows there are.
pub(crate) fn rows_of(scene: &Scene) -> usize
    ensures { result ≡ rows_of scene.now }
{
    scene.ticks.as_slice().len() + scene.dots.as_slice().len() + scene.gaps.as_slice().len()
}
