//! The line that joins the dots along the order.
ghost use Rattle.std.specs.Prelude.{◌≡◌, ◌<◌, ◌++◌, length, IfOk, OnOk};
ghost use Rattle.markup.specs.Markup.{rendered};
ghost use Rattle.pictures.specs.Layout.{IsInOrder};
ghost use Rattle.pictures.specs.Dots.{corner, corners, path_markup};

use crate::dots::dot_column;
use crate::layout::{across, down, row_of_dot};
use crate::sizes::{DOT_LEFT, MIDDLE};
use crate::style::PATH;
use labels::append_polyline;
use scenes::{Dot, Scene};
use std::alloc::Global;
use tag::Memory;

/// Adds where the dot of that index stands, in tenths of a pixel.
pub(crate) fn add_corner(
    all: &mut Vec<u64>,
    scene: &Scene,
    index: usize,
    dot: &Dot,
) -> Result<(), Memory>
    requires order { IsInOrder scene.now }
    requires index { index < length scene.now.dots.items }
    ensures { OnOk result (all.new.items ≡ all.old.items ++ corner scene.now index dot.now) }
{
    let row = row_of_dot(scene, index, dot.place);
    all.push(across(scene, DOT_LEFT, dot_column(scene, dot)) * 10)?;
    all.push(down(MIDDLE, row) * 10)?;
    Ok(())
}

/// Where the dots stand, along the order.
fn corners_of(alloc: Global, scene: &Scene) -> Result<Vec<u64>, Memory>
    requires { IsInOrder scene.now }
    ensures { IfOk result (λ all. all.items ≡ corners scene.now 0 scene.now.dots.items) }
{
    let mut all = Vec::new(alloc);
    for (index, dot) in scene.dots.iter().enumerate() {
        add_corner(&mut all, scene, index, dot)?;
    }
    Ok(all)
}

/// Adds the line that joins the dots.
pub(crate) fn append_path(alloc: Global, page: &mut Vec<u8>, scene: &Scene) -> Result<(), Memory>
    requires { IsInOrder scene.now }
    ensures { OnOk result (page.new.items ≡ page.old.items ++ rendered (path_markup scene.now)) }
{
    let all = corners_of(alloc, scene)?;
    append_polyline(page, PATH, &all)
}
