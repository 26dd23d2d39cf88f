//! The strips of a diagram on paper: each has the names above its lifelines, and what is seen in its
//! rows.
ghost use Rattle.std.specs.Prelude.{◌≡◌, ◌<◌, ◌++◌, OnOk};
ghost use Rattle.markup.specs.Markup.{opening_tag, rendered};
ghost use Rattle.markup.specs.declared.names.Element.TheVariants as tag;
ghost use Rattle.labels.specs.Each.{each_below};
ghost use Rattle.labels.specs.Strips.{strips_of};
ghost use Rattle.diagram_places.specs.Layout.{HasClientsInOrder};
ghost use Rattle.diagram_places.specs.Strips.{cut_rows};
ghost use Rattle.diagrams.specs.Strips.{above_in, arrow_in, bar_in, below_in, call_texts_in};
ghost use Rattle.diagrams.specs.Strips.{columns_of, down_in, hearing_in, holding_in, names_view};
ghost use Rattle.diagrams.specs.Strips.{inside_strip, reason_in, row_in, rows_view, rows_view_attributes};
ghost use Rattle.diagrams.specs.Strips.{strip_attributes, strip_markup, strips};

use crate::arrows::append_arrow_shape;
use crate::bars::append_bar_shape;
use crate::hearings::Hearings;
use crate::lifelines::append_lifelines;
use crate::replicas::{Downs, Holdings};
use crate::rows::{Reasons, Rows};
use crate::style::{STRIP_COLUMNS, STRIPS};
use crate::texts::CallTexts;
use diagram_places::sizes::{MOST_COLUMNS, TOP};
use diagram_places::{cut_rows, last_row_of_arrow, last_row_of_call, replicas_of, width_of};
use labels::{
    IndexedShape, Shape, append_each, append_each_indexed, open_view, shows_row, shows_some,
};
use markup::{Attribute, AttributeName, Element, append_closing, append_opening, open_of_class};
use message_scenes::{Arrow, CallBar, DownTime, Hearing, Holding, MessageScene, StepRow};
use std::alloc::Global;
use tag::Memory;

/// A strip of a scene's rows.
#[derive(Clone, Copy)]
struct Strip<'a> {
    alloc: Global,
    scene: &'a MessageScene,
    strip: usize,
}

/// The rows that a strip shows.
#[derive(Clone, Copy)]
struct StripRows<'a>(Strip<'a>);

impl IndexedShape for StripRows<'_> {
    type Item = StepRow;

    ghost can_append = { λ own index. Unit {0} };

    ghost shape = { λ own. row_in own.0.scene.now own.0.strip };

    fn append(&self, page: &mut Vec<u8>, index: usize, item: &StepRow) -> Result<(), Memory> {
        let Strip {
            alloc,
            scene,
            strip,
        } = self.0;
        if shows_row(strip, index) {
            Rows { alloc, scene }.append(page, index, item)
        } else {
            Ok(())
        }
    }
}

/// Why rows that a strip shows have nothing to show.
#[derive(Clone, Copy)]
struct StripReasons<'a>(Strip<'a>);

impl IndexedShape for StripReasons<'_> {
    type Item = StepRow;

    ghost can_append = { λ own index. Unit {0} };

    ghost shape = { λ own. reason_in own.0.scene.now own.0.strip };

    fn append(&self, page: &mut Vec<u8>, index: usize, item: &StepRow) -> Result<(), Memory> {
        let Strip { alloc, strip, .. } = self.0;
        if shows_row(strip, index) {
            Reasons { alloc }.append(page, index, item)
        } else {
            Ok(())
        }
    }
}

/// The down times of which a strip shows some.
#[derive(Clone, Copy)]
struct StripDowns<'a>(Strip<'a>);

impl Shape for StripDowns<'_> {
    type Item = DownTime;

    ghost can_append = { λ own. Unit {0} };

    ghost shape = { λ own. down_in own.0.scene.now own.0.strip };

    fn append(&self, page: &mut Vec<u8>, item: &DownTime) -> Result<(), Memory> {
        let Strip {
            alloc,
            scene,
            strip,
        } = self.0;
        if shows_some(strip, item.stops, item.starts) {
            Downs { alloc, scene }.append(page, item)
        } else {
            Ok(())
        }
    }
}

/// The bars of which it shows some.
#[derive(Clone, Copy)]
struct StripBars<'a>(Strip<'a>);

impl Shape for StripBars<'_> {
    type Item = CallBar;

    ghost can_append = { λ own. HasClientsInOrder own.0.scene.now };

    ghost shape = { λ own. bar_in own.0.scene.now own.0.strip };

    fn append(&self, page: &mut Vec<u8>, item: &CallBar) -> Result<(), Memory> {
        let Strip { scene, strip, .. } = self.0;
        if shows_some(strip, item.begins, last_row_of_call(&item.end)) {
            append_bar_shape(page, scene, item)
        } else {
            Ok(())
        }
    }
}

/// Their texts.
#[derive(Clone, Copy)]
struct StripTexts<'a>(Strip<'a>);

impl Shape for StripTexts<'_> {
    type Item = CallBar;

    ghost can_append = { λ own. HasClientsInOrder own.0.scene.now };

    ghost shape = { λ own. call_texts_in own.0.scene.now own.0.strip };

    fn append(&self, page: &mut Vec<u8>, item: &CallBar) -> Result<(), Memory> {
        let Strip {
            alloc,
            scene,
            strip,
        } = self.0;
        if shows_some(strip, item.begins, last_row_of_call(&item.end)) {
            CallTexts { alloc, scene }.append(page, item)
        } else {
            Ok(())
        }
    }
}

/// The arrows of which it shows some.
#[derive(Clone, Copy)]
struct StripArrows<'a>(Strip<'a>);

impl Shape for StripArrows<'_> {
    type Item = Arrow;

    ghost can_append = { λ own. HasClientsInOrder own.0.scene.now };

    ghost shape = { λ own. arrow_in own.0.scene.now own.0.strip };

    fn append(&self, page: &mut Vec<u8>, item: &Arrow) -> Result<(), Memory> {
        let Strip {
            alloc,
            scene,
            strip,
        } = self.0;
        if shows_some(
            strip,
            item.begins,
            Some(last_row_of_arrow(item.begins, item.end)),
        ) {
            append_arrow_shape(alloc, page, scene, item)
        } else {
            Ok(())
        }
    }
}

/// What it says of replies.
#[derive(Clone, Copy)]
struct StripHearings<'a>(Strip<'a>);

impl Shape for StripHearings<'_> {
    type Item = Hearing;

    ghost can_append = { λ own. HasClientsInOrder own.0.scene.now };

    ghost shape = { λ own. hearing_in own.0.scene.now own.0.strip };

    fn append(&self, page: &mut Vec<u8>, item: &Hearing) -> Result<(), Memory> {
        let Strip {
            alloc,
            scene,
            strip,
        } = self.0;
        if shows_row(strip, item.row) {
            let texts = CallTexts { alloc, scene };
            Hearings { texts }.append(page, item)
        } else {
            Ok(())
        }
    }
}

/// What it says of puts.
#[derive(Clone, Copy)]
struct StripHoldings<'a>(Strip<'a>);

impl Shape for StripHoldings<'_> {
    type Item = Holding;

    ghost can_append = { λ own. Unit {0} };

    ghost shape = { λ own. holding_in own.0.scene.now own.0.strip };

    fn append(&self, page: &mut Vec<u8>, item: &Holding) -> Result<(), Memory> {
        let Strip {
            alloc,
            scene,
            strip,
        } = self.0;
        if shows_row(strip, item.row) {
            Holdings { alloc, scene }.append(page, item)
        } else {
            Ok(())
        }
    }
}

/// How many columns there are.
fn columns_of(scene: &MessageScene) -> usize
    ensures { result ≡ columns_of scene.now }
{
    scene.clients.len() + usize::from(replicas_of(scene))
}

/// Opens a strip.
fn open_strip(page: &mut Vec<u8>, scene: &MessageScene) -> Result<(), Memory>
    ensures { OnOk result (page.new.items
        ≡ page.old.items ++ opening_tag tag.Div (strip_attributes scene.now)) }
{
    let columns = columns_of(scene) as u64;
    let class = Attribute::Numbered(AttributeName::Class, STRIP_COLUMNS, columns);
    append_opening(page, Element::Div, &[class])
}

/// Adds the names above the lifelines.
fn append_names(alloc: Global, page: &mut Vec<u8>, scene: &MessageScene) -> Result<(), Memory>
    requires { HasClientsInOrder scene.now }
    ensures { OnOk result (page.new.items ≡ page.old.items ++ rendered (names_view scene.now)) }
{
    open_view(page, width_of(scene), 0, TOP)?;
    append_lifelines(alloc, page, scene)?;
    append_closing(page, Element::Svg)
}

impl Strip<'_> {
    /// Adds what stands below the arrows.
    fn append_below(&self, page: &mut Vec<u8>) -> Result<(), Memory>
        requires { HasClientsInOrder self.now.scene.now }
        ensures { OnOk result (page.new.items
            ≡ page.old.items ++ rendered (below_in self.now.scene.now self.now.strip)) }
    {
        let Strip { alloc, scene, .. } = *self;
        append_each_indexed(page, &StripRows(*self), &scene.rows)?;
        append_lifelines(alloc, page, scene)?;
        append_each(page, &StripDowns(*self), &scene.downs)?;
        append_each(page, &StripBars(*self), &scene.calls)
    }

    /// Adds the arrows, and what stands above them.
    fn append_above(&self, page: &mut Vec<u8>) -> Result<(), Memory>
        requires { HasClientsInOrder self.now.scene.now }
        ensures { OnOk result (page.new.items
            ≡ page.old.items ++ rendered (above_in self.now.scene.now self.now.strip)) }
    {
        let scene = self.scene;
        append_each(page, &StripArrows(*self), &scene.arrows)?;
        append_each(page, &StripTexts(*self), &scene.calls)?;
        append_each(page, &StripHearings(*self), &scene.hearings)?;
        append_each(page, &StripHoldings(*self), &scene.holdings)?;
        append_each_indexed(page, &StripReasons(*self), &scene.rows)
    }

    /// Opens the view of its rows.
    fn open_rows(&self, page: &mut Vec<u8>) -> Result<(), Memory>
        requires { self.now.strip < strips_of (cut_rows self.now.scene.now) }
        ensures { OnOk result (page.new.items ≡ page.old.items
            ++ opening_tag tag.Svg (rows_view_attributes self.now.scene.now self.now.strip)) }
    {
        let Strip { scene, strip, .. } = *self;
        let rows = cut_rows(scene);
        let (top, bottom) = (rows.top(strip), rows.bottom(strip));
        open_view(page, width_of(scene), top, bottom.saturating_sub(top))
    }

    /// Adds its rows.
    fn append_rows(&self, page: &mut Vec<u8>) -> Result<(), Memory>
        requires order { HasClientsInOrder self.now.scene.now }
        requires there { self.now.strip < strips_of (cut_rows self.now.scene.now) }
        ensures { OnOk result (page.new.items
            ≡ page.old.items ++ rendered (rows_view self.now.scene.now self.now.strip)) }
    {
        self.open_rows(page)?;
        self.append_below(page)?;
        self.append_above(page)?;
        append_closing(page, Element::Svg)
    }

    /// Adds what stands in the strip.
    fn append_inside(&self, page: &mut Vec<u8>) -> Result<(), Memory>
        requires order { HasClientsInOrder self.now.scene.now }
        requires there { self.now.strip < strips_of (cut_rows self.now.scene.now) }
        ensures { OnOk result (page.new.items
            ≡ page.old.items ++ rendered (inside_strip self.now.scene.now self.now.strip)) }
    {
        append_names(self.alloc, page, self.scene)?;
        self.append_rows(page)
    }

    /// Adds the strip.
    fn append(&self, page: &mut Vec<u8>) -> Result<(), Memory>
        requires order { HasClientsInOrder self.now.scene.now }
        requires there { self.now.strip < strips_of (cut_rows self.now.scene.now) }
        ensures { OnOk result (page.new.items
            ≡ page.old.items ++ rendered (strip_markup self.now.scene.now self.now.strip)) }
    {
        open_strip(page, self.scene)?;
        self.append_inside(page)?;
        append_closing(page, Element::Div)
    }
}

/// Adds each strip.
fn append_each_strip(alloc: Global, page: &mut Vec<u8>, scene: &MessageScene) -> Result<(), Memory>
    requires { HasClientsInOrder scene.now }
    ensures { OnOk result (page.new.items ≡ page.old.items
        ++ rendered (each_below (strip_markup scene.now) (strips_of (cut_rows scene.now)))) }
{
    for strip in 0..cut_rows(scene).strips() {
        Strip {
            alloc,
            scene,
            strip,
        }
        .append(page)?;
    }
    Ok(())
}

/// Adds the strips, which are there on paper alone; none, if there are too many columns.
pub(crate) fn append_strips(
    alloc: Global,
    page: &mut Vec<u8>,
    scene: &MessageScene,
) -> Result<(), Memory>
    requires { HasClientsInOrder scene.now }
    ensures { OnOk result (page.new.items ≡ page.old.items ++ rendered (strips scene.now)) }
{
    if columns_of(scene) > MOST_COLUMNS {
        return Ok(());
    }
    open_of_class(page, Element::Div, STRIPS)?;
    append_each_strip(alloc, page, scene)?;
    append_closing(page, Element::Div)
}
