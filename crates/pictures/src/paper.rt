//! A picture on paper: strips of rows, each with the clients' names above it.
ghost use Rattle.std.specs.Prelude.{◌≡◌, ◌<◌, ◌++◌, OnOk};
ghost use Rattle.markup.specs.Markup.{opening_tag, rendered};
ghost use Rattle.markup.specs.declared.names.Element.TheVariants as tag;
ghost use Rattle.labels.specs.Strips.{strips_of};
ghost use Rattle.pictures.specs.Bars.{is_faulty, place_of};
ghost use Rattle.pictures.specs.Cuts.{cut_rows};
ghost use Rattle.pictures.specs.Keys.{said_key};
ghost use Rattle.pictures.specs.Layout.{IsInOrder};
ghost use Rattle.pictures.specs.Paper.{bar_in, call_in, calls_in, end_row, names_view, paper};
ghost use Rattle.pictures.specs.Paper.{paper_strip, paper_strips, rows_attributes, rows_view};
ghost use Rattle.pictures.specs.Paper.{shows_bar};

use crate::arrows::{append_arrow, end_of};
use crate::cuts::{cut_rows, is_cut};
use crate::frames::{append_shape, corner_of};
use crate::layout::{row_of_place, rows_up_to};
use crate::marks::{DotsIn, append_ground_in, append_path_in};
use crate::picture::Picture;
use crate::sizes::{NAMES_BASE, ROW_TOP};
use crate::strips::Names;
use crate::style::{PAPER, PAPER_STRIP};
use crate::texts::BarTexts;
use labels::{IndexedShape, append_each_indexed, open_view, shows_some};
use markup::{Element, append_closing, open_of_class};
use recorder::Call;
use scenes::{Bar, Scene};
use std::alloc::Global;
use tag::{Key, Memory};

/// A strip of a picture's rows.
#[derive(Clone, Copy)]
struct Strip<'a> {
    alloc: Global,
    picture: &'a Picture<'a>,
    strip: usize,
}

/// The row in which a bar with that response, or else with that end, ends; without one it goes to
/// the bottom.
fn end_row(scene: &Scene, answered: Option<usize>, ends: Option<usize>) -> Option<usize>
    requires { IsInOrder scene.now }
    ensures { result ≡ end_row scene.now answered ends }
{
    match (answered, ends) {
        (Some(place), _) => Some(row_of_place(scene, place)),
        (None, Some(end)) => Some(rows_up_to(scene, end).saturating_sub(1)),
        (None, None) => None,
    }
}

/// Whether the strip shows some of the bar.
fn shows_bar(scene: &Scene, strip: usize, bar: &Bar) -> bool
    requires { IsInOrder scene.now }
    ensures { result ≡ shows_bar scene.now strip bar.now }
{
    let begins = row_of_place(scene, bar.begins);
    shows_some(strip, begins, end_row(scene, bar.answered, bar.ends))
}

impl Strip<'_> {
    /// Adds the shape of the call's bar, and the texts of it that stand in the strip's rows.
    fn append_call(
        &self,
        page: &mut Vec<u8>,
        index: usize,
        bar: &Bar,
        call: &Call<'_>,
        key: &Key,
    ) -> Result<(), Memory>
        requires { IsInOrder self.now.picture.now.scene.now }
        ensures { OnOk result (page.new.items ≡ page.old.items ++ rendered
            (call_in self.now.picture.now self.now.strip index bar.now call.now key.now)) }
    {
        let picture = self.picture;
        open_of_class(page, Element::G, picture.class_of(call))?;
        append_shape(page, picture.scene, bar, corner_of(&call.action))?;
        let texts = BarTexts {
            alloc: self.alloc,
            scene: picture.scene,
            name: picture.keys.said_key(key),
        };
        let faulty = picture.is_faulty(call.op);
        let place = picture.place_of(index);
        texts.append_in_strip(page, self.strip, bar, faulty, place, call)?;
        append_closing(page, Element::G)
    }
}

/// The bars of which a strip shows some.
#[derive(Clone, Copy)]
struct BarsIn<'a>(Strip<'a>);

impl IndexedShape for BarsIn<'_> {
    type Item = Bar;

    ghost can_append = { λ own index. IsInOrder own.0.picture.now.scene.now };

    ghost shape = { λ own. bar_in own.0.picture.now own.0.strip };

    fn append(&self, page: &mut Vec<u8>, index: usize, item: &Bar) -> Result<(), Memory> {
        let picture = self.0.picture;
        if !shows_bar(picture.scene, self.0.strip, item) {
            return Ok(());
        }
        let Some(call) = picture.call_of(item.call) else {
            return Ok(());
        };
        let Some(key) = picture.key_of(&call) else {
            return Ok(());
        };
        self.0.append_call(page, index, item, &call, key)
    }
}

impl Strip<'_> {
    /// Adds what it shows of the calls.
    fn append_calls(&self, page: &mut Vec<u8>) -> Result<(), Memory>
        requires { IsInOrder self.now.picture.now.scene.now }
        ensures { OnOk result (page.new.items
            ≡ page.old.items ++ rendered (calls_in self.now.picture.now self.now.strip)) }
    {
        let Strip {
            alloc,
            picture,
            strip,
        } = *self;
        let scene = picture.scene;
        append_path_in(alloc, page, scene, strip)?;
        append_each_indexed(page, &BarsIn(*self), &scene.bars)?;
        let dots = DotsIn {
            alloc,
            scene,
            strip,
        };
        append_each_indexed(page, &dots, &scene.dots)?;
        append_arrow(alloc, page, scene, picture.before)
    }

    /// Opens the view of its rows.
    fn open_rows(&self, page: &mut Vec<u8>) -> Result<(), Memory>
        requires { self.now.strip < strips_of (cut_rows self.now.picture.now.scene.now) }
        ensures { OnOk result (page.new.items ≡ page.old.items
            ++ opening_tag tag.Svg (rows_attributes self.now.picture.now self.now.strip)) }
    {
        let scene = self.picture.scene;
        let rows = cut_rows(scene);
        let (top, bottom) = (rows.top(self.strip), rows.bottom(self.strip));
        let width = end_of(scene, self.picture.before);
        open_view(page, width, top, bottom.saturating_sub(top))
    }

    /// Adds its rows.
    fn append_rows(&self, page: &mut Vec<u8>) -> Result<(), Memory>
        requires order { IsInOrder self.now.picture.now.scene.now }
        requires there { self.now.strip < strips_of (cut_rows self.now.picture.now.scene.now) }
        ensures { OnOk result (page.new.items
            ≡ page.old.items ++ rendered (rows_view self.now.picture.now self.now.strip)) }
    {
        let Picture { scene, hall, .. } = self.picture;
        self.open_rows(page)?;
        append_ground_in(self.alloc, page, scene, self.strip, hall)?;
        self.append_calls(page)?;
        append_closing(page, Element::Svg)
    }

    /// Adds the names of the clients above its rows.
    fn append_names(&self, page: &mut Vec<u8>) -> Result<(), Memory>
        ensures { OnOk result
            (page.new.items ≡ page.old.items ++ rendered (names_view self.now.picture.now)) }
    {
        let (alloc, scene, y) = (self.alloc, self.picture.scene, NAMES_BASE);
        open_view(page, end_of(scene, self.picture.before), 0, ROW_TOP)?;
        append_each_indexed(page, &Names { alloc, scene, y }, &scene.columns)?;
        append_closing(page, Element::Svg)
    }
}

/// Adds the strip of that number.
fn append_strip(
    alloc: Global,
    page: &mut Vec<u8>,
    picture: &Picture<'_>,
    strip: usize,
) -> Result<(), Memory>
    requires order { IsInOrder picture.now.scene.now }
    requires there { strip < strips_of (cut_rows picture.now.scene.now) }
    ensures { OnOk result
        (page.new.items ≡ page.old.items ++ rendered (paper_strip picture.now strip)) }
{
    let own = Strip {
        alloc,
        picture,
        strip,
    };
    open_of_class(page, Element::Div, PAPER_STRIP)?;
    own.append_names(page)?;
    own.append_rows(page)?;
    append_closing(page, Element::Div)
}

/// Adds each strip.
fn append_strips(alloc: Global, page: &mut Vec<u8>, picture: &Picture<'_>) -> Result<(), Memory>
    requires { IsInOrder picture.now.scene.now }
    ensures { OnOk result
        (page.new.items ≡ page.old.items ++ rendered (paper_strips picture.now)) }
{
    for strip in 0..cut_rows(picture.scene).strips() {
        append_strip(alloc, page, picture, strip)?;
    }
    Ok(())
}

/// Adds what there is of the picture on paper alone: its strips, if it is cut.
pub(crate) fn append_paper(
    alloc: Global,
    page: &mut Vec<u8>,
    picture: &Picture<'_>,
) -> Result<(), Memory>
    requires { IsInOrder picture.now.scene.now }
    ensures { OnOk result (page.new.items ≡ page.old.items ++ rendered (paper picture.now)) }
{
    if !is_cut(picture.scene) {
        return Ok(());
    }
    open_of_class(page, Element::Div, PAPER)?;
    append_strips(alloc, page, picture)?;
    append_closing(page, Element::Div)
}
