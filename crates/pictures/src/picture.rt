//! The picture of calls.
ghost use Rattle.std.specs.Prelude.{◌≡◌, ◌++◌, OnOk, option_map};
ghost use Rattle.markup.specs.Markup.{opening_tag, rendered};
ghost use Rattle.markup.specs.declared.names.Element.TheVariants as tag;
ghost use Rattle.pictures.specs.Layout.{IsInOrder};
ghost use Rattle.pictures.specs.Bars.{call_of, class_of, is_faulty, own_key, place_of};
ghost use Rattle.pictures.specs.Pictures.{below_strips, calls_markup, foot, ground, picture_markup};
ghost use Rattle.pictures.specs.Pictures.{svg, svg_attributes};

use crate::arrows::{append_arrow, end_of};
use crate::bars::Bars;
use crate::boxes::{append_named, open_box};
use crate::dots::Dots;
use crate::ground::{Gaps, Guides, Ticks};
use crate::keys::CallKeys;
use crate::layout::{down, rows_of};
use crate::paper::append_paper;
use crate::path::append_path;
use crate::sizes::{BOTTOM, FOOT_BASE, LONG};
use crate::strips::{Names, append_lines, append_names};
use crate::style::{FAULTY_READ, FAULTY_WRITE, PICTURE, READ, TITLE, WRITE};
use certificate_check::find_call;
use explanations::HallRows;
use labels::{append_each, append_each_indexed, open_image};
use markup::{Element, append_closing};
use recorder::{Call, Part};
use scenes::{Arrow, Scene};
use std::alloc::Global;
use tag::{Key, Memory, OpId};

/// What a picture shows: calls, as a scene of them has them.
#[derive(Clone, Copy)]
pub struct Picture<'a> {
    pub keys: CallKeys<'a>,
    /// The rows of the calls' hall, and the line of each.
    pub hall: HallRows<'a>,
    /// The calls.
    pub part: &'a Part<'a>,
    pub scene: &'a Scene,
    /// The calls that show why a key is refused.
    pub faulty: &'a [OpId],
    /// What the ids of bars begin with; a call's number follows.
    pub ids: &'a str,
    /// Beside each bar the place of its call in an order that is refused, if it has one; of a key that
    /// has no such order nothing.
    pub places: &'a [Option<usize>],
    /// The arrow from a call to one that a refused order lists before it though it began after that one
    /// had ended, if the order is refused for that.
    pub before: Option<Arrow>,
}

impl<'a> Picture<'a> {
    /// Whether the call shows why a key is refused.
    pub(crate) fn is_faulty(&self, op: OpId) -> bool
        ensures { result ≡ is_faulty self.now op }
    {
        self.faulty.iter().any(|other| other.0 == op.0)
    }

    /// The place in a refused order of the call of the bar of that index, if there is one.
    pub(crate) fn place_of(&self, index: usize) -> Option<usize>
        ensures { result ≡ place_of self.now index }
    {
        match self.places.get(index) {
            Some(place) => *place,
            None => None,
        }
    }

    /// The class of what is drawn of the call.
    pub(crate) fn class_of(&self, call: &Call<'_>) -> &'static str
        ensures { result.now ≡ class_of call.now.action (is_faulty self.now call.now.op) }
    {
        let is_faulty = self.is_faulty(call.op);
        match call.action.written() {
            None => if is_faulty { FAULTY_READ } else { READ },
            Some(_) => if is_faulty { FAULTY_WRITE } else { WRITE },
        }
    }

    /// The key that the call is on.
    pub(crate) fn key_of(&self, call: &Call<'_>) -> Option<&'a Key>
        ensures { option_map (λ key. key.now) result ≡ own_key self.now call.now }
    {
        self.keys.key_of(self.hall.history, call)
    }

    /// The call of that number, if the part has it.
    pub(crate) fn call_of(&self, op: OpId) -> Option<Call<'a>>
        ensures { result ≡ call_of self.now.part.now op }
    {
        let _sequence = self.part.len();
        match find_call(self.part, op) {
            Some(index) => Some(self.part.call(index)),
            None => None,
        }
    }
}

/// Adds the names of the clients below the rows, if the picture is long.
fn append_foot(alloc: Global, page: &mut Vec<u8>, scene: &Scene) -> Result<(), Memory>
    ensures { OnOk result (page.new.items ≡ page.old.items ++ rendered (foot scene.now)) }
{
    let rows = rows_of(scene);
    if rows > LONG {
        let y = down(FOOT_BASE, rows);
        append_each_indexed(page, &Names { alloc, scene, y }, &scene.columns)
    } else {
        Ok(())
    }
}

/// Adds the lines of the columns, the ticks and the gaps, and below them, if they are many, the names.
fn append_ground(alloc: Global, page: &mut Vec<u8>, scene: &Scene) -> Result<(), Memory>
    requires { IsInOrder scene.now }
    ensures { OnOk result (page.new.items ≡ page.old.items ++ rendered (ground scene.now)) }
{
    append_foot(alloc, page, scene)?;
    append_each_indexed(page, &Guides { scene }, &scene.columns)?;
    append_each(page, &Ticks { scene }, &scene.ticks)?;
    append_each_indexed(page, &Gaps { scene }, &scene.gaps)
}

/// Adds the line that joins the dots, the bars above it, and the dots and the arrow above these.
fn append_calls(alloc: Global, page: &mut Vec<u8>, picture: &Picture<'_>) -> Result<(), Memory>
    requires { IsInOrder picture.now.scene.now }
    ensures { OnOk result
        (page.new.items ≡ page.old.items ++ rendered (calls_markup picture.now)) }
{
    let scene = picture.scene;
    append_path(alloc, page, scene)?;
    append_each_indexed(page, &Bars { alloc, picture }, &scene.bars)?;
    append_each_indexed(page, &Dots { alloc, scene }, &scene.dots)?;
    append_arrow(alloc, page, scene, picture.before)
}

/// Opens the picture's element.
fn open_svg(page: &mut Vec<u8>, scene: &Scene, arrow: Option<Arrow>) -> Result<(), Memory>
    ensures { OnOk result (page.new.items
        ≡ page.old.items ++ opening_tag tag.Svg (svg_attributes scene.now arrow)) }
{
    open_image(page, end_of(scene, arrow), down(BOTTOM, rows_of(scene)))
}

/// Adds the picture's element: its title, the ground, and the calls.
fn append_svg(alloc: Global, page: &mut Vec<u8>, picture: &Picture<'_>) -> Result<(), Memory>
    requires { IsInOrder picture.now.scene.now }
    ensures { OnOk result (page.new.items ≡ page.old.items ++ rendered (svg picture.now)) }
{
    open_svg(page, picture.scene, picture.before)?;
    append_named(page, Element::Title, picture.keys)?;
    append_ground(alloc, page, picture.scene)?;
    append_calls(alloc, page, picture)?;
    append_closing(page, Element::Svg)
}

/// Adds the strips that stay in sight, and below them the picture's element.
fn append_below_strips(
    alloc: Global,
    page: &mut Vec<u8>,
    picture: &Picture<'_>,
) -> Result<(), Memory>
    requires { IsInOrder picture.now.scene.now }
    ensures { OnOk result
        (page.new.items ≡ page.old.items ++ rendered (below_strips picture.now)) }
{
    append_names(alloc, page, picture.scene)?;
    append_lines(alloc, page, picture.scene, &picture.hall)?;
    append_svg(alloc, page, picture)
}

/// Adds the picture: each bar with its call's sentence as its title, each dot, each tick, and a mark
/// where calls are left out. It lies in a box of its own that scrolls, in which the clients' names and
/// the lines stay in sight; the box has a name and can have the focus. On paper stand strips of its rows,
/// unless it is short, or too large for that.
///
/// If it fails, a beginning of that may have been added; so it is with each function here.
pub fn append_picture(
    alloc: Global,
    page: &mut Vec<u8>,
    picture: &Picture<'_>,
) -> Result<(), Memory>
    requires { IsInOrder picture.now.scene.now }
    ensures { OnOk result
        (page.new.items ≡ page.old.items ++ rendered (picture_markup picture.now)) }
{
    open_box(alloc, page, PICTURE, TITLE, picture.keys)?;
    append_paper(alloc, page, picture)?;
    append_below_strips(alloc, page, picture)?;
    append_closing(page, Element::Div)
}
