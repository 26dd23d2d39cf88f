//! What stays in sight while a picture scrolls: a strip with the clients' names, and one with lines.
ghost use Rattle.std.specs.Prelude.{◌≡◌, ◌<◌, ◌++◌, [], decimal, length, IfOk, OnOk};
ghost use Rattle.markup.specs.Markup.{opening_tag, rendered};
ghost use Rattle.markup.specs.declared.names.Element.TheVariants as tag;
ghost use Rattle.labels.specs.Places.{IsNear};
ghost use Rattle.pictures.specs.Layout.{IsInOrder};
ghost use Rattle.pictures.specs.Words.{fitted};
ghost use Rattle.pictures.specs.declared.style.TheConstants.{OF_CLIENTS};
ghost use Rattle.pictures.specs.Strips.{client_name, client_word, client_words, gap_name, gap_words};
ghost use Rattle.pictures.specs.Strips.{line_name, lines_strip, names_strip, numbers_after};
ghost use Rattle.pictures.specs.Strips.{strip_attributes, word_at};

use crate::ground::middle_of;
use crate::layout::{across, down, room_of, row_of_gap, row_of_place, rows_of};
use crate::sizes::{
    BOTTOM, COLUMN_LEFT, LINE_LETTERS, LINE_RIGHT, NAMES_BASE, RIGHT, ROW_TOP, TEXT_BASE,
};
use crate::style::{
    CLIENT, CLIENT_WORD, CLIENTS_WORD, COMMA, GAP_CALL, GAP_CALLS, GAP_SIGN, HIDDEN, LINE,
    LINE_WORD, LINES, NAMES, OF_CLIENTS, OMITTED,
};
use explanations::HallRows;
use labels::{
    IndexedShape, Shape, Spot, append_each, append_each_indexed, append_label, append_numbered,
};
use markup::{Attribute, AttributeName, Element, append_closing, append_opening};
use scenes::{Column, Gap, Scene};
use sentences::{append, append_number};
use std::alloc::Global;
use tag::{ClientId, Memory};

/// The names of the clients of a scene's columns, at that height.
#[derive(Clone, Copy)]
pub(crate) struct Names<'a> {
    pub(crate) alloc: Global,
    pub(crate) scene: &'a Scene,
    pub(crate) y: u64,
}

/// The lines of the history file at a scene's ticks.
#[derive(Clone, Copy)]
pub(crate) struct Lines<'a> {
    pub(crate) alloc: Global,
    pub(crate) scene: &'a Scene,
    pub(crate) hall: &'a HallRows<'a>,
}

/// How many calls the gaps of a scene leave out.
#[derive(Clone, Copy)]
pub(crate) struct Omissions<'a> {
    pub(crate) alloc: Global,
    pub(crate) scene: &'a Scene,
}

/// The word before the numbers of these clients.
fn client_word(clients: &[ClientId]) -> &'static str
    ensures { result.now ≡ client_word clients.now }
{
    if clients.len() == 1 {
        CLIENT_WORD
    } else {
        CLIENTS_WORD
    }
}

/// What stands before the number of that index: before the first the words, before others a comma.
fn word_at(words: &str, index: usize) -> &str
    ensures { result.now ≡ word_at words.now index }
{
    if index == 0 { words } else { COMMA }
}

/// Adds the number of the client of that index, after what stands before it.
fn say_client(
    words: &mut Vec<u8>,
    before: &str,
    index: usize,
    client: &ClientId,
) -> Result<(), Memory>
    ensures { OnOk result (words.new.items
        ≡ words.old.items ++ (word_at before.now index ++ decimal client.now)) }
{
    append_number(words, word_at(before, index), u64::from(client.get()))
}

/// The numbers of the clients, with commas between them, after those words.
fn numbers_after(alloc: Global, before: &str, clients: &[ClientId]) -> Result<Vec<u8>, Memory>
    ensures { IfOk result (λ words. words.items ≡ numbers_after before.now clients.now) }
{
    let mut words = Vec::new(alloc);
    for (index, client) in clients.iter().enumerate() {
        say_client(&mut words, before, index, client)?;
    }
    Ok(words)
}

/// The numbers of the clients alone, or, if there is no room for them, how many they are.
fn brief_words(alloc: Global, room: u64, clients: &[ClientId]) -> Result<Vec<u8>, Memory>
    ensures { IfOk result (λ words. words.items ≡ fitted room (numbers_after [] clients.now)
        (decimal (length clients.now) ++ OF_CLIENTS.now)) }
{
    let words = numbers_after(alloc, "", clients)?;
    if words.len() as u64 <= room {
        return Ok(words);
    }
    let mut count = Vec::new(alloc);
    append_number(&mut count, "", clients.len() as u64)?;
    append(&mut count, OF_CLIENTS)?;
    Ok(count)
}

/// What clients are called: by their numbers alone if there is no room for more, or else by how many
/// they are.
fn client_words(alloc: Global, scene: &Scene, clients: &[ClientId]) -> Result<Vec<u8>, Memory>
    ensures { IfOk result (λ words. words.items ≡ client_words scene.now clients.now) }
{
    let words = numbers_after(alloc, client_word(clients), clients)?;
    if words.len() as u64 <= room_of(scene) {
        return Ok(words);
    }
    brief_words(alloc, room_of(scene), clients)
}

impl IndexedShape for Names<'_> {
    type Item = Column;

    ghost can_append = { λ names index. Unit {0} };

    ghost shape = { λ names. client_name names.scene.now names.y };

    fn append(&self, page: &mut Vec<u8>, index: usize, item: &Column) -> Result<(), Memory> {
        let x = middle_of(self.scene, index);
        let spot = Spot::new(CLIENT, x, self.y, room_of(self.scene));
        let words = client_words(self.alloc, self.scene, &item.clients)?;
        append_label(self.alloc, page, &spot, &words)
    }
}

impl Shape for Lines<'_> {
    type Item = usize;

    ghost can_append = { λ lines. IsInOrder lines.scene.now };

    ghost shape = { λ lines. line_name lines.scene.now lines.hall.now };

    fn append(&self, page: &mut Vec<u8>, item: &usize) -> Result<(), Memory> {
        let y = down(TEXT_BASE, row_of_place(self.scene, *item));
        let spot = Spot::new(LINE, LINE_RIGHT, y, LINE_LETTERS);
        append_numbered(self.alloc, page, &spot, LINE_WORD, self.hall.line_at(*item))
    }
}

/// Adds how many calls are left out.
fn say_gap(words: &mut Vec<u8>, calls: usize) -> Result<(), Memory>
    ensures { OnOk result (words.new.items ≡ words.old.items ++ gap_words calls) }
{
    append_number(words, GAP_SIGN, calls as u64)?;
    if calls == 1 {
        append(words, GAP_CALL)
    } else {
        append(words, GAP_CALLS)
    }
}

impl IndexedShape for Omissions<'_> {
    type Item = Gap;

    ghost can_append = { λ omissions index. IsInOrder omissions.scene.now
        × (index < length omissions.scene.now.gaps.items) };

    ghost shape = { λ omissions. gap_name omissions.scene.now };

    fn append(&self, page: &mut Vec<u8>, index: usize, item: &Gap) -> Result<(), Memory> {
        let y = down(TEXT_BASE, row_of_gap(self.scene, index, item.place));
        let spot = Spot::new(OMITTED, LINE_RIGHT, y, LINE_LETTERS);
        let mut words = Vec::new(self.alloc);
        say_gap(&mut words, item.calls)?;
        append_label(self.alloc, page, &spot, &words)
    }
}

/// Opens a strip of that class that is so wide and so high.
fn open_strip(page: &mut Vec<u8>, class: &str, width: u64, height: u64) -> Result<(), Memory>
    requires width { IsNear width }
    requires height { IsNear height }
    ensures { OnOk result (page.new.items
        ≡ page.old.items ++ opening_tag tag.Svg (strip_attributes class.now width height)) }
{
    let attributes = [
        Attribute::Words(AttributeName::Class, class),
        Attribute::Words(AttributeName::AriaHidden, HIDDEN),
        Attribute::Number(AttributeName::Width, width),
        Attribute::Number(AttributeName::Height, height),
        Attribute::AllTenths(AttributeName::ViewBox, &[0, 0, width * 10, height * 10]),
    ];
    append_opening(page, Element::Svg, &attributes)
}

/// Adds the strip of the clients' names.
pub(crate) fn append_names(alloc: Global, page: &mut Vec<u8>, scene: &Scene) -> Result<(), Memory>
    ensures { OnOk result (page.new.items ≡ page.old.items ++ rendered (names_strip scene.now)) }
{
    let y = NAMES_BASE;
    open_strip(
        page,
        NAMES,
        across(scene, RIGHT, scene.columns.len()),
        ROW_TOP,
    )?;
    append_each_indexed(page, &Names { alloc, scene, y }, &scene.columns)?;
    append_closing(page, Element::Svg)
}

/// Adds the strip of the lines, and of how many calls are left out.
pub(crate) fn append_lines(
    alloc: Global,
    page: &mut Vec<u8>,
    scene: &Scene,
    hall: &HallRows<'_>,
) -> Result<(), Memory>
    requires { IsInOrder scene.now }
    ensures { OnOk result
        (page.new.items ≡ page.old.items ++ rendered (lines_strip scene.now hall.now)) }
{
    open_strip(page, LINES, COLUMN_LEFT, down(BOTTOM, rows_of(scene)))?;
    append_each(page, &Lines { alloc, scene, hall }, &scene.ticks)?;
    append_each_indexed(page, &Omissions { alloc, scene }, &scene.gaps)?;
    append_closing(page, Element::Svg)
}
