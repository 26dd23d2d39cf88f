//! Texts, lines and titles, each at its place.
ghost use Rattle.std.specs.Prelude.{◌≡◌, ◌++◌, OnOk};
ghost use Rattle.markup.specs.Markup.{rendered};
ghost use Rattle.sentences.specs.Words.{numbered};
ghost use Rattle.labels.specs.Cuts.{cut};
ghost use Rattle.labels.specs.Labels.{line_markup, polyline, title, words_at};
ghost use Rattle.labels.specs.Texts.{shown_words};

use crate::cuts::append_cut;
use crate::texts::{shown_words, text_of};
use markup::{
    Attribute, AttributeName, Element, append_closing, append_empty, append_opening, append_plain,
};
use sentences::append_number;
use std::alloc::Global;
use tag::Memory;

/// Where a text stands, in what class, and how many letters it may have.
#[derive(Clone, Copy)]
pub struct Spot {
    pub class: &'static str,
    pub x: u64,
    pub y: u64,
    pub room: u64,
}

impl Spot {
    /// The spot at that place, for a text of that class with so much room.
    pub fn new(class: &'static str, x: u64, y: u64, room: u64) -> Spot
        ensures class { result.class.now ≡ class.now }
        ensures x { result.x ≡ x }
        ensures y { result.y ≡ y }
        ensures room { result.room ≡ room }
    {
        Spot { class, x, y, room }
    }
}

/// From where to where a line goes.
#[derive(Clone, Copy)]
pub struct Way {
    pub x1: u64,
    pub y1: u64,
    pub x2: u64,
    pub y2: u64,
}

impl Way {
    /// From left to right, at that height.
    pub fn level(y: u64, x1: u64, x2: u64) -> Way
        ensures { result ≡ record { x1 = x1; y1 = y; x2 = x2; y2 = y } }
    {
        Way {
            x1,
            y1: y,
            x2,
            y2: y,
        }
    }

    /// Straight down, so far right.
    pub fn upright(x: u64, y1: u64, y2: u64) -> Way
        ensures { result ≡ record { x1 = x; y1 = y1; x2 = x; y2 = y2 } }
    {
        Way {
            x1: x,
            y1,
            x2: x,
            y2,
        }
    }
}

/// Adds what is shown of the words, cut to the room.
#[tactic(auto, using(crate::proofs::ShownWords::shown_is_text))]
fn append_words(alloc: Global, page: &mut Vec<u8>, words: &[u8], room: u64) -> Result<(), Memory>
    ensures { OnOk result
        (page.new.items ≡ page.old.items ++ rendered (cut room (shown_words words.now))) }
{
    let shown = shown_words(alloc, words)?;
    append_cut(alloc, page, text_of(&shown), room)
}

/// Adds the words there, each hidden character as its number, and cut to the room that there is.
#[tactic(auto, unfolding(markup::specs::Markup::rendered))]
pub fn append_label(
    alloc: Global,
    page: &mut Vec<u8>,
    spot: &Spot,
    words: &[u8],
) -> Result<(), Memory>
    ensures { OnOk result
        (page.new.items ≡ page.old.items ++ rendered (words_at spot.now words.now)) }
{
    let attributes = [
        Attribute::Words(AttributeName::Class, spot.class),
        Attribute::Number(AttributeName::X, spot.x),
        Attribute::Number(AttributeName::Y, spot.y),
    ];
    append_opening(page, Element::Text, &attributes)?;
    append_words(alloc, page, words, spot.room)?;
    append_closing(page, Element::Text)
}

/// Adds the words and the number there.
pub fn append_numbered(
    alloc: Global,
    page: &mut Vec<u8>,
    spot: &Spot,
    words: &str,
    number: u64,
) -> Result<(), Memory>
    ensures { OnOk result
        (page.new.items
        ≡ page.old.items ++ rendered (words_at spot.now (numbered words.now number))) }
{
    let mut all = Vec::new(alloc);
    append_number(&mut all, words, number)?;
    append_label(alloc, page, spot, &all)
}

/// Adds a title.
pub fn append_title(page: &mut Vec<u8>, words: &[u8]) -> Result<(), Memory>
    ensures { OnOk result (page.new.items ≡ page.old.items ++ rendered (title words.now)) }
{
    append_plain(page, Element::Title, text_of(words))
}

/// Adds a line of that class.
#[tactic(auto, unfolding(markup::specs::Markup::rendered))]
pub fn append_line(page: &mut Vec<u8>, class: &str, way: Way) -> Result<(), Memory>
    ensures { OnOk result
        (page.new.items ≡ page.old.items ++ rendered (line_markup class.now way)) }
{
    let attributes = [
        Attribute::Words(AttributeName::Class, class),
        Attribute::Number(AttributeName::X1, way.x1),
        Attribute::Number(AttributeName::Y1, way.y1),
        Attribute::Number(AttributeName::X2, way.x2),
        Attribute::Number(AttributeName::Y2, way.y2),
    ];
    append_empty(page, Element::Line, &attributes)
}

/// Adds the line of that class that joins these corners: of each how far right it stands, and how
/// far down, in tenths of a pixel.
#[tactic(auto, unfolding(markup::specs::Markup::rendered))]
pub fn append_polyline(page: &mut Vec<u8>, class: &str, corners: &[u64]) -> Result<(), Memory>
    ensures { OnOk result
        (page.new.items ≡ page.old.items ++ rendered (polyline class.now corners.now)) }
{
    let attributes = [
        Attribute::Words(AttributeName::Class, class),
        Attribute::AllTenths(AttributeName::Points, corners),
    ];
    append_empty(page, Element::Polyline, &attributes)
}
