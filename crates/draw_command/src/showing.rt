//! What a section shows: which calls, the picture, and the table of the calls.
ghost use Rattle.std.specs.Prelude.{◌≡◌, ◌==◌, ◌++◌, OnOk};
ghost use Rattle.markup.specs.Markup.{rendered};
ghost use Rattle.pictures.specs.Layout.{IsInOrder};
ghost use Rattle.draw_command.specs.Pages.{around_line, has_call, others_markup, share_markup};
ghost use Rattle.draw_command.specs.Pages.{showing_markup, shown_line};

use crate::ranges::append_ranges;
use crate::words;
use markup::{Element, append_closing, append_number, append_text, open_of_class};
use pictures::{Picture, append_call_table, append_picture};
use recorder::Part;
use std::alloc::Global;
use tag::{Memory, OpId};

/// Says how to see others, if not all calls are shown.
#[tactic(auto, unfolding(markup::specs::Markup::rendered))]
fn append_others(page: &mut Vec<u8>, shown: usize, all: usize) -> Result<(), Memory>
    ensures { OnOk result (page.new.items
        ≡ page.old.items ++ rendered (others_markup shown all)) }
{
    if shown < all {
        append_text(page, words::OTHERS)
    } else {
        Ok(())
    }
}

/// Says how many of the calls are shown, and how to see others.
#[tactic(auto, unfolding(markup::specs::Markup::rendered))]
fn append_share(page: &mut Vec<u8>, shown: usize, all: usize) -> Result<(), Memory>
    ensures { OnOk result (page.new.items ≡ page.old.items ++ rendered (share_markup shown all)) }
{
    append_text(page, words::SHARE)?;
    append_number(page, shown as u64)?;
    append_text(page, words::OF)?;
    append_number(page, all as u64)?;
    append_text(page, words::SHARE_END)?;
    append_others(page, shown, all)
}

/// Says which of the calls the picture shows, and how many.
#[tactic(auto, unfolding(markup::specs::Markup::rendered))]
fn append_shown(page: &mut Vec<u8>, picture: &Picture<'_>) -> Result<(), Memory>
    ensures { OnOk result (page.new.items
        ≡ page.old.items ++ rendered (shown_line picture.now)) }
{
    let scene = picture.scene;
    open_of_class(page, Element::P, words::SHOWN)?;
    append_text(page, words::CALLS_SHOWN)?;
    append_ranges(page, scene.bars.as_slice(), scene.gaps.as_slice())?;
    append_share(page, scene.bars.len(), picture.part.len())?;
    append_closing(page, Element::P)
}

/// Whether the call has that number.
fn has_number(call: OpId, number: u64) -> bool
    ensures { result ≡ (call.0 == number) }
{
    u64::from(call.0) == number
}

/// Whether the part has the call of that number.
pub(crate) fn has_call(part: &Part<'_>, number: u64) -> bool
    ensures { result ≡ has_call part.now number }
{
    for place in 0..part.len() {
        if has_number(part.op(place), number) {
            return true;
        }
    }
    false
}

/// Says that the call around which calls are to be shown isn't among these, if it is so.
#[tactic(auto, unfolding(markup::specs::Markup::rendered))]
fn append_around(page: &mut Vec<u8>, around: Option<u64>, part: &Part<'_>) -> Result<(), Memory>
    ensures { OnOk result (page.new.items
        ≡ page.old.items ++ rendered (around_line around part.now)) }
{
    let Some(number) = around else {
        return Ok(());
    };
    if has_call(part, number) {
        return Ok(());
    }
    open_of_class(page, Element::P, words::HINT)?;
    append_text(page, words::AROUND)?;
    append_number(page, number)?;
    append_text(page, words::NOT_THERE)?;
    append_closing(page, Element::P)
}

/// Says which calls are shown, and adds the picture, and the calls as a table.
pub fn append_showing(
    alloc: Global,
    page: &mut Vec<u8>,
    around: Option<u64>,
    picture: &Picture<'_>,
) -> Result<(), Memory>
    requires { IsInOrder picture.now.scene.now }
    ensures { OnOk result (page.new.items
        ≡ page.old.items ++ rendered (showing_markup around picture.now)) }
{
    append_shown(page, picture)?;
    append_around(page, around, picture.part)?;
    append_picture(alloc, page, picture)?;
    append_call_table(alloc, page, picture)
}
