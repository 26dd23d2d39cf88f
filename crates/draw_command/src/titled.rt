//! The page around what it says and shows: its title says how many keys are refused.
ghost use Rattle.std.specs.Prelude.{◌≡◌, ◌++◌, [], IfOk, OnOk};
ghost use Rattle.markup.specs.Markup.{element, rendered};
ghost use Rattle.draw_command.specs.Frames.{framed_bytes};
ghost use Rattle.draw_command.specs.Pages.{heading_words, refused_words, styles_markup};

use crate::frame::{append_styles, begin_body, begin_head, end_page, title_of};
use crate::history_pictures::Told;
use crate::words;
use markup::{Element, append_closing, append_number, append_opening, append_text};
use std::alloc::Global;
use tag::Memory;

/// Adds how many keys are refused of so many, if one is.
#[tactic(auto, unfolding(markup::specs::Markup::rendered))]
fn append_refused(page: &mut Vec<u8>, refused: usize, count: usize) -> Result<(), Memory>
    ensures { OnOk result (page.new.items
        ≡ page.old.items ++ rendered (refused_words refused count)) }
{
    if refused == 0 {
        return Ok(());
    }
    append_text(page, words::COLON)?;
    append_number(page, refused as u64)?;
    append_text(page, words::OF_KEYS)?;
    append_number(page, count as u64)?;
    append_text(page, words::ARE_REFUSED)
}

/// Adds an element that says the title of the page of that file.
#[tactic(auto, unfolding(markup::specs::Markup::rendered))]
fn append_title(page: &mut Vec<u8>, kind: Element, file: &str, told: Told) -> Result<(), Memory>
    ensures { OnOk result (page.new.items ≡ page.old.items
        ++ rendered (element kind [] (heading_words file.now told.refused told.count))) }
{
    append_opening(page, kind, &[])?;
    append_text(page, title_of(file, words::TITLE))?;
    append_refused(page, told.refused, told.count)?;
    append_closing(page, kind)
}

/// The page of that file, of whose keys that is told, around that content.
pub(crate) fn page_around(
    alloc: Global,
    file: &str,
    told: Told,
    content: &[u8],
) -> Result<Vec<u8>, Memory>
    ensures { IfOk result (λ page. page.items ≡ framed_bytes
        (heading_words file.now told.refused told.count) styles_markup content.now) }
{
    let mut page = Vec::new(alloc);
    begin_head(&mut page)?;
    append_title(&mut page, Element::Title, file, told)?;
    append_styles(&mut page)?;
    begin_body(&mut page)?;
    append_title(&mut page, Element::H1, file, told)?;
    page.extend_from_slice(content)?;
    end_page(&mut page)?;
    Ok(page)
}
