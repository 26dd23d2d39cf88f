//! What stands around what a page says and shows, on a page of any command.
ghost use Rattle.std.specs.Prelude.{◌≡◌, ◌++◌, OnOk};
ghost use Rattle.markup.specs.Markup.{rendered};
ghost use Rattle.draw_command.specs.Frames.{above_content, above_styles, below_content};
ghost use Rattle.draw_command.specs.Frames.{content_begin, metas_markup, page_begin};
ghost use Rattle.draw_command.specs.Pages.{styles_markup, title_words};

use crate::words;
use markup::{
    Attribute, AttributeName, Element, append_closing, append_doctype, append_empty,
    append_opening, append_plain,
};
use pictures::append_style;
use tag::Memory;

/// The title of a page of the file of that name; one without a name has the command's.
pub fn title_of<'a>(file: &'a str, command: &'a str) -> &'a str
    ensures { result.now ≡ title_words file.now command.now }
{
    if file.is_empty() { command } else { file }
}

/// Adds what a browser has to know.
#[tactic(auto, unfolding(markup::specs::Markup::rendered))]
fn append_metas(page: &mut Vec<u8>) -> Result<(), Memory>
    ensures { OnOk result (page.new.items ≡ page.old.items ++ rendered metas_markup) }
{
    append_empty(
        page,
        Element::Meta,
        &[Attribute::Words(AttributeName::Charset, words::CHARSET)],
    )?;
    append_empty(
        page,
        Element::Meta,
        &[
            Attribute::Words(AttributeName::Name, words::VIEWPORT_NAME),
            Attribute::Words(AttributeName::Content, words::VIEWPORT),
        ],
    )
}

/// Adds what a browser is told before all else.
pub(crate) fn begin_head(page: &mut Vec<u8>) -> Result<(), Memory>
    ensures { OnOk result (page.new.items ≡ page.old.items ++ page_begin) }
{
    append_doctype(page)?;
    let language = Attribute::Words(AttributeName::Lang, words::LANGUAGE);
    append_opening(page, Element::Html, &[language])?;
    append_opening(page, Element::Head, &[])?;
    append_metas(page)
}

/// Begins a page of that title, down to its styles. They are to be added next, then what
/// `begin_content` adds, then the page's content, and then what `end_page` adds.
///
/// If it fails, a beginning of that may have been added; so it is with each function here.
pub fn begin_page(page: &mut Vec<u8>, title: &str) -> Result<(), Memory>
    ensures { OnOk result (page.new.items ≡ page.old.items ++ above_styles title.now) }
{
    begin_head(page)?;
    append_plain(page, Element::Title, title)
}

/// Adds the style of pictures, and that of what stands around them.
#[tactic(auto, unfolding(markup::specs::Markup::rendered))]
pub fn append_styles(page: &mut Vec<u8>) -> Result<(), Memory>
    ensures { OnOk result (page.new.items ≡ page.old.items ++ rendered styles_markup) }
{
    append_style(page)?;
    append_plain(page, Element::Style, words::STYLE)
}

/// Goes on from a page's styles to its title.
pub(crate) fn begin_body(page: &mut Vec<u8>) -> Result<(), Memory>
    ensures { OnOk result (page.new.items ≡ page.old.items ++ content_begin) }
{
    append_closing(page, Element::Head)?;
    append_opening(page, Element::Body, &[])?;
    append_opening(page, Element::Main, &[])
}

/// Goes on from a page's styles to its content, above which the title stands.
pub fn begin_content(page: &mut Vec<u8>, title: &str) -> Result<(), Memory>
    ensures { OnOk result (page.new.items ≡ page.old.items ++ above_content title.now) }
{
    begin_body(page)?;
    append_plain(page, Element::H1, title)
}

/// Ends a page after its content.
pub fn end_page(page: &mut Vec<u8>) -> Result<(), Memory>
    ensures { OnOk result (page.new.items ≡ page.old.items ++ below_content) }
{
    append_closing(page, Element::Main)?;
    append_closing(page, Element::Body)?;
    append_closing(page, Element::Html)
}
