//! Texts of a page.
ghost use Rattle.std.specs.Prelude.{◌≡◌, ◌++◌, OnOk};
ghost use Rattle.std.specs.Str.Lines.{lines};
ghost use Rattle.markup.specs.Markup.{each, rendered, text};
ghost use Rattle.judged_keys.specs.Judgements.{judgement_of};
ghost use Rattle.draw_command.specs.Pages.{counted, finding_said, said};

use explain_command::append_finding as append_finding_line;
use judged_keys::JudgedKey;
use markup::{
    Attribute, AttributeName, Element, append_closing, append_number, append_opening, append_text,
};
use std::alloc::Global;
use tag::Memory;

/// Adds a paragraph of that class: words and a number, and once more words and a number.
#[tactic(auto, unfolding(markup::specs::Markup::rendered))]
pub(crate) fn append_counted(
    page: &mut Vec<u8>,
    class: &str,
    first: (&str, u64),
    second: (&str, u64),
) -> Result<(), Memory>
    ensures { OnOk result (page.new.items ≡ page.old.items
        ++ rendered (counted class.now first.entry.0.now first.entry.1 second.entry.0.now
        second.entry.1)) }
{
    let class = Attribute::Words(AttributeName::Class, class);
    append_opening(page, Element::P, &[class])?;
    append_text(page, first.0)?;
    append_number(page, first.1)?;
    append_text(page, second.0)?;
    append_number(page, second.1)?;
    append_closing(page, Element::P)
}

/// Adds the lines of the text, one after another.
fn append_lines(page: &mut Vec<u8>, words: &str) -> Result<(), Memory>
    ensures { OnOk result (page.new.items
        ≡ page.old.items ++ rendered (each (λ line. text line) (lines words.now))) }
{
    for line in words.lines() {
        append_text(page, line)?;
    }
    Ok(())
}

/// Adds what the bytes say, without the ends of lines.
pub(crate) fn append_said(alloc: Global, page: &mut Vec<u8>, bytes: &[u8]) -> Result<(), Memory>
    ensures { OnOk result (page.new.items ≡ page.old.items ++ rendered (said bytes.now)) }
{
    let words = String::from_utf8_lossy(alloc, bytes)?;
    append_lines(page, words.as_str())
}

/// Adds what was found of the key.
pub fn append_finding(alloc: Global, page: &mut Vec<u8>, key: &JudgedKey<'_>) -> Result<(), Memory>
    ensures { OnOk result (page.new.items
        ≡ page.old.items ++ rendered (finding_said (judgement_of key.now))) }
{
    let mut line = Vec::new(alloc);
    append_finding_line(&mut line, key.one.key, key.finding)?;
    append_said(alloc, page, line.as_slice())
}
