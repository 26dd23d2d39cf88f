//! Sentences that name calls.
ghost use Rattle.std.specs.Prelude.{◌≡◌, ◌++◌, OnOk};
ghost use Rattle.markup.specs.Markup.{rendered};
ghost use Rattle.call_links.specs.Linked.{kind_of, linked, word_markup};

use crate::named::Links;
use crate::style::{BLANK, CALL};
use markup::append_text;
use tag::Memory;

/// What stands before a word of a sentence.
#[derive(Clone, Copy, Debug, PartialEq, Eq)]
pub(crate) enum Before {
    /// Nothing: it is the first.
    Nothing,
    /// The word after which a call is named.
    Call,
    /// Another word.
    Other,
}

/// What the word is to the next one.
fn kind_of(word: &str) -> Before
    ensures { result ≡ kind_of word.now }
{
    if word == CALL {
        Before::Call
    } else {
        Before::Other
    }
}

/// Adds a word of a sentence, after a blank if it isn't the first.
fn append_word(
    page: &mut Vec<u8>,
    links: &Links<'_>,
    before: Before,
    word: &str,
) -> Result<(), Memory>
    ensures { OnOk result (page.new.items
        ≡ page.old.items ++ rendered (word_markup links.now.targets.now links.now.calls.now before
        word.now)) }
{
    match before {
        Before::Nothing => append_text(page, word),
        Before::Call => {
            append_text(page, BLANK)?;
            links.append_word(page, word)
        }
        Before::Other => {
            append_text(page, BLANK)?;
            append_text(page, word)
        }
    }
}

/// Adds the sentence; the number of each of the calls that stands there after the word `call` is a link
/// to the call's bar. If it fails, a beginning of that may have been added.
pub fn append_linked(page: &mut Vec<u8>, links: &Links<'_>, sentence: &str) -> Result<(), Memory>
    ensures { OnOk result (page.new.items
        ≡ page.old.items ++ rendered (linked links.now.targets.now links.now.calls.now sentence.now)) }
{
    let mut before = Before::Nothing;
    for word in sentence.split(' ') {
        append_word(page, links, before, word)?;
        before = kind_of(word);
    }
    Ok(())
}
