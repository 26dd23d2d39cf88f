//! Words as texts.
ghost use Rattle.std.specs.Prelude.{◌≡◌, IfOk};
ghost use Rattle.labels.specs.Texts.{shown_words, text_of};

use sentences::append_shown_text;
use std::alloc::Global;
use tag::Memory;

/// The words as a text, if they are one.
pub fn text_of(words: &[u8]) -> &str
    ensures { result.now ≡ text_of words.now }
{
    match str::from_utf8(words) {
        Ok(text) => text,
        Err(_) => "",
    }
}

/// What is shown of the words, if they are a text: a character that is hidden stands as its number,
/// so that it takes the room that it is given.
pub(crate) fn shown_words(alloc: Global, words: &[u8]) -> Result<Vec<u8>, Memory>
    ensures { IfOk result (λ shown. shown.items ≡ shown_words words.now) }
{
    let mut shown = Vec::new(alloc);
    append_shown_text(&mut shown, text_of(words))?;
    Ok(shown)
}
