//! Texts, escaped so that they stay texts.
ghost use Rattle.std.specs.Prelude.{◌≡◌, ◌++◌, IfSome, None, OnOk};
ghost use Rattle.std.specs.List.{list_all};
ghost use Rattle.sentences.specs.Hidden.{shown_char};
ghost use Rattle.markup.specs.Escapes.{escaped, escaped_char, is_plain};

use sentences::{append, append_shown};
use tag::Memory;

/// Whether the byte is a whole character that stands for itself.
fn is_plain_byte(byte: u8) -> bool
    ensures { result ≡ is_plain byte }
{
    matches!(byte, b' '..=b'~') && !matches!(byte, b'&' | b'<' | b'>' | b'"' | b'\'')
}

/// Whether each byte of the text is a whole character that stands for itself.
fn is_plain(text: &str) -> bool
    ensures { result ≡ list_all is_plain text.now }
{
    text.as_bytes().iter().all(|byte| is_plain_byte(*byte))
}

/// The escape of a character that could be part of markup.
fn escape_of(c: char) -> Option<&'static str>
    ensures some { IfSome result (λ escape. escape.now ≡ escaped_char c) }
    ensures none { result ≡ None → escaped_char c ≡ shown_char c }
{
    match c {
        '&' => Some("&amp;"),
        '<' => Some("&lt;"),
        '>' => Some("&gt;"),
        '"' => Some("&quot;"),
        '\'' => Some("&#39;"),
        _ => None,
    }
}

/// Adds what stands for the character.
fn append_unplain(page: &mut Vec<u8>, c: char) -> Result<(), Memory>
    ensures { OnOk result (page.new.items ≡ page.old.items ++ escaped_char c) }
{
    match escape_of(c) {
        Some(escape) => append(page, escape),
        None => append_shown(page, c),
    }
}

/// Adds what stands for the character, a plain one as its byte.
fn append_char(page: &mut Vec<u8>, c: char) -> Result<(), Memory>
    ensures { OnOk result (page.new.items ≡ page.old.items ++ escaped_char c) }
{
    if c.is_ascii() && is_plain_byte(c as u8) {
        page.push(c as u8)?;
        return Ok(());
    }
    append_unplain(page, c)
}

/// Adds the text, character by character.
fn append_chars(page: &mut Vec<u8>, text: &str) -> Result<(), Memory>
    ensures { OnOk result (page.new.items ≡ page.old.items ++ escaped text.now) }
{
    for c in text.chars() {
        append_char(page, c)?;
    }
    Ok(())
}

/// Adds the text, escaped. If it fails, a beginning of that may have been added.
///
/// A style sheet is a text, too: one without `&`, `<`, `>`, quotation marks and ends of lines stands
/// in its element as it is.
#[tactic(auto, using(crate::proofs::Escaping::plain_escaped))]
pub fn append_text(page: &mut Vec<u8>, text: &str) -> Result<(), Memory>
    ensures { OnOk result (page.new.items ≡ page.old.items ++ escaped text.now) }
{
    if is_plain(text) {
        append(page, text)
    } else {
        append_chars(page, text)
    }
}
