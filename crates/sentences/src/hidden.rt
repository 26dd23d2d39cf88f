//! Characters that neither a terminal nor a page shows as they are.
ghost use Rattle.std.specs.Prelude.{◌≡◌, ◌++◌, IfOk, OnOk, string_bytes};
ghost use Rattle.sentences.specs.Hidden.{is_hidden, moves_text, number_escape, shown_char};
ghost use Rattle.sentences.specs.Hidden.{shown_text};

use crate::quoted::hex_digit;
use crate::words::append;
use std::alloc::Global;
use tag::Memory;

/// Whether the character breaks a line, or turns the direction in which text is shown.
fn moves_text(c: char) -> bool
    ensures { result ≡ moves_text c }
{
    matches!(c, '\u{61c}' | '\u{200e}'..='\u{200f}')
        || matches!(c, '\u{2028}'..='\u{202e}' | '\u{2066}'..='\u{2069}')
}

/// Whether the character is not shown as it is.
fn is_hidden(c: char) -> bool
    ensures { result ≡ is_hidden c }
{
    c.is_control() || moves_text(c) || matches!(c, '\u{fffe}'..='\u{ffff}')
}

/// Adds the character by its number.
fn append_numbered(text: &mut Vec<u8>, c: char) -> Result<(), Memory>
    ensures { OnOk result (text.new.items ≡ text.old.items ++ number_escape c) }
{
    let code = u32::from(c);
    let digit = |place: u32| hex_digit((code / place % 16) as u8);
    text.extend_from_slice(&[b'\\', b'u', digit(4096), digit(256), digit(16), digit(1)])?;
    Ok(())
}

/// Adds the character; or, if it is a control character, moves text or is forbidden in XML, `\u` and
/// four hexadecimal digits, as a JSON text has it.
pub fn append_shown(text: &mut Vec<u8>, c: char) -> Result<(), Memory>
    ensures { OnOk result (text.new.items ≡ text.old.items ++ shown_char c) }
{
    if is_hidden(c) {
        append_numbered(text, c)
    } else {
        append(text, c.encode_utf8(&mut [0; 4]))
    }
}

/// Adds the words, each of their characters by `append_shown`.
pub fn append_shown_text(text: &mut Vec<u8>, words: &str) -> Result<(), Memory>
    ensures { OnOk result (text.new.items ≡ text.old.items ++ shown_text words.now) }
{
    for c in words.chars() {
        append_shown(text, c)?;
    }
    Ok(())
}

/// The words, each of their characters by `append_shown`.
pub fn shown_text(alloc: Global, words: &str) -> Result<String, Memory>
    ensures { IfOk result (λ shown. string_bytes shown ≡ shown_text words.now) }
{
    let mut text = Vec::new(alloc);
    append_shown_text(&mut text, words)?;
    Ok(unsafe { String::from_utf8_unchecked(text) })
}
