//! Texts as JSON texts that can't move a terminal.
ghost use Rattle.std.specs.Prelude.{◌≡◌, ◌<◌, ◌++◌, OnOk};
ghost use Rattle.std.specs.Char.{digit_char};
ghost use Rattle.sentences.specs.Words.{char_text, control_escape, quoted_text};

use crate::hidden::append_shown;
use crate::words::append;
use tag::Memory;

/// The hexadecimal digit of that value.
pub fn hex_digit(value: u8) -> u8
    requires { value < 16 }
    ensures { result ≡ digit_char value }
{
    if value < 10 {
        b'0' + value
    } else {
        b'a' + (value - 10)
    }
}

/// Adds the long escape of the character of that number.
pub fn append_control(text: &mut Vec<u8>, code: u8) -> Result<(), Memory>
    ensures { OnOk result (text.new.items ≡ text.old.items ++ control_escape code) }
{
    append(text, "\\u00")?;
    text.push(hex_digit(code / 16))?;
    text.push(hex_digit(code % 16))?;
    Ok(())
}

/// Adds the character as it stands in a JSON text.
#[tactic(auto, unfolding(crate::specs::Words::char_text))]
fn append_char(text: &mut Vec<u8>, letter: char) -> Result<(), Memory>
    ensures { OnOk result (text.new.items ≡ text.old.items ++ char_text letter) }
{
    match letter {
        '"' => append(text, "\\\""),
        '\\' => append(text, "\\\\"),
        '\u{8}' => append(text, "\\b"),
        '\u{c}' => append(text, "\\f"),
        '\n' => append(text, "\\n"),
        '\r' => append(text, "\\r"),
        '\t' => append(text, "\\t"),
        _ => append_shown(text, letter),
    }
}

/// Adds the text as a JSON text: a control character in it, also one past ASCII, and one that moves
/// other text stand as their escapes.
pub fn append_quoted(text: &mut Vec<u8>, value: &str) -> Result<(), Memory>
    ensures { OnOk result (text.new.items ≡ text.old.items ++ quoted_text value.now) }
{
    append(text, "\"")?;
    for letter in value.chars() {
        append_char(text, letter)?;
    }
    append(text, "\"")
}
