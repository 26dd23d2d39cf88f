//! What answers say of texts.
ghost use Rattle.std.specs.Prelude.{◌≡◌, IfOk, IsUtf8, string_bytes};
ghost use Rattle.std.specs.Str.Iter.{HasSubslice};
ghost use Rattle.test_rows.specs.Answers.{Says};
ghost use Rattle.test_rows.specs.Texts.{lacks_text, says_text, with_mark};

use crate::Answer;
use std::alloc::{AllocError, Global};

/// Says the bytes as a text that ends with a line's end: `<end>` stands where they have none. Bytes
/// that are no UTF-8 aren't shown.
pub fn say_bytes(out: &mut Answer, bytes: &[u8])
    ensures { IsUtf8 bytes.now → Says out.old (with_mark bytes.now) out.new }
{
    out.push(std::str::from_utf8(bytes).unwrap_or("not UTF-8"));
    if !bytes.is_empty() && !bytes.ends_with(b"\n") {
        out.push("<end>\n");
    }
}

/// Whether the text of that name says the word, as a line.
pub fn text_said(alloc: Global, name: &str, text: &str, word: &str) -> Result<String, AllocError>
    ensures says { IfOk result (λ said. HasSubslice text.now word.now
        → string_bytes said ≡ says_text name.now word.now) }
    ensures lacks { IfOk result (λ said. (HasSubslice text.now word.now → ⊥)
        → string_bytes said ≡ lacks_text name.now word.now) }
{
    if text.contains(word) {
        format!(in alloc; "{name} that says {word}\n")
    } else {
        format!(in alloc; "{name} that doesn't say {word}\n")
    }
}

fn push_word(words: &mut Vec<String>, word: &str) -> Result<(), AllocError> {
    let word = String::from_str(*words.allocator(), word)?;
    Ok(words.push(word)?)
}

/// The words of a line, divided by that character; not all of them where memory was refused.
pub fn words_of(out: &mut Answer, line: &str, divider: char) -> Vec<String> {
    let mut words = Vec::new(out.alloc());
    for word in line.split(divider) {
        out.heed(push_word(&mut words, word));
    }
    words
}
