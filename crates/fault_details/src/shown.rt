//! What stands in a file, as it is shown.
ghost use Rattle.std.specs.Prelude.{◌≡◌, ◌++◌, ◌<◌, ◌≤◌, length, IfOk, OnOk};
ghost use Rattle.json.specs.Print.{quoted};
ghost use Rattle.fault_details.specs.Shown.{boundary, is_within, piece, plain_after, sentence};
ghost use Rattle.fault_details.specs.Shown.{shown};

use json::Writer;
use sentences::{append, append_control};
use std::alloc::Global;
use tag::Memory;

/// How many bytes of a text are shown.
const MOST: usize = 60;

/// Adds what is shown for a byte and the one before it.
#[tactic(auto, unfolding(crate::specs::Shown::piece))]
fn append_piece(text: &mut Vec<u8>, before: u8, byte: u8) -> Result<(), Memory>
    ensures { OnOk result (text.new.items ≡ text.old.items ++ piece before byte) }
{
    if before == 194 {
        if byte < 160 {
            return append_control(text, byte);
        }
        text.push(194)?;
        text.push(byte)?;
    } else if byte != 194 {
        if byte < 32 || byte == 127 {
            return append_control(text, byte);
        }
        text.push(byte)?;
    }
    Ok(())
}

/// Adds the bytes, control characters as escapes.
fn append_plain(text: &mut Vec<u8>, bytes: &[u8]) -> Result<(), Memory>
    ensures { OnOk result (text.new.items ≡ text.old.items ++ plain_after 0 bytes.now) }
{
    let mut before = 0;
    for byte in bytes {
        append_piece(text, before, *byte)?;
        before = *byte;
    }
    Ok(())
}

/// Whether the byte isn't the first of its character.
fn is_within(byte: u8) -> bool
    ensures { result ≡ is_within byte }
{
    byte >= 128 && byte < 192
}

/// The greatest place, at most that, at which a character begins.
#[tactic(auto, unfolding(crate::specs::Shown::boundary))]
fn boundary(most: usize, bytes: &[u8]) -> usize
    requires { most < length bytes.now }
    ensures place { result ≡ boundary most bytes.now }
    ensures most { result ≤ most }
{
    let mut place = most;
    while place > 0 && is_within(bytes[place]) {
        place -= 1;
    }
    place
}

/// Adds a text as it is shown.
#[tactic(auto, unfolding(crate::specs::Shown::shown))]
pub(crate) fn append_shown(text: &mut Vec<u8>, bytes: &[u8]) -> Result<(), Memory>
    ensures { OnOk result (text.new.items ≡ text.old.items ++ shown bytes.now) }
{
    if bytes.len() <= MOST {
        return append_plain(text, bytes);
    }
    append_plain(text, &bytes[..boundary(MOST, bytes)])?;
    append(text, "...")
}

/// Adds the words as a line of their own, after two blanks.
pub(crate) fn append_sentence(text: &mut Vec<u8>, words: &[u8]) -> Result<(), Memory>
    ensures { OnOk result (text.new.items ≡ text.old.items ++ sentence words.now) }
{
    append(text, "  ")?;
    append_plain(text, words)?;
    append(text, "\n")
}

/// The word as a JSON text.
fn quoted_of(alloc: Global, word: &str) -> Result<Vec<u8>, Memory>
    ensures { IfOk result (λ text. text.items ≡ quoted word.now) }
{
    let mut writer = Writer::new(Vec::new(alloc));
    writer.string(word)?;
    Ok(writer.into_inner())
}

/// Adds the word as a JSON text, as it is shown.
pub(crate) fn append_quoted(text: &mut Vec<u8>, word: &str) -> Result<(), Memory>
    ensures { OnOk result (text.new.items ≡ text.old.items ++ shown (quoted word.now)) }
{
    let quoted = quoted_of(*text.allocator(), word)?;
    append_shown(text, quoted.as_slice())
}
