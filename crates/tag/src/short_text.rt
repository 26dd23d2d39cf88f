//! Short texts, where they stand.
ghost use Rattle.std.specs.Prelude.{◌≡◌, ◌≤◌, ◌<◌, ◌-◌, ◌++◌, IfNone, IfSome, length, replicate};
ghost use Rattle.tag.specs.ShortTexts.{short_limit};

use std::marker::Model;
use std::str;

/// A text of at most 14 bytes, which lie in the value itself: it takes no memory.
#[derive(Drop)]
pub(crate) struct ShortText {
    count: u8,
    bytes: [u8; 14],
}

impl Model for ShortText {
    ghost use Rattle.std.specs.Prelude.{List, ℕ, take};
    ghost use Rattle.tag.specs.ShortTexts.{IsStored};

    ghost Value = { List ℕ };

    ghost view = { λ s. take s.count s.bytes };

    ghost invariant = { IsStored };
}

/// The bytes, and then 0.
fn padded(bytes: &[u8]) -> [u8; 14]
    requires { length bytes.now ≤ short_limit }
    ensures { result ≡ bytes.now ++ replicate (14 - length bytes.now) 0 }
{
    let mut padded = [0; 14];
    padded[..bytes.len()].copy_from_slice(bytes);
    padded
}

impl ShortText {
    /// The text, if it is short.
    pub(crate) fn new(text: &str) -> Option<ShortText>
        ensures some { IfSome result (λ short. short ≡ text.now) }
        ensures none { IfNone result (short_limit < length text.now) }
    {
        if text.len() > 14 {
            return None;
        }
        Some(ShortText {
            count: text.len() as u8,
            bytes: padded(text.as_bytes()),
        })
    }

    /// The text.
    pub(crate) fn as_str(&self) -> &str
        ensures { result.now ≡ self.now }
    {
        unsafe { str::from_utf8_unchecked(&self.bytes[..self.count as usize]) }
    }

    /// An equal text.
    pub(crate) fn copy(&self) -> ShortText
        ensures { result ≡ self.now }
    {
        ShortText {
            count: self.count,
            bytes: self.bytes,
        }
    }
}
