//! What ids and links begin with.
ghost use Rattle.std.specs.Prelude.{◌≡◌, ◌++◌, decimal, IfOk};
ghost use Rattle.std.specs.String.{string_bytes};
ghost use Rattle.call_links.specs.Ids.{bar_ids, bar_targets};
ghost use Rattle.call_links.specs.declared.style.TheConstants.{HYPHEN};

use crate::style::{BAR, HYPHEN, TO_BAR};
use itoa::Buffer;
use std::alloc::Global;
use tag::Memory;

/// The words, the number, and a hyphen.
fn numbered(alloc: Global, words: &str, number: u64) -> Result<String, Memory>
    ensures { IfOk result
        (λ text. string_bytes text ≡ words.now ++ decimal number ++ HYPHEN.now) }
{
    let mut digits = Buffer::new();
    let mut text = String::new(alloc);
    text.push_str(words)?;
    text.push_str(digits.format(number))?;
    text.push_str(HYPHEN)?;
    Ok(text)
}

/// What the ids of the bars of that section begin with; a call's number follows.
pub fn bar_ids(alloc: Global, section: usize) -> Result<String, Memory>
    ensures { IfOk result (λ ids. string_bytes ids ≡ bar_ids section) }
{
    numbered(alloc, BAR, section as u64)
}

/// What links to the bars of that section begin with; a call's number follows.
pub fn bar_targets(alloc: Global, section: usize) -> Result<String, Memory>
    ensures { IfOk result (λ targets. string_bytes targets ≡ bar_targets section) }
{
    numbered(alloc, TO_BAR, section as u64)
}
