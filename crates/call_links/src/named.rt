//! Words that name calls.
ghost use Rattle.std.specs.Prelude.{◌≡◌, ◌++◌, OnOk, Some, decimal};
ghost use Rattle.std.specs.Option.{option_map};
ghost use Rattle.markup.specs.Markup.{nothing, rendered};
ghost use Rattle.call_links.specs.Linked.{is_digit, link_or, named_word, rest_after};

use itoa::Buffer;
use markup::{Attribute, AttributeName, Element, append_closing, append_opening, append_text};
use tag::{Memory, OpId};

/// Which calls have bars to which sentences lead, and what links to these bars begin with.
#[derive(Clone, Copy)]
pub struct Links<'a> {
    pub targets: &'a str,
    pub calls: &'a [OpId],
}

/// Whether the byte, if there is one, is a digit.
fn is_digit(byte: Option<u8>) -> bool
    ensures { result ≡ is_digit byte }
{
    match byte {
        None => false,
        Some(byte) => matches!(byte, b'0'..=b'9'),
    }
}

/// What follows the number at the beginning of the word, unless that is a digit.
fn rest_after<'w>(word: &'w str, number: &str) -> Option<&'w str>
    ensures { option_map (λ rest. rest.now) result ≡ rest_after word.now number.now }
{
    let Some(rest) = word.strip_prefix(number) else {
        return None;
    };
    if is_digit(rest.as_bytes().first().copied()) {
        None
    } else {
        Some(rest)
    }
}

/// Adds the call's number as a link to its bar, and what follows it.
fn append_link(
    page: &mut Vec<u8>,
    targets: &str,
    call: OpId,
    number: &str,
    rest: &str,
) -> Result<(), Memory>
    requires { number.now ≡ decimal call.0 }
    ensures { OnOk result (page.new.items ≡ page.old.items
        ++ rendered (link_or targets.now call (Some rest.now) nothing)) }
{
    let target = Attribute::Numbered(AttributeName::Href, targets, u64::from(call.0));
    append_opening(page, Element::A, &[target])?;
    append_text(page, number)?;
    append_closing(page, Element::A)?;
    append_text(page, rest)
}

impl Links<'_> {
    /// Adds the word; the number of the call that it names, if that is one of these, is a link.
    pub(crate) fn append_word(&self, page: &mut Vec<u8>, word: &str) -> Result<(), Memory>
        ensures { OnOk result (page.new.items ≡ page.old.items
            ++ rendered (named_word self.now.targets.now self.now.calls.now word.now)) }
    {
        for call in self.calls {
            let mut digits = Buffer::new();
            let number = digits.format(call.0);
            if let Some(rest) = rest_after(word, number) {
                return append_link(page, self.targets, *call, number, rest);
            }
        }
        append_text(page, word)
    }
}
