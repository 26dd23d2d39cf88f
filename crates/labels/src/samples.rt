//! Samples of shapes, for a legend.
ghost use Rattle.std.specs.Prelude.{◌≡◌, ◌++◌, OnOk};
ghost use Rattle.markup.specs.Markup.{rendered};
ghost use Rattle.labels.specs.Samples.{sample};

use markup::{Element, append_worded};
use tag::Memory;

/// Adds the words, looking as the shapes of that class.
pub fn append_sample(page: &mut Vec<u8>, class: &str, words: &str) -> Result<(), Memory>
    ensures { OnOk result
        (page.new.items ≡ page.old.items ++ rendered (sample class.now words.now)) }
{
    append_worded(page, Element::Span, class, words)
}
