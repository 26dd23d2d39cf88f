//! Laws of the definitions, each the contract of a function that does nothing.
ghost use Rattle.std.specs.Prelude.{ℕ, ◌≡◌, true, List, [], ◌∷◌, Some, chars, codes, fold};
ghost use Rattle.std.specs.List.{list_all};
ghost use Rattle.std.specs.Str.{IsUtf8};
ghost use Rattle.sentences.specs.Hidden.{is_shown};
ghost use Rattle.markup.specs.Escapes.{ampersands_escape, escaped, is_harmless, is_plain};
ghost use Rattle.markup.specs.Markup.{Markup, page_text};
ghost use Rattle.markup.specs.PageTags.{after_tag, between, reading_of, page_tags};

/// No byte of an escaped text is an angle bracket or a quotation mark, and each ampersand begins an
/// escape.
pub fn escaped_has_no_markup()
    ensures brackets { (words : List ℕ) → list_all is_harmless (escaped words) ≡ true }
    ensures ampersands { (words : List ℕ) → ampersands_escape (escaped words) ≡ true }
{}

/// A text of plain bytes stands as it is: printable ASCII without `&`, `<`, `>` and quotation marks.
pub fn a_plain_text_stands_as_it_is()
    ensures { (words : List ℕ) → list_all is_plain words ≡ true → escaped words ≡ words }
{}

/// An escaped text is UTF-8, and none of its characters is hidden.
pub fn escaped_is_shown()
    ensures utf8 { (words : List ℕ) → IsUtf8 words → IsUtf8 (escaped words) }
    ensures shown { (words : List ℕ) → IsUtf8 words
        → list_all is_shown (chars (escaped words)) ≡ true }
{}

/// The tags that are read off a page are those of its elements, in their order: no text adds one,
/// and none is lost.
pub fn the_tags_of_a_page_are_its_elements()
    ensures { (page : Markup) → reading_of (page_text page)
        ≡ between (codes "!DOCTYPE html" ∷ page_tags page) }
{}

/// Each tag that closes an element closes the one that was opened last, and none stays open.
pub fn elements_are_closed_in_order()
    ensures { (page : Markup) → fold after_tag (Some []) (page_tags page) ≡ Some [] }
{}
