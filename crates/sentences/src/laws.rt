//! Laws of sentences, each the contract of a function that does nothing.
ghost use Rattle.std.specs.Prelude.{ℕ, ◌≡◌, ◌<◌, ◌≤◌, true, List, chars};
ghost use Rattle.std.specs.List.{list_all};
ghost use Rattle.std.specs.Str.{IsUtf8};
ghost use Rattle.sentences.specs.Hidden.{is_hidden, is_shown, shown_text};
ghost use Rattle.sentences.specs.Words.{quoted_text};

/// Control characters are hidden: U+0000 to U+001F, and U+007F to U+009F. So are the characters that
/// break lines and those that turn the direction of text.
pub fn control_characters_are_hidden()
    ensures low { (c : ℕ) → c < 0x20 → is_hidden c ≡ true }
    ensures high { (c : ℕ) → 0x7F ≤ c → c < 0xA0 → is_hidden c ≡ true }
    ensures marks { (c : ℕ) → 0x200E ≤ c → c < 0x2010 → is_hidden c ≡ true }
    ensures turns { (c : ℕ) → 0x2028 ≤ c → c < 0x202F → is_hidden c ≡ true }
    ensures isolates { (c : ℕ) → 0x2066 ≤ c → c < 0x206A → is_hidden c ≡ true }
    ensures arabic { is_hidden 0x61C ≡ true }
{}

/// A value as a JSON text is UTF-8, and none of its characters is hidden.
pub fn a_quoted_text_is_shown()
    ensures utf8 { (value : List ℕ) → IsUtf8 value → IsUtf8 (quoted_text value) }
    ensures shown { (value : List ℕ) → IsUtf8 value
        → list_all is_shown (chars (quoted_text value)) ≡ true }
{}

/// So it is with what is shown of a text.
pub fn a_shown_text_is_shown()
    ensures utf8 { (words : List ℕ) → IsUtf8 words → IsUtf8 (shown_text words) }
    ensures shown { (words : List ℕ) → IsUtf8 words
        → list_all is_shown (chars (shown_text words)) ≡ true }
{}
