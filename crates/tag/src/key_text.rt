//! Texts of keys, where they stand.
ghost use Rattle.std.specs.Prelude.{◌≡◌, ◌↔◌, true, Some, IfSome, IsSome, bytes_eq, refl};
ghost use Rattle.std.specs.Ordering.{nat_cmp};
ghost use Rattle.std.specs.Cmp.{partial_equiv_from_equiv};
ghost use Rattle.std.specs.Cmp.Lexicographic.{slice_cmp, nat_list_eq_equiv, nat_list_cmp_total, texts_ties, texts_po};
ghost use Rattle.tag.specs.Names.{is_key};

use crate::names::{Key, is_key};
use arrayvec::ArrayString;
use std::cmp::Ordering;
use std::marker::Model;

/// The text of a key, whose bytes lie in the value itself: it takes no memory.
///
/// It is for a look-up. A `Key` is for what is kept: it takes a quarter of the room or less.
#[derive(Debug, Drop)]
pub struct KeyText {
    text: ArrayString<64>,
}

impl Model for KeyText {
    ghost use Rattle.std.specs.Prelude.{◌≡◌, true, List, ℕ};
    ghost use Rattle.tag.specs.Names.{is_key};

    ghost Value = { List ℕ };

    ghost view = { λ k. k.text.bytes };

    ghost invariant = { λ k. is_key k.text.bytes ≡ true };
}

impl KeyText {
    /// The text, where it is a key's. `None` comes exactly where it is none.
    pub fn new(text: &str) -> Option<KeyText>
        ensures some { IsSome result ↔ (is_key text.now ≡ true) }
        ensures value { IfSome result (λ key. key ≡ text.now) }
    {
        if !is_key(text.as_bytes()) {
            return None;
        }
        match ArrayString::from(text) {
            Ok(text) => Some(KeyText { text }),
            Err(_) => None,
        }
    }

    /// The key's text.
    pub fn of(key: &Key) -> KeyText
        ensures { result ≡ key.now }
    {
        KeyText::new(key.as_str()).unwrap()
    }

    /// The text.
    pub fn as_str(&self) -> &str
        ensures text { result.now ≡ self.now }
        ensures lawful { is_key self.now ≡ true }
    {
        self.text.as_str()
    }
}

impl PartialEq for KeyText {
    ghost eq = { bytes_eq };

    ghost laws = { partial_equiv_from_equiv nat_list_eq_equiv };

    fn eq(&self, other: &KeyText) -> bool {
        self.as_str() == other.as_str()
    }
}

impl Eq for KeyText {
    ghost laws = { nat_list_eq_equiv };
}

impl PartialOrd for KeyText {
    ghost partial_cmp = { λ a b. Some (slice_cmp nat_cmp a b) };

    ghost laws = { texts_po };

    fn partial_cmp(&self, other: &KeyText) -> Option<Ordering> {
        Some(self.cmp(other))
    }
}

impl Ord for KeyText {
    ghost cmp = { slice_cmp nat_cmp };

    ghost total = { nat_list_cmp_total };

    ghost matches_partial_cmp = { λ a b. refl };

    ghost matches_eq = { texts_ties };

    fn cmp(&self, other: &KeyText) -> Ordering {
        self.as_str().cmp(other.as_str())
    }
}
