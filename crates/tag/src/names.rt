//! Keys and values: texts of limited length.
ghost use Rattle.std.specs.Prelude.{◌≡◌, ◌≤◌, true, false, None, Some, IfOk, IsOk, bytes_eq, ◌↔◌, IfErr, ◌⊎◌, length, refl};
ghost use Rattle.std.proofs.Common.{rules};
ghost use Rattle.std.specs.Hash as fed;
ghost use Rattle.std.specs.Ordering.{nat_cmp};
ghost use Rattle.std.specs.Cmp.{partial_equiv_from_equiv};
ghost use Rattle.std.specs.Cmp.Lexicographic.{slice_cmp, nat_list_eq_equiv, nat_list_cmp_total, texts_ties, texts_po};
ghost use Rattle.std.specs.Cmp.Rules.{hashing};
ghost use Rattle.std.specs.List.{list_all};
ghost use Rattle.std.specs.Option.{option_copied};
ghost use Rattle.tag.specs.Names.{is_key_byte, is_key, is_value};
ghost use Rattle.tag.specs.Numbers.{name_error_number};
ghost use Rattle.tag.specs.ShortTexts.{short_limit};

use crate::Memory;
use crate::short_text::ShortText;
use std::alloc::Global;
use std::cmp::Ordering;
use std::fmt;
use std::hash::{Hash, Hasher};
use std::marker::Model;
use std::sync::ArcStr;
use thiserror::Error;

/// Why a text or a number is no name.
#[derive(Clone, Copy, Debug, PartialEq, Eq, Error)]
pub enum NameError {
    #[error("a key is 1 to 64 ASCII letters, digits, `.`, `_` or `-`")]
    BadKey,
    #[error("a value is at most 256 bytes")]
    BadValue,
    #[error("a client's name is 1 to 65535")]
    BadClient,
    #[error("no memory")]
    Memory,
}

impl NameError {
    /// Its number in the order of the reasons, 1 to 4.
    pub fn number(self) -> u8
        ensures { result ≡ name_error_number self }
    {
        match self {
            NameError::BadKey => 1,
            NameError::BadValue => 2,
            NameError::BadClient => 3,
            NameError::Memory => 4,
        }
    }
}

/// The text of a key: in the value itself if it has at most 14 bytes, else in a block that copies share.
#[derive(Drop)]
enum Name {
    Short(ShortText),
    Long(ArcStr),
}

/// A key: 1 to 64 bytes, each an ASCII letter, a digit, or one of `.` `_` `-`.
///
/// A key of at most 14 bytes takes no memory. Copies of a longer one share one text.
#[derive(Drop)]
pub struct Key {
    name: Name,
}

impl Model for Key {
    ghost use Rattle.std.specs.Prelude.{List, ℕ};
    ghost use Rattle.tag.specs.KeyTexts.{text_of, IsKeyText};

    ghost Value = { List ℕ };

    ghost view = { λ k. text_of k.name };

    ghost invariant = { IsKeyText };
}

fn is_key_byte(byte: u8) -> bool
    ensures { result ≡ is_key_byte byte }
{
    byte.is_ascii_alphanumeric() || byte == b'.' || byte == b'_' || byte == b'-'
}

fn has_key_bytes(text: &[u8]) -> bool
    ensures { result ≡ list_all is_key_byte text.now }
{
    text.iter().all(|b| is_key_byte(*b))
}

/// Whether the bytes are the text of a key.
pub fn is_key(text: &[u8]) -> bool
    ensures { result ≡ is_key text.now }
{
    !text.is_empty() && text.len() <= 64 && has_key_bytes(text)
}

fn is_value(text: &str) -> bool
    ensures { result ≡ is_value text.now }
{
    text.len() <= 256
}

impl Key {
    ghost use Rattle.std.specs.Prelude.{ok_or};

    /// The key of that text. `BadKey` comes exactly where the text is no key, `Memory` only where the text
    /// has more than 14 bytes and its copy was refused.
    pub fn new(alloc: Global, text: &str) -> Result<Key, NameError>
        ensures value { IfOk result (λ key. (key ≡ text.now) × (is_key text.now ≡ true)) }
        ensures bad { (result ≡ Err NameError.BadKey) ↔ (is_key text.now ≡ false) }
        ensures only { IfErr result
            (λ error. (error ≡ NameError.BadKey) ⊎ (error ≡ NameError.Memory)) }
        ensures short { length text.now ≤ short_limit → result ≡ Err NameError.Memory → ⊥ }
    {
        if !is_key(text.as_bytes()) {
            return Err(NameError::BadKey);
        }
        if let Some(short) = ShortText::new(text) {
            return Ok(Key {
                name: Name::Short(short),
            });
        }
        match ArcStr::from_str(alloc, text) {
            Ok(long) => Ok(Key {
                name: Name::Long(long),
            }),
            Err(_) => Err(NameError::Memory),
        }
    }

    /// The text.
    pub fn as_str(&self) -> &str
        ensures text { result.now ≡ self.now }
        ensures lawful { is_key self.now ≡ true }
    {
        match &self.name {
            Name::Short(text) => text.as_str(),
            Name::Long(text) => text.as_str(),
        }
    }

    /// An equal key. Only the copy of a key of more than 14 bytes can lack memory.
    pub fn copy(&self) -> Result<Key, Memory>
        ensures copy { IfOk result (λ key. key ≡ self.now) }
        ensures short { length self.now ≤ short_limit → IsOk result }
    {
        let name = match &self.name {
            Name::Short(text) => Name::Short(text.copy()),
            Name::Long(text) => Name::Long(text.clone()?),
        };
        Ok(Key { name })
    }
}

impl fmt::Debug for Key {
    fn fmt<W: fmt::Write>(&self, f: &mut fmt::Formatter<W>) -> fmt::Result {
        f.debug_struct("Key").field("name", &self.as_str()).finish()
    }
}

impl PartialEq for Key {
    ghost eq = { bytes_eq };

    ghost laws = { partial_equiv_from_equiv nat_list_eq_equiv };

    fn eq(&self, other: &Key) -> bool {
        self.as_str() == other.as_str()
    }
}

impl Eq for Key {
    ghost laws = { nat_list_eq_equiv };
}

impl PartialOrd for Key {
    ghost partial_cmp = { λ a b. Some (slice_cmp nat_cmp a b) };

    ghost laws = { texts_po };

    fn partial_cmp(&self, other: &Key) -> Option<Ordering> {
        Some(self.cmp(other))
    }
}

impl Ord for Key {
    ghost cmp = { slice_cmp nat_cmp };

    ghost total = { nat_list_cmp_total };

    ghost matches_partial_cmp = { λ a b. refl };

    ghost matches_eq = { texts_ties };

    fn cmp(&self, other: &Key) -> Ordering {
        self.as_str().cmp(other.as_str())
    }
}

impl Hash for Key {
    ghost hash_input = { fed.str };

    ghost respects_eq = { Prim.search (hashing, rules) };

    fn hash<H: Hasher>(&self, state: &mut H) {
        self.as_str().hash(state);
    }
}

/// A value: a text of at most 256 bytes.
///
/// Copies share one text, so that a record and its parts hold each value once.
#[derive(Debug, Drop)]
pub struct Value {
    text: ArcStr,
}

impl Model for Value {
    ghost use Rattle.std.specs.Prelude.{◌≡◌, true, List, ℕ};
    ghost use Rattle.std.specs.Arc.{arc_str_bytes};
    ghost use Rattle.tag.specs.Names.{is_value};

    ghost Value = { List ℕ };

    ghost view = { λ v. arc_str_bytes v.text };

    ghost invariant = { λ v. is_value (arc_str_bytes v.text) ≡ true };
}

impl Value {
    /// The value of that text. `BadValue` comes exactly where the text has more than 256 bytes,
    /// `Memory` only where the copy of a value's text was refused.
    pub fn new(alloc: Global, text: &str) -> Result<Value, NameError>
        ensures value { IfOk result (λ value. (value ≡ text.now) × (is_value text.now ≡ true)) }
        ensures bad { (result ≡ Err NameError.BadValue) ↔ (is_value text.now ≡ false) }
        ensures only { IfErr result
            (λ error. (error ≡ NameError.BadValue) ⊎ (error ≡ NameError.Memory)) }
    {
        if !is_value(text) {
            return Err(NameError::BadValue);
        }
        match ArcStr::from_str(alloc, text) {
            Ok(text) => Ok(Value { text }),
            Err(_) => Err(NameError::Memory),
        }
    }

    /// The text.
    pub fn as_str(&self) -> &str
        ensures text { result.now ≡ self.now }
        ensures lawful { is_value self.now ≡ true }
    {
        self.text.as_str()
    }

    /// An equal value.
    pub fn copy(&self) -> Result<Value, Memory>
        ensures { IfOk result (λ value. value ≡ self.now) }
    {
        Ok(Value {
            text: self.text.clone()?,
        })
    }

    /// An equal value, or absent where there is none to copy.
    pub fn copy_of(value: Option<&Value>) -> Result<Option<Value>, Memory>
        ensures copy { IfOk result (λ copy. copy ≡ option_copied value.entry) }
        ensures spare { option_copied value.entry ≡ None → IsOk result }
    {
        match value {
            None => Ok(None),
            Some(value) => Ok(Some(value.copy()?)),
        }
    }
}

impl PartialEq for Value {
    ghost eq = { bytes_eq };

    ghost laws = { partial_equiv_from_equiv nat_list_eq_equiv };

    fn eq(&self, other: &Value) -> bool {
        self.text == other.text
    }
}

impl Eq for Value {
    ghost laws = { nat_list_eq_equiv };
}
