//! Keys and their numbers.
ghost use Rattle.std.specs.Prelude.{◌≡◌, [], true, IfOk, OnErr};
ghost use Rattle.std.specs.BTreeMap.{get};
ghost use Rattle.std.specs.Cmp.Lexicographic.{slice_cmp};
ghost use Rattle.std.specs.List.{Contains};
ghost use Rattle.std.specs.Ordering.{nat_cmp};
ghost use Rattle.key_index.specs.Numbers.{EachOnce, IsPlace, Numbers};
ghost use Rattle.key_index.specs.Marks.{mark_of};
ghost use Rattle.tag.specs.Names.{is_key};

use crate::marks::mark_of;
use crate::placing::{enlarged, place_next};
use crate::slots::{Slot, standing};
use std::alloc::Global;
use std::collections::BTreeMap;
use std::marker::Model;
use tag::{Key, KeyText, Memory};

/// How many slots there are at first: a power of two.
const LEAST_SLOTS: usize = 64;

/// Keys, each once, in the order in which they were first seen. A key's number is its place.
///
/// A key's text is shared with the key that was given, or made where a text was. To look for a key
/// takes no memory. A new key may double the table: that takes a time that grows with the count of
/// keys, but among all keys it comes to a constant share for each.
#[derive(Debug, Drop)]
pub struct KeyNumbers {
    /// The numbers of most keys, each at the first place that was free of the sixteen from its mark's
    /// home on. The slots are a power of two, and at least twice as many as the keys.
    slots: Vec<Slot>,
    /// The numbers of the keys that found no free place: next to none, unless somebody chose them. To
    /// look here takes a time that grows with the logarithm of their count.
    others: BTreeMap<KeyText, usize>,
    keys: Vec<Key>,
}

impl Model for KeyNumbers {
    ghost use Rattle.std.specs.Prelude.{List, ℕ};

    ghost Value = { List (List ℕ) };

    ghost use Rattle.key_index.specs.Kept.{IsKept};

    ghost view = { λ k. k.keys.items };

    ghost invariant = { IsKept };
}

/// The number of the key of that text, if it is among these.
#[tactic(auto, using(crate::proofs::Placements::none_among))]
fn number_among(others: &BTreeMap<KeyText, usize>, text: &str) -> Option<usize>
    requires { is_key text.now ≡ true }
    ensures { result ≡ get (slice_cmp nat_cmp) others.now text.now }
{
    if others.is_empty() {
        return None;
    }
    let text = KeyText::new(text)?;
    others.get(&text).copied()
}

impl KeyNumbers {
    /// No key.
    pub fn new(alloc: Global) -> KeyNumbers
        ensures { result ≡ [] }
    {
        KeyNumbers {
            slots: Vec::new(alloc),
            others: BTreeMap::new(alloc),
            keys: Vec::new(alloc),
        }
    }

    /// The keys, by number.
    pub fn keys(&self) -> &[Key]
        ensures keys { result.now ≡ self.now }
        ensures distinct { EachOnce self.now }
    {
        self.keys.as_slice()
    }

    /// The number of the key of that text, whose mark that is, if it was seen.
    fn look_up(&self, mark: u32, text: &str) -> Option<usize>
        requires mark { mark ≡ mark_of text.now }
        requires lawful { is_key text.now ≡ true }
        ensures { IsPlace self.now text.now result }
    {
        if let Some(number) = standing(self.slots.as_slice(), self.keys.as_slice(), mark, text) {
            return Some(number);
        }
        number_among(&self.others, text)
    }

    /// The key's number, if it was seen.
    pub fn find(&self, key: &Key) -> Option<usize>
        ensures { IsPlace self.now key.now result }
    {
        self.find_text(key.as_str())
    }

    /// The number of the key of that text, if it was seen.
    pub fn find_text(&self, text: &str) -> Option<usize>
        requires { is_key text.now ≡ true }
        ensures { IsPlace self.now text.now result }
    {
        self.look_up(mark_of(text.as_bytes()), text)
    }

    /// The key's number. A key that wasn't seen gets the next one, and is seen from then on. On
    /// `Memory` nothing changed.
    pub fn number(&mut self, key: &Key) -> Result<usize, Memory>
        ensures ok { IfOk result (λ number. Numbers self.old key.now number self.new) }
        ensures err { OnErr result (self.new ≡ self.old) }
    {
        let mark = mark_of(key.as_str().as_bytes());
        match self.look_up(mark, key.as_str()) {
            Some(number) => Ok(number),
            None => self.add(mark, key.copy()?),
        }
    }

    /// The same of the key of that text, which is made only where it wasn't seen.
    pub fn number_text(&mut self, text: &str) -> Result<usize, Memory>
        requires { is_key text.now ≡ true }
        ensures ok { IfOk result (λ number. Numbers self.old text.now number self.new) }
        ensures err { OnErr result (self.new ≡ self.old) }
    {
        let alloc = *self.keys.allocator();
        let mark = mark_of(text.as_bytes());
        if let Some(number) = self.look_up(mark, text) {
            return Ok(number);
        }
        match Key::new(alloc, text) {
            Ok(key) => self.add(mark, key),
            Err(_) => Err(Memory),
        }
    }

    /// Numbers that key, whose mark that is and which wasn't seen. On `Memory` nothing changed.
    fn add(&mut self, mark: u32, key: Key) -> Result<usize, Memory>
        requires mark { mark ≡ mark_of key }
        requires unseen { Contains self.old key → ⊥ }
        ensures ok { IfOk result (λ number. Numbers self.old key number self.new) }
        ensures err { OnErr result (self.new ≡ self.old) }
    {
        // Whatever can be refused comes first.
        self.make_room()?;
        self.keys.reserve(1)?;
        let number = self.keys.len();
        place_next(
            &mut self.slots,
            &mut self.others,
            self.keys.as_slice(),
            mark,
            &key,
        )?;
        self.keys.push(key)?;
        Ok(number)
    }

    /// Doubles the table where one key more would take over half of it. On `Memory` it stays as it is.
    fn make_room(&mut self) -> Result<(), Memory>
        ensures { self.new ≡ self.old }
    {
        let count = self.slots.len();
        if self.keys.len() < count / 2 {
            return Ok(());
        }
        let alloc = *self.keys.allocator();
        let count = count.saturating_mul(2).max(LEAST_SLOTS);
        self.slots = enlarged(
            alloc,
            count,
            self.slots.as_slice(),
            &mut self.others,
            self.keys.as_slice(),
        )?;
        Ok(())
    }
}
