//! Slots: where the numbers of most keys stand.
ghost use Rattle.std.specs.Prelude.{◌≡◌, ◌<◌, ℕ, ◌↔◌, Some, IfSome, IsTrue, MatchOption, length};
ghost use Rattle.std.specs.List.{slice_get};
ghost use Rattle.key_index.specs.Slots.{place_of, AreTaken, IsFree, Stands};
ghost use Rattle.key_index.specs.Placed.{StillStand};

use tag::Key;

/// At how many places, from its mark's home on, a number may stand.
const PLACES: usize = 16;

/// The number of a slot that is free.
pub(crate) const FREE: u32 = u32::MAX;

/// A slot that is free.
pub(crate) const FREE_SLOT: Slot = Slot {
    mark: 0,
    number: FREE,
};

/// A place of the table: the mark and the number of a key, or free.
#[derive(Clone, Copy, Debug)]
pub(crate) struct Slot {
    pub(crate) mark: u32,
    pub(crate) number: u32,
}

/// The place of that mark, so many steps from its home, in a table of so many slots.
fn place_of(mark: u32, steps: usize, count: usize) -> usize
    requires { steps < 16 }
    ensures { result ≡ place_of mark steps count }
{
    (mark as usize + steps) & count.saturating_sub(1)
}

/// The mark's first free place, if one of its places is free.
fn free_place(slots: &[Slot], mark: u32) -> Option<usize>
    ensures { IfSome result (λ place. IsFree slots.now mark place) }
{
    for steps in 0..PLACES {
        let place = place_of(mark, steps, slots.len());
        if slots.get(place)?.number == FREE {
            return Some(place);
        }
    }
    None
}

/// Puts the number at its mark's first free place, and says whether it stands there: no place may be
/// free, and a slot has no room for the number `FREE` or one above it.
pub(crate) fn put(slots: &mut [Slot], mark: u32, number: usize) -> bool
    ensures put { IsTrue result → Stands slots.new mark number }
    ensures kept { StillStand slots.old slots.new }
{
    if number >= FREE as usize {
        return false;
    }
    match free_place(slots, mark) {
        Some(place) => {
            slots[place] = Slot {
                mark,
                number: number as u32,
            };
            true
        }
        None => false,
    }
}

/// Whether the key of that number has that text.
fn is_at(keys: &[Key], number: usize, text: &str) -> bool
    ensures { IsTrue result ↔ (slice_get keys.now number ≡ Some text.now) }
{
    match keys.get(number) {
        Some(key) => key.as_str() == text,
        None => false,
    }
}

/// The number of the key of that text, whose mark that is, if it stands in the table.
pub(crate) fn standing(slots: &[Slot], keys: &[Key], mark: u32, text: &str) -> Option<usize>
    ensures { MatchOption result
        ((number : ℕ) → slice_get keys.now number ≡ Some text.now → Stands slots.now mark number → ⊥)
        (λ number. slice_get keys.now number ≡ Some text.now) }
{
    for steps in 0..PLACES {
        let slot = slots.get(place_of(mark, steps, slots.len()))?;
        if slot.number == FREE {
            return None;
        }
        let number = slot.number as usize;
        if slot.mark == mark && is_at(keys, number, text) {
            return Some(number);
        }
    }
    None
}
