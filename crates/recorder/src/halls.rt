//! Rows of halls, and the hall of a key.
ghost use Rattle.std.specs.Prelude.{◌≡◌, ◌<◌, ◌≤◌, ◌↔◌, ℕ, true, sum, length, IsSome, IfSome};
ghost use Rattle.tag.specs.Limits.{key_limit};
ghost use Rattle.tag.specs.Names.{is_key};
ghost use Rattle.recorder.specs.Halls.{IsHallCount, hall_limit, hall_of};

use std::marker::Model;
use tag::Key;

/// How many halls a store has, 1 to 64. Each key has one hall.
#[derive(Clone, Copy, Debug, PartialEq, Eq)]
pub struct Halls {
    count: u8,
}

impl Model for Halls {
    ghost use Rattle.std.specs.Prelude.{ℕ};

    ghost Value = { ℕ };

    ghost use Rattle.recorder.specs.Halls.{IsHallCount};

    ghost view = { λ h. h.count };

    ghost invariant = { λ h. IsHallCount h.count };

    ghost inverse = { λ n. record { count = n } };
}

/// The sum of the bytes.
fn total(bytes: &[u8]) -> u32
    requires { length bytes.now ≤ key_limit }
    ensures { result ≡ sum bytes.now }
{
    bytes.iter().map(|byte| u32::from(*byte)).sum()
}

impl Halls {
    /// So many halls. `None` comes exactly where they aren't 1 to 64.
    pub fn new(count: u8) -> Option<Halls>
        ensures some { IsSome result ↔ IsHallCount count }
        ensures value { IfSome result (λ halls. halls ≡ count) }
    {
        if count >= 1 && count <= 64 {
            Some(Halls { count })
        } else {
            None
        }
    }

    /// How many halls there are, 1 to 64.
    pub fn count(&self) -> u8
        ensures count { result ≡ self.now }
        ensures least { 1 ≤ result }
        ensures most { result ≤ hall_limit }
    {
        self.count
    }

    /// The number of the key's hall, from 0: the sum of the key's bytes, divided by how many halls
    /// there are, leaves it.
    pub fn of(&self, key: &Key) -> u8
        ensures hall { result ≡ hall_of self.now key.now }
        ensures below { result < self.now }
    {
        self.of_bytes(key.as_str().as_bytes())
    }

    /// The same of the key of that text.
    pub fn of_text(&self, key: &str) -> u8
        requires { is_key key.now ≡ true }
        ensures hall { result ≡ hall_of self.now key.now }
        ensures below { result < self.now }
    {
        self.of_bytes(key.as_bytes())
    }

    /// The number of the hall of the key of these bytes.
    fn of_bytes(&self, key: &[u8]) -> u8
        requires { length key.now ≤ key_limit }
        ensures hall { result ≡ hall_of self.now key.now }
        ensures below { result < self.now }
    {
        (total(key) % u32::from(self.count)) as u8
    }
}
