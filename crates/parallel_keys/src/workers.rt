//! How many threads check.
ghost use Rattle.std.specs.Prelude.{◌≡◌, ◌≤◌, ◌↔◌, IsSome, IfSome};
ghost use Rattle.parallel_keys.specs.Workers.{IsWorkerCount, worker_limit};

use std::marker::Model;

/// How many workers check the orders of keys, 1 to 16.
#[derive(Clone, Copy, Debug, PartialEq, Eq)]
pub struct Workers {
    count: u8,
}

impl Model for Workers {
    ghost use Rattle.std.specs.Prelude.{ℕ};

    ghost Value = { ℕ };

    ghost use Rattle.parallel_keys.specs.Workers.{IsWorkerCount};

    ghost view = { λ w. w.count };

    ghost invariant = { λ w. IsWorkerCount w.count };

    ghost inverse = { λ n. record { count = n } };
}

impl Workers {
    /// So many workers. `None` comes exactly where they aren't 1 to 16.
    pub fn new(count: u8) -> Option<Workers>
        ensures some { IsSome result ↔ IsWorkerCount count }
        ensures value { IfSome result (λ workers. workers ≡ count) }
    {
        if count >= 1 && count <= 16 {
            Some(Workers { count })
        } else {
            None
        }
    }

    /// How many workers there are, 1 to 16.
    pub fn count(&self) -> u8
        ensures count { result ≡ self.now }
        ensures least { 1 ≤ result }
        ensures most { result ≤ worker_limit }
    {
        self.count
    }
}
