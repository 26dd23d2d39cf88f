//! Sets of clients.
ghost use Rattle.std.specs.Prelude.{ℕ, ◌≡◌, [], cond, nat_eq, true, false, IfOk, OnOk, OnErr};
ghost use Rattle.recorder.specs.Clients.{is_marked};

use std::alloc::Global;
use std::marker::Model;
use tag::{ClientId, Memory};

/// A set of clients: a mark for each name up to the greatest that was ever put in.
///
/// A look-up takes the same time however many there are. There are 65,535 names at most.
#[derive(Debug, Drop)]
pub(crate) struct ClientSet {
    marks: Vec<bool>,
}

impl Model for ClientSet {
    ghost use Rattle.std.specs.Prelude.{List, Bool};

    ghost Value = { List Bool };

    ghost view = { λ s. s.marks.items };
}

impl ClientSet {
    /// No client.
    pub(crate) fn new(alloc: Global) -> ClientSet
        ensures { result ≡ [] }
    {
        ClientSet {
            marks: Vec::new(alloc),
        }
    }

    /// The same clients.
    pub(crate) fn copy(&self) -> Result<ClientSet, Memory>
        ensures { IfOk result (λ clients. clients ≡ self.now) }
    {
        let alloc = *self.marks.allocator();
        Ok(ClientSet {
            marks: Vec::from_slice(alloc, &self.marks)?,
        })
    }

    /// Whether the client is one of them.
    pub(crate) fn contains(&self, client: ClientId) -> bool
        ensures { result ≡ is_marked self.now client }
    {
        let place = client.get() as usize;
        place < self.marks.len() && self.marks[place]
    }

    /// Puts the client in. On `Memory` nothing changed.
    pub(crate) fn insert(&mut self, client: ClientId) -> Result<(), Memory>
        ensures ok { OnOk result ((other : ℕ) → is_marked self.new other
            ≡ cond (nat_eq client other) true (is_marked self.old other)) }
        ensures err { OnErr result ((other : ℕ)
            → is_marked self.new other ≡ is_marked self.old other) }
    {
        let place = client.get() as usize;
        if place >= self.marks.len() {
            self.marks.resize(place + 1, false)?;
        }
        self.marks[place] = true;
        Ok(())
    }

    /// Removes the client.
    pub(crate) fn remove(&mut self, client: ClientId)
        ensures { (other : ℕ) → is_marked self.new other
            ≡ cond (nat_eq client other) false (is_marked self.old other) }
    {
        let place = client.get() as usize;
        if place < self.marks.len() {
            self.marks[place] = false;
        }
    }
}
