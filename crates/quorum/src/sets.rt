//! Sets of replicas.
ghost use Rattle.std.specs.Prelude.{◌≡◌, ◌<◌, ◌≤◌, ◌↔◌, IsTrue};
ghost use Rattle.std.specs.FinSet as finite;
ghost use Rattle.tag.specs.Limits.{replica_limit};
ghost use Rattle.quorum.specs.Sets.{IsMajority};

use std::marker::Model;
use tag::ReplicaId;

/// A set of replicas.
#[derive(Clone, Copy, Debug, PartialEq, Eq)]
pub struct ReplicaSet {
    bits: u16,
}

impl Model for ReplicaSet {
    ghost use Rattle.std.specs.Prelude.{◌<◌, ◌^◌};
    ghost use Rattle.quorum.specs.Sets.{Replicas, replicas_code};
    ghost use Rattle.quorum.specs.Bits.{set_of_bits, bits_of_set, same_bits};

    ghost Value = { Replicas };

    ghost coded = { replicas_code };

    ghost view = { λ s. set_of_bits 15 s.bits };

    ghost invariant = { λ s. s.bits < 2 ^ 15 };

    ghost inverse = { λ set. record { bits = bits_of_set 15 set } };

    ghost inverse_ok = { λ s h i. record { bits = same_bits s.bits h i } };
}

impl ReplicaSet {
    /// The set without a replica.
    pub fn empty() -> ReplicaSet
        ensures { result ≡ finite.empty }
    {
        ReplicaSet { bits: 0 }
    }

    /// Adds the replica. A set that has it stays as it is.
    pub fn add(&mut self, replica: ReplicaId)
        ensures { self.new ≡ finite.insert self.old replica }
    {
        self.bits |= 1 << replica.get();
    }

    /// Whether the replica is in the set.
    pub fn contains(self, replica: ReplicaId) -> bool
        ensures { result ≡ finite.contains self replica }
    {
        self.has(usize::from(replica.get()))
    }

    pub(crate) fn has(self, number: usize) -> bool
        requires { number < replica_limit }
        ensures { result ≡ finite.contains self number }
    {
        self.bits >> number & 1 == 1
    }

    /// How many replicas are in the set.
    pub fn count(self) -> u8
        ensures size { result ≡ finite.len self }
        ensures most { result ≤ replica_limit }
    {
        self.bits.count_ones() as u8
    }

    /// Whether the set has more than half of so many replicas.
    pub fn is_majority(self, replicas: u8) -> bool
        ensures { IsTrue result ↔ IsMajority replicas self }
    {
        2 * u16::from(self.count()) > u16::from(replicas)
    }
}
