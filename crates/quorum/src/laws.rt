//! Laws of the definitions, each the contract of a function that does nothing.
ghost use Rattle.std.specs.Prelude.{◌≡◌, ℕ, List, false, ◌+◌, ◌<◌, ◌≤◌, ◌↔◌, length, slice_index};
ghost use Rattle.std.specs.FinSet as finite;
ghost use Rattle.tag.specs.Limits.{replica_limit};
ghost use Rattle.quorum.specs.Quorums.{Quorums, IsLawful, IsAskQuorum, IsPutQuorum, Share, majority_of, votes_of};
ghost use Rattle.quorum.specs.Sets.{IsOfFirst, IsMajority, Replicas};

/// An ask quorum and a put quorum share a replica.
pub fn quorums_share_a_replica()
    ensures { (quorums : Quorums) (asked put : Replicas)
        → IsLawful quorums → IsAskQuorum quorums asked → IsPutQuorum quorums put
        → Share quorums asked put }
{}

/// Two majorities of the same replicas share one of them.
pub fn majorities_share_a_replica()
    ensures { (n : ℕ) (some other : Replicas)
        → IsOfFirst n some → IsMajority n some → IsOfFirst n other → IsMajority n other
        → Share (majority_of n) some other }
{}

/// Where each of n replicas has one vote, and more than half of them make a quorum, the quorums are
/// the majorities.
pub fn majorities_are_quorums()
    ensures lawful { (n : ℕ) → 1 ≤ n → n ≤ replica_limit → IsLawful (majority_of n) }
    ensures ask { (n : ℕ) (set : Replicas) → IsOfFirst n set
        → IsMajority n set ↔ IsAskQuorum (majority_of n) set }
    ensures put { (n : ℕ) (set : Replicas) → IsOfFirst n set
        → IsMajority n set ↔ IsPutQuorum (majority_of n) set }
{}

/// A replica that comes to a set brings its votes.
pub fn a_replica_brings_its_votes()
    ensures { (votes : List ℕ) (set : Replicas) (replica : ℕ)
        → replica < length votes → finite.contains set replica ≡ false
        → votes_of votes (finite.insert set replica)
        ≡ votes_of votes set + slice_index votes replica }
{}
