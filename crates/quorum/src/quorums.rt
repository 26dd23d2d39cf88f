//! Quorums by votes.
ghost use Rattle.std.specs.Prelude.{◌≡◌, ◌+◌, ◌-◌, ◌/◌, ◌<◌, ◌≤◌, ◌↔◌, ◌++◌, length, replicate};
ghost use Rattle.std.specs.Prelude.{sum, All, IsTrue, IsSome, IfSome};
ghost use Rattle.tag.specs.Limits.{replica_limit};
ghost use Rattle.quorum.specs.Quorums.{IsLawful, IsAskQuorum, IsPutQuorum, majority_of, votes_of};

use crate::ReplicaSet;
use std::marker::Model;

/// How many votes each replica has, and how many end an asking and a putting.
///
/// There are 1 to 15 replicas with 1 to 9 votes each. An ask quorum has at least `ask` votes, a put
/// quorum at least `put`. Both can be reached, and together they are more than all votes, so that an
/// ask quorum and a put quorum share a replica.
#[derive(Clone, Copy, Debug, PartialEq, Eq)]
pub struct Quorums {
    replicas: usize,
    votes: [u8; 15],
    ask: u8,
    put: u8,
}

impl Model for Quorums {
    ghost use Rattle.std.specs.Prelude.{take};
    ghost use Rattle.quorum.specs.Quorums.{Quorums};

    ghost Value = { Quorums };

    ghost use Rattle.quorum.specs.Padding.{IsStored, row_of, same_votes};

    ghost view = { λ q. record { votes = take q.replicas q.votes; ask = q.ask; put = q.put } };

    ghost invariant = { IsStored };

    ghost inverse = { row_of };

    ghost inverse_ok = { same_votes };
}

fn total(votes: &[u8]) -> u16
    requires { length votes.now ≤ replica_limit }
    ensures { result ≡ sum votes.now }
{
    votes.iter().map(|votes| u16::from(*votes)).sum()
}

fn are_votes(votes: &[u8]) -> bool
    ensures { IsTrue result ↔ All (λ v. (1 ≤ v) × (v ≤ 9)) votes.now }
{
    votes.iter().all(|votes| *votes >= 1 && *votes <= 9)
}

fn is_lawful(votes: &[u8], ask: u8, put: u8) -> bool
    ensures { IsTrue result ↔ IsLawful (record { votes = votes.now; ask = ask; put = put }) }
{
    if votes.is_empty() || votes.len() > 15 || !are_votes(votes) {
        return false;
    }
    let (total, ask, put) = (total(votes), u16::from(ask), u16::from(put));
    ask >= 1 && ask <= total && put >= 1 && put <= total && ask + put > total
}

fn votes_of(votes: &[u8], set: ReplicaSet) -> u8
    requires few { length votes.now ≤ replica_limit }
    requires small { All (λ v. (1 ≤ v) × (v ≤ 9)) votes.now }
    ensures { result ≡ votes_of votes.now set }
{
    let mut total = 0;
    for (number, votes) in votes.iter().enumerate() {
        if set.has(number) {
            total += *votes;
        }
    }
    total
}

fn pad_votes(votes: &[u8]) -> [u8; 15]
    requires { length votes.now ≤ replica_limit }
    ensures { result ≡ votes.now ++ replicate (15 - length votes.now) 0 }
{
    let mut padded = [0; 15];
    padded[..votes.len()].copy_from_slice(votes);
    padded
}

impl Quorums {
    /// The quorums of these votes, one number a replica. `None` comes exactly outside the rules: 1 to
    /// 15 replicas, 1 to 9 votes each, `ask` and `put` at least 1 and at most all votes, and more
    /// than all votes together.
    pub fn new(votes: &[u8], ask: u8, put: u8) -> Option<Quorums>
        ensures some { IsSome result
            ↔ IsLawful (record { votes = votes.now; ask = ask; put = put }) }
        ensures value { IfSome result
            (λ quorums. quorums ≡ record { votes = votes.now; ask = ask; put = put }) }
    {
        if is_lawful(votes, ask, put) {
            Some(Quorums {
                replicas: votes.len(),
                votes: pad_votes(votes),
                ask,
                put,
            })
        } else {
            None
        }
    }

    /// One vote for each of so many replicas, and more than half of them for both quorums.
    pub fn majority(replicas: u8) -> Quorums
        requires least { 1 ≤ replicas }
        requires most { replicas ≤ replica_limit }
        ensures { result ≡ majority_of replicas }
    {
        let replicas = usize::from(replicas);
        let half = replicas as u8 / 2;
        Quorums {
            replicas,
            votes: pad_votes(&[1; 15][..replicas]),
            ask: half + 1,
            put: half + 1,
        }
    }

    /// How many replicas there are.
    pub fn replicas(&self) -> u8
        ensures count { result ≡ length self.now.votes }
        ensures lawful { IsLawful self.now }
        ensures least { 1 ≤ result }
        ensures most { result ≤ replica_limit }
    {
        self.replicas as u8
    }

    /// How many votes an ask quorum has at least.
    pub fn ask(&self) -> u8
        ensures { result ≡ self.now.ask }
    {
        self.ask
    }

    /// How many votes a put quorum has at least.
    pub fn put(&self) -> u8
        ensures { result ≡ self.now.put }
    {
        self.put
    }

    /// How many votes the set has. A replica whose number isn't below the count has none.
    pub fn votes(&self, set: &ReplicaSet) -> u8
        ensures { result ≡ votes_of self.now.votes set.now }
    {
        votes_of(&self.votes[..self.replicas], *set)
    }

    /// Whether the set is an ask quorum.
    pub fn is_ask(&self, set: &ReplicaSet) -> bool
        ensures { IsTrue result ↔ IsAskQuorum self.now set.now }
    {
        self.votes(set) >= self.ask
    }

    /// Whether the set is a put quorum.
    pub fn is_put(&self, set: &ReplicaSet) -> bool
        ensures { IsTrue result ↔ IsPutQuorum self.now set.now }
    {
        self.votes(set) >= self.put
    }
}
