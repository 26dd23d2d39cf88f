//! A replica: a pair for each key.
ghost use Rattle.std.specs.Prelude.{◌≡◌, ◌==◌, false, IfOk, IsOk, OnOk, OnErr};
ghost use Rattle.std.specs.Option.{option_copied};
ghost use Rattle.std.specs.FinMap as finite;
ghost use Rattle.std.specs.Cmp.{and_per, nat_eq_equiv, on_per, partial_equiv_from_equiv};
ghost use Rattle.std.specs.Cmp.Lexicographic.{lists_per, pointwise};
ghost use Rattle.std.specs.Ordering.{eq_of_both, is_lt, on};
ghost use Rattle.tag.specs.contracts.names.KeyPartialEq.TheImpl.Laws as key;
ghost use Rattle.replica.specs.contracts.pairs.PairPartialEq.TheImpl.Laws as pair;
ghost use Rattle.tag.specs.Tags.{tag_cmp};
ghost use Rattle.replica.specs.Pairs.{pair_of, adopt};
ghost use Rattle.replica.specs.Replicas.{TakesNoMemory, replica_after, reply_of};

use crate::{Pair, Reply, Request};
use std::alloc::Global;
use std::collections::BTreeMap;
use std::marker::Model;
use tag::{Key, Memory, ReplicaId, Tag, Value};

/// A replica, seen as its number and its pair of each key.
///
/// Its pairs are ordered by key. A key which nobody wrote has the least tag and is absent.
#[derive(Debug, Drop)]
pub struct Replica {
    number: ReplicaId,
    pairs: BTreeMap<Key, Pair>,
}

impl Model for Replica {
    ghost use Rattle.std.specs.Prelude.{ℕ, refl};
    ghost use Rattle.std.specs.Coded.{code_by, coded×, coded_ℕ, coded_list};
    ghost use Rattle.std.specs.FinMap as finite;
    ghost use Rattle.replica.specs.contracts.pairs.Pair as pair;
    ghost use Rattle.replica.specs.Pairs.{Pairs};
    ghost use Rattle.replica.specs.Replicas.{Replica};

    ghost Value = { Replica };

    ghost coded = { code_by (ℕ × Pairs)
        (coded× coded_ℕ (finite.code (coded_list coded_ℕ) pair.the_row.coded))
        (λ r. (r.number, r.pairs)) (λ p. record { number = p.0; pairs = p.1 }) (λ _. refl) };

    ghost view = { λ r. record { number = r.number; pairs = finite.from_entries r.pairs.entries } };
}

impl PartialEq for Replica {
    ghost eq = { eq_of_both (on (λ r. r.number) ◌==◌)
        (on (λ r. finite.entries r.pairs)
        (pointwise (eq_of_both (on (λ p. p.0) ⟦<Key as PartialEq>⟧.eq)
        (on (λ p. p.1) ⟦<Pair as PartialEq>⟧.eq)))) };

    ghost laws = { and_per (on_per (λ r. r.number) (partial_equiv_from_equiv nat_eq_equiv)) (on_per
        (λ r. finite.entries r.pairs) (lists_per
        (and_per (on_per (λ p. p.0) key.laws-law) (on_per (λ p. p.1) pair.laws-law)))) };

    fn eq(&self, other: &Replica) -> bool {
        if self.number != other.number || self.pairs.len() != other.pairs.len() {
            return false;
        }
        self.pairs == other.pairs
    }
}

impl Replica {
    /// A replica of that number to which nothing was written.
    pub fn new(alloc: Global, number: ReplicaId) -> Replica
        ensures { result ≡ record { number = number; pairs = finite.empty } }
    {
        Replica {
            number,
            pairs: BTreeMap::new(alloc),
        }
    }

    /// The number.
    pub fn number(&self) -> ReplicaId
        ensures { result ≡ self.now.number }
    {
        self.number
    }

    /// The tag and the value of its pair of the key: (0, 0) and absent if nothing was adopted.
    pub fn held(&self, key: &Key) -> (Tag, Option<&Value>)
        ensures tag { result.0 ≡ (pair_of self.now.pairs key.now).tag }
        ensures value { option_copied result.1 ≡ (pair_of self.now.pairs key.now).value }
    {
        match self.pairs.get(key) {
            Some(pair) => (pair.tag, pair.value.as_ref()),
            None => (Tag::least(), None),
        }
    }

    /// What it answers to the request, after it adopted what is put if that has the greater tag.
    ///
    /// Only the key that is put can change. Where memory was refused nothing changed; none is taken
    /// if there is nothing to copy.
    pub fn handle(&mut self, request: &Request) -> Result<Reply, Memory>
        ensures answer { IfOk result (λ reply. reply ≡ reply_of self.old request.now) }
        ensures after { OnOk result (self.new ≡ replica_after self.old request.now) }
        ensures spare { TakesNoMemory self.old.pairs request.now → IsOk result }
        ensures err { OnErr result (self.new ≡ self.old) }
    {
        match request {
            Request::Query { op, key } => {
                let (tag, value) = self.held(key);
                Ok(Reply::Held {
                    op: *op,
                    replica: self.number,
                    tag,
                    value: Value::copy_of(value)?,
                })
            }
            Request::Put {
                op,
                key,
                tag,
                value,
            } => {
                self.adopt(key, *tag, value.as_ref())?;
                Ok(Reply::Kept {
                    op: *op,
                    replica: self.number,
                })
            }
        }
    }

    fn adopt(&mut self, key: &Key, tag: Tag, value: Option<&Value>) -> Result<(), Memory>
        ensures ok { OnOk result (self.new
            ≡ record self.old {
              pairs = adopt self.old.pairs key.now
                  (record { tag = tag; value = option_copied value.entry });
            }) }
        ensures spare { is_lt (tag_cmp (pair_of self.old.pairs key.now).tag tag) ≡ false
            → IsOk result }
        ensures err { OnErr result (self.new ≡ self.old) }
    {
        if self.held(key).0 >= tag {
            return Ok(());
        }
        let pair = Pair {
            tag,
            value: Value::copy_of(value)?,
        };
        self.pairs.insert(key.copy()?, pair)?;
        Ok(())
    }
}
