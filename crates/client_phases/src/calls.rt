//! Calls, and calls with the pair that they put.
ghost use Rattle.std.specs.Prelude.{◌≡◌, IfOk};
ghost use Rattle.std.specs.Cmp.{and_per, on_per};
ghost use Rattle.std.specs.Option.{option_copied};
ghost use Rattle.std.specs.Ordering.{eq_of_both, on};
ghost use Rattle.replica.specs.contracts.pairs.PairPartialEq.TheImpl.Laws as pair;
ghost use Rattle.client_phases.specs.Calls.{answer_from, put_of};
ghost use Rattle.client_phases.specs.contracts.calls.CallPartialEq.TheImpl.Laws as call;

use replica::{Pair, Request};
use std::marker::Model;
use tag::{Action, Key, Memory, OpId, Returned, Tag, Value};

/// A pending call.
#[derive(Debug, Drop, PartialEq, Eq)]
pub struct Call {
    pub op: OpId,
    pub key: Key,
    pub action: Action,
}

/// A call with the pair that it puts and answers from: a write's own value, or what a read found.
#[derive(Debug, Drop)]
pub struct Chosen {
    pub call: Call,
    pub tag: Tag,
    pub found: Option<Value>,
}

impl Model for Chosen {
    ghost use Rattle.client_phases.specs.Calls.{Chosen, value_to_put};

    ghost Value = { Chosen };

    ghost view = { λ c. record {
      call = c.call;
      pair = record {
        tag = c.tag;
        value = value_to_put
            c.call.action c.found;
      };
    } };
}

impl PartialEq for Chosen {
    ghost eq = { eq_of_both (on (λ c. c.call) ⟦<Call as PartialEq>⟧.eq) (on (λ c. c.pair) ⟦<Pair as PartialEq>⟧.eq) };

    ghost laws = { and_per (on_per (λ c. c.call) call.laws-law) (on_per (λ c. c.pair) pair.laws-law) };

    fn eq(&self, other: &Chosen) -> bool {
        self.call == other.call && (self.tag == other.tag && self.value() == other.value())
    }
}

impl Chosen {
    /// The value that it puts.
    fn value(&self) -> Option<&Value>
        ensures { option_copied result ≡ self.now.pair.value }
    {
        match &self.call.action {
            Action::Read => self.found.as_ref(),
            Action::Write(value) => Some(value),
        }
    }

    /// What it asks of replicas.
    pub(crate) fn request(&self) -> Result<Request, Memory>
        ensures { IfOk result (λ request. request ≡ put_of self.now) }
    {
        Ok(Request::Put {
            op: self.call.op,
            key: self.call.key.copy()?,
            tag: self.tag,
            value: Value::copy_of(self.value())?,
        })
    }

    /// A copy of its answer.
    pub(crate) fn answer(&self) -> Result<Returned, Memory>
        ensures { IfOk result (λ answer. answer ≡ answer_from self.now) }
    {
        match &self.call.action {
            Action::Read => Ok(Returned::Value(Value::copy_of(self.found.as_ref())?)),
            Action::Write(_) => Ok(Returned::Written),
        }
    }

    /// Its answer.
    pub(crate) fn into_answer(self) -> Returned
        ensures { result ≡ answer_from self }
    {
        match self.call.action {
            Action::Read => Returned::Value(self.found),
            Action::Write(_) => Returned::Written,
        }
    }
}
