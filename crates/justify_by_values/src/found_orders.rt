//! The orders that are found of keys by their values.
ghost use Rattle.std.specs.Prelude.{◌≡◌, ◌||◌, [], List, IfOk, OnOk, map, not};
ghost use Rattle.parallel_keys.specs.KeysToCheck.{what_of};
ghost use Rattle.value_order.specs.declared.decision.Decision.TheVariants as decision;
ghost use Rattle.justify_by_values.specs.Decided.{AreDecided, DecidedKey};
ghost use Rattle.justify_by_values.specs.Gathered.{AreGathered, Gathers, LeavesOut};
ghost use Rattle.justify_by_values.specs.OrdersByValues.{IsJustified, found_if, written_if};

use cli::{Found, Outcome, order_file};
use explain_command::append_finding;
use judged_keys::{Finding, decide_key};
use parallel_keys::KeyToCheck;
use recorder::{KeyOrder, Order};
use std::alloc::Global;
use tag::{Key, Memory};
use value_order::Decision;

/// The orders of keys that have one, and what is said of the others.
#[derive(Debug, Drop)]
pub(crate) struct FoundOrders {
    orders: Vec<KeyOrder>,
    /// A line for each key that has none.
    left_out: Vec<u8>,
    /// Whether one of these is refused.
    refused: bool,
    /// Whether one of these is undecided.
    undecided: bool,
}

impl FoundOrders {
    /// Those of no key.
    fn new(alloc: Global) -> FoundOrders
        ensures { AreGathered [] result }
    {
        FoundOrders {
            orders: Vec::new(alloc),
            left_out: Vec::new(alloc),
            refused: false,
            undecided: false,
        }
    }

    /// Adds the key's order.
    #[tactic(auto, using(crate::proofs::Gathering::order_added))]
    fn add_order(&mut self, key: &Key, order: Order) -> Result<(), Memory>
        ensures { OnOk result (Gathers key.now (decision.Atomic order) self.old self.new) }
    {
        let key = key.copy()?;
        self.orders.push(KeyOrder { key, order })?;
        Ok(())
    }

    /// Adds the line that says what was found of the key.
    fn leave_out(&mut self, key: &Key, finding: Finding) -> Result<(), Memory>
        ensures { OnOk result (LeavesOut key.now finding self.old self.new) }
    {
        append_finding(&mut self.left_out, key, finding)?;
        self.refused |= finding.is_refused();
        self.undecided |= finding.is_undecided();
        Ok(())
    }

    /// Adds what was found of the key: its order, or the line that says why it has none.
    #[tactic(auto, using(crate::proofs::Gathering::refused_left_out, crate::proofs::Gathering::undecided_left_out))]
    fn add(&mut self, key: &Key, decided: Decision) -> Result<(), Memory>
        ensures { OnOk result (Gathers key.now decided self.old self.new) }
    {
        match decided {
            Decision::Atomic(order) => self.add_order(key, order),
            Decision::NotAtomic(fault) => self.leave_out(key, Finding::ValueFault(fault)),
            Decision::Undecided(doubt) => self.leave_out(key, Finding::Undecided(doubt)),
        }
    }

    /// Those of the keys, each of which is decided once.
    pub(crate) fn of_keys(alloc: Global, keys: &[KeyToCheck<'_>]) -> Result<FoundOrders, Memory>
        ensures { IfOk result (λ gathered. (all : List DecidedKey)
            × AreDecided (map what_of keys.now) all × AreGathered all gathered) }
    {
        let mut gathered = FoundOrders::new(alloc);
        for one in keys {
            gathered.add(one.key, decide_key(alloc, &one.part)?)?;
        }
        Ok(gathered)
    }

    /// What was found of all.
    fn found(&self) -> Found
        ensures { result ≡ found_if self.now.refused self.now.undecided }
    {
        if self.refused {
            Found::Refused
        } else if self.undecided {
            Found::Undecided
        } else {
            Found::Good
        }
    }

    /// The order file, which is empty if a key has no order, unless orders go `unchecked`.
    fn text(&self, alloc: Global, unchecked: bool) -> Result<Vec<u8>, Memory>
        ensures { IfOk result (λ text. text.items ≡ written_if
            (unchecked || not (self.now.refused || self.now.undecided)) self.now.orders.items) }
    {
        if unchecked || !(self.refused || self.undecided) {
            order_file(alloc, self.orders.as_slice())
        } else {
            Ok(Vec::new(alloc))
        }
    }

    /// The order file, and for standard error the lines. If there is one, the file is empty, unless orders go
    /// `unchecked`.
    pub(crate) fn outcome(self, alloc: Global, unchecked: bool) -> Result<Outcome, Memory>
        ensures { IfOk result (λ outcome. (all : List DecidedKey) → AreGathered all self
            → IsJustified unchecked all outcome) }
    {
        let found = self.found();
        let text = self.text(alloc, unchecked)?;
        Ok(Outcome {
            text,
            notes: self.left_out,
            found,
        })
    }
}
