//! Histories by hall.
ghost use Rattle.std.specs.Prelude.{◌≡◌, ◌<◌, ◌≤◌, ◌↔◌, length, IsSome, IfSome, IsTrue, Option, is_some};
ghost use Rattle.std.specs.Cmp.{and_per, on_per};
ghost use Rattle.std.specs.Cmp.Lexicographic.{lists_per, pointwise};
ghost use Rattle.std.specs.Ordering.{eq_of_both, on};
ghost use Rattle.quorum.specs.Quorums.{Quorums};
ghost use Rattle.quorum.specs.contracts.quorums.QuorumsPartialEq.TheImpl.Laws as quorums;
ghost use Rattle.tag.proofs.Equality.{option_per};
ghost use Rattle.recorder.specs.contracts.history.equal.HistoryPartialEq.TheImpl.Laws as history;
ghost use Rattle.recorder.specs.Halls.{AreHalls, AreOfTheirHalls, IsHallCount, IsHallOf, FallsTo};
ghost use Rattle.recorder.specs.Halls.{hall_limit, hall_calls};

use crate::halls::Halls;
use crate::history::History;
use crate::row::Row;
use quorum::Quorums;
use std::marker::Model;

/// The histories of a row of halls, and the quorums of the store that they are of, if these are
/// known.
///
/// There are 1 to 64, with at most 1,000,000 calls together. Each call's key is one of its hall's
/// (`Halls::of`), so no key is in two halls. Without quorums there is one hall.
#[derive(Debug, Drop)]
pub struct Histories {
    halls: Vec<History>,
    quorums: Option<Quorums>,
}

impl Model for Histories {
    ghost use Rattle.recorder.specs.Halls.{RecordedHalls};

    ghost Value = { RecordedHalls };

    ghost use Rattle.recorder.specs.Halls.{AreHalls};

    ghost view = { λ h. record { halls = h.halls.items; quorums = h.quorums } };

    ghost invariant = { λ h. AreHalls (record { halls = h.halls.items; quorums = h.quorums }) };
}

impl PartialEq for Histories {
    ghost eq = { eq_of_both (on (λ h. h.quorums) ⟦<Option<Quorums> as PartialEq>⟧.eq)
        (on (λ h. h.halls) (pointwise ⟦<History as PartialEq>⟧.eq)) };

    ghost laws = { and_per (on_per (λ h. h.quorums) (option_per ⟦<Quorums as PartialEq>⟧.eq
        quorums.laws-law)) (on_per (λ h. h.halls) (lists_per history.laws-law)) };

    fn eq(&self, other: &Histories) -> bool {
        self.quorums == other.quorums && self.halls == other.halls
    }
}

impl Histories {
    /// The histories by hall, hall 0 first. `None` comes exactly where they aren't 1 to 64, have
    /// more than 1,000,000 calls together, one has a call on another hall's key, or there are
    /// several and no quorums; the list is dropped then.
    pub fn new(halls: Vec<History>, quorums: Option<Quorums>) -> Option<Histories>
        ensures some { IsSome result
            ↔ AreHalls (record { halls = halls.items; quorums = quorums }) }
        ensures value { IfSome result
            (λ histories. histories ≡ record { halls = halls.items; quorums = quorums }) }
    {
        if are_halls(halls.as_slice(), quorums.is_some()) {
            Some(Histories { halls, quorums })
        } else {
            None
        }
    }

    /// The halls' histories, hall 0 first.
    pub fn halls(&self) -> &[History]
        ensures halls { result.now ≡ self.now.halls }
        ensures lawful { AreHalls self.now }
    {
        self.halls.as_slice()
    }

    /// The quorums of the store, if they are known.
    pub fn quorums(&self) -> Option<Quorums>
        ensures { result ≡ self.now.quorums }
    {
        self.quorums
    }
}

/// Whether the histories are those of a row of halls.
fn are_halls(histories: &[History], is_known: bool) -> bool
    ensures { (quorums : Option Quorums) → is_some quorums ≡ is_known → IsTrue result
        ↔ AreHalls (record { halls = histories.now; quorums = quorums }) }
{
    let count = histories.len();
    if count < 1 || count > 64 || count > 1 && !is_known {
        return false;
    }
    if hall_calls(histories) > 1_000_000 {
        return false;
    }
    match Halls::new(count as u8) {
        Some(halls) => are_of_their_halls(histories, halls),
        None => false,
    }
}

/// How many calls the histories have together.
fn hall_calls(histories: &[History]) -> usize
    requires { length histories.now ≤ hall_limit }
    ensures { result ≡ hall_calls histories.now }
{
    let mut total = 0;
    for (k, history) in histories.iter().enumerate() {
        total += history.calls();
    }
    total
}

/// Whether each history's calls are on keys of its hall.
fn are_of_their_halls(histories: &[History], halls: Halls) -> bool
    ensures { IsTrue result ↔ AreOfTheirHalls halls histories.now }
{
    for (k, history) in histories.iter().enumerate() {
        if !is_hall_of(history, halls, k) {
            return false;
        }
    }
    true
}

/// Whether the history's calls are on keys of that hall.
fn is_hall_of(history: &History, halls: Halls, hall: usize) -> bool
    ensures { IsTrue result ↔ IsHallOf halls hall history.now.rows }
{
    // All keys are of the only hall.
    if halls.count() == 1 && hall == 0 {
        return true;
    }
    for place in 0..history.row_count() {
        if !falls_to(&history.row(place), halls, hall) {
            return false;
        }
    }
    true
}

/// Whether the row, where it begins a call, is on a key of that hall.
fn falls_to(row: &Row<'_>, halls: Halls, hall: usize) -> bool
    ensures { IsTrue result ↔ FallsTo halls hall row.now }
{
    match row {
        Row::Invoke { key, .. } => usize::from(halls.of(key.key())) == hall,
        Row::Note { .. } | Row::Respond { .. } => true,
    }
}
