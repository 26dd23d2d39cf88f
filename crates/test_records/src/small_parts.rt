//! The check beside the plain slow one, on each order of each small part.

use crate::plain_check::slow_verdict;
use certificate_check::{Verdict, check_part};
use recorder::{History, Part};
use std::alloc::Global;
use tag::{Action, ClientId, Key, OpId, Returned, Value};

/// One of the few things that a call may ask and be answered, and when.
#[derive(Clone, Copy)]
struct Choice {
    /// 0 and 1 write one of two values, 2 to 4 read.
    kind: u32,
    /// The response stands before the invocation of this later call; none: the call is pending.
    before: Option<u32>,
}

/// How many choices there are for a call that has so many places for its response.
fn choices_of(places: u32) -> u32 {
    places.saturating_mul(5).saturating_add(3)
}

/// The choice of that number for call `i`: the first three are pending calls, the others completed ones.
fn choice_of(number: u32, i: u32) -> Choice {
    match number.checked_sub(3) {
        None => Choice {
            kind: number,
            before: None,
        },
        Some(completed) => Choice {
            kind: completed % 5,
            before: Some(i.saturating_add(completed / 5)),
        },
    }
}

fn text_of(kind: u32) -> &'static str {
    if kind % 2 == 0 { "a" } else { "b" }
}

fn action_of(alloc: Global, kind: u32) -> Option<Action> {
    if kind < 2 {
        Some(Action::Write(Value::new(alloc, text_of(kind)).ok()?))
    } else {
        Some(Action::Read)
    }
}

fn answer_of(alloc: Global, kind: u32) -> Option<Returned> {
    match kind {
        0 | 1 => Some(Returned::Written),
        2 => Some(Returned::Value(None)),
        _ => Some(Returned::Value(Some(Value::new(alloc, text_of(kind)).ok()?))),
    }
}

/// The answer of a call comes, if it stands before the invocation of call `i + 1`.
fn respond(alloc: Global, history: &mut History, call: u32, choice: Choice, i: u32) -> Option<()> {
    if choice.before != Some(i) {
        return Some(());
    }
    let returned = answer_of(alloc, choice.kind)?;
    history.respond(OpId(call), returned).ok()
}

/// Answers the earlier calls whose response stands before the invocation of call `i + 1`.
fn respond_all(alloc: Global, history: &mut History, choices: &[Choice], i: u32) -> Option<()> {
    let mut call = 0u32;
    for choice in choices {
        respond(alloc, history, call, *choice, i)?;
        call = call.saturating_add(1);
    }
    Some(())
}

/// Begins call `i`, by a client of its own.
fn invoke(alloc: Global, history: &mut History, i: u32, kind: u32) -> Option<()> {
    let client = ClientId::new(i.saturating_add(1)).ok()?;
    let key = Key::new(alloc, "x").ok()?;
    match action_of(alloc, kind) {
        Some(action) => history.invoke(client, key, action).ok().map(|_| ()),
        None => None,
    }
}

/// The choices of the calls of the part of that number: those of later calls than it has are pending.
fn choices_for(number: u32, count: u32) -> [Choice; 4] {
    let mut choices = [choice_of(0, 0); 4];
    let mut rest = number;
    let mut i = 0u32;
    for choice in choices.iter_mut() {
        let all = choices_of(count.saturating_sub(i)).max(1);
        *choice = choice_of(rest % all, i);
        rest /= all;
        i = i.saturating_add(1);
    }
    choices
}

/// Records the calls of the part of that number.
fn record(alloc: Global, history: &mut History, number: u32, count: u32) -> Option<()> {
    let choices = choices_for(number, count);
    for i in 0..count.min(4) {
        let place = i as usize;
        invoke(alloc, history, i, choices[place].kind)?;
        respond_all(alloc, history, &choices[..place + 1], i)?;
    }
    Some(())
}

/// The history with the part of that number, of so many calls.
fn small_history(alloc: Global, number: u32, count: u32) -> Option<History> {
    let mut history = History::new(alloc, 10);
    record(alloc, &mut history, number, count)?;
    Some(history)
}

/// How many orders were compared, on how many the checks differ, and to how many both say yes.
#[derive(Clone, Copy)]
pub struct Compared {
    pub parts: u32,
    pub orders: u32,
    pub differ: u32,
    pub yes: u32,
}

impl Compared {
    pub fn none() -> Compared {
        Compared {
            parts: 0,
            orders: 0,
            differ: 0,
            yes: 0,
        }
    }

    /// Counts the two verdicts on one more order.
    fn count(&mut self, fast: Verdict, slow: Verdict) {
        self.orders = self.orders.saturating_add(1);
        if fast != slow {
            self.differ = self.differ.saturating_add(1);
        } else if fast == Verdict::Yes {
            self.yes = self.yes.saturating_add(1);
        }
    }
}

/// The order of that number, of four calls; `base` numbers are told apart.
fn order_of(number: u32, base: u32) -> [OpId; 4] {
    let mut order = [OpId(0); 4];
    let mut rest = number;
    for op in order.iter_mut() {
        *op = OpId(rest % base.max(1));
        rest /= base.max(1);
    }
    order
}

/// Compares both checks on an order.
fn compare_order(
    alloc: Global,
    part: &Part<'_>,
    order: &[OpId],
    compared: &mut Compared,
) -> Option<()> {
    let fast = check_part(alloc, part, order).ok()?;
    compared.count(fast, slow_verdict(part, order));
    Some(())
}

/// Compares both checks on each order of up to four numbers, one of which the part lacks.
fn compare_orders(
    alloc: Global,
    part: &Part<'_>,
    count: u32,
    compared: &mut Compared,
) -> Option<()> {
    let base = count.saturating_add(1);
    let mut all = 1u32;
    for length in 0..5usize {
        for number in 0..all {
            let order = order_of(number, base);
            compare_order(alloc, part, &order[..length.min(4)], compared)?;
        }
        all = all.saturating_mul(base);
    }
    Some(())
}

/// Compares both checks on the part of that number with so many calls: the only part of its history, or the
/// empty one.
fn compare_part(alloc: Global, number: u32, count: u32, compared: &mut Compared) -> Option<()> {
    let history = small_history(alloc, number, count)?;
    let parts = history.parts().ok()?;
    if parts.len() == 0 {
        compare_orders(alloc, &Part::empty(), count, compared)
    } else {
        let (_, part) = parts.entry(0);
        compare_orders(alloc, &part, count, compared)
    }
}

/// Compares both checks on the first `all` parts with so many calls.
pub fn compare_parts(alloc: Global, count: u32, all: u32, compared: &mut Compared) -> Option<()> {
    for number in 0..all {
        compare_part(alloc, number, count, compared)?;
        compared.parts = compared.parts.saturating_add(1);
    }
    Some(())
}
