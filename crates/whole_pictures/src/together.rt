//! What is found of keys together.
ghost use Rattle.std.specs.Option.{option_or};
ghost use Rattle.std.specs.Prelude.{◌≡◌, [], ◌∷◌, ◌++◌, IfNone, IfOk, IfSome, None, Some, map};
ghost use Rattle.recorder.specs.declared.order.KeyOrder.{KeyOrder};
ghost use Rattle.parallel_keys.specs.KeysToCheck.{what_of};
ghost use Rattle.judged_keys.specs.Findings.{IsFinding};
ghost use Rattle.judged_keys.specs.Judgements.{judgement_of};
ghost use Rattle.draw_command.specs.Drawings.{IsDrawnOrder};
ghost use Rattle.whole_pictures.specs.Together.{IsOwnOrder, IsTogether};

use draw_command::drawn_order;
use judged_keys::{Judged, JudgedKey, find_each, judge};
use parallel_keys::KeyToCheck;
use recorder::{KeyOrder, Order};
use std::alloc::Global;
use tag::{Key, Memory, OpId};

/// What is found of keys together.
#[derive(Drop)]
pub(crate) enum Together<'a> {
    /// Each has an order: these.
    Ordered(Vec<KeyOrder>),
    /// This one is refused, and none before it; so many are refused in all.
    Refused(JudgedKey<'a>, usize),
    /// None is refused, and this one is the first that is undecided.
    Undecided(JudgedKey<'a>),
}

/// The order of these calls, under that name.
fn named_order(alloc: Global, key: &Key, calls: &[OpId]) -> Result<KeyOrder, Memory>
    ensures key { IfOk result (λ own. own.key ≡ key.now) }
    ensures order { IfOk result (λ own. own.order ≡ calls.now) }
{
    let calls = Vec::from_slice(alloc, calls)?;
    Ok(KeyOrder {
        key: key.copy()?,
        order: Order::from_vec(calls),
    })
}

/// The order whose points the key's own picture shows, if there is one.
fn own_order(alloc: Global, judged: Judged, key: &JudgedKey<'_>) -> Result<Option<KeyOrder>, Memory>
    requires { let j = judgement_of key.now in IsFinding judged j.one j.finding }
    ensures some { IfOk result
        (λ own. IfSome own (IsOwnOrder judged (what_of key.now.one.now))) }
    ensures none { IfOk result (λ own. IfNone own
        (let j = judgement_of key.now in IsDrawnOrder j.one j.finding None)) }
{
    let drawn = drawn_order(alloc, key)?;
    match drawn.given() {
        None => Ok(None),
        Some(calls) => Ok(Some(named_order(alloc, key.one.key, calls)?)),
    }
}

/// Keeps the key's order; or the key, if it has none and is the first such. The first that has none.
fn keep<'a>(
    orders: &mut Vec<KeyOrder>,
    undecided: Option<JudgedKey<'a>>,
    key: JudgedKey<'a>,
    own: Option<KeyOrder>,
) -> Result<Option<JudgedKey<'a>>, Memory>
    ensures some { IfOk result (λ now. (order : KeyOrder) → own ≡ Some order
        → (orders.new.items ≡ orders.old.items ++ order ∷ []) × (now ≡ undecided.entry)) }
    ensures none { IfOk result (λ now. own ≡ None
        → (orders.new.items ≡ orders.old.items)
        × (now ≡ option_or undecided.entry (Some key.entry))) }
{
    match own {
        Some(order) => {
            orders.push(order)?;
            Ok(undecided)
        }
        None => Ok(undecided.or(Some(key))),
    }
}

/// Judges the keys in turn, up to the first that is refused; if one is, all, to count those that are.
pub(crate) fn judge_together<'a>(
    alloc: Global,
    judged: Judged,
    keys: &'a [KeyToCheck<'a>],
) -> Result<Together<'a>, Memory>
    ensures { IfOk result (IsTogether judged (map what_of keys.now)) }
{
    let mut orders = Vec::with_capacity(alloc, keys.len())?;
    let mut undecided = None;
    for one in keys {
        let finding = judge(alloc, judged, one)?;
        let key = JudgedKey { one, finding };
        if finding.is_refused() {
            let all = find_each(alloc, judged, keys)?;
            return Ok(Together::Refused(key, all.refused));
        }
        let own = own_order(alloc, judged, &key)?;
        undecided = keep(&mut orders, undecided, key, own)?;
    }
    match undecided {
        None => Ok(Together::Ordered(orders)),
        Some(key) => Ok(Together::Undecided(key)),
    }
}
