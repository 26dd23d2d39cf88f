//! Which of a part's calls a picture shows.
ghost use Rattle.std.specs.Prelude.{ℕ, ◌≡◌, ◌<◌, ◌≤◌, ◌-◌, ◌/◌, ◌↔◌, min, Some, Contains};
ghost use Rattle.std.specs.Prelude.{IfOk, IfSome, IfNone};
ghost use Rattle.tag.specs.declared.numbers.OpId.{OpId};
ghost use Rattle.certificate_check.specs.Places.{HasOpAt};
ghost use Rattle.scenes.specs.Scenes.{IsRisingListOf, IsSelection};
ghost use Rattle.scenes.specs.Windows.{IsInWindow, IsToShow, IsWindowAround};

use certificate_check::find_call;
use recorder::Part;
use std::alloc::Global;
use tag::{Memory, OpId};

/// A range of a part's calls: `count` of them from the index `first` on.
#[derive(Clone, Copy, Debug, PartialEq, Eq)]
pub struct Window {
    pub first: usize,
    pub count: usize,
}

/// The window of `count` calls, or as many as there are, that has that call as near to its middle
/// as the ends of the part allow. Without a call, or if the part hasn't got it, the first `count`.
pub fn window_around(part: &Part<'_>, count: usize, around: Option<OpId>) -> Window
    ensures { IsWindowAround part.now count around result }
{
    let calls = part.len();
    let count = count.min(calls);
    let first = first_about(index_of(part, around), count, calls);
    Window { first, count }
}

/// Where a window of `count` of so many calls begins that has the call at that index near its
/// middle.
fn first_about(at: Option<usize>, count: usize, calls: usize) -> usize
    requires { count ≤ calls }
    ensures some { IfSome at (λ k. result ≡ min (k - count / 2) (calls - count)) }
    ensures none { IfNone at (result ≡ 0) }
{
    match at {
        Some(k) => k.saturating_sub(count / 2).min(calls - count),
        None => 0,
    }
}

/// The index of the call of that number, if there is one.
fn index_of(part: &Part<'_>, op: Option<OpId>) -> Option<usize>
    ensures found { IfSome result (λ k. (o : OpId) × (op ≡ Some o) × HasOpAt part.now k o) }
    ensures none { IfNone result ((o : OpId) (k : ℕ) → op ≡ Some o → HasOpAt part.now k o → ⊥) }
{
    match op {
        Some(op) => find_call(part, op),
        None => None,
    }
}

/// The indexes of the part's calls that lie in the window or are among those to be kept, each once,
/// in rising order.
///
/// It takes time in proportion to their count and the logarithm of the part's, and answers `Memory`
/// only where an allocation was refused.
pub fn shown_calls(
    alloc: Global,
    part: &Part<'_>,
    window: Window,
    kept: &[OpId],
) -> Result<Vec<usize>, Memory>
    ensures calls { IfOk result (λ shown.
        IsRisingListOf (IsToShow part.now window kept.now) shown.items) }
    ensures selection { IfOk result (λ shown. IsSelection part.now shown.items) }
{
    let mut shown = indexes_of(alloc, part, window, kept)?;
    shown.sort_unstable();
    shown.dedup();
    Ok(shown)
}

/// The same, in any order.
fn indexes_of(
    alloc: Global,
    part: &Part<'_>,
    window: Window,
    kept: &[OpId],
) -> Result<Vec<usize>, Memory>
    ensures { IfOk result (λ indexes. (i : ℕ)
        → Contains indexes.items i ↔ IsToShow part.now window kept.now i) }
{
    let mut indexes = indexes_in(alloc, part.len(), window)?;
    for op in kept {
        if let Some(k) = find_call(part, *op) {
            indexes.push(k)?;
        }
    }
    Ok(indexes)
}

/// The indexes in the window that are below that count.
fn indexes_in(alloc: Global, count: usize, window: Window) -> Result<Vec<usize>, Memory>
    ensures { IfOk result (λ indexes. (i : ℕ)
        → Contains indexes.items i ↔ ((i < count) × IsInWindow window i)) }
{
    let some = window.count.min(count.saturating_sub(window.first));
    let mut indexes = Vec::with_capacity(alloc, some)?;
    for i in window.first..window.first + some {
        indexes.push(i)?;
    }
    Ok(indexes)
}
