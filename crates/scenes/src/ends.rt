//! Where bars end: those of pending calls, if lanes may share columns, at the last of their marks.
ghost use Rattle.std.specs.Prelude.{ℕ, ◌≡◌, ◌<◌, length, IfOk, Contains, map};
ghost use Rattle.std.specs.List.Sorted.{IsStrictlyIncreasing};
ghost use Rattle.scenes.specs.declared.scene.Dot.{Dot};
ghost use Rattle.scenes.specs.Ends.{AreEnded, AreReaching, first_end, reached};
ghost use Rattle.scenes.specs.Scenes.{AreBarsOf, AreDotsOf, HasCallOf, IsRisingListOf, IsSelection};

use crate::bars::bars_of;
use crate::columns::OWN_COLUMNS;
use crate::dots::dots_of;
use crate::{Bar, Dot};
use recorder::{History, Part};
use std::alloc::Global;
use tag::{ClientId, Memory, OpId};

/// Bars, and the dots on them.
#[derive(Debug, Drop)]
pub(crate) struct DottedBars {
    pub(crate) bars: Vec<Bar>,
    pub(crate) dots: Vec<Dot>,
}

/// Where a bar of so many lanes ends: at its call's response; or, if it has none and lanes may share
/// columns, at its begin or its note.
pub(crate) fn first_end(
    lanes: usize,
    answered: Option<usize>,
    begins: usize,
    note: Option<usize>,
) -> Option<usize>
    ensures { result ≡ first_end lanes answered begins note }
{
    if answered.is_some() {
        return answered;
    }
    if lanes <= OWN_COLUMNS {
        None
    } else {
        Some(begins.max(note.unwrap_or(begins)))
    }
}

/// The end of the bar, which isn't before that place if it is a pending call's and has one.
fn reached(answered: Option<usize>, ends: Option<usize>, place: usize) -> Option<usize>
    ensures { result ≡ reached answered ends place }
{
    match (answered, ends) {
        (None, Some(end)) => Some(end.max(place)),
        (Some(_), _) | (_, None) => ends,
    }
}

/// Lets the bars of pending calls that have an end reach to their dots.
fn reach_dots(bars: &mut Vec<Bar>, dots: &[Dot])
    requires { (dot : Dot) → Contains dots.now dot → dot.bar < length bars.old.items }
    ensures { AreReaching dots.now bars.old.items bars.new.items }
{
    for dot in dots {
        let bar = bars[dot.bar];
        bars[dot.bar] = Bar {
            ends: reached(bar.answered, bar.ends, dot.place),
            ..bar
        };
    }
}

/// The bars of the shown calls in these lanes, and the dots of an order on them.
pub(crate) fn dotted_bars(
    alloc: Global,
    history: &History,
    part: &Part<'_>,
    shown: &[usize],
    lanes: &[ClientId],
    order: &[OpId],
    points: &[usize],
) -> Result<DottedBars, Memory>
    requires shown { IsSelection part.now shown.now }
    requires lanes { IsRisingListOf (HasCallOf part.now shown.now) lanes.now }
    ensures bars { IfOk result
        (λ all. AreBarsOf part.now shown.now history.now.rows lanes.now all.bars.items) }
    ensures calls { IfOk result
        (λ all. IsStrictlyIncreasing (map (λ bar. bar.call.0) all.bars.items)) }
    ensures dots { IfOk result
        (λ all. AreDotsOf order.now points.now all.bars.items all.dots.items) }
    ensures ends { IfOk result
        (λ all. AreEnded all.dots.items (length lanes.now) all.bars.items) }
{
    let _sequence = part.len();
    let mut bars = bars_of(alloc, history, part, shown, lanes)?;
    let dots = dots_of(alloc, &bars, order, points)?;
    reach_dots(&mut bars, &dots);
    Ok(DottedBars { bars, dots })
}
