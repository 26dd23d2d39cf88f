//! The scene of a key.
ghost use Rattle.std.specs.Option.{ForSome, option_map};
ghost use Rattle.std.specs.Prelude.{◌≡◌, [], IfOk, IfSome, map, unwrap_or};
ghost use Rattle.std.specs.List.Sorted.{IsStrictlyIncreasing};
ghost use Rattle.recorder.specs.Orders.{IsOrder};
ghost use Rattle.recorder.specs.Sound.{IsByTag, TagSound};
ghost use Rattle.linearization_points.specs.Points.{AreApart};
ghost use Rattle.judged_keys.specs.Findings.{IsAtomic, IsSo};
ghost use Rattle.judged_keys.specs.FoundOrders.{IsFoundOrder};
ghost use Rattle.judged_keys.specs.Judgements.{judgement_of};
ghost use Rattle.draw_command.specs.Drawings.{AreDrawnPoints, IsBrokenArrow, IsDrawable, IsDrawnOrder};
ghost use Rattle.draw_command.specs.Drawings.{IsKeyScene};
ghost use Rattle.draw_command.specs.Drawings.{IsArrowAlong, order_in, refused_order};

use crate::drawn::Drawn;
use certificate_check::Fault;
use explanations::HallRows;
use judged_keys::{Finding, JudgedKey, decide_key};
use linearization_points::points_of;
use recorder::{Order, Part};
use scenes::{Arrow, Bar, Scene, arrow_between, scene_of, shown_calls, window_around};
use std::alloc::Global;
use tag::{Memory, OpId};
use value_order::Decision;
use witness_order::{WitnessError, order_of};

/// The order whose points are drawn.
#[derive(Drop)]
pub enum DrawnOrder<'a> {
    /// The one that is the key's.
    Given(&'a [OpId]),
    /// The one that its tags make, or that is found by its values.
    Made(Order),
    /// None.
    Nothing,
}

impl DrawnOrder<'_> {
    /// Its calls; of none no call.
    fn calls(&self) -> &[OpId]
        ensures { result.now ≡ unwrap_or (order_in self.now) [] }
    {
        match self {
            DrawnOrder::Given(order) => order,
            DrawnOrder::Made(order) => order.as_slice(),
            DrawnOrder::Nothing => &[],
        }
    }

    /// Its calls, if it is one.
    pub fn given(&self) -> Option<&[OpId]>
        ensures { option_map (λ calls. calls.now) result ≡ order_in self.now }
    {
        match self {
            DrawnOrder::Given(order) => Some(order),
            DrawnOrder::Made(order) => Some(order.as_slice()),
            DrawnOrder::Nothing => None,
        }
    }

    /// Its points in the part.
    fn points(&self, alloc: Global, part: &Part<'_>) -> Result<Vec<usize>, Memory>
        requires apart { AreApart part.now }
        requires order { ForSome (order_in self.now) (IsOrder part.now) }
        ensures { IfOk result
            (λ points. AreDrawnPoints part.now (order_in self.now) points.items) }
    {
        match self {
            DrawnOrder::Given(order) => points_of(alloc, part, order),
            DrawnOrder::Made(order) => points_of(alloc, part, order.as_slice()),
            DrawnOrder::Nothing => Ok(Vec::new(alloc)),
        }
    }
}

/// The order that the sound tags make.
fn tag_order(alloc: Global, part: &Part<'_>) -> Result<Order, Memory>
    requires { TagSound part.now }
    ensures by_tag { IfOk result (λ order. IsByTag part.now order) }
    ensures order { IfOk result (λ order. IsOrder part.now order) }
{
    match order_of(alloc, part) {
        Ok(order) => Ok(order),
        Err(WitnessError::NoNote(_)) => unreachable!(),
        Err(WitnessError::Memory) => Err(Memory),
    }
}

/// The order that is found of these calls by their values.
fn found_order(alloc: Global, part: &Part<'_>) -> Result<Order, Memory>
    requires { IsAtomic part.now }
    ensures found { IfOk result (λ order. IsFoundOrder part.now order) }
    ensures order { IfOk result (λ order. IsOrder part.now order) }
{
    match decide_key(alloc, part)? {
        Decision::Atomic(order) => Ok(order),
        Decision::NotAtomic(_) => unreachable!(),
        Decision::Undecided(_) => unreachable!(),
    }
}

/// The order whose points are drawn of the key: of one that is refused or undecided none.
pub fn drawn_order<'a>(alloc: Global, key: &JudgedKey<'a>) -> Result<DrawnOrder<'a>, Memory>
    requires { let j = judgement_of key.now in IsSo j.one j.finding }
    ensures chosen { IfOk result (λ drawn. let j = judgement_of key.now in
        IsDrawnOrder j.one j.finding (order_in drawn)) }
    ensures order { IfOk result
        (λ drawn. IfSome (order_in drawn) (IsOrder key.now.one.now.part)) }
{
    match key.finding {
        Finding::Ordered => Ok(DrawnOrder::Given(key.one.order)),
        Finding::Sound => Ok(DrawnOrder::Made(tag_order(alloc, &key.one.part)?)),
        Finding::Atomic => Ok(DrawnOrder::Made(found_order(alloc, &key.one.part)?)),
        _ => Ok(DrawnOrder::Nothing),
    }
}

/// The key's order if it is refused.
pub(crate) fn refused_order<'a>(key: &JudgedKey<'a>) -> &'a [OpId]
    ensures { let j = judgement_of key.now in result.now ≡ refused_order j.one j.finding }
{
    match key.finding {
        Finding::OrderFault(_) => key.one.order,
        _ => &[],
    }
}

/// The arrow between the calls of these places in the order, if it has them and both have bars.
fn arrow_along(order: &[OpId], bars: &[Bar], from: usize, to: usize) -> Option<Arrow>
    requires { IsStrictlyIncreasing (map (λ bar. bar.call.0) bars.now) }
    ensures { IsArrowAlong order.now bars.now from to result }
{
    let Some(first) = order.get(from) else {
        return None;
    };
    let Some(later) = order.get(to) else {
        return None;
    };
    arrow_between(bars, *first, *later)
}

/// The arrow between the calls whose precedence the key's order breaks, if it is refused for that and
/// both have bars.
pub(crate) fn broken_arrow(key: &JudgedKey<'_>, bars: &[Bar]) -> Option<Arrow>
    requires { IsStrictlyIncreasing (map (λ bar. bar.call.0) bars.now) }
    ensures { let j = judgement_of key.now in IsBrokenArrow j.one j.finding bars.now result }
{
    match key.finding {
        Finding::OrderFault(Fault::OrderBroken(later, first)) => {
            arrow_along(key.one.order, bars, first, later)
        }
        _ => None,
    }
}

/// The scene of the key, in which the calls are shown that show why it is refused.
pub(crate) fn scene_of_key(
    alloc: Global,
    drawn: &Drawn<'_>,
    hall: &HallRows<'_>,
    key: &JudgedKey<'_>,
    faulty: &[OpId],
) -> Result<Scene, Memory>
    requires { IsDrawable (judgement_of key.now) }
    ensures { IfOk result (IsKeyScene drawn.now hall.now (judgement_of key.now) faulty.now) }
{
    let part = &key.one.part;
    let order = drawn_order(alloc, key)?;
    let points = order.points(alloc, part)?;
    let window = window_around(part, drawn.calls as usize, drawn.center(faulty));
    let shown = shown_calls(alloc, part, window, faulty)?;
    scene_of(
        alloc,
        hall.history,
        part,
        shown.as_slice(),
        order.calls(),
        points.as_slice(),
    )
}
