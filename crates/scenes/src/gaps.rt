//! The gaps of a scene: calls that are left out.
ghost use Rattle.std.specs.Prelude.{◌≡◌, ◌≤◌, ◌++◌, length, IfOk, OnOk};
ghost use Rattle.scenes.specs.Gaps.{AreGaps, gap_between, gaps_from};
ghost use Rattle.scenes.specs.Scenes.{IsSelection};

use recorder::Part;
use std::alloc::Global;
use tag::Memory;

/// Calls that a picture leaves out, and none between them that it shows.
#[derive(Clone, Copy, Debug, PartialEq, Eq)]
pub struct Gap {
    /// The place at which the first of them begins.
    pub place: usize,
    /// How many they are.
    pub calls: usize,
}

/// Adds the calls from one index up to another, if there are any.
fn add_gap(gaps: &mut Vec<Gap>, part: &Part<'_>, from: usize, to: usize) -> Result<(), Memory>
    requires { to ≤ length part.now }
    ensures { OnOk result (gaps.new.items ≡ gaps.old.items ++ gap_between part.now from to) }
{
    if from < to {
        gaps.push(Gap {
            place: part.call(from).invoked,
            calls: to - from,
        })?;
    }
    Ok(())
}

/// The calls of the part that aren't shown, run by run.
pub(crate) fn gaps_of(alloc: Global, part: &Part<'_>, shown: &[usize]) -> Result<Vec<Gap>, Memory>
    requires { IsSelection part.now shown.now }
    ensures { IfOk result (λ gaps. AreGaps part.now shown.now gaps.items) }
{
    let calls = part.len();
    let mut gaps = Vec::new(alloc);
    let mut from = 0usize;
    for i in shown {
        add_gap(&mut gaps, part, from, *i)?;
        from = *i + 1;
    }
    add_gap(&mut gaps, part, from, calls)?;
    Ok(gaps)
}
