//! Which calls a picture shows, in ranges.
ghost use Rattle.std.specs.Prelude.{◌≡◌, ◌∷◌, ◌++◌, OnOk};
ghost use Rattle.markup.specs.Markup.{rendered};
ghost use Rattle.draw_command.specs.Ranges.{is_between, is_cut, range_markup, ranges_markup};
ghost use Rattle.draw_command.specs.Ranges.{ranges_of};

use crate::words;
use markup::{append_number, append_text};
use scenes::{Bar, Gap};
use tag::Memory;

/// Whether the gap lies between the begins of two bars.
fn is_between(gap: &Gap, one: Bar, next: Bar) -> bool
    ensures { result ≡ is_between one next gap.now }
{
    one.begins < gap.place && gap.place < next.begins
}

/// Whether calls are left out between the two bars.
fn is_cut(gaps: &[Gap], one: Bar, next: Bar) -> bool
    ensures { result ≡ is_cut gaps.now one next }
{
    gaps.iter().any(|gap| is_between(gap, one, next))
}

/// Adds the numbers of the calls of a range: the first and the last, or one if they are the same.
#[tactic(auto, unfolding(markup::specs::Markup::rendered))]
fn append_range(page: &mut Vec<u8>, first: Bar, last: Bar) -> Result<(), Memory>
    ensures { OnOk result (page.new.items ≡ page.old.items ++ rendered (range_markup (first, last))) }
{
    append_number(page, u64::from(first.call.0))?;
    if first.call.0 == last.call.0 {
        return Ok(());
    }
    append_text(page, words::TO)?;
    append_number(page, u64::from(last.call.0))
}

/// Adds the ranges of a bar and of those that follow it.
fn append_from(page: &mut Vec<u8>, gaps: &[Gap], first: Bar, rest: &[Bar]) -> Result<(), Memory>
    ensures { OnOk result (page.new.items ≡ page.old.items
        ++ rendered (ranges_markup (ranges_of gaps.now (first ∷ rest.now)))) }
{
    let (mut from, mut to) = (first, first);
    for bar in rest {
        if is_cut(gaps, to, *bar) {
            append_range(page, from, to)?;
            append_text(page, words::AND)?;
            from = *bar;
        }
        to = *bar;
    }
    append_range(page, from, to)
}

/// Adds the ranges of the bars.
#[tactic(auto, unfolding(markup::specs::Markup::rendered))]
pub(crate) fn append_ranges(page: &mut Vec<u8>, bars: &[Bar], gaps: &[Gap]) -> Result<(), Memory>
    ensures { OnOk result (page.new.items
        ≡ page.old.items ++ rendered (ranges_markup (ranges_of gaps.now bars.now))) }
{
    match bars.split_first() {
        None => append_text(page, words::NO_CALL),
        Some((first, rest)) => append_from(page, gaps, *first, rest),
    }
}
