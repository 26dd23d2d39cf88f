//! Numbers with commas.
ghost use Rattle.std.specs.Prelude.{◌≡◌, ◌++◌, ◌<◌, OnOk};
ghost use Rattle.fault_details.specs.Shown.{group, grouped};

use sentences::append_number;
use tag::Memory;

/// Adds three digits after a comma.
#[tactic(auto, unfolding(crate::specs::Shown::group))]
fn append_group(text: &mut Vec<u8>, number: u64) -> Result<(), Memory>
    ensures { OnOk result (text.new.items ≡ text.old.items ++ group number) }
{
    if number < 10 {
        append_number(text, ",00", number)
    } else if number < 100 {
        append_number(text, ",0", number)
    } else {
        append_number(text, ",", number)
    }
}

/// Adds a number of at least 1,000,000 and below 1,000,000,000,000, a comma before each three digits from the right.
#[tactic(auto, unfolding(crate::specs::Shown::grouped))]
fn append_great(text: &mut Vec<u8>, number: u64) -> Result<(), Memory>
    requires least { 999999 < number }
    requires most { number < 1000000000000 }
    ensures { OnOk result (text.new.items ≡ text.old.items ++ grouped number) }
{
    if number < 1_000_000_000 {
        append_number(text, "", number / 1_000_000)?;
    } else {
        append_number(text, "", number / 1_000_000_000)?;
        append_group(text, number / 1_000_000 % 1_000)?;
    }
    append_group(text, number / 1_000 % 1_000)?;
    append_group(text, number % 1_000)
}

/// Adds the number, a comma before each three digits from the right where it is below
/// 1,000,000,000,000.
#[tactic(auto, unfolding(crate::specs::Shown::grouped))]
pub(crate) fn append_grouped(text: &mut Vec<u8>, number: u64) -> Result<(), Memory>
    ensures { OnOk result (text.new.items ≡ text.old.items ++ grouped number) }
{
    if number < 1_000 {
        append_number(text, "", number)
    } else if number < 1_000_000 {
        append_number(text, "", number / 1_000)?;
        append_group(text, number % 1_000)
    } else if number < 1_000_000_000_000 {
        append_great(text, number)
    } else {
        append_number(text, "", number)
    }
}
