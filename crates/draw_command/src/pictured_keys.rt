//! The keys that have pictures, and why they are refused.
ghost use Rattle.std.specs.Option.{option_map};
ghost use Rattle.std.specs.Prelude.{◌≡◌, All, IfOk, map, slice_get};
ghost use Rattle.judged_keys.specs.Halls.{HasLinesOfEach};
ghost use Rattle.judged_keys.specs.Judgements.{judgement_of};
ghost use Rattle.draw_command.specs.Drawings.{IsDrawable};
ghost use Rattle.draw_command.specs.PicturedKeys.{IsExplained, faulty_in, judged_in};

use crate::why::{Why, why_of};
use explanations::HallRows;
use history_file::NumberedHistories;
use judged_keys::{JudgedKey, hall_of};
use std::alloc::Global;
use tag::{Memory, OpId};

/// A key that has a picture.
#[derive(Drop)]
pub(crate) struct PicturedKey<'a> {
    pub(crate) key: &'a JudgedKey<'a>,
    /// The rows of its hall.
    pub(crate) hall: HallRows<'a>,
    /// Why it is refused; nothing if it isn't.
    pub(crate) why: Why,
}

/// The keys, each with the rows of its hall, and with why it is refused.
pub(crate) fn pictured_keys<'a>(
    alloc: Global,
    numbered: &'a NumberedHistories,
    keys: &'a [JudgedKey<'a>],
) -> Result<Vec<PicturedKey<'a>>, Memory>
    requires lines { HasLinesOfEach numbered.now }
    requires drawable { All IsDrawable (map judgement_of keys.now) }
    ensures keys { IfOk result
        (λ pictured. map judged_in pictured.items ≡ map judgement_of keys.now) }
    ensures explained { IfOk result (λ pictured. All (IsExplained numbered.now) pictured.items) }
{
    let mut pictured = Vec::with_capacity(alloc, keys.len())?;
    for key in keys {
        let hall = hall_of(numbered, key.one.key);
        let why = why_of(alloc, &hall, key)?;
        pictured.push(PicturedKey { key, hall, why })?;
    }
    Ok(pictured)
}

/// The calls that show why the key of that number is refused, if it has a picture.
pub(crate) fn faulty_at<'a>(pictured: &'a [PicturedKey<'_>], n: usize) -> Option<&'a [OpId]>
    ensures { option_map (λ calls. calls.now) result ≡ slice_get (map faulty_in pictured.now) n }
{
    match pictured.get(n) {
        None => None,
        Some(own) => Some(own.why.faulty.as_slice()),
    }
}
