//! The kept writes of each value.
ghost use Rattle.std.specs.Prelude.{◌≡◌, ◌⊎◌, ℕ, List, Some, None, IsSome, MatchBool, OnOk};
ghost use Rattle.kept_writers.specs.Candidates.{begin_at};
ghost use Rattle.kept_writers.specs.Ends.{number_at};
ghost use Rattle.kept_writers.specs.Written.{AreNone, AreSome, HasBegin, HasEnd, IsNew, LacksEnd, Written};
ghost use Rattle.monitored_key.specs.Indexes.{written_or_none};
ghost use Rattle.monitored_key.specs.Maps.{Lacks, Sets, text_at};

use kept_writers::Writers;
use std::alloc::Global;
use std::collections::BTreeMap;
use tag::Memory;

/// A map from values to their kept writes.
pub(crate) type ByValue = BTreeMap<String, Writers>;

/// Adds the first write of a value.
fn add_first(
    values: &mut ByValue,
    alloc: Global,
    text: &str,
    number: u32,
    place: u64,
) -> Result<(), Memory>
    ensures { OnOk result ((w : Written)
        × HasBegin (written_or_none None) number place w
        × Sets (text_at values.old) text.now w (text_at values.new)) }
{
    let mut writers = Writers::new(alloc);
    writers.add(number, place)?;
    values.insert(String::from_str(alloc, text)?, writers)?;
    Ok(())
}

/// Adds a write of the value.
pub(crate) fn add_writer(
    values: &mut ByValue,
    alloc: Global,
    text: &str,
    number: u32,
    place: u64,
) -> Result<(), Memory>
    requires { (w : Written) → text_at values.old text.now ≡ Some w → IsNew w number }
    ensures { OnOk result ((w : Written)
        × HasBegin (written_or_none (text_at values.old text.now)) number place w
        × Sets (text_at values.old) text.now w (text_at values.new)) }
{
    if let Some(writers) = values.get_mut(text) {
        return writers.add(number, place);
    }
    add_first(values, alloc, text, number, place)
}

/// The write of the value has the end.
pub(crate) fn end_writer(
    values: &mut ByValue,
    text: &str,
    number: u32,
    end: u64,
) -> Result<(), Memory>
    requires there { (w : Written) × (text_at values.old text.now ≡ Some w)
        × IsSome (begin_at w.begins number) × (number_at w.ends end ≡ None) }
    ensures { (w : Written) → text_at values.old text.now ≡ Some w → OnOk result ((new : Written)
        × HasEnd w number end new × Sets (text_at values.old) text.now new (text_at values.new)) }
{
    match values.get_mut(text) {
        Some(writers) => writers.end(number, end),
        None => unreachable!(),
    }
}

/// Takes the write of that end out, and says whether the value has others.
fn forget_among(values: &mut ByValue, text: &str, end: u64) -> bool
    requires there { (w : Written) × (text_at values.old text.now ≡ Some w)
        × IsSome (number_at w.ends end) }
    ensures { (w : Written) → text_at values.old text.now ≡ Some w → (new : Written)
        × LacksEnd w end new × Sets (text_at values.old) text.now new (text_at values.new)
        × MatchBool result (AreNone new) (AreSome new) }
{
    match values.get_mut(text) {
        Some(writers) => {
            writers.forget(end);
            writers.is_empty()
        }
        None => unreachable!(),
    }
}

/// Forgets the write of that end; a value without writes goes.
pub(crate) fn forget_writer(values: &mut ByValue, text: &str, end: u64)
    requires there { (w : Written) × (text_at values.old text.now ≡ Some w)
        × IsSome (number_at w.ends end) }
    ensures { (w : Written) → text_at values.old text.now ≡ Some w → (new : Written)
        × LacksEnd w end new × ((AreNone new × Lacks (text_at values.old) text.now (text_at values.new))
        ⊎ (AreSome new × Sets (text_at values.old) text.now new (text_at values.new))) }
{
    if forget_among(values, text, end) {
        values.remove(text);
    }
}
