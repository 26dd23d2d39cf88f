//! The tag order of a part.
ghost use Rattle.std.specs.Prelude.{◌≡◌, ◌↔◌, Err, IfOk, MatchOption, IsPermutation, IsSorted, filter_map, map};
ghost use Rattle.tag.specs.declared.numbers.OpId.{OpId};
ghost use Rattle.recorder.specs.Parts.{IsSequence};
ghost use Rattle.recorder.specs.Sound.{IsByTag};
ghost use Rattle.witness_order.specs.Keys.{IsSortedByKeys, key_of, key_cmp};
ghost use Rattle.witness_order.specs.Notes.{AllNoted, IsLeastUnnoted};

use crate::WitnessError;
use crate::sort_key::{SortKey, sort_key};
use recorder::{Order, Part};
use std::alloc::{AllocError, Global};
use tag::{Memory, OpId};

/// The tag order of the part: its settled calls, which are the completed calls and the noted
/// pending writes, by tag, a write before a read of the same tag, then by place of invocation.
///
/// `NoNote` comes exactly where a completed call has no note, and names the least such call;
/// `Memory` only where each has one and an allocation was refused.
pub fn order_of(alloc: Global, part: &Part<'_>) -> Result<Order, WitnessError>
    ensures order { IfOk result (λ order. IsByTag part.now order) }
    ensures no_note { (op : OpId) → (result ≡ Err (WitnessError.NoNote op))
        ↔ IsLeastUnnoted part.now op }
    ensures memory { (result ≡ Err WitnessError.Memory) → AllNoted part.now }
    ensures sequence { IsSequence part.now }
{
    if let Some(op) = first_unnoted(part) {
        return Err(WitnessError::NoNote(op));
    }
    match sorted_order(alloc, part) {
        Ok(order) => Ok(order),
        Err(_) => Err(WitnessError::Memory),
    }
}

/// The numbers of the settled calls, sorted.
fn sorted_order(alloc: Global, part: &Part<'_>) -> Result<Order, Memory>
    ensures { IfOk result (λ order. IsSortedByKeys part.now order) }
{
    let keys = sorted_keys(alloc, part)?;
    Ok(Order::from_vec(numbers(alloc, &keys)?))
}

/// The least completed call without a note.
fn first_unnoted(part: &Part<'_>) -> Option<OpId>
    ensures first { MatchOption result (AllNoted part.now) (λ op. IsLeastUnnoted part.now op) }
    ensures sequence { IsSequence part.now }
{
    for k in 0..part.len() {
        let state = part.state(k);
        if state.response.is_some() && state.note.is_none() {
            return Some(part.op(k));
        }
    }
    None
}

/// What the settled calls are sorted by, sorted.
fn sorted_keys(alloc: Global, part: &Part<'_>) -> Result<Vec<SortKey>, AllocError>
    ensures settled { IfOk result (λ keys. IsPermutation (filter_map key_of part.now) keys.items) }
    ensures sorted { IfOk result (λ keys. IsSorted key_cmp keys.items) }
{
    let mut keys = sort_keys(alloc, part)?;
    keys.sort_unstable();
    Ok(keys)
}

/// What the settled calls are sorted by, in the order of the calls.
fn sort_keys(alloc: Global, part: &Part<'_>) -> Result<Vec<SortKey>, AllocError>
    ensures { IfOk result (λ keys. keys.items ≡ filter_map key_of part.now) }
{
    let mut keys = Vec::new(alloc);
    for k in 0..part.len() {
        if let Some(key) = sort_key(part.op(k), &part.state(k)) {
            keys.push(key)?;
        }
    }
    Ok(keys)
}

/// The numbers of the calls that have these keys.
fn numbers(alloc: Global, keys: &[SortKey]) -> Result<Vec<OpId>, AllocError>
    ensures { IfOk result (λ ops. ops.items ≡ map (λ key. key.op) keys.now) }
{
    keys.iter().map(|key| key.op).collect(alloc)
}
