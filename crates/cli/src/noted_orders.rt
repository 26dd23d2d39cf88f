//! The orders that the notes of a history give its keys, each checked.
ghost use Rattle.std.specs.Prelude.{◌≡◌, ◌++◌, [], List, false, map, IfOk, IfErr, OnOk};
ghost use Rattle.counted_devices.specs.DeviceStates.{states};
ghost use Rattle.parallel_keys.specs.CheckedKeys.{all_parts};
ghost use Rattle.cli.specs.FailureLines.{failure_line};
ghost use Rattle.cli.specs.Justifications.{AreJustified, KeyPart, IsJustifiedOrder, IsUnjustified};
ghost use Rattle.cli.specs.Justifications.{IsFirstUnjustified, Refuses, refusal_text};
ghost use Rattle.cli.specs.Justifications.{status_of_refusal};
ghost use Rattle.cli.specs.Devices.{ReceivesOrFails};

use crate::outcome::{Found, Outcome};
use crate::status::{Failure, Status};
use crate::verdict_lines::append_fault;
use certificate_check::{Fault, Verdict, check_part};
use counted_devices::{CountedWrite, write_text};
use recorder::{KeyOrder, Part, Parts};
use sentences::{append, append_number};
use std::alloc::{AllocFailed, Global};
use tag::{Key, Memory, OpId};
use witness_order::{WitnessError, order_of};

/// Why a history's keys have no orders.
#[derive(Clone, Copy, Debug)]
pub enum Unjustified<'k> {
    /// That completed call on the key has no note; the least such call.
    NoNote { key: &'k Key, op: OpId },
    /// The key's tag order is no order of its calls, for that fault.
    NoOrder { key: &'k Key, fault: Fault },
    /// An allocation was refused.
    Memory,
}

impl Unjustified<'_> {
    /// Adds why to the text, a line.
    pub(crate) fn append_to(self, text: &mut Vec<u8>) -> Result<(), Memory>
        ensures { OnOk result (text.new.items ≡ text.old.items ++ refusal_text self.entry) }
    {
        match self {
            Unjustified::NoNote { key, op } => {
                append(text, "abd: key ")?;
                append(text, key.as_str())?;
                append_number(text, ": no note for call ", u64::from(op.0))?;
                append(text, "\n")
            }
            Unjustified::NoOrder { key, fault } => {
                append(text, "abd: key ")?;
                append(text, key.as_str())?;
                append(text, ": no ")?;
                append_fault(text, fault)?;
                append(text, "\n")
            }
            Unjustified::Memory => append(text, "abd: no memory\n"),
        }
    }

    /// The status that the program ends with.
    pub fn status(self) -> Status
        ensures { result ≡ status_of_refusal self.entry }
    {
        match self {
            Unjustified::NoNote { .. } | Unjustified::NoOrder { .. } => Status::Refused,
            Unjustified::Memory => Status::Failed,
        }
    }

    /// Says why on the writer, one line, and answers its status; out of memory it says that, and answers
    /// `Failed`. What the writer refuses is lost, as there is nowhere else to say it.
    pub fn report<E: CountedWrite>(self, alloc: Global, errors: &mut E) -> Status
        ensures refuses { Refuses self.entry
            (states E.contents E.failures errors.old errors.new) result }
        ensures memory { result ≡ Status.Failed
            → ReceivesOrFails (states E.contents E.failures errors.old errors.new)
            (failure_line Failure.Memory) }
    {
        let mut text = Vec::new(alloc);
        if self.append_to(&mut text).is_err() {
            return Failure::Memory.report(errors);
        }
        let _ = write_text(text.as_slice(), errors);
        self.status()
    }

    /// The outcome of a justification that ends so: no text, and why in a line.
    pub(crate) fn outcome(self, alloc: Global) -> Result<Outcome, Memory>
        ensures bad { IfOk result (λ outcome. outcome.found ≡ Found.Refused) }
        ensures refused { OnOk result (status_of_refusal self.entry ≡ Status.Refused) }
        ensures quiet { IfOk result (λ outcome. outcome.text.items ≡ []) }
        ensures line { IfOk result (λ outcome. outcome.notes.items ≡ refusal_text self.entry) }
    {
        if let Unjustified::Memory = self {
            return Err(Memory);
        }
        let mut notes = Vec::new(alloc);
        self.append_to(&mut notes)?;
        Ok(Outcome {
            text: Vec::new(alloc),
            notes,
            found: Found::Refused,
        })
    }
}

impl From<Memory> for Unjustified<'_> {
    ghost use Rattle.std.specs.Prelude.{◌≡◌};
    ghost use Rattle.cli.specs.declared.noted_orders.Unjustified.TheVariants.{Memory};

    ghost from_gives = { λ _ e. e ≡ Memory };

    fn from(_: Memory) -> Self {
        Unjustified::Memory
    }
}

impl<'k, T: Drop> From<AllocFailed<T>> for Unjustified<'k> {
    ghost use Rattle.std.specs.Prelude.{◌≡◌};
    ghost use Rattle.cli.specs.declared.noted_orders.Unjustified.TheVariants.{Memory};

    ghost from_gives = { λ _ e. e ≡ Memory };

    fn from(_: AllocFailed<T>) -> Self {
        Unjustified::Memory
    }
}

/// The key's tag order, where it is an order of its calls.
fn checked_order<'k>(
    alloc: Global,
    key: &'k Key,
    part: &Part<'_>,
) -> Result<KeyOrder, Unjustified<'k>>
    ensures order { IfOk result (IsJustifiedOrder (key.now, part.now)) }
    ensures refused { IfErr result (IsUnjustified (key.now, part.now)) }
{
    let order = match order_of(alloc, part) {
        Ok(order) => order,
        Err(WitnessError::NoNote(op)) => return Err(Unjustified::NoNote { key, op }),
        Err(WitnessError::Memory) => return Err(Unjustified::Memory),
    };
    match check_part(alloc, part, order.as_slice())? {
        Verdict::Yes => Ok(KeyOrder {
            key: key.copy()?,
            order,
        }),
        Verdict::No(fault) => Err(Unjustified::NoOrder { key, fault }),
    }
}

/// Adds the tag order of each key, the keys in their order there.
fn add_orders<'k>(
    alloc: Global,
    orders: &mut Vec<KeyOrder>,
    parts: &'k Parts<'k>,
) -> Result<(), Unjustified<'k>>
    ensures orders { OnOk result ((before : List KeyPart) → AreJustified before orders.old.items
        → AreJustified (before ++ parts.now.entries) orders.new.items) }
    ensures refused { IfErr result (λ refusal. (before behind : List KeyPart)
        → AreJustified before orders.old.items
        → IsFirstUnjustified (before ++ (parts.now.entries ++ behind)) refusal) }
{
    for place in 0..parts.len() {
        let (key, part) = parts.entry(place);
        orders.push(checked_order(alloc, key.key(), &part)?)?;
    }
    Ok(())
}

/// The tag order of each key of the parts, the halls one after another and the keys in their order
/// there.
///
/// It ends at the first key that has none, or whose tag order is no order of its calls; `Memory`
/// comes only where an allocation was refused.
pub fn checked_orders<'k>(
    alloc: Global,
    parts: &'k [Parts<'k>],
) -> Result<Vec<KeyOrder>, Unjustified<'k>>
    ensures orders { IfOk result (λ orders.
        AreJustified (all_parts (map (λ p. p.entries) parts.now)) orders.items) }
    ensures refused { IfErr result
        (IsFirstUnjustified (all_parts (map (λ p. p.entries) parts.now))) }
{
    let mut orders = Vec::new(alloc);
    for own in parts {
        add_orders(alloc, &mut orders, own)?;
    }
    Ok(orders)
}
