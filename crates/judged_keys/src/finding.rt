//! What judging keys finds.
ghost use Rattle.std.specs.Prelude.{◌≡◌, ◌∷◌, ◌++◌, [], IfOk, OnOk, if◌then◌else◌, map};
ghost use Rattle.parallel_keys.specs.KeysToCheck.{what_of};
ghost use Rattle.judged_keys.specs.Findings.{IsFinding, is_refused, is_undecided};
ghost use Rattle.judged_keys.specs.Judgements.{AreFindingsOf};
ghost use Rattle.judged_keys.specs.declared.judged.Judged.TheVariants as judged;

use crate::by_values::by_values;
use crate::judged::Judged;
use certificate_check::{Fault, Verdict, check_part};
use parallel_keys::KeyToCheck;
use std::alloc::Global;
use tag::Memory;
use tag_check::{BrokenRule, check_tags};
use value_order::{Doubt, ValueFault};

/// What was found of a key.
#[derive(Clone, Copy, Debug)]
pub enum Finding {
    /// Its order is one of its calls.
    Ordered,
    /// Its order has this fault.
    OrderFault(Fault),
    /// The tags of its calls are sound.
    Sound,
    /// The tags of its calls break this rule.
    TagFault(BrokenRule),
    /// Its calls have an order, by their values or by their tags.
    Atomic,
    /// Its calls have no order, which this fault of their values shows.
    ValueFault(ValueFault),
    /// A read has two writers, the values have no fault, and the tags make no order.
    Undecided(Doubt),
}

impl Finding {
    /// Whether the key is refused.
    pub fn is_refused(self) -> bool
        ensures { result ≡ is_refused self }
    {
        match self {
            Finding::OrderFault(_) | Finding::TagFault(_) | Finding::ValueFault(_) => true,
            _ => false,
        }
    }

    /// Whether the key is undecided.
    pub fn is_undecided(self) -> bool
        ensures { result ≡ is_undecided self }
    {
        match self {
            Finding::Undecided(_) => true,
            _ => false,
        }
    }
}

/// A key that was judged.
#[derive(Clone, Copy, Debug)]
pub struct JudgedKey<'a> {
    pub one: &'a KeyToCheck<'a>,
    pub finding: Finding,
}

/// Judges the key by its order.
fn by_order(alloc: Global, one: &KeyToCheck<'_>) -> Result<Finding, Memory>
    ensures { IfOk result (IsFinding judged.Orders (what_of one.now)) }
{
    match check_part(alloc, &one.part, one.order)? {
        Verdict::Yes => Ok(Finding::Ordered),
        Verdict::No(fault) => Ok(Finding::OrderFault(fault)),
    }
}

/// Judges the key by the tags of its calls.
fn by_tags(alloc: Global, one: &KeyToCheck<'_>) -> Result<Finding, Memory>
    ensures { IfOk result (IsFinding judged.Tags (what_of one.now)) }
{
    match check_tags(alloc, &one.part)? {
        None => Ok(Finding::Sound),
        Some(rule) => Ok(Finding::TagFault(rule)),
    }
}

/// Judges the key: whether all is as it should be, or it is refused or undecided.
///
/// It takes `n log n` steps for a key of `n` calls, its order among them; `Memory` comes only where an
/// allocation was refused.
pub fn judge(alloc: Global, judged: Judged, one: &KeyToCheck<'_>) -> Result<Finding, Memory>
    ensures { IfOk result (IsFinding judged (what_of one.now)) }
{
    match judged {
        Judged::Orders => by_order(alloc, one),
        Judged::Tags => by_tags(alloc, one),
        Judged::Values => by_values(alloc, one),
    }
}

/// Judged keys, those that are refused first.
#[derive(Drop)]
pub struct Findings<'a> {
    pub keys: Vec<JudgedKey<'a>>,
    /// How many are refused.
    pub refused: usize,
    /// Whether one is undecided.
    pub undecided: bool,
}

/// Adds the key to those that are refused, or to the others.
fn part<'a>(
    refused: &mut Vec<JudgedKey<'a>>,
    others: &mut Vec<JudgedKey<'a>>,
    key: JudgedKey<'a>,
) -> Result<(), Memory>
    ensures refused { OnOk result (refused.new.items ≡ refused.old.items
        ++ (if is_refused key.entry.finding then key.entry ∷ [] else [])) }
    ensures others { OnOk result (others.new.items ≡ others.old.items
        ++ (if is_refused key.entry.finding then [] else key.entry ∷ [])) }
{
    if key.finding.is_refused() {
        refused.push(key)?;
    } else {
        others.push(key)?;
    }
    Ok(())
}

/// Judges each key, once, and puts those first that are refused.
pub fn find_each<'a>(
    alloc: Global,
    judged: Judged,
    keys: &'a [KeyToCheck<'a>],
) -> Result<Findings<'a>, Memory>
    ensures { IfOk result (AreFindingsOf judged (map what_of keys.now)) }
{
    let mut refused = Vec::new(alloc);
    let mut others = Vec::new(alloc);
    let mut undecided = false;
    for one in keys {
        let finding = judge(alloc, judged, one)?;
        part(&mut refused, &mut others, JudgedKey { one, finding })?;
        undecided |= finding.is_undecided();
    }
    let count = refused.len();
    refused.extend_from_slice(others.as_slice())?;
    Ok(Findings {
        keys: refused,
        refused: count,
        undecided,
    })
}
