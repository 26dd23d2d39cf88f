//! `abd justify`: an order of each key's calls, made from the notes of its history, checked or not.
ghost use Rattle.std.specs.Prelude.{◌≡◌, IfOk, IfErr, map};
ghost use Rattle.file_format.specs.Texts.{orders_text};
ghost use Rattle.cli.specs.Devices.{file_states, writer_states};
ghost use Rattle.parallel_keys.specs.CheckedKeys.{all_parts};
ghost use Rattle.cli.specs.Hints.{MakesHinted};
ghost use Rattle.cli.specs.Justifications.{EndsOfFile, Justifies, OfHalls};
ghost use Rattle.cli.specs.TagOrders.{MakesOrders};
ghost use Rattle.cli.specs.declared.status.Failure.TheVariants as failure;

use crate::noted_orders::checked_orders;
use crate::notes::hinted;
use crate::outcome::{Found, Made, Outcome, conclude};
use crate::sources::{Source, histories_in};
use crate::status::Status;
use crate::unchecked::ordered;
use counted_devices::{CountedRead, CountedWrite, Counting};
use file_format::write_orders;
use parallel_keys::hall_parts;
use recorder::{Histories, KeyOrder, Parts};
use std::alloc::Global;
use std::thread::Threads;
use tag::Memory;

/// The text of the order file of the orders.
pub fn order_file(alloc: Global, orders: &[KeyOrder]) -> Result<Vec<u8>, Memory>
    ensures { IfOk result (λ text. text.items ≡ orders_text orders.now) }
{
    let mut writer = Counting::new(Vec::new(alloc));
    match write_orders(alloc, orders, &mut writer) {
        Ok(()) => Ok(writer.into_inner()),
        // A text fails only where its allocation is refused.
        Err(_) => Err(Memory),
    }
}

/// Makes each key's order from the notes of its part, checks it, and makes the order file.
fn justified<'k>(alloc: Global, parts: &'k [Parts<'k>]) -> Result<Outcome, Memory>
    ensures { IfOk result (λ made. Justifies (all_parts (map (λ p. p.entries) parts.now)) made.found
        made.text.items made.notes.items) }
{
    match checked_orders(alloc, parts) {
        Ok(orders) => {
            let text = order_file(alloc, orders.as_slice())?;
            Ok(Outcome::of_text(alloc, text, Found::Good))
        }
        Err(refusal) => refusal.outcome(alloc),
    }
}

/// Makes the order file of the keys with these parts; unless the orders go unchecked, each was checked.
fn made_of_parts<'k>(
    alloc: Global,
    parts: &'k [Parts<'k>],
    unchecked: bool,
) -> Result<Outcome, Memory>
    ensures { IfOk result (λ made. MakesOrders unchecked (all_parts (map (λ p. p.entries) parts.now))
        made.found made.text.items made.notes.items) }
{
    if unchecked {
        ordered(alloc, parts)
    } else {
        justified(alloc, parts)
    }
}

/// Makes the order file of the keys of the histories, and what `people` are told of keys without notes.
fn orders_made(alloc: Global, histories: &Histories, unchecked: bool, people: bool) -> Made<'static>
    ensures made { IfOk result
        (OfHalls (MakesHinted (MakesOrders unchecked) people) histories.now.halls) }
    ensures stops { IfErr result (λ why. why ≡ failure.Memory) }
{
    let parts = hall_parts(alloc, histories.halls())?;
    let made = made_of_parts(alloc, parts.as_slice(), unchecked)?;
    Ok(hinted(made, parts.as_slice(), people)?)
}

/// Reads the history, of version 1 or 2, makes each key's order from the notes, the keys hall by hall, in
/// each in the order in which it first sees them, and then writes the order file.
///
/// Each order is checked: if a key has none, nothing is written, why the first such key has none is said on
/// `errors`, and the status is `Refused`. If the orders go `unchecked`, a key with a completed call that has
/// no note is left out: once the file is written, its least such call is said on `errors`, a line for each
/// such key, and the status is `Refused`. If a key is refused and no call has a note, `people` are told on
/// `errors` what makes orders without. Nothing goes to `out` before the whole text is made; after a
/// failure of `out` a beginning of it may have gone out. A failure is said on `errors`.
pub fn justify_command<'a, H: CountedRead, W: CountedWrite, E: CountedWrite>(
    rt: &(impl Threads + Sync),
    alloc: Global,
    history: &mut Source<'a, H>,
    unchecked: bool,
    people: bool,
    out: &mut W,
    errors: &mut E,
) -> Status
    ensures { EndsOfFile (MakesHinted (MakesOrders unchecked) people)
        (file_states H.remaining H.failures history.old history.new)
        (writer_states W.contents W.failures out.old out.new)
        (writer_states E.contents E.failures errors.old errors.new)
        result }
{
    match histories_in(rt, alloc, history) {
        Ok(histories) => conclude(
            orders_made(alloc, &histories, unchecked, people),
            out,
            errors,
        ),
        Err(failure) => failure.report(errors),
    }
}
