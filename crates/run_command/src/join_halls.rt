//! What the halls of a closed store leave, taken together.
ghost use Rattle.std.specs.Prelude.{◌≡◌, ◌++◌, IfOk, IsTrue, OnOk, Some};
ghost use Rattle.node_threads.specs.Closings.{AreClosed};
ghost use Rattle.parallel_keys.specs.CheckedKeys.{AreDistinct};
ghost use Rattle.run_command.specs.Records.{AreConfigured, AreEqual};
ghost use Rattle.run_command.specs.Records.{histories_in, orders_in, quorums_in, record_of};

use crate::shown::NoText;
use node_threads::ClosedHall;
use quorum::Quorums;
use recorder::{Histories, History, KeyOrder};
use std::alloc::Global;
use tag::Memory;
use world_steps::Config;

/// The record of a closed store: its histories by hall, and the orders of all halls.
#[derive(Drop)]
pub(crate) struct ClosedRecord {
    /// The histories, hall 0 first, with the halls' quorums.
    pub(crate) histories: Histories,
    /// The orders of hall 0, then those of hall 1, and so on. No two are of one key.
    pub(crate) orders: Vec<KeyOrder>,
}

/// The histories and the orders of closed halls, hall by hall.
#[derive(Drop)]
struct JoinedHalls {
    histories: Vec<History>,
    orders: Vec<KeyOrder>,
}

/// Whether the hall has that configuration.
fn is_configured(closed: &ClosedHall, config: Config) -> bool
    ensures { IsTrue result → AreEqual closed.now.config config }
{
    closed.config == config
}

/// Whether each of the halls has that configuration.
fn are_configured(halls: &[ClosedHall], config: Config) -> bool
    ensures { IsTrue result → AreConfigured config halls.now }
{
    for closed in halls {
        if !is_configured(closed, config) {
            return false;
        }
    }
    true
}

/// The quorums of the halls, which have one configuration; none of no halls.
fn quorums_of(halls: &[ClosedHall]) -> Option<Quorums>
    ensures { result ≡ quorums_in halls.now }
{
    match halls.first() {
        Some(closed) => Some(closed.config.quorums()),
        None => None,
    }
}

/// The record of a store that left these halls. `Apart` comes where they make no histories by hall,
/// or one of them has another configuration than that.
#[tactic(auto, using(crate::proofs::Distinct::joined_distinct))]
pub(crate) fn closed_record(
    alloc: Global,
    halls: Vec<ClosedHall>,
    config: Config,
) -> Result<ClosedRecord, NoText>
    requires { AreClosed halls.items }
    ensures configured { OnOk result (AreConfigured config halls.items) }
    ensures histories { IfOk result (λ made. made.histories ≡ record_of halls.items) }
    ensures orders { IfOk result (λ made. made.orders.items ≡ orders_in halls.items) }
    ensures distinct { IfOk result (λ made. AreDistinct made.orders.items) }
{
    if !are_configured(halls.as_slice(), config) {
        return Err(NoText::Apart);
    }
    let quorums = quorums_of(halls.as_slice());
    let JoinedHalls { histories, orders } = join_halls(alloc, halls)?;
    match Histories::new(histories, quorums) {
        Some(histories) => Ok(ClosedRecord { histories, orders }),
        None => Err(NoText::Apart),
    }
}

/// The histories of the halls, and their orders.
fn join_halls(alloc: Global, halls: Vec<ClosedHall>) -> Result<JoinedHalls, Memory>
    ensures histories { IfOk result (λ all. all.histories.items ≡ histories_in halls.items) }
    ensures orders { IfOk result (λ all. all.orders.items ≡ orders_in halls.items) }
{
    let mut histories = Vec::new(alloc);
    let mut orders = Vec::new(alloc);
    for closed in halls {
        let ClosedHall {
            history,
            orders: own,
            ..
        } = closed;
        histories.push(history)?;
        append(&mut orders, own)?;
    }
    Ok(JoinedHalls { histories, orders })
}

/// Puts the further orders after the others.
fn append(orders: &mut Vec<KeyOrder>, further: Vec<KeyOrder>) -> Result<(), Memory>
    ensures { OnOk result (orders.new.items ≡ orders.old.items ++ further.items) }
{
    for order in further {
        orders.push(order)?;
    }
    Ok(())
}
