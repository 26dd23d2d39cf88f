//! How a client joins the halls of a store, and what is left of it if one refuses.
ghost use Rattle.std.specs.Prelude.{◌≡◌, ◌+◌, [], length, IfErr, IfOk, OnErr, OnOk};
ghost use Rattle.node_threads.specs.Joins.{AreOfClient, AreOfStoppedClient, IsNotJoined};
ghost use Rattle.seats.specs.Seats.{AreFresh, AreZero};

use crate::errors::JoinError;
use hall_lock::{ClientPass, FreePass};
use std::alloc::Global;
use std::sync::{Mutex, Wait};
use tag::{ClientId, Memory};

/// The places that a new seat has seen of so many halls: 0 of each.
pub(crate) fn none_seen(alloc: Global, halls: usize) -> Result<Vec<usize>, Memory>
    ensures count { IfOk result (λ seen. length seen.items ≡ halls) }
    ensures zero { IfOk result (λ seen. AreZero seen.items) }
{
    let mut seen = Vec::new(alloc);
    for _ in 0..halls {
        seen.push(0)?;
    }
    Ok(seen)
}

/// A hall wasn't joined.
#[derive(Clone, Copy, Debug)]
pub(crate) struct NotJoined {
    /// How many halls were joined before it.
    joined: usize,
    /// Why it wasn't.
    pub(crate) error: JoinError,
}

/// Has the client join all these halls, one after another; their passes come in their order. If one refuses, the
/// client is stopped in those that it joined.
pub(crate) fn enter_halls<R: Wait>(
    rt: &R,
    roots: &[Mutex<FreePass>],
    client: ClientId,
    passes: &mut Vec<ClientPass>,
) -> Result<(), NotJoined>
    requires { passes.old.items ≡ [] }
    ensures fresh { OnOk result (AreFresh client passes.new.items) }
    ensures all { OnOk result (length passes.new.items ≡ length roots.now) }
    ensures stopped { IfErr result (λ not. AreOfStoppedClient client not.joined passes.new.items) }
    ensures why { IfErr result (λ not. IsNotJoined client not.error) }
{
    for (joined, root) in roots.iter().enumerate() {
        if let Err(error) = join_hall(rt, root, passes, client) {
            stop_all(rt, client, passes);
            return Err(NotJoined { joined, error });
        }
    }
    Ok(())
}

/// Has the client join a hall, whose pass comes after those of the halls before.
fn join_hall<R: Wait>(
    rt: &R,
    root: &Mutex<FreePass>,
    passes: &mut Vec<ClientPass>,
    client: ClientId,
) -> Result<(), JoinError>
    requires { AreFresh client passes.old.items }
    ensures fresh { AreFresh client passes.new.items }
    ensures one { OnOk result (length passes.new.items ≡ length passes.old.items + 1) }
    ensures none { OnErr result (length passes.new.items ≡ length passes.old.items) }
    ensures why { IfErr result (λ error. IsNotJoined client error) }
{
    passes.reserve(1)?;
    let free = root.lock(rt).another()?;
    let pass = free.join(rt, client)?;
    let _ = pass.client();
    passes.push_reserved(pass);
    Ok(())
}

/// Stops the client in the halls of these passes, which are its own.
fn stop_all<R: Wait>(rt: &R, client: ClientId, passes: &mut [ClientPass])
    requires { AreOfClient client passes.old }
    ensures stopped { AreOfStoppedClient client (length passes.old) passes.new }
{
    for pass in passes.iter_mut() {
        pass.stop(rt);
    }
}
