//! Threads whose closures borrow parts.
//!
//! A closure that captures parts tells what it ensures where it is taken as an `Fn`, and not as an
//! `FnOnce`.
ghost use Rattle.std.specs.Prelude.{◌≡◌, IfOk};

use std::sync::Wait;
use std::thread;
use std::thread::{Promise, PromisedHandle, Scope, SpawnError, Threads};

/// Starts a thread of the scope, as its `spawn_with` does.
pub(crate) fn spawn<'s, 'e, P: Promise<T> + Drop, T: Send + Drop + 's, F: Fn() -> T + Send + 's>(
    scope: &'s Scope<'s, &'e ()>,
    promise: P,
    f: F,
) -> Result<PromisedHandle<T, P>, SpawnError<F>>
    requires runs { F.pre f }
    requires keeps { (r : T) → F.post f r → P.kept_by promise r }
    ensures { IfOk result (λ started. started.promise ≡ promise) }
{
    scope.spawn_with(promise, f)
}

/// Calls the closure with a scope, as `thread::scope` does.
pub(crate) fn within<'e, R: Threads + Wait, T, F: for<'s> Fn(&'s Scope<'s, &'e ()>) -> T>(
    rt: &R,
    f: F,
) -> T
    requires { F.IsAlwaysCallable f }
    ensures { (scope : _) × F.post f scope result }
{
    thread::scope(thread::scope_env(), rt, f)
}
