//! What workers pass before they check.

/// A gate that workers pass: it is called on a worker's own thread each time before the worker checks
/// the order at an index.
///
/// Several workers may be in it at once. It may watch, or hold a worker back; no verdict depends on
/// it. A gate that sleeps or waits holds the handle for that itself.
pub trait CheckGate {
    /// A worker is about to check the order at that index.
    fn at(&self, index: usize);
}

/// A gate that lets every worker through at once.
#[derive(Clone, Copy, Debug)]
pub struct NoGate;

impl CheckGate for NoGate {
    fn at(&self, _index: usize) {}
}
