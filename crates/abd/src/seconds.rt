//! A line on a terminal that is written over.
use std::io;
use std::io::Eprint;
use std::sync::atomic::{AtomicU64, Ordering};
use std::time::{Clock, Instant};

/// When the line that says how far a command is stands on standard error: once in each second of its clock but the
/// first.
#[derive(Drop)]
pub struct Seconds<R> {
    rt: R,
    start: Instant,
    /// The last second in which the line was said, and how many calls it said.
    second: AtomicU64,
    calls: AtomicU64,
}

impl<R: Clock + Eprint + Drop> Seconds<R> {
    /// Starts its clock.
    pub fn new(rt: R) -> io::Result<Seconds<R>> {
        let start = Instant::now(&rt)?;
        Ok(Seconds {
            rt,
            start,
            second: AtomicU64::new(0),
            calls: AtomicU64::new(0),
        })
    }

    /// What says the line.
    pub fn rt(&self) -> &R {
        &self.rt
    }

    /// If the line is due, how many calls a second there were since it was said; now there are so many.
    pub fn rate(&self, calls: u64) -> Option<u64> {
        let Ok(elapsed) = self.start.elapsed(&self.rt) else {
            return None;
        };
        let second = elapsed.as_secs();
        let before = self.second.fetch_max(second, Ordering::SeqCst);
        if before >= second {
            return None;
        }
        let said = self.calls.swap(calls, Ordering::SeqCst);
        Some(calls.saturating_sub(said) / (second - before).max(1))
    }

    /// Clears the line, if it stands there.
    pub fn clear(&self) {
        if self.second.load(Ordering::SeqCst) > 0 {
            let _ = eprint!(self.rt; "\r\u{1b}[K");
        }
    }
}
