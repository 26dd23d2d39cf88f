//! How far the load of `abd run` is, and how the run ended.
use run_command::Watch;
use std::alloc::Global;
use std::io;
use std::io::Eprint;
use std::sync::Arc;
use std::sync::atomic::{AtomicU64, AtomicUsize, Ordering};
use std::time::{Clock, Instant};
use tag::Memory;

/// Says on standard error how many calls were answered, at the first answer of each second of its
/// clock but the first: at most one line a second. At its end it says how many were answered, how
/// many keys are yes, and how long the run took.
#[derive(Drop)]
pub struct Progress<R> {
    rt: R,
    start: Instant,
    calls: u32,
    answered: AtomicU64,
    /// The last second in which a line was said.
    second: AtomicU64,
    /// How many keys were checked: none before all were.
    keys: AtomicUsize,
    /// How many of them are yes.
    yes: AtomicUsize,
}

impl<R: Clock + Eprint + Drop> Progress<R> {
    /// Starts its clock. So many calls are made.
    pub fn new(rt: R, calls: u32) -> io::Result<Progress<R>> {
        let start = Instant::now(&rt)?;
        Ok(Progress {
            rt,
            start,
            calls,
            answered: AtomicU64::new(0),
            second: AtomicU64::new(0),
            keys: AtomicUsize::new(0),
            yes: AtomicUsize::new(0),
        })
    }
}

impl<R: Clock + Eprint> Progress<R> {
    /// Counts an answer, and says where the load is if a second has passed.
    fn count_answer(&self) {
        self.answered.fetch_add(1, Ordering::SeqCst);
        let Ok(elapsed) = self.start.elapsed(&self.rt) else {
            return;
        };
        let second = elapsed.as_secs();
        // Of the threads that come in a new second one says the line, in one piece.
        if self.second.fetch_max(second, Ordering::SeqCst) < second {
            let answered = self.answered.load(Ordering::SeqCst);
            let _ = eprintln!(self.rt; "abd: {answered} of {} calls answered", self.calls);
        }
    }

    /// Says how many calls were answered, how many keys are yes where they were checked, and how
    /// long it took.
    pub fn say_end(&self) {
        let Ok(elapsed) = self.start.elapsed(&self.rt) else {
            return;
        };
        let (seconds, hundredths) = (elapsed.as_secs(), elapsed.subsec_millis() / 10);
        let (answered, calls) = (self.answered.load(Ordering::SeqCst), self.calls);
        let (keys, yes) = (
            self.keys.load(Ordering::SeqCst),
            self.yes.load(Ordering::SeqCst),
        );
        let _ = if keys == 0 {
            eprintln!(self.rt;
                "abd: {answered} of {calls} calls answered, {seconds}.{hundredths:02} s"
            )
        } else {
            eprintln!(self.rt;
                "abd: {answered} of {calls} calls answered, {yes} of {keys} keys yes, {seconds}.{hundredths:02} s"
            )
        };
    }
}

/// A progress that the threads of a load and the program share.
#[derive(Drop)]
pub struct SharedProgress<R> {
    shared: Arc<Progress<R>, Global>,
}

impl<R: Drop> SharedProgress<R> {
    /// Shares it.
    pub fn new(alloc: Global, progress: Progress<R>) -> Result<SharedProgress<R>, Memory> {
        Ok(SharedProgress {
            shared: Arc::new(alloc, progress)?,
        })
    }
}

impl<R: Clock + Eprint> SharedProgress<R> {
    /// Says how it ended.
    pub fn say_end(&self) {
        self.shared.say_end();
    }
}

impl<R: Clock + Eprint + Drop> Watch for SharedProgress<R> {
    fn again(&self) -> Result<SharedProgress<R>, Memory> {
        Ok(SharedProgress {
            shared: Arc::try_clone(&self.shared)?,
        })
    }

    fn answered(&self) {
        self.shared.count_answer();
    }

    fn checked(&self, keys: usize, yes: usize) {
        self.shared.keys.store(keys, Ordering::SeqCst);
        self.shared.yes.store(yes, Ordering::SeqCst);
    }
}
