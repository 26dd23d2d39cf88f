//! What is asked of a monitor.
ghost use Rattle.std.specs.Prelude.{◌≡◌};

use command_line::{Lines, MonitorAsked};
use record_monitor::RecordMonitor;

/// How a history is monitored, and in which form it is told.
#[derive(Clone, Copy, Debug, PartialEq, Eq)]
pub struct Monitoring {
    /// Whether the other keys are judged on once a key is refused.
    pub all: bool,
    /// A read is given up once it was pending for more than so many rows.
    pub give_up: u32,
    /// The form of what is printed.
    pub form: Lines,
}

impl Monitoring {
    /// What the words ask for.
    pub fn of(asked: &MonitorAsked<'_>) -> Monitoring
        ensures all { result.all ≡ asked.now.all }
        ensures give_up { result.give_up ≡ asked.now.give_up }
        ensures form { result.form ≡ asked.now.form }
    {
        Monitoring {
            all: asked.all,
            give_up: asked.give_up,
            form: asked.form,
        }
    }
}

/// Who is told how far a monitor is.
pub trait Watch {
    /// A block was judged.
    fn judged(&self, monitor: &RecordMonitor);

    /// What was found is written next.
    fn makes_way(&self);
}

/// Nobody.
#[derive(Clone, Copy, Debug)]
pub struct NoWatch;

impl Watch for NoWatch {
    fn judged(&self, _monitor: &RecordMonitor) {}

    fn makes_way(&self) {}
}
