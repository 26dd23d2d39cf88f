//! How far `abd monitor` is.
use crate::seconds::Seconds;
use monitor_command::Watch;
use record_monitor::RecordMonitor;
use std::io;
use std::io::Eprint;
use std::time::Clock;

/// Says on standard error, once in each second of its clock but the first, how many calls were judged, in a line that
/// is written over.
#[derive(Drop)]
pub struct Watching<R> {
    seconds: Seconds<R>,
}

impl<R: Clock + Eprint + Drop> Watching<R> {
    /// Starts its clock.
    pub fn new(rt: R) -> io::Result<Watching<R>> {
        let seconds = Seconds::new(rt)?;
        Ok(Watching { seconds })
    }
}

impl<R: Clock + Eprint + Drop> Watch for Watching<R> {
    fn judged(&self, monitor: &RecordMonitor) {
        let calls = monitor.begun();
        if let Some(rate) = self.seconds.rate(calls) {
            let (keys, kept) = (monitor.keys().len(), monitor.kept_count());
            let _ = eprint!(self.seconds.rt();
                "\rabd: {calls} calls on {keys} keys, {rate} calls a second, {kept} values kept\u{1b}[K"
            );
        }
    }

    fn makes_way(&self) {
        self.seconds.clear();
    }
}
