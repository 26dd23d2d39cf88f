//! How far `abd split` is, and how it ended.
use crate::seconds::Seconds;
use split_command::Watch;
use std::io;
use std::io::Eprint;
use std::time::Clock;

/// Says on standard error, once in each second of its clock but the first, how many calls on how many keys went to their
/// pieces, in a line that is written over.
#[derive(Drop)]
pub struct Splitting<R> {
    seconds: Seconds<R>,
}

/// What makes a word of so many plural.
fn plural(count: u64) -> &'static str {
    if count == 1 { "" } else { "s" }
}

impl<R: Clock + Eprint + Drop> Splitting<R> {
    /// Starts its clock.
    pub fn new(rt: R) -> io::Result<Splitting<R>> {
        let seconds = Seconds::new(rt)?;
        Ok(Splitting { seconds })
    }

    /// Says how many calls on how many keys there are, and in how many pieces they stand.
    pub fn say_end(&self, calls: u64, keys: usize, parts: u16) {
        self.seconds.clear();
        let (call, key) = (plural(calls), plural(keys as u64));
        let piece = plural(u64::from(parts));
        let _ = eprintln!(self.seconds.rt();
            "abd: {calls} call{call} on {keys} key{key} in {parts} piece{piece}"
        );
    }
}

impl<R: Clock + Eprint + Drop> Watch for Splitting<R> {
    fn split(&self, calls: u64, keys: usize) {
        if let Some(rate) = self.seconds.rate(calls) {
            let _ = eprint!(self.seconds.rt();
                "\rabd: {calls} calls on {keys} keys, {rate} calls a second\u{1b}[K"
            );
        }
    }

    fn makes_way(&self) {
        self.seconds.clear();
    }
}
