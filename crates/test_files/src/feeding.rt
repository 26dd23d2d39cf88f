//! Files that come in pieces.
use crate::formats::{FileFault, HistoryFeed, OrderFeed};
use crate::notation::bytes_of;
use crate::readings::Format;
use crate::saying::{say_history, say_orders};
use std::alloc::Global;
use std::thread::Threads;
use test_rows::Answer;

/// The most bytes that a row gives to a feed.
const MOST_FED: u64 = 1_000_000_000;

/// A file that is fed.
#[derive(Drop)]
pub enum Feeding {
    History(HistoryFeed),
    Orders(OrderFeed),
}

impl Feeding {
    /// Nothing was fed yet. Scripts have no feed.
    pub fn new(alloc: Global, format: Format) -> Option<Feeding> {
        match format {
            Format::History => Some(Feeding::History(HistoryFeed::new(alloc))),
            Format::Orders => Some(Feeding::Orders(OrderFeed::new(alloc))),
            Format::Script => None,
        }
    }

    /// Feeds a piece.
    pub fn feed(&mut self, rt: &(impl Threads + Sync), piece: &[u8]) -> Result<(), FileFault> {
        if piece.len() as u64 >= MOST_FED {
            return Ok(());
        }
        match self {
            Feeding::History(feed) if feed.fed() < MOST_FED => feed.feed(rt, piece),
            Feeding::Orders(feed) if feed.fed() < MOST_FED => feed.feed(rt, piece),
            _ => Ok(()),
        }
    }

    /// How many bytes were fed, and which line is under way.
    fn progress(&self) -> (u64, u64) {
        match self {
            Feeding::History(feed) => (feed.fed(), feed.line()),
            Feeding::Orders(feed) => (feed.fed(), feed.line()),
        }
    }

    /// Says what the file is at its end.
    pub fn say(self, rt: &(impl Threads + Sync), out: &mut Answer) {
        match self {
            Feeding::History(feed) => say_history(out, &feed.finish(rt)),
            Feeding::Orders(feed) => say_orders(out, &feed.finish(rt)),
        };
    }
}

/// A line on a piece: the fault, and how many bytes were taken and which line is under way.
fn say_piece(rt: &(impl Threads + Sync), out: &mut Answer, feeding: &mut Feeding, line: &str) {
    let piece = bytes_of(out, line);
    let fed = feeding.feed(rt, piece.as_slice());
    let (bytes, line) = feeding.progress();
    match fed {
        Ok(()) => write!(out, "fed {bytes}, line {line}\n"),
        Err(fault) => write!(out, "{fault}, fed {bytes}\n"),
    }
}

/// A feed whose pieces are the lines.
pub fn say_fed(rt: &(impl Threads + Sync), out: &mut Answer, format: Format, lines: &str) {
    if let Some(mut feeding) = Feeding::new(out.alloc(), format) {
        for line in lines.lines() {
            say_piece(rt, out, &mut feeding, line);
        }
        feeding.say(rt, out);
        out.push("\n");
    }
}
