//! Files that come in blocks.
use crate::headed::Headed;
use crate::history_format::FileHistory;
use crate::order_format::Orders;
use crate::taken_rows::LongHistory;
use file_format::HallHistories;
use line_files::FileFeed;

/// A history file that comes in blocks of any size: the history of its lines so far.
pub type HistoryFeed = FileFeed<Headed<FileHistory>>;

/// A history file of version 1 or 2 that comes in blocks of any size: the histories of its lines so
/// far.
pub type HistoriesFeed = FileFeed<Headed<HallHistories>>;

/// An order file that comes in blocks of any size: the orders of its lines so far.
pub type OrderFeed = FileFeed<Headed<Orders>>;

/// A history file of version 1 of any length that comes in blocks of any size: what took the rows of its lines
/// so far, which `feed.contents().taker()` shows. `T` is one that `TakesRows`, and `Send`; the feed begins as
/// `RowsFeed::of(alloc, LongHistory::new(taker))`.
pub type RowsFeed<T> = FileFeed<LongHistory<T>>;
