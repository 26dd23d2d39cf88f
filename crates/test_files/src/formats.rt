//! What the rows need of the files' formats.
pub use counted_devices::{Counted, Counting, WriteFault, write_text};
pub use file_format::{FaultKind, FileFault, LineFault, history_text, write_history, write_orders};
pub use history_file::{HistoryFeed, OrderFeed, read_history, read_orders};
