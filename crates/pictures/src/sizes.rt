//! The sizes of a picture, in pixels, all in this file. What has to hold of them the laws say.

/// The height of a row.
pub(crate) const ROW: u64 = 20;

/// What all columns together take, if they can.
pub(crate) const COLUMNS: u64 = 1080;

/// The most that a column is wide.
pub(crate) const WIDEST: u64 = 120;

/// The least that a column is wide.
pub(crate) const NARROWEST: u64 = 68;

/// What a column leaves free beside a text.
pub(crate) const MARGINS: u64 = 8;

/// The width of a letter.
pub(crate) const LETTER: u64 = 6;

/// A picture of more rows names its clients below, too.
pub(crate) const LONG: usize = 40;

/// Where the first column begins.
pub(crate) const COLUMN_LEFT: u64 = 96;

/// Where a bar begins in the first column.
pub(crate) const BAR_LEFT: u64 = 98;

/// What a bar leaves free of its column.
pub(crate) const BAR_MARGINS: u64 = 4;

/// Where a bar's texts begin in the first column.
pub(crate) const TEXT_LEFT: u64 = 101;

/// Where the middle of a dot is in the first column.
pub(crate) const DOT_LEFT: u64 = 107;

/// Where a dot's number begins in the first column.
pub(crate) const NUMBER_LEFT: u64 = 115;

/// Where the line of a row, which is said at the left, ends.
pub(crate) const LINE_RIGHT: u64 = 92;

/// The letters of that line.
pub(crate) const LINE_LETTERS: u64 = 15;

/// In the column after the last: the end of the picture.
pub(crate) const RIGHT: u64 = 100;

/// The same of a picture with an arrow: its word has room beside the last column.
pub(crate) const ARROW_END: u64 = 144;

/// How far an arrow's tip stands from the left side of a bar that it comes to from the right.
pub(crate) const ARROW_LEFT: u64 = 12;

/// How far an arrow's tip stands from the right side of any other bar.
pub(crate) const ARROW_RIGHT: u64 = 8;

/// What is free before an arrow's word.
pub(crate) const WORD_MARGIN: u64 = 6;

/// The height of an arrow's head.
pub(crate) const HEAD_HEIGHT: u64 = 6;

/// Half its width.
pub(crate) const HEAD_WIDTH: u64 = 4;

/// Where the first row begins.
pub(crate) const ROW_TOP: u64 = 26;

/// The top of a bar that begins in the first row.
pub(crate) const BAR_TOP: u64 = 28;

/// The bottom of a bar that ends in the first row.
pub(crate) const BAR_FOOT: u64 = 44;

/// The base of a text in the first row.
pub(crate) const TEXT_BASE: u64 = 40;

/// The middle of the first row.
pub(crate) const MIDDLE: u64 = 36;

/// The base of the clients' names.
pub(crate) const NAMES_BASE: u64 = 16;

/// In the row after the last: where open bars stop.
pub(crate) const FLOOR: u64 = 36;

/// In the row below those to which it reaches: the bottom of a bar that ends without an edge.
pub(crate) const OPEN_FOOT: u64 = 22;

/// In the row after the last: the base of the clients' names.
pub(crate) const FOOT_BASE: u64 = 50;

/// In the row after the last: the end of the picture.
pub(crate) const BOTTOM: u64 = 58;

/// A picture of more columns isn't cut on paper: its letters would be too small on A4.
pub(crate) const MOST_COLUMNS: usize = 16;

/// One of more rows isn't cut: its page would be too large.
pub(crate) const MOST_ROWS: usize = 2048;

/// The radius of a dot.
pub(crate) const DOT_RADIUS: u64 = 4;

/// How round the corners of a read's bar are.
pub(crate) const READ_CORNER: u8 = 8;

/// How round the corners of a write's bar are: they are square.
pub(crate) const WRITE_CORNER: u8 = 0;
