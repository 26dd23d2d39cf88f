//! The sizes of a diagram, in pixels, all in this file. What has to hold of them the laws say.

/// The height of a row.
pub const ROW: u64 = 28;

/// The width of a column.
pub const COLUMN: u64 = 190;

/// A diagram of more rows names its clients and replicas below, too.
pub const LONG: usize = 25;

/// Where the line over all columns of a row begins.
pub const STEP_LEFT: u64 = 284;

/// Where the line of a row, which is said at the left, ends.
pub const LINE_RIGHT: u64 = 138;

/// Where the words of a row's step begin.
pub const COMMAND_LEFT: u64 = 148;

/// Where a reason begins.
pub const REASON_LEFT: u64 = 292;

/// In the first row, the top and the bottom of a band.
pub const BAND_TOP: u64 = 36;

pub const BAND_BOTTOM: u64 = 60;

/// The top of the first row: rows stand one below the other.
pub const ROW_TOP: u64 = 34;

/// The top of the curtain of the first row.
pub const CURTAIN_TOP: u64 = 62;

/// The base of the links of the curtain of the first row.
pub const LINK_BASE: u64 = 80;

/// Where these links begin.
pub const BACK_LEFT: u64 = 148;

pub const NEXT_LEFT: u64 = 200;

pub const ALL_LEFT: u64 = 252;

/// Where what is told of a row begins, beside these.
pub const TOLD_LEFT: u64 = 292;

/// The letters of what is told of a row.
pub const TOLD_LETTERS: u64 = 150;

/// A diagram of more rows has no curtains.
pub const MOST_CURTAINS: usize = 1000;

/// The letters of a row's line.
pub const LINE_LETTERS: u64 = 17;

/// The letters of a row's step.
pub const COMMAND_LETTERS: u64 = 16;

/// The letters of a name and of a text beside a lifeline, which a column holds.
pub const LETTERS: u64 = 21;

/// The letters of what an arrow asks or tells.
pub const LABEL_LETTERS: u64 = 36;

/// The letters of a sentence over all columns.
pub const SENTENCE_LETTERS: u64 = 80;

/// The lifeline of the first client.
pub const CLIENT: u64 = 470;

/// The left and right side of a bar on it.
pub const BAR_LEFT: u64 = 463;

pub const BAR_RIGHT: u64 = 477;

/// The ends of the line at which a stopped call ends there.
pub const STOP_LEFT: u64 = 456;

pub const STOP_RIGHT: u64 = 484;

/// Where the texts of a bar end there.
pub const TEXT_RIGHT: u64 = 458;

/// Where arrows begin and end there.
pub const CLIENT_EDGE: u64 = 478;

/// Where requests end that never arrive.
pub const CLIENT_WAIT: u64 = 552;

/// In the first column, if there were no client, the lifeline of the first replica.
pub const REPLICA: u64 = 510;

/// Where arrows begin and end there.
pub const REPLICA_EDGE: u64 = 509;

/// Where replies end that never arrive.
pub const REPLICA_WAIT: u64 = 435;

/// The left and right side of a down time there.
pub const DOWN_LEFT: u64 = 504;

pub const DOWN_RIGHT: u64 = 516;

/// Where a text at that replica begins.
pub const HOLDING_LEFT: u64 = 520;

/// The end of the diagram, in the column after the last.
pub const RIGHT: u64 = 510;

/// The base of the names.
pub const NAMES_BASE: u64 = 18;

/// Where lifelines begin.
pub const TOP: u64 = 28;

/// The moment of the first row, and, in the row after the last, where lifelines end.
pub const MOMENT: u64 = 48;

/// The base of a text in the first row.
pub const TEXT_BASE: u64 = 52;

/// The base of what an arrow asks or tells that begins in the first row.
pub const LABEL_BASE: u64 = 58;

/// Where an arrow of the first row ends that never arrives.
pub const STUB: u64 = 60;

/// In the row after the last: the base of the names.
pub const FOOT_BASE: u64 = 66;

/// In the row after the last: the end of the diagram.
pub const BOTTOM: u64 = 78;

/// At least so far from its begin stands the middle of what an arrow asks or tells.
pub const NEAREST: u64 = 86;

/// Half the width and half the height of a cross.
pub const ARM: u64 = 5;

/// The width and the height of the head of an arrow.
pub const HEAD_SIZE: u64 = 8;

/// Where its tip stands in its box of eight by eight.
pub const HEAD_TIP: u64 = 8;

pub const HEAD_MIDDLE: u64 = 4;

/// A diagram of more columns isn't cut: its texts would be too small on A4, or run into one another.
pub const MOST_COLUMNS: usize = 10;
