//! The names of classes and the words of a picture, all in this file. What has to hold of them the laws say.

// ---- names of classes

pub(crate) const PICTURE: &str = "picture";

pub(crate) const NAMES: &str = "names";

pub(crate) const LINES: &str = "lines";

pub(crate) const LANE: &str = "lane";

pub(crate) const CLIENT: &str = "client";

pub(crate) const TICK: &str = "tick";

pub(crate) const LINE: &str = "line";

pub(crate) const GAP: &str = "gap";

pub(crate) const OMITTED: &str = "omitted";

pub(crate) const PATH: &str = "path";

pub(crate) const DOT: &str = "dot";

pub(crate) const NUMBER: &str = "number";

pub(crate) const READ: &str = "read";

pub(crate) const WRITE: &str = "write";

pub(crate) const FAULTY_READ: &str = "read faulty";

pub(crate) const FAULTY_WRITE: &str = "write faulty";

pub(crate) const OPEN: &str = "open";

pub(crate) const ARROW: &str = "arrow";

pub(crate) const BEFORE: &str = "before";

pub(crate) const DOES: &str = "does";

pub(crate) const NOTED: &str = "noted";

pub(crate) const ANSWERS: &str = "answers";

pub(crate) const LEGEND: &str = "legend";

pub(crate) const CALLS: &str = "calls";

pub(crate) const ROWS: &str = "rows";

pub(crate) const PAPER: &str = "paper";

pub(crate) const PAPER_STRIP: &str = "paper-strip";

// ---- words

pub(crate) const TITLE: &str = "The calls on ";

pub(crate) const ALL_KEYS: &str = "all keys";

pub(crate) const CLIENT_WORD: &str = "client ";

pub(crate) const CLIENTS_WORD: &str = "clients ";

pub(crate) const OF_CLIENTS: &str = " clients";

pub(crate) const COMMA: &str = ", ";

pub(crate) const CLIENT_SIGN: &str = "c";

pub(crate) const PLACE_OPENS: &str = "[";

pub(crate) const PLACE_CLOSES: &str = "] ";

pub(crate) const BEFORE_WORD: &str = "before";

pub(crate) const LINE_WORD: &str = "line ";

pub(crate) const CALL_SIGN: &str = "#";

pub(crate) const FAULT_SIGN: &str = "\u{2717} ";

pub(crate) const GAP_SIGN: &str = "\u{22ee} ";

pub(crate) const GAP_CALL: &str = " call";

pub(crate) const GAP_CALLS: &str = " calls";

pub(crate) const BLANK: &str = " ";

pub(crate) const COLON: &str = ": ";

pub(crate) const READS: &str = "reads";

pub(crate) const WRITES: &str = "writes ";

pub(crate) const NOTES: &str = "notes ";

pub(crate) const ANSWER: &str = "answers ";

pub(crate) const DONE: &str = "done";

pub(crate) const TABLE_TITLE: &str = "The calls as a table";

pub(crate) const TABLE_OF: &str = "Table of the calls on ";

pub(crate) const COLUMN: &str = "col";

pub(crate) const ROW_SCOPE: &str = "row";

pub(crate) const CALL_HEADING: &str = "call";

pub(crate) const CLIENT_HEADING: &str = "client";

pub(crate) const DOES_HEADING: &str = "does";

pub(crate) const ANSWER_HEADING: &str = "answer";

pub(crate) const NOTE_HEADING: &str = "note";

pub(crate) const BEGINS_HEADING: &str = "began at line";

pub(crate) const NOTED_HEADING: &str = "noted at line";

pub(crate) const ANSWERED_HEADING: &str = "answered at line";

pub(crate) const NOT_ANSWERED: &str = "not answered";

pub(crate) const WRITE_KEY: &str = "#0 writes";

pub(crate) const READ_KEY: &str = "#1 reads";

pub(crate) const OPEN_KEY: &str = "not answered: no lower edge";

pub(crate) const FAULTY_KEY: &str = "\u{2717} at fault";

// ---- values of attributes

pub(crate) const HIDDEN: &str = "true";

pub(crate) const REGION: &str = "region";

/// In a path: where a line begins, how far right it then goes.
pub(crate) const MOVE: &str = "M";

pub(crate) const LEVEL: &str = "H";
