//! The names of classes and the words of a diagram, all in this file. What has to hold of them the laws say.

// ---- names of classes

pub(crate) const MESSAGES: &str = "messages";

pub(crate) const LIFELINE: &str = "lifeline";

pub(crate) const WHO: &str = "who";

pub(crate) const STEP: &str = "step";

pub(crate) const SOURCE: &str = "source";

pub(crate) const COMMAND: &str = "command";

pub(crate) const REFUSED: &str = "refused";

pub(crate) const BAND: &str = "band";

pub(crate) const REASON: &str = "reason";

pub(crate) const REQUEST: &str = "request";

pub(crate) const REPLY: &str = "reply";

pub(crate) const ARRIVING: &str = "arriving";

pub(crate) const STALE: &str = "stale";

pub(crate) const LOST: &str = "lost";

pub(crate) const UNDER_WAY: &str = "under-way";

pub(crate) const CROSS: &str = "cross";

pub(crate) const LABEL: &str = "label";

pub(crate) const READING: &str = "reading";

pub(crate) const WRITING: &str = "writing";

pub(crate) const ASKING: &str = "asking";

pub(crate) const PUTTING: &str = "putting";

pub(crate) const STOP: &str = "stop";

pub(crate) const BEGIN: &str = "begin";

pub(crate) const NOTE: &str = "note";

pub(crate) const OUTCOME: &str = "outcome";

pub(crate) const DOWN_TIME: &str = "down";

pub(crate) const HOLDS: &str = "holds";

pub(crate) const HOLDS_OWN: &str = "keeps";

pub(crate) const COUNTED: &str = "counted";

pub(crate) const IGNORED: &str = "ignored";

pub(crate) const KEY: &str = "key";

pub(crate) const MORE: &str = "more";

pub(crate) const CURTAIN: &str = "curtain";

pub(crate) const LINK: &str = "link";

pub(crate) const SENTENCE: &str = "sentence";

pub(crate) const LIFELINES: &str = "lifelines";

pub(crate) const TEXTS: &str = "texts";

pub(crate) const LIT: &str = "lit";

pub(crate) const STRIPS: &str = "strips";

/// How the classes of a strip begin; the number of its columns follows.
pub(crate) const STRIP_COLUMNS: &str = "strip columns-";

/// The name of the head of arrows that arrive, and its class.
pub(crate) const HEAD: &str = "message-head";

// ---- places on the page

/// How the id of a curtain begins; its row follows.
pub(crate) const STEP_ID: &str = "step-";

/// How a link to it begins.
pub(crate) const STEP_LINK: &str = "#step-";

/// A link to the diagram without a curtain.
pub(crate) const MESSAGES_LINK: &str = "#messages";

/// How the id of a line of the script begins; its number follows.
pub const SCRIPT_ID: &str = "script-";

/// How a link to it begins.
pub(crate) const SCRIPT_LINK: &str = "#script-";

// ---- roles

pub(crate) const REGION: &str = "region";

pub(crate) const LIST: &str = "list";

pub(crate) const ITEM: &str = "listitem";

pub(crate) const TRUE: &str = "true";

// ---- words

pub(crate) const TITLE: &str = "The messages of the run";

pub(crate) const CLIENT_WORD: &str = "client ";

pub(crate) const LINE_WORD: &str = "script line ";

pub(crate) const STOPPED: &str = "stopped";

pub(crate) const ENOUGH: &str = "enough votes";

pub(crate) const COUNTS_NOTHING: &str = "stale: counts nothing";

pub(crate) const DOWN_WORD: &str = "down";

pub(crate) const STEP_BY_STEP: &str = "step by step";

pub(crate) const BACK: &str = "back";

pub(crate) const NEXT: &str = "next";

pub(crate) const ALL: &str = "all";

pub(crate) const NO_CURTAINS: &str =
    "Step by step is for diagrams of up to 1,000 rows; see --most.";

pub(crate) const AUTO: &str = "auto";

/// The head, in a box of eight by eight: its tip stands right, in the middle.
pub(crate) const HEAD_PATH: &str = "M0 0L8 4L0 8z";

pub(crate) const HEAD_BOX: &str = "0 0 8 8";

pub(crate) const OMITTED: &str = "Steps after these that are not shown: ";

pub(crate) const REQUEST_KEY: &str = "\u{2192} asks or puts";

pub(crate) const REPLY_KEY: &str = "\u{2190} holds or kept";

pub(crate) const STALE_KEY: &str = "stale reply";

pub(crate) const LOST_KEY: &str = "\u{2715} lost";

pub(crate) const UNDER_WAY_KEY: &str = "never arrives";

pub(crate) const ASKING_KEY: &str = "call asks";

pub(crate) const PUTTING_KEY: &str = "call puts";

pub(crate) const DOWN_KEY: &str = "replica down";
