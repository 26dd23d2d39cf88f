//! The words, names of classes and styles of a page: of no contract, all in this file. The rest of
//! them stands with the pictures.

// ---- names of classes, and of keys

pub(crate) const YES: &str = "yes";

pub(crate) const NO: &str = "no";

pub(crate) const UNDECIDED: &str = "undecided";

pub(crate) const COUNT: &str = "count";

pub(crate) const KEYS: &str = "keys";

pub(crate) const SUM: &str = "sum";

pub(crate) const REST: &str = "rest";

pub(crate) const WHY: &str = "why";

pub(crate) const SHOWN: &str = "shown";

pub(crate) const MISSING: &str = "missing";

pub(crate) const HINT: &str = "hint";

pub(crate) const FOLDED: &str = "folded";

/// The key of that number in the table.
pub(crate) const KEY_ID: &str = "key-";
/// A link to it.
pub(crate) const TO_KEY: &str = "#key-";

// ---- words

pub(crate) const LANGUAGE: &str = "en";

pub(crate) const CHARSET: &str = "utf-8";

pub(crate) const VIEWPORT_NAME: &str = "viewport";

pub(crate) const VIEWPORT: &str = "width=device-width, initial-scale=1";

pub(crate) const TITLE: &str = "abd draw";

pub(crate) const REFUSED: &str = "Keys refused: ";

pub(crate) const OF_KEYS: &str = " of ";

pub(crate) const COLON: &str = ": ";

pub(crate) const ARE_REFUSED: &str = " keys refused";

pub(crate) const NO_KEYS: &str =
    "No call is drawn: the history has none, or none on the key that was asked for.";

pub(crate) const CAPTION: &str = "The keys, refused ones first";

pub(crate) const ROW_SCOPE: &str = "row";

pub(crate) const COLUMN_SCOPE: &str = "col";

pub(crate) const FOUND: &str = "verdict";

pub(crate) const CALLS: &str = "calls";

pub(crate) const CLIENTS: &str = "clients";

pub(crate) const PENDING: &str = "pending";

pub(crate) const AT_ONCE: &str = "at once, at most";

pub(crate) const MORE: &str = "Keys that are not in the table: ";

pub(crate) const UNDRAWN: &str =
    "Keys that are not drawn (--most says how many are, up to 20,000 calls on a page; --key draws one): ";

pub(crate) const MORE_REFUSED: &str = ", refused ones among them: ";

pub(crate) const NO_NOTES: &str =
    "No call has a note: abd decide judges the history by its values, and abd draw \
--by values draws it so.";

pub(crate) const IN_HALL: &str = ", hall ";

pub(crate) const CALLS_SHOWN: &str = "Calls shown: ";

pub(crate) const NO_CALL: &str = "none";

pub(crate) const TO: &str = " to ";

pub(crate) const AND: &str = " and ";

pub(crate) const SHARE: &str = " (";

pub(crate) const OF: &str = " of ";

pub(crate) const SHARE_END: &str = ")";

pub(crate) const OTHERS: &str =
    ". Where calls are left out, a row says how many. --around shows those around another call, --calls \
more or fewer.";

pub(crate) const AROUND: &str = "--around: call ";

pub(crate) const NOT_THERE: &str = " isn\u{2019}t among these calls.";

pub(crate) const ON_KEY: &str = " is on key ";

pub(crate) const UNDRAWN_KEY: &str = ", which isn\u{2019}t drawn: --key draws it.";

pub(crate) const NOWHERE: &str = "--around: the history has no call ";

pub(crate) const STOP: &str = ".";

// ---- styles

/// Beside those of pictures: without quotation marks and other marks of HTML, so that it stands as
/// it is.
pub(crate) const STYLE: &str = "main{max-width:80rem;margin:0 auto}\
.keys caption{text-align:left;color:var(--soft)}\
.keys th[scope=row]{font-weight:normal}\
.keys td,.keys th{padding:.2rem 1rem .2rem 0}\
.keys .count{text-align:right;font-variant-numeric:tabular-nums}\
.keys a{color:inherit}.keys .no th{font-weight:bold}.keys td{color:var(--ink)}\
section{border-top:1px solid var(--faint);margin-top:2rem;padding-top:.5rem}\
section.yes,section.no{color:var(--ink)}\
section.no h2{color:var(--fault-edge)}section.yes h2{color:var(--yes)}\
h2{margin-top:0}.why{margin:0;font-family:ui-monospace,monospace;font-size:13px}\
.sum{font-size:1.2em;font-weight:bold}.rest,.shown{color:var(--soft)}\
.why a{color:var(--fault-edge);font-weight:bold}\
.folded summary h2{display:inline}.missing{color:var(--fault-edge)}";
