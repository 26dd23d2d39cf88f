//! The words, names of classes and styles of a page: of no contract, all in this file. The rest of
//! them stands with diagrams and pictures.

// ---- names of classes

pub(crate) const STEPS: &str = "sum";

pub(crate) const TOLD: &str = "told";

pub(crate) const SCRIPT: &str = "script";

pub(crate) const REGION: &str = "region";

// ---- words

pub(crate) const TITLE: &str = "abd trace";

pub(crate) const STEPS_SHOWN: &str = "Steps shown: ";

pub(crate) const LEFT_OUT: &str = ", left out: ";

pub(crate) const EACH_STEP: &str = "The steps in words";

pub(crate) const THE_SCRIPT: &str = "The script";

pub(crate) const HISTORY: &str = "The history that the run records";

// ---- styles

/// Beside those of diagrams and pictures: without quotation marks and other marks of HTML, so that
/// it stands as it is.
pub(crate) const STYLE: &str =
    "main{max-width:none}.told summary,.script summary{cursor:pointer;color:var(--soft)}\
.told pre,.script pre{overflow:auto;max-height:85vh;margin:.5rem 0 2rem;font-family:ui-monospace,monospace;font-size:13px}\
.script pre{counter-reset:line}.script span{counter-increment:line}\
.script span::before{content:counter(line);display:inline-block;width:3.5em;margin-right:1em;text-align:right;color:var(--soft)}\
.script span:target{background:var(--faint)}\
@media print{.told pre,.script pre{overflow:visible;max-height:none;white-space:pre-wrap}}\
.told+h2{border-top:1px solid var(--faint);margin-top:2rem;padding-top:.5rem}";
