//! What a page of diagrams has once: its style sheet and its legend.
ghost use Rattle.std.specs.Prelude.{◌≡◌, ◌++◌, OnOk};
ghost use Rattle.markup.specs.Markup.{rendered};
ghost use Rattle.diagrams.specs.Diagrams.{diagram_legend, diagram_style};
ghost use Rattle.diagrams.specs.Sheets.{arrow_samples, bar_samples};

use crate::style::{
    ASKING, ASKING_KEY, DOWN_KEY, DOWN_TIME, KEY, LOST, LOST_KEY, PUTTING, PUTTING_KEY, REPLY,
    REPLY_KEY, REQUEST, REQUEST_KEY, STALE, STALE_KEY, UNDER_WAY, UNDER_WAY_KEY,
};
use labels::append_sample;
use markup::{Element, append_closing, append_plain, append_text, open_of_class};
use tag::Memory;

/// The colours, and the sizes of texts, for pages of diagrams: without quotation marks and other marks
/// of HTML, so that it stands as it is.
pub(crate) const SHEET: &str =
    ":root{color-scheme:light dark;--ink:#1c2430;--soft:#5b6778;--faint:#d5dae2;--grid:#868f9d;--paper:#ffffff;\
--request:#2f62c9;--reply:#1d8a55;--lost:#c62020;--read-ask:#d9f2e3;--read-put:#86d3a8;\
--write-ask:#dbe7ff;--write-put:#8fb2f5}\
@media screen and (prefers-color-scheme:dark){:root{--ink:#e7ebf1;--soft:#a3afc0;--faint:#39424f;--grid:#667283;\
--paper:#12161c;--request:#7da6ff;--reply:#4cc98a;--lost:#ff8080;--read-ask:#12402b;\
--read-put:#1f7a50;--write-ask:#1b3160;--write-put:#31569f}}\
body{margin:8px;color:var(--ink);background:var(--paper);font:15px/1.5 system-ui,sans-serif}\
h1,h2,p{margin:.5rem 0;overflow-wrap:anywhere}\
.messages{overflow:auto;max-height:85vh;margin:.5rem 0;border:1px solid var(--grid)}\
.messages svg{display:block;font:13px ui-monospace,monospace}\
.messages text{fill:var(--ink)}\
.lifeline{stroke:var(--soft);stroke-width:1}\
.step{stroke:var(--grid);stroke-width:1;stroke-dasharray:1 3}\
.messages .who{font-weight:bold;text-anchor:middle}\
.messages .source{fill:var(--soft);text-anchor:end}.messages a .source{text-decoration:underline dotted}\
.messages .refused,.messages .reason{fill:var(--lost);font-weight:bold}\
.messages .band{fill:var(--lost);fill-opacity:.1}\
.request line{stroke:var(--request);stroke-width:1.4}\
.reply line{stroke:var(--reply);stroke-width:1.4}\
.messages .under-way{stroke-dasharray:4 4}\
.messages .arriving,.messages .stale{marker-end:url(#message-head)}\
.messages .stale{stroke-dasharray:1 3;stroke-opacity:.8}\
.messages .stale~.label{fill:var(--soft)}\
.messages .request .under-way~.label{text-anchor:start}\
.messages .reply .under-way~.label{text-anchor:end}\
.message-head{fill:var(--ink)}\
.messages .cross{stroke:var(--lost);stroke-width:2.2}\
.messages .label{text-anchor:middle}\
.messages .label,.messages .holds,.messages .begin,.messages .note,.messages .outcome,\
.messages .counted,.messages .ignored,.messages .keeps,\
.messages .reason,.messages text.down{paint-order:stroke;stroke:var(--paper);stroke-width:3px;stroke-linejoin:round}\
.reading rect,.reading polyline{fill:var(--read-ask);stroke:var(--reply);stroke-width:1.2}\
.writing rect,.writing polyline{fill:var(--write-ask);stroke:var(--request);stroke-width:1.2}\
.messages .reading .putting{fill:var(--read-put)}\
.messages .writing .putting{fill:var(--write-put)}\
.messages .stop{stroke:var(--lost);stroke-width:2.5}\
.messages .begin{font-weight:bold;text-anchor:end}\
.messages .note,.messages .outcome,.messages .counted,.messages .ignored{text-anchor:end}\
.messages .counted,.messages .ignored,.messages .keeps{fill:var(--soft)}\
.messages .holds{font-weight:bold}\
.messages rect.down{fill:var(--faint);stroke:var(--ink);stroke-dasharray:3 2}\
.messages .more{fill:var(--soft)}\
.messages .link{fill:var(--request);text-decoration:underline}\
.messages .sentence{font-weight:bold}\
.messages g.curtain{display:none;scroll-margin:50vh}.messages g.curtain:target{display:inline}\
.messages rect.curtain{fill:var(--paper);stroke:var(--soft)}\
.messages .lit{display:none;pointer-events:none}\
.messages [role=listitem]:hover .lit,.messages [role=listitem]:focus .lit{display:inline}\
.messages svg:has([role=listitem]:hover .lit,[role=listitem]:focus .lit) [role=listitem]:not(:hover,:focus),\
.messages svg:has([role=listitem]:hover .lit,[role=listitem]:focus .lit) .texts{opacity:.15}\
.messages .lit .request line:not(.cross){stroke:var(--request)}\
.messages .lit .reply line:not(.cross){stroke:var(--reply)}\
.strips{display:none}\
@media screen{.messages{display:grid;justify-content:start}.strips~svg{grid-area:1/1}\
.strip,.strip svg~svg{display:none}.strips,.strip:first-child{display:contents}\
.strip:first-child svg:first-child{grid-area:1/1;position:sticky;top:0;z-index:1;align-self:start;pointer-events:none;\
background:linear-gradient(90deg,transparent 284px,var(--paper) 0)}}\
.key{color:var(--soft);max-width:60rem}\
.key span{display:inline-block;padding:0 .6em;margin-right:.4em;color:var(--ink);\
border:1.5px solid var(--soft);-webkit-print-color-adjust:exact;print-color-adjust:exact}\
.key .request{border-color:var(--request);border-style:none none solid}\
.key .reply{border-color:var(--reply);border-style:none none solid}\
.key .stale{border-color:var(--reply);border-style:none none dotted}\
.key .lost{border-color:var(--lost);border-style:none none solid}\
.key .under-way{border-style:none none dashed}\
.key .asking{background:var(--write-ask);border-color:var(--request)}\
.key .putting{background:var(--write-put);border-color:var(--request)}\
.key .down{background:var(--faint);border-style:dashed}\
@media print{@page{size:A4 landscape;margin:8mm}:root{color-scheme:light}\
body{margin:0}.messages{overflow:visible;max-height:none;border:0}\
.messages g.curtain:target{display:none}.messages svg{max-width:100%;height:auto}\
.strips{display:block}.strips~svg{position:absolute;width:0;height:0}\
.strip{break-inside:avoid;margin-bottom:1rem}.strip svg{width:100%}\
.columns-1 svg{width:50%}.columns-2 svg{width:64%}.columns-3 svg{width:78%}.columns-4 svg{width:92%}\
.columns-6 svg{font-size:14.6px}.columns-7 svg{font-size:16.2px}.columns-8 svg{font-size:17.9px}\
.columns-9 svg{font-size:19.6px}.columns-10 svg{font-size:21.2px}\
details::details-content{display:block;height:auto;content-visibility:visible}}";

/// What the legend says after its samples.
pub(crate) const LEGEND_WORDS: &str =
    " Time goes down: each step that was tried has a row, with its line of the script at the left; a row in \
red was refused, and says why. \
An arrow has its message\u{2019}s number, and goes from the row where the message is sent to the row where it \
arrives; one that is lost ends with a cross in its row, and one that never arrives is a short dashed stub. \
A call is a bar on its client\u{2019}s \
lifeline: it asks until its tag is noted, and then it puts; where its client stopped it ends at a \
line. Left of its lifeline stand the votes that it has counted, and where a reply is stale. Right of a \
replica\u{2019}s lifeline stands what it takes of a put, or which tag it keeps. Point at a call or a message, \
or reach it with the tab key, and it is seen alone with what belongs to it.";

/// Adds the style sheet, which belongs into the page's `head`: for light and dark windows, and for
/// paper.
pub fn append_diagram_style(page: &mut Vec<u8>) -> Result<(), Memory>
    ensures { OnOk result (page.new.items ≡ page.old.items ++ rendered diagram_style) }
{
    append_plain(page, Element::Style, SHEET)
}

/// Adds a sample of each kind of arrow.
fn append_arrow_samples(page: &mut Vec<u8>) -> Result<(), Memory>
    ensures { OnOk result (page.new.items ≡ page.old.items ++ rendered arrow_samples) }
{
    append_sample(page, REQUEST, REQUEST_KEY)?;
    append_sample(page, REPLY, REPLY_KEY)?;
    append_sample(page, STALE, STALE_KEY)?;
    append_sample(page, LOST, LOST_KEY)?;
    append_sample(page, UNDER_WAY, UNDER_WAY_KEY)
}

/// Adds a sample of each part of a bar, and of a down time.
fn append_bar_samples(page: &mut Vec<u8>) -> Result<(), Memory>
    ensures { OnOk result (page.new.items ≡ page.old.items ++ rendered bar_samples) }
{
    append_sample(page, ASKING, ASKING_KEY)?;
    append_sample(page, PUTTING, PUTTING_KEY)?;
    append_sample(page, DOWN_TIME, DOWN_KEY)
}

/// Adds the legend of diagrams.
pub fn append_diagram_legend(page: &mut Vec<u8>) -> Result<(), Memory>
    ensures { OnOk result (page.new.items ≡ page.old.items ++ rendered diagram_legend) }
{
    open_of_class(page, Element::P, KEY)?;
    append_arrow_samples(page)?;
    append_bar_samples(page)?;
    append_text(page, LEGEND_WORDS)?;
    append_closing(page, Element::P)
}
