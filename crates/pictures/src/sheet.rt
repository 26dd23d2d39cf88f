//! What a page of pictures has once: its style sheet and its legend.
ghost use Rattle.std.specs.Prelude.{◌≡◌, ◌++◌, OnOk};
ghost use Rattle.markup.specs.Markup.{rendered};
ghost use Rattle.pictures.specs.Sheets.{legend, legend_keys, legend_tags, style};

use crate::style::{
    FAULTY_KEY, FAULTY_READ, LEGEND, OPEN, OPEN_KEY, READ, READ_KEY, WRITE, WRITE_KEY,
};
use labels::append_sample;
use markup::{Element, append_closing, append_plain, append_text, open_of_class};
use tag::Memory;

/// The colours, and the sizes of texts, for pages of pictures: without quotation marks and other marks
/// of HTML, so that it stands as it is.
pub(crate) const SHEET: &str =
    ":root{color-scheme:light dark;--ink:#1c2430;--soft:#5b6778;--faint:#d5dae2;--grid:#868f9d;--paper:#ffffff;\
--read:#d9f2e3;--read-edge:#1d8a55;--write:#dbe7ff;--write-edge:#2f62c9;--fault:#ffdcdc;\
--fault-edge:#c62020;--yes:#14784a;--dot:#1c2430}\
@media screen and (prefers-color-scheme:dark){:root{--ink:#e7ebf1;--soft:#a3afc0;--faint:#39424f;\
--grid:#667283;--paper:#12161c;--read:#12402b;--read-edge:#4cc98a;--write:#1b3160;--write-edge:#7da6ff;\
--fault:#5a1b1f;--fault-edge:#ff8080;--yes:#5fd39a;--dot:#ffffff}}\
body{margin:8px;color:var(--ink);background:var(--paper);font:15px/1.5 system-ui,sans-serif}\
h1,h2,p{margin:.5rem 0;overflow-wrap:anywhere}h2{margin-top:2rem}\
html:has(g:target){scroll-padding-top:45vh}\
.yes{color:var(--yes)}.no{color:var(--fault-edge)}.legend{color:var(--soft);max-width:60rem}\
.legend span{display:inline-block;padding:0 .6em;margin-right:.4em;color:var(--ink);\
border:1.5px solid;-webkit-print-color-adjust:exact;print-color-adjust:exact}\
.legend .write{background:var(--write);border-color:var(--write-edge)}\
.legend .read{background:var(--read);border-color:var(--read-edge);border-radius:.7em}\
.legend .faulty{background:var(--fault);border-color:var(--fault-edge)}\
.legend .open{border-style:dashed;border-bottom-style:none}\
.picture{display:grid;justify-content:start;box-sizing:border-box;width:fit-content;max-width:100%;max-height:85vh;\
overflow:auto;scroll-padding:6rem 0 4rem 7rem;margin:.5rem 0;border:1px solid var(--faint)}\
.picture svg{grid-area:1/1;align-self:start;justify-self:start;display:block;\
font:10px ui-monospace,monospace}\
.picture .names{position:sticky;top:0;z-index:2;background:var(--paper);\
border-bottom:1px solid var(--faint)}\
.picture .lines{position:sticky;left:0;z-index:1;background:var(--paper)}\
.picture text{fill:var(--ink)}\
.lane,.tick{stroke:var(--grid);stroke-width:1}.tick{stroke-dasharray:1 3}\
.picture .client{font-weight:bold;text-anchor:middle}\
.picture .line{fill:var(--soft);text-anchor:end}\
.gap{stroke:var(--ink);stroke-width:1.5;stroke-dasharray:8 6}\
.picture .omitted{font-weight:bold;text-anchor:end}\
.read rect,.read polyline{fill:var(--read);stroke:var(--read-edge);stroke-width:1.5;\
fill-opacity:.8}\
.write rect,.write polyline{fill:var(--write);stroke:var(--write-edge);stroke-width:1.5;\
fill-opacity:.8}\
.picture .faulty rect,.picture .faulty polyline{fill:var(--fault);stroke:var(--fault-edge);\
stroke-width:3}\
.picture g:target rect,.picture g:target polyline{stroke-width:5}\
.picture .open{stroke-dasharray:5 3}\
.picture .does{font-weight:bold}.picture .noted{fill:var(--soft)}\
.picture .faulty .noted,.picture .faulty .answers{fill:var(--ink);font-weight:bold}\
.path{fill:none;stroke:var(--ink);stroke-width:2;stroke-linejoin:round}\
.arrow{fill:none;stroke:var(--fault-edge);stroke-width:2}\
.picture .before{fill:var(--fault-edge);font-weight:bold;stroke:var(--paper);stroke-width:4px;\
paint-order:stroke}\
.dot{fill:var(--dot)}.picture .number{font-weight:bold}\
.paper{display:none}\
summary{cursor:pointer;color:var(--soft)}.rows{overflow-x:auto}\
.rows caption{text-align:left;color:var(--soft)}\
table{border-collapse:collapse;margin:.5rem 0;font-size:13px}\
th,td{border-bottom:1px solid var(--faint);padding:.15rem .7rem .15rem 0;text-align:left;\
vertical-align:top}td,th[scope=row]{overflow-wrap:anywhere;min-width:3em}\
th[scope=row]{font-weight:normal}tr.faulty th,tr.faulty td{color:var(--fault-edge);font-weight:bold}\
@media print{@page{size:A4 landscape;margin:8mm}:root{color-scheme:light}body{margin:0}\
section h2{break-after:avoid}p:has(+.picture){break-after:avoid;break-inside:avoid}\
.picture{overflow:visible;max-height:none;max-width:none;border:none}.rows{overflow:visible}\
.picture svg{font-size:11px;letter-spacing:-.6px;zoom:.89;print-color-adjust:exact}\
.picture:has(.paper){display:block}\
.paper{display:block}.paper~svg{display:none}\
.paper-strip{display:inline-block;width:100%;break-inside:avoid;margin-bottom:1rem}\
.paper-strip svg{max-width:100%;height:auto}\
details::details-content{display:block;height:auto;content-visibility:visible}}";

/// What the legend says after its samples.
pub(crate) const LEGEND_WORDS: &str =
    " Time goes down; each client has a column, and each call a bar from the line of the history \
where it begins to the line where it is answered. Of more than 16 clients some share a column; then \
c7 in a bar is its client, and a bar without a lower edge goes no further than what is known of its \
call. At its end a bar says what the call answers.";

/// What it says of tags.
pub(crate) const LEGEND_TAGS: &str =
    " A bar has the tag of its call in the row where the call noted it: a number and the client that \
wrote. A greater tag is a newer value, and (0, 0) is the tag before the first write.";

/// What it says of verdicts, of dots and of gaps.
pub(crate) const LEGEND_VERDICTS: &str =
    " A key is a yes, or atomic, if its calls can have taken effect one after another, each at the \
dot in its bar, in the order of the numbers beside the dots, which count from 0. Of a no, or of a \
key that is not atomic, the calls marked \u{2717} are why. If its order was given, [2] in a bar is the \
call\u{2019}s place in that order; an arrow leads from a call that had ended to one that began later, \
though the order lists that one before it. \u{22ee} says how many calls are left out.";

/// Adds the style sheet, which belongs into the page's `head`: for light and dark windows, and for
/// paper. Beside pictures and tables it has colours for the classes `yes` and `no`.
pub fn append_style(page: &mut Vec<u8>) -> Result<(), Memory>
    ensures { OnOk result (page.new.items ≡ page.old.items ++ rendered style) }
{
    append_plain(page, Element::Style, SHEET)
}

/// Adds a sample of each kind of bar.
fn append_keys(page: &mut Vec<u8>) -> Result<(), Memory>
    ensures { OnOk result (page.new.items ≡ page.old.items ++ rendered legend_keys) }
{
    append_sample(page, WRITE, WRITE_KEY)?;
    append_sample(page, READ, READ_KEY)?;
    append_sample(page, OPEN, OPEN_KEY)?;
    append_sample(page, FAULTY_READ, FAULTY_KEY)
}

/// Adds what the legend says of tags, if calls have some.
fn append_tags(page: &mut Vec<u8>, tagged: bool) -> Result<(), Memory>
    ensures { OnOk result (page.new.items ≡ page.old.items ++ rendered (legend_tags tagged)) }
{
    if tagged {
        append_text(page, LEGEND_TAGS)
    } else {
        Ok(())
    }
}

/// Adds the legend of the pictures; it speaks of tags if calls have some.
pub fn append_legend(page: &mut Vec<u8>, tagged: bool) -> Result<(), Memory>
    ensures { OnOk result (page.new.items ≡ page.old.items ++ rendered (legend tagged)) }
{
    open_of_class(page, Element::P, LEGEND)?;
    append_keys(page)?;
    append_text(page, LEGEND_WORDS)?;
    append_tags(page, tagged)?;
    append_text(page, LEGEND_VERDICTS)?;
    append_closing(page, Element::P)
}
