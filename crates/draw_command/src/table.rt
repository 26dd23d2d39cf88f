//! The table of the keys.
ghost use Rattle.std.specs.Option.{option_map};
ghost use Rattle.std.specs.Prelude.{◌≡◌, ◌++◌, map, OnOk};
ghost use Rattle.markup.specs.Markup.{opening_tag, rendered};
ghost use Rattle.judged_keys.specs.Judgements.{judgement_of};
ghost use Rattle.draw_command.specs.Making.{Adds};
ghost use Rattle.draw_command.specs.Pages.{IsRow, IsRowOf, IsTableOf, below_table, column_head};
ghost use Rattle.draw_command.specs.Pages.{columns_markup, count_cell, count_cells, fault_href};
ghost use Rattle.draw_command.specs.Pages.{finding_cell, finding_link, left_out, rest_line};
ghost use Rattle.draw_command.specs.Pages.{row_markup, table_front, verdict_class};
ghost use Rattle.draw_command.specs.PicturedKeys.{faulty_in};

use crate::counts::{KeyCounts, counts_of};
use crate::pictured_keys::{PicturedKey, faulty_at};
use crate::texts::{append_counted, append_finding};
use crate::words;
use call_links::bar_targets;
use itoa::Buffer;
use judged_keys::{Finding, JudgedKey};
use markup::{
    Attribute, AttributeName, Element, append_closing, append_opening, append_plain, append_text,
    append_worded,
};
use pictures::append_legend;
use std::alloc::Global;
use tag::{Memory, OpId};

/// How many keys the table has at most.
const TABLE_SIZE: usize = 1000;

/// The class of a key with that finding.
pub(crate) fn verdict_class(finding: Finding) -> &'static str
    ensures { result.now ≡ verdict_class finding }
{
    if finding.is_refused() {
        words::NO
    } else if finding.is_undecided() {
        words::UNDECIDED
    } else {
        words::YES
    }
}

/// Adds a cell with that number.
fn append_count(page: &mut Vec<u8>, count: usize) -> Result<(), Memory>
    ensures { OnOk result (page.new.items ≡ page.old.items ++ rendered (count_cell count)) }
{
    let mut digits = Buffer::new();
    append_worded(page, Element::Td, words::COUNT, digits.format(count as u64))
}

/// Adds the cells of the counts.
#[tactic(auto, unfolding(markup::specs::Markup::rendered))]
fn append_counts(page: &mut Vec<u8>, counts: KeyCounts) -> Result<(), Memory>
    ensures { OnOk result (page.new.items ≡ page.old.items ++ rendered (count_cells counts)) }
{
    append_count(page, counts.calls)?;
    append_count(page, counts.clients)?;
    append_count(page, counts.pending)?;
    append_count(page, counts.at_once)
}

/// Opens the link of the key of that number: to the bar of the first of the calls that show why it is
/// refused, or, if there are none, to its section.
fn open_link(alloc: Global, page: &mut Vec<u8>, n: usize, faulty: &[OpId]) -> Result<(), Memory>
    ensures { OnOk result (page.new.items ≡ page.old.items ++ opening_tag Element.A
        (fault_href n faulty.now)) }
{
    let Some(call) = faulty.first() else {
        let section = Attribute::Numbered(AttributeName::Href, words::TO_KEY, n as u64);
        return append_opening(page, Element::A, &[section]);
    };
    let targets = bar_targets(alloc, n)?;
    let bar = Attribute::Numbered(AttributeName::Href, targets.as_str(), u64::from(call.0));
    append_opening(page, Element::A, &[bar])
}

/// The row of a key in the table.
#[derive(Clone, Copy)]
struct Row<'a> {
    /// The key's number in the table.
    n: usize,
    /// The calls that show why it is refused, if it has a picture.
    faulty: Option<&'a [OpId]>,
    key: &'a JudgedKey<'a>,
}

impl Row<'_> {
    /// Adds what was found of the key; it leads to its picture, if it has one.
    #[tactic(auto, unfolding(markup::specs::Markup::rendered))]
    fn append_link(&self, alloc: Global, page: &mut Vec<u8>) -> Result<(), Memory>
        ensures { OnOk result (page.new.items ≡ page.old.items ++ rendered (finding_link
            self.now.n (option_map (λ calls. calls.now) self.now.faulty)
            (judgement_of self.now.key.now))) }
    {
        let Some(faulty) = self.faulty else {
            return append_finding(alloc, page, self.key);
        };
        open_link(alloc, page, self.n, faulty)?;
        append_finding(alloc, page, self.key)?;
        append_closing(page, Element::A)
    }

    /// Adds the first cell.
    #[tactic(auto, unfolding(markup::specs::Markup::rendered))]
    fn append_cell(&self, alloc: Global, page: &mut Vec<u8>) -> Result<(), Memory>
        ensures { OnOk result (page.new.items ≡ page.old.items ++ rendered (finding_cell
            self.now.n (option_map (λ calls. calls.now) self.now.faulty)
            (judgement_of self.now.key.now))) }
    {
        let scope = Attribute::Words(AttributeName::Scope, words::ROW_SCOPE);
        append_opening(page, Element::Th, &[scope])?;
        self.append_link(alloc, page)?;
        append_closing(page, Element::Th)
    }

    /// Adds the row with those counts of the key's calls.
    #[tactic(auto, unfolding(markup::specs::Markup::rendered))]
    fn append(&self, alloc: Global, page: &mut Vec<u8>, counts: KeyCounts) -> Result<(), Memory>
        ensures { OnOk result (page.new.items ≡ page.old.items ++ rendered (row_markup
            self.now.n (option_map (λ calls. calls.now) self.now.faulty)
            (judgement_of self.now.key.now) counts)) }
    {
        let class = Attribute::Words(AttributeName::Class, verdict_class(self.key.finding));
        append_opening(page, Element::Tr, &[class])?;
        self.append_cell(alloc, page)?;
        append_counts(page, counts)?;
        append_closing(page, Element::Tr)
    }

    /// Counts the key's calls, and adds the row.
    fn add(&self, alloc: Global, page: &mut Vec<u8>) -> Result<(), Memory>
        ensures { OnOk result (Adds (IsRow self.now.n
            (option_map (λ calls. calls.now) self.now.faulty) (judgement_of self.now.key.now))
            page.old.items page.new.items) }
    {
        let key = self.key;
        let counts = counts_of(alloc, &key.one.part)?;
        self.append(alloc, page, counts)
    }
}

/// Adds the head of a column.
#[tactic(auto, unfolding(markup::specs::Markup::rendered))]
fn append_column(page: &mut Vec<u8>, words: &str) -> Result<(), Memory>
    ensures { OnOk result (page.new.items ≡ page.old.items ++ rendered (column_head words.now)) }
{
    let scope = Attribute::Words(AttributeName::Scope, words::COLUMN_SCOPE);
    append_opening(page, Element::Th, &[scope])?;
    append_text(page, words)?;
    append_closing(page, Element::Th)
}

/// Adds the heads of the columns.
#[tactic(auto, unfolding(markup::specs::Markup::rendered))]
fn append_columns(page: &mut Vec<u8>) -> Result<(), Memory>
    ensures { OnOk result (page.new.items ≡ page.old.items ++ rendered columns_markup) }
{
    append_column(page, words::FOUND)?;
    append_column(page, words::CALLS)?;
    append_column(page, words::CLIENTS)?;
    append_column(page, words::PENDING)?;
    append_column(page, words::AT_ONCE)
}

/// Adds what stands in the table above its rows.
#[tactic(auto, unfolding(markup::specs::Markup::rendered))]
fn append_table_front(page: &mut Vec<u8>) -> Result<(), Memory>
    ensures { OnOk result (page.new.items ≡ page.old.items ++ rendered table_front) }
{
    append_plain(page, Element::Caption, words::CAPTION)?;
    append_opening(page, Element::Thead, &[])?;
    append_opening(page, Element::Tr, &[])?;
    append_columns(page)?;
    append_closing(page, Element::Tr)?;
    append_closing(page, Element::Thead)
}

/// Adds the table of the keys, the first of which have pictures.
pub(crate) fn add_table(
    alloc: Global,
    page: &mut Vec<u8>,
    pictured: &[PicturedKey<'_>],
    keys: &[JudgedKey<'_>],
) -> Result<(), Memory>
    ensures { OnOk result (Adds (IsTableOf (map faulty_in pictured.now)
        (map judgement_of keys.now)) page.old.items page.new.items) }
{
    let first = &keys[..keys.len().min(TABLE_SIZE)];
    let class = Attribute::Words(AttributeName::Class, words::KEYS);
    append_opening(page, Element::Table, &[class])?;
    append_table_front(page)?;
    append_opening(page, Element::Tbody, &[])?;
    for (n, key) in first.iter().enumerate() {
        let faulty = faulty_at(pictured, n);
        let row = Row { n, faulty, key };
        row.add(alloc, page)?;
    }
    append_closing(page, Element::Tbody)?;
    append_closing(page, Element::Table)
}

/// Says after those words how many keys are left out, and how many of these are refused, if any is.
#[tactic(auto, unfolding(markup::specs::Markup::rendered))]
fn append_rest(page: &mut Vec<u8>, words: &str, count: usize, refused: usize) -> Result<(), Memory>
    ensures { OnOk result (page.new.items
        ≡ page.old.items ++ rendered (rest_line words.now count refused)) }
{
    if count == 0 {
        return Ok(());
    }
    let refused = (words::MORE_REFUSED, refused as u64);
    append_counted(page, words::REST, (words, count as u64), refused)
}

/// Says how many keys have no row, and how many no picture.
fn append_left_out(
    page: &mut Vec<u8>,
    pictured: usize,
    count: usize,
    refused: usize,
) -> Result<(), Memory>
    ensures { OnOk result (page.new.items
        ≡ page.old.items ++ rendered (left_out pictured count refused)) }
{
    append_rest(
        page,
        words::MORE,
        count.saturating_sub(TABLE_SIZE),
        refused.saturating_sub(TABLE_SIZE),
    )?;
    append_rest(
        page,
        words::UNDRAWN,
        count.saturating_sub(pictured),
        refused.saturating_sub(pictured),
    )
}

/// Adds what stands below the table: how many keys have no row, how many no picture, and what the
/// pictures' signs mean: of tags, if calls have some.
#[tactic(auto, unfolding(markup::specs::Markup::rendered))]
pub(crate) fn append_below(
    page: &mut Vec<u8>,
    pictured: usize,
    count: usize,
    refused: usize,
    tagged: bool,
) -> Result<(), Memory>
    ensures { OnOk result (page.new.items
        ≡ page.old.items ++ rendered (below_table pictured count refused tagged)) }
{
    append_left_out(page, pictured, count, refused)?;
    append_legend(page, tagged)
}
