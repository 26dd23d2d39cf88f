//! The sections of keys.
ghost use Rattle.std.specs.Prelude.{◌≡◌, ◌++◌, All, false, length, map, OnOk, true};
ghost use Rattle.markup.specs.Markup.{rendered};
ghost use Rattle.pictures.specs.Layout.{IsInOrder};
ghost use Rattle.judged_keys.specs.Judgements.{judgement_of};
ghost use Rattle.draw_command.specs.Drawings.{IsDrawable};
ghost use Rattle.draw_command.specs.Making.{Adds};
ghost use Rattle.draw_command.specs.Pages.{IsEach, IsSectionOf, content_markup, hall_among};
ghost use Rattle.draw_command.specs.Pages.{hall_markup, heading_markup, is_folded, said_markup};
ghost use Rattle.draw_command.specs.Pages.{section_markup, why_line, why_lines, why_markup};
ghost use Rattle.draw_command.specs.PicturedKeys.{IsExplained, judged_in, with_faulty};

use crate::drawn::Drawn;
use crate::key_scene::{broken_arrow, refused_order, scene_of_key};
use crate::pictured_keys::PicturedKey;
use crate::showing::append_showing;
use crate::table::verdict_class;
use crate::texts::append_finding;
use crate::words;
use call_links::{Links, append_linked, bar_ids, bar_targets};
use history_file::NumberedHistories;
use judged_keys::{Finding, JudgedKey};
use markup::{
    Attribute, AttributeName, Element, append_closing, append_number, append_opening, append_text,
    open_of_class,
};
use pictures::{CallKeys, Picture};
use recorder::Halls;
use scenes::first_places;
use std::alloc::Global;
use tag::{Key, Memory};

/// What is drawn: of which history, and how much of its keys.
#[derive(Clone, Copy)]
pub(crate) struct Task<'a> {
    pub(crate) numbered: &'a NumberedHistories,
    pub(crate) drawn: Drawn<'a>,
}

/// Adds a paragraph for each line of the sentences; the calls that they name are links.
pub fn append_why(
    alloc: Global,
    page: &mut Vec<u8>,
    links: &Links<'_>,
    text: &[u8],
) -> Result<(), Memory>
    ensures { OnOk result (page.new.items ≡ page.old.items
        ++ rendered (why_markup links.now.targets.now links.now.calls.now text.now)) }
{
    let words = String::from_utf8_lossy(alloc, text)?;
    append_lines(page, links, words.as_str())
}

/// Adds a paragraph of the sentence.
#[tactic(auto, unfolding(markup::specs::Markup::rendered))]
fn append_line(page: &mut Vec<u8>, links: &Links<'_>, line: &str) -> Result<(), Memory>
    ensures { OnOk result (page.new.items ≡ page.old.items
        ++ rendered (why_line links.now.targets.now links.now.calls.now line.now)) }
{
    open_of_class(page, Element::P, words::WHY)?;
    append_linked(page, links, line)?;
    append_closing(page, Element::P)
}

/// Adds a paragraph for each line of the text.
fn append_lines(page: &mut Vec<u8>, links: &Links<'_>, text: &str) -> Result<(), Memory>
    ensures { OnOk result (page.new.items ≡ page.old.items
        ++ rendered (why_lines links.now.targets.now links.now.calls.now text.now)) }
{
    for line in text.lines() {
        append_line(page, links, line)?;
    }
    Ok(())
}

/// The number of the key's hall, if there are several halls.
fn hall_among(numbered: &NumberedHistories, key: &Key) -> Option<u8>
    ensures { result ≡ hall_among (length numbered.now.histories.halls) key.now }
{
    let count = numbered.histories.halls().len();
    if count <= 1 {
        return None;
    }
    match Halls::new(count as u8) {
        Some(halls) => Some(halls.of(key)),
        None => unreachable!(),
    }
}

/// Adds the number of a hall, if one is to be said.
#[tactic(auto, unfolding(markup::specs::Markup::rendered))]
fn append_hall(page: &mut Vec<u8>, hall: Option<u8>) -> Result<(), Memory>
    ensures { OnOk result (page.new.items ≡ page.old.items ++ rendered (hall_markup hall)) }
{
    let Some(hall) = hall else {
        return Ok(());
    };
    append_text(page, words::IN_HALL)?;
    append_number(page, u64::from(hall))
}

/// Adds the heading of the section of a key of that hall, if one is to be said.
#[tactic(auto, unfolding(markup::specs::Markup::rendered))]
fn append_heading(
    alloc: Global,
    page: &mut Vec<u8>,
    hall: Option<u8>,
    key: &JudgedKey<'_>,
) -> Result<(), Memory>
    ensures { OnOk result (page.new.items
        ≡ page.old.items ++ rendered (heading_markup hall (judgement_of key.now))) }
{
    append_opening(page, Element::H2, &[])?;
    append_finding(alloc, page, key)?;
    append_hall(page, hall)?;
    append_closing(page, Element::H2)
}

/// Whether the section of a key with that finding is folded, on a page with refused keys or without.
fn is_folded(refused: bool, finding: Finding) -> bool
    ensures { result ≡ is_folded refused finding }
{
    refused && !finding.is_refused() && !finding.is_undecided()
}

/// What a section says of its key.
#[derive(Clone, Copy)]
struct Saying<'a> {
    /// The key's number in the table.
    n: usize,
    /// Whether a key on the page is refused.
    refused: bool,
    /// The number of the key's hall, if there are several halls.
    hall: Option<u8>,
    /// Why the key is refused.
    why: &'a [u8],
    links: Links<'a>,
    /// The call around which calls are to be shown, if one is given.
    around: Option<u64>,
}

impl Saying<'_> {
    /// Adds why the key is refused, and what its picture shows.
    fn append_content(
        &self,
        alloc: Global,
        page: &mut Vec<u8>,
        picture: &Picture<'_>,
    ) -> Result<(), Memory>
        requires { IsInOrder picture.now.scene.now }
        ensures { OnOk result (page.new.items ≡ page.old.items ++ rendered
            (content_markup self.now.links.targets.now self.now.links.calls.now self.now.why.now
            self.now.around picture.now)) }
    {
        append_why(alloc, page, &self.links, self.why)?;
        append_showing(alloc, page, self.around, picture)
    }

    /// Adds the heading, and below it the content.
    fn append_open(
        &self,
        alloc: Global,
        page: &mut Vec<u8>,
        key: &JudgedKey<'_>,
        picture: &Picture<'_>,
    ) -> Result<(), Memory>
        requires { IsInOrder picture.now.scene.now }
        ensures { OnOk result (page.new.items ≡ page.old.items ++ rendered (said_markup false
            (heading_markup self.now.hall (judgement_of key.now)) (content_markup
            self.now.links.targets.now self.now.links.calls.now self.now.why.now self.now.around
            picture.now))) }
    {
        append_heading(alloc, page, self.hall, key)?;
        self.append_content(alloc, page, picture)
    }

    /// Adds the heading, below which the content is folded.
    fn append_folded(
        &self,
        alloc: Global,
        page: &mut Vec<u8>,
        key: &JudgedKey<'_>,
        picture: &Picture<'_>,
    ) -> Result<(), Memory>
        requires { IsInOrder picture.now.scene.now }
        ensures { OnOk result (page.new.items ≡ page.old.items ++ rendered (said_markup true
            (heading_markup self.now.hall (judgement_of key.now)) (content_markup
            self.now.links.targets.now self.now.links.calls.now self.now.why.now self.now.around
            picture.now))) }
    {
        open_of_class(page, Element::Details, words::FOLDED)?;
        append_opening(page, Element::Summary, &[])?;
        append_heading(alloc, page, self.hall, key)?;
        append_closing(page, Element::Summary)?;
        self.append_content(alloc, page, picture)?;
        append_closing(page, Element::Details)
    }

    /// Adds the heading and the content, folded or not.
    fn append_said(
        &self,
        alloc: Global,
        page: &mut Vec<u8>,
        key: &JudgedKey<'_>,
        folded: bool,
        picture: &Picture<'_>,
    ) -> Result<(), Memory>
        requires { IsInOrder picture.now.scene.now }
        ensures { OnOk result (page.new.items ≡ page.old.items ++ rendered (said_markup folded
            (heading_markup self.now.hall (judgement_of key.now)) (content_markup
            self.now.links.targets.now self.now.links.calls.now self.now.why.now self.now.around
            picture.now))) }
    {
        if folded {
            self.append_folded(alloc, page, key, picture)
        } else {
            self.append_open(alloc, page, key, picture)
        }
    }

    /// Adds the section of the key, with that picture.
    fn append(
        &self,
        alloc: Global,
        page: &mut Vec<u8>,
        key: &JudgedKey<'_>,
        picture: &Picture<'_>,
    ) -> Result<(), Memory>
        requires { IsInOrder picture.now.scene.now }
        ensures { OnOk result (page.new.items ≡ page.old.items ++ rendered
            (section_markup self.now.n self.now.refused self.now.hall (judgement_of key.now)
            (content_markup self.now.links.targets.now self.now.links.calls.now self.now.why.now
            self.now.around picture.now))) }
    {
        let id = Attribute::Numbered(AttributeName::Id, words::KEY_ID, self.n as u64);
        let class = Attribute::Words(AttributeName::Class, verdict_class(key.finding));
        append_opening(page, Element::Section, &[id, class])?;
        let folded = is_folded(self.refused, key.finding);
        self.append_said(alloc, page, key, folded, picture)?;
        append_closing(page, Element::Section)
    }
}

/// Draws the key, and adds its section.
fn add_section(
    alloc: Global,
    page: &mut Vec<u8>,
    task: &Task<'_>,
    refused: bool,
    n: usize,
    own: &PicturedKey<'_>,
) -> Result<(), Memory>
    requires explained { IsExplained task.now.numbered.now own.now }
    requires drawable { IsDrawable (judged_in own.now) }
    ensures { OnOk result (Adds (IsSectionOf task.now.numbered.now task.now.drawn refused n
        (with_faulty own.now)) page.old.items page.new.items) }
{
    let ids = bar_ids(alloc, n)?;
    let targets = bar_targets(alloc, n)?;
    let (key, hall) = (own.key, own.hall);
    let faulty = own.why.faulty.as_slice();
    let scene = scene_of_key(alloc, &task.drawn, &hall, key, faulty)?;
    let listed = first_places(alloc, &scene.bars, refused_order(key))?;
    let places = listed.as_slice();
    let picture = Picture {
        keys: CallKeys::One(key.one.key),
        hall,
        part: &key.one.part,
        scene: &scene,
        faulty,
        ids: ids.as_str(),
        places,
        before: broken_arrow(key, &scene.bars),
    };
    let saying = Saying {
        n,
        refused,
        hall: hall_among(task.numbered, key.one.key),
        why: own.why.text.as_slice(),
        links: Links {
            targets: targets.as_str(),
            calls: faulty,
        },
        around: task.drawn.around,
    };
    saying.append(alloc, page, key, &picture)
}

/// Draws the keys, and adds a section for each. Beside refused keys those that are none are folded.
pub(crate) fn add_sections(
    alloc: Global,
    page: &mut Vec<u8>,
    task: &Task<'_>,
    refused: bool,
    keys: &[PicturedKey<'_>],
) -> Result<(), Memory>
    requires explained { All (IsExplained task.now.numbered.now) keys.now }
    requires drawable { All IsDrawable (map judged_in keys.now) }
    ensures { OnOk result (Adds (IsEach (IsSectionOf task.now.numbered.now task.now.drawn refused) 0
        (map with_faulty keys.now)) page.old.items page.new.items) }
{
    for (n, own) in keys.iter().enumerate() {
        add_section(alloc, page, task, refused, n, own)?;
    }
    Ok(())
}
