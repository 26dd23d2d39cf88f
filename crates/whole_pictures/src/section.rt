//! The section of a hall, and that of keys without calls.
ghost use Rattle.std.specs.Prelude.{◌≡◌, ◌<◌, ◌++◌, [], IfOk, List, None, OnOk, length, map};
ghost use Rattle.markup.specs.Markup.{rendered};
ghost use Rattle.parallel_keys.specs.CheckedKeys.{CheckedKey};
ghost use Rattle.parallel_keys.specs.KeysToCheck.{what_of};
ghost use Rattle.pictures.specs.Layout.{IsInOrder};
ghost use Rattle.store_orders.specs.Turns.{AreCallsOf};
ghost use Rattle.judged_keys.specs.Halls.{HasLinesOfEach};
ghost use Rattle.draw_command.specs.Making.{Adds};
ghost use Rattle.draw_command.specs.Pages.{showing_markup};
ghost use Rattle.whole_pictures.specs.Together.{IsTogether};
ghost use Rattle.whole_pictures.specs.WholePages.{AreOfHall, IsHall, IsSectionOfHall, IsSectionOfOthers};
ghost use Rattle.whole_pictures.specs.WholePages.{others_markup, reason_markup, section_markup};
ghost use Rattle.whole_pictures.specs.WholeScenes.{CanBeShown};

use crate::found::shown_of;
use crate::scene::whole_scene;
use crate::texts::{append_heading, append_reason, found_class};
use crate::together::{Together, judge_together};
use crate::whole::Task;
use crate::words;
use call_links::{Links, bar_ids, bar_targets};
use draw_command::{append_showing, why_of};
use explanations::HallRows;
use history_file::NumberedHistories;
use judged_keys::hall_of;
use markup::{Attribute, AttributeName, Element, append_closing, append_opening, append_plain};
use merged_keys::{all_calls, merge_keys};
use parallel_keys::KeyToCheck;
use pictures::{CallKeys, Picture};
use recorder::Part;
use scenes::Scene;
use std::alloc::Global;
use store_orders::laws::all_calls_are_apart;
use tag::{Memory, OpId};

/// What the section of a hall says above its picture, beside what was found of the keys together.
#[derive(Clone, Copy)]
struct Saying<'a> {
    /// The number of the hall, and how many halls there are.
    number: usize,
    halls: usize,
    /// The sentences that say why a key is refused.
    why: &'a [u8],
    links: Links<'a>,
    /// The call around which calls are to be shown, if one is given.
    around: Option<u64>,
}

impl Saying<'_> {
    /// Adds the section that says that and shows that picture.
    #[tactic(auto, unfolding(markup::specs::Markup::rendered))]
    fn append(
        &self,
        alloc: Global,
        page: &mut Vec<u8>,
        together: &Together<'_>,
        picture: &Picture<'_>,
    ) -> Result<(), Memory>
        requires { IsInOrder picture.now.scene.now }
        ensures { OnOk result (page.new.items ≡ page.old.items ++ rendered
            (section_markup self.now.number self.now.halls together.now
            (reason_markup self.now.links.targets.now self.now.links.calls.now together.now
            self.now.why.now) (showing_markup self.now.around picture.now))) }
    {
        let id = Attribute::Numbered(AttributeName::Id, words::HALL_ID, self.number as u64);
        let class = Attribute::Words(AttributeName::Class, found_class(together));
        append_opening(page, Element::Section, &[id, class])?;
        append_heading(page, self.number, self.halls, together)?;
        append_reason(alloc, page, &self.links, together, self.why)?;
        append_showing(alloc, page, self.around, picture)?;
        append_closing(page, Element::Section)
    }
}

/// The picture of all calls of a hall, as the scene has them; the ids of its bars begin with `ids`.
fn picture_of<'a>(
    hall: HallRows<'a>,
    calls: &'a Part<'a>,
    scene: &'a Scene,
    faulty: &'a [OpId],
    ids: &'a str,
) -> Picture<'a>
    ensures keys { result.keys ≡ CallKeys.Recorded }
    ensures hall { result.hall ≡ hall.entry }
    ensures calls { result.part.now ≡ calls.now }
    ensures scene { result.scene.now ≡ scene.now }
    ensures faulty { result.faulty.now ≡ faulty.now }
    ensures ids { result.ids.now ≡ ids.now }
    ensures places { result.places.now ≡ [] }
    ensures before { result.before ≡ None }
{
    Picture {
        keys: CallKeys::Recorded,
        hall,
        part: calls,
        scene,
        faulty,
        ids,
        places: &[],
        before: None,
    }
}

/// Draws these calls of the hall, and adds its section.
fn draw_calls(
    alloc: Global,
    page: &mut Vec<u8>,
    task: &Task<'_>,
    hall: HallRows<'_>,
    number: usize,
    together: &Together<'_>,
    calls: &Part<'_>,
) -> Result<(), Memory>
    requires hall { IsHall task.now.numbered.now number hall }
    requires shown { CanBeShown hall.history.now.rows together.now }
    requires calls { AreCallsOf hall.history.now.rows calls.now }
    ensures { OnOk result (Adds (IsSectionOfHall task.now.numbered.now task.now.drawn number
        together.now) page.old.items page.new.items) }
{
    all_calls_are_apart();
    let shown = shown_of(alloc, &hall, together)?;
    let order = shown.order.as_slice();
    let faulty = shown.why.faulty.as_slice();
    let scene = whole_scene(alloc, &task.drawn, hall.history, calls, order, faulty)?;
    let ids = bar_ids(alloc, number)?;
    let targets = bar_targets(alloc, number)?;
    let picture = picture_of(hall, calls, &scene, faulty, ids.as_str());
    let halls = task.numbered.histories.halls().len();
    let saying = Saying {
        number,
        halls,
        why: shown.why.text.as_slice(),
        links: Links {
            targets: targets.as_str(),
            calls: faulty,
        },
        around: task.drawn.around,
    };
    saying.append(alloc, page, together, &picture)
}

/// Draws all calls of the hall, and adds its section.
fn draw_hall(
    alloc: Global,
    page: &mut Vec<u8>,
    task: &Task<'_>,
    hall: HallRows<'_>,
    number: usize,
    together: &Together<'_>,
) -> Result<(), Memory>
    requires hall { IsHall task.now.numbered.now number hall }
    requires shown { CanBeShown hall.history.now.rows together.now }
    ensures { OnOk result (Adds (IsSectionOfHall task.now.numbered.now task.now.drawn number
        together.now) page.old.items page.new.items) }
{
    let merged = merge_keys(alloc, hall.history)?;
    let parts = merged.parts()?;
    let calls = all_calls(&parts);
    draw_calls(alloc, page, task, hall, number, together, &calls)
}

/// The rows of the hall of that number, and the lines on which they stand.
pub(crate) fn hall_at(numbered: &NumberedHistories, number: usize) -> HallRows<'_>
    requires lines { HasLinesOfEach numbered.now }
    requires number { number < length numbered.now.histories.halls }
    ensures { IsHall numbered.now number result }
{
    let histories = numbered.histories.halls();
    HallRows {
        history: &histories[number],
        lines: &numbered.lines[number],
    }
}

/// Judges the keys of a hall, draws all its calls, and adds its section. What was found of the keys
/// together.
pub(crate) fn add_section<'a>(
    alloc: Global,
    page: &mut Vec<u8>,
    task: &Task<'_>,
    number: usize,
    keys: &'a [KeyToCheck<'a>],
) -> Result<Together<'a>, Memory>
    requires lines { HasLinesOfEach task.now.numbered.now }
    requires number { number < length task.now.numbered.now.histories.halls }
    requires keys { AreOfHall task.now.numbered.now number (map what_of keys.now) }
    ensures found { IfOk result
        (IsTogether task.now.drawn.selection.judged (map what_of keys.now)) }
    ensures added { IfOk result (λ t. Adds (IsSectionOfHall task.now.numbered.now task.now.drawn
        number t) page.old.items page.new.items) }
{
    let hall = hall_at(task.numbered, number);
    let together = judge_together(alloc, task.drawn.selection.judged, keys)?;
    draw_hall(alloc, page, task, hall, number, &together)?;
    Ok(together)
}

/// Adds the section of keys without calls of which one is refused.
#[tactic(auto, unfolding(markup::specs::Markup::rendered))]
fn append_others(
    alloc: Global,
    page: &mut Vec<u8>,
    together: &Together<'_>,
    why: &[u8],
) -> Result<(), Memory>
    ensures { OnOk result (page.new.items
        ≡ page.old.items ++ rendered (others_markup together.now why.now)) }
{
    let id = Attribute::Words(AttributeName::Id, words::OTHERS_ID);
    let class = Attribute::Words(AttributeName::Class, found_class(together));
    append_opening(page, Element::Section, &[id, class])?;
    append_plain(page, Element::H2, words::NO_CALLS)?;
    let links = Links {
        targets: "",
        calls: &[],
    };
    append_reason(alloc, page, &links, together, why)?;
    append_closing(page, Element::Section)
}

/// Adds a section if one of the keys without calls, of which that was found, is refused.
fn draw_others(
    alloc: Global,
    page: &mut Vec<u8>,
    task: &Task<'_>,
    together: &Together<'_>,
) -> Result<(), Memory>
    requires lines { HasLinesOfEach task.now.numbered.now }
    requires found { (keys : List CheckedKey)
        × IsTogether task.now.drawn.selection.judged keys together.now }
    ensures { OnOk result (Adds (IsSectionOfOthers task.now.numbered.now together.now)
        page.old.items page.new.items) }
{
    match together {
        Together::Refused(key, _) => {
            let hall = hall_of(task.numbered, key.one.key);
            let why = why_of(alloc, &hall, key)?;
            append_others(alloc, page, together, why.text.as_slice())
        }
        Together::Ordered(_) => Ok(()),
        Together::Undecided(_) => Ok(()),
    }
}

/// Judges keys without calls, and adds a section if one is refused. What was found of them together.
pub(crate) fn add_others<'a>(
    alloc: Global,
    page: &mut Vec<u8>,
    task: &Task<'_>,
    keys: &'a [KeyToCheck<'a>],
) -> Result<Together<'a>, Memory>
    requires { HasLinesOfEach task.now.numbered.now }
    ensures found { IfOk result
        (IsTogether task.now.drawn.selection.judged (map what_of keys.now)) }
    ensures added { IfOk result (λ t. Adds (IsSectionOfOthers task.now.numbered.now t)
        page.old.items page.new.items) }
{
    let together = judge_together(alloc, task.drawn.selection.judged, keys)?;
    draw_others(alloc, page, task, &together)?;
    Ok(together)
}
