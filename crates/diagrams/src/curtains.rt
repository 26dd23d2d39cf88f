//! Step by step: the curtains of the rows, each of which hides the rows after its own and tells what
//! is done in it.
ghost use Rattle.std.specs.Prelude.{◌≡◌, ◌++◌, OnOk};
ghost use Rattle.markup.specs.Markup.{rendered};
ghost use Rattle.diagrams.specs.Curtains.{curtain_markup, curtains, link_at, link_back, link_next};
ghost use Rattle.diagrams.specs.Curtains.{link_to, links, start_link, told_text};

use crate::bars::append_shut;
use crate::style::{
    ALL, BACK, CURTAIN, LINK, MESSAGES_LINK, MORE, NEXT, NO_CURTAINS, SENTENCE, STEP_BY_STEP,
    STEP_ID, STEP_LINK,
};
use diagram_places::sizes::{
    ALL_LEFT, BACK_LEFT, COMMAND_LEFT, LETTERS, LINK_BASE, MOST_CURTAINS, NAMES_BASE, NEXT_LEFT,
    SENTENCE_LETTERS, TOLD_LEFT, TOLD_LETTERS,
};
use diagram_places::{curtain_frame, down, rows_of};
use labels::{Frame, IndexedShape, Spot, append_each_indexed, append_label};
use markup::{Attribute, AttributeName, Element, append_closing, append_opening};
use message_scenes::{MessageScene, StepRow};
use std::alloc::Global;
use tag::Memory;

/// The curtains of a scene's rows.
#[derive(Clone, Copy)]
pub(crate) struct Curtains<'a> {
    pub(crate) alloc: Global,
    pub(crate) scene: &'a MessageScene,
}

/// Adds a link to what is said of the diagram as a whole.
fn append_link_to_all(alloc: Global, page: &mut Vec<u8>, y: u64) -> Result<(), Memory>
    ensures { OnOk result (page.new.items ≡ page.old.items
        ++ rendered (link_at ALL_LEFT y MESSAGES_LINK.now ALL.now)) }
{
    let target = [Attribute::Words(AttributeName::Href, MESSAGES_LINK)];
    append_opening(page, Element::A, &target)?;
    append_label(
        alloc,
        page,
        &Spot::new(LINK, ALL_LEFT, y, LETTERS),
        ALL.as_bytes(),
    )?;
    append_closing(page, Element::A)
}

/// Adds a link to the curtain of the row.
fn append_link_to(
    alloc: Global,
    page: &mut Vec<u8>,
    x: u64,
    y: u64,
    row: u64,
    words: &str,
) -> Result<(), Memory>
    ensures { OnOk result
        (page.new.items ≡ page.old.items ++ rendered (link_to x y row words.now)) }
{
    let target = [Attribute::Numbered(AttributeName::Href, STEP_LINK, row)];
    append_opening(page, Element::A, &target)?;
    append_label(
        alloc,
        page,
        &Spot::new(LINK, x, y, LETTERS),
        words.as_bytes(),
    )?;
    append_closing(page, Element::A)
}

/// Adds the link back from the curtain of the row.
fn append_link_back(alloc: Global, page: &mut Vec<u8>, y: u64, row: usize) -> Result<(), Memory>
    ensures { OnOk result (page.new.items ≡ page.old.items ++ rendered (link_back y row)) }
{
    if row == 0 {
        return Ok(());
    }
    append_link_to(alloc, page, BACK_LEFT, y, (row - 1) as u64, BACK)
}

impl Curtains<'_> {
    /// Adds the link on from the curtain of the row.
    fn append_link_next(&self, page: &mut Vec<u8>, y: u64, row: usize) -> Result<(), Memory>
        ensures { OnOk result (page.new.items
            ≡ page.old.items ++ rendered (link_next self.now.scene.now y row)) }
    {
        if row < rows_of(self.scene).saturating_sub(1) {
            append_link_to(self.alloc, page, NEXT_LEFT, y, (row + 1) as u64, NEXT)
        } else {
            Ok(())
        }
    }

    /// Adds the links of the curtain of the row.
    fn append_links(&self, page: &mut Vec<u8>, y: u64, row: usize) -> Result<(), Memory>
        ensures { OnOk result (page.new.items
            ≡ page.old.items ++ rendered (links self.now.scene.now y row)) }
    {
        append_link_back(self.alloc, page, y, row)?;
        self.append_link_next(page, y, row)?;
        append_link_to_all(self.alloc, page, y)
    }

    /// Adds what is told of the row.
    fn append_told(&self, page: &mut Vec<u8>, y: u64, row: &StepRow) -> Result<(), Memory>
        ensures { OnOk result
            (page.new.items ≡ page.old.items ++ rendered (told_text y row.now)) }
    {
        let spot = Spot::new(SENTENCE, TOLD_LEFT, y, TOLD_LETTERS);
        append_label(self.alloc, page, &spot, row.told.as_bytes())
    }
}

impl IndexedShape for Curtains<'_> {
    type Item = StepRow;

    ghost can_append = { λ curtains index. Unit {0} };

    ghost shape = { λ curtains. curtain_markup curtains.scene.now };

    fn append(&self, page: &mut Vec<u8>, index: usize, item: &StepRow) -> Result<(), Memory> {
        let attributes = [
            Attribute::Numbered(AttributeName::Id, STEP_ID, index as u64),
            Attribute::Words(AttributeName::Class, CURTAIN),
        ];
        append_opening(page, Element::G, &attributes)?;
        append_shut(page, CURTAIN, curtain_frame(self.scene, index))?;
        self.append_links(page, down(LINK_BASE, index), index)?;
        self.append_told(page, down(LINK_BASE, index), item)?;
        append_closing(page, Element::G)
    }
}

/// Adds the link to the first curtain, if there is one.
fn append_start(alloc: Global, page: &mut Vec<u8>, scene: &MessageScene) -> Result<(), Memory>
    ensures { OnOk result (page.new.items ≡ page.old.items ++ rendered (start_link scene.now)) }
{
    if rows_of(scene) > 0 {
        append_link_to(alloc, page, COMMAND_LEFT, NAMES_BASE, 0, STEP_BY_STEP)
    } else {
        Ok(())
    }
}

/// Adds the curtains of the rows, or that there are none.
pub(crate) fn append_curtains(
    alloc: Global,
    page: &mut Vec<u8>,
    scene: &MessageScene,
) -> Result<(), Memory>
    ensures { OnOk result (page.new.items ≡ page.old.items ++ rendered (curtains scene.now)) }
{
    if rows_of(scene) <= MOST_CURTAINS {
        append_start(alloc, page, scene)?;
        append_each_indexed(page, &Curtains { alloc, scene }, &scene.rows)
    } else {
        let spot = Spot::new(MORE, COMMAND_LEFT, NAMES_BASE, SENTENCE_LETTERS);
        append_label(alloc, page, &spot, NO_CURTAINS.as_bytes())
    }
}
