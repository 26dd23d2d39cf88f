//! The rows of a diagram: each has its line of the script at the left, and a line over all columns;
//! where nothing was done, a band, and in it why.
ghost use Rattle.std.specs.Prelude.{◌≡◌, ◌++◌, OnOk};
ghost use Rattle.markup.specs.Markup.{rendered};
ghost use Rattle.diagrams.specs.Rows.{attempt_class, band_of, reason_at, reason_markup, row_line};
ghost use Rattle.diagrams.specs.Rows.{row_markup, row_words, source_at};

use crate::bars::append_shut;
use crate::style::{BAND, COMMAND, LINE_WORD, REASON, REFUSED, SCRIPT_LINK, SOURCE, STEP};
use diagram_places::sizes::{
    COMMAND_LEFT, COMMAND_LETTERS, LINE_LETTERS, LINE_RIGHT, MOMENT, REASON_LEFT, SENTENCE_LETTERS,
    STEP_LEFT, TEXT_BASE,
};
use diagram_places::{band, down, width_of};
use diagram_words::say_attempt;
use labels::{Frame, IndexedShape, Spot, Way, append_label, append_line, append_numbered};
use markup::{Attribute, AttributeName, Element, append_closing, append_opening};
use message_scenes::{Attempt, MessageScene, StepRow};
use std::alloc::Global;
use tag::Memory;
use traces::{append_refusal_reason, append_unsettled};

/// The rows of a scene.
#[derive(Clone, Copy)]
pub(crate) struct Rows<'a> {
    pub(crate) alloc: Global,
    pub(crate) scene: &'a MessageScene,
}

/// Why nothing was done in a scene's rows.
#[derive(Clone, Copy)]
pub(crate) struct Reasons {
    pub(crate) alloc: Global,
}

/// The class of the words of what was tried.
fn attempt_class(attempt: &Attempt) -> &'static str
    ensures { result.now ≡ attempt_class attempt.now }
{
    match attempt {
        Attempt::Taken(_) => COMMAND,
        _ => REFUSED,
    }
}

/// Adds the number of the line of the script, as a link to that line.
fn append_source(alloc: Global, page: &mut Vec<u8>, y: u64, line: u64) -> Result<(), Memory>
    ensures { OnOk result (page.new.items ≡ page.old.items ++ rendered (source_at y line)) }
{
    let place = Attribute::Numbered(AttributeName::Href, SCRIPT_LINK, line);
    append_opening(page, Element::A, &[place])?;
    let spot = Spot::new(SOURCE, LINE_RIGHT, y, LINE_LETTERS);
    append_numbered(alloc, page, &spot, LINE_WORD, line)?;
    append_closing(page, Element::A)
}

impl Rows<'_> {
    /// Adds the line over all columns.
    fn append_row_line(&self, page: &mut Vec<u8>, index: usize) -> Result<(), Memory>
        ensures { OnOk result (page.new.items
            ≡ page.old.items ++ rendered (row_line self.now.scene.now index)) }
    {
        let right = width_of(self.scene);
        append_line(
            page,
            STEP,
            Way::level(down(MOMENT, index), STEP_LEFT, right),
        )
    }

    /// Adds a band over all columns, if nothing was done.
    fn append_band(&self, page: &mut Vec<u8>, index: usize, attempt: &Attempt) -> Result<(), Memory>
        ensures { OnOk result (page.new.items
            ≡ page.old.items ++ rendered (band_of self.now.scene.now index attempt.now)) }
    {
        match attempt {
            Attempt::Taken(_) => Ok(()),
            _ => append_shut(page, BAND, band(self.scene, index)),
        }
    }

    /// Adds the line of the script, and what was tried.
    fn append_words(&self, page: &mut Vec<u8>, index: usize, row: &StepRow) -> Result<(), Memory>
        ensures { OnOk result
            (page.new.items ≡ page.old.items ++ rendered (row_words index row.now)) }
    {
        let y = down(TEXT_BASE, index);
        append_source(self.alloc, page, y, row.origin.line)?;
        let mut words = Vec::new(self.alloc);
        say_attempt(&mut words, &row.attempt)?;
        let class = attempt_class(&row.attempt);
        let command = Spot::new(class, COMMAND_LEFT, y, COMMAND_LETTERS);
        append_label(self.alloc, page, &command, &words)
    }
}

impl IndexedShape for Rows<'_> {
    type Item = StepRow;

    ghost can_append = { λ rows index. Unit {0} };

    ghost shape = { λ rows. row_markup rows.scene.now };

    fn append(&self, page: &mut Vec<u8>, index: usize, item: &StepRow) -> Result<(), Memory> {
        self.append_row_line(page, index)?;
        self.append_band(page, index, &item.attempt)?;
        self.append_words(page, index, item)
    }
}

impl Reasons {
    /// Adds the reason in the row of that index.
    fn append_reason(&self, page: &mut Vec<u8>, index: usize, words: &[u8]) -> Result<(), Memory>
        ensures { OnOk result
            (page.new.items ≡ page.old.items ++ rendered (reason_at index words.now)) }
    {
        let spot = Spot::new(
            REASON,
            REASON_LEFT,
            down(TEXT_BASE, index),
            SENTENCE_LETTERS,
        );
        append_label(self.alloc, page, &spot, words)
    }
}

impl IndexedShape for Reasons {
    type Item = StepRow;

    ghost can_append = { λ reasons index. Unit {0} };

    ghost shape = { λ reasons. reason_markup };

    fn append(&self, page: &mut Vec<u8>, index: usize, item: &StepRow) -> Result<(), Memory> {
        let mut words = Vec::new(self.alloc);
        match &item.attempt {
            Attempt::Taken(_) => Ok(()),
            Attempt::Refused(_, why) => {
                append_refusal_reason(&mut words, *why)?;
                self.append_reason(page, index, &words)
            }
            Attempt::Unfinished(_, why) => {
                append_unsettled(&mut words, *why)?;
                self.append_reason(page, index, &words)
            }
        }
    }
}
