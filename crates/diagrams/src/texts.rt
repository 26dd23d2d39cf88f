//! The texts of the calls of a diagram, at their bars.
ghost use Rattle.std.specs.Prelude.{◌≡◌, ◌++◌, OnOk};
ghost use Rattle.markup.specs.Markup.{rendered};
ghost use Rattle.diagram_places.specs.Layout.{HasClientsInOrder};
ghost use Rattle.diagrams.specs.Calls.{begin_text, call_texts, note_text, outcome_text, text_at};
ghost use Rattle.diagrams.specs.Diagrams.{texts};

use crate::style::{BEGIN, NOTE, OUTCOME, STOPPED};
use diagram_places::sizes::{LETTERS, TEXT_BASE, TEXT_RIGHT};
use diagram_places::{client_x, down};
use diagram_words::{say_begin, say_note, say_returned};
use labels::{Shape, Spot, append_label};
use message_scenes::{CallBar, CallEnd, MessageScene, PlacedNote};
use std::alloc::Global;
use tag::{ClientId, Memory};

/// The texts of a scene's calls.
#[derive(Clone, Copy)]
pub(crate) struct CallTexts<'a> {
    pub(crate) alloc: Global,
    pub(crate) scene: &'a MessageScene,
}

impl CallTexts<'_> {
    /// Adds the words, in that class, left of the client's lifeline in that row.
    pub(crate) fn append_text(
        &self,
        page: &mut Vec<u8>,
        class: &'static str,
        client: ClientId,
        row: usize,
        words: &[u8],
    ) -> Result<(), Memory>
        requires { HasClientsInOrder self.now.scene.now }
        ensures { OnOk result (page.new.items ≡ page.old.items
            ++ rendered (text_at self.now.scene.now class.now client row words.now)) }
    {
        let x = client_x(self.scene, TEXT_RIGHT, client);
        let spot = Spot::new(class, x, down(TEXT_BASE, row), LETTERS);
        append_label(self.alloc, page, &spot, words)
    }

    /// Adds what the call does, where it begins.
    fn append_begin(&self, page: &mut Vec<u8>, bar: &CallBar) -> Result<(), Memory>
        requires { HasClientsInOrder self.now.scene.now }
        ensures { OnOk result
            (page.new.items ≡ page.old.items ++ rendered (begin_text self.now.scene.now bar.now)) }
    {
        let mut words = Vec::new(self.alloc);
        say_begin(&mut words, bar)?;
        self.append_text(page, BEGIN, bar.client, bar.begins, &words)
    }

    /// Adds the tag that the call notes, if it does.
    fn append_note(&self, page: &mut Vec<u8>, bar: &CallBar) -> Result<(), Memory>
        requires { HasClientsInOrder self.now.scene.now }
        ensures { OnOk result (page.new.items ≡ page.old.items
            ++ rendered (note_text self.now.scene.now bar.now.client bar.now.note)) }
    {
        match bar.note {
            None => Ok(()),
            Some(PlacedNote { row, tag }) => {
                let mut words = Vec::new(self.alloc);
                say_note(&mut words, tag)?;
                self.append_text(page, NOTE, bar.client, row, &words)
            }
        }
    }

    /// Adds how the call ends.
    fn append_outcome(&self, page: &mut Vec<u8>, bar: &CallBar) -> Result<(), Memory>
        requires { HasClientsInOrder self.now.scene.now }
        ensures { OnOk result (page.new.items ≡ page.old.items
            ++ rendered (outcome_text self.now.scene.now bar.now.client bar.now.end)) }
    {
        match &bar.end {
            CallEnd::Answered { row, returned } => {
                let mut words = Vec::new(self.alloc);
                say_returned(&mut words, returned)?;
                self.append_text(page, OUTCOME, bar.client, *row, &words)
            }
            CallEnd::Stopped(row) => {
                self.append_text(page, OUTCOME, bar.client, *row, STOPPED.as_bytes())
            }
            CallEnd::Open => Ok(()),
        }
    }
}

impl Shape for CallTexts<'_> {
    type Item = CallBar;

    ghost can_append = { λ texts. HasClientsInOrder texts.scene.now };

    ghost shape = { λ texts. call_texts texts.scene.now };

    fn append(&self, page: &mut Vec<u8>, item: &CallBar) -> Result<(), Memory> {
        self.append_begin(page, item)?;
        self.append_note(page, item)?;
        self.append_outcome(page, item)
    }
}
