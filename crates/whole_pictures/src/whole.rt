//! `abd draw --whole`: pictures of all keys together.
ghost use Rattle.std.specs.Prelude.{◌≡◌, is_some};
ghost use Rattle.draw_command.specs.Drawings.{drawn_by};

use crate::page::add_halls;
use crate::words;
use cli::{Made, Outcome};
use command_line::DrawAsked;
use draw_command::{
    Drawn, append_hint, append_styles, begin_content, begin_page, end_page, title_of,
};
use history_file::NumberedHistories;
use judged_keys::Presentation;
use parallel_keys::KeyToCheck;
use std::alloc::Global;

/// What is drawn of histories, all their keys together: by what the keys are judged, and how many calls
/// a picture shows.
#[derive(Clone, Copy, Debug)]
pub struct Whole<'a> {
    pub drawn: Drawn<'a>,
}

impl<'a> Whole<'a> {
    /// What the words ask for.
    pub fn of(asked: &DrawAsked<'a>) -> Whole<'a>
        ensures file { result.drawn.file.now ≡ asked.now.keys.history.now }
        ensures judged { result.drawn.selection.judged
            ≡ drawn_by asked.now.by (is_some asked.now.keys.orders) }
        ensures calls { result.drawn.calls ≡ asked.now.calls }
        ensures around { result.drawn.around ≡ asked.now.around }
    {
        Whole {
            drawn: Drawn::of(asked),
        }
    }
}

/// What is drawn of which histories.
#[derive(Clone, Copy)]
pub(crate) struct Task<'a> {
    pub(crate) numbered: &'a NumberedHistories,
    pub(crate) drawn: Drawn<'a>,
}

/// All keys of each hall are drawn together: a section with a picture of all their calls. If each key has
/// an order, the picture has the points of one order of all calls. Else the section says what was found of
/// the first key that is refused or undecided; of a refused one it has the sentences of its explanation,
/// and the calls are marked that show why.
impl Presentation for Whole<'_> {
    ghost use Rattle.whole_pictures.specs.WholePages.{IsWholePage};

    ghost Presents = { IsWholePage };

    fn present(
        &self,
        alloc: Global,
        numbered: &NumberedHistories,
        keys: Vec<KeyToCheck<'_>>,
    ) -> Made<'static> {
        let task = Task {
            numbered,
            drawn: self.drawn,
        };
        let mut page = Vec::new(alloc);
        let title = title_of(self.drawn.file, words::TITLE);
        begin_page(&mut page, title)?;
        append_styles(&mut page)?;
        begin_content(&mut page, title)?;
        append_hint(
            &mut page,
            self.drawn.selection.judges_no_notes(keys.as_slice()),
        )?;
        let found = add_halls(alloc, &mut page, &task, keys.as_slice())?;
        end_page(&mut page)?;
        Ok(Outcome::of_text(alloc, page, found))
    }
}
