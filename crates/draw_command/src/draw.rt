//! `abd draw`: the keys of a history, and pictures of their calls.
use crate::drawn::Drawn;
use crate::front::append_hint;
use crate::history_pictures::add_keys;
use crate::section::Task;
use crate::titled::page_around;
use cli::{Made, Outcome};
use history_file::NumberedHistories;
use judged_keys::Presentation;
use parallel_keys::KeyToCheck;
use std::alloc::Global;

/// The keys that are selected are drawn on a page, whose title says how many are refused, if one is: a
/// table of them, refused ones first, and for the first of them a section. It has what was found, of a
/// refused key the sentences of its explanation, and a picture of the calls: of a key that is a yes with
/// the linearization points of its order, or of the order that its tags make; of a refused one with the
/// calls marked that show why. A key with many calls shows some of them.
impl Presentation for Drawn<'_> {
    ghost use Rattle.draw_command.specs.Making.{IsMadeOf};

    ghost Presents = { IsMadeOf };

    fn present(
        &self,
        alloc: Global,
        numbered: &NumberedHistories,
        keys: Vec<KeyToCheck<'_>>,
    ) -> Made<'static> {
        let task = Task {
            numbered,
            drawn: *self,
        };
        let mut content = Vec::new(alloc);
        append_hint(
            &mut content,
            self.selection.judges_no_notes(keys.as_slice()),
        )?;
        let told = add_keys(alloc, &mut content, &task, keys)?;
        let page = page_around(alloc, self.file, told, content.as_slice())?;
        Ok(Outcome::of_text(alloc, page, told.found))
    }
}
