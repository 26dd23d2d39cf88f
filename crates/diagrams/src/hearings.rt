//! What a diagram says of the replies that clients hear.
ghost use Rattle.diagram_places.specs.Layout.{HasClientsInOrder};
ghost use Rattle.diagrams.specs.Hearings.{hearing_text};

use crate::style::{COUNTED, COUNTS_NOTHING, ENOUGH, IGNORED};
use crate::texts::CallTexts;
use client_phases::Taken;
use diagram_words::say_votes;
use labels::Shape;
use message_scenes::Hearing;
use tag::Memory;

/// The replies that a scene's clients hear.
#[derive(Clone, Copy)]
pub(crate) struct Hearings<'a> {
    pub(crate) texts: CallTexts<'a>,
}

impl Shape for Hearings<'_> {
    type Item = Hearing;

    ghost can_append = { λ hearings. HasClientsInOrder hearings.texts.scene.now };

    ghost shape = { λ hearings. hearing_text hearings.texts.scene.now };

    fn append(&self, page: &mut Vec<u8>, item: &Hearing) -> Result<(), Memory> {
        let (client, row) = (item.client, item.row);
        match item.taken {
            Taken::Stale => {
                self.texts
                    .append_text(page, IGNORED, client, row, COUNTS_NOTHING.as_bytes())
            }
            Taken::Counted => {
                let mut words = Vec::new(self.texts.alloc);
                say_votes(&mut words, item.votes, item.needed)?;
                self.texts.append_text(page, COUNTED, client, row, &words)
            }
            Taken::Ready => {
                self.texts
                    .append_text(page, COUNTED, client, row, ENOUGH.as_bytes())
            }
            Taken::Noted(_) | Taken::Agreed(_) => Ok(()),
        }
    }
}
