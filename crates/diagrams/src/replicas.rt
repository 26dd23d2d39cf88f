//! What a diagram shows of replicas: when they are down, and what they hold after each put.
ghost use Rattle.std.specs.Prelude.{◌≡◌};
ghost use Rattle.diagrams.specs.Replicas.{down_markup, holding_class, holding_markup};

use crate::bars::append_shut;
use crate::style::{DOWN_TIME, DOWN_WORD, HOLDS, HOLDS_OWN};
use diagram_places::sizes::{HOLDING_LEFT, LETTERS, TEXT_BASE};
use diagram_places::{down, frame_of, replica_x};
use diagram_words::say_holding;
use labels::{Frame, Shape, Spot, append_label};
use message_scenes::{DownTime, Holding, MessageScene};
use std::alloc::Global;
use tag::Memory;

/// The down times of a scene.
#[derive(Clone, Copy)]
pub(crate) struct Downs<'a> {
    pub(crate) alloc: Global,
    pub(crate) scene: &'a MessageScene,
}

/// What a scene's replicas hold after each put.
#[derive(Clone, Copy)]
pub(crate) struct Holdings<'a> {
    pub(crate) alloc: Global,
    pub(crate) scene: &'a MessageScene,
}

/// The class of what a replica holds, by whether it takes it.
fn holding_class(takes: bool) -> &'static str
    ensures { result.now ≡ holding_class takes }
{
    if takes { HOLDS } else { HOLDS_OWN }
}

impl Shape for Downs<'_> {
    type Item = DownTime;

    ghost can_append = { λ downs. Unit {0} };

    ghost shape = { λ downs. down_markup downs.scene.now };

    fn append(&self, page: &mut Vec<u8>, item: &DownTime) -> Result<(), Memory> {
        append_shut(page, DOWN_TIME, frame_of(self.scene, item))?;
        let x = replica_x(self.scene, HOLDING_LEFT, item.replica.get());
        let spot = Spot::new(DOWN_TIME, x, down(TEXT_BASE, item.stops), LETTERS);
        append_label(self.alloc, page, &spot, DOWN_WORD.as_bytes())
    }
}

impl Shape for Holdings<'_> {
    type Item = Holding;

    ghost can_append = { λ holdings. Unit {0} };

    ghost shape = { λ holdings. holding_markup holdings.scene.now };

    fn append(&self, page: &mut Vec<u8>, item: &Holding) -> Result<(), Memory> {
        let x = replica_x(self.scene, HOLDING_LEFT, item.replica.get());
        let class = holding_class(item.takes);
        let spot = Spot::new(class, x, down(TEXT_BASE, item.row), LETTERS);
        let mut words = Vec::new(self.alloc);
        say_holding(&mut words, item)?;
        append_label(self.alloc, page, &spot, &words)
    }
}
