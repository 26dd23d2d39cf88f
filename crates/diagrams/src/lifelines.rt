//! The lifelines of a diagram: one for each client, and one for each replica.
ghost use Rattle.std.specs.Prelude.{◌≡◌, ◌<◌, ◌++◌, OnOk};
ghost use Rattle.markup.specs.Markup.{rendered};
ghost use Rattle.tag.specs.Limits.{replica_limit};
ghost use Rattle.labels.specs.Each.{each_below};
ghost use Rattle.diagram_places.specs.Layout.{HasClientsInOrder, replicas_of};
ghost use Rattle.diagrams.specs.Lifelines.{client_lifeline, lifeline, lifelines, replica_lifeline};

use crate::style::{CLIENT_WORD, LIFELINE, WHO};
use diagram_places::sizes::{CLIENT, FOOT_BASE, LETTERS, LONG, MOMENT, NAMES_BASE, REPLICA, TOP};
use diagram_places::{client_x, down, replica_x, replicas_of, rows_of};
use diagram_words::say_replica;
use labels::{Shape, Spot, Way, append_each, append_label, append_line};
use message_scenes::MessageScene;
use sentences::append_number;
use std::alloc::Global;
use tag::{ClientId, Memory, ReplicaId};

/// The lifelines of a scene: as shapes of a list, those of its clients.
#[derive(Clone, Copy)]
struct Lifelines<'a> {
    alloc: Global,
    scene: &'a MessageScene,
}

impl Lifelines<'_> {
    /// Adds the lifeline there, with that name above it and, in a long diagram, below it.
    fn append_lifeline(&self, page: &mut Vec<u8>, x: u64, name: &[u8]) -> Result<(), Memory>
        ensures { OnOk result (page.new.items
            ≡ page.old.items ++ rendered (lifeline self.now.scene.now x name.now)) }
    {
        let rows = rows_of(self.scene);
        append_line(page, LIFELINE, Way::upright(x, TOP, down(MOMENT, rows)))?;
        let above = Spot::new(WHO, x, NAMES_BASE, LETTERS);
        append_label(self.alloc, page, &above, name)?;
        if rows <= LONG {
            return Ok(());
        }
        let below = Spot::new(WHO, x, down(FOOT_BASE, rows), LETTERS);
        append_label(self.alloc, page, &below, name)
    }

    /// Adds the lifeline of the replica of that number.
    fn append_replica(&self, page: &mut Vec<u8>, number: u8) -> Result<(), Memory>
        requires { number < replica_limit }
        ensures { OnOk result (page.new.items
            ≡ page.old.items ++ rendered (replica_lifeline self.now.scene.now number)) }
    {
        let replica = ReplicaId::new(number).unwrap();
        let mut name = Vec::new(self.alloc);
        say_replica(&mut name, &self.scene.quorums, replica)?;
        self.append_lifeline(page, replica_x(self.scene, REPLICA, number), &name)
    }
}

impl Shape for Lifelines<'_> {
    type Item = ClientId;

    ghost can_append = { λ lifelines. HasClientsInOrder lifelines.scene.now };

    ghost shape = { λ lifelines. client_lifeline lifelines.scene.now };

    fn append(&self, page: &mut Vec<u8>, item: &ClientId) -> Result<(), Memory> {
        let mut name = Vec::new(self.alloc);
        append_number(&mut name, CLIENT_WORD, u64::from(item.get()))?;
        self.append_lifeline(page, client_x(self.scene, CLIENT, *item), &name)
    }
}

/// Adds the lifelines of the replicas.
fn append_replicas(alloc: Global, page: &mut Vec<u8>, scene: &MessageScene) -> Result<(), Memory>
    ensures { OnOk result (page.new.items ≡ page.old.items
        ++ rendered (each_below (replica_lifeline scene.now) (replicas_of scene.now))) }
{
    let lifelines = Lifelines { alloc, scene };
    for number in 0..replicas_of(scene) {
        lifelines.append_replica(page, number)?;
    }
    Ok(())
}

/// Adds the lifelines.
pub(crate) fn append_lifelines(
    alloc: Global,
    page: &mut Vec<u8>,
    scene: &MessageScene,
) -> Result<(), Memory>
    requires { HasClientsInOrder scene.now }
    ensures { OnOk result (page.new.items ≡ page.old.items ++ rendered (lifelines scene.now)) }
{
    append_each(page, &Lifelines { alloc, scene }, &scene.clients)?;
    append_replicas(alloc, page, scene)
}
