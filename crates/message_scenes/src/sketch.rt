//! Scenes under way: the first rows are drawn, and those after them are counted.
ghost use Rattle.std.specs.Prelude.{[]};
ghost use Rattle.message_scenes.specs.Scenes.{IsRisingOf};
ghost use Rattle.message_scenes.specs.Sketches.{IsSceneFrom, IsSketched};

use crate::scene::{ComingStep, MessageScene};
use quorum::Quorums;
use script_runs::{Notice, Observer, Origin, Quota};
use std::alloc::Global;
use tag::{ClientId, Memory};
use world_steps::{Effect, Refusal, Step, World};

/// The scene so far, and how many more rows are drawn.
#[derive(Drop)]
pub struct Sketch {
    scene: MessageScene,
    quota: Quota,
}

/// Has the names in rising order, each once.
fn raise(names: &mut Vec<ClientId>)
    ensures { IsRisingOf names.old.items names.new.items }
{
    names.sort_unstable();
    names.dedup();
}

impl Sketch {
    /// Before the first step of a run with these quorums, of which so many rows are drawn.
    pub fn new(alloc: Global, quorums: Quorums, most: u32) -> Sketch
        ensures { IsSketched (record { quorums = quorums; most = most }) [] result }
    {
        Sketch {
            scene: MessageScene::new(alloc, quorums),
            quota: Quota::new(most),
        }
    }

    /// What a diagram of the messages shows of the run that the sketch observed.
    ///
    /// The rows of the scene are what was tried, in its order, at most as many as were asked for;
    /// it says how many further ones there were.
    pub fn into_scene(self) -> MessageScene
        ensures { IsSceneFrom self result }
    {
        let Sketch { mut scene, quota } = self;
        raise(&mut scene.clients);
        scene.omitted = quota.omitted;
        scene
    }
}

/// A step that is refused has a row, too, and so has a call that can't be finished.
impl Observer for Sketch {
    ghost use Rattle.message_scenes.specs.Sketches.{DrawsOn, NotesStep};

    /// None of a step that isn't drawn.
    type Noted = Option<ComingStep>;

    ghost sees = { DrawsOn };

    ghost notes = { NotesStep };

    fn before(
        &mut self,
        world: &World,
        origin: &Origin,
        step: &Step,
    ) -> Result<Option<ComingStep>, Memory> {
        if !self.quota.admits() {
            return Ok(None);
        }
        Ok(Some(self.scene.coming(world, origin, step)?))
    }

    fn after(
        &mut self,
        world: &World,
        noted: Option<ComingStep>,
        effect: &Effect,
    ) -> Result<(), Memory> {
        match noted {
            Some(coming) => {
                self.scene.add(world, coming, effect)?;
                Ok(())
            }
            None => Ok(()),
        }
    }

    fn refused(&mut self, origin: &Origin, step: &Step, why: Refusal) -> Result<(), Memory> {
        if self.quota.admits() {
            self.scene.add_refused(origin, step, why)?;
        }
        Ok(())
    }

    fn ignores_refused(&self, _origin: &Origin) -> bool {
        false
    }

    fn notice(&mut self, line: u64, notice: &Notice) -> Result<(), Memory> {
        match notice {
            Notice::Unfinished(client, why) => {
                if self.quota.admits() {
                    self.scene.add_unfinished(line, *client, *why)?;
                }
                Ok(())
            }
            _ => Ok(()),
        }
    }
}
