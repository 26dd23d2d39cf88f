//! The steps that complete a pending call.
ghost use Rattle.std.specs.Prelude.{◌≡◌, MatchResult, Some};
ghost use Rattle.world_steps.specs.SoundSystems.{IsSound};
ghost use Rattle.world_settle.specs.Refusing.{IsUnsettled};

use crate::SettleError;
use crate::candidates::next_replica;
use crate::refusing::refuse;
use tag::ClientId;
use world_steps::{Step, World, laws};

/// How far the steps are.
#[derive(Clone, Copy, Debug)]
pub enum Stage {
    /// No message of them is in flight: a round begins, or the client responds.
    Between,
    /// The request of a round is in flight.
    Asked(u32),
    /// The reply of a round is in flight.
    Answered(u32),
    /// The client has responded.
    Done,
}

/// The steps that complete a client's pending call, one after another, in the world that those before
/// left.
#[derive(Clone, Copy, Debug)]
pub struct SettleSteps {
    client: ClientId,
    stage: Stage,
}

impl SettleSteps {
    ghost use Rattle.world_settle.specs.StepsLeft.{BeginsAt, IsNext};

    /// The steps that complete the client's pending call, of which none is refused.
    ///
    /// Of the reasons why it can't be completed the one with the lowest number is answered:
    /// `NoMajority`, `NotPending` or `Room`.
    pub fn new(world: &World, client: ClientId) -> Result<SettleSteps, SettleError>
        ensures begins { MatchResult result (BeginsAt world.now client)
            (λ why. IsUnsettled world.now client why) }
        ensures sound { IsSound world.now }
    {
        laws::steps_keep_a_system_sound();
        refuse(world, client)?;
        Ok(SettleSteps {
            client,
            stage: Stage::Between,
        })
    }

    /// The first step of a round to the least replica that is up and not counted yet; the response if
    /// the client neither asks nor puts.
    fn begin(&mut self, world: &World) -> Step
        requires { self.old.stage ≡ Stage.Between }
        ensures { IsNext self.old world.now (Some result) self.new }
    {
        let client = self.client;
        match next_replica(world, client) {
            Some(replica) => {
                self.stage = Stage::Asked(world.pool().sent());
                Step::Send { client, replica }
            }
            None => {
                self.stage = Stage::Done;
                Step::Respond { client }
            }
        }
    }

    /// The next step, for the world as those before left it; none after the last.
    pub fn next(&mut self, world: &World) -> Option<Step>
        ensures { IsNext self.old world.now result self.new }
    {
        match self.stage {
            Stage::Between => Some(self.begin(world)),
            Stage::Asked(flight) => {
                self.stage = Stage::Answered(world.pool().sent());
                Some(Step::Deliver { flight })
            }
            Stage::Answered(flight) => {
                self.stage = Stage::Between;
                Some(Step::Deliver { flight })
            }
            Stage::Done => None,
        }
    }
}
