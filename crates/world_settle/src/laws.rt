//! Laws of the definitions, each the contract of a function that does nothing.
ghost use Rattle.std.specs.Prelude.{◌≡◌, ◌+◌, ◌*◌, ◌/◌, ◌≤◌, ℕ, List, length};
ghost use Rattle.quorum.specs.Quorums.{majority_of};
ghost use Rattle.world_steps.specs.Runs.{AreAccepted};
ghost use Rattle.world_steps.specs.SoundSystems.{IsSound};
ghost use Rattle.world_steps.specs.declared.step.Step.{Step};
ghost use Rattle.world_steps.specs.declared.system.System.{System};
ghost use Rattle.world_settle.specs.Agreeing.{RepliesAgree};
ghost use Rattle.world_settle.specs.Refusing.{MaySettle, NeedsAt};
ghost use Rattle.world_settle.specs.SettleAnswers.{IsWithin};
ghost use Rattle.world_settle.specs.Settling.{AreSettleSteps};

use world_steps::laws::steps_keep_a_system_sound;

/// Where a pending call can be completed, there are steps that complete it, none of them is
/// refused, and they are at most three for each replica that is needed, and one.
pub fn a_pending_call_has_steps()
    ensures { (s : System) (name : ℕ) → IsSound s → MaySettle s name
        → (steps : List Step) × AreSettleSteps name s steps × AreAccepted s steps
        × IsWithin s name (length steps) }
{
    steps_keep_a_system_sound();
}

/// The steps that complete a pending call are one list.
pub fn the_steps_are_one_list()
    ensures { (s : System) (name : ℕ) (steps other : List Step) → AreSettleSteps name s steps
        → AreSettleSteps name s other → steps ≡ other }
{}

/// A call needs no more replicas than the quorums have votes. With majorities of n replicas it then
/// takes at most 6 (n / 2 + 1) + 1 steps, and all divisions round down.
pub fn a_call_needs_few_replicas()
    ensures quorums { (s : System) (name a b : ℕ) → IsSound s → NeedsAt s name a b
        → (a ≤ s.config.quorums.ask) × (b ≤ s.config.quorums.put) }
    ensures majorities { (s : System) (n name a b : ℕ) → IsSound s
        → s.config.quorums ≡ majority_of n → NeedsAt s name a b
        → 3 * (a + b) + 1 ≤ 6 * (n / 2 + 1) + 1 }
{}

/// A short read whose replies agree skips its write-back: it takes at most three steps for each
/// replica that it still asks, and one.
pub fn a_short_read_that_agrees_takes_few_steps()
    ensures { (s : System) (name a : ℕ) (steps : List Step)
        → IsSound s → MaySettle s name → RepliesAgree s name a → AreSettleSteps name s steps
        → length steps ≤ 3 * a + 1 }
{
    steps_keep_a_system_sound();
}
