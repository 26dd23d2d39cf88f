//! Laws of the definitions, each the contract of a function that does nothing.
ghost use Rattle.std.specs.Prelude.{◌≡◌, List};
ghost use Rattle.world_steps.specs.Runs.{after};
ghost use Rattle.world_steps.specs.Systems.{opening};
ghost use Rattle.world_steps.specs.declared.step.Step.{Step};
ghost use Rattle.world_steps.specs.declared.system.System.{System};
ghost use Rattle.script_runs.specs.Chains.{AreInOrder};
ghost use Rattle.script_runs.specs.Events.{Event, HappensAll};
ghost use Rattle.script_runs.specs.declared.command.NumberedCommand.{NumberedCommand};
ghost use Rattle.script_runs.specs.declared.command.Script.{Script};

use world_settle::laws::the_steps_are_one_list;

/// Each step of a script's run is tried in the system that the steps before it left, and the last
/// of them leaves the system at the end.
pub fn each_step_comes_after_the_last()
    ensures { (script : Script) (last : System) (events : List Event)
        → HappensAll (opening script.config) script.commands.items last events
        → AreInOrder (opening script.config) events last }
{}

/// What a script's run leaves is what some list of steps leaves.
pub fn every_run_is_one_of_steps()
    ensures { (script : Script) (last : System) (events : List Event)
        → HappensAll (opening script.config) script.commands.items last events
        → (steps : List Step) × (last ≡ after script.config steps) }
{}

/// Commands have one run: what happens in it, and the system at the end.
pub fn commands_have_one_run()
    ensures { (first last other : System) (commands : List NumberedCommand) (events others : List Event)
        → HappensAll first commands last events → HappensAll first commands other others
        → (last ≡ other) × (events ≡ others) }
{
    the_steps_are_one_list();
}
