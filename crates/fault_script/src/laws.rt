//! Laws of the definitions, each the contract of a function that does nothing.
ghost use Rattle.std.specs.Prelude.{ℕ, ◌≡◌, ◌≤◌, ◌↔◌, List, Ok, Err, Option, flat_map};
ghost use Rattle.tag.specs.Limits.{call_limit};
ghost use Rattle.quorum.specs.Quorums.{IsLawful};
ghost use Rattle.recorder.specs.Records.{IsPart};
ghost use Rattle.recorder.specs.Sound.{TagSound};
ghost use Rattle.recorder.specs.declared.part.Call.{Call};
ghost use Rattle.recorder.specs.declared.row.Row.{Row};
ghost use Rattle.world_steps.specs.Runs.{after};
ghost use Rattle.world_steps.specs.Systems.{opening};
ghost use Rattle.world_steps.specs.declared.step.Step.{Step};
ghost use Rattle.world_steps.specs.declared.system.System.{System};
ghost use Rattle.script_runs.specs.Events.{Event, HappensAll};
ghost use Rattle.file_format.specs.LineFaults.{FaultsAre};
ghost use Rattle.fault_script.specs.Commands.{command_in};
ghost use Rattle.fault_script.specs.Forms.{SaysCommand, HasForm};
ghost use Rattle.fault_script.specs.LineFaults.{HasWordFault};
ghost use Rattle.fault_script.specs.LineMeanings.{said_in};
ghost use Rattle.fault_script.specs.ScriptRuns.{RunsAll, IsRunOf, message_of};
ghost use Rattle.fault_script.specs.Scripts.{IsScript};
ghost use Rattle.fault_script.specs.SettingForms.{SaysAfter};
ghost use Rattle.fault_script.specs.Words.{words, behind_three};
ghost use Rattle.script_runs.specs.declared.command.Command.{Command};
ghost use Rattle.script_runs.specs.declared.command.Script.{Script};
ghost use Rattle.fault_script.specs.declared.fault.LineFault.TheVariants.{UnknownCommand, Range};
ghost use Rattle.fault_script.specs.declared.parse_line.ConfigSoFar.{ConfigSoFar};
ghost use Rattle.fault_script.specs.declared.parse_line.Said.{Said};

use script_runs::laws::{commands_have_one_run, every_run_is_one_of_steps};
use world_steps::laws::every_run_has_sound_tags;

/// A line is read as a command exactly where its words say the command.
pub fn a_command_is_read_where_its_words_say_it()
    ensures { (verb args : List ℕ) (command : Command) → (command_in verb args ≡ Ok command)
        ↔ SaysCommand verb (words args) (behind_three args) command }
{}

/// A line's words are read, after the lines before it, exactly where they say that there.
pub fn a_line_is_read_where_its_words_say_it()
    ensures { (before : Option ConfigSoFar) (verb args : List ℕ) (said : Said)
        → (said_in before verb args ≡ Ok said)
        ↔ SaysAfter verb (words args) (behind_three args) before said }
{}

/// A command without a form is unknown; one that has a form and isn't read is out of range.
pub fn a_command_without_a_form_is_unknown()
    ensures unknown { (verb args : List ℕ) → (command_in verb args ≡ Err UnknownCommand)
        ↔ (HasForm verb (words args) (behind_three args) → ⊥) }
    ensures range { (verb args : List ℕ) → HasForm verb (words args) (behind_three args)
        → ((command : Command) → SaysCommand verb (words args) (behind_three args) command → ⊥)
        → command_in verb args ≡ Err Range }
{}

/// A line's words that are not read have, after the lines before it, the fault that is there:
/// `NoReplicas` where the first command isn't `replicas`, else `UnknownCommand` where they have no
/// form of a line that may stand there, else `Range`, and no other.
pub fn a_line_has_the_fault_of_its_words()
    ensures { (before : Option ConfigSoFar) (verb args : List ℕ) →
        FaultsAre (said_in before verb args) (HasWordFault before verb args) }
{}

/// Bytes are read as one script.
pub fn bytes_are_read_as_one_script()
    ensures { (bytes : List ℕ) (a b : Script) → IsScript bytes a → IsScript bytes b
        → (a.config ≡ b.config) × (a.commands.items ≡ b.commands.items) }
{}

/// What happens in a script's run says the messages of the run.
pub fn what_happens_is_a_run()
    ensures { (script : Script) (last : System) (events : List Event)
        → HappensAll (opening script.config) script.commands.items last events
        → RunsAll (opening script.config) script.commands.items last (flat_map message_of events) }
{}

/// What a script leaves is what some list of steps leaves.
pub fn every_script_run_is_one_of_steps()
    ensures { (script : Script) (last : System) (messages : List ℕ)
        → RunsAll (opening script.config) script.commands.items last messages
        → (steps : List Step) × (last ≡ after script.config steps) }
{
    every_run_is_one_of_steps();
}

/// In each run of every script each key's part of the record has sound tags, so that its calls
/// sorted by tag are an order of it.
pub fn every_script_run_has_sound_tags()
    ensures { (script : Script) (rows : List Row) (messages : List ℕ) (key : List ℕ)
        (part : List Call) → IsLawful script.config.quorums → script.config.calls ≤ call_limit
        → IsRunOf script rows messages → IsPart rows key part → TagSound part }
{
    every_run_is_one_of_steps();
    every_run_has_sound_tags();
}

/// A script has one run: what its record is, and what is said of its commands.
pub fn a_script_has_one_run()
    ensures { (script : Script) (rows others : List Row) (messages said : List ℕ)
        → IsRunOf script rows messages → IsRunOf script others said
        → (rows ≡ others) × (messages ≡ said) }
{
    commands_have_one_run();
}
