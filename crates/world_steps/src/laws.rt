//! Laws of the definitions, each the contract of a function that does nothing.
ghost use Rattle.std.specs.Prelude.{◌≡◌, ◌≤◌, ◌+◌, ◌++◌, ◌∷◌, [], Err, List, None, Result, ℕ};
ghost use Rattle.tag.specs.Limits.{call_limit};
ghost use Rattle.quorum.specs.Quorums.{IsLawful};
ghost use Rattle.recorder.specs.Records.{IsPart};
ghost use Rattle.recorder.specs.Sound.{TagSound};
ghost use Rattle.recorder.specs.declared.part.Call.{Call};
ghost use Rattle.world_steps.specs.Clients.{running_count};
ghost use Rattle.world_steps.specs.Configs.{Config};
ghost use Rattle.world_steps.specs.Lasting.{AddsRowOf, Grows, HasJoined, HasStopped, client_in};
ghost use Rattle.world_steps.specs.Refusals.{refusal_of};
ghost use Rattle.world_steps.specs.Runs.{AreAccepted, Steps, after, after_from, join_count, next, stop_count};
ghost use Rattle.world_steps.specs.Sound.{IsNoGreater};
ghost use Rattle.world_steps.specs.SoundSystems.{IsSound, held_in};
ghost use Rattle.world_steps.specs.Sources.{HeldComeFromWrites, NotesComeFromWrites};
ghost use Rattle.world_steps.specs.Sources.{PutsComeFromWrites, RepliesComeFromWrites};
ghost use Rattle.world_steps.specs.Systems.{system_after, opening};
ghost use Rattle.world_steps.specs.declared.effect.Effect.{Effect};
ghost use Rattle.world_steps.specs.declared.refusal.Refusal.{Refusal};
ghost use Rattle.world_steps.specs.declared.step.Step.{Step};
ghost use Rattle.world_steps.specs.declared.system.System.{System};

/// For every configuration and every list of steps the system that they leave is sound.
pub fn every_run_is_sound()
    ensures { (config : Config) (steps : List Step) → IsLawful config.quorums
        → config.calls ≤ call_limit → IsSound (after config steps) }
{}

/// For every configuration and every list of steps each key's part of the record has sound tags, so
/// that its calls sorted by tag are an order of it.
pub fn every_run_has_sound_tags()
    ensures { (config : Config) (steps : List Step) (key : List ℕ) (part : List Call)
        → IsLawful config.quorums → config.calls ≤ call_limit
        → IsPart (after config steps).history.rows key part → TagSound part }
{}

/// Whatever the run, the tag of a note, of a replica's pair and of a message in flight is the least one
/// or that of a noted write on its key, and its number is at most how many writes on the key are noted.
pub fn tags_come_from_writes()
    ensures notes { (config : Config) (steps : List Step) → IsLawful config.quorums
        → config.calls ≤ call_limit → NotesComeFromWrites (after config steps) }
    ensures held { (config : Config) (steps : List Step) → IsLawful config.quorums
        → config.calls ≤ call_limit → HeldComeFromWrites (after config steps) }
    ensures puts { (config : Config) (steps : List Step) → IsLawful config.quorums
        → config.calls ≤ call_limit → PutsComeFromWrites (after config steps) }
    ensures replies { (config : Config) (steps : List Step) → IsLawful config.quorums
        → config.calls ≤ call_limit → RepliesComeFromWrites (after config steps) }
{}

/// What a list with one more step leaves is the next system after the list. Where each step of the list
/// is accepted at its place and this one after them, each step of the longer list is.
pub fn a_list_may_have_one_more_step()
    ensures after { (config : Config) (steps : List Step) (step : Step)
        → after config (steps ++ step ∷ []) ≡ next (after config steps) step }
    ensures accepted { (config : Config) (steps : List Step) (step : Step)
        → AreAccepted (opening config) steps → refusal_of (after config steps) step ≡ None
        → (after config (steps ++ step ∷ []) ≡ system_after (after config steps) step)
        × AreAccepted (opening config) (steps ++ step ∷ []) }
{}

/// What a step answers is the next system, unless it was refused for memory.
pub fn a_step_leaves_the_next_system()
    ensures { (s : System) (step : Step) (result : Result Effect Refusal) (new : System)
        → Steps s step result new → (result ≡ Err Refusal.Memory → ⊥) → new ≡ next s step }
{}

/// From a sound system steps lead to a sound one, and the tags of each part of its record are sound.
pub fn steps_keep_a_system_sound()
    ensures steps { (s : System) (steps : List Step) → IsSound s → IsSound (after_from s steps) }
    ensures parts { (s : System) (key : List ℕ) (part : List Call) → IsSound s
        → IsPart s.history.rows key part → TagSound part }
{}

/// With a client that joins at most one more runs, with one that stops one less does, and no other step
/// lets more run.
pub fn a_stop_is_of_a_client_that_runs()
    ensures { (s : System) (step : Step) → IsSound s → refusal_of s step ≡ None
        → running_count (system_after s step).members + stop_count step
        ≤ running_count s.members + join_count step }
{}

/// Whatever steps follow, a name that joined stays joined, no replica's tag of a key falls, and the rows
/// stay, with new ones after them.
pub fn further_steps_take_nothing_away()
    ensures joined { (config : Config) (steps later : List Step) (name : ℕ)
        → HasJoined (after config steps) name → HasJoined (after config (steps ++ later)) name }
    ensures held { (config : Config) (steps later : List Step) (number : ℕ) (key : List ℕ)
        → IsNoGreater (held_in (after config steps).nodes number key).tag
        (held_in (after config (steps ++ later)).nodes number key).tag }
    ensures rows { (config : Config) (steps later : List Step)
        → Grows (after config steps).history.rows (after config (steps ++ later)).history.rows }
{}

/// A stop is for good: whatever steps follow, a client that is stopped stays stopped.
pub fn a_stop_is_for_good()
    ensures next { (s : System) (step : Step) (name : ℕ)
        → HasStopped s name → HasStopped (next s step) name }
    ensures steps { (s : System) (steps : List Step) (name : ℕ)
        → HasStopped s name → HasStopped (after_from s steps) name }
{}

/// A step adds no row, or one: of the client that it names or delivers to.
pub fn a_step_adds_a_row_of_its_client()
    ensures { (s : System) (step : Step) → IsSound s
        → AddsRowOf (client_in s step) s.history.rows (next s step).history.rows }
{}
