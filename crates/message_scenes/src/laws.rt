//! Laws of the definitions, each the contract of a function that does nothing.
ghost use Rattle.std.specs.Prelude.{ℕ, ◌≡◌, List, [], Some, Contains, flat_map, map, take};
ghost use Rattle.std.specs.FinMap as finite;
ghost use Rattle.replica.specs.declared.replies.Reply.{Reply};
ghost use Rattle.client_phases.specs.Clients.{client_after, reply_result};
ghost use Rattle.client_phases.specs.declared.clients.Client.{Client};
ghost use Rattle.network.specs.Flights.{message_of};
ghost use Rattle.network.specs.declared.messages.Message.TheVariants.{ToClient};
ghost use Rattle.world_steps.specs.Systems.{opening};
ghost use Rattle.world_settle.specs.declared.errors.SettleError.{SettleError};
ghost use Rattle.world_steps.specs.Refusals.{refusal_of};
ghost use Rattle.world_steps.specs.declared.refusal.Refusal.{Refusal};
ghost use Rattle.world_steps.specs.declared.step.Step.{Step};
ghost use Rattle.world_steps.specs.declared.step.Step.TheVariants.{Deliver};
ghost use Rattle.world_steps.specs.declared.system.System.{System};
ghost use Rattle.script_runs.specs.Events.{Event, notices, tries};
ghost use Rattle.script_runs.specs.declared.command.Script.{Script};
ghost use Rattle.script_runs.specs.declared.notice.Notice.TheVariants.{Unfinished};
ghost use Rattle.script_runs.specs.declared.origin.Origin.{Origin};
ghost use Rattle.message_scenes.specs.CallBars.{ShowCalls, recorded_after};
ghost use Rattle.message_scenes.specs.Copies.{ShowCopies};
ghost use Rattle.message_scenes.specs.Hearings.{heard_by, hearing_of};
ghost use Rattle.message_scenes.specs.Shapes.{no_shapes, row_of, with_rows};
ghost use Rattle.message_scenes.specs.Tried.{Tried, TriesAll, refused, taken_step, tried_in};
ghost use Rattle.message_scenes.specs.Tried.{unfinished};

/// Each copy of a message that a script's run sends has one arrow: from the row of the step that
/// sent it, or repeated its message, to the row of the step that delivered that copy or lost it.
pub fn each_copy_has_one_arrow()
    ensures { (script : Script) (last : System) (tried : List Tried) (most : ℕ)
        → TriesAll (opening script.config) script.commands.items last tried
        → ShowCopies (take most tried) (with_rows no_shapes (take most tried)).arrows }
{}

/// Each call that a script's run begins has one bar, in the order of the record: that of its number,
/// its client, its key and its action.
pub fn each_call_has_one_bar()
    ensures { (script : Script) (last : System) (tried : List Tried) (most : ℕ)
        → TriesAll (opening script.config) script.commands.items last tried
        → ShowCalls (recorded_after [] (take most tried))
        (with_rows no_shapes (take most tried)).calls }
{}

/// Whatever is tried has one row, in the order of the run: so each step that is refused has its row,
/// which says why, and so has each call that can't be finished.
pub fn each_refused_step_has_its_row()
    ensures rows { (tried : List Tried) → (with_rows no_shapes tried).rows ≡ map row_of tried }
    ensures refused { (events : List Event) (origin : Origin) (s : System) (step : Step)
        (why : Refusal) → Contains events (tries origin s step) → refusal_of s step ≡ Some why
        → Contains (map row_of (flat_map tried_in events)) (row_of (refused origin step why)) }
    ensures unfinished { (events : List Event) (line name : ℕ) (why : SettleError)
        → Contains events (notices line (Unfinished name why))
        → Contains (map row_of (flat_map tried_in events)) (row_of (unfinished line name why)) }
{}

/// What a scene shows of a reply is what its client makes of it, by the meaning of its phases, and the
/// votes of the replicas that the client has then counted.
pub fn votes_are_those_counted()
    ensures { (row flight name : ℕ) (origin : Origin) (s : System) (reply : Reply) (client : Client)
        → message_of s.pool.flights flight ≡ Some (ToClient name reply)
        → finite.get s.members.clients name ≡ Some client
        → hearing_of row (taken_step origin s (Deliver flight))
        ≡ heard_by row name (reply_result client reply) s.config.quorums
        (Some (client_after client reply)) }
{}
