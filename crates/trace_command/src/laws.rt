//! Laws of the definitions, each the contract of a function that does nothing.
ghost use Rattle.std.specs.Prelude.{ℕ, ◌≡◌};
ghost use Rattle.recorder.specs.Histories.{Recorded};
ghost use Rattle.markup.specs.Markup.{Markup};
ghost use Rattle.history_file.specs.declared.numbered_format.NumberedHistories.{NumberedHistories};
ghost use Rattle.script_runs.specs.declared.command.Script.{Script};
ghost use Rattle.message_scenes.specs.Scenes.{IsRecordedScene};
ghost use Rattle.message_scenes.specs.declared.scene.MessageScene.{MessageScene};
ghost use Rattle.judged_keys.specs.Judgements.{refused_count};
ghost use Rattle.judged_keys.specs.declared.judged.Judged.TheVariants.{Tags};
ghost use Rattle.draw_command.specs.HistoryPictures.{IsContentOfHistory};
ghost use Rattle.draw_command.specs.declared.drawn.Drawn.{Drawn};
ghost use Rattle.trace_command.specs.TracePages.{IsNumbered};

/// The page of a script, whose keys are judged by their tags, shows no key as refused.
pub fn no_key_of_a_run_is_refused()
    ensures { (script : Script) (most : ℕ) (scene : MessageScene) (history : Recorded)
        (numbered : NumberedHistories) (drawn : Drawn) (pictures : Markup)
        → drawn.selection.judged ≡ Tags → IsRecordedScene script most scene history
        → IsNumbered history numbered → (content : IsContentOfHistory numbered drawn pictures)
        → refused_count content.shown.keys ≡ 0 }
{}
