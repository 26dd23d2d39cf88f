//! A run of a script, drawn and told.
ghost use Rattle.std.specs.Prelude.{IfOk};
ghost use Rattle.message_scenes.specs.Scenes.{IsRecordedScene};
ghost use Rattle.traces.specs.Traces.{IsTraceText};

use fault_script::Script;
use message_scenes::{MessageScene, Sketch};
use recorder::History;
use script_runs::observe_both;
use std::alloc::Global;
use tag::Memory;
use traces::Telling;

/// What is drawn and told of a run, and the history that it records.
#[derive(Drop)]
pub struct Observed {
    pub scene: MessageScene,
    pub trace: Vec<u8>,
    pub history: History,
}

/// Runs the script once: its scene, with so many steps at most, and its trace, with so many lines.
pub(crate) fn observe_run(alloc: Global, script: Script, most: u32) -> Result<Observed, Memory>
    ensures scene { IfOk result (λ run. IsRecordedScene script most run.scene run.history) }
    ensures trace { IfOk result (λ run. IsTraceText script most run.trace.items) }
{
    let sketch = Sketch::new(alloc, script.config.quorums(), most);
    let run = observe_both(alloc, script, sketch, Telling::new(alloc, most))?;
    Ok(Observed {
        scene: run.observer.first.into_scene(),
        trace: run.observer.second.into_text()?,
        history: run.world.into_history(),
    })
}
