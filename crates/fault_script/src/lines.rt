//! Lines of a script, each by itself.
ghost use Rattle.std.specs.Prelude.{◌∷◌, [], IfOk};
ghost use Rattle.counted_devices.specs.Judgements.{ShowChunks, ShowsItem};
ghost use Rattle.fault_script.specs.LineItems.{ScriptLineShows};

use crate::LineFault;
use crate::shown::{Shown, shown_by};
use crate::words::without_return;
use counted_devices::{Judgement, LONGEST, first_end};
use std::alloc::Global;
use tag::Memory;

/// What a line shows by itself: what it says, or its fault.
pub type LineJudgement = Judgement<Shown, LineFault>;

/// What the line, without its end, shows by itself.
fn judge(alloc: Global, line: &[u8]) -> Result<LineJudgement, Memory>
    ensures { IfOk result (ShowsItem ScriptLineShows line.now) }
{
    if line.len() > LONGEST {
        return Ok(Judgement::Fault(LineFault::TooLong));
    }
    let Ok(text) = str::from_utf8(line) else {
        return Ok(Judgement::Fault(LineFault::NotUtf8));
    };
    let shown = shown_by(alloc, without_return(text))?;
    Ok(Judgement::Item(shown))
}

/// What the lines of a chunk, the last of them without its end, show by themselves.
pub(crate) fn judge_lines(alloc: Global, chunk: &[u8]) -> Result<Vec<LineJudgement>, Memory>
    ensures { IfOk result (λ run. ShowChunks ScriptLineShows (chunk.now ∷ []) run.items) }
{
    let mut run = Vec::new(alloc);
    let mut rest = chunk;
    while let Some(end) = first_end(rest) {
        run.push(judge(alloc, &rest[..end])?)?;
        rest = &rest[end + 1..];
    }
    run.push(judge(alloc, rest)?)?;
    Ok(run)
}
