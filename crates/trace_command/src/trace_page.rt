//! `abd trace --draw`: the page of a script.
ghost use Rattle.std.specs.Prelude.{IfOk};
ghost use Rattle.cli.specs.Devices.{file_states, writer_states};
ghost use Rattle.trace_command.specs.Endings.{EndsOnScript, IsTracePageText};

use crate::numbered::numbered_of;
use crate::observed::{Observed, observe_run};
use crate::page::{RunShown, page_of};
use crate::scripts::{made_of, script_in};
use cli::{Source, Status, conclude};
use counted_devices::{CountedRead, CountedWrite};
use draw_command::Drawn;
use fault_script::Script;
use std::alloc::Global;
use std::thread::Threads;
use tag::Memory;

/// Runs the script, and makes its page.
fn page_of_script(
    alloc: Global,
    script: Script,
    words: &[u8],
    most: u32,
    drawn: Drawn<'_>,
) -> Result<Vec<u8>, Memory>
    ensures { IfOk result (λ page.
        IsTracePageText words.now most drawn.entry script page.items) }
{
    let Observed {
        scene,
        trace,
        history,
    } = observe_run(alloc, script, most)?;
    let numbered = numbered_of(alloc, history)?;
    let shown = RunShown {
        scene: &scene,
        script: words,
        trace: trace.as_slice(),
        numbered: &numbered,
        drawn,
    };
    page_of(alloc, &shown)
}

/// Reads the script, runs it, and writes its page: a diagram of the messages of the run, with `most`
/// steps at most, the script's words, as they are given, the trace of `trace_command`, and the
/// pictures of the history that the run records, as the page of `abd draw` without orders has them.
/// Its title is the file of `drawn`.
///
/// The steps and the history are those of `simulate_command`; the lines that a picture names are
/// those of the file that it writes. What goes to `out` is that page, once the whole of it is made, or
/// after a failure of `out` a beginning of it; nothing where the script has a fault. The status is
/// `Good` whatever the verdicts on the keys. A failure is said on `errors`.
pub fn trace_page_command<'a, S: CountedRead, W: CountedWrite, E: CountedWrite>(
    rt: &(impl Threads + Sync),
    alloc: Global,
    script: &mut Source<'a, S>,
    words: &[u8],
    most: u32,
    drawn: Drawn<'_>,
    out: &mut W,
    errors: &mut E,
) -> Status
    ensures { EndsOnScript (IsTracePageText words.now most drawn.entry)
        (file_states S.remaining S.failures script.old script.new)
        (writer_states W.contents W.failures out.old out.new)
        (writer_states E.contents E.failures errors.old errors.new)
        result }
{
    match script_in(rt, alloc, script) {
        Ok(script) => {
            let page = page_of_script(alloc, script, words, most, drawn);
            conclude(made_of(alloc, page), out, errors)
        }
        Err(failure) => failure.report(errors),
    }
}
