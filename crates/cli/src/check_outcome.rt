//! The check of the orders of the keys of histories, with a line for each.
ghost use Rattle.std.specs.Prelude.{◌≡◌, IfOk, IfErr};
ghost use Rattle.recorder.specs.Halls.{AreHalls};
ghost use Rattle.parallel_keys.specs.CheckedKeys.{AreDistinct};
ghost use Rattle.cli.specs.Checks.{MakesCheck};
ghost use Rattle.cli.specs.Outcomes.{ended};
ghost use Rattle.cli.specs.Reports.{StopsKeys};
ghost use Rattle.cli.specs.VerdictLines.{lines_text};
ghost use Rattle.cli.specs.VerdictStatuses.{SaysAll};

use crate::json_lines::append_line_in;
use crate::outcome::{Found, Made, Outcome};
use certificate_check::Verdict;
use command_line::Lines;
use parallel_keys::{NoGate, Workers, check_histories};
use recorder::{Histories, KeyOrder};
use std::alloc::Global;
use std::sync::Wait;
use std::thread::Threads;
use tag::{Key, Memory};

/// A line for each key in that form, with its verdict.
fn lines_of(alloc: Global, form: Lines, verdicts: &[(Key, Verdict)]) -> Result<Vec<u8>, Memory>
    ensures { IfOk result (λ text. text.items ≡ lines_text form verdicts.now) }
{
    let mut text = Vec::new(alloc);
    for told in verdicts {
        append_line_in(&mut text, form, &told.0, told.1)?;
    }
    Ok(text)
}

/// What the verdicts come to: `Good` if each is yes.
fn found_in(verdicts: &[(Key, Verdict)]) -> Found
    ensures { SaysAll verdicts.now (ended result) }
{
    for told in verdicts {
        match told.1 {
            Verdict::Yes => {}
            Verdict::No(_) => return Found::Refused,
        }
    }
    Found::Good
}

/// What holds of all histories.
fn attest(histories: &Histories)
    ensures { AreHalls histories.now }
{
    let _ = histories.halls();
}

/// Checks the orders of an order file: a line in that form for each key of the histories and the orders.
pub(crate) fn check_outcome<R: Threads + Wait>(
    rt: &R,
    alloc: Global,
    histories: &Histories,
    orders: &[KeyOrder],
    workers: Workers,
    form: Lines,
) -> Made<'static>
    requires { AreDistinct orders.now }
    ensures made { IfOk result (MakesCheck form histories.now orders.now) }
    ensures stops { IfErr result (StopsKeys workers) }
{
    attest(histories);
    let checked = check_histories(rt, alloc, histories, orders, workers, &NoGate)?;
    let verdicts = checked.as_slice();
    let text = lines_of(alloc, form, verdicts)?;
    Ok(Outcome::of_text(alloc, text, found_in(verdicts)))
}
