//! What a monitor reported, as it is told.
ghost use Rattle.std.specs.Prelude.{◌≡◌, ◌++◌, ◌&&◌, ◌||◌, ℕ, [], Bool, List, Some, false, true, IfOk, OnOk};
ghost use Rattle.std.specs.Prelude.{count_by, length, not, slice_get, slice_set};
ghost use Rattle.std.specs.Option.{option_copied};
ghost use Rattle.cli.specs.declared.outcome.Found.TheVariants.{Good, Refused, Undecided};
ghost use Rattle.record_monitor.specs.Monitored.{keys_of, reports_of};
ghost use Rattle.monitor_sentences.specs.declared.counts.Counts.{Counts};
ghost use Rattle.monitor_command.specs.Countings.{AreCountsOf, counts_text, doubt_count};
ghost use Rattle.monitor_command.specs.Countings.{is_reported, is_reported_refused};
ghost use Rattle.monitor_command.specs.Files.{HasDoubtsAlone, HasNoRefusalBefore, HasNoRefusalFrom, HasRefusal};
ghost use Rattle.monitor_command.specs.Tellings.{EndsWithRefusal, Tells, TellsReport, doubt_text, ended_text};
ghost use Rattle.monitor_command.specs.Tellings.{is_refusal, key_text, refusal_text};

use crate::monitoring::Monitoring;
use cli::Found;
use command_line::Lines;
use monitor_sentences::{
    Counts, append_end, append_end_object, append_given_up, append_given_up_object, append_refused,
    append_refused_object, append_undecided, append_undecided_object,
};
use record_monitor::{Finding, RecordMonitor, Report, Told};
use std::alloc::Global;
use tag::{Memory, OpId};
use value_order::Doubt;

/// Tells that the key is refused.
fn append_refusal(
    text: &mut Vec<u8>,
    form: Lines,
    key: &str,
    place: u64,
    told: Option<&Told>,
) -> Result<(), Memory>
    ensures { OnOk result (text.new.items
        ≡ text.old.items ++ refusal_text key.now place form (option_copied told.entry)) }
{
    match form {
        Lines::Plain => append_refused(text, key, place, told),
        Lines::Json => append_refused_object(text, key, place, told),
    }
}

/// Tells that a read of the key is undecided.
fn append_doubt(
    text: &mut Vec<u8>,
    form: Lines,
    key: &str,
    place: u64,
    doubt: Doubt,
) -> Result<(), Memory>
    ensures { OnOk result
        (text.new.items ≡ text.old.items ++ doubt_text key.now place form doubt) }
{
    match form {
        Lines::Plain => append_undecided(text, key, place, doubt),
        Lines::Json => append_undecided_object(text, key, place, doubt),
    }
}

/// Tells that a read of the key was given up, and is answered after all.
fn append_ended(
    text: &mut Vec<u8>,
    form: Lines,
    key: &str,
    place: u64,
    read: OpId,
) -> Result<(), Memory>
    ensures { OnOk result
        (text.new.items ≡ text.old.items ++ ended_text key.now place form read) }
{
    match form {
        Lines::Plain => append_given_up(text, key, place, read),
        Lines::Json => append_given_up_object(text, key, place, read),
    }
}

/// Tells what was found of the key.
fn append_finding(
    text: &mut Vec<u8>,
    form: Lines,
    key: &str,
    place: u64,
    told: Option<&Told>,
    finding: Finding,
) -> Result<(), Memory>
    ensures { OnOk result ((lines : List ℕ)
        × Tells key.now place form (option_copied told.entry) finding lines
        × (text.new.items ≡ text.old.items ++ lines)) }
{
    match finding {
        Finding::Refused(_) => append_refusal(text, form, key, place, told),
        Finding::Undecided(read, one, two) => {
            let doubt = Doubt {
                read,
                first: OpId(one.min(two)),
                second: OpId(one.max(two)),
            };
            append_doubt(text, form, key, place, doubt)
        }
        Finding::EndedAfterAll(read) => append_ended(text, form, key, place, read),
    }
}

/// The text of the key of that number; none has no letters.
fn key_text(monitor: &RecordMonitor, number: usize) -> &str
    ensures { result.now ≡ key_text (slice_get (keys_of monitor.now) number) }
{
    match monitor.keys().get(number) {
        Some(key) => key.as_str(),
        None => "",
    }
}

/// Tells what was reported.
fn append_report(
    text: &mut Vec<u8>,
    form: Lines,
    monitor: &RecordMonitor,
    report: &Report,
) -> Result<(), Memory>
    ensures { OnOk result ((lines : List ℕ) × TellsReport form monitor.now report.now lines
        × (text.new.items ≡ text.old.items ++ lines)) }
{
    let key = key_text(monitor, report.key);
    let told = monitor.told(report.key);
    append_finding(text, form, key, report.place, told, report.finding)
}

/// Whether the report is a refusal.
fn is_refusal(report: &Report) -> bool
    ensures { result ≡ is_refusal report.now.finding }
{
    matches!(report.finding, Finding::Refused(_))
}

/// Tells what was reported beyond so many reports, up to the first refusal, unless all is asked for. Whether that was
/// told, and the command ends.
pub(crate) fn append_new(
    text: &mut Vec<u8>,
    monitor: &RecordMonitor,
    told: usize,
    asked: Monitoring,
) -> Result<bool, Memory>
    ensures stops { IfOk result (λ stops. stops ≡ true
        → EndsWithRefusal asked.form monitor.now text.new.items) }
    ensures asked { IfOk result (λ stops. stops ≡ true → asked.all ≡ false) }
    ensures passes { IfOk result (λ stops. stops ≡ false → asked.all ≡ false
        → HasNoRefusalFrom told (reports_of monitor.now)) }
{
    let reports = monitor.reports();
    for number in told..reports.len() {
        let report = &reports[number];
        append_report(text, asked.form, monitor, report)?;
        if !asked.all && is_refusal(report) {
            return Ok(true);
        }
    }
    Ok(false)
}

/// Where telling goes on at the end of a file: after so many reports, or at a refusal before that.
pub(crate) fn first_untold(reports: &[Report], told: usize) -> usize
    ensures { HasNoRefusalBefore result reports.now }
{
    for number in 0..reports.len() {
        if number == told || is_refusal(&reports[number]) {
            return number;
        }
    }
    told
}

/// Whether a refusal is among the reports.
fn has_refusal(reports: &[Report]) -> bool
    ensures some { result ≡ true → HasRefusal reports.now }
    ensures none { result ≡ false → HasNoRefusalFrom 0 reports.now }
{
    for report in reports {
        if is_refusal(report) {
            return true;
        }
    }
    false
}

/// Sets the mark of the key of that number, if there is one.
fn set_mark(marks: &mut [bool], number: usize, mark: bool)
    ensures { marks.new ≡ slice_set marks.old number mark }
{
    if number < marks.len() {
        marks[number] = mark;
    }
}

/// Marks the keys of which something is reported.
fn mark_reported(marks: &mut [bool], reports: &[Report])
    ensures many { length marks.new ≡ length marks.old }
    ensures each { (number : ℕ) (was : Bool) → slice_get marks.old number ≡ Some was
        → slice_get marks.new number ≡ Some (was || is_reported reports.now number) }
{
    for report in reports {
        set_mark(marks, report.key, true);
    }
}

/// Takes the marks from the keys of which a refusal is reported.
fn unmark_refused(marks: &mut [bool], reports: &[Report])
    ensures many { length marks.new ≡ length marks.old }
    ensures each { (number : ℕ) (was : Bool) → slice_get marks.old number ≡ Some was
        → slice_get marks.new number ≡ Some (was && not (is_reported_refused reports.now number)) }
{
    for report in reports {
        if is_refusal(report) {
            set_mark(marks, report.key, false);
        }
    }
}

/// How many keys are marked.
fn count_marks(marks: &[bool]) -> u64
    ensures { result ≡ count_by (λ mark. mark) marks.now }
{
    marks.iter().filter(|mark| **mark).count() as u64
}

/// How many keys aren't refused, but have an undecided read, or one that was answered after it was given up.
fn count_doubts(alloc: Global, monitor: &RecordMonitor) -> Result<u64, Memory>
    ensures { IfOk result (λ count. count ≡ doubt_count monitor.now) }
{
    let mut room = vec![in alloc; false; monitor.keys().len()]?;
    let marks = room.as_mut_slice();
    mark_reported(marks, monitor.reports());
    unmark_refused(marks, monitor.reports());
    Ok(count_marks(marks))
}

/// How many calls on how many keys there were, and how many of these are refused or have a doubt.
fn counts_of(alloc: Global, monitor: &RecordMonitor) -> Result<Counts, Memory>
    ensures { IfOk result (AreCountsOf monitor.now) }
{
    let doubtful = count_doubts(alloc, monitor)?;
    Ok(Counts {
        refused: monitor.refused_count() as u64,
        doubtful,
        keys: monitor.keys().len() as u64,
        calls: monitor.begun(),
    })
}

/// Tells the counts.
pub(crate) fn append_counts(
    alloc: Global,
    text: &mut Vec<u8>,
    monitor: &RecordMonitor,
    form: Lines,
) -> Result<(), Memory>
    ensures { OnOk result ((counts : Counts) × AreCountsOf monitor.now counts
        × (text.new.items ≡ text.old.items ++ counts_text form counts)) }
{
    let counts = counts_of(alloc, monitor)?;
    match form {
        Lines::Plain => append_end(text, counts),
        Lines::Json => append_end_object(text, counts),
    }
}

/// What is found of all keys of a file that came to its end: nothing is wrong only if nothing was reported.
pub(crate) fn found_by(monitor: &RecordMonitor) -> Found
    ensures good { result ≡ Good → reports_of monitor.now ≡ [] }
    ensures refused { result ≡ Refused → HasRefusal (reports_of monitor.now) }
    ensures undecided { result ≡ Undecided → HasDoubtsAlone (reports_of monitor.now) }
{
    let reports = monitor.reports();
    if reports.is_empty() {
        Found::Good
    } else if has_refusal(reports) {
        Found::Refused
    } else {
        Found::Undecided
    }
}
