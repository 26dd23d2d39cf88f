//! A file that is monitored: what was judged of it, and how much of that was told.
ghost use Rattle.std.specs.Prelude.{◌≡◌, ◌≤◌, ◌+◌, ◌++◌, ◌^◌, ℕ, [], List, None, false, true, IfErr, IfOk, OnOk, length};
ghost use Rattle.counted_devices.specs.Sendings.{Sends};
ghost use Rattle.history_file.specs.TakenRows.{HasTakenFile};
ghost use Rattle.record_monitor.specs.Monitored.{HasTaken, reports_of};
ghost use Rattle.monitor_command.specs.Files.{HasNoRefusalFrom};
ghost use Rattle.monitor_command.specs.Endings.{EndsAs, GoesOn, HasSent, IsNoFault, Stands, TellsCountsOf, TellsRefusal, is_memory};

use crate::judged_rows::JudgedRows;
use crate::monitoring::{Monitoring, Watch};
use crate::telling::{append_counts, append_new, first_untold, found_by};
use cli::Found;
use command_line::Lines;
use counted_devices::{CountedWrite, write_text};
use file_format::{FaultKind, FileFault};
use history_file::laws::a_feed_has_taken_the_rows_of_its_lines;
use history_file::{LongHistory, RowsFeed};
use record_monitor::RecordMonitor;
use record_monitor::laws::{a_refused_key_has_no_order, without_a_report_each_key_is_linearizable};
use std::alloc::Global;
use std::thread::Threads;
use tag::Memory;

/// Why a monitored file ends before its time.
#[derive(Clone, Copy, Debug, Drop, PartialEq, Eq)]
pub(crate) enum Stopped {
    /// The file has that fault.
    Fault(FileFault),
    /// Out of memory.
    Memory,
    /// What was found couldn't be written.
    Output,
}

impl From<Memory> for Stopped {
    ghost use Rattle.std.specs.Prelude.{◌≡◌};
    ghost use Rattle.monitor_command.specs.declared.session.Stopped.TheVariants.{Memory};

    ghost from_gives = { λ _ stopped. stopped ≡ Memory };

    fn from(_: Memory) -> Stopped {
        Stopped::Memory
    }
}

/// Whether an allocation was refused: then nothing that was found is known any more.
fn is_memory(kind: FaultKind) -> bool
    ensures { result ≡ is_memory kind }
{
    matches!(kind, FaultKind::Memory)
}

/// Writes what was found, if anything was.
fn write_found<W: CountedWrite>(text: &[u8], watch: &impl Watch, out: &mut W) -> Result<(), Stopped>
    ensures sent { OnOk result (Sends W.contents out.old out.new text.now) }
    ensures failed { IfErr result IsNoFault }
{
    if text.is_empty() {
        return Ok(());
    }
    watch.makes_way();
    match write_text(text, out) {
        Ok(()) => Ok(()),
        Err(_) => Err(Stopped::Output),
    }
}

/// A file that is monitored.
#[derive(Drop)]
pub(crate) struct Session {
    feed: RowsFeed<JudgedRows>,
    /// How many of the monitor's reports were told.
    told: usize,
}

impl Session {
    /// No byte yet.
    pub(crate) fn new(alloc: Global, asked: Monitoring) -> Session
        ensures { Stands [] result.feed }
    {
        let rows = JudgedRows::new(alloc, u64::from(asked.give_up));
        Session {
            feed: RowsFeed::of(alloc, LongHistory::new(rows)),
            told: 0,
        }
    }

    /// The number of the line that is under way.
    pub(crate) fn line(&self) -> u64
        ensures { self.now.feed.fault ≡ None → result ≡ self.now.feed.progress.lines + 1 }
    {
        self.feed.line()
    }
}

/// Writes what the monitor reported beyond so many reports, up to the first refusal, unless all is asked for.
/// Whether that was told, and the command ends.
fn tell<W: CountedWrite>(
    alloc: Global,
    monitor: &RecordMonitor,
    told: usize,
    asked: Monitoring,
    watch: &impl Watch,
    out: &mut W,
) -> Result<bool, Stopped>
    ensures stops { IfOk result (λ stops. stops ≡ true
        → TellsRefusal (W.contents out.old) (W.contents out.new) asked.form monitor.now) }
    ensures asked { IfOk result (λ stops. stops ≡ true → asked.all ≡ false) }
    ensures passes { IfOk result (λ stops. stops ≡ false → asked.all ≡ false
        → HasNoRefusalFrom told (reports_of monitor.now)) }
    ensures sent { OnOk result (HasSent (W.contents out.old) (W.contents out.new)) }
    ensures failed { IfErr result IsNoFault }
{
    let mut text = Vec::new(alloc);
    let stops = append_new(&mut text, monitor, told, asked)?;
    write_found(text.as_slice(), watch, out)?;
    Ok(stops)
}

/// Writes what isn't told yet of what the monitor reported of a whole file, as `tell` does.
fn tell_rest<W: CountedWrite>(
    alloc: Global,
    monitor: &RecordMonitor,
    told: usize,
    asked: Monitoring,
    watch: &impl Watch,
    out: &mut W,
) -> Result<bool, Stopped>
    ensures stops { IfOk result (λ stops. stops ≡ true
        → TellsRefusal (W.contents out.old) (W.contents out.new) asked.form monitor.now) }
    ensures asked { IfOk result (λ stops. stops ≡ true → asked.all ≡ false) }
    ensures passes { IfOk result (λ stops. stops ≡ false → asked.all ≡ false
        → HasNoRefusalFrom 0 (reports_of monitor.now)) }
    ensures sent { OnOk result (HasSent (W.contents out.old) (W.contents out.new)) }
    ensures failed { IfErr result IsNoFault }
{
    let first = if asked.all {
        told
    } else {
        first_untold(monitor.reports(), told)
    };
    tell(alloc, monitor, first, asked, watch, out)
}

/// Writes how many calls on how many keys there were.
fn tell_counts<W: CountedWrite>(
    alloc: Global,
    monitor: &RecordMonitor,
    form: Lines,
    watch: &impl Watch,
    out: &mut W,
) -> Result<(), Stopped>
    ensures told { OnOk result
        (TellsCountsOf (W.contents out.old) (W.contents out.new) form monitor.now) }
    ensures failed { IfErr result IsNoFault }
{
    let mut text = Vec::new(alloc);
    append_counts(alloc, &mut text, monitor, form)?;
    write_found(text.as_slice(), watch, out)
}

/// Writes what isn't told yet of what was found in a whole file, and how many calls there were.
fn tell_end<W: CountedWrite>(
    alloc: Global,
    monitor: &RecordMonitor,
    told: usize,
    asked: Monitoring,
    watch: &impl Watch,
    out: &mut W,
) -> Result<Found, Stopped>
    ensures { (bytes : List ℕ) → HasTakenFile HasTaken bytes monitor.now
        → EndsAs (W.contents out.old) (W.contents out.new) asked bytes result }
{
    a_refused_key_has_no_order();
    without_a_report_each_key_is_linearizable();
    if tell_rest(alloc, monitor, told, asked, watch, out)? {
        return Ok(Found::Refused);
    }
    tell_counts(alloc, monitor, asked.form, watch, out)?;
    Ok(found_by(monitor))
}

impl Session {
    /// Judges the next block of the file, and writes what was found; whether a key is refused, so that the command
    /// ends.
    pub(crate) fn judge<W: CountedWrite>(
        &mut self,
        rt: &(impl Threads + Sync),
        alloc: Global,
        block: &[u8],
        asked: Monitoring,
        watch: &impl Watch,
        out: &mut W,
    ) -> Result<bool, Stopped>
        requires { self.old.feed.fed + length block.now ≤ 2 ^ 62 }
        ensures goes { (bytes : List ℕ) → Stands bytes self.old.feed
            → GoesOn (W.contents out.old) (W.contents out.new) asked.form (bytes ++ block.now) result
            self.new.feed }
        ensures sent { OnOk result (HasSent (W.contents out.old) (W.contents out.new)) }
        ensures asked { IfOk result (λ stops. stops ≡ true → asked.all ≡ false) }
        ensures count { IfOk result (λ stops. self.new.feed.fed ≤ self.old.feed.fed + length block.now) }
    {
        a_feed_has_taken_the_rows_of_its_lines::<JudgedRows>();
        a_refused_key_has_no_order();
        let fed = self.feed.feed(rt, block);
        if let Err(fault) = fed {
            if is_memory(fault.kind) {
                return Err(Stopped::Fault(fault));
            }
        }
        let monitor = self.feed.contents().taker().monitor();
        let stops = tell(alloc, monitor, self.told, asked, watch, out)?;
        if stops {
            return Ok(true);
        }
        match fed {
            Ok(()) => {
                self.told = monitor.reports().len();
                watch.judged(monitor);
                Ok(false)
            }
            Err(fault) => Err(Stopped::Fault(fault)),
        }
    }

    /// Ends the file, and writes what was found, and how many calls there were.
    pub(crate) fn end<W: CountedWrite>(
        self,
        rt: &(impl Threads + Sync),
        alloc: Global,
        asked: Monitoring,
        watch: &impl Watch,
        out: &mut W,
    ) -> Result<Found, Stopped>
        ensures { (bytes : List ℕ) → Stands bytes self.feed
            → EndsAs (W.contents out.old) (W.contents out.new) asked bytes result }
    {
        a_feed_has_taken_the_rows_of_its_lines::<JudgedRows>();
        let Session { feed, told } = self;
        match feed.finish(rt) {
            Ok(rows) => tell_end(alloc, rows.monitor(), told, asked, watch, out),
            Err(fault) => Err(Stopped::Fault(fault)),
        }
    }
}
