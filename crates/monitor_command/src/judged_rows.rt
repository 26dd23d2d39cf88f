//! A monitor as what takes the rows of a file.
ghost use Rattle.std.specs.Prelude.{◌≡◌, []};
ghost use Rattle.record_monitor.specs.Monitored.{HasTaken};

use file_format::{Stop, TakesRows};
use line_answers::line_answer;
use record_monitor::RecordMonitor;
use recorder::{ActionRef, ReturnedRef};
use std::alloc::Global;
use std::marker::Model;
use tag::{ClientId, OpId, Tag};

/// A monitor that takes the rows of a file.
#[derive(Drop)]
pub(crate) struct JudgedRows {
    monitor: RecordMonitor,
}

impl Model for JudgedRows {
    ghost use Rattle.std.specs.Prelude.{Option};
    ghost use Rattle.std.specs.Coded.{coded_option};
    ghost use Rattle.record_monitor.specs.declared.taken.Taken.{Taken};
    ghost use Rattle.record_monitor.specs.contracts.taken.Taken as whole;

    ghost Value = { Option Taken };

    ghost coded = { coded_option whole.the_row.coded };

    ghost view = { λ rows. rows.monitor };
}

impl JudgedRows {
    /// No row was taken.
    pub(crate) fn new(alloc: Global, give_up: u64) -> JudgedRows
        ensures { HasTaken [] result }
    {
        JudgedRows {
            monitor: RecordMonitor::new(alloc, give_up),
        }
    }

    /// The monitor.
    pub(crate) fn monitor(&self) -> &RecordMonitor
        ensures { result.now ≡ self.now }
    {
        &self.monitor
    }
}

impl TakesRows for JudgedRows {
    ghost HasTaken = { λ rows taker. HasTaken rows taker };

    fn invoke(
        &mut self,
        op: OpId,
        client: ClientId,
        key: &str,
        action: &ActionRef<'_>,
    ) -> Result<(), Stop> {
        line_answer(self.monitor.invoke(op, client, key, action))
    }

    fn note(&mut self, op: OpId, tag: Tag) -> Result<(), Stop> {
        line_answer(self.monitor.note(op, tag))
    }

    fn respond(&mut self, op: OpId, returned: &ReturnedRef<'_>) -> Result<(), Stop> {
        line_answer(self.monitor.respond(op, returned))
    }
}
