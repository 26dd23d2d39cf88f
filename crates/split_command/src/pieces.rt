//! The pieces of a history as what takes its rows.
ghost use Rattle.std.specs.Prelude.{◌≡◌, ◌<◌, ◌^◌, [], ℕ, List, length, IfErr, IfOk};
ghost use Rattle.recorder.specs.declared.row.Row.{Row};
ghost use Rattle.split_rows.specs.Splits.{begun_of, key_count_of};
ghost use Rattle.split_command.specs.declared.splitting.Stopped.TheVariants.{Output};
ghost use Rattle.split_command.specs.Endings.{HasPieces};
ghost use Rattle.split_command.specs.Rows.{EndsRow};
ghost use Rattle.split_command.specs.PieceTexts.{AreFresh};
ghost use Rattle.split_command.specs.Written.{HasWritten};

use crate::piece_files::PieceFiles;
use crate::splitting::{Split, Stopped};
use counted_devices::{CountedWrite, WriteFault};
use file_format::{Stop, TakesRows};
use line_answers::line_answer;
use recorder::{ActionRef, ReturnedRef};
use split_rows::RowSplitter;
use split_rows::laws::a_key_is_in_one_piece;
use std::alloc::Global;
use tag::{ClientId, Memory, OpId, Tag};

/// The line of a history's first row.
const FIRST_LINE: u64 = 2;

/// The pieces of the rows that were taken.
#[derive(Drop)]
pub(crate) struct Pieces<W> {
    splitter: RowSplitter,
    files: PieceFiles<W>,
    /// The line of the next row.
    line: u64,
    /// Whether a file failed: then it isn't known what went out to it.
    has_failed: bool,
}

impl<W: CountedWrite + Drop> Pieces<W> {
    /// Pieces without a row, one for each file.
    pub(crate) fn new(alloc: Global, writers: Vec<W>) -> Result<Pieces<W>, Memory>
        requires some { 0 < length writers.items }
        requires fresh { AreFresh W.contents writers.items }
        ensures { IfOk result (HasWritten W.contents []) }
    {
        let parts = writers.len();
        let files = PieceFiles::new(alloc, writers)?;
        Ok(Pieces {
            splitter: RowSplitter::new(alloc, parts)?,
            files,
            line: FIRST_LINE,
            has_failed: false,
        })
    }

    /// How many calls were begun.
    pub(crate) fn begun(&self) -> u64
        ensures { result ≡ begun_of self.now.splitter }
    {
        self.splitter.begun()
    }

    /// How many keys were seen.
    pub(crate) fn key_count(&self) -> usize
        ensures { result ≡ key_count_of self.now.splitter }
    {
        self.splitter.key_count()
    }

    /// Whether a file failed.
    pub(crate) fn has_failed(&self) -> bool
        ensures { result ≡ self.now.has_failed }
    {
        self.has_failed
    }

    /// Ends a row whose line was added so.
    fn end_row(&mut self, added: Result<(), WriteFault>) -> Result<(), Stop>
        ensures { EndsRow self.old added result self.new }
    {
        // A history has at most 2^62 bytes, so that its lines have lower numbers.
        self.line = self.line.saturating_add(1);
        match added {
            Ok(()) => Ok(()),
            Err(WriteFault::Memory) => Err(Stop::Memory),
            Err(WriteFault::Device) => {
                self.has_failed = true;
                Ok(())
            }
        }
    }

    /// All that waits goes out to the files, of which there should be so many.
    pub(crate) fn finish(self, parts: usize) -> Result<Split<W>, Stopped>
        ensures split { IfOk result (λ split. (rows : List Row) → length rows < 2 ^ 62
            → HasWritten W.contents rows self → HasPieces W.contents parts rows split) }
        ensures failed { IfErr result (λ why. why ≡ Output) }
    {
        let Pieces {
            splitter,
            files,
            has_failed,
            ..
        } = self;
        let (calls, keys) = (splitter.begun(), splitter.key_count());
        drop(splitter);
        if has_failed || files.count() != parts {
            return Err(Stopped::Output);
        }
        match files.finish() {
            Ok(files) => Ok(Split { files, calls, keys }),
            Err(_) => Err(Stopped::Output),
        }
    }
}

impl<W: CountedWrite + Drop> TakesRows for Pieces<W> {
    ghost HasTaken = { λ rows taker. HasWritten W.contents rows taker };

    fn invoke(
        &mut self,
        op: OpId,
        client: ClientId,
        key: &str,
        action: &ActionRef<'_>,
    ) -> Result<(), Stop> {
        a_key_is_in_one_piece();
        let moved = line_answer(self.splitter.invoke(op, client, key, action))?;
        let added = self.files.invoke(moved, self.line, client, key, action);
        self.end_row(added)
    }

    fn note(&mut self, op: OpId, tag: Tag) -> Result<(), Stop> {
        a_key_is_in_one_piece();
        let moved = line_answer(self.splitter.note(op))?;
        let added = self.files.note(moved, self.line, tag);
        self.end_row(added)
    }

    fn respond(&mut self, op: OpId, returned: &ReturnedRef<'_>) -> Result<(), Stop> {
        a_key_is_in_one_piece();
        let moved = line_answer(self.splitter.respond(op, returned))?;
        let added = self.files.respond(moved, self.line, returned);
        self.end_row(added)
    }
}
