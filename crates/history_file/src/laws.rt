//! Laws of the definitions, each the contract of a function that does nothing.
ghost use Rattle.std.specs.Prelude.{ℕ, ◌≡◌, List, Some, length, slice_get, Result};
ghost use Rattle.std.specs.List.{range_with_len};
ghost use Rattle.counted_devices.specs.FirstFaults.{FileAnswers};
ghost use Rattle.recorder.specs.Histories.{Recorded};
ghost use Rattle.recorder.specs.declared.row.Row.{Row};
ghost use Rattle.file_format.specs.declared.file_header.FileHeader.{FileHeader};
ghost use Rattle.file_format.specs.declared.file_header.FileHeader.TheVariants.{Version1};
ghost use Rattle.file_format.specs.declared.hall_row.HallRow.{HallRow};
ghost use Rattle.file_format.specs.HistoriesFormat.{histories_format, AreHistories};
ghost use Rattle.file_format.specs.Readings.{Reads};
ghost use Rattle.file_format.specs.Faults.{FileFault};
ghost use Rattle.file_format.specs.Files.{file_faults};
ghost use Rattle.file_format.specs.LongHistories.{long_history_format};
ghost use Rattle.file_format.specs.declared.fault.LineFault.{LineFault};
ghost use Rattle.line_files.specs.Feeds.{StandsForLines};
ghost use Rattle.line_files.specs.LinesRead.{LeavesReadIn};
ghost use Rattle.line_files.specs.declared.feed.Feed.{Feed};
ghost use Rattle.history_file.specs.declared.numbered_format.NumberedHistories.{NumberedHistories};
ghost use Rattle.history_file.specs.declared.taken_rows.LongHistory.{LongHistory};
ghost use Rattle.history_file.specs.NumberedRows.{lines_of, MakesNumbered, AreLinesOfRows};
ghost use Rattle.history_file.specs.NumberedRows.{StandsOn, LineSaysItem};
ghost use Rattle.history_file.specs.TakenRows.{AreRowsSoFar, HasTakenFile, HasTakenLines};
ghost use Rattle.history_file.specs.TakenRows.{LeavesTaken, MakesLongHistory};

use file_format::TakesRows;

/// A hall's list has a line for each row of the hall's history, on which that row stands.
pub fn a_row_stands_on_its_line()
    ensures { (header : FileHeader) (items : List HallRow) (numbered : NumberedHistories)
        → MakesNumbered header items numbered → (hall : ℕ) (history : Recorded)
        (lines : List ℕ) → slice_get numbered.histories.halls hall ≡ Some history
        → slice_get numbered.lines.items hall ≡ Some lines
        → AreLinesOfRows items hall history.rows lines }
{}

/// The line on which an item stands is the line of the file's bytes that says it.
pub fn a_line_says_the_item_on_it()
    ensures { (bytes : List ℕ) (numbered : NumberedHistories)
        (file : Reads histories_format MakesNumbered bytes numbered) (line : ℕ) (item : HallRow)
        → StandsOn file.items line item → LineSaysItem file line item }
{}

/// In a file of version 1 row k, from 0, stands on line k + 2.
pub fn rows_of_version_1_stand_one_after_another()
    ensures { (items : List HallRow) → AreHistories Version1 items
        → lines_of 0 items ≡ range_with_len 2 (length items) }
{}

/// Of a `RowsFeed` that stands for bytes, the taker has taken the rows of their whole lines. Where a line has a
/// fault, it has taken those of the lines before. At the end it has taken those of the file.
pub fn a_feed_has_taken_the_rows_of_its_lines<T: TakesRows>()
    ensures lines { (bytes : List ℕ) (feed : Feed (LongHistory T) LineFault)
        → StandsForLines (MakesLongHistory T.HasTaken) bytes feed
        → HasTakenLines T.HasTaken bytes feed.progress.contents.taker }
    ensures before { (bytes : List ℕ) (result : Result (Unit {0}) FileFault) (history : LongHistory T)
        → LeavesReadIn (MakesLongHistory T.HasTaken) bytes result history
        → LeavesTaken T.HasTaken bytes result history.taker }
    ensures file { (bytes : List ℕ) (result : Result T FileFault)
        → FileAnswers (file_faults long_history_format)
        (Reads long_history_format (λ header. T.HasTaken)) bytes result
        → FileAnswers (file_faults long_history_format) (HasTakenFile T.HasTaken) bytes result }
{}

/// The whole lines of bytes are those of one list of rows.
pub fn whole_lines_have_the_same_rows()
    ensures { (bytes : List ℕ) (rows others : List Row) → AreRowsSoFar bytes rows
        → AreRowsSoFar bytes others → rows ≡ others }
{}
