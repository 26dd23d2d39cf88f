//! Laws of the definitions, each the contract of a function that does nothing.
ghost use Rattle.std.specs.Prelude.{ℕ, ◌≡◌, ◌≢◌, ◌≤◌, ◌↔◌, List, [], ◌∷◌, None, Ok, Result};
ghost use Rattle.serde_json.specs.Data.{Data};
ghost use Rattle.tag.specs.Limits.{call_limit};
ghost use Rattle.recorder.specs.declared.row.Row.{Row};
ghost use Rattle.recorder.specs.declared.order.KeyOrder.{KeyOrder};
ghost use Rattle.recorder.specs.Histories.{IsWellFormed, Recorded, call_count};
ghost use Rattle.file_format.specs.declared.fault.LineFault.{LineFault};
ghost use Rattle.file_format.specs.declared.fault.LineFault.TheVariants.{Version, TooManyCalls};
ghost use Rattle.file_format.specs.CanonicalLines.{IsRowLine, IsHallRowLine, IsPieceLine};
ghost use Rattle.file_format.specs.Lines.{LineShows};
ghost use Rattle.file_format.specs.LineFaults.{FaultsAre, HasRowFault, HasHallRowFault};
ghost use Rattle.file_format.specs.LineFaults.{HasPieceFault, HasHeaderFault, HasFileHeaderFault};
ghost use Rattle.counted_devices.specs.Cuts.{with_end};
ghost use Rattle.counted_devices.specs.FirstFaults.{FirstFaultInAll};
ghost use Rattle.file_format.specs.Files.{file_rules};
ghost use Rattle.file_format.specs.Readings.{Reads};
ghost use Rattle.file_format.specs.HistoryFormat.{history_format, MakesHistory, IsHistory};
ghost use Rattle.file_format.specs.LongHistories.{long_history_format, MakesRows};
ghost use Rattle.file_format.specs.Headers.{header_in};
ghost use Rattle.file_format.specs.FileHeaders.{file_header_in};
ghost use Rattle.file_format.specs.HallRows.{hall_row_in};
ghost use Rattle.file_format.specs.HistoriesFormat.{histories_format, MakesHistories};
ghost use Rattle.file_format.specs.declared.file_header.FileHeader.{FileHeader};
ghost use Rattle.file_format.specs.declared.hall_row.HallRow.{HallRow};
ghost use Rattle.recorder.specs.Halls.{RecordedHalls, AreHalls};
ghost use Rattle.file_format.specs.NumberedRows.{NumberedRow, rows_alone};
ghost use Rattle.file_format.specs.ReadAgain.{IsTextOfHistories, IsTextOfRows};
ghost use Rattle.file_format.specs.OrderFormat.{order_format, MakesJoined, AreFew};
ghost use Rattle.file_format.specs.OrderLines.{piece_in};
ghost use Rattle.file_format.specs.Ranges.{AreRowsInRange, HasRowsInRange, HaveFormed, HasLawful};
ghost use Rattle.file_format.specs.Ranges.{AreNumberedInRange, IsNumberedInRange};
ghost use Rattle.file_format.specs.Ranges.{AreOrdersInRange, HaveDistinctKeys};
ghost use Rattle.file_format.specs.Rows.{row_in};
ghost use Rattle.file_format.specs.Says.{SaysRow, SaysHallRow, SaysHeader, SaysFileHeader, SaysPiece};
ghost use Rattle.file_format.specs.Texts.{history_text, histories_text, orders_text};
ghost use Rattle.file_format.specs.Texts.{numbered_history_text, numbered_text};

/// A JSON value is read as a row exactly where its members say the row.
pub fn a_row_is_read_where_its_members_say_it()
    ensures { (d : Data) (row : Row) → (row_in d ≡ Ok row) ↔ SaysRow d row }
{}

/// A JSON value is read as a header exactly where its members say so.
pub fn a_header_is_read_where_its_members_say_it()
    ensures { (name : List ℕ) (d : Data) → (header_in name d ≡ Ok tt) ↔ SaysHeader name d }
{}

/// A JSON value is read as a piece of an order exactly where its members say the piece.
pub fn a_piece_is_read_where_its_members_say_it()
    ensures { (d : Data) (piece : KeyOrder) → (piece_in d ≡ Ok piece) ↔ SaysPiece d piece }
{}

/// The fault of a value that is no row is the one that its members have: `Member` where one is
/// missing or of the wrong kind, `Range` where none is and one is outside its range, and no other.
pub fn a_row_has_the_fault_of_its_members()
    ensures { (d : Data) → FaultsAre (row_in d) (HasRowFault d) }
{}

/// The same of a value that is no piece of an order.
pub fn a_piece_has_the_fault_of_its_members()
    ensures { (d : Data) → FaultsAre (piece_in d) (HasPieceFault d) }
{}

/// The fault of a value that is no header: `NoHeader` where it isn't of such a file, `Version`
/// where it is and the version isn't 1, and no other.
pub fn a_header_has_the_fault_of_its_members()
    ensures { (name : List ℕ) (d : Data) → FaultsAre (header_in name d) (HasHeaderFault name d) }
{}

/// A JSON value is read as the header of a history file of either version exactly where its members
/// say so.
pub fn a_file_header_is_read_where_its_members_say_it()
    ensures { (d : Data) (header : FileHeader) → (file_header_in d ≡ Ok header)
        ↔ SaysFileHeader d header }
{}

/// After a header, a JSON value is read as a row of a hall exactly where its members say it.
pub fn a_row_of_a_hall_is_read_where_its_members_say_it()
    ensures { (header : FileHeader) (d : Data) (item : HallRow) → (hall_row_in header d ≡ Ok item)
        ↔ SaysHallRow header d item }
{}

/// The fault of a value that is no header of a history file of either version is the one that its
/// members have, and no other.
pub fn a_file_header_has_the_fault_of_its_members()
    ensures { (d : Data) → FaultsAre (file_header_in d) (HasFileHeaderFault d) }
{}

/// The same of a value that is no row of a hall.
pub fn a_row_of_a_hall_has_the_fault_of_its_members()
    ensures { (header : FileHeader) (d : Data)
        → FaultsAre (hall_row_in header d) (HasHallRowFault header d) }
{}

/// A line of a history file shows one row, or one fault.
pub fn a_line_shows_one_row_or_fault()
    ensures { (line : List ℕ) (a b : Result Row LineFault) → LineShows row_in line a
        → LineShows row_in line b → a ≡ b }
{}

/// A line that is the one written for a row, with some number of a line or with none, shows that row.
pub fn a_line_written_for_a_row_shows_it()
    ensures { (line : List ℕ) (row : Row) → IsRowLine line row → LineShows row_in line (Ok row) }
{}

/// A line that is the one written for a row with the number of its line in a file that is split shows that row.
pub fn a_line_written_for_a_numbered_row_shows_the_row()
    ensures { (line : List ℕ) (numbered : NumberedRow) → with_end line ≡ numbered_text numbered
        → IsNumberedInRange numbered → LineShows row_in line (Ok numbered.row) }
{}

/// After a header, a line that is the one written for a row of a hall shows that row.
pub fn a_line_written_for_a_row_of_a_hall_shows_it()
    ensures { (header : FileHeader) (line : List ℕ) (item : HallRow)
        → IsHallRowLine header line item → LineShows (hall_row_in header) line (Ok item) }
{}

/// A line that is the one written for a piece of an order shows that piece.
pub fn a_line_written_for_a_piece_shows_it()
    ensures { (line : List ℕ) (piece : KeyOrder) → IsPieceLine line piece
        → LineShows piece_in line (Ok piece) }
{}

/// Bytes are read as one history.
pub fn bytes_are_read_as_one_history()
    ensures { (bytes : List ℕ) (a b : Recorded) → Reads history_format MakesHistory bytes a
        → Reads history_format MakesHistory bytes b → a ≡ b }
{}

/// What is written of a history is read as that history.
pub fn a_history_is_read_from_its_text()
    ensures { (rows : List Row) → IsHistory rows → AreRowsInRange rows
        → Reads history_format MakesHistory (history_text rows)
        (record { rows = rows; limit = call_limit }) }
{}

/// What is written of a history is read as no other one.
pub fn a_text_is_read_as_its_history_alone()
    ensures { (rows : List Row) (history : Recorded) → IsHistory rows → AreRowsInRange rows
        → Reads history_format MakesHistory (history_text rows) history → history.rows ≡ rows }
{}

/// Where the rows begin at most 1,000,000 calls, bytes are read as their history exactly where they are read
/// as a history of any length that has them.
pub fn a_history_is_one_of_any_length()
    ensures { (bytes : List ℕ) (rows : List Row) → call_count rows ≤ call_limit
        → Reads history_format MakesHistory bytes (record { rows = rows; limit = call_limit })
        ↔ Reads long_history_format MakesRows bytes rows }
{}

/// The first fault of a history file is its first fault as a history of any length too, where it isn't
/// that of too many calls.
pub fn a_fault_of_a_history_is_one_at_any_length()
    ensures { (bytes : List ℕ) (n : ℕ) (fault : LineFault) → fault ≢ TooManyCalls
        → FirstFaultInAll (file_rules history_format) bytes n fault
        → FirstFaultInAll (file_rules long_history_format) bytes n fault }
{}

/// A history file of any length has one first fault.
pub fn a_long_history_has_one_first_fault()
    ensures { (bytes : List ℕ) (m n : ℕ) (a b : LineFault)
        → FirstFaultInAll (file_rules long_history_format) bytes m a
        → FirstFaultInAll (file_rules long_history_format) bytes n b → (m ≡ n) × (a ≡ b) }
{}

/// Bytes that are read as the rows of a history of any length have no fault, and are read as no others.
pub fn bytes_are_read_as_the_same_rows()
    ensures once { (bytes : List ℕ) (rows others : List Row)
        → Reads long_history_format MakesRows bytes rows
        → Reads long_history_format MakesRows bytes others → rows ≡ others }
    ensures sound { (bytes : List ℕ) (rows : List Row) (n : ℕ) (fault : LineFault)
        → Reads long_history_format MakesRows bytes rows
        → FirstFaultInAll (file_rules long_history_format) bytes n fault → ⊥ }
{}

/// What is written of rows with the numbers of their lines in a file that is split is read as a history of
/// any length of these rows, and as no others.
pub fn numbered_rows_are_read_from_their_text()
    ensures { (numbered : List NumberedRow) → IsWellFormed (rows_alone numbered)
        → AreNumberedInRange numbered
        → IsTextOfRows (numbered_history_text numbered) (rows_alone numbered) }
{}

/// Bytes are read as one row of histories.
pub fn bytes_are_read_as_the_same_histories()
    ensures { (bytes : List ℕ) (a b : RecordedHalls)
        → Reads histories_format MakesHistories bytes a
        → Reads histories_format MakesHistories bytes b → a ≡ b }
{}

/// A history file of version 1 is read as one hall, without quorums.
pub fn a_history_is_read_as_one_hall()
    ensures { (bytes : List ℕ) (history : Recorded)
        → Reads history_format MakesHistory bytes history
        → Reads histories_format MakesHistories bytes
        (record { halls = history ∷ []; quorums = None }) }
{}

/// What is written of histories is read as their rows by hall and their quorums, and as nothing
/// else.
pub fn histories_are_read_from_their_text()
    ensures { (histories : RecordedHalls) → AreHalls histories → HasLawful histories.quorums
        → HaveFormed histories.halls → HasRowsInRange histories.halls
        → IsTextOfHistories (histories_text histories) histories }
{}

/// A history file of either version has one first fault.
pub fn a_file_of_histories_has_one_first_fault()
    ensures { (bytes : List ℕ) (m n : ℕ) (a b : LineFault)
        → FirstFaultInAll (file_rules histories_format) bytes m a
        → FirstFaultInAll (file_rules histories_format) bytes n b → (m ≡ n) × (a ≡ b) }
{}

/// The first fault of a history file of version 1 is its first fault as histories too, where it
/// isn't that of its version.
pub fn a_fault_of_a_history_is_one_of_histories()
    ensures { (bytes : List ℕ) (n : ℕ) (fault : LineFault) → fault ≢ Version
        → FirstFaultInAll (file_rules history_format) bytes n fault
        → FirstFaultInAll (file_rules histories_format) bytes n fault }
{}

/// Bytes that are read as histories have no fault.
pub fn histories_have_no_fault()
    ensures { (bytes : List ℕ) (histories : RecordedHalls) (n : ℕ) (fault : LineFault)
        → Reads histories_format MakesHistories bytes histories
        → FirstFaultInAll (file_rules histories_format) bytes n fault → ⊥ }
{}

/// Bytes are read as one list of orders.
pub fn bytes_are_read_as_one_list_of_orders()
    ensures { (bytes : List ℕ) (a b : List KeyOrder) → Reads order_format MakesJoined bytes a
        → Reads order_format MakesJoined bytes b → a ≡ b }
{}

/// What is written of orders of distinct keys is read as those orders.
pub fn orders_are_read_from_their_text()
    ensures { (orders : List KeyOrder) → AreOrdersInRange orders → HaveDistinctKeys orders
        → AreFew orders → Reads order_format MakesJoined (orders_text orders) orders }
{}

/// What is written of orders of distinct keys is read as no others.
pub fn a_text_is_read_as_its_orders_alone()
    ensures { (orders others : List KeyOrder) → AreOrdersInRange orders → HaveDistinctKeys orders
        → AreFew orders → Reads order_format MakesJoined (orders_text orders) others
        → others ≡ orders }
{}

/// A history file has one first fault.
pub fn a_history_file_has_one_first_fault()
    ensures { (bytes : List ℕ) (m n : ℕ) (a b : LineFault)
        → FirstFaultInAll (file_rules history_format) bytes m a
        → FirstFaultInAll (file_rules history_format) bytes n b → (m ≡ n) × (a ≡ b) }
{}

/// An order file has one first fault.
pub fn an_order_file_has_one_first_fault()
    ensures { (bytes : List ℕ) (m n : ℕ) (a b : LineFault)
        → FirstFaultInAll (file_rules order_format) bytes m a
        → FirstFaultInAll (file_rules order_format) bytes n b → (m ≡ n) × (a ≡ b) }
{}

/// Bytes that are read as a history have no fault.
pub fn a_history_has_no_fault()
    ensures { (bytes : List ℕ) (history : Recorded) (n : ℕ) (fault : LineFault)
        → Reads history_format MakesHistory bytes history
        → FirstFaultInAll (file_rules history_format) bytes n fault → ⊥ }
{}

/// Bytes that are read as orders have no fault.
pub fn orders_have_no_fault()
    ensures { (bytes : List ℕ) (orders : List KeyOrder) (n : ℕ) (fault : LineFault)
        → Reads order_format MakesJoined bytes orders
        → FirstFaultInAll (file_rules order_format) bytes n fault → ⊥ }
{}
