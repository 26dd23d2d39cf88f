//! Laws of the next row of a file, each the contract of a function that does nothing.
//!
//! The part of a key is without the reads that were given up (`IsPartWithout`). These laws say what part the rows with one more
//! have, and that it goes on from the part before as the laws of `key_monitor` ask.
ghost use Rattle.std.specs.Prelude.{◌≡◌, ◌≢◌, ◌≤◌, ◌↔◌, ◌++◌, ℕ, [], ◌∷◌, Contains, List, Option, None};
ghost use Rattle.tag.specs.declared.actions.Action.{Action};
ghost use Rattle.tag.specs.declared.actions.Action.TheVariants.{Read, Write};
ghost use Rattle.tag.specs.declared.actions.Returned.{Returned};
ghost use Rattle.tag.specs.declared.numbers.OpId.{OpId};
ghost use Rattle.tag.specs.Tags.{Tag};
ghost use Rattle.recorder.specs.declared.part.Call.{Call};
ghost use Rattle.recorder.specs.declared.row.Row.{Row};
ghost use Rattle.recorder.specs.declared.row.Row.TheVariants.{Invoke, Note, Respond};
ghost use Rattle.recorder.specs.Histories.{HasResponse, IsWellFormed, MayFollow};
ghost use Rattle.recorder.specs.Orders.{IsLinearizable};
ghost use Rattle.recorder.specs.Records.{BeginsAt, IsPart};
ghost use Rattle.recorder.specs.Sound.{IsRead};
ghost use Rattle.value_order.specs.Tables.{ReadsBy};
ghost use Rattle.kept_families.specs.SoundTables.{AreAllRead};
ghost use Rattle.key_monitor.specs.Follows.{FollowsKept, KeyState};
ghost use Rattle.key_monitor.specs.Judged.{AreJudged};
ghost use Rattle.key_monitor.specs.KeptWrites.{HasKept, KeptWrite};
ghost use Rattle.key_monitor.specs.Pending.{HasOpen};
ghost use Rattle.growing_parts.specs.NextRows.{HasAnsweredCall, HasBegunCall, HasGivenUpRead, HasNotedCall};
ghost use Rattle.growing_parts.specs.Nothing.{BeginsFirst, IsEmptyTable, KnowsNothing};
ghost use Rattle.growing_parts.specs.PartsWithout.{AreReadsOf, IsPartWithout, IsRowOutside, StandsBy};

/// A row that begins a call on the key adds it to the part.
pub fn a_call_that_begins()
    ensures { (rows : List Row) (key gone : List ℕ) (before : List Call) (op : OpId) (client : ℕ)
        (action : Action) → IsWellFormed rows → MayFollow rows (Invoke op client key action)
        → IsPartWithout rows key gone before → AreReadsOf rows gone
        → HasBegunCall rows key gone before op client action }
{}

/// The answer of a call on the key that isn't given up answers it.
pub fn an_answer()
    ensures { (rows : List Row) (key gone : List ℕ) (before : List Call) (op : OpId) (client : ℕ)
        (action : Action) (returned : Returned) → IsWellFormed rows
        → MayFollow rows (Respond op returned)
        → IsPartWithout rows key gone before → Contains rows (Invoke op client key action)
        → (Contains gone op.0 → ⊥)
        → HasAnsweredCall rows key gone before op client action returned }
{}

/// A note, of whichever key, changes nothing that is followed.
pub fn a_note_changes_no_call()
    ensures { (rows : List Row) (key gone : List ℕ) (before : List Call) (op : OpId) (tag : Tag)
        → IsWellFormed rows → MayFollow rows (Note op tag) → IsPartWithout rows key gone before
        → HasNotedCall rows key gone before op tag }
{}

/// A row of another key, or of a read that was given up, leaves the part what it is.
pub fn a_row_of_another_key()
    ensures { (rows : List Row) (key gone : List ℕ) (part : List Call) (row : Row)
        → IsWellFormed rows → MayFollow rows row → IsRowOutside rows key gone row
        → IsPartWithout rows key gone part
        → IsPartWithout (rows ++ row ∷ []) key gone part }
{}

/// A pending read of the key that is given up is left out of the part.
pub fn a_read_that_is_given_up()
    ensures { (rows : List Row) (key gone : List ℕ) (before : List Call) (op : OpId) (client : ℕ)
        → IsWellFormed rows → IsPartWithout rows key gone before
        → Contains rows (Invoke op client key Read) → (HasResponse rows op → ⊥)
        → (Contains gone op.0 → ⊥) → HasGivenUpRead rows key gone before op client }
{}

/// One of another key leaves the part what it is.
pub fn a_read_of_another_key_that_is_given_up()
    ensures { (rows : List Row) (key gone : List ℕ) (part : List Call) (op : OpId) (client : ℕ)
        (other : List ℕ) → IsWellFormed rows → Contains rows (Invoke op client other Read)
        → other ≢ key → IsPartWithout rows key gone part
        → IsPartWithout rows key (op.0 ∷ gone) part }
{}

/// No numbers are numbers of reads, and they stay such by a row more, and with a read more.
pub fn given_up_reads_stay_reads()
    ensures none { (rows : List Row) → AreReadsOf rows [] }
    ensures next { (rows : List Row) (row : Row) (gone : List ℕ) → AreReadsOf rows gone
        → AreReadsOf (rows ++ row ∷ []) gone }
    ensures more { (rows : List Row) (gone : List ℕ) (op : OpId) (client : ℕ) (key : List ℕ)
        → AreReadsOf rows gone → Contains rows (Invoke op client key Read)
        → AreReadsOf rows (op.0 ∷ gone) }
{}

/// Rows with one more that may follow them are well formed.
pub fn rows_with_one_more_are_well_formed()
    ensures { (rows : List Row) (row : Row) → IsWellFormed rows → MayFollow rows row
        → IsWellFormed (rows ++ row ∷ []) }
{}

/// A key on which no call is begun has the empty part.
pub fn an_empty_part()
    ensures { (rows : List Row) (key gone : List ℕ) → ((place : ℕ) → BeginsAt rows key place → ⊥)
        → IsPartWithout rows key gone [] }
{}

/// A state that knows nothing follows it by any row.
pub fn an_empty_state_follows_no_calls()
    ensures { (source : ℕ → Option ℕ) (row : ℕ) (state : KeyState) → KnowsNothing state
        → IsEmptyTable source → FollowsKept [] source row state }
{}

/// The first read of a key, also in the first row of a file, is its one open read.
pub fn follows_a_first_read()
    ensures { (after : List Call) (source : ℕ → Option ℕ) (place op : ℕ) (call : Call)
        (state : KeyState) (opens : ℕ → Option ℕ) → KnowsNothing state → IsEmptyTable source
        → BeginsFirst place after call → IsRead call → HasOpen state.opens place op opens
        → FollowsKept after source place (record {
          known = state.known;
          writes = state.writes;
          opens = opens;
          first = state.first;
        }) }
{}

/// Its first write is its one kept write, without an end.
pub fn follows_a_first_write()
    ensures { (after : List Call) (source : ℕ → Option ℕ) (place : ℕ) (call : Call)
        (value : List ℕ) (state : KeyState) (writes : ℕ → Option KeptWrite) → KnowsNothing state
        → IsEmptyTable source → BeginsFirst place after call → call.action ≡ Write value
        → HasKept state.writes call.op.0
        (record { value = value; begin = place; end = None }) writes
        → FollowsKept after source place (record {
          known = state.known;
          writes = writes;
          opens = state.opens;
          first = state.first;
        }) }
{}

/// Of no calls, and of a first call, each completed read answers nothing or is in the table.
pub fn a_first_call_leaves_all_read()
    ensures none { (source : ℕ → Option ℕ) → AreAllRead [] (ReadsBy [] source) }
    ensures first { (after : List Call) (source : ℕ → Option ℕ) (place : ℕ) (call : Call)
        → BeginsFirst place after call → AreAllRead after (ReadsBy after source) }
{}

/// Where no read was given up the part is the key's part.
pub fn a_part_without_none_is_the_part()
    ensures { (rows : List Row) (key : List ℕ) (part : List Call)
        → IsPartWithout rows key [] part ↔ IsPart rows key part }
{}

/// Judged calls stand by their row.
pub fn judged_calls_stand_by_their_row()
    ensures { (part : List Call) (source : ℕ → Option ℕ) (row : ℕ) → AreJudged part source row
        → StandsBy part row }
{}

/// What follows them by it follows them by each later row, until a row is of a call of the part.
pub fn followed_calls_are_followed_by_later_rows()
    ensures { (part : List Call) (source : ℕ → Option ℕ) (row later : ℕ) (state : KeyState)
        → row ≤ later → FollowsKept part source row state → FollowsKept part source later state }
{}

/// With an order of the key's calls there is one without the reads that were given up, also if they were answered later.
pub fn an_order_of_the_key_leaves_one_of_the_part()
    ensures { (rows : List Row) (key gone : List ℕ) (whole part : List Call) → IsWellFormed rows
        → AreReadsOf rows gone → IsPart rows key whole → IsPartWithout rows key gone part
        → IsLinearizable whole → IsLinearizable part }
{}

/// Where they are pending, an order without them is one of the key's calls.
pub fn an_order_without_pending_reads_is_one_of_the_key()
    ensures { (rows : List Row) (key gone : List ℕ) (whole part : List Call) → IsWellFormed rows
        → IsPart rows key whole → IsPartWithout rows key gone part
        → ((op : OpId) → Contains gone op.0 → HasResponse rows op → ⊥)
        → IsLinearizable part → IsLinearizable whole }
{}
