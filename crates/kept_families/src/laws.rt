//! Laws of kept families, each the contract of a function that does nothing.
//!
//! They are of families by a table, from reads to writes. A part is that of a whole record, and what holds *by a row*
//! of it is what the rows up to that one show; `Continues` says that a part grows without changing that.
ghost use Rattle.std.specs.Prelude.{◌≡◌, ◌≢◌, ◌<◌, ◌≤◌, ◌⊎◌, ◌↔◌, ℕ, Contains, List, Option, Some, length};
ghost use Rattle.tag_check.specs.Least.{HasNoPair};
ghost use Rattle.recorder.specs.declared.part.Call.{Call};
ghost use Rattle.recorder.specs.Orders.{IsLinearizable};
ghost use Rattle.recorder.specs.Parts.{IsSequence};
ghost use Rattle.value_order.specs.Families.{AreOpposedBy, IsAnsweredBy, MustPrecedeBy};
ghost use Rattle.value_order.specs.Faults.{IsLateNothing};
ghost use Rattle.value_order.specs.Tables.{ReadsBy, StandInPieces};
ghost use Rattle.value_order.specs.Writers.{IsOnlyWriter};
ghost use Rattle.value_order.specs.Zones.{IsFirstEnd, IsLastBegin, IsLastRow};
ghost use Rattle.kept_families.specs.Continued.{AreOpenIn, Continues, Extends, IsSameBy, IsTableOf};
ghost use Rattle.kept_families.specs.Cuts.{IsCut, IsCutFor};
ghost use Rattle.kept_families.specs.Forgotten.{AreKept, IsForgotten, IsForgottenBy};
ghost use Rattle.kept_families.specs.Open.{IsFirstOpen};
ghost use Rattle.kept_families.specs.Oppositions.{HasForgottenRead, HasKnownOpposed, HasOpposed, IsFree, IsReadAfter};
ghost use Rattle.kept_families.specs.SoundTables.{AreAllRead, AreReads, HasRead, IsOverwrittenBy, IsUnreadable};
ghost use Rattle.kept_families.specs.UnderWay.{AreKeptSettled, IsKeptSettled, IsLatest, WasUnderWay, under_way_count};

/// A table of reads to their only writers is sound.
pub fn tables_of_only_writers_are_sound()
    ensures { (part : List Call) (source : ℕ → Option ℕ)
        → ((write read : Call) → ReadsBy part source write read → IsOnlyWriter part write read)
        → AreReads part (ReadsBy part source) }
{}

/// A read with one writer is in a sound table.
pub fn a_read_with_one_writer_is_in_a_sound_table()
    ensures { (part : List Call) (write read : Call) → IsSequence part → Contains part read
        → IsOnlyWriter part write read → (source : ℕ → Option ℕ)
        × AreReads part (ReadsBy part source) × ReadsBy part source write read }
{}

/// In each order a read of a sound table stands in the piece of its write.
pub fn reads_of_a_sound_table_stand_in_pieces()
    ensures { (part : List Call) (source : ℕ → Option ℕ) → IsSequence part
        → AreReads part (ReadsBy part source) → StandInPieces part (ReadsBy part source) }
{}

/// Where two families of a sound table are opposed by a row, no list is an order.
pub fn opposed_families_of_a_sound_table_refute()
    ensures { (part : List Call) (source : ℕ → Option ℕ) (row : ℕ) → IsSequence part
        → AreReads part (ReadsBy part source) → HasOpposed part (ReadsBy part source) row
        → IsLinearizable part → ⊥ }
{}

/// Where each writer of a read was passed, or there is none, no list is an order.
pub fn an_unreadable_read_refutes()
    ensures { (part : List Call) (source : ℕ → Option ℕ) (read : Call) → IsSequence part
        → AreReads part (ReadsBy part source) → IsUnreadable part (ReadsBy part source) read
        → IsLinearizable part → ⊥ }
{}

/// What is forgotten by a row is so by each later one.
pub fn what_is_forgotten_stays_so()
    ensures { (part : List Call) (source : ℕ → Option ℕ) (row later : ℕ) (w u : Call)
        → row ≤ later → IsForgottenBy part (ReadsBy part source) row w u
        → IsForgottenBy part (ReadsBy part source) later w u }
{}

/// A read of a forgotten write that is answered later opposes two families.
pub fn a_later_read_of_a_forgotten_write_opposes()
    ensures { (part : List Call) (source : ℕ → Option ℕ) (row later : ℕ) (w u read : Call)
        → AreReads part (ReadsBy part source)
        → IsForgottenBy part (ReadsBy part source) row w u
        → IsReadAfter part (ReadsBy part source) row later u read
        → AreOpposedBy part (ReadsBy part source) later u w }
{}

/// Where nothing is opposed by a row, what must precede a forgotten family by it is forgotten too.
pub fn what_precedes_a_forgotten_family_is_forgotten()
    ensures { (part : List Call) (source : ℕ → Option ℕ) (row : ℕ) (u v : Call)
        → IsSequence part → AreReads part (ReadsBy part source)
        → IsFree part (ReadsBy part source) row → v ≢ u
        → IsForgotten part (ReadsBy part source) row u
        → MustPrecedeBy part (ReadsBy part source) row v u
        → IsForgotten part (ReadsBy part source) row v }
{}

/// Where nothing is opposed by a later row, a forgotten family forgets by it only what was forgotten before: so it is
/// enough to compare those that were kept.
pub fn forgotten_families_forget_no_more()
    ensures { (part : List Call) (source : ℕ → Option ℕ) (row later : ℕ) (w v : Call)
        → IsSequence part → AreReads part (ReadsBy part source) → row ≤ later
        → IsFree part (ReadsBy part source) later
        → IsForgotten part (ReadsBy part source) row w
        → IsForgottenBy part (ReadsBy part source) later w v
        → IsForgotten part (ReadsBy part source) row v }
{}

/// The law of a row. Where nothing is opposed by a row, two families are opposed by a later one exactly if two that
/// the row hasn't forgotten are, or a read of a forgotten one was answered since. So forgetting changes no answer.
pub fn forgetting_changes_no_answer()
    ensures { (part : List Call) (source : ℕ → Option ℕ) (row later : ℕ) (kept : List ℕ)
        → IsSequence part → AreReads part (ReadsBy part source) → row ≤ later
        → AreKept part (ReadsBy part source) row kept → IsFree part (ReadsBy part source) row
        → HasOpposed part (ReadsBy part source) later
        ↔ (HasKnownOpposed part (ReadsBy part source) row later
        ⊎ HasForgottenRead part (ReadsBy part source) row later) }
{}

/// What is overwritten, by numbers: it ended before the other began last, which ended before the place.
pub fn overwritten_by_numbers()
    ensures { (part : List Call) (source : ℕ → Option ℕ) (row place : ℕ) (u w : Call)
        (end_u end_w last_w : ℕ) → u ≢ w
        → IsFirstEnd part (ReadsBy part source) row u (Some end_u)
        → IsFirstEnd part (ReadsBy part source) row w (Some end_w)
        → IsLastBegin part (ReadsBy part source) row w last_w
        → IsOverwrittenBy part (ReadsBy part source) row place w u
        ↔ ((end_u < last_w) × (end_w < place)) }
{}

/// A family is forgotten exactly if it was overwritten before the first open read began.
pub fn forgotten_is_overwritten_before_the_first_open_read()
    ensures { (part : List Call) (source : ℕ → Option ℕ) (row place : ℕ) (u w : Call)
        → IsFirstOpen part row place → IsForgottenBy part (ReadsBy part source) row w u
        ↔ IsOverwrittenBy part (ReadsBy part source) row place w u }
{}

/// What is forgotten, by numbers.
pub fn forgotten_by_numbers()
    ensures { (part : List Call) (source : ℕ → Option ℕ) (row place : ℕ) (u w : Call)
        (end_u end_w last_w : ℕ) → u ≢ w → IsFirstOpen part row place
        → IsFirstEnd part (ReadsBy part source) row u (Some end_u)
        → IsFirstEnd part (ReadsBy part source) row w (Some end_w)
        → IsLastBegin part (ReadsBy part source) row w last_w
        → IsForgottenBy part (ReadsBy part source) row w u
        ↔ ((end_u < last_w) × (end_w < place)) }
{}

/// A family is forgotten exactly if it ended before the cut of the other settled ones.
pub fn the_cut_forgets_what_ended_before()
    ensures { (part : List Call) (source : ℕ → Option ℕ) (row cut end : ℕ) (u w : Call)
        → IsCutFor part (ReadsBy part source) row u w cut
        → IsFirstEnd part (ReadsBy part source) row u (Some end)
        → IsForgotten part (ReadsBy part source) row u ↔ (end < cut) }
{}

/// The cut of all settled families is that for each but its own: two greatest places are enough.
pub fn one_cut_is_enough_for_the_others()
    ensures { (part : List Call) (source : ℕ → Option ℕ) (row cut : ℕ) (u w : Call) → u ≢ w
        → IsCut part (ReadsBy part source) row w cut
        → IsCutFor part (ReadsBy part source) row u w cut }
{}

/// Of each kept settled family a call, which is answered by now, was under way at one place: where the last of them
/// began last.
pub fn kept_settled_families_were_under_way_at_once()
    ensures { (part : List Call) (source : ℕ → Option ℕ) (row place : ℕ) (u : Call)
        → IsSequence part → AreReads part (ReadsBy part source)
        → IsLatest part (ReadsBy part source) row place
        → IsKeptSettled part (ReadsBy part source) row u
        → WasUnderWay part (ReadsBy part source) row place u }
{}

/// So no more families are kept and settled than calls of the part were under way at that place which are answered by
/// now: a call is of one family.
pub fn no_more_are_kept_than_calls_were_under_way()
    ensures { (part : List Call) (source : ℕ → Option ℕ) (row place : ℕ) (numbers : List ℕ)
        → IsSequence part → AreReads part (ReadsBy part source)
        → IsLatest part (ReadsBy part source) row place
        → AreKeptSettled part (ReadsBy part source) row numbers
        → length numbers ≤ under_way_count part row place }
{}

/// A sound table stays sound when the part goes on, if its new entries are.
pub fn sound_tables_stay_sound()
    ensures { (before after : List Call) (source later : ℕ → Option ℕ) (row : ℕ)
        → IsSequence before → IsSequence after → Continues row before after
        → IsTableOf before source → AreReads before (ReadsBy before source)
        → Extends row after source later
        → ((write read : Call) → ReadsBy after later write read → (IsAnsweredBy row read → ⊥)
        → HasRead after (ReadsBy after later) write read)
        → AreReads after (ReadsBy after later) }
{}

/// What is forgotten stays so when the part goes on.
pub fn what_is_forgotten_stays_so_as_the_part_goes_on()
    ensures { (before after : List Call) (source later : ℕ → Option ℕ) (row : ℕ) (u v : Call)
        → IsSequence before → IsSequence after → Continues row before after
        → IsTableOf before source → AreReads before (ReadsBy before source)
        → Extends row after source later → Contains before u → Contains after v
        → IsSameBy row u v → IsForgotten before (ReadsBy before source) row u
        → IsForgotten after (ReadsBy after later) row v }
{}

/// Where nothing was opposed by the row, nothing is when the part goes on.
pub fn what_is_free_stays_so_as_the_part_goes_on()
    ensures { (before after : List Call) (source later : ℕ → Option ℕ) (row : ℕ)
        → IsSequence before → IsSequence after → Continues row before after
        → IsTableOf before source → AreReads before (ReadsBy before source)
        → Extends row after source later → AreReads after (ReadsBy after later)
        → IsFree before (ReadsBy before source) row → IsFree after (ReadsBy after later) row }
{}

/// What is kept is the same when the part goes on, if no pending read was left out.
pub fn what_is_kept_stays_so_as_the_part_goes_on()
    ensures { (before after : List Call) (source later : ℕ → Option ℕ) (row : ℕ) (kept : List ℕ)
        → IsSequence before → IsSequence after → Continues row before after
        → IsTableOf before source → AreReads before (ReadsBy before source)
        → Extends row after source later → AreReads after (ReadsBy after later)
        → AreOpenIn row before after → AreKept before (ReadsBy before source) row kept
        → AreKept after (ReadsBy after later) row kept }
{}

/// Where each completed read answers nothing or has read a write by the table, no two families are opposed and no read
/// of nothing is late, there is an order.
pub fn a_free_table_is_linearizable()
    ensures { (part : List Call) (source : ℕ → Option ℕ) (row : ℕ) → IsSequence part
        → IsLastRow part row → AreReads part (ReadsBy part source)
        → AreAllRead part (ReadsBy part source) → IsFree part (ReadsBy part source) row
        → HasNoPair part IsLateNothing → IsLinearizable part }
{}
