//! Laws of what is known of the kept writes, each the contract of a function that does nothing.
//!
//! By number each kept write has its value, the place where it began and the first end of its family. That says which
//! of them a read may have read; a row changes it as it changes the zones.
ghost use Rattle.std.specs.Prelude.{◌≡◌, ℕ, Contains, List, Option, Some, None, max};
ghost use Rattle.tag.specs.declared.actions.Action.TheVariants.{Write};
ghost use Rattle.recorder.specs.declared.part.Call.{Call};
ghost use Rattle.recorder.specs.Sound.{IsRead, IsWrite};
ghost use Rattle.value_order.specs.Tables.{ReadsBy};
ghost use Rattle.value_order.specs.Writers.{AnswersValue};
ghost use Rattle.value_order.specs.Zones.{IsFirstEnd};
ghost use Rattle.kept_families.specs.Forgotten.{IsForgotten};
ghost use Rattle.kept_zones.specs.Overwriting.{HasZone, Known, LacksZone};
ghost use Rattle.key_monitor.specs.Answers.{HasNoCandidate, IsOneCandidate};
ghost use Rattle.key_monitor.specs.Judged.{AnswersCall, AreJudged, BeginsCall, HasEntry};
ghost use Rattle.key_monitor.specs.KeptWrites.{AreWritesOf, HasKept, HasNoneFresh, IsOneFresh, KeptWrite, LacksKept};
ghost use Rattle.key_monitor.specs.ZonesOf.{AreZonesOf, NoneForgotten};

/// The one fresh kept write of a value is the one candidate of a read which answers it.
pub fn the_one_fresh_write_is_the_candidate()
    ensures { (part : List Call) (source : ℕ → Option ℕ) (row place op : ℕ) (known : Known)
        (writes : ℕ → Option KeptWrite) (kept : KeptWrite) → AreJudged part source row
        → AreZonesOf part (ReadsBy part source) row known
        → AreWritesOf part (ReadsBy part source) row known writes
        → IsOneFresh known writes place op kept → (write : Call) × (write.op.0 ≡ op)
        × IsOneCandidate part (ReadsBy part source) row known place kept.value write }
{}

/// Without a fresh kept write of the value there is no candidate.
pub fn without_a_fresh_write_there_is_no_candidate()
    ensures { (part : List Call) (source : ℕ → Option ℕ) (row place : ℕ) (known : Known)
        (writes : ℕ → Option KeptWrite) (value : List ℕ) → AreJudged part source row
        → AreZonesOf part (ReadsBy part source) row known
        → AreWritesOf part (ReadsBy part source) row known writes
        → HasNoneFresh known writes place value
        → HasNoCandidate part (ReadsBy part source) row known place value }
{}

/// With the zone of a forgotten family its write goes.
pub fn the_write_of_a_forgotten_zone_may_go()
    ensures { (part : List Call) (source : ℕ → Option ℕ) (row op end : ℕ) (known new : Known)
        (writes now : ℕ → Option KeptWrite) (kept : KeptWrite) (write : Call)
        → AreJudged part source row → AreZonesOf part (ReadsBy part source) row known
        → AreWritesOf part (ReadsBy part source) row known writes → writes op ≡ Some kept
        → kept.end ≡ Some end → IsFirstEnd part (ReadsBy part source) row write (Some end)
        → IsForgotten part (ReadsBy part source) row write
        → LacksZone known.zones end new.zones → LacksKept writes op now
        → AreWritesOf part (ReadsBy part source) row new now }
{}

/// A read that begins changes nothing of the kept writes.
pub fn a_read_that_begins_changes_no_write()
    ensures { (before after : List Call) (source : ℕ → Option ℕ) (row place : ℕ) (call : Call)
        (known : Known) (writes : ℕ → Option KeptWrite) → AreJudged before source row
        → BeginsCall row place before after call → IsRead call
        → AreWritesOf before (ReadsBy before source) row known writes
        → AreWritesOf after (ReadsBy after source) place known writes }
{}

/// A write that begins is kept, without an end.
pub fn a_write_that_begins_is_kept()
    ensures { (before after : List Call) (source : ℕ → Option ℕ) (row place : ℕ) (call : Call)
        (value : List ℕ) (known : Known) (writes now : ℕ → Option KeptWrite)
        → AreJudged before source row → BeginsCall row place before after call
        → call.action ≡ Write value → AreWritesOf before (ReadsBy before source) row known writes
        → HasKept writes call.op.0 (record { value = value; begin = place; end = None }) now
        → AreWritesOf after (ReadsBy after source) place known now }
{}

/// A read that the table says nothing of changes nothing of the kept writes.
pub fn a_read_without_an_entry_changes_no_write()
    ensures { (before after : List Call) (source : ℕ → Option ℕ) (row place : ℕ) (read : Call)
        (known : Known) (writes : ℕ → Option KeptWrite) → AreJudged before source row
        → AnswersCall row place before after read → IsRead read
        → AreWritesOf before (ReadsBy before source) row known writes
        → AreWritesOf after (ReadsBy after source) place known writes }
{}

/// Where a call of its family had ended, a write's answer changes nothing of the kept writes.
pub fn a_write_of_an_ended_family_changes_no_write()
    ensures { (before after : List Call) (source : ℕ → Option ℕ) (row place end : ℕ)
        (call w : Call) (known : Known) (writes : ℕ → Option KeptWrite)
        → AreJudged before source row → AnswersCall row place before after call → IsWrite call
        → Contains before w → w.op ≡ call.op
        → IsFirstEnd before (ReadsBy before source) row w (Some end)
        → AreWritesOf before (ReadsBy before source) row known writes
        → AreWritesOf after (ReadsBy after source) place known writes }
{}

/// Where none had, the answer is its family's first end.
pub fn a_write_that_ends_first_has_its_end()
    ensures { (before after : List Call) (source : ℕ → Option ℕ) (row place : ℕ) (call w : Call)
        (known new : Known) (writes now : ℕ → Option KeptWrite) (kept : KeptWrite)
        → AreJudged before source row → AnswersCall row place before after call → IsWrite call
        → Contains before w → w.op ≡ call.op
        → AreWritesOf before (ReadsBy before source) row known writes
        → writes w.op.0 ≡ Some kept → kept.end ≡ None
        → HasZone known.zones place w.invoked new.zones
        → HasKept writes w.op.0
        (record { value = kept.value; begin = kept.begin; end = Some place }) now
        → AreWritesOf after (ReadsBy after source) place new now }
{}

/// Where no call of its write's family had ended, the answer of a read with one candidate is the first end.
pub fn a_read_that_ends_first_ends_its_write()
    ensures { (before after : List Call) (source later : ℕ → Option ℕ) (row place : ℕ)
        (value : List ℕ) (read write : Call) (known new : Known)
        (writes now : ℕ → Option KeptWrite) (kept : KeptWrite) → AreJudged before source row
        → AnswersCall row place before after read → AnswersValue read value
        → AreZonesOf before (ReadsBy before source) row known
        → NoneForgotten before (ReadsBy before source) row known
        → IsOneCandidate before (ReadsBy before source) row known read.invoked value write
        → HasEntry source later read write
        → AreWritesOf before (ReadsBy before source) row known writes
        → writes write.op.0 ≡ Some kept → kept.end ≡ None
        → HasZone known.zones place (max write.invoked read.invoked) new.zones
        → HasKept writes write.op.0
        (record { value = kept.value; begin = kept.begin; end = Some place }) now
        → AreWritesOf after (ReadsBy after later) place new now }
{}

/// Where one had, the answer changes nothing of the kept writes.
pub fn a_later_read_changes_no_write()
    ensures { (before after : List Call) (source later : ℕ → Option ℕ) (row place end last : ℕ)
        (value : List ℕ) (read write : Call) (known new : Known)
        (writes : ℕ → Option KeptWrite) → AreJudged before source row
        → AnswersCall row place before after read → AnswersValue read value
        → AreZonesOf before (ReadsBy before source) row known
        → NoneForgotten before (ReadsBy before source) row known
        → IsOneCandidate before (ReadsBy before source) row known read.invoked value write
        → HasEntry source later read write
        → AreWritesOf before (ReadsBy before source) row known writes
        → IsFirstEnd before (ReadsBy before source) row write (Some end)
        → HasZone known.zones end last new.zones
        → AreWritesOf after (ReadsBy after later) place new writes }
{}
