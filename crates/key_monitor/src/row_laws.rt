//! Laws of one row more, each the contract of a function that does nothing.
//!
//! Of judged calls no two families are opposed, by a sound table. A row begins a call or answers one; these laws say
//! what then holds of the calls, and how their zones change.
ghost use Rattle.std.specs.Prelude.{◌≡◌, ◌<◌, ℕ, Contains, List, Option, Some, None, max};
ghost use Rattle.tag_check.specs.Least.{HasNoPair};
ghost use Rattle.recorder.specs.declared.part.Call.{Call};
ghost use Rattle.recorder.specs.Orders.{IsLinearizable};
ghost use Rattle.recorder.specs.Sound.{IsRead, IsWrite};
ghost use Rattle.value_order.specs.Faults.{IsLateNothing, ShowsValue};
ghost use Rattle.value_order.specs.Tables.{ReadsBy};
ghost use Rattle.value_order.specs.Writers.{AnswersNothing, AnswersValue};
ghost use Rattle.value_order.specs.Zones.{IsFirstEnd, IsLastRow};
ghost use Rattle.kept_families.specs.Continued.{AreOpenIn};
ghost use Rattle.kept_families.specs.SoundTables.{AreAllRead};
ghost use Rattle.kept_zones.specs.Overwriting.{HasZone, Known};
ghost use Rattle.key_monitor.specs.Answers.{HasNoCandidate, IsOneCandidate};
ghost use Rattle.key_monitor.specs.Judged.{AnswersCall, AreJudged, BeginsCall, HasEntry};
ghost use Rattle.key_monitor.specs.Shown.{IsFirstShow, IsInTime, first_show};
ghost use Rattle.key_monitor.specs.ZonesOf.{AreZonesOf, HasZoneOf, NoneForgotten};

/// Where each completed read answers nothing or has read a write, and no read of nothing is late, judged calls have an
/// order.
pub fn judged_calls_are_linearizable()
    ensures { (part : List Call) (source : ℕ → Option ℕ) (row : ℕ) → AreJudged part source row
        → AreAllRead part (ReadsBy part source) → HasNoPair part IsLateNothing
        → IsLinearizable part }
{}

/// A call that begins leaves the calls judged, by the same table.
pub fn a_call_that_begins_leaves_calls_judged()
    ensures { (before after : List Call) (source : ℕ → Option ℕ) (row place : ℕ) (call : Call)
        → AreJudged before source row → BeginsCall row place before after call
        → AreJudged after source place }
{}

/// It changes no zone.
pub fn a_call_that_begins_changes_no_zone()
    ensures { (before after : List Call) (source : ℕ → Option ℕ) (row place : ℕ) (call : Call)
        (known : Known) → AreJudged before source row → BeginsCall row place before after call
        → AreZonesOf before (ReadsBy before source) row known
        → AreZonesOf after (ReadsBy after source) place known }
{}

/// And no family is forgotten by it, if no pending read was left out.
pub fn a_call_that_begins_forgets_none()
    ensures { (before after : List Call) (source : ℕ → Option ℕ) (row place : ℕ) (call : Call)
        (known : Known) → AreJudged before source row → BeginsCall row place before after call
        → AreOpenIn row before after → NoneForgotten before (ReadsBy before source) row known
        → NoneForgotten after (ReadsBy after source) place known }
{}

/// An answer that the table says nothing of leaves the calls judged: that of a write, or of a read that answers
/// nothing, or may have read two writes.
pub fn an_answer_without_an_entry_leaves_calls_judged()
    ensures { (before after : List Call) (source : ℕ → Option ℕ) (row place : ℕ) (call : Call)
        → AreJudged before source row → AnswersCall row place before after call
        → AreJudged after source place }
{}

/// Where no call of a write's family had ended, the write's answer is the first end of its zone.
pub fn a_write_that_ends_first_has_a_zone()
    ensures { (before after : List Call) (source : ℕ → Option ℕ) (row place : ℕ) (call w : Call)
        (known new : Known) → AreJudged before source row
        → AnswersCall row place before after call → IsWrite call → Contains before w
        → w.op ≡ call.op → IsFirstEnd before (ReadsBy before source) row w None
        → AreZonesOf before (ReadsBy before source) row known
        → HasZone known.zones place w.invoked new.zones → new.floor ≡ known.floor
        → AreZonesOf after (ReadsBy after source) place new }
{}

/// Where one had, the write's answer changes no zone, also that of a forgotten write.
pub fn a_write_of_an_ended_family_changes_no_zone()
    ensures { (before after : List Call) (source : ℕ → Option ℕ) (row place end : ℕ)
        (call w : Call) (known : Known) → AreJudged before source row
        → AnswersCall row place before after call → IsWrite call → Contains before w
        → w.op ≡ call.op → IsFirstEnd before (ReadsBy before source) row w (Some end)
        → AreZonesOf before (ReadsBy before source) row known
        → AreZonesOf after (ReadsBy after source) place known }
{}

/// A read that the table says nothing of changes no zone.
pub fn a_read_without_an_entry_changes_no_zone()
    ensures { (before after : List Call) (source : ℕ → Option ℕ) (row place : ℕ) (read : Call)
        (known : Known) → AreJudged before source row
        → AnswersCall row place before after read → IsRead read
        → AreZonesOf before (ReadsBy before source) row known
        → AreZonesOf after (ReadsBy after source) place known }
{}

/// A read that has one candidate leaves the calls judged, by the table that says it has read that write.
pub fn a_read_of_its_one_candidate_leaves_calls_judged()
    ensures { (before after : List Call) (source later : ℕ → Option ℕ) (row place : ℕ)
        (value : List ℕ) (read write : Call) (known : Known) → AreJudged before source row
        → AnswersCall row place before after read → AnswersValue read value
        → AreZonesOf before (ReadsBy before source) row known
        → NoneForgotten before (ReadsBy before source) row known
        → IsOneCandidate before (ReadsBy before source) row known read.invoked value write
        → HasEntry source later read write → AreJudged after later place }
{}

/// Where no call of its write's family had ended, such a read's answer is the first end of the zone.
pub fn a_read_that_ends_first_has_a_zone()
    ensures { (before after : List Call) (source later : ℕ → Option ℕ) (row place : ℕ)
        (value : List ℕ) (read write : Call) (known new : Known) → AreJudged before source row
        → AnswersCall row place before after read → AnswersValue read value
        → AreZonesOf before (ReadsBy before source) row known
        → NoneForgotten before (ReadsBy before source) row known
        → IsOneCandidate before (ReadsBy before source) row known read.invoked value write
        → HasEntry source later read write
        → IsFirstEnd before (ReadsBy before source) row write None
        → HasZone known.zones place (max write.invoked read.invoked) new.zones
        → new.floor ≡ known.floor → AreZonesOf after (ReadsBy after later) place new }
{}

/// Where one had, the zone's last begin is the later one of its own and the read's.
pub fn a_later_read_raises_the_zone()
    ensures { (before after : List Call) (source later : ℕ → Option ℕ) (row place end last : ℕ)
        (value : List ℕ) (read write : Call) (known new : Known) → AreJudged before source row
        → AnswersCall row place before after read → AnswersValue read value
        → AreZonesOf before (ReadsBy before source) row known
        → NoneForgotten before (ReadsBy before source) row known
        → IsOneCandidate before (ReadsBy before source) row known read.invoked value write
        → HasEntry source later read write
        → HasZoneOf before (ReadsBy before source) row write end last
        → HasZone known.zones end (max last read.invoked) new.zones
        → new.floor ≡ known.floor → AreZonesOf after (ReadsBy after later) place new }
{}

/// Where a read that answers a value has no candidate, no list is an order.
pub fn a_read_without_a_candidate_refutes()
    ensures { (before after : List Call) (source : ℕ → Option ℕ) (row place : ℕ)
        (value : List ℕ) (read : Call) (known : Known) → AreJudged before source row
        → AnswersCall row place before after read → AnswersValue read value
        → AreZonesOf before (ReadsBy before source) row known
        → HasNoCandidate before (ReadsBy before source) row known read.invoked value
        → IsLinearizable after → ⊥ }
{}

/// A call that begins shows nothing, and is late for nothing.
pub fn a_call_that_begins_shows_nothing()
    ensures { (before after : List Call) (row place : ℕ) (call : Call) (first : Option ℕ)
        → IsLastRow before row → BeginsCall row place before after call → IsFirstShow before first
        → HasNoPair before IsLateNothing
        → IsFirstShow after first × HasNoPair after IsLateNothing }
{}

/// A write's answer, or a read's of a value, shows one, if none was shown before it is the first; it is late for
/// nothing.
pub fn an_answer_shows_its_value()
    ensures { (before after : List Call) (row place : ℕ) (call : Call) (first : Option ℕ)
        → IsLastRow before row → AnswersCall row place before after call → ShowsValue call
        → IsFirstShow before first → HasNoPair before IsLateNothing
        → IsFirstShow after (first_show first place) × HasNoPair after IsLateNothing }
{}

/// A read of nothing that began before the first show ended isn't late, and shows nothing.
pub fn a_read_of_nothing_in_time_is_not_late()
    ensures { (before after : List Call) (row place : ℕ) (read : Call) (first : Option ℕ)
        → IsLastRow before row → AnswersCall row place before after read → AnswersNothing read
        → IsFirstShow before first → IsInTime first read.invoked
        → HasNoPair before IsLateNothing
        → IsFirstShow after first × HasNoPair after IsLateNothing }
{}

/// Where a read of nothing began after the first show, no list is an order.
pub fn a_read_of_nothing_after_the_first_show_refutes()
    ensures { (before after : List Call) (row place first : ℕ) (read : Call)
        → IsLastRow before row → AnswersCall row place before after read → AnswersNothing read
        → IsFirstShow before (Some first) → first < read.invoked → IsLinearizable after → ⊥ }
{}
