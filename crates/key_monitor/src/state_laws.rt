//! Laws of what is known of a key, each the contract of a function that does nothing.
//!
//! What is known follows the calls of the key by a row (`Follows`). These laws say how it has to change so that it
//! follows them by the next row, and what shows that they have no order any more. They are of each part, table and row.
ghost use Rattle.std.specs.Prelude.{◌≡◌, ◌⊎◌, ℕ, Contains, List, Option, Some, None, max};
ghost use Rattle.tag.specs.declared.actions.Action.TheVariants.{Write};
ghost use Rattle.recorder.specs.declared.part.Call.{Call};
ghost use Rattle.recorder.specs.Orders.{IsLinearizable};
ghost use Rattle.recorder.specs.Sound.{IsRead, IsWrite};
ghost use Rattle.value_order.specs.Tables.{ReadsBy};
ghost use Rattle.value_order.specs.Writers.{AnswersNothing, AnswersValue};
ghost use Rattle.kept_families.specs.Continued.{AreOpenIn, Extends};
ghost use Rattle.kept_families.specs.SoundTables.{AreAllRead};
ghost use Rattle.kept_zones.specs.Overwriting.{HasZone, Known, LacksZone, last_of};
ghost use Rattle.key_monitor.specs.Follows.{Follows, FollowsByEntry, FollowsKept, KeyState};
ghost use Rattle.key_monitor.specs.Forgetting.{IsGone};
ghost use Rattle.key_monitor.specs.Judged.{AnswersCall, AreJudged, BeginsCall, LeavesOut};
ghost use Rattle.key_monitor.specs.KeptWrites.{HasKept, HasNoneFresh, IsOneFresh, KeptWrite, LacksKept};
ghost use Rattle.key_monitor.specs.Pending.{HasOpen, LacksOpen};
ghost use Rattle.key_monitor.specs.Shown.{IsInTime, first_show};
ghost use Rattle.key_monitor.specs.ZonesOf.{AreZonesOf};

/// Calls that are followed have an order, if each completed read answers nothing or is in the table.
pub fn followed_calls_are_linearizable()
    ensures { (part : List Call) (source : ℕ → Option ℕ) (row : ℕ) (state : KeyState)
        → Follows part source row state → AreAllRead part (ReadsBy part source)
        → IsLinearizable part }
{}

/// A read that begins is one more open read.
pub fn follows_a_read_that_begins()
    ensures { (before after : List Call) (source : ℕ → Option ℕ) (row place op : ℕ) (call : Call)
        (state : KeyState) (opens : ℕ → Option ℕ) → FollowsKept before source row state
        → BeginsCall row place before after call → AreOpenIn row before after → IsRead call
        → HasOpen state.opens place op opens → FollowsKept after source place (record {
          known = state.known;
          writes = state.writes;
          opens = opens;
          first = state.first;
        }) }
{}

/// A write that begins is one more kept write, without an end.
pub fn follows_a_write_that_begins()
    ensures { (before after : List Call) (source : ℕ → Option ℕ) (row place : ℕ) (call : Call)
        (value : List ℕ) (state : KeyState) (writes : ℕ → Option KeptWrite)
        → FollowsKept before source row state → BeginsCall row place before after call
        → AreOpenIn row before after → call.action ≡ Write value
        → HasKept state.writes call.op.0
        (record { value = value; begin = place; end = None }) writes
        → FollowsKept after source place (record {
          known = state.known;
          writes = writes;
          opens = state.opens;
          first = state.first;
        }) }
{}

/// A read that is given up is open no more.
pub fn follows_a_read_that_is_given_up()
    ensures { (before after : List Call) (source : ℕ → Option ℕ) (row : ℕ) (read : Call)
        (state : KeyState) (opens : ℕ → Option ℕ) → Follows before source row state
        → LeavesOut row before after read → LacksOpen state.opens read.invoked opens
        → Follows after source row (record {
          known = state.known;
          writes = state.writes;
          opens = opens;
          first = state.first;
        }) }
{}

/// Where no call of a kept write's family has ended, its answer is the first end.
pub fn follows_the_first_end_of_a_write()
    ensures { (before after : List Call) (source : ℕ → Option ℕ) (row place : ℕ) (call w : Call)
        (state : KeyState) (kept : KeptWrite) (known : Known) (writes : ℕ → Option KeptWrite)
        → Follows before source row state → AnswersCall row place before after call
        → AreOpenIn row before after → IsWrite call → Contains before w → w.op ≡ call.op
        → IsWrite w → state.writes w.op.0 ≡ Some kept → kept.end ≡ None
        → HasZone state.known.zones place kept.begin known.zones
        → known.floor ≡ state.known.floor → HasKept state.writes w.op.0
        (record { value = kept.value; begin = kept.begin; end = Some place }) writes
        → Follows after source place (record {
          known = known;
          writes = writes;
          opens = state.opens;
          first = first_show state.first place;
        }) }
{}

/// Where one has, its answer is no news of its family.
pub fn follows_a_write_of_an_ended_family()
    ensures { (before after : List Call) (source : ℕ → Option ℕ) (row place end : ℕ)
        (call w : Call) (state : KeyState) (kept : KeptWrite) → Follows before source row state
        → AnswersCall row place before after call → AreOpenIn row before after → IsWrite call
        → Contains before w → w.op ≡ call.op → IsWrite w
        → state.writes w.op.0 ≡ Some kept → kept.end ≡ Some end
        → Follows after source place (record {
          known = state.known;
          writes = state.writes;
          opens = state.opens;
          first = first_show state.first place;
        }) }
{}

/// Neither is that of a forgotten write.
pub fn follows_a_forgotten_write()
    ensures { (before after : List Call) (source : ℕ → Option ℕ) (row place : ℕ) (call w : Call)
        (state : KeyState) → Follows before source row state
        → AnswersCall row place before after call → AreOpenIn row before after → IsWrite call
        → Contains before w → w.op ≡ call.op → IsWrite w → state.writes w.op.0 ≡ None
        → Follows after source place (record {
          known = state.known;
          writes = state.writes;
          opens = state.opens;
          first = first_show state.first place;
        }) }
{}

/// A read of nothing that began before the first show is open no more.
pub fn follows_a_read_of_nothing()
    ensures { (before after : List Call) (source : ℕ → Option ℕ) (row place : ℕ) (read : Call)
        (state : KeyState) (opens : ℕ → Option ℕ) → FollowsKept before source row state
        → AnswersCall row place before after read → AreOpenIn row before after
        → LacksOpen state.opens read.invoked opens → AnswersNothing read
        → IsInTime state.first read.invoked → Follows after source place (record {
          known = state.known;
          writes = state.writes;
          opens = opens;
          first = state.first;
        }) }
{}

/// A read of a value may be left out of the table, as one that may have read several writes.
pub fn follows_an_undecided_read()
    ensures { (before after : List Call) (source : ℕ → Option ℕ) (row place : ℕ) (read : Call)
        (value : List ℕ) (state : KeyState) (opens : ℕ → Option ℕ)
        → FollowsKept before source row state → AnswersCall row place before after read
        → AreOpenIn row before after → LacksOpen state.opens read.invoked opens
        → AnswersValue read value → Follows after source place (record {
          known = state.known;
          writes = state.writes;
          opens = opens;
          first = first_show state.first place;
        }) }
{}

/// Where one kept write of the value is fresh and no call of its family has ended, the read's answer is the first end.
pub fn follows_the_first_read_of_its_write()
    ensures { (before after : List Call) (source : ℕ → Option ℕ) (row place op : ℕ) (read : Call)
        (state : KeyState) (opens : ℕ → Option ℕ) (kept : KeptWrite) (known : Known)
        (writes : ℕ → Option KeptWrite) → FollowsKept before source row state
        → AnswersCall row place before after read → AreOpenIn row before after
        → LacksOpen state.opens read.invoked opens → AnswersValue read kept.value
        → IsOneFresh state.known state.writes read.invoked op kept → kept.end ≡ None
        → HasZone state.known.zones place (max kept.begin read.invoked) known.zones
        → known.floor ≡ state.known.floor → HasKept state.writes op
        (record { value = kept.value; begin = kept.begin; end = Some place }) writes
        → FollowsByEntry after source row place read op (record {
          known = known;
          writes = writes;
          opens = opens;
          first = first_show state.first place;
        }) }
{}

/// Where one has, the zone's last begin is the later one of its own and the read's.
pub fn follows_a_later_read_of_its_write()
    ensures { (before after : List Call) (source : ℕ → Option ℕ) (row place op end last : ℕ)
        (read : Call) (state : KeyState) (opens : ℕ → Option ℕ) (kept : KeptWrite)
        (known : Known) → FollowsKept before source row state
        → AnswersCall row place before after read → AreOpenIn row before after
        → LacksOpen state.opens read.invoked opens → AnswersValue read kept.value
        → IsOneFresh state.known state.writes read.invoked op kept → kept.end ≡ Some end
        → last_of state.known.zones end ≡ Some last
        → HasZone state.known.zones end (max last read.invoked) known.zones
        → known.floor ≡ state.known.floor
        → FollowsByEntry after source row place read op (record {
          known = known;
          writes = state.writes;
          opens = opens;
          first = first_show state.first place;
        }) }
{}

/// Where no kept write of the value is fresh, no list is an order.
pub fn a_read_of_no_fresh_write_refutes()
    ensures { (before after : List Call) (source : ℕ → Option ℕ) (row place : ℕ) (read : Call)
        (value : List ℕ) (state : KeyState) → FollowsKept before source row state
        → AnswersCall row place before after read → AnswersValue read value
        → HasNoneFresh state.known state.writes read.invoked value → IsLinearizable after → ⊥ }
{}

/// With the zone of a forgotten family its write goes.
pub fn follows_when_a_forgotten_family_goes()
    ensures { (part : List Call) (source : ℕ → Option ℕ) (row op end : ℕ) (state : KeyState)
        (kept : KeptWrite) (known : Known) (writes : ℕ → Option KeptWrite)
        → Follows part source row state → state.writes op ≡ Some kept → kept.end ≡ Some end
        → LacksZone state.known.zones end known.zones → IsGone part source row end
        → AreZonesOf part (ReadsBy part source) row known → LacksKept state.writes op writes
        → Follows part source row (record {
          known = known;
          writes = writes;
          opens = state.opens;
          first = state.first;
        }) }
{}

/// A call that begins leaves each completed read answering nothing or in the table.
pub fn a_call_that_begins_leaves_all_read()
    ensures { (before after : List Call) (source : ℕ → Option ℕ) (row place : ℕ) (call : Call)
        → AreJudged before source row → BeginsCall row place before after call
        → AreAllRead before (ReadsBy before source) → AreAllRead after (ReadsBy after source) }
{}

/// So does an answer, unless it is that of a read of a value which the table says nothing of.
pub fn an_answer_leaves_all_read()
    ensures { (before after : List Call) (source later : ℕ → Option ℕ) (row place : ℕ) (call : Call)
        → AreJudged before source row → AnswersCall row place before after call
        → Extends row after source later → AreAllRead before (ReadsBy before source)
        → (IsRead call → AnswersNothing call ⊎ ((write : Call) × ReadsBy after later write call))
        → AreAllRead after (ReadsBy after later) }
{}
