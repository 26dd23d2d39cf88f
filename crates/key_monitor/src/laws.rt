//! Laws of a key's zones, each the contract of a function that does nothing.
ghost use Rattle.std.specs.Prelude.{◌≡◌, ◌≤◌, ℕ, List, Option, max};
ghost use Rattle.recorder.specs.declared.part.Call.{Call};
ghost use Rattle.recorder.specs.Parts.{IsSequence};
ghost use Rattle.value_order.specs.Tables.{ReadsBy};
ghost use Rattle.value_order.specs.Zones.{IsLastRow};
ghost use Rattle.kept_families.specs.Forgotten.{IsForgotten};
ghost use Rattle.kept_families.specs.Open.{IsFirstOpen};
ghost use Rattle.kept_families.specs.Oppositions.{IsFree};
ghost use Rattle.kept_families.specs.SoundTables.{AreReads, IsOverwrittenBy};
ghost use Rattle.kept_zones.specs.Overwriting.{IsOverwritten, IsSpent, Known, LacksZone, NoneSpent, Overwrites};
ghost use Rattle.key_monitor.specs.ZonesOf.{AreZonesOf, HasZoneOf, HaveOwnEnds, NoneForgotten};

/// A zone that overwrites another is that of a family which overwrites its family.
pub fn an_overwriter_overwrites()
    ensures { (part : List Call) (source : ℕ → Option ℕ) (row place end last w : ℕ) (known : Known)
        (u : Call) → AreZonesOf part (ReadsBy part source) row known
        → HasZoneOf part (ReadsBy part source) row u end last
        → (over : Overwrites known.zones place w end) → (x : Call)
        × HasZoneOf part (ReadsBy part source) row x w over.last
        × IsOverwrittenBy part (ReadsBy part source) row place x u }
{}

/// Where no zone overwrites that of a family which isn't forgotten, no family overwrites it, forgotten ones included.
pub fn zones_have_all_overwriters()
    ensures { (part : List Call) (source : ℕ → Option ℕ) (row place end last : ℕ) (known : Known)
        (u x : Call) → IsSequence part → AreReads part (ReadsBy part source)
        → IsLastRow part row → HaveOwnEnds part → IsFree part (ReadsBy part source) row
        → AreZonesOf part (ReadsBy part source) row known
        → HasZoneOf part (ReadsBy part source) row u end last
        → (IsForgotten part (ReadsBy part source) row u → ⊥)
        → (IsOverwritten known.zones place end → ⊥)
        → IsOverwrittenBy part (ReadsBy part source) row place x u → ⊥ }
{}

/// What isn't forgotten ended no earlier than the floor.
pub fn the_floor_is_low()
    ensures { (part : List Call) (source : ℕ → Option ℕ) (row end last : ℕ) (known : Known)
        (u : Call) → IsSequence part → AreReads part (ReadsBy part source)
        → IsFree part (ReadsBy part source) row → AreZonesOf part (ReadsBy part source) row known
        → HasZoneOf part (ReadsBy part source) row u end last
        → (IsForgotten part (ReadsBy part source) row u → ⊥) → known.floor ≤ end }
{}

/// The family of a spent zone is forgotten, if no two are opposed.
pub fn what_is_spent_is_forgotten()
    ensures { (part : List Call) (source : ℕ → Option ℕ) (row place end last : ℕ) (known : Known)
        (u : Call) → IsSequence part → AreReads part (ReadsBy part source)
        → IsFree part (ReadsBy part source) row → AreZonesOf part (ReadsBy part source) row known
        → IsFirstOpen part row place → HasZoneOf part (ReadsBy part source) row u end last
        → IsSpent known place end → IsForgotten part (ReadsBy part source) row u }
{}

/// Where no zone is spent, the families of the zones are exactly those that aren't forgotten.
pub fn where_none_is_spent_none_is_forgotten()
    ensures { (part : List Call) (source : ℕ → Option ℕ) (row place : ℕ) (known : Known)
        → IsSequence part → AreReads part (ReadsBy part source) → IsLastRow part row
        → HaveOwnEnds part → IsFree part (ReadsBy part source) row
        → AreZonesOf part (ReadsBy part source) row known → IsFirstOpen part row place
        → NoneSpent known place → NoneForgotten part (ReadsBy part source) row known }
{}

/// The zones stay those of the calls when a forgotten one goes.
pub fn a_forgotten_zone_may_go()
    ensures { (part : List Call) (source : ℕ → Option ℕ) (row end last : ℕ) (known new : Known)
        (u : Call) → IsSequence part → AreReads part (ReadsBy part source) → HaveOwnEnds part
        → IsFree part (ReadsBy part source) row → AreZonesOf part (ReadsBy part source) row known
        → HasZoneOf part (ReadsBy part source) row u end last
        → IsForgotten part (ReadsBy part source) row u → LacksZone known.zones end new.zones
        → new.floor ≡ max known.floor last → AreZonesOf part (ReadsBy part source) row new }
{}
