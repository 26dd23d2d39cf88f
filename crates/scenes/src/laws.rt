//! Laws of scenes, each the contract of a function that does nothing.
ghost use Rattle.std.specs.Prelude.{ℕ, ◌≡◌, ◌+◌, List, Some, Contains, length, map, slice_get};
ghost use Rattle.std.specs.List.{sum_by};
ghost use Rattle.std.specs.List.Sorted.{IsNonDecreasing};
ghost use Rattle.tag.specs.declared.numbers.OpId.{OpId};
ghost use Rattle.recorder.specs.Histories.{IsWellFormed};
ghost use Rattle.recorder.specs.Parts.{IsSequence};
ghost use Rattle.recorder.specs.declared.row.Row.{Row};
ghost use Rattle.recorder.specs.declared.part.Call.{Call};
ghost use Rattle.scenes.specs.declared.scene.Bar.{Bar};
ghost use Rattle.scenes.specs.declared.scene.Dot.{Dot};
ghost use Rattle.scenes.specs.declared.scene.Scene.{Scene};
ghost use Rattle.scenes.specs.Columns.{ShareColumn, StandApart};
ghost use Rattle.scenes.specs.Scenes.{AreRecorded, IsSceneOf, IsPlaceIn, IsSelection};
ghost use Rattle.linearization_points.specs.Points.{ArePoints};

/// In the scene of an order with its linearization points, the dot of a bar lies within the bar.
pub fn a_point_lies_within_its_bar()
    ensures { (rows : List Row) (part : List Call) (shown : List ℕ) (order : List OpId)
        (points : List ℕ) (scene : Scene) (dot : Dot) (bar : Bar) → ArePoints part order points
        → IsSceneOf part shown rows order points scene → Contains scene.dots.items dot
        → slice_get scene.bars.items dot.bar ≡ Some bar → IsPlaceIn bar dot.place }
{}

/// In the scene of an order with its linearization points, the dots' places don't fall.
pub fn the_dots_of_a_scene_do_not_fall()
    ensures { (rows : List Row) (part : List Call) (shown : List ℕ) (order : List OpId)
        (points : List ℕ) (scene : Scene) → ArePoints part order points
        → IsSceneOf part shown rows order points scene
        → IsNonDecreasing (map (λ dot. dot.place) scene.dots.items) }
{}

/// No two bars of one column are at one place, in the scene of calls that a history records.
pub fn bars_of_a_column_stand_apart()
    ensures { (rows : List Row) (part : List Call) (shown : List ℕ) (order : List OpId)
        (points : List ℕ) (scene : Scene) (bar other : Bar) → IsWellFormed rows
        → AreRecorded rows part → IsSequence part → IsSelection part shown
        → IsSceneOf part shown rows order points scene → Contains scene.bars.items bar
        → Contains scene.bars.items other → (bar.call ≡ other.call → ⊥)
        → ShareColumn scene.lane_columns.items bar other → StandApart bar other }
{}

/// The calls that a scene shows and those that its gaps say are left out are all calls of its part.
pub fn shown_calls_and_gaps_are_all()
    ensures { (rows : List Row) (part : List Call) (shown : List ℕ) (order : List OpId)
        (points : List ℕ) (scene : Scene) → IsSelection part shown
        → IsSceneOf part shown rows order points scene
        → length shown + sum_by (λ gap. gap.calls) scene.gaps.items ≡ length part }
{}
