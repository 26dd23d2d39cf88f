//! Laws of linearization points, each the contract of a function that does nothing.
ghost use Rattle.std.specs.Prelude.{ℕ, ◌↔◌, List};
ghost use Rattle.tag.specs.declared.numbers.OpId.{OpId};
ghost use Rattle.recorder.specs.declared.row.Row.{Row};
ghost use Rattle.recorder.specs.declared.part.Call.{Call};
ghost use Rattle.recorder.specs.Parts.{IsSequence};
ghost use Rattle.recorder.specs.Records.{IsPart};
ghost use Rattle.linearization_points.specs.Points.{AreApart, AreCalls, ArePoints, KeepsPrecedence};

/// No call of a list is preceded by one that stands later exactly where the list has linearization
/// points.
pub fn precedence_is_kept_where_there_are_points()
    ensures { (part : List Call) (order : List OpId) → IsSequence part → AreApart part
        → AreCalls part order
        → KeepsPrecedence part order ↔ ((points : List ℕ) × ArePoints part order points) }
{}

/// In a part of a history no call begins at the place of another's response.
pub fn a_part_is_apart()
    ensures { (rows : List Row) (key : List ℕ) (part : List Call) → IsPart rows key part
        → AreApart part }
{}
