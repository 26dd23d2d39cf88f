//! Equality of histories: the same rows and the same limit.
ghost use Rattle.std.specs.Prelude.{◌≡◌, ◌==◌};
ghost use Rattle.std.specs.Cmp.{and_per, nat_eq_equiv, on_per, partial_equiv_from_equiv};
ghost use Rattle.std.specs.Cmp.Lexicographic.{lists_per, pointwise};
ghost use Rattle.std.specs.Ordering.{eq_of_both, on};
ghost use Rattle.recorder.specs.contracts.row.RowPartialEq.TheImpl.Laws as row;

use super::History;
use crate::row::Row;
use crate::row_table::RowTable;

impl PartialEq for History {
    ghost eq = { eq_of_both (on (λ h. h.limit) ◌==◌) (on (λ h. h.rows) (pointwise ⟦<Row<'static> as PartialEq>⟧.eq)) };

    ghost laws = { and_per (on_per (λ h. h.limit) (partial_equiv_from_equiv nat_eq_equiv)) (on_per
        (λ h. h.rows) (lists_per row.laws-law)) };

    fn eq(&self, other: &History) -> bool {
        self.limit == other.limit && are_same(&self.record.rows, &other.record.rows)
    }
}

/// Whether both tables have the same rows.
fn are_same(rows: &RowTable, others: &RowTable) -> bool
    ensures { result ≡ pointwise ⟦<Row<'static> as PartialEq>⟧.eq rows.now.rows others.now.rows }
{
    if rows.len() != others.len() {
        return false;
    }
    for place in 0..rows.len() {
        if rows.row(place) != others.row(place) {
            return false;
        }
    }
    true
}
