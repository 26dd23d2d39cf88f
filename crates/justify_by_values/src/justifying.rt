//! What `abd justify --by values` makes of keys.
ghost use Rattle.justify_by_values.specs.OrdersByValues.{JustifiesKeys};

use crate::found_orders::FoundOrders;
use cli::Made;
use history_file::NumberedHistories;
use judged_keys::Presentation;
use parallel_keys::KeyToCheck;
use std::alloc::Global;

/// Which of the orders that are found of keys by their values are written.
#[derive(Clone, Copy, Debug)]
pub struct Justifying {
    /// Whether keys without an order are left out. If not, no order is written if a key has none.
    pub unchecked: bool,
}

/// The order file of the keys that have an order, the keys in their order; for standard error the line that
/// `abd decide` prints of each other key. If there is one, no order is written, unless orders go `unchecked`.
impl Presentation for Justifying {
    ghost Presents = { JustifiesKeys };

    fn present(
        &self,
        alloc: Global,
        _numbered: &NumberedHistories,
        keys: Vec<KeyToCheck<'_>>,
    ) -> Made<'static> {
        let gathered = FoundOrders::of_keys(alloc, keys.as_slice())?;
        Ok(gathered.outcome(alloc, self.unchecked)?)
    }
}
