//! The format of order files.
ghost use Rattle.std.specs.Prelude.{◌≡◌, ◌≤◌, [], refl};
ghost use Rattle.file_format.specs.OrderFormat.{order_format, MakesJoined};
ghost use Rattle.file_format.specs.Readings.{Reads};
ghost use Rattle.history_file.specs.Openings.{orders_open};

use crate::body::Body;
use file_format::{JoinedOrders, LineFault, MOST_CALLS, OrderPiece, Stop, join, judge_header};
use recorder::KeyOrder;
use std::alloc::Global;
use std::marker::Model;

/// The orders that the pieces so far make, and how many calls they have together.
#[derive(Drop)]
pub struct Orders {
    pub orders: JoinedOrders,
    pub calls: usize,
}

impl Model for Orders {
    ghost use Rattle.std.specs.Prelude.{◌≤◌};
    ghost use Rattle.history_file.specs.KeyedOrders.{KeyedOrders};

    ghost Value = { KeyedOrders };

    ghost view = { λ all. record { orders = all.orders; calls = all.calls } };

    ghost invariant = { λ all. all.calls ≤ 1000000 };
}

impl Orders {
    /// No order yet.
    fn new(alloc: Global) -> Orders
        ensures { result ≡ record { orders = []; calls = 0 } }
    {
        Orders {
            orders: JoinedOrders::new(alloc),
            calls: 0,
        }
    }

    /// The orders, in the order of their keys.
    fn into_list(self) -> Vec<KeyOrder>
        ensures { result.items ≡ self.orders }
    {
        self.orders.into_list()
    }
}

impl Body for Orders {
    ghost use Rattle.history_file.specs.Making.{MakesOrders};

    type Header = ();

    type Item = OrderPiece;

    type Whole = Vec<KeyOrder>;

    ghost format = { order_format };

    ghost Makes = { MakesOrders };

    ghost told = { λ orders. tt };

    ghost ReadsWhole = { λ bytes orders. Reads order_format MakesJoined bytes orders.items };

    fn begin(alloc: Global, line: &[u8]) -> Result<Orders, Stop> {
        judge_header(alloc, "orders", line)?;
        Ok(Orders::new(alloc))
    }

    fn header(&self) {}

    fn follow(&mut self, _line: u64, piece: OrderPiece) -> Result<(), Stop> {
        let count = piece.calls().len();
        if count > MOST_CALLS as usize - self.calls {
            return Err(Stop::Fault(LineFault::TooManyCalls));
        }
        join(&mut self.orders, piece)?;
        self.calls += count;
        Ok(())
    }

    fn whole(self) -> Vec<KeyOrder> {
        self.into_list()
    }

    ghost says = { λ header. refl };

    ghost opens = { orders_open };

    ghost tells = { λ header pieces orders made. refl };
}
