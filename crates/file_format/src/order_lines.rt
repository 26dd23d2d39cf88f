//! Lines of order files.
ghost use Rattle.std.specs.Prelude.{◌≡◌, ◌^◌, nat_lt};
ghost use Rattle.std.specs.List.{list_all};
ghost use Rattle.file_format.specs.Documents.{data_in};
ghost use Rattle.counted_devices.specs.Answers.{Gives};
ghost use Rattle.file_format.specs.OrderLines.{calls_of, piece_in};

use crate::LineFault;
use crate::document::Document;
use crate::fault::Stop;
use crate::line_texts::LinePlace;
use crate::order_piece::OrderPiece;
use crate::ranges::key_of;
use recorder::Order;
use std::alloc::Global;
use tag::OpId;

/// Whether each number is in the range of a call's.
fn are_calls(numbers: &[u64]) -> bool
    ensures { result ≡ list_all (λ n. nat_lt n (2 ^ 32)) numbers.now }
{
    numbers.iter().all(|number| *number < 4_294_967_296)
}

fn calls_of(alloc: Global, numbers: &[u64]) -> Result<Order, Stop>
    ensures { Gives (λ order. order) result (calls_of numbers.now) }
{
    if !are_calls(numbers) {
        return Err(Stop::Fault(LineFault::Range));
    }
    let mut order = Order::empty(alloc);
    for number in numbers {
        order.push(OpId(*number as u32))?;
    }
    Ok(order)
}

/// The key and the piece of its order that the value says, whose line stands there.
#[tactic(auto, unfolding(crate::specs::OrderLines::piece_in))]
pub(crate) fn piece_in(
    alloc: Global,
    place: &LinePlace,
    document: &Document<'_>,
) -> Result<OrderPiece, Stop>
    ensures { Gives (λ piece. piece) result (piece_in (data_in document.now)) }
{
    let text = document.needed_text("key")?;
    let numbers = document.needed_numbers(alloc, "order")?;
    let key = key_of(text)?;
    let order = calls_of(alloc, numbers.as_slice())?;
    Ok(OrderPiece::new(place, key, order)?)
}
