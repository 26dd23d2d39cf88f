//! Files to writers.
ghost use Rattle.std.specs.Prelude.{◌≡◌, ◌++◌, OnOk, IfOk, IfErr, length};
ghost use Rattle.std.specs.List.{flat_map};
ghost use Rattle.counted_devices.specs.DeviceStates.{states};
ghost use Rattle.file_format.specs.HistoryFormat.{IsHistory};
ghost use Rattle.file_format.specs.OrderFormat.{AreFew};
ghost use Rattle.file_format.specs.Ranges.{IsRowInRange, IsWritten, IsOrderInRange, HaveDistinctKeys};
ghost use Rattle.file_format.specs.ReadAgain.{IsTextOf, IsTextOfHistories, IsTextOfOrders};
ghost use Rattle.file_format.specs.Texts.{row_text_with, piece_text, order_text, history_text};
ghost use Rattle.file_format.specs.Texts.{histories_text, orders_text};
ghost use Rattle.file_format.specs.Writings.{FailsWriting, Writes, WritesBut};

use crate::file_header::FileHeader;
use crate::texts::{MOST_IN_PIECE, append_file_header, append_header, append_piece, append_row};
use counted_devices::{CountedWrite, WriteFault, relieve, write_text};
use recorder::{Histories, History, KeyOrder, Row};
use std::alloc::Global;
use tag::{Key, Memory, OpId};

/// How many rows there are, of at most 1,000,000 calls, as every history's are.
fn lawful_rows(history: &History) -> usize
    ensures count { result ≡ length history.now.rows }
    ensures lawful { IsHistory history.now.rows }
{
    let _calls = history.calls();
    let _limit = history.limit();
    history.row_count()
}

/// The text of the history, made before any of it goes out: its header, then a line for each row.
/// It is read as the history's rows, and as no others. `Memory` comes only where an allocation was
/// refused.
pub fn history_text(alloc: Global, history: &History) -> Result<Vec<u8>, Memory>
    ensures text { IfOk result (λ text. text.items ≡ history_text history.now.rows) }
    ensures read { IfOk result (λ text. IsTextOf text.items history.now.rows) }
{
    let mut text = Vec::new(alloc);
    append_header(&mut text, "history")?;
    for place in 0..lawful_rows(history) {
        append_row(&mut text, None, &history.row(place))?;
    }
    Ok(text)
}

/// The row's line, with its hall where that is a member, comes after what waits, which goes out
/// once it is enough.
fn write_row<W: CountedWrite>(
    hall: Option<u8>,
    row: &Row<'_>,
    batch: &mut Vec<u8>,
    writer: &mut W,
) -> Result<(), WriteFault>
    ensures sent { OnOk result (WritesBut (states W.contents W.failures writer.old writer.new)
        (batch.old.items ++ row_text_with hall row.now) batch.new.items) }
    ensures broken { IfErr result (FailsWriting (states W.contents W.failures writer.old writer.new)
        (batch.old.items ++ row_text_with hall row.now)) }
    ensures range { OnOk result (IsRowInRange row.now) }
{
    append_row(batch, hall, row)?;
    relieve(batch, writer)
}

/// The lines of a hall's rows come after what waits, which goes out once it is enough.
fn write_hall<W: CountedWrite>(
    hall: Option<u8>,
    history: &History,
    batch: &mut Vec<u8>,
    writer: &mut W,
) -> Result<(), WriteFault>
    ensures sent { OnOk result (WritesBut (states W.contents W.failures writer.old writer.new)
        (batch.old.items ++ flat_map (row_text_with hall) history.now.rows) batch.new.items) }
    ensures broken { IfErr result (FailsWriting (states W.contents W.failures writer.old writer.new)
        (batch.old.items ++ flat_map (row_text_with hall) history.now.rows)) }
    ensures range { OnOk result (IsWritten history.now) }
{
    for place in 0..history.row_count() {
        write_row(hall, &history.row(place), batch, writer)?;
    }
    Ok(())
}

/// Writes the text of the history: its header, then a line for each row. It is read as the
/// history's rows, and as no others.
///
/// Where it answers `Ok`, the text went out and nothing else; after a fault a beginning of it did.
/// `Device` comes only where the writer failed, `Memory` only where an allocation was refused.
pub fn write_history<W: CountedWrite>(
    alloc: Global,
    history: &History,
    writer: &mut W,
) -> Result<(), WriteFault>
    ensures written { OnOk result (Writes (states W.contents W.failures writer.old writer.new)
        (history_text history.now.rows)) }
    ensures broken { IfErr result (FailsWriting (states W.contents W.failures writer.old writer.new)
        (history_text history.now.rows)) }
    ensures read { OnOk result (IsTextOf (history_text history.now.rows) history.now.rows) }
{
    let mut batch = Vec::new(alloc);
    append_header(&mut batch, "history")?;
    let _rows = lawful_rows(history);
    write_hall(None, history, &mut batch, writer)?;
    write_text(batch.as_slice(), writer)
}

/// Writes the text of the histories: its header, then a line for each row of hall 0, then for those
/// of hall 1, and so on. Where the quorums are known it is a file of version 2, and else one of
/// version 1. It is read as the histories' rows by hall and their quorums, and as nothing else.
///
/// What went out is said as by `write_history`.
pub fn write_histories<W: CountedWrite>(
    alloc: Global,
    histories: &Histories,
    writer: &mut W,
) -> Result<(), WriteFault>
    ensures written { OnOk result (Writes (states W.contents W.failures writer.old writer.new)
        (histories_text histories.now)) }
    ensures broken { IfErr result (FailsWriting (states W.contents W.failures writer.old writer.new)
        (histories_text histories.now)) }
    ensures read { OnOk result (IsTextOfHistories (histories_text histories.now) histories.now) }
{
    let header = FileHeader::of(histories);
    let mut batch = Vec::new(alloc);
    append_file_header(&mut batch, &header)?;
    let halls = histories.halls();
    for (hall, history) in halls.iter().enumerate() {
        write_hall(header.place(hall as u8), history, &mut batch, writer)?;
    }
    write_text(batch.as_slice(), writer)
}

/// The piece's line comes after what waits, which goes out once it is enough.
fn write_piece<W: CountedWrite>(
    key: &Key,
    calls: &[OpId],
    batch: &mut Vec<u8>,
    writer: &mut W,
) -> Result<(), WriteFault>
    ensures sent { OnOk result (WritesBut (states W.contents W.failures writer.old writer.new)
        (batch.old.items ++ piece_text (record { key = key.now; order = calls.now }))
        batch.new.items) }
    ensures broken { IfErr result (FailsWriting (states W.contents W.failures writer.old writer.new)
        (batch.old.items ++ piece_text (record { key = key.now; order = calls.now }))) }
    ensures range { OnOk result (IsOrderInRange (record { key = key.now; order = calls.now })) }
{
    append_piece(batch, key.as_str(), calls)?;
    relieve(batch, writer)
}

/// The lines of the order's pieces come after what waits, which goes out once it is enough.
fn write_order<W: CountedWrite>(
    order: &KeyOrder,
    batch: &mut Vec<u8>,
    writer: &mut W,
) -> Result<(), WriteFault>
    ensures sent { OnOk result (WritesBut (states W.contents W.failures writer.old writer.new)
        (batch.old.items ++ order_text order.now) batch.new.items) }
    ensures broken { IfErr result (FailsWriting (states W.contents W.failures writer.old writer.new)
        (batch.old.items ++ order_text order.now)) }
    ensures range { OnOk result (IsOrderInRange order.now) }
{
    let mut rest = order.order.as_slice();
    while rest.len() > MOST_IN_PIECE {
        write_piece(&order.key, &rest[..MOST_IN_PIECE], batch, writer)?;
        rest = &rest[MOST_IN_PIECE..];
    }
    write_piece(&order.key, rest, batch, writer)
}

/// Writes the text of the orders: its header, then for each order a line for each 1,000 calls and
/// one for those that are left over; an order without a call has one line. Orders of distinct keys,
/// with at most 1,000,000 calls, are read from it, and no others.
///
/// What went out is said as by `write_history`.
pub fn write_orders<W: CountedWrite>(
    alloc: Global,
    orders: &[KeyOrder],
    writer: &mut W,
) -> Result<(), WriteFault>
    ensures written { OnOk result (Writes (states W.contents W.failures writer.old writer.new)
        (orders_text orders.now)) }
    ensures broken { IfErr result (FailsWriting (states W.contents W.failures writer.old writer.new)
        (orders_text orders.now)) }
    ensures read { OnOk result (HaveDistinctKeys orders.now → AreFew orders.now
        → IsTextOfOrders (orders_text orders.now) orders.now) }
{
    let mut batch = Vec::new(alloc);
    append_header(&mut batch, "orders")?;
    for order in orders {
        write_order(order, &mut batch, writer)?;
    }
    write_text(batch.as_slice(), writer)
}
