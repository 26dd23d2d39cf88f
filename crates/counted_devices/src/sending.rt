//! Texts on their way to a writer.
ghost use Rattle.std.specs.Prelude.{◌≡◌, ◌<◌, [], true, length, OnOk, OnErr, IfErr};
ghost use Rattle.counted_devices.specs.Sendings.{FailsBy, FailsByDevice, Sends, SendsBut, SendsStart};
ghost use Rattle.counted_devices.specs.Sendings.{batch_limit, pieces_text};

use crate::{CountedWrite, WriteFault};

/// How many bytes wait before they go out together.
const BATCH: usize = 262_144;

/// Writes all of the bytes. A writer that takes none of them has failed, as one that answers an
/// error.
fn write_all<W: CountedWrite>(writer: &mut W, bytes: &[u8]) -> Result<(), WriteFault>
    ensures sent { OnOk result (Sends W.contents writer.old writer.new bytes.now) }
    ensures begun { OnErr result (SendsStart W.contents writer.old writer.new bytes.now) }
    ensures device { IfErr result (FailsByDevice W.failures writer.old writer.new) }
    ensures counted { OnOk result (W.failures writer.new ≡ W.failures writer.old) }
{
    let mut rest = bytes;
    while !rest.is_empty() {
        match writer.write_counted(rest) {
            Ok(count) if count > 0 => rest = &rest[count..],
            _ => return Err(WriteFault::Device),
        }
    }
    Ok(())
}

/// Writes what waits, once it is enough: fewer bytes than that wait afterwards.
pub fn relieve<W: CountedWrite>(batch: &mut Vec<u8>, writer: &mut W) -> Result<(), WriteFault>
    ensures sent { OnOk result
        (SendsBut W.contents writer.old writer.new batch.old.items batch.new.items) }
    ensures few { OnOk result (length batch.new.items < batch_limit) }
    ensures begun { OnErr result (SendsStart W.contents writer.old writer.new batch.old.items) }
    ensures device { IfErr result (FailsBy W.failures writer.old writer.new) }
    ensures counted { OnOk result (W.failures writer.new ≡ W.failures writer.old) }
{
    if batch.len() < BATCH {
        return Ok(());
    }
    write_all(writer, batch.as_slice())?;
    batch.clear();
    Ok(())
}

/// Writes the text, all of it, and flushes the writer: a writer whose flush fails has failed, though it
/// took all of the text.
///
/// What went out is the text or, after a fault, a beginning of it. `Memory` doesn't come.
pub fn write_text<W: CountedWrite>(text: &[u8], writer: &mut W) -> Result<(), WriteFault>
    ensures written { OnOk result (Sends W.contents writer.old writer.new text.now) }
    ensures passed_on { OnOk result (W.is_flushed writer.new ≡ true) }
    ensures begun { OnErr result (SendsStart W.contents writer.old writer.new text.now) }
    ensures device { IfErr result (FailsByDevice W.failures writer.old writer.new) }
    ensures counted { OnOk result (W.failures writer.new ≡ W.failures writer.old) }
{
    write_all(writer, text)?;
    match writer.flush_counted() {
        Ok(()) => Ok(()),
        Err(_) => Err(WriteFault::Device),
    }
}

/// Writes a text that is given in pieces, one after another, all of it, and flushes the writer: a writer
/// whose flush fails has failed, though it took all of the text. It takes no memory.
///
/// What went out is the text or, after a fault, a beginning of it. `Memory` doesn't come.
pub fn write_pieces<W: CountedWrite>(pieces: &[&str], writer: &mut W) -> Result<(), WriteFault>
    ensures written { OnOk result (Sends W.contents writer.old writer.new (pieces_text pieces.now)) }
    ensures passed_on { OnOk result (W.is_flushed writer.new ≡ true) }
    ensures begun { OnErr result (SendsStart W.contents writer.old writer.new (pieces_text pieces.now)) }
    ensures device { IfErr result (FailsByDevice W.failures writer.old writer.new) }
    ensures counted { OnOk result (W.failures writer.new ≡ W.failures writer.old) }
{
    for piece in pieces {
        write_all(writer, piece.as_bytes())?;
    }
    if writer.flush_counted().is_err() {
        return Err(WriteFault::Device);
    }
    Ok(())
}
