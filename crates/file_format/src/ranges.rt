//! Numbers and texts in their ranges.
ghost use Rattle.std.specs.Prelude.{◌≡◌, true, IfOk};
ghost use Rattle.tag.specs.Names.{is_key, is_value};
ghost use Rattle.counted_devices.specs.Answers.{Gives};
ghost use Rattle.file_format.specs.Members.{op_of, client_of, key_of, value_of, tag_of};

use crate::LineFault;
use crate::fault::Stop;
use crate::line_texts::LineText;
use tag::{ClientId, OpId, Tag, is_key};

pub(crate) fn op_of(call: u64) -> Result<OpId, Stop>
    ensures { Gives (λ op. op) result (op_of call) }
{
    if call < 4_294_967_296 {
        Ok(OpId(call as u32))
    } else {
        Err(Stop::Fault(LineFault::Range))
    }
}

pub(crate) fn client_of(client: u64) -> Result<ClientId, Stop>
    ensures { Gives (λ client. client) result (client_of client) }
{
    if client > 65535 {
        return Err(Stop::Fault(LineFault::Range));
    }
    match ClientId::new(client as u32) {
        Ok(client) => Ok(client),
        Err(_) => Err(Stop::Fault(LineFault::Range)),
    }
}

pub(crate) fn key_of(text: LineText<'_>) -> Result<LineText<'_>, Stop>
    ensures given { Gives (λ key. key.text.now) result (key_of text.entry.text.now) }
    ensures lawful { IfOk result (λ key. is_key key.text.now ≡ true) }
{
    if is_key(text.text.as_bytes()) {
        Ok(text)
    } else {
        Err(Stop::Fault(LineFault::Range))
    }
}

pub(crate) fn value_of(text: LineText<'_>) -> Result<LineText<'_>, Stop>
    ensures given { Gives (λ value. value.text.now) result (value_of text.entry.text.now) }
    ensures lawful { IfOk result (λ value. is_value value.text.now ≡ true) }
{
    if text.text.len() <= 256 {
        Ok(text)
    } else {
        Err(Stop::Fault(LineFault::Range))
    }
}

pub(crate) fn tag_of(number: u64, writer: u64) -> Result<Tag, Stop>
    ensures { Gives (λ tag. tag) result (tag_of number writer) }
{
    if number > 1_000_000 || writer > 65535 {
        return Err(Stop::Fault(LineFault::Range));
    }
    match Tag::new(number as u32, writer as u32) {
        Some(tag) => Ok(tag),
        None => Err(Stop::Fault(LineFault::Range)),
    }
}
