//! The header of a file.
ghost use Rattle.std.specs.Prelude.{◌≡◌};
ghost use Rattle.file_format.specs.Documents.{data_in};
ghost use Rattle.counted_devices.specs.Answers.{Gives};
ghost use Rattle.file_format.specs.Headers.{header_in, header_of};

use crate::LineFault;
use crate::document::Document;
use crate::fault::Stop;

/// Whether the value is the header of a file of that name, and of version 1.
#[tactic(auto, unfolding(crate::specs::Headers::header_in, crate::specs::Headers::header_of))]
pub(crate) fn header_in(name: &str, document: &Document<'_>) -> Result<(), Stop>
    ensures { Gives (λ nothing. tt) result (header_in name.now (data_in document.now)) }
{
    match document.text("abd") {
        Some(abd) if abd.text == name => {}
        _ => return Err(Stop::Fault(LineFault::NoHeader)),
    }
    match document.number("version") {
        Some(1) => Ok(()),
        _ => Err(Stop::Fault(LineFault::Version)),
    }
}
