//! Rows by hall.
ghost use Rattle.std.specs.Prelude.{◌≡◌, nat_lt};
ghost use Rattle.file_format.specs.Documents.{row_data};
ghost use Rattle.file_format.specs.HallRows.{only_row_in, placed_row_in, hall_row_in};
ghost use Rattle.counted_devices.specs.Answers.{Gives};
ghost use Rattle.file_format.specs.Members.{in_range};

use crate::LineFault;
use crate::fault::Stop;
use crate::file_header::FileHeader;
use crate::line_row::LineRow;
use crate::line_texts::LinePlace;
use crate::row_document::RowDocument;
use crate::rows::row_in;
use row_members::Name;

/// A row, and the number of the hall that it is of.
#[derive(Debug, Drop)]
pub struct HallRow {
    pub hall: u8,
    pub row: LineRow,
}

/// The number of one of so many halls.
fn hall_of(number: u64, halls: u8) -> Result<u8, Stop>
    ensures { Gives (λ hall. hall) result (in_range (nat_lt number halls) number) }
{
    if number < u64::from(halls) {
        Ok(number as u8)
    } else {
        Err(Stop::Fault(LineFault::Range))
    }
}

/// The row of version 1 that the value says.
#[tactic(auto, unfolding(crate::specs::HallRows::only_row_in))]
fn only_row_in(place: &LinePlace, document: &RowDocument<'_, '_>) -> Result<HallRow, Stop>
    ensures { Gives (λ item. item) result (only_row_in (row_data document.now)) }
{
    let row = row_in(place, document)?;
    Ok(HallRow { hall: 0, row })
}

/// The row of version 2 that the value says, and its hall.
#[tactic(auto, unfolding(crate::specs::HallRows::placed_row_in))]
fn placed_row_in(
    place: &LinePlace,
    halls: u8,
    document: &RowDocument<'_, '_>,
) -> Result<HallRow, Stop>
    ensures { Gives (λ item. item) result (placed_row_in halls (row_data document.now)) }
{
    let number = document.needed_number(Name::Hall)?;
    let row = row_in(place, document)?;
    let hall = hall_of(number, halls)?;
    Ok(HallRow { hall, row })
}

/// The row that the value says after that header, and its hall.
#[tactic(auto, unfolding(crate::specs::HallRows::hall_row_in))]
pub(crate) fn hall_row_in(
    place: &LinePlace,
    header: FileHeader,
    document: &RowDocument<'_, '_>,
) -> Result<HallRow, Stop>
    ensures { Gives (λ item. item) result (hall_row_in header (row_data document.now)) }
{
    match header {
        FileHeader::Version1 => only_row_in(place, document),
        FileHeader::Version2 { halls, .. } => placed_row_in(place, halls.count(), document),
    }
}
