//! What a line after the header says.
ghost use Rattle.std.specs.Prelude.{◌≤◌, Result, length};
ghost use Rattle.serde_json.specs.Data.{Data};
ghost use Rattle.counted_devices.specs.Cuts.{longest_line};
ghost use Rattle.file_format.specs.Rows.{row_in};
ghost use Rattle.file_format.specs.HallRows.{hall_row_in};
ghost use Rattle.file_format.specs.OrderLines.{piece_in};
ghost use Rattle.file_format.specs.Lines.{LineShowsBy};
ghost use Rattle.file_format.specs.declared.fault.LineFault.{LineFault};

use crate::compact_lines::{written_hall_row, written_piece, written_row};
use crate::document::Document;
use crate::fault::Stop;
use crate::file_header::FileHeader;
use crate::hall_row::{HallRow, hall_row_in};
use crate::line_row::LineRow;
use crate::line_tools::LineTools;
use crate::order_lines::piece_in;
use crate::order_piece::OrderPiece;
use crate::row_document::RowDocument;
use crate::rows::row_in;
use row_members::{NAMES, RowMembers};
use std::alloc::Global;

/// What a line after the header says.
pub trait LineItem: Drop + Sized {
    /// What the first line says of the others.
    type Header: Copy;

    ghost meaning: { Self.Header → Data → Result Self LineFault };

    /// What the line, without its end, shows after that header.
    fn read(
        alloc: Global,
        header: Self::Header,
        tools: &mut LineTools,
        line: &[u8],
    ) -> Result<Self, Stop>
        requires { length line.now ≤ longest_line }
        ensures { LineShowsBy (meaning header) line.now result };
}

// What a line shows that may be written otherwise than here. These two stand apart, so that the lines which are
// taken as written don't pay for the room that these need.

#[inline(never)]
fn read_row(alloc: Global, tools: &mut LineTools, line: &[u8]) -> Result<LineRow, Stop>
    requires { length line.now ≤ longest_line }
    ensures { LineShowsBy row_in line.now result }
{
    let mut room = [None; NAMES];
    if let Some(members) = RowMembers::read(line, &mut room) {
        return row_in(&tools.place, &RowDocument::Members(&members));
    }
    let document = Document::read(alloc, line, &mut tools.scratch)?;
    row_in(&tools.place, &RowDocument::Value(&document))
}

#[inline(never)]
fn read_hall_row(
    alloc: Global,
    header: FileHeader,
    tools: &mut LineTools,
    line: &[u8],
) -> Result<HallRow, Stop>
    requires { length line.now ≤ longest_line }
    ensures { LineShowsBy (hall_row_in header) line.now result }
{
    let mut room = [None; NAMES];
    if let Some(members) = RowMembers::read(line, &mut room) {
        return hall_row_in(&tools.place, header, &RowDocument::Members(&members));
    }
    let document = Document::read(alloc, line, &mut tools.scratch)?;
    hall_row_in(&tools.place, header, &RowDocument::Value(&document))
}

impl LineItem for LineRow {
    type Header = ();

    ghost meaning = { λ header. row_in };

    #[inline(always)]
    fn read(
        alloc: Global,
        _header: (),
        tools: &mut LineTools,
        line: &[u8],
    ) -> Result<LineRow, Stop> {
        if let Some(row) = written_row(&tools.place, line)? {
            return Ok(row);
        }
        read_row(alloc, tools, line)
    }
}

impl LineItem for HallRow {
    type Header = FileHeader;

    ghost meaning = { hall_row_in };

    #[inline(always)]
    fn read(
        alloc: Global,
        header: FileHeader,
        tools: &mut LineTools,
        line: &[u8],
    ) -> Result<HallRow, Stop> {
        if let Some(row) = written_hall_row(&header, &tools.place, line)? {
            return Ok(row);
        }
        read_hall_row(alloc, header, tools, line)
    }
}

impl LineItem for OrderPiece {
    type Header = ();

    ghost meaning = { λ header. piece_in };

    fn read(
        alloc: Global,
        _header: (),
        tools: &mut LineTools,
        line: &[u8],
    ) -> Result<OrderPiece, Stop> {
        if let Some(piece) = written_piece(alloc, &tools.place, &mut tools.text, line)? {
            return Ok(piece);
        }
        let document = Document::read(alloc, line, &mut tools.scratch)?;
        piece_in(alloc, &tools.place, &document)
    }
}
