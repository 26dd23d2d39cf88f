//! The judgement of a line by itself.
ghost use Rattle.std.specs.Prelude.{ℕ, ◌≡◌, ◌∷◌, List, [], IfOk, Result};
ghost use Rattle.serde_json.specs.Data.{Data};
ghost use Rattle.counted_devices.specs.Judgements.{ShowsItem, ShowChunks};
ghost use Rattle.file_format.specs.declared.fault.LineFault.{LineFault};
ghost use Rattle.file_format.specs.FileHeaders.{file_header_in};
ghost use Rattle.file_format.specs.Headers.{header_in};
ghost use Rattle.file_format.specs.Lines.{LineShows, LineShowsBy};

use crate::LineFault;
use crate::document::Document;
use crate::fault::Stop;
use crate::file_header::FileHeader;
use crate::header::header_in;
use crate::line_item::LineItem;
use crate::line_texts::shared;
use crate::line_tools::LineTools;
use crate::quorum_header::file_header_in;
use counted_devices::{Judgement, LONGEST, first_end};
use json::Scratch;
use std::alloc::Global;
use tag::Memory;

/// About how many bytes a line has.
const USUAL: usize = 48;

/// What was made of a line, as its judgement.
#[inline(always)]
fn judged<T>(made: Result<T, Stop>) -> Result<Judgement<T, LineFault>, Memory>
    ensures { (meaning : Data → Result T LineFault) (line : List ℕ) → LineShowsBy meaning line made
        → IfOk result (ShowsItem (LineShows meaning) line) }
{
    match made {
        Ok(item) => Ok(Judgement::Item(item)),
        Err(Stop::Fault(fault)) => Ok(Judgement::Fault(fault)),
        Err(Stop::Memory) => Err(Memory),
    }
}

/// What the line, without its end, shows after that header.
#[inline(always)]
fn judge<T: LineItem>(
    alloc: Global,
    header: T::Header,
    tools: &mut LineTools,
    line: &[u8],
) -> Result<Judgement<T, LineFault>, Memory>
    ensures { IfOk result (ShowsItem (LineShows (T.meaning header)) line.now) }
{
    if line.len() > LONGEST {
        return Ok(Judgement::Fault(LineFault::TooLong));
    }
    judged(T::read(alloc, header, tools, line))
}

/// What the lines of a chunk, the last of them without its end, show after that header, judged with
/// these tools.
pub fn judge_with<T: LineItem>(
    alloc: Global,
    header: T::Header,
    tools: &mut LineTools,
    chunk: &[u8],
) -> Result<Vec<Judgement<T, LineFault>>, Memory>
    ensures { IfOk result (λ run. ShowChunks (LineShows (T.meaning header)) (chunk.now ∷ [])
        run.items) }
{
    tools.place.bytes = shared(alloc, chunk)?;
    let mut run = Vec::with_capacity(alloc, chunk.len() / USUAL)?;
    let mut rest = chunk;
    while let Some(end) = first_end(rest) {
        tools.place.start = chunk.len().saturating_sub(rest.len());
        run.push(judge::<T>(alloc, header, tools, &rest[..end])?)?;
        rest = &rest[end + 1..];
    }
    tools.place.start = chunk.len().saturating_sub(rest.len());
    run.push(judge::<T>(alloc, header, tools, rest)?)?;
    Ok(run)
}

/// What the line, without its end, says as the header of a history file of either version.
pub fn judge_file_header(alloc: Global, line: &[u8]) -> Result<FileHeader, Stop>
    ensures { LineShowsBy file_header_in line.now result }
{
    if line.len() > LONGEST {
        return Err(Stop::Fault(LineFault::TooLong));
    }
    let mut scratch = Scratch::new(alloc);
    let document = Document::read(alloc, line, &mut scratch)?;
    file_header_in(alloc, &document)
}

/// Whether the line, without its end, is the header of a file of that name.
pub fn judge_header(alloc: Global, name: &str, line: &[u8]) -> Result<(), Stop>
    ensures { LineShowsBy (header_in name.now) line.now result }
{
    if line.len() > LONGEST {
        return Err(Stop::Fault(LineFault::TooLong));
    }
    let mut scratch = Scratch::new(alloc);
    let document = Document::read(alloc, line, &mut scratch)?;
    header_in(name, &document)
}
