//! Files with a header.
ghost use Rattle.std.specs.Prelude.{option_map};
ghost use Rattle.file_format.specs.Files.{file_rules};
ghost use Rattle.file_format.specs.Lines.{LineShows};
ghost use Rattle.file_format.specs.declared.fault.LineFault.TheVariants.{TooLong};
ghost use Rattle.history_file.specs.Beginnings.{HaveMade};
ghost use Rattle.history_file.specs.BodyLaws.{made_sound, made_faulty, made_long};

use crate::body::Body;
use crate::tool_sets::ToolSets;
use counted_devices::Judgement;
use file_format::{FaultKind, FileFault, LineFault, Stop};
use line_files::{Contents, Opens};
use std::alloc::Global;
use tag::Memory;

/// What the lines of a file make: nothing before its header.
#[derive(Drop)]
pub struct Headed<B> {
    body: Option<B>,
}

impl<B: Body> Contents for Headed<B> {
    type Fault = LineFault;

    type Item = B::Item;

    type Context = B::Header;

    type Tools = ToolSets;

    type Whole = B::Whole;

    ghost rules = { file_rules B.format };

    ghost Reads = { λ lines file. HaveMade B.format B.Makes lines file.body };

    ghost context = { λ file. option_map B.told file.body };

    ghost Shows = { λ header. LineShows (B.format.meaning header) };

    ghost ReadsWhole = { B.ReadsWhole };

    ghost too_long = { TooLong };

    fn tools() -> ToolSets {
        ToolSets::new()
    }

    fn context(&self) -> Option<B::Header> {
        match &self.body {
            Some(body) => Some(body.header()),
            None => None,
        }
    }

    fn too_long() -> LineFault {
        LineFault::TooLong
    }

    fn begin(&mut self, alloc: Global, line: &[u8]) -> Result<(), Stop> {
        self.body = Some(B::begin(alloc, line)?);
        Ok(())
    }

    fn judge_chunk(
        alloc: Global,
        under: B::Header,
        tools: &ToolSets,
        chunk: &[u8],
    ) -> Result<Vec<Judgement<B::Item, LineFault>>, Memory> {
        tools.judge::<B::Item>(alloc, under, chunk)
    }

    fn follow(&mut self, line: u64, item: B::Item) -> Result<(), Stop> {
        match &mut self.body {
            Some(body) => body.follow(line, item),
            None => Err(Stop::Fault(LineFault::NoHeader)),
        }
    }

    fn whole(self) -> Result<B::Whole, FileFault> {
        match self.body {
            Some(body) => Ok(body.whole()),
            None => Err(FileFault {
                line: 1,
                kind: FaultKind::Line(LineFault::NoHeader),
            }),
        }
    }

    ghost sound = { λ lines file h. made_sound B.format B.Makes B.opens lines file.body h };

    ghost faulty = { λ lines file under line fault h told shown.
        made_faulty B.format B.Makes B.told B.tells lines file.body under line fault h told shown };

    ghost long = { λ lines file line h long.
        made_long B.format B.Makes B.opens lines file.body line h long };
}

impl<B: Body> Opens for Headed<B> {
    fn opening(_alloc: Global) -> Headed<B> {
        Headed { body: None }
    }
}
