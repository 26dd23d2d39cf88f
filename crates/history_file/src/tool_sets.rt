//! Tools for threads that judge lines side by side.
ghost use Rattle.std.specs.Prelude.{◌∷◌, [], IfOk};
ghost use Rattle.counted_devices.specs.Judgements.{ShowChunks};
ghost use Rattle.file_format.specs.Lines.{LineShows};

use counted_devices::Judgement;
use file_format::{LineFault, LineItem, LineTools, judge_with};
use std::alloc::Global;
use std::array;
use std::sync::RwLock;
use tag::Memory;

/// How many sets of tools are kept: as many threads judge lines side by side without making others.
const SETS: usize = 32;

/// Sets of tools, kept for a whole file: a thread takes one that no other has, and leaves it for
/// another.
#[derive(Drop)]
pub struct ToolSets {
    sets: [RwLock<Option<LineTools>>; SETS],
}

impl ToolSets {
    /// No set is made yet.
    pub(crate) fn new() -> ToolSets {
        ToolSets {
            sets: array::from_fn(|_| RwLock::new(None)),
        }
    }

    /// What the lines of a chunk, the last of them without its end, show after that header.
    ///
    /// Takes one of the sets of tools that no other thread has, and makes one of its own where all are
    /// taken.
    pub(crate) fn judge<I: LineItem>(
        &self,
        alloc: Global,
        header: I::Header,
        chunk: &[u8],
    ) -> Result<Vec<Judgement<I, LineFault>>, Memory>
        ensures { IfOk result (λ run. ShowChunks (LineShows (I.meaning header)) (chunk.now ∷ [])
            run.items) }
    {
        for set in &self.sets {
            if let Some(mut free) = set.try_write() {
                let mut own = match free.take() {
                    Some(own) => own,
                    None => LineTools::new(alloc)?,
                };
                let run = judge_with::<I>(alloc, header, &mut own, chunk);
                *free = Some(own);
                return run;
            }
        }
        judge_with::<I>(alloc, header, &mut LineTools::new(alloc)?, chunk)
    }
}
