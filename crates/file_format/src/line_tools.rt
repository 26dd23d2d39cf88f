//! What is kept from line to line while lines are judged.
use crate::line_texts::LinePlace;
use json::Scratch;
use std::alloc::Global;
use tag::Memory;

/// Room to read JSON in, room for a line's text, and the place of the line under way.
///
/// What lines show doesn't depend on what is kept: it spares time and memory.
#[derive(Drop)]
pub struct LineTools {
    pub(crate) scratch: Box<Scratch>,
    pub(crate) text: Vec<u8>,
    pub(crate) place: LinePlace,
}

impl LineTools {
    /// Nothing is kept yet.
    pub fn new(alloc: Global) -> Result<LineTools, Memory> {
        Ok(LineTools {
            scratch: Box::new(alloc, Scratch::new(alloc))?,
            text: Vec::new(alloc),
            place: LinePlace::new(alloc)?,
        })
    }
}
