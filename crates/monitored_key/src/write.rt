//! A kept write.
ghost use Rattle.std.specs.Prelude.{◌≡◌, None, Some, IfOk};
ghost use Rattle.key_monitor.specs.KeptWrites.{KeptWrite};

use std::alloc::Global;
use std::marker::Model;
use tag::Memory;

/// A kept write: what it writes, where it began, and where a call of its family ended first.
#[derive(Drop)]
pub(crate) struct Write {
    text: String,
    begin: u64,
    end: Option<u64>,
}

impl Model for Write {
    ghost use Rattle.std.specs.String.{string_bytes};
    ghost use Rattle.key_monitor.specs.KeptWrites.{KeptWrite};

    ghost Value = { KeptWrite };

    ghost view = { λ w. record { value = string_bytes w.text; begin = w.begin; end = w.end } };
}

impl Write {
    /// A write that began at the place.
    pub(crate) fn begun(alloc: Global, text: &str, place: u64) -> Result<Write, Memory>
        ensures { IfOk result (λ w. w ≡ record { value = text.now; begin = place; end = None }) }
    {
        Ok(Write {
            text: String::from_str(alloc, text)?,
            begin: place,
            end: None,
        })
    }

    /// What it writes.
    pub(crate) fn text(&self) -> &str
        ensures { result.now ≡ self.now.value }
    {
        self.text.as_str()
    }

    /// Where it began.
    pub(crate) fn begin(&self) -> u64
        ensures { result ≡ self.now.begin }
    {
        self.begin
    }

    /// Where a call of its family ended first.
    pub(crate) fn end(&self) -> Option<u64>
        ensures { result ≡ self.now.end }
    {
        self.end
    }

    /// A call of its family ended first there.
    pub(crate) fn set_end(&mut self, place: u64)
        ensures { self.new ≡ record self.old { end = Some place } }
    {
        self.end = Some(place);
    }
}
