//! Names of files, as standard error is told them.
use sentences::shown_text;
use std::io::IsTerminal;
use tag::Memory;

/// The name of a file: as it was given, and as standard error is told it.
#[derive(Drop)]
pub struct FileName<'a> {
    /// What the file is opened by.
    pub given: &'a str,
    /// With an escape for each hidden character, where standard error is a terminal.
    shown: Option<String>,
}

impl<'a> FileName<'a> {
    /// The name that was given.
    pub fn new(rt: &HostRuntime, given: &'a str) -> Result<FileName<'a>, Memory> {
        let shown = if rt.stderr().is_terminal() {
            Some(shown_text(rt.alloc(), given)?)
        } else {
            None
        };
        Ok(FileName { given, shown })
    }

    /// The name as standard error is told it.
    pub fn told(&self) -> &str {
        match &self.shown {
            Some(shown) => shown.as_str(),
            None => self.given,
        }
    }
}
