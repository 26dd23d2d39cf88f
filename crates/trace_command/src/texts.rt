//! The trace and the script as texts of a page.
ghost use Rattle.std.specs.Prelude.{◌≡◌, ◌<◌, ◌+◌, ◌++◌, ◌^◌, OnOk};
ghost use Rattle.std.specs.List.{enumerate_from};
ghost use Rattle.std.specs.Str.Lines.{lines};
ghost use Rattle.markup.specs.Markup.{each, rendered};
ghost use Rattle.trace_command.specs.TracePages.{script_line, script_lines, told_line, told_lines};

use diagrams::SCRIPT_ID;
use markup::{
    Attribute, AttributeName, Element, append_closing, append_line_end, append_opening, append_text,
};
use std::alloc::Global;
use tag::Memory;

/// Adds the line, and its end.
#[tactic(auto, unfolding(markup::specs::Markup::rendered))]
fn append_line(page: &mut Vec<u8>, line: &str) -> Result<(), Memory>
    ensures { OnOk result (page.new.items ≡ page.old.items ++ rendered (told_line line.now)) }
{
    append_text(page, line)?;
    append_line_end(page)
}

/// Adds the lines of the text, each with its end.
fn append_lines(page: &mut Vec<u8>, words: &str) -> Result<(), Memory>
    ensures { OnOk result (page.new.items
        ≡ page.old.items ++ rendered (each told_line (lines words.now))) }
{
    for line in words.lines() {
        append_line(page, line)?;
    }
    Ok(())
}

/// Adds the trace, line by line.
pub(crate) fn append_told(alloc: Global, page: &mut Vec<u8>, trace: &[u8]) -> Result<(), Memory>
    ensures { OnOk result (page.new.items ≡ page.old.items ++ rendered (told_lines trace.now)) }
{
    let words = String::from_utf8_lossy(alloc, trace)?;
    append_lines(page, words.as_str())
}

/// Adds the line of that index at the place of its number, and its end.
#[tactic(auto, unfolding(markup::specs::Markup::rendered))]
fn append_script_line(page: &mut Vec<u8>, index: usize, line: &str) -> Result<(), Memory>
    requires { index + 1 < 2 ^ 64 }
    ensures { OnOk result
        (page.new.items ≡ page.old.items ++ rendered (script_line (index, line.now))) }
{
    let place = Attribute::Numbered(AttributeName::Id, SCRIPT_ID, index as u64 + 1);
    append_opening(page, Element::Span, &[place])?;
    append_text(page, line)?;
    append_closing(page, Element::Span)?;
    append_line_end(page)
}

/// Adds the lines of the text, each at its place.
fn append_script_lines(page: &mut Vec<u8>, words: &str) -> Result<(), Memory>
    ensures { OnOk result (page.new.items
        ≡ page.old.items ++ rendered (each script_line (enumerate_from 0 (lines words.now)))) }
{
    for (index, line) in words.lines().enumerate() {
        append_script_line(page, index, line)?;
    }
    Ok(())
}

/// Adds the script, line by line.
pub(crate) fn append_script(alloc: Global, page: &mut Vec<u8>, script: &[u8]) -> Result<(), Memory>
    ensures { OnOk result (page.new.items ≡ page.old.items ++ rendered (script_lines script.now)) }
{
    let words = String::from_utf8_lossy(alloc, script)?;
    append_script_lines(page, words.as_str())
}
