//! What a page says and shows of histories, also that of another command.
ghost use Rattle.std.specs.Prelude.{IfOk, List, OnOk, map};
ghost use Rattle.recorder.specs.declared.order.KeyOrder.{KeyOrder};
ghost use Rattle.parallel_keys.specs.KeysToCheck.{what_of};
ghost use Rattle.judged_keys.specs.Files.{HaveKeys};
ghost use Rattle.judged_keys.specs.Halls.{HasLinesOfEach};
ghost use Rattle.draw_command.specs.HistoryPictures.{IsContentOfHistory, IsJudgedContent};
ghost use Rattle.draw_command.specs.Making.{Adds};

use crate::around::keys_around;
use crate::drawn::Drawn;
use crate::page::add_content;
use crate::section::Task;
use cli::Found;
use history_file::NumberedHistories;
use judged_keys::{find_each, found_in};
use parallel_keys::{KeyToCheck, hall_parts, keys_to_check};
use std::alloc::Global;
use tag::Memory;

/// What is told of the keys of a page.
#[derive(Clone, Copy)]
pub(crate) struct Told {
    /// What was found of all.
    pub(crate) found: Found,
    /// How many of them are refused.
    pub(crate) refused: usize,
    /// How many there are.
    pub(crate) count: usize,
}

/// Judges the selected keys, and adds what a page says and shows of them. What is told of them.
pub(crate) fn add_keys(
    alloc: Global,
    page: &mut Vec<u8>,
    task: &Task<'_>,
    mut keys: Vec<KeyToCheck<'_>>,
) -> Result<Told, Memory>
    requires lines { HasLinesOfEach task.now.numbered.now }
    requires keys { (orders : List KeyOrder)
        × HaveKeys task.now.numbered.now.histories orders (map what_of keys.items) }
    ensures { IfOk result (λ told. Adds (IsJudgedContent task.now.numbered.now task.now.drawn
        (map what_of keys.entry.items) told) page.old.items page.new.items) }
{
    let selection = task.drawn.selection;
    let missing = selection.missing_names(alloc, keys.as_slice())?;
    let having = keys_around(alloc, task.drawn.around, keys.as_slice())?;
    selection.select(&mut keys);
    let findings = find_each(alloc, selection.judged, keys.as_slice())?;
    add_content(
        alloc,
        page,
        task,
        &findings,
        missing.as_slice(),
        having.as_slice(),
    )?;
    Ok(Told {
        found: found_in(findings.refused, findings.undecided, missing.as_slice()),
        refused: findings.refused,
        count: findings.keys.as_slice().len(),
    })
}

/// Judges the keys of the histories, and adds what the page of `abd draw` without orders says and shows
/// of them: a table of the keys, and sections with pictures.
///
/// `Memory` comes only where an allocation was refused; something may have been added then.
pub fn add_history_pictures<'a>(
    alloc: Global,
    page: &mut Vec<u8>,
    numbered: &'a NumberedHistories,
    drawn: Drawn<'a>,
) -> Result<(), Memory>
    requires { HasLinesOfEach numbered.now }
    ensures { OnOk result
        (Adds (IsContentOfHistory numbered.now drawn.entry) page.old.items page.new.items) }
{
    let parts = hall_parts(alloc, numbered.histories.halls())?;
    let keys = keys_to_check(alloc, parts.as_slice(), &[])?;
    let task = Task { numbered, drawn };
    add_keys(alloc, page, &task, keys)?;
    Ok(())
}
