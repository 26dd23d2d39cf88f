//! What a page says and shows of judged keys.
ghost use Rattle.std.specs.Prelude.{◌≡◌, All, OnOk, map};
ghost use Rattle.std.specs.List.{list_any};
ghost use Rattle.cli.specs.Hints.{has_note};
ghost use Rattle.judged_keys.specs.Halls.{HasLinesOfEach};
ghost use Rattle.judged_keys.specs.Judgements.{judgement_of};
ghost use Rattle.draw_command.specs.Drawings.{IsDrawable};
ghost use Rattle.draw_command.specs.Making.{Adds};
ghost use Rattle.draw_command.specs.Pages.{IsContentOf};

use crate::around::append_search;
use crate::front::append_front;
use crate::pictured_keys::pictured_keys;
use crate::section::{Task, add_sections};
use crate::table::{add_table, append_below};
use cli::has_note;
use judged_keys::{Findings, JudgedKey};
use std::alloc::Global;
use tag::{Key, Memory};

/// Whether a call on one of the keys has a note.
fn have_notes(keys: &[JudgedKey<'_>]) -> bool
    ensures { result ≡ list_any (λ key. has_note key.one.now.part) keys.now }
{
    keys.iter().any(|key| has_note(&key.one.part))
}

/// Adds what the page says and shows of the keys. Names that no key has are given, and the keys that have
/// the call around which calls are to be shown.
pub(crate) fn add_content(
    alloc: Global,
    page: &mut Vec<u8>,
    task: &Task<'_>,
    findings: &Findings<'_>,
    missing: &[&str],
    having: &[&Key],
) -> Result<(), Memory>
    requires lines { HasLinesOfEach task.now.numbered.now }
    requires drawable { All IsDrawable (map judgement_of findings.now.keys.items) }
    ensures { OnOk result (Adds (IsContentOf task.now.numbered.now task.now.drawn
        (map judgement_of findings.now.keys.items) findings.now.refused
        (map (λ name. name.now) missing.now) (map (λ key. key.now) having.now))
        page.old.items page.new.items) }
{
    let keys = findings.keys.as_slice();
    let pictured = task.drawn.pictured_count(keys);
    let drawn = &keys[..keys.len().min(pictured)];
    let own = pictured_keys(alloc, task.numbered, drawn)?;
    let first = own.as_slice();
    append_front(alloc, page, findings, missing)?;
    append_search(alloc, page, task.drawn.around, drawn, having)?;
    add_table(alloc, page, first, keys)?;
    let tagged = have_notes(keys);
    append_below(page, pictured, keys.len(), findings.refused, tagged)?;
    add_sections(alloc, page, task, findings.refused > 0, first)
}
