//! Whether keys have notes.
ghost use Rattle.std.specs.Prelude.{◌≡◌, map};
ghost use Rattle.std.specs.List.{list_any};
ghost use Rattle.parallel_keys.specs.KeysToCheck.{what_of};
ghost use Rattle.cli.specs.Hints.{has_note};
ghost use Rattle.judged_keys.specs.Notes.{lack_notes};

use cli::has_note;
use parallel_keys::KeyToCheck;

/// Whether a call on one of the keys has a note.
fn have_notes(keys: &[KeyToCheck<'_>]) -> bool
    ensures { result ≡ list_any (λ one. has_note one.part) keys.now }
{
    keys.iter().any(|one| has_note(&one.part))
}

/// Whether there are keys, and no call on any has a note.
pub(crate) fn lack_notes(keys: &[KeyToCheck<'_>]) -> bool
    ensures { result ≡ lack_notes (map what_of keys.now) }
{
    if keys.is_empty() {
        return false;
    }
    !have_notes(keys)
}
