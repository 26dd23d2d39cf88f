//! Histories whose rows have the numbers of their lines in a file that is split.
ghost use Rattle.std.specs.Prelude.{◌≡◌, ◌<◌, ◌^◌, ◌++◌, [], Some, None, codes, true, OnErr, OnOk};
ghost use Rattle.tag.specs.Names.{is_key};
ghost use Rattle.recorder.specs.declared.row.Row.{Row};
ghost use Rattle.file_format.specs.NumberedRows.{NumberedRow};
ghost use Rattle.file_format.specs.Ranges.{IsNumberedInRange};
ghost use Rattle.file_format.specs.Texts.{header_data, line_text, numbered_text};

use crate::marks::Marks;
use crate::texts::{append_header, append_invoke, append_note, append_respond};
use recorder::{ActionRef, ReturnedRef};
use tag::{ClientId, Memory, OpId, Tag};

/// What a row of version 1 is marked by that has the number of its line.
fn on_line(line: u64) -> Marks
    ensures marks { result ≡ record { hall = None; line = Some line } }
    ensures range { line < 2 ^ 64 }
{
    Marks {
        hall: None,
        line: Some(line),
    }
}

/// The answer of what was added, whose bytes are dropped if memory ran out.
fn whole_or_nothing(out: &mut Vec<u8>, added: Result<(), Memory>) -> Result<(), Memory>
    ensures same { result ≡ added }
    ensures kept { OnOk result (out.new.items ≡ out.old.items) }
    ensures lost { OnErr result (out.new.items ≡ []) }
{
    if added.is_err() {
        out.clear();
    }
    added
}

/// Adds the header of a history file of version 1. If memory runs out, `out` is emptied.
pub fn append_history_header(out: &mut Vec<u8>) -> Result<(), Memory>
    ensures text { OnOk result (out.new.items
        ≡ out.old.items ++ line_text (header_data (codes "history"))) }
    ensures lost { OnErr result (out.new.items ≡ []) }
{
    let added = append_header(out, "history");
    whole_or_nothing(out, added)
}

/// Adds the line of a row that begins a call on the key of that text, with the number of its line in a file
/// that is split. If memory runs out, `out` is emptied.
pub fn append_numbered_invoke(
    out: &mut Vec<u8>,
    line: u64,
    op: OpId,
    client: ClientId,
    key: &str,
    action: &ActionRef<'_>,
) -> Result<(), Memory>
    requires { is_key key.now ≡ true }
    ensures text { OnOk result (out.new.items ≡ out.old.items ++ numbered_text
        (record { line = line; row = Row.Invoke op client key.now action.now })) }
    ensures range { OnOk result (IsNumberedInRange
        (record { line = line; row = Row.Invoke op client key.now action.now })) }
    ensures lost { OnErr result (out.new.items ≡ []) }
{
    let added = append_invoke(out, on_line(line), op, client, key, action);
    whole_or_nothing(out, added)
}

/// Adds the line of a row that notes a call's tag, with the number of its line in a file that is split. If
/// memory runs out, `out` is emptied.
pub fn append_numbered_note(out: &mut Vec<u8>, line: u64, op: OpId, tag: Tag) -> Result<(), Memory>
    ensures text { OnOk result (out.new.items
        ≡ out.old.items ++ numbered_text (record { line = line; row = Row.Note op tag })) }
    ensures range { OnOk result (IsNumberedInRange
        (record { line = line; row = Row.Note op tag })) }
    ensures lost { OnErr result (out.new.items ≡ []) }
{
    let added = append_note(out, on_line(line), op, tag);
    whole_or_nothing(out, added)
}

/// Adds the line of a row that answers a call, with the number of its line in a file that is split. If memory
/// runs out, `out` is emptied.
pub fn append_numbered_respond(
    out: &mut Vec<u8>,
    line: u64,
    op: OpId,
    returned: &ReturnedRef<'_>,
) -> Result<(), Memory>
    ensures text { OnOk result (out.new.items
        ≡ out.old.items ++ numbered_text (record { line = line; row = Row.Respond op returned.now })) }
    ensures range { OnOk result (IsNumberedInRange
        (record { line = line; row = Row.Respond op returned.now })) }
    ensures lost { OnErr result (out.new.items ≡ []) }
{
    let added = append_respond(out, on_line(line), op, returned);
    whole_or_nothing(out, added)
}
