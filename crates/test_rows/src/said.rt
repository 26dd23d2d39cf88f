//! What a program says of a row.
ghost use Rattle.std.specs.Prelude.{◌≡◌, IfOk, string_bytes};
ghost use Rattle.test_rows.specs.Rows.{report_text};

use crate::Row;
use std::alloc::{AllocError, Global};

/// The row's name, what was found, and the line `NOT AS EXPECTED` where that is not what is
/// expected.
pub fn report(alloc: Global, row: &Row<'_>, found: &str) -> Result<String, AllocError>
    ensures { IfOk result
        (λ text. string_bytes text ≡ report_text row.now.name.now row.now.expected.now found.now) }
{
    let name = row.name;
    let note = if found == row.expected {
        ""
    } else {
        "NOT AS EXPECTED\n"
    };
    format!(in alloc; "{name}\n{found}{note}")
}
