//! Rows as they are written.
ghost use Rattle.std.specs.Prelude.{MatchOption, List, ℕ};
ghost use Rattle.test_rows.specs.Rows.{IsDivided, IsWritten};

/// A row: what it shows, its input, and what is expected to come out.
#[derive(Clone, Copy)]
pub struct Row<'a> {
    pub name: &'a str,
    pub input: &'a str,
    pub expected: &'a str,
}

impl<'a> Row<'a> {
    /// Reads a block: a line with the name, the input's lines, a line `---`, and the lines that
    /// are expected. `None` comes exactly where the name's line or the line `---` is missing.
    ///
    /// The first line `---` below the name divides; the input is empty where it stands right there.
    pub fn read(block: &'a str) -> Option<Row<'a>>
        ensures { MatchOption result ((name input expected : List ℕ)
            → IsWritten block.now name input expected → ⊥)
            (λ row. IsWritten block.now row.name.now row.input.now row.expected.now) }
    {
        let Some((name, body)) = block.split_once('\n') else {
            return None;
        };
        let Some((input, expected)) = split_body(body) else {
            return None;
        };
        Some(Row {
            name,
            input,
            expected,
        })
    }
}

/// The lines before the first line `---`, and what comes after it.
fn split_body(text: &str) -> Option<(&str, &str)>
    ensures { MatchOption result ((input expected : List ℕ) → IsDivided text.now input expected → ⊥)
        (λ parts. IsDivided text.now parts.0.now parts.1.now) }
{
    if let Some(expected) = text.strip_prefix("---\n") {
        return Some(("", expected));
    }
    let Some((lines, expected)) = text.split_once("\n---\n") else {
        return None;
    };
    // The input keeps the end of its last line.
    let (input, _) = text.split_at(lines.len() + 1);
    Some((input, expected))
}
