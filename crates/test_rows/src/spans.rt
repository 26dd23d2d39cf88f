//! Answers that are the same over a span of numbers.
ghost use Rattle.std.specs.Prelude.{◌≡◌, ◌++◌, [], IfOk, OnOk, string_bytes};
ghost use Rattle.test_rows.specs.Spans.{GoesOn, span_line, span_lines};

use std::alloc::{AllocError, Global};

/// Answers to numbers that follow one another, a line for each span with one answer.
#[derive(Drop)]
pub struct Spans {
    text: String,
    answer: String,
    first: usize,
    last: usize,
}

impl Spans {
    /// No answer yet.
    pub fn new(alloc: Global) -> Spans
        ensures { span_lines result ≡ [] }
    {
        Spans {
            text: String::new(alloc),
            answer: String::new(alloc),
            first: 0,
            last: 0,
        }
    }

    /// Writes the line of the span under way.
    fn close(&mut self) -> Result<(), AllocError>
        ensures { OnOk result (string_bytes self.new.text ≡ span_lines self.old) }
    {
        if self.answer.is_empty() {
            return Ok(());
        }
        let line = format!(in *self.text.allocator();
            "{} to {}: {}\n",
            self.first,
            self.last,
            self.answer.as_str()
        )?;
        self.text.push_str(line.as_str())
    }

    /// The answer to the next number.
    pub fn take(&mut self, number: usize, answer: String) -> Result<(), AllocError>
        ensures { OnOk result (GoesOn self.old number (string_bytes answer) self.new) }
    {
        if self.answer != answer {
            self.close()?;
            self.answer = answer;
            self.first = number;
        }
        self.last = number;
        Ok(())
    }

    /// All lines.
    pub fn finish(mut self) -> Result<String, AllocError>
        ensures { IfOk result (λ text. string_bytes text ≡ span_lines self) }
    {
        self.close()?;
        let Spans { text, .. } = self;
        Ok(text)
    }
}

/// What is answered to each number from the first on up to the end, a line for each span with one
/// answer. What is said of a number is its multiple of `step`.
pub fn spans_of<F>(
    alloc: Global,
    step: usize,
    first: usize,
    end: usize,
    answer: &F,
) -> Result<String, AllocError>
where
    F: Fn(usize) -> Result<String, AllocError>,
    requires { F.IsAlwaysCallable answer.now }
{
    let mut spans = Spans::new(alloc);
    for number in first..end {
        spans.take(number.saturating_mul(step), answer(number)?)?;
    }
    spans.finish()
}
