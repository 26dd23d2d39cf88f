//! Answers that are said piece by piece.
ghost use Rattle.std.specs.Prelude.{◌≡◌, [], IfOk, OnErr, OnOk, string_bytes, true};
ghost use Rattle.test_rows.specs.Answers.{HasSaid, Says};

use std::alloc::{AllocError, Global};
use std::fmt::Display;

/// What a program says of a row, piece by piece. It goes on where memory is refused for a piece, and has
/// no text then.
#[derive(Drop)]
pub struct Answer {
    text: String,
    is_refused: bool,
}

impl Answer {
    /// Nothing was said yet.
    pub fn new(alloc: Global) -> Answer
        ensures { HasSaid result [] }
    {
        Answer {
            text: String::new(alloc),
            is_refused: false,
        }
    }

    /// What gives the answer's memory.
    pub fn alloc(&self) -> Global {
        *self.text.allocator()
    }

    /// Memory was refused: the answer has no text.
    pub fn refuse(&mut self)
        ensures { self.new.is_refused ≡ true }
    {
        self.is_refused = true;
    }

    /// Takes it that something is done, or that memory was refused for it.
    pub fn heed(&mut self, done: Result<(), AllocError>)
        ensures ok { OnOk done (self.new ≡ self.old) }
        ensures err { OnErr done (self.new.is_refused ≡ true) }
    {
        if done.is_err() {
            self.refuse();
        }
    }

    /// Says a text.
    pub fn push(&mut self, text: &str)
        ensures { Says self.old text.now self.new }
    {
        let done = self.text.push_str(text);
        self.heed(done);
    }

    /// Says what `write!` was given.
    pub fn write_fmt<D: Display + Drop>(&mut self, value: D) {
        let done = self.text.write_fmt(value);
        self.heed(done);
    }

    /// Says a text, unless memory was refused for it.
    pub fn push_made(&mut self, text: Result<String, AllocError>) {
        match text {
            Ok(text) => self.push(text.as_str()),
            Err(_) => self.refuse(),
        }
    }

    /// All that was said.
    pub fn text(self) -> Result<String, AllocError>
        ensures { IfOk result (λ text. HasSaid self (string_bytes text)) }
    {
        if self.is_refused {
            return Err(AllocError);
        }
        let Answer { text, .. } = self;
        Ok(text)
    }
}
