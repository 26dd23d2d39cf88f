//! What a row asks for.
use std::io::ErrorKind;

/// A row's input: its first line, which is a kind and its options, and the lines below it.
#[derive(Clone, Copy)]
pub struct Asked<'a> {
    line: &'a str,
    pub lines: &'a str,
}

impl<'a> Asked<'a> {
    /// What the input asks for.
    pub fn new(input: &'a str) -> Asked<'a> {
        let (line, lines) = input.split_once('\n').unwrap_or((input, ""));
        Asked { line, lines }
    }

    /// The first word.
    pub fn kind(self) -> &'a str {
        match self.line.split_once(' ') {
            Some((kind, _)) => kind,
            None => self.line,
        }
    }

    /// Whether the word is among the options.
    pub fn has(self, option: &str) -> bool {
        for word in self.line.split(' ') {
            if word == option {
                return true;
            }
        }
        false
    }

    /// How a reader fails at its end: `fails` says that its time ran out, `interrupted` that it was
    /// interrupted.
    pub fn failure(self) -> Option<ErrorKind> {
        if self.has("fails") {
            Some(ErrorKind::TimedOut)
        } else if self.has("interrupted") {
            Some(ErrorKind::Interrupted)
        } else {
            None
        }
    }

    /// What stands after that name and an equals sign, or nothing.
    pub fn value(self, name: &str) -> &'a str {
        for word in self.line.split(' ') {
            if let Some((found, value)) = word.split_once('=') {
                if found == name {
                    return value;
                }
            }
        }
        ""
    }

    /// The number that stands there, or else that one.
    pub fn number(self, name: &str, otherwise: usize) -> usize {
        self.value(name).parse::<usize>().unwrap_or(otherwise)
    }

    /// The sizes of pieces in which each file of the row is read: 1, 7 and 1,048,576 bytes unless
    /// the row says others.
    pub fn sizes(self) -> &'a str {
        let sizes = self.value("pieces");
        if sizes.is_empty() {
            "1,7,1048576"
        } else {
            sizes
        }
    }
}
