//! What a program of rows does.
use crate::{Row, report};
use std::alloc::{AllocError, Global};
use std::process::ExitCode;
use std::rt::{Env, Files};
use std::{env, fs};

/// A program of rows: where it says what comes of them, and what it finds of a row's input.
#[derive_where(Clone, Copy)]
struct Program<'a, R, F> {
    rt: &'a R,
    found: &'a F,
}

impl<R, F> Program<'_, R, F>
where
    R: Files + Print + Alloc<A = Global>,
    F: Fn(&str) -> Result<String, AllocError>,
{
    /// Says what was found of a row. Whether it is as expected, and was said.
    fn say_found(&self, row: &Row<'_>, found: &str) -> bool {
        match report(self.rt.alloc(), row, found) {
            Ok(text) => self.rt.print(text.as_str()).is_ok() && found == row.expected,
            Err(_) => false,
        }
    }

    /// Says what came of a row. Whether it is as expected.
    fn say_row(&self, block: &str) -> bool
        requires { F.IsAlwaysCallable self.now.found.now }
    {
        let Some(row) = Row::read(block) else {
            let _ = self.rt.println("NOT A ROW");
            return false;
        };
        match (self.found)(row.input) {
            Ok(text) => self.say_found(&row, text.as_str()),
            Err(_) => false,
        }
    }

    /// Says what came of the rows of a file's text. Whether all are as expected.
    fn say_rows(&self, text: &str) -> bool
        requires { F.IsAlwaysCallable self.now.found.now }
    {
        let mut good = true;
        for block in text.split("\n### ").skip(1) {
            good = self.say_row(block) && good;
        }
        good
    }

    /// Says what came of the rows of a file. Whether all are as expected.
    fn say_file(&self, name: &str) -> bool
        requires { F.IsAlwaysCallable self.now.found.now }
    {
        match fs::read_to_string(self.rt, name) {
            Ok(text) => self.say_rows(text.as_str()),
            Err(_) => false,
        }
    }

    /// Says what came of the rows of the files of those names, after the program's own. Whether all are
    /// as expected.
    fn say_files(&self, words: &[String]) -> bool
        requires { F.IsAlwaysCallable self.now.found.now }
    {
        let mut good = true;
        for name in words.iter().skip(1) {
            good = self.say_file(name.as_str()) && good;
        }
        good
    }
}

/// The program's words.
fn words<R>(rt: &R) -> Option<Vec<String>>
where
    R: Env + Alloc<A = Global>,
{
    match env::args(rt) {
        Ok(words) => words.collect::<Vec<String>>(rt.alloc()).ok(),
        Err(_) => None,
    }
}

/// Goes over the files that the program's words name, and says what came of each row: what `found`
/// makes of its input. It ends well where each row is as expected.
pub fn run_rows<R, F>(rt: &R, found: &F) -> ExitCode
where
    R: Env + Files + Print + Alloc<A = Global>,
    F: Fn(&str) -> Result<String, AllocError>,
    requires { F.IsAlwaysCallable found.now }
{
    let program = Program { rt, found };
    match words(rt) {
        Some(words) if program.say_files(words.as_slice()) => ExitCode::SUCCESS,
        _ => ExitCode::FAILURE,
    }
}
