//! Random steps over two worlds: the real one, and a slow one that is written from the definitions
//! alone, with lists and linear searches. Both have to answer the same.
mod answers;
mod comparison;
mod slow;
mod stop;

use crate::words::Words;
use answers::Answers;
use comparison::{compare, runs};
use test_rows::Answer;

/// In how many runs of a seed both worlds answer the same. Says why the others ended.
fn alike_runs(out: &mut Answer, answers: &mut Answers, seed: u32) -> u32 {
    let mut alike = 0u32;
    for run in &runs(u64::from(seed)) {
        match compare(out.alloc(), run, answers) {
            Ok(()) => alike = alike.saturating_add(1),
            Err(stop) => {
                let why = stop.words();
                write!(out, "seed {seed}: {why}\n");
            }
        }
    }
    alike
}

/// Says whether each answer came.
fn say_answers(out: &mut Answer, answers: &Answers) {
    match answers.missing() {
        Some(number) => write!(out, "answer {number} never came"),
        None => out.push("each answer came"),
    }
}

/// Says in how many runs both worlds answer the same, of those of the seeds from one on and below
/// another; and whether each answer came.
pub fn say_twins(out: &mut Answer, mut words: Words<'_>) {
    let (from, to) = (words.number().unwrap_or(0), words.number().unwrap_or(0));
    let mut answers = Answers::none();
    let mut alike = 0u32;
    for seed in from..to {
        alike = alike.saturating_add(alike_runs(out, &mut answers, seed));
    }
    write!(out, "{alike} runs answer the same\n");
    say_answers(out, &answers);
}
