//! Random steps: which step comes next, by three words of a generator.
//!
//! The words are those of PCG XSH RR 64/32. Each step takes three of them, whatever its kind.
#![tactic(auto)]

mod random_steps;

pub use random_steps::RandomSteps;
