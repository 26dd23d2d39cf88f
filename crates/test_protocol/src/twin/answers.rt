//! How often each answer came.
use client_phases::Taken;
use world_steps::{Effect, Refusal};

/// How often each refusal came, by its number, and each effect, from 16 on.
#[derive(Clone, Copy)]
pub struct Answers {
    counts: [u32; 30],
}

impl Answers {
    pub fn none() -> Answers {
        Answers { counts: [0; 30] }
    }

    pub fn add(&mut self, answer: Result<Effect, Refusal>) {
        let number = match answer {
            Err(refusal) => refusal as usize,
            Ok(effect) => effect_number(effect),
        };
        if let Some(count) = self.counts.get_mut(number) {
            *count = count.saturating_add(1);
        }
    }

    fn count(&self, number: usize) -> u32 {
        match self.counts.get(number) {
            Some(count) => *count,
            None => 0,
        }
    }

    /// The number of the first answer that never came.
    pub fn missing(&self) -> Option<usize> {
        for number in (1..14).chain(16..30) {
            if self.count(number) == 0 {
                return Some(number);
            }
        }
        None
    }
}

fn effect_number(effect: Effect) -> usize {
    match effect {
        Effect::Joined => 16,
        Effect::Invoked(_) => 17,
        Effect::Sent(_) => 18,
        Effect::Answered(_) => 19,
        Effect::Taken(taken) => taken_number(taken),
        Effect::Lost => 25,
        Effect::Repeated => 26,
        Effect::Responded(_) => 27,
        Effect::Stopped => 28,
        Effect::Started => 29,
    }
}

fn taken_number(taken: Taken) -> usize {
    match taken {
        Taken::Stale => 20,
        Taken::Counted => 21,
        Taken::Noted(_) => 22,
        Taken::Agreed(_) => 23,
        Taken::Ready => 24,
    }
}
