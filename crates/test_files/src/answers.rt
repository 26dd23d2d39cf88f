//! Answers that should be one.
use test_rows::Answer;

/// The answer of the first of several ways.
#[derive(Drop)]
pub struct Agreed {
    first: Option<String>,
}

impl Agreed {
    /// No answer yet.
    pub fn new() -> Agreed {
        Agreed { first: None }
    }

    /// Says the answer of one more way where it is the first, or differs from that.
    pub fn say(&mut self, out: &mut Answer, answer: Answer) {
        match answer.text() {
            Ok(text) => self.say_text(out, text),
            Err(_) => out.refuse(),
        }
    }

    fn say_text(&mut self, out: &mut Answer, text: String) {
        match &self.first {
            None => {
                out.push(text.as_str());
                self.first = Some(text);
            }
            Some(first) if *first == text => {}
            Some(_) => {
                out.push("READERS DIFFER: ");
                out.push(text.as_str());
            }
        }
    }
}
