//! Words of a line.
ghost use Rattle.std.specs.Prelude.{◌≡◌, ◌∷◌, [], not, position, IfSome, MatchOption, IfOk, bytes_eq};
ghost use Rattle.std.specs.List.{before_first, after_first};
ghost use Rattle.fault_script.specs.Words.{is_space, words, behind_word, without_return, without_spaces};
ghost use Rattle.counted_devices.specs.Answers.{Gives};
ghost use Rattle.fault_script.specs.Says.{needed_word, nothing_more, needed_text};

use crate::LineFault;
use crate::fault::Stop;

fn is_space(byte: u8) -> bool
    ensures { result ≡ is_space byte }
{
    byte == b' ' || byte == b'\t'
}

/// The line without a final byte 13.
pub(crate) fn without_return(line: &str) -> &str
    ensures { result.now ≡ without_return line.now }
{
    match line.as_bytes().split_last() {
        Some((b'\r', text)) => &line[..text.len()],
        _ => line,
    }
}

/// Whether the word is that text.
pub(crate) fn is(word: &str, text: &str) -> bool
    ensures { result ≡ bytes_eq word.now text.now }
{
    word == text
}

fn first_other(text: &str) -> Option<usize>
    ensures { result ≡ position (λ b. not (is_space b)) text.now }
{
    text.as_bytes().iter().position(|byte| !is_space(*byte))
}

fn first_space(text: &str) -> Option<usize>
    ensures { result ≡ position is_space text.now }
{
    text.as_bytes().iter().position(|byte| is_space(*byte))
}

fn without_spaces(text: &str) -> &str
    ensures { result.now ≡ without_spaces text.now }
{
    let start = first_other(text).unwrap_or(text.len());
    &text[start..]
}

/// What stands before the first space or tab, and what stands after it.
fn cut_at_space(text: &str) -> (&str, &str)
    ensures before { result.0.now ≡ before_first is_space text.now }
    ensures after { result.1.now ≡ after_first is_space text.now }
{
    match first_space(text) {
        Some(end) => (&text[..end], &text[end + 1..]),
        None => (text, &text[text.len()..]),
    }
}

/// The first word, and what stands after the one space or tab that ends it.
pub(crate) fn next_word(text: &str) -> Option<(&str, &str)>
    ensures words { MatchOption result (words text.now ≡ [])
        (λ found. words text.now ≡ found.0.now ∷ words found.1.now) }
    ensures behind { IfSome result (λ found. found.1.now ≡ behind_word text.now) }
{
    let text = without_spaces(text);
    if text.is_empty() {
        return None;
    }
    Some(cut_at_space(text))
}

/// The next word, which must be there.
pub(crate) fn needed_word(text: &str) -> Result<(&str, &str), Stop>
    ensures word { Gives (λ found. (found.0.now, words found.1.now)) result
        (needed_word (words text.now)) }
    ensures behind { IfOk result (λ found. found.1.now ≡ behind_word text.now) }
{
    match next_word(text) {
        Some((word, behind)) => Ok((word, behind)),
        None => Err(Stop::Fault(LineFault::UnknownCommand)),
    }
}

/// No word is left.
pub(crate) fn nothing_more(text: &str) -> Result<(), Stop>
    ensures { Gives (λ nothing. tt) result (nothing_more (words text.now)) }
{
    match next_word(text) {
        Some(_) => Err(Stop::Fault(LineFault::UnknownCommand)),
        None => Ok(()),
    }
}

/// The next word, which must be that text; what stands after it is given.
#[tactic(auto, unfolding(crate::specs::Says::needed_text))]
pub(crate) fn needed_text<'a>(text: &str, line: &'a str) -> Result<&'a str, Stop>
    ensures { Gives (λ behind. words behind.now) result (needed_text text.now (words line.now)) }
{
    let (word, behind) = needed_word(line)?;
    if is(word, text) {
        Ok(behind)
    } else {
        Err(Stop::Fault(LineFault::UnknownCommand))
    }
}
