//! Numbers, and names and texts in their ranges.
ghost use Rattle.std.specs.Prelude.{◌≡◌, ◌≤◌, ◌+◌, ◌*◌, IfOk};
ghost use Rattle.std.specs.List.{list_all};
ghost use Rattle.std.specs.Char.{is_ascii_digit};
ghost use Rattle.fault_script.specs.Words.{is_numeral, u64_of, decimal_value, behind_word, number_of, words};
ghost use Rattle.counted_devices.specs.Answers.{Gives};
ghost use Rattle.fault_script.specs.Says.{needed_number, number_or, one_number, within};
ghost use Rattle.fault_script.specs.Says.{client_of, replica_of, flight_of, named, key_of, value_of};

use crate::LineFault;
use crate::fault::Stop;
use crate::words::{needed_word, next_word, nothing_more};
use std::alloc::Global;
use tag::{ClientId, Key, NameError, ReplicaId, Value};

fn has_digits(word: &[u8]) -> bool
    ensures { result ≡ list_all is_ascii_digit word.now }
{
    word.iter().all(|byte| byte.is_ascii_digit())
}

fn is_numeral(word: &[u8]) -> bool
    ensures { result ≡ is_numeral word.now }
{
    !word.is_empty() && has_digits(word)
}

/// The number with one digit more, below 2^64.
fn with_digit(number: u64, digit: u8) -> Option<u64>
    ensures { result ≡ u64_of (number * 10 + digit) }
{
    number.checked_mul(10)?.checked_add(u64::from(digit))
}

/// The number that the digits write, below 2^64.
fn decimal(digits: &[u8]) -> Option<u64>
    ensures { result ≡ u64_of (decimal_value digits.now) }
{
    let mut number = 0;
    for digit in digits {
        number = with_digit(number, digit.saturating_sub(b'0'))?;
    }
    Some(number)
}

/// The number that a word is, or `None` for one of 2^64 or more, which is in no range.
#[tactic(auto, unfolding(crate::specs::Words::number_of))]
pub(crate) fn number_of(word: &str) -> Result<Option<u64>, Stop>
    ensures { Gives (λ number. number) result (number_of word.now) }
{
    let digits = word.as_bytes();
    if is_numeral(digits) {
        Ok(decimal(digits))
    } else {
        Err(Stop::Fault(LineFault::UnknownCommand))
    }
}

/// The next word, which must be a number.
#[tactic(auto, unfolding(crate::specs::Says::needed_number))]
pub(crate) fn needed_number(text: &str) -> Result<(Option<u64>, &str), Stop>
    ensures number { Gives (λ found. (found.0, words found.1.now)) result
        (needed_number (words text.now)) }
    ensures behind { IfOk result (λ found. found.1.now ≡ behind_word text.now) }
{
    let (word, behind) = needed_word(text)?;
    let number = number_of(word)?;
    Ok((number, behind))
}

/// The next word, which must be a number; where there is none, that number.
#[tactic(auto, unfolding(crate::specs::Says::number_or))]
pub(crate) fn number_or(default: u64, text: &str) -> Result<(Option<u64>, &str), Stop>
    ensures { Gives (λ found. (found.0, words found.1.now)) result
        (number_or default (words text.now)) }
{
    if next_word(text).is_none() {
        return Ok((Some(default), text));
    }
    needed_number(text)
}

/// The one word of the text, which must be a number.
#[tactic(auto, unfolding(crate::specs::Says::one_number))]
pub(crate) fn one_number(text: &str) -> Result<Option<u64>, Stop>
    ensures { Gives (λ number. number) result (one_number (words text.now)) }
{
    let (number, behind) = needed_number(text)?;
    nothing_more(behind)?;
    Ok(number)
}

/// The number, which must be in that range.
#[tactic(auto, unfolding(crate::specs::Says::within))]
pub(crate) fn within(least: u64, most: u64, number: Option<u64>) -> Result<u64, Stop>
    ensures said { Gives (λ number. number) result (within least most number) }
    ensures least { IfOk result (λ number. least ≤ number) }
    ensures most { IfOk result (λ number. number ≤ most) }
{
    match number {
        Some(number) if number >= least && number <= most => Ok(number),
        _ => Err(Stop::Fault(LineFault::Range)),
    }
}

pub(crate) fn client_of(number: Option<u64>) -> Result<ClientId, Stop>
    ensures { Gives (λ client. client) result (client_of number) }
{
    let number = within(1, 65535, number)?;
    Ok(ClientId::new(number as u32).unwrap())
}

pub(crate) fn replica_of(number: Option<u64>) -> Result<ReplicaId, Stop>
    ensures { Gives (λ replica. replica) result (replica_of number) }
{
    let number = within(0, 14, number)?;
    Ok(ReplicaId::new(number as u8).unwrap())
}

pub(crate) fn flight_of(number: Option<u64>) -> Result<u32, Stop>
    ensures { Gives (λ flight. flight) result (flight_of number) }
{
    let number = within(0, 4_294_967_295, number)?;
    Ok(number as u32)
}

/// A name that was made of a word. A word of which none can be made is outside its range.
fn named<T>(made: Result<T, NameError>) -> Result<T, Stop>
    ensures { result ≡ named made }
{
    match made {
        Ok(name) => Ok(name),
        Err(NameError::Memory) => Err(Stop::Memory),
        Err(_) => Err(Stop::Fault(LineFault::Range)),
    }
}

pub(crate) fn key_of(alloc: Global, word: &str) -> Result<Key, Stop>
    ensures { Gives (λ key. key) result (key_of word.now) }
{
    named(Key::new(alloc, word))
}

pub(crate) fn value_of(alloc: Global, text: &str) -> Result<Value, Stop>
    ensures { Gives (λ value. value) result (value_of text.now) }
{
    named(Value::new(alloc, text))
}
