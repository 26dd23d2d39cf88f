//! What is said at the end: how many calls on how many keys, and how many of these are refused.
ghost use Rattle.std.specs.Prelude.{◌≡◌, ◌++◌, OnOk};
ghost use Rattle.monitor_sentences.specs.Counts.{calls_words, count_members, end_line, end_object};
ghost use Rattle.monitor_sentences.specs.Counts.{group_text, grouped, keys_words, some_of};
ghost use Rattle.monitor_sentences.specs.Counts.{verdict_member, whole_of};

use crate::pieces::{Piece, say};
use sentences::{append, append_number};
use tag::Memory;

/// How many keys a monitor saw, how many of these it refused, and how many it couldn't decide; and how many calls.
#[derive(Clone, Copy, Debug, PartialEq, Eq)]
pub struct Counts {
    pub refused: u64,
    pub doubtful: u64,
    pub keys: u64,
    pub calls: u64,
}

/// Adds the last three digits of the number, after a comma.
fn append_group(text: &mut Vec<u8>, number: u64) -> Result<(), Memory>
    ensures { OnOk result (text.new.items ≡ text.old.items ++ group_text number) }
{
    append(text, ",")?;
    text.push(b'0' + (number / 100 % 10) as u8)?;
    text.push(b'0' + (number / 10 % 10) as u8)?;
    text.push(b'0' + (number % 10) as u8)?;
    Ok(())
}

/// Adds the words and the number, with a comma before each three digits of its last nine.
fn append_grouped(text: &mut Vec<u8>, words: &str, number: u64) -> Result<(), Memory>
    ensures { OnOk result (text.new.items ≡ text.old.items ++ (words.now ++ grouped number)) }
{
    if number < 1000 {
        return append_number(text, words, number);
    }
    if number < 1_000_000 {
        append_number(text, words, number / 1000)?;
        return append_group(text, number);
    }
    if number < 1_000_000_000 {
        append_number(text, words, number / 1_000_000)?;
        append_group(text, number / 1000)?;
        return append_group(text, number);
    }
    append_number(text, words, number / 1_000_000_000)?;
    append_group(text, number / 1_000_000)?;
    append_group(text, number / 1000)?;
    append_group(text, number)
}

/// Adds how many calls.
fn append_calls(text: &mut Vec<u8>, words: &str, calls: u64) -> Result<(), Memory>
    ensures { OnOk result (text.new.items ≡ text.old.items ++ (words.now ++ calls_words calls)) }
{
    append_grouped(text, words, calls)?;
    append(text, if calls == 1 { " call" } else { " calls" })
}

/// Adds how many keys.
fn append_keys(text: &mut Vec<u8>, words: &str, keys: u64) -> Result<(), Memory>
    ensures { OnOk result (text.new.items ≡ text.old.items ++ (words.now ++ keys_words keys)) }
{
    append_grouped(text, words, keys)?;
    append(text, if keys == 1 { " key" } else { " keys" })
}

/// Adds how many of the keys those are, and how many calls.
fn append_some(text: &mut Vec<u8>, words: &str, some: u64, counts: Counts) -> Result<(), Memory>
    ensures { OnOk result
        (text.new.items ≡ text.old.items ++ (words.now ++ some_of some counts)) }
{
    append_grouped(text, words, some)?;
    append_keys(text, " of ", counts.keys)?;
    append_calls(text, "; ", counts.calls)?;
    append(text, "\n")
}

/// What is found of all keys together.
#[derive(Clone, Copy, Debug, PartialEq, Eq)]
pub enum Whole {
    /// Each key is atomic.
    Atomic,
    /// A key is refused.
    NotAtomic,
    /// No key is refused, and one isn't decided.
    NotDecided,
}

impl Counts {
    /// What is found of all keys together.
    pub fn whole(self) -> Whole
        ensures { result ≡ whole_of self }
    {
        if self.refused > 0 {
            Whole::NotAtomic
        } else if self.doubtful > 0 {
            Whole::NotDecided
        } else {
            Whole::Atomic
        }
    }
}

/// Says what is found of all keys, and how many calls on how many keys there were.
fn append_whole(text: &mut Vec<u8>, whole: Whole, counts: Counts) -> Result<(), Memory>
    ensures { OnOk result (text.new.items ≡ text.old.items ++ end_line counts whole) }
{
    match whole {
        Whole::NotAtomic => append_some(text, "not atomic: ", counts.refused, counts),
        Whole::NotDecided => append_some(text, "not decided: ", counts.doubtful, counts),
        Whole::Atomic => {
            append_calls(text, "atomic: ", counts.calls)?;
            append_keys(text, " on ", counts.keys)?;
            append(text, "\n")
        }
    }
}

/// Says at the end whether the keys are atomic, and how many calls on how many keys there were.
pub fn append_end(text: &mut Vec<u8>, counts: Counts) -> Result<(), Memory>
    ensures { OnOk result (text.new.items ≡ text.old.items ++ end_line counts (whole_of counts)) }
{
    append_whole(text, counts.whole(), counts)
}

/// Adds the verdict on all keys as the first member.
#[tactic(auto, unfolding(crate::specs::Counts::verdict_member))]
fn append_verdict(text: &mut Vec<u8>, whole: Whole) -> Result<(), Memory>
    ensures { OnOk result (text.new.items ≡ text.old.items ++ verdict_member whole) }
{
    append(
        text,
        match whole {
            Whole::NotAtomic => "{\"verdict\":\"not atomic\"",
            Whole::NotDecided => "{\"verdict\":\"not decided\"",
            Whole::Atomic => "{\"verdict\":\"atomic\"",
        },
    )
}

/// Adds the counts as members.
#[tactic(auto, unfolding(crate::specs::Counts::count_members))]
fn append_count_members(text: &mut Vec<u8>, counts: Counts) -> Result<(), Memory>
    ensures { OnOk result (text.new.items ≡ text.old.items ++ count_members counts) }
{
    let pieces = [
        Piece::Number(",\"refused\":", counts.refused),
        Piece::Number(",\"doubtful\":", counts.doubtful),
        Piece::Number(",\"keys\":", counts.keys),
        Piece::Number(",\"calls\":", counts.calls),
        Piece::Words("}\n"),
    ];
    say(text, &pieces)
}

/// The same as an object of JSON.
pub fn append_end_object(text: &mut Vec<u8>, counts: Counts) -> Result<(), Memory>
    ensures { OnOk result (text.new.items ≡ text.old.items ++ end_object counts (whole_of counts)) }
{
    append_verdict(text, counts.whole())?;
    append_count_members(text, counts)
}
