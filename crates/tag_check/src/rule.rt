//! What a check answers.
ghost use Rattle.std.specs.Prelude.{◌≡◌, Some};
ghost use Rattle.tag_check.specs.Numbers.{broken_rule_number};
ghost use Rattle.tag_check.specs.Texts.{broken_rule_text};

use std::fmt;
use tag::OpId;

/// The first rule of sound tags, in this order, that a part's notes break. Where several calls
/// break it, the call with the least number is named, and of the calls that break it with that one
/// again the least.
#[derive(Clone, Copy, Debug, PartialEq, Eq)]
pub enum BrokenRule {
    /// The completed call has no note.
    NoNote(OpId),
    /// The write is noted with the least tag, (0, 0).
    LeastTag(OpId),
    /// The two writes are noted with one tag; the second is the later one, by number.
    SameTag(OpId, OpId),
    /// The second call began after the first was answered, and is noted below it, or, as a write,
    /// not above it.
    NotAbove(OpId, OpId),
    /// The read has its response, and is noted with a tag that isn't the least and that no write is
    /// noted with.
    NoWrite(OpId),
    /// The read answers another value than the write that is noted with its tag wrote; without a
    /// write, it is noted with the least tag, and answers a value.
    OtherValue(OpId, Option<OpId>),
}

impl BrokenRule {
    /// Its number in the order of the rules, 1 to 6. Its text begins with it.
    pub fn number(self) -> u8
        ensures { result ≡ broken_rule_number self }
    {
        match self {
            BrokenRule::NoNote(_) => 1,
            BrokenRule::LeastTag(_) => 2,
            BrokenRule::SameTag(_, _) => 3,
            BrokenRule::NotAbove(_, _) => 4,
            BrokenRule::NoWrite(_) => 5,
            BrokenRule::OtherValue(_, _) => 6,
        }
    }
}

impl fmt::Display for BrokenRule {
    ghost output = { λ rule. Some (broken_rule_text rule) };

    fn fmt<W: fmt::Write>(&self, f: &mut fmt::Formatter<W>) -> fmt::Result {
        match self {
            BrokenRule::NoNote(call) => {
                let call = call.0;
                write!(f, "1 no note for call {call}")
            }
            BrokenRule::LeastTag(write) => {
                let write = write.0;
                write!(f, "2 least tag for write {write}")
            }
            BrokenRule::SameTag(earlier, later) => {
                let (earlier, later) = (earlier.0, later.0);
                write!(f, "3 one tag for writes {earlier} and {later}")
            }
            BrokenRule::NotAbove(earlier, later) => {
                let (earlier, later) = (earlier.0, later.0);
                write!(f, "4 call {later} noted too low after call {earlier}")
            }
            BrokenRule::NoWrite(read) => {
                let read = read.0;
                write!(f, "5 no write with the tag of read {read}")
            }
            BrokenRule::OtherValue(read, Some(write)) => {
                let (read, write) = (read.0, write.0);
                write!(f, "6 read {read} answers another value than write {write}")
            }
            BrokenRule::OtherValue(read, None) => {
                let read = read.0;
                write!(f, "6 read {read} answers a value with the least tag")
            }
        }
    }
}
