//! Why a part's tags aren't sound.
ghost use Rattle.recorder.specs.Parts.{IsSequence};
ghost use Rattle.tag_check.specs.Verdicts.{IsBroken};
ghost use Rattle.reasons.specs.TagReasons.{IsTagReason};

use crate::find::call_of;
use crate::unnoted::unnoted_writer;
use recorder::{Call, Part};
use tag::OpId;
use tag_check::BrokenRule;

/// Why a part's tags aren't sound: the calls that break the rule. `unnoted` is the first write that
/// the read may have read of those that have neither a response nor a note.
#[derive(Drop)]
pub enum TagReason<'h> {
    /// The completed call has no note.
    NoNote {
        call: Call<'h>,
    },
    /// The write is noted with the least tag, (0, 0).
    LeastTag {
        write: Call<'h>,
    },
    /// The two writes are noted with one tag; the second is the later one, by number.
    SameTag {
        earlier: Call<'h>,
        later: Call<'h>,
    },
    /// The later call began after the earlier one was answered, and is noted below it, or, as a
    /// write, not above it.
    NotAbove {
        earlier: Call<'h>,
        later: Call<'h>,
    },
    /// The read has its response, and is noted with a tag that isn't the least and that no write is
    /// noted with.
    NoWrite {
        read: Call<'h>,
        unnoted: Option<Call<'h>>,
    },
    /// The read answers another value than the write that is noted with its tag wrote; without a
    /// write, it is noted with the least tag, and answers a value.
    OtherValue {
        read: Call<'h>,
        write: Option<Call<'h>>,
        unnoted: Option<Call<'h>>,
    },
}

/// The read whose tag no write is noted with, and the write without a note that it may have read.
fn no_write<'h>(part: &Part<'h>, read: OpId) -> TagReason<'h>
    requires broken { IsBroken part.now (BrokenRule.NoWrite read) }
    requires sequence { IsSequence part.now }
    ensures { IsTagReason part.now (BrokenRule.NoWrite read) result }
{
    let call = call_of(part, read);
    let unnoted = unnoted_writer(part, &call);
    TagReason::NoWrite {
        read: call,
        unnoted,
    }
}

/// The read that answers another value than the write that is noted with its tag wrote, if there is
/// one, and the write without a note that it may have read.
fn other_value<'h>(part: &Part<'h>, read: OpId, write: Option<OpId>) -> TagReason<'h>
    requires broken { IsBroken part.now (BrokenRule.OtherValue read write) }
    requires sequence { IsSequence part.now }
    ensures { IsTagReason part.now (BrokenRule.OtherValue read write) result }
{
    let call = call_of(part, read);
    let unnoted = unnoted_writer(part, &call);
    match write {
        None => TagReason::OtherValue {
            read: call,
            write: None,
            unnoted,
        },
        Some(write) => TagReason::OtherValue {
            read: call,
            write: Some(call_of(part, write)),
            unnoted,
        },
    }
}

/// The calls that break the rule, which is the verdict on the part's tags.
///
/// It takes time in proportion to the logarithm of the calls' count; of a read that answers no
/// noted write's value, to the calls that began before it was answered.
pub fn tag_reason<'h>(part: &Part<'h>, rule: BrokenRule) -> TagReason<'h>
    requires { IsBroken part.now rule }
    ensures { IsTagReason part.now rule result }
{
    let _sequence = part.len();
    match rule {
        BrokenRule::NoNote(call) => TagReason::NoNote {
            call: call_of(part, call),
        },
        BrokenRule::LeastTag(write) => TagReason::LeastTag {
            write: call_of(part, write),
        },
        BrokenRule::SameTag(earlier, later) => TagReason::SameTag {
            earlier: call_of(part, earlier),
            later: call_of(part, later),
        },
        BrokenRule::NotAbove(earlier, later) => TagReason::NotAbove {
            earlier: call_of(part, earlier),
            later: call_of(part, later),
        },
        BrokenRule::NoWrite(read) => no_write(part, read),
        BrokenRule::OtherValue(read, write) => other_value(part, read, write),
    }
}
