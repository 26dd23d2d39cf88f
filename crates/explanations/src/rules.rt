//! Rules of tags, as texts.
ghost use Rattle.std.specs.Prelude.{◌≡◌, ◌++◌, OnOk};
ghost use Rattle.explanations.specs.Sentences.{rule_text};

use crate::words::append_op;
use sentences::append;
use tag::Memory;
use tag_check::BrokenRule;

/// Says which rule is broken, with the numbers of the calls that break it.
pub fn append_rule(text: &mut Vec<u8>, rule: BrokenRule) -> Result<(), Memory>
    ensures { OnOk result (text.new.items ≡ text.old.items ++ rule_text rule) }
{
    match rule {
        BrokenRule::NoNote(call) => append_op(text, "1 no note for call ", call),
        BrokenRule::LeastTag(write) => append_op(text, "2 least tag for write ", write),
        BrokenRule::SameTag(earlier, later) => {
            append_op(text, "3 one tag for writes ", earlier)?;
            append_op(text, " and ", later)
        }
        BrokenRule::NotAbove(earlier, later) => {
            append_op(text, "4 call ", later)?;
            append_op(text, " noted too low after call ", earlier)
        }
        BrokenRule::NoWrite(read) => append_op(text, "5 no write with the tag of read ", read),
        BrokenRule::OtherValue(read, write) => {
            append_op(text, "6 read ", read)?;
            match write {
                None => append(text, " answers a value with the least tag"),
                Some(write) => append_op(text, " answers another value than write ", write),
            }
        }
    }
}
