//! The notes of a part's calls, which are judged rule by rule.
ghost use Rattle.std.specs.Prelude.{ℕ, ◌≡◌, ◌<◌, ◌≤◌, ◌+◌, ◌↔◌, IfOk, IfSome, MatchResult, MatchOption, Some, length};
ghost use Rattle.std.specs.Prelude.{slice_get};
ghost use Rattle.recorder.specs.declared.part.Call.{Call};
ghost use Rattle.recorder.specs.Parts.{IsSequence};
ghost use Rattle.tag_check.specs.Least.{IsFirstCall, IsFirstBefore, IsLeastCall, IsLeastPair, LacksCall};
ghost use Rattle.tag_check.specs.Least.{HasNoPair};
ghost use Rattle.tag_check.specs.Rules.{LacksNote, IsLeastWrite, ShareTag, IsNotAbove};
ghost use Rattle.tag_check.specs.Rules.{AnswersNoWrite, AllAnswerRight};
ghost use Rattle.tag_check.specs.Rules.{IsOtherValue, IsWriteOf, IsWriteWith};
ghost use Rattle.tag_check.specs.Answers.{IsAnswer};
ghost use Rattle.tag_check.specs.Writes.{AreEntries, AreNoted, AreWrites, HaveOwnTags};
ghost use Rattle.tag_check.specs.Writes.{HasNoEarlier, IsEarlierOf, IsIndexOf};
ghost use Rattle.tag_check.specs.Greatest.{AreAnsweredTags, IsBegunBy};

use crate::BrokenRule;
use crate::entries::{Entry, add_write, are_rising, first_place, sort_by_tag};
use crate::tags::{
    answers, falls, greater, is_least, is_least_write, is_not_above, is_same, lacks_note, read_tag,
    write_tag,
};
use recorder::{Call, Part, ValueRef};
use std::alloc::Global;
use tag::{Memory, OpId, Tag};

/// What a call answers, beside what its tag stands for.
enum Answer {
    /// What it stands for; or the call is no read, has no response or no note.
    Right,
    /// A read's tag isn't the least, and no write has it.
    NoWrite,
    /// Another value: the tag is that write's, or the least.
    Other(Option<OpId>),
}

/// The calls of a part, whose notes are judged.
#[derive(Drop)]
pub struct Notes<'a> {
    part: &'a Part<'a>,
    ghost sequence: { IsSequence part.now },
}

impl<'a> Notes<'a> {
    ghost use Rattle.tag_check.specs.Verdicts.{IsTagVerdict};

    /// The notes of these calls.
    pub(crate) fn new(part: &'a Part<'a>) -> Notes<'a>
        ensures { result.part.now ≡ part.now }
    {
        let _sequence = part.len();
        Notes { part }
    }

    /// The first rule that is broken, if any.
    pub(crate) fn broken_rule(&self, alloc: Global) -> Result<Option<BrokenRule>, Memory>
        ensures { IfOk result (λ broken. IsTagVerdict self.now.part.now broken) }
    {
        let noted = match self.noted_writes(alloc)? {
            Ok(noted) => noted,
            Err(rule) => return Ok(Some(rule)),
        };
        let writes = match self.by_tag(noted) {
            Ok(writes) => writes,
            Err((earlier, later)) => return Ok(Some(BrokenRule::SameTag(earlier, later))),
        };
        if let Some((earlier, later)) = self.first_not_above(alloc)? {
            return Ok(Some(BrokenRule::NotAbove(earlier, later)));
        }
        let other = match self.first_other_value(writes.as_slice()) {
            Ok(other) => other,
            Err(read) => return Ok(Some(BrokenRule::NoWrite(read))),
        };
        if let Some((read, write)) = other {
            return Ok(Some(BrokenRule::OtherValue(read, write)));
        }
        Ok(None)
    }

    /// The entries of the noted writes; or rule 1 or 2, if it is the first that is broken.
    fn noted_writes(&self, alloc: Global) -> Result<Result<Vec<Entry>, BrokenRule>, Memory>
        ensures { IfOk result
            (λ answer. MatchResult answer
            (λ noted. LacksCall self.now.part.now LacksNote
            × LacksCall self.now.part.now IsLeastWrite
            × AreNoted self.now.part.now (length self.now.part.now) noted.items)
            (λ rule. IsTagVerdict self.now.part.now (Some rule))) }
    {
        let mut noted = Vec::new(alloc);
        let mut least = None;
        for i in 0..self.part.len() {
            let call = self.part.call(i);
            if lacks_note(&call) {
                return Ok(Err(BrokenRule::NoNote(call.op)));
            }
            least = self.first_least_write(i, least);
            add_write(&mut noted, &call, i)?;
        }
        match least {
            Some(write) => Ok(Err(BrokenRule::LeastTag(write))),
            None => Ok(Ok(noted)),
        }
    }

    /// The first write that is noted with the least tag, up to index `i`, if `least` is that before it.
    fn first_least_write(&self, i: usize, least: Option<OpId>) -> Option<OpId>
        requires inside { i < length self.now.part.now }
        requires before { IsFirstBefore self.now.part.now IsLeastWrite i least }
        ensures { IsFirstBefore self.now.part.now IsLeastWrite (i + 1) result }
    {
        if least.is_some() {
            return least;
        }
        let call = self.part.call(i);
        if is_least_write(&call) {
            Some(call.op)
        } else {
            None
        }
    }

    /// The entries by tag; or the first write whose tag an earlier one has, after that one.
    fn by_tag(&self, mut noted: Vec<Entry>) -> Result<Vec<Entry>, (OpId, OpId)>
        requires { AreNoted self.now.part.now (length self.now.part.now) noted.items }
        ensures { MatchResult result
            (λ writes. AreWrites self.now.part.now writes.items)
            (λ pair. IsLeastPair self.now.part.now ShareTag pair.0 pair.1) }
    {
        sort_by_tag(&mut noted);
        if are_rising(noted.as_slice()) {
            return Ok(noted);
        }
        match self.first_shared(noted.as_slice()) {
            Some(pair) => Err(pair),
            None => Ok(noted),
        }
    }

    /// The first write whose tag an earlier one has, after that one.
    fn first_shared(&self, noted: &[Entry]) -> Option<(OpId, OpId)>
        requires { AreEntries self.now.part.now noted.now }
        ensures { MatchOption result (HaveOwnTags self.now.part.now)
            (λ pair. IsLeastPair self.now.part.now ShareTag pair.0 pair.1) }
    {
        for i in 0..self.part.len() {
            let call = self.part.call(i);
            if let Some(k) = self.earlier_of_tag(noted, &call, i) {
                return Some((self.part.call(k).op, call.op));
            }
        }
        None
    }

    /// The index of the first write with the call's tag, if the call is a write and that one stands
    /// before index `i`.
    fn earlier_of_tag(&self, noted: &[Entry], call: &Call<'_>, i: usize) -> Option<usize>
        requires { AreEntries self.now.part.now noted.now }
        ensures { MatchOption result (HasNoEarlier self.now.part.now call.now i)
            (λ k. IsEarlierOf self.now.part.now call.now i k) }
    {
        let tag = write_tag(call)?;
        let k = self.index_of(noted, tag, 0)?;
        if k < i { Some(k) } else { None }
    }

    /// How many calls began at that place of the history or before it, looked for from `near` on.
    fn begun_by(&self, place: usize, near: usize) -> usize
        ensures most { result ≤ length self.now.part.now }
        ensures begun { IsBegunBy self.now.part.now place result }
    {
        match self.begun_near(place, near, 4) {
            Some(begun) => begun,
            None => self.begun_later(place, near),
        }
    }

    /// The same, where it is no number close to `near`.
    fn begun_later(&self, place: usize, near: usize) -> usize
        ensures most { result ≤ length self.now.part.now }
        ensures begun { IsBegunBy self.now.part.now place result }
    {
        match self.begun_near(place, near, 128) {
            Some(begun) => begun,
            None => self.begun_within(place, 0, self.part.len()),
        }
    }

    /// The same, if it is `near` or one of so many numbers after it.
    fn begun_near(&self, place: usize, near: usize, many: usize) -> Option<usize>
        ensures most { IfSome result (λ begun. begun ≤ length self.now.part.now) }
        ensures begun { IfSome result (λ begun. IsBegunBy self.now.part.now place begun) }
    {
        let end = self.part.len().min(near.saturating_add(many));
        let start = near.min(end);
        let next = self.begun_within(place, start, end);
        if next == 0 || next >= self.part.len() {
            return None;
        }
        let before = self.part.state(next - 1).invoked as usize;
        let after = self.part.state(next).invoked as usize;
        if before <= place && place < after {
            Some(next)
        } else {
            None
        }
    }

    /// How many calls began at that place or before it, where it is `low` at least and `high` at most.
    fn begun_within(&self, place: usize, mut low: usize, mut high: usize) -> usize
        requires order { low ≤ high }
        requires inside { high ≤ length self.now.part.now }
        ensures most { result ≤ high }
        ensures begun { (j : ℕ) (call : Call) → low ≤ j → j < high
            → slice_get self.now.part.now j ≡ Some call → (j < result) ↔ (call.invoked ≤ place) }
    {
        'halves: while low < high {
            let middle = low + (high - low) / 2;
            let invoked = self.part.state(middle).invoked as usize;
            if invoked <= place {
                low = middle + 1;
            } else {
                high = middle;
            }
        }
        low
    }

    /// Beside each call the greatest tag of the calls that were answered before it began, and not
    /// before an earlier call did.
    fn answered_tags(&self, alloc: Global) -> Result<Vec<Option<Tag>>, Memory>
        ensures { IfOk result
            (λ tags. AreAnsweredTags self.now.part.now (length self.now.part.now) tags.items) }
    {
        let mut tags = vec![in alloc; None; self.part.len()]?;
        for i in 0..self.part.len() {
            let state = self.part.state(i);
            if let Some(place) = state.response {
                let next = self.begun_by(place as usize, i + 1);
                if next < tags.len() {
                    tags[next] = greater(tags[next], state.note);
                }
            }
        }
        Ok(tags)
    }

    /// The first call that may not follow one that was answered before it began, after the first
    /// such earlier call.
    fn first_not_above(&self, alloc: Global) -> Result<Option<(OpId, OpId)>, Memory>
        ensures { IfOk result
            (λ pair. MatchOption pair
            (HasNoPair self.now.part.now IsNotAbove)
            (λ pair. IsLeastPair self.now.part.now IsNotAbove pair.0 pair.1)) }
    {
        let tags = self.answered_tags(alloc)?;
        Ok(self.first_fall(tags.as_slice()))
    }

    /// The same, with the tags of what was answered before each call.
    fn first_fall(&self, tags: &[Option<Tag>]) -> Option<(OpId, OpId)>
        requires { AreAnsweredTags self.now.part.now (length self.now.part.now) tags.now }
        ensures { MatchOption result
            (HasNoPair self.now.part.now IsNotAbove)
            (λ pair. IsLeastPair self.now.part.now IsNotAbove pair.0 pair.1) }
    {
        let mut greatest: Option<Tag> = None;
        for j in 0..self.part.len() {
            let call = self.part.call(j);
            greatest = greater(greatest, tags[j]);
            if falls(&call, &greatest) {
                match self.first_above(&call) {
                    Some(earlier) => return Some((earlier, call.op)),
                    None => unreachable!(),
                }
            }
        }
        None
    }

    /// The first call that was answered before that one began, and that it isn't above.
    fn first_above(&self, later: &Call<'_>) -> Option<OpId>
        ensures { IsFirstCall self.now.part.now (λ earlier. IsNotAbove earlier later.now) result }
    {
        for i in 0..self.part.len() {
            let call = self.part.call(i);
            if is_not_above(&call, later) {
                return Some(call.op);
            }
        }
        None
    }

    /// The first read that answers another value than its tag stands for, and the write of that
    /// tag, if the tag isn't the least; or `Err` with the first read that answers under a tag which
    /// no write has, if any.
    fn first_other_value(&self, writes: &[Entry]) -> Result<Option<(OpId, Option<OpId>)>, OpId>
        requires { AreWrites self.now.part.now writes.now }
        ensures { MatchResult result
            (λ other. LacksCall self.now.part.now (AnswersNoWrite self.now.part.now)
            × MatchOption other (AllAnswerRight self.now.part.now)
            (λ other. IsOtherValue self.now.part.now other.0 other.1))
            (λ read. IsLeastCall self.now.part.now (AnswersNoWrite self.now.part.now) read) }
    {
        let mut other = None;
        let mut begun: usize = 0;
        for i in 0..self.part.len() {
            let call = self.part.call(i);
            begun = begun.saturating_add(usize::from(write_tag(&call).is_some()));
            match self.answer(writes, &call, begun) {
                Answer::Right => {}
                Answer::NoWrite => return Err(call.op),
                Answer::Other(write) => {
                    if other.is_none() {
                        other = Some((call.op, write));
                    }
                }
            }
        }
        Ok(other)
    }

    /// What the call answers, beside what its tag stands for; the entry of its write is looked for near
    /// that place first.
    fn answer(&self, writes: &[Entry], call: &Call<'_>, near: usize) -> Answer
        requires { AreWrites self.now.part.now writes.now }
        ensures { IsAnswer self.now.part.now call.now result }
    {
        let Some(response) = &call.response else {
            return Answer::Right;
        };
        let Some(tag) = read_tag(call) else {
            return Answer::Right;
        };
        if is_least(tag) {
            return if answers(&response.returned, &None) {
                Answer::Right
            } else {
                Answer::Other(None)
            };
        }
        let Some((write, value)) = self.write_of(writes, tag, near) else {
            return Answer::NoWrite;
        };
        if answers(&response.returned, &Some(value)) {
            Answer::Right
        } else {
            Answer::Other(Some(write))
        }
    }

    /// The index of the first write that is noted with the tag, whose entry is looked for near that
    /// place first.
    fn index_of(&self, writes: &[Entry], tag: Tag, near: usize) -> Option<usize>
        requires { AreEntries self.now.part.now writes.now }
        ensures { IsIndexOf self.now.part.now tag result }
    {
        let place = first_place(writes, tag, near);
        let (noted, index) = *writes.get(place)?;
        if is_same(noted, tag) {
            Some(index)
        } else {
            None
        }
    }

    /// The write that is noted with the tag, and its value.
    fn write_of(&self, writes: &[Entry], tag: Tag, near: usize) -> Option<(OpId, ValueRef<'a>)>
        requires { AreWrites self.now.part.now writes.now }
        ensures { MatchOption result (LacksCall self.now.part.now (λ write. IsWriteOf write tag))
            (λ found. IsWriteWith self.now.part.now tag found.0 found.1) }
    {
        let k = self.index_of(writes, tag, near)?;
        let call = self.part.call(k);
        let value = call.action.written()?;
        Some((call.op, value))
    }
}
