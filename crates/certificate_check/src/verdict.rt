//! What a check answers.
ghost use Rattle.std.specs.Prelude.{◌≡◌, ◌++◌, [], decimal, IfNone, IfSome};
ghost use Rattle.certificate_check.specs.Numbers.{order_fault_number};
ghost use Rattle.certificate_check.specs.Texts.{fault_text, rest_text, verdict_word};

use std::fmt;
use tag::OpId;

/// What is wrong with an order: the lowest fault, in this order, that applies. Places are counted
/// from 0.
#[derive(Clone, Copy, Debug, PartialEq, Eq)]
pub enum Fault {
    /// The call at that place isn't in the part; the least such place.
    UnknownCall(usize),
    /// The call at that place stands at an earlier place too; the least such place.
    CallTwice(usize),
    /// That completed call isn't listed; the least such call.
    MissingCall(OpId),
    /// The call at that place is a pending read; the least such place.
    PendingRead(usize),
    /// The read at that place answers another value than the last write before it wrote, or a
    /// value where there is none; the least such place.
    WrongAnswer(usize),
    /// The call at the second place has its response before the invocation of the call at the
    /// first, which stands before it; the least second place, and for it the least first.
    OrderBroken(usize, usize),
}

/// Whether a list is an order of a part.
#[derive(Clone, Copy, Debug, PartialEq, Eq)]
pub enum Verdict {
    Yes,
    No(Fault),
}

impl Fault {
    /// Its number in the order of the faults, 1 to 6. Its text begins with it.
    pub fn number(self) -> u8
        ensures { result ≡ order_fault_number self }
    {
        match self {
            Fault::UnknownCall(_) => 1,
            Fault::CallTwice(_) => 2,
            Fault::MissingCall(_) => 3,
            Fault::PendingRead(_) => 4,
            Fault::WrongAnswer(_) => 5,
            Fault::OrderBroken(_, _) => 6,
        }
    }

    /// The words that its text begins with, and the number after them.
    pub fn beginning(self) -> (&'static str, u64)
        ensures { fault_text self ≡ result.0.now ++ decimal result.1 ++ rest_text self }
    {
        match self {
            Fault::UnknownCall(i) => ("1 unknown call at ", i as u64),
            Fault::CallTwice(i) => ("2 call twice at ", i as u64),
            Fault::MissingCall(op) => ("3 missing call ", u64::from(op.0)),
            Fault::PendingRead(i) => ("4 pending read at ", i as u64),
            Fault::WrongAnswer(i) => ("5 wrong answer at ", i as u64),
            Fault::OrderBroken(i, _) => ("6 order broken at ", i as u64),
        }
    }

    /// What its text has after that, if anything: words, and a number after them.
    pub fn rest(self) -> Option<(&'static str, u64)>
        ensures some { IfSome result (λ rest. rest_text self ≡ rest.0.now ++ decimal rest.1) }
        ensures none { IfNone result (rest_text self ≡ []) }
    {
        match self {
            Fault::OrderBroken(_, j) => Some((" and ", j as u64)),
            _ => None,
        }
    }
}

impl Verdict {
    /// Its first word; of a no, the fault's text follows.
    pub fn word(self) -> &'static str
        ensures { result.now ≡ verdict_word self }
    {
        match self {
            Verdict::Yes => "yes",
            Verdict::No(_) => "no ",
        }
    }
}

impl fmt::Display for Fault {
    fn fmt<W: fmt::Write>(&self, f: &mut fmt::Formatter<W>) -> fmt::Result {
        let (words, number) = self.beginning();
        write!(f, "{words}{number}")?;
        match self.rest() {
            Some((words, number)) => write!(f, "{words}{number}"),
            None => Ok(()),
        }
    }
}

impl fmt::Display for Verdict {
    fn fmt<W: fmt::Write>(&self, f: &mut fmt::Formatter<W>) -> fmt::Result {
        let word = self.word();
        write!(f, "{word}")?;
        match self {
            Verdict::Yes => Ok(()),
            Verdict::No(fault) => write!(f, "{fault}"),
        }
    }
}
