//! Tags: a number and a writer's name.
ghost use Rattle.std.specs.Prelude.{◌≡◌, ◌<◌, ◌≤◌, ◌↔◌, IsSome, IfSome};
ghost use Rattle.std.specs.Ordering.{as_partial_cmp};
ghost use Rattle.std.specs.Cmp.{partial_order_from_own_ties};
ghost use Rattle.std.specs.Cmp.Rules.{comparing};
ghost use Rattle.std.proofs.Common.{rules};
ghost use Rattle.tag.specs.Limits.{call_limit, client_limit};
ghost use Rattle.tag.specs.Tags.{IsBelow, least, next_of, tag_cmp};

use crate::ClientId;
use std::cmp::Ordering;
use std::marker::Model;

/// A number and a writer's name, ordered by number, then by writer.
///
/// The number is 0 to 1,000,000 and the writer 0 to 65,535, where 0 stands for no writer: the
/// least tag is (0, 0).
#[derive(Clone, Copy, Debug, PartialEq, Eq, Hash)]
pub struct Tag {
    number: u32,
    writer: u32,
}

impl Model for Tag {
    ghost use Rattle.std.specs.Prelude.{◌≤◌};
    ghost use Rattle.tag.specs.Limits.{call_limit, client_limit};
    ghost use Rattle.tag.specs.Tags.{Tag};

    ghost Value = { Tag };

    ghost view = { λ t. record { number = t.number; writer = t.writer } };

    ghost invariant = { λ t. (t.number ≤ call_limit) × (t.writer ≤ client_limit) };

    ghost inverse = { λ t. record { number = t.number; writer = t.writer } };
}

impl Tag {
    /// The tag of that number and writer, or `None` above 1,000,000 or 65,535.
    pub fn new(number: u32, writer: u32) -> Option<Tag>
        ensures some { IsSome result ↔ ((number ≤ call_limit) × (writer ≤ client_limit)) }
        ensures value { IfSome result (λ tag. tag ≡ record { number = number; writer = writer }) }
    {
        if number <= 1_000_000 && writer <= 65535 {
            Some(Tag { number, writer })
        } else {
            None
        }
    }

    /// The least tag, (0, 0): that of a key which nobody wrote.
    pub fn least() -> Tag
        ensures { result ≡ least }
    {
        Tag {
            number: 0,
            writer: 0,
        }
    }

    /// The number.
    pub fn number(self) -> u32
        ensures number { result ≡ self.number }
        ensures most { result ≤ call_limit }
    {
        self.number
    }

    /// The writer's name, or 0.
    pub fn writer(self) -> u32
        ensures writer { result ≡ self.writer }
        ensures most { result ≤ client_limit }
    {
        self.writer
    }

    /// The tag that a write by the client takes after it found this one: the least of the
    /// client's that is above it in number.
    pub fn next(self, client: ClientId) -> Tag
        requires { self.number < call_limit }
        ensures value { result ≡ next_of self client }
        ensures above { IsBelow self result }
    {
        Tag {
            number: self.number + 1,
            writer: client.get(),
        }
    }
}

impl Ord for Tag {
    ghost cmp = { tag_cmp };

    ghost total = { Prim.search (comparing, rules) };

    ghost matches_partial_cmp = { Prim.search (comparing, rules) };

    ghost matches_eq = { Prim.search (comparing, rules) };

    fn cmp(&self, other: &Tag) -> Ordering {
        let by_number = self.number.cmp(&other.number);
        by_number.then(self.writer.cmp(&other.writer))
    }
}

impl PartialOrd for Tag {
    ghost partial_cmp = { as_partial_cmp tag_cmp };

    ghost laws = { partial_order_from_own_ties (Prim.search (comparing, rules)) (Prim.search (comparing, rules)) };

    fn partial_cmp(&self, other: &Tag) -> Option<Ordering> {
        Some(self.cmp(other))
    }
}
