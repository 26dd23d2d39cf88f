//! Words of a step.
use client_phases::ReadMode;
use quorum::ReplicaSet;
use std::alloc::Global;
use tag::{Action, ClientId, Key, OpId, ReplicaId, Tag, Value};
use test_rows::Answer;

/// The words of a step that aren't read yet, one space apart.
#[derive(Clone, Copy)]
pub struct Words<'a> {
    pub rest: &'a str,
}

impl<'a> Words<'a> {
    /// The next word; empty where none is left.
    pub fn word(&mut self) -> &'a str {
        let (word, rest) = self.rest.split_once(' ').unwrap_or((self.rest, ""));
        self.rest = rest;
        word
    }

    /// The next word as a number, also one of a tag as `(1, 2)`.
    pub fn number(&mut self) -> Option<u32> {
        let word = self.word();
        let word = word.strip_prefix('(').unwrap_or(word);
        let word = word.strip_suffix(',').unwrap_or(word);
        let word = word.strip_suffix(')').unwrap_or(word);
        word.parse::<u32>().ok()
    }

    pub fn small(&mut self) -> Option<u8> {
        u8::try_from(self.number()?).ok()
    }

    pub fn op(&mut self) -> Option<OpId> {
        Some(OpId(self.number()?))
    }

    pub fn client(&mut self) -> Option<ClientId> {
        ClientId::new(self.number()?).ok()
    }

    pub fn replica(&mut self) -> Option<ReplicaId> {
        ReplicaId::new(self.small()?)
    }

    pub fn tag(&mut self) -> Option<Tag> {
        let number = self.number()?;
        Tag::new(number, self.number()?)
    }

    pub fn key(&mut self, alloc: Global) -> Option<Key> {
        Key::new(alloc, self.word()).ok()
    }

    /// A value, where `""` is the empty one; none at `absent`.
    pub fn value(&mut self, alloc: Global) -> Option<Option<Value>> {
        match self.word() {
            "absent" => Some(None),
            "\"\"" => Some(Some(Value::new(alloc, "").ok()?)),
            text => Some(Some(Value::new(alloc, text).ok()?)),
        }
    }

    /// `read`, or `write` with the value.
    pub fn action(&mut self, alloc: Global, kind: &str) -> Option<Action> {
        if kind == "read" {
            return Some(Action::Read);
        }
        Some(Action::Write(self.value(alloc)??))
    }

    /// Replicas divided by commas; none at `-`.
    pub fn set(&mut self) -> ReplicaSet {
        let mut set = ReplicaSet::empty();
        for word in self.word().split(',') {
            let number = word.parse::<u8>().ok().and_then(ReplicaId::new);
            if let Some(replica) = number {
                set.add(replica);
            }
        }
        set
    }

    /// Votes divided by commas; none at `-`.
    pub fn votes(&mut self, out: &mut Answer) -> Vec<u8> {
        let mut votes = Vec::new(out.alloc());
        for word in self.word().split(',') {
            if let Ok(vote) = word.parse::<u8>() {
                if votes.push(vote).is_err() {
                    out.refuse();
                }
            }
        }
        votes
    }

    pub fn reads(&mut self) -> ReadMode {
        if self.word() == "short" {
            ReadMode::Short
        } else {
            ReadMode::Full
        }
    }
}
