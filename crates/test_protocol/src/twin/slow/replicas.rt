//! A replica as a list of what it keeps.
use crate::twin::stop::Stop;
use replica::{Reply, Request};
use std::alloc::Global;
use tag::{Key, Memory, ReplicaId, Tag, Value};

/// An equal value, or absent.
pub fn copied(value: &Option<Value>) -> Result<Option<Value>, Stop> {
    match value {
        None => Ok(None),
        Some(value) => Ok(Some(value.copy()?)),
    }
}

/// The tag and the value of a key that somebody wrote.
#[derive(Drop)]
pub struct Entry {
    key: Key,
    tag: Tag,
    value: Option<Value>,
}

/// A replica, up or down, with an entry for each key that somebody wrote.
#[derive(Drop)]
pub struct SlowReplica {
    pub number: ReplicaId,
    pub is_up: bool,
    entries: Vec<Entry>,
}

impl SlowReplica {
    /// An empty one that is up.
    pub fn new(alloc: Global, number: ReplicaId) -> SlowReplica {
        SlowReplica {
            number,
            is_up: true,
            entries: Vec::new(alloc),
        }
    }

    /// The entry of a key, if somebody wrote it.
    fn entry(&self, key: &Key) -> Option<&Entry> {
        self.entries.iter().find(|entry| entry.key == *key)
    }

    /// The tag of a key: the least where nobody wrote it.
    fn tag_of(&self, key: &Key) -> Tag {
        match self.entry(key) {
            Some(entry) => entry.tag,
            None => Tag::least(),
        }
    }

    /// The value of a key: absent where nobody wrote it.
    fn value_of(&self, key: &Key) -> Result<Option<Value>, Stop> {
        match self.entry(key) {
            Some(entry) => copied(&entry.value),
            None => Ok(None),
        }
    }

    /// An entry of a key that nobody wrote before.
    fn add(&mut self, key: &Key, tag: Tag, value: Option<Value>) -> Result<(), Stop> {
        match key.copy() {
            Ok(key) => Ok(self.entries.push(Entry { key, tag, value })?),
            Err(Memory) => Err(Stop::Memory),
        }
    }

    /// A pair is the key's own from now on.
    fn keep(&mut self, key: &Key, tag: Tag, value: Option<Value>) -> Result<(), Stop> {
        for entry in &mut self.entries {
            if entry.key == *key {
                entry.tag = tag;
                entry.value = value;
                return Ok(());
            }
        }
        self.add(key, tag, value)
    }

    /// A pair is adopted where its tag is above that of the key's own.
    fn adopt(&mut self, key: &Key, tag: Tag, value: &Option<Value>) -> Result<(), Stop> {
        if tag <= self.tag_of(key) {
            return Ok(());
        }
        let value = copied(value)?;
        self.keep(key, tag, value)
    }

    /// What it answers to a request, which it carries out.
    pub fn answer(&mut self, request: &Request) -> Result<Reply, Stop> {
        let replica = self.number;
        let (op, key) = match request {
            Request::Query { op, key } | Request::Put { op, key, .. } => (*op, key),
        };
        if let Request::Put { tag, value, .. } = request {
            self.adopt(key, *tag, value)?;
            return Ok(Reply::Kept { op, replica });
        }
        Ok(Reply::Held {
            op,
            replica,
            tag: self.tag_of(key),
            value: self.value_of(key)?,
        })
    }
}

/// So many of them, at most fifteen.
pub fn all(alloc: Global, count: usize) -> Result<Vec<SlowReplica>, Stop> {
    let mut replicas = Vec::new(alloc);
    for number in 0u8..15 {
        if let Some(name) = ReplicaId::new(number)
            && usize::from(number) < count
        {
            replicas.push(SlowReplica::new(alloc, name))?;
        }
    }
    Ok(replicas)
}
