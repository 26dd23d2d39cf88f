//! A client as where it stands, its call, whom it counted and what it was told.
use super::replicas::copied;
use crate::twin::stop::Stop;
use client_phases::{Phase, ReadMode, Taken};
use replica::{Reply, Request};
use std::alloc::Global;
use tag::{Action, ClientId, Key, OpId, ReplicaId, Returned, Tag, Value};

/// The votes of each replica, how many end an asking and a putting, and how clients read.
#[derive(Drop)]
pub struct Rules {
    pub votes: Vec<u32>,
    pub ask: u32,
    pub put: u32,
    pub reads: ReadMode,
}

impl Rules {
    /// The votes of those replicas together.
    fn votes_of(&self, replicas: &[ReplicaId]) -> u32 {
        let mut sum = 0u32;
        for replica in replicas {
            if let Some(votes) = self.votes.get(usize::from(replica.get())) {
                sum = sum.saturating_add(*votes);
            }
        }
        sum
    }

    fn is_replica(&self, replica: ReplicaId) -> bool {
        usize::from(replica.get()) < self.votes.len()
    }
}

/// A call: its number, its key and what it asks.
#[derive(Drop)]
pub struct Call {
    op: OpId,
    key: Key,
    action: Action,
}

impl Call {
    fn new(op: OpId, key: &Key, action: &Action) -> Result<Call, Stop> {
        match (key.copy(), action.copy()) {
            (Ok(key), Ok(action)) => Ok(Call { op, key, action }),
            _ => Err(Stop::Memory),
        }
    }
}

/// A client: where it stands; its call, unless it is idle or stopped; the replicas that it counted in
/// this phase; the pair that it puts, or the one of the greatest tag that it was told; the least tag
/// that it was told.
#[derive(Drop)]
pub struct SlowClient {
    pub name: ClientId,
    pub phase: Phase,
    call: Option<Call>,
    counted: Vec<ReplicaId>,
    tag: Tag,
    value: Option<Value>,
    least: Tag,
}

impl SlowClient {
    /// An idle one.
    pub fn new(alloc: Global, name: ClientId) -> SlowClient {
        SlowClient {
            name,
            phase: Phase::Idle,
            call: None,
            counted: Vec::new(alloc),
            tag: Tag::least(),
            value: None,
            least: Tag::least(),
        }
    }

    /// It begins to ask: nobody is counted, and nothing was told.
    pub fn invoke(&mut self, op: OpId, key: &Key, action: &Action) -> Result<(), Stop> {
        self.call = Some(Call::new(op, key, action)?);
        self.phase = Phase::Ask;
        self.counted.clear();
        self.tag = Tag::least();
        self.value = None;
        self.least = Tag::least();
        Ok(())
    }

    fn call(&self) -> Result<&Call, Stop> {
        self.call.as_ref().ok_or(Stop::Call)
    }

    /// The put of its pair.
    fn put(&self, op: OpId, key: Key) -> Result<Request, Stop> {
        match copied(&self.value) {
            Ok(value) => Ok(Request::Put {
                op,
                key,
                tag: self.tag,
                value,
            }),
            Err(stop) => Err(stop),
        }
    }

    /// What it sends: a query while it asks, its pair while it puts.
    pub fn request(&self) -> Result<Request, Stop> {
        let call = self.call()?;
        let op = call.op;
        let key = call.key.copy()?;
        match self.phase {
            Phase::Ask => Ok(Request::Query { op, key }),
            Phase::Put => self.put(op, key),
            _ => Err(Stop::Call),
        }
    }

    /// The number of its call and its answer: a read's value, or that the write is done.
    pub fn answer(&self) -> Result<(OpId, Returned), Stop> {
        let call = self.call()?;
        match &call.action {
            Action::Read => Ok((call.op, Returned::Value(copied(&self.value)?))),
            Action::Write(_) => Ok((call.op, Returned::Written)),
        }
    }

    /// It has no call any more, and stands there.
    pub fn end(&mut self, phase: Phase) {
        self.call = None;
        self.phase = phase;
    }

    /// A reply counts where it names the call and comes from a replica that isn't counted yet and whose
    /// number is below the count of replicas.
    fn counts(&self, rules: &Rules, op: OpId, replica: ReplicaId) -> bool {
        match &self.call {
            None => false,
            Some(call) => {
                call.op == op && !self.counted.contains(&replica) && rules.is_replica(replica)
            }
        }
    }

    /// A pair that counts was told.
    fn told(
        &mut self,
        rules: &Rules,
        replica: ReplicaId,
        tag: Tag,
        value: &Option<Value>,
    ) -> Result<Taken, Stop> {
        self.learn(tag, value)?;
        self.counted.push(replica)?;
        self.asked(rules)
    }

    /// It makes of a reply what comes of it.
    pub fn hear(&mut self, rules: &Rules, reply: &Reply) -> Result<Taken, Stop> {
        let (phase, op, replica) = match reply {
            Reply::Held { op, replica, .. } => (Phase::Ask, *op, *replica),
            Reply::Kept { op, replica } => (Phase::Put, *op, *replica),
        };
        if self.phase != phase || !self.counts(rules, op, replica) {
            return Ok(Taken::Stale);
        }
        if let Reply::Held { tag, value, .. } = reply {
            return self.told(rules, replica, *tag, value);
        }
        self.counted.push(replica)?;
        Ok(self.kept(rules))
    }

    /// It was told a pair.
    fn learn(&mut self, tag: Tag, value: &Option<Value>) -> Result<(), Stop> {
        if self.counted.is_empty() || tag < self.least {
            self.least = tag;
        }
        if tag > self.tag {
            self.tag = tag;
            self.value = copied(value)?;
        }
        Ok(())
    }

    /// A short read's asking is enough: what it counted carried one tag, and came from a put quorum.
    fn is_agreed(&self, rules: &Rules, call: &Call) -> bool {
        rules.reads == ReadMode::Short
            && call.action == Action::Read
            && self.least == self.tag
            && rules.votes_of(&self.counted) >= rules.put
    }

    /// An asking is over with an ask quorum.
    fn asked(&mut self, rules: &Rules) -> Result<Taken, Stop> {
        if rules.votes_of(&self.counted) < rules.ask {
            return Ok(Taken::Counted);
        }
        if self.is_agreed(rules, self.call()?) {
            self.phase = Phase::Ready;
            return Ok(Taken::Agreed(self.tag));
        }
        self.choose()?;
        self.phase = Phase::Put;
        self.counted.clear();
        Ok(Taken::Noted(self.tag))
    }

    /// A read puts the pair that it found, a write its own value with the first of its tags above that.
    fn choose(&mut self) -> Result<(), Stop> {
        let value = match &self.call()?.action {
            Action::Read => return Ok(()),
            Action::Write(value) => value.copy()?,
        };
        let number = self.tag.number().saturating_add(1);
        self.tag = Tag::new(number, self.name.get()).ok_or(Stop::Tag)?;
        self.value = Some(value);
        Ok(())
    }

    /// A putting is over with a put quorum.
    fn kept(&mut self, rules: &Rules) -> Taken {
        if rules.votes_of(&self.counted) < rules.put {
            return Taken::Counted;
        }
        self.phase = Phase::Ready;
        Taken::Ready
    }
}
