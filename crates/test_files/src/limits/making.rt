//! How the record is made.
use recorder::{History, RowRefusal};
use std::alloc::{AllocError, Global};
use tag::{Action, ClientId, Key, OpId, Returned, Tag, Value};

/// How many calls there may be.
pub const CALLS: u32 = 1_000_000;

/// How many keys they are on, in turn.
pub const KEYS: u32 = 16;

/// How many clients make them, in turn.
const CLIENTS: u32 = 250;

/// The words, and then the number.
fn numbered(alloc: Global, words: &str, number: u32) -> Result<String, AllocError> {
    let mut text = String::from_str(alloc, words)?;
    write!(text, "{number}")?;
    Ok(text)
}

/// A call of the record: its number says all of it.
#[derive(Clone, Copy)]
struct Made(u32);

impl Made {
    /// Which of its key's calls it is.
    fn round(self) -> u32 {
        self.0 / KEYS
    }

    /// Writes and reads take turns.
    fn is_write(self) -> bool {
        self.round() % 2 == 0
    }

    /// The client.
    fn client(self) -> Option<ClientId> {
        ClientId::new(1 + self.0 % CLIENTS).ok()
    }

    /// The key.
    fn key(self, alloc: Global) -> Option<Key> {
        let name = numbered(alloc, "key-", self.0 % KEYS).ok()?;
        Key::new(alloc, name.as_str()).ok()
    }

    /// The value that it writes, or that the write before it on its key wrote.
    fn value(self, alloc: Global) -> Option<Value> {
        let text = numbered(alloc, "value ", self.round() / 2).ok()?;
        Value::new(alloc, text.as_str()).ok()
    }

    /// The tag: the write's number, by one writer.
    fn tag(self) -> Option<Tag> {
        Tag::new(1 + self.round() / 2, 1)
    }

    /// What it does.
    fn action(self, alloc: Global) -> Option<Action> {
        if self.is_write() {
            Some(Action::Write(self.value(alloc)?))
        } else {
            Some(Action::Read)
        }
    }

    /// What it is answered.
    fn returned(self, alloc: Global) -> Option<Returned> {
        if self.is_write() {
            Some(Returned::Written)
        } else {
            Some(Returned::Value(Some(self.value(alloc)?)))
        }
    }
}

/// Begins the call.
fn begin(alloc: Global, history: &mut History, made: Made) -> Option<OpId> {
    let (client, key) = (made.client()?, made.key(alloc)?);
    match made.action(alloc) {
        Some(action) => history.invoke(client, key, action).ok(),
        None => None,
    }
}

/// Adds the call, its note and its response.
fn add(alloc: Global, history: &mut History, made: Made) -> Option<()> {
    let op = begin(alloc, history, made)?;
    history.note(op, made.tag()?).ok()?;
    history.respond(op, made.returned(alloc)?).ok()
}

/// A record of as many calls as there may be, each with its note and its response.
pub fn whole_record(alloc: Global) -> Option<History> {
    let mut history = History::new(alloc, CALLS);
    for number in 0..CALLS {
        add(alloc, &mut history, Made(number))?;
    }
    Some(history)
}

/// Why the record takes no further call.
pub fn one_call_more(alloc: Global, history: &mut History) -> Option<RowRefusal> {
    let made = Made(CALLS);
    history
        .invoke(made.client()?, made.key(alloc)?, Action::Read)
        .err()
}
