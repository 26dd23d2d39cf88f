//! What a member of a line has to be.
ghost use Rattle.std.specs.Prelude.{◌≡◌, ◌++◌, ◌&&◌, nat_le, option_map, option_and_then, IfOk, OnOk};
ghost use Rattle.std.specs.List.{list_all};
ghost use Rattle.serde_json.specs.Find.{as_array, get};
ghost use Rattle.serde_json.specs.View.{view, items_view};
ghost use Rattle.file_format.specs.FileHeaders.{are_votes};
ghost use Rattle.file_format.specs.Members.{text_at, number_at, numbers_at, numbers_in};
ghost use Rattle.fault_details.specs.Demands.{allowed_text, are_calls, beside_ask_text};
ghost use Rattle.fault_details.specs.Demands.{first_failing, is_answer, is_between, is_text_allowed};
ghost use Rattle.fault_details.specs.Demands.{name_text, number_text, passes};

use crate::grouped::append_grouped;
use sentences::append;
use serde_json::Value;
use std::alloc::Global;
use tag::{Memory, is_key};

/// The name of a member.
#[derive(Clone, Copy, Debug, PartialEq, Eq)]
pub(crate) enum Name {
    Abd,
    Ask,
    Call,
    Client,
    Do,
    Hall,
    Halls,
    Key,
    Number,
    Order,
    Put,
    Row,
    Value,
    Version,
    Votes,
    Writer,
}

/// What a member may be.
#[derive(Clone, Copy, Debug, PartialEq, Eq)]
pub(crate) enum Allowed {
    /// A number between two.
    Number { least: u64, most: u64 },
    /// A quorum of votes that are out of range themselves.
    OfVotes,
    /// A put quorum of so many votes, beside an ask quorum that is out of range itself.
    BesideAsk { most: u64 },
    /// The text `history`.
    History,
    /// The text `orders`.
    Orders,
    /// The kind of a row.
    Row,
    /// What a call does.
    Action,
    /// A key.
    Key,
    /// A value that is written.
    Value,
    /// What a response answers.
    Answer,
    /// The votes of a store's replicas.
    Votes,
    /// The calls of an order.
    Calls,
}

/// What the member of that name has to be.
#[derive(Clone, Copy, Debug, PartialEq, Eq)]
pub(crate) struct Demand {
    pub(crate) name: Name,
    pub(crate) allowed: Allowed,
}

impl Name {
    /// The name.
    pub(crate) fn text(self) -> &'static str
        ensures { result.now ≡ name_text self }
    {
        match self {
            Name::Abd => "abd",
            Name::Ask => "ask",
            Name::Call => "call",
            Name::Client => "client",
            Name::Do => "do",
            Name::Hall => "hall",
            Name::Halls => "halls",
            Name::Key => "key",
            Name::Number => "number",
            Name::Order => "order",
            Name::Put => "put",
            Name::Row => "row",
            Name::Value => "value",
            Name::Version => "version",
            Name::Votes => "votes",
            Name::Writer => "writer",
        }
    }
}

/// By what a member is tested.
#[derive(Clone, Copy, Debug, PartialEq, Eq)]
pub(crate) enum Test {
    /// Whether it is there and of its kind.
    Kind,
    /// The same, and whether it is in its range.
    Range,
}

/// The text that is the member of that name.
pub(crate) fn text_of<'v>(value: &'v Value, name: &str) -> Option<&'v str>
    ensures { option_map (λ text. text.now) result ≡ text_at name.now (view value.now) }
{
    value.get(name)?.as_str()
}

/// The number that is the member of that name.
pub(crate) fn number_of(value: &Value, name: &str) -> Option<u64>
    ensures { result ≡ number_at name.now (view value.now) }
{
    value.get(name)?.as_u64()
}

/// The numbers that all the items are.
fn numbers_in(alloc: Global, items: &[Value]) -> Result<Option<Vec<u64>>, Memory>
    ensures { IfOk result (λ found. option_map (λ numbers. numbers.items) found
        ≡ numbers_in (items_view items.now)) }
{
    let mut numbers = Vec::new(alloc);
    for item in items {
        match item.as_u64() {
            Some(number) => numbers.push(number)?,
            None => return Ok(None),
        }
    }
    Ok(Some(numbers))
}

/// The items of the array that is the member of that name.
fn items_of<'v>(value: &'v Value, name: &str) -> Option<&'v [Value]>
    ensures { option_map (λ items. items_view items.now) result
        ≡ option_and_then as_array (get name.now (view value.now)) }
{
    match value.get(name)?.as_array() {
        Some(items) => Some(items.as_slice()),
        None => None,
    }
}

/// The numbers that are the items of the member of that name.
pub(crate) fn numbers_of(
    alloc: Global,
    value: &Value,
    name: &str,
) -> Result<Option<Vec<u64>>, Memory>
    ensures { IfOk result (λ found. option_map (λ numbers. numbers.items) found
        ≡ numbers_at name.now (view value.now)) }
{
    match items_of(value, name) {
        Some(items) => numbers_in(alloc, items),
        None => Ok(None),
    }
}

/// Whether a response has no value, null, or a text.
fn is_answer(member: Option<&Value>) -> bool
    ensures { result ≡ is_answer (option_map (λ value. view value.now) member.entry) }
{
    match member {
        None => true,
        Some(value) => value.is_null() || value.as_str().is_some(),
    }
}

/// Whether the text is one that is allowed.
fn is_text_allowed(allowed: Allowed, text: &str) -> bool
    ensures { result ≡ is_text_allowed allowed text.now }
{
    match allowed {
        Allowed::History => text == "history",
        Allowed::Orders => text == "orders",
        Allowed::Row => text == "invoke" || text == "note" || text == "respond",
        Allowed::Action => text == "read" || text == "write",
        Allowed::Key => is_key(text.as_bytes()),
        Allowed::Value | Allowed::Answer => text.len() <= 256,
        _ => true,
    }
}

/// Whether each is a number of votes of a replica.
fn has_votes(votes: &[u64]) -> bool
    ensures { result ≡ list_all (λ v. nat_le 1 v && nat_le v 9) votes.now }
{
    votes.iter().all(|vote| *vote >= 1 && *vote <= 9)
}

/// Whether they are votes of 1 to 15 replicas.
pub(crate) fn are_votes(votes: &[u64]) -> bool
    ensures { result ≡ are_votes votes.now }
{
    votes.len() >= 1 && votes.len() <= 15 && has_votes(votes)
}

/// Whether they are numbers of calls.
fn are_calls(calls: &[u64]) -> bool
    ensures { result ≡ are_calls calls.now }
{
    calls.iter().all(|call| *call < 4_294_967_296)
}

/// Whether the member of that name is a number between those two.
fn is_between(value: &Value, name: &str, least: u64, most: u64) -> bool
    ensures { result ≡ is_between least most name.now (view value.now) }
{
    match number_of(value, name) {
        Some(number) => least <= number && number <= most,
        None => false,
    }
}

impl Demand {
    /// Whether the member is there and of its kind.
    fn has_kind(self, alloc: Global, value: &Value) -> Result<bool, Memory>
        ensures { IfOk result (λ yes. yes ≡ passes Test.Kind (view value.now) self) }
    {
        let name = self.name.text();
        match self.allowed {
            Allowed::Number { .. } | Allowed::OfVotes | Allowed::BesideAsk { .. } => {
                Ok(number_of(value, name).is_some())
            }
            Allowed::Votes | Allowed::Calls => Ok(numbers_of(alloc, value, name)?.is_some()),
            Allowed::Answer => Ok(is_answer(value.get(name))),
            _ => Ok(text_of(value, name).is_some()),
        }
    }

    /// Whether the member is in its range.
    fn is_in_range(self, alloc: Global, value: &Value) -> Result<bool, Memory>
        ensures { IfOk result (λ yes. yes ≡ passes Test.Range (view value.now) self) }
    {
        let name = self.name.text();
        match self.allowed {
            Allowed::Number { least, most } => Ok(is_between(value, name, least, most)),
            Allowed::OfVotes => Ok(false),
            Allowed::BesideAsk { most } => Ok(is_between(value, name, 1, most)),
            Allowed::Votes => match numbers_of(alloc, value, name)? {
                Some(votes) => Ok(are_votes(votes.as_slice())),
                None => Ok(false),
            },
            Allowed::Calls => match numbers_of(alloc, value, name)? {
                Some(calls) => Ok(are_calls(calls.as_slice())),
                None => Ok(false),
            },
            Allowed::Answer => match text_of(value, name) {
                Some(text) => Ok(
                    is_answer(value.get(name)) && is_text_allowed(Allowed::Answer, text),
                ),
                None => Ok(is_answer(value.get(name))),
            },
            allowed => match text_of(value, name) {
                Some(text) => Ok(is_text_allowed(allowed, text)),
                None => Ok(false),
            },
        }
    }

    /// Whether the member passes the test.
    fn passes(self, alloc: Global, test: Test, value: &Value) -> Result<bool, Memory>
        ensures { IfOk result (λ yes. yes ≡ passes test (view value.now) self) }
    {
        match test {
            Test::Kind => self.has_kind(alloc, value),
            Test::Range => self.is_in_range(alloc, value),
        }
    }
}

/// The first of the members that doesn't pass the test.
pub(crate) fn first_failing(
    alloc: Global,
    test: Test,
    value: &Value,
    demands: &[Demand],
) -> Result<Option<Demand>, Memory>
    ensures { IfOk result (λ found. found ≡ first_failing test (view value.now) demands.now) }
{
    for demand in demands {
        if !demand.passes(alloc, test, value)? {
            return Ok(Some(*demand));
        }
    }
    Ok(None)
}

/// Adds that a number between those two is allowed.
#[tactic(auto, unfolding(crate::specs::Demands::number_text))]
fn append_between(text: &mut Vec<u8>, least: u64, most: u64) -> Result<(), Memory>
    ensures { OnOk result (text.new.items ≡ text.old.items ++ number_text least most) }
{
    if least == most {
        append(text, "the number ")?;
        return append_grouped(text, least);
    }
    append(text, "a number from ")?;
    append_grouped(text, least)?;
    append(text, " to ")?;
    append_grouped(text, most)
}

/// Adds that a number up to that one is allowed, and that the ask quorum is out of range itself.
#[tactic(auto, unfolding(crate::specs::Demands::beside_ask_text))]
fn append_beside_ask(text: &mut Vec<u8>, most: u64) -> Result<(), Memory>
    ensures { OnOk result (text.new.items ≡ text.old.items ++ beside_ask_text most) }
{
    append_between(text, 1, most)?;
    append(text, ", and \"ask\" is out of range")
}

/// Adds what is allowed, in words.
#[tactic(auto, unfolding(crate::specs::Demands::allowed_text))]
pub(crate) fn append_allowed(text: &mut Vec<u8>, allowed: Allowed) -> Result<(), Memory>
    ensures { OnOk result (text.new.items ≡ text.old.items ++ allowed_text allowed) }
{
    let words = match allowed {
        Allowed::Number { least, most } => return append_between(text, least, most),
        Allowed::BesideAsk { most } => return append_beside_ask(text, most),
        Allowed::OfVotes =>
            "a number from 1 to the sum of \"votes\", and \"votes\" is out of range",
        Allowed::History => "\"history\"",
        Allowed::Orders => "\"orders\"",
        Allowed::Row => "\"invoke\", \"note\" or \"respond\"",
        Allowed::Action => "\"read\" or \"write\"",
        Allowed::Key => "1 to 64 letters, digits, '.', '_' or '-'",
        Allowed::Value => "a text of at most 256 bytes",
        Allowed::Answer => "a text of at most 256 bytes, or null",
        Allowed::Votes => "an array of 1 to 15 numbers, each from 1 to 9",
        Allowed::Calls => "an array of numbers from 0 to 4,294,967,295",
    };
    append(text, words)
}
