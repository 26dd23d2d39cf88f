//! Which members a line has to have, in the order in which the format lists them.
ghost use Rattle.std.specs.Prelude.{◌≡◌, ◌≤◌, ◌++◌, codes, true, IfOk, OnOk};
ghost use Rattle.serde_json.specs.View.{view};
ghost use Rattle.file_format.specs.FileHeaders.{are_votes};
ghost use Rattle.file_format.specs.Members.{numbers_at};
ghost use Rattle.fault_details.specs.Needed.{ask_allowed, history_demands, invoke_demands, is_text};
ghost use Rattle.fault_details.specs.Needed.{kind_demands, needed, put_allowed, put_beside, put_of};
ghost use Rattle.fault_details.specs.Needed.{together, vote_sum};

use crate::demand::{Allowed, Demand, Name, are_votes, number_of, numbers_of, text_of};
use serde_json::Value;
use std::alloc::Global;
use tag::Memory;

/// Which line of which file it is.
#[derive(Clone, Copy, Debug, PartialEq, Eq)]
pub enum LineKind {
    /// The first line of a history file.
    HistoryHeader,
    /// The first line of an order file.
    OrderHeader,
    /// Another line of a history file; in version 2 there are so many halls.
    Row { halls: Option<u8> },
    /// Another line of an order file.
    Piece,
}

/// The member of that name has to be that.
fn a(name: Name, allowed: Allowed) -> Demand
    ensures { result ≡ record { name = name; allowed = allowed } }
{
    Demand { name, allowed }
}

/// The member of that name is a number between those two.
fn number(name: Name, least: u64, most: u64) -> Demand
    ensures { result ≡ record { name = name; allowed = Allowed.Number least most } }
{
    Demand {
        name,
        allowed: Allowed::Number { least, most },
    }
}

/// Whether the member of that name is that text, which isn't empty.
fn is_text(value: &Value, name: &str, text: &str) -> bool
    ensures { result ≡ is_text name.now text.now (view value.now) }
{
    text_of(value, name).unwrap_or("") == text
}

/// The members of the row that begins a call.
fn push_invoke(demands: &mut Vec<Demand>, value: &Value) -> Result<(), Memory>
    ensures { OnOk result (demands.new.items ≡ demands.old.items ++ invoke_demands (view value.now)) }
{
    demands.extend_from_slice(&[
        number(Name::Call, 0, 4_294_967_295),
        number(Name::Client, 1, 65_535),
        a(Name::Do, Allowed::Action),
        a(Name::Key, Allowed::Key),
    ])?;
    if is_text(value, "do", "write") {
        demands.push(a(Name::Value, Allowed::Value))?;
    }
    Ok(())
}

/// The members that the kind of a row asks for.
#[tactic(auto, unfolding(crate::specs::Needed::kind_demands))]
fn push_kind(demands: &mut Vec<Demand>, value: &Value) -> Result<(), Memory>
    ensures { OnOk result (demands.new.items ≡ demands.old.items ++ kind_demands (view value.now)) }
{
    if is_text(value, "row", "invoke") {
        push_invoke(demands, value)?;
    } else if is_text(value, "row", "note") {
        demands.extend_from_slice(&[
            number(Name::Call, 0, 4_294_967_295),
            number(Name::Number, 0, 1_000_000),
            number(Name::Writer, 0, 65_535),
        ])?;
    } else if is_text(value, "row", "respond") {
        demands.extend_from_slice(&[
            number(Name::Call, 0, 4_294_967_295),
            a(Name::Value, Allowed::Answer),
        ])?;
    }
    Ok(())
}

/// The members of a row, in version 2 of one of so many halls.
#[tactic(auto, unfolding(crate::specs::Needed::needed))]
fn row_demands(alloc: Global, halls: Option<u8>, value: &Value) -> Result<Vec<Demand>, Memory>
    ensures { IfOk result (λ demands. demands.items ≡ needed (LineKind.Row halls) (view value.now)) }
{
    let mut demands = Vec::from_array(alloc, [a(Name::Row, Allowed::Row)])?;
    push_kind(&mut demands, value)?;
    if let Some(halls) = halls {
        demands.push(number(Name::Hall, 0, u64::from(halls.saturating_sub(1))))?;
    }
    Ok(demands)
}

/// The votes of all replicas.
fn together(votes: &[u64]) -> u64
    requires { are_votes votes.now ≡ true }
    ensures total { result ≡ together votes.now }
    ensures most { result ≤ 135 }
{
    let mut all = 0;
    for vote in votes {
        all += *vote;
    }
    all
}

/// The same of a header; 0 where it has no votes that may be.
fn vote_sum(alloc: Global, value: &Value) -> Result<u64, Memory>
    ensures value { IfOk result (λ all. all ≡ vote_sum (numbers_at (codes "votes") (view value.now))) }
    ensures most { IfOk result (λ all. all ≤ 135) }
{
    match numbers_of(alloc, value, "votes")? {
        Some(votes) if are_votes(votes.as_slice()) => Ok(together(votes.as_slice())),
        _ => Ok(0),
    }
}

/// What an ask quorum may be, of so many votes; 0 where they are out of range.
fn ask_allowed(all: u64) -> Allowed
    ensures { result ≡ ask_allowed all }
{
    if all == 0 {
        return Allowed::OfVotes;
    }
    Allowed::Number {
        least: 1,
        most: all,
    }
}

/// What a put quorum may be beside that ask quorum.
fn put_beside(all: u64, ask: u64) -> Allowed
    requires { all ≤ 135 }
    ensures { result ≡ put_beside all ask }
{
    if ask >= 1 && ask <= all {
        Allowed::Number {
            least: all + 1 - ask,
            most: all,
        }
    } else {
        Allowed::BesideAsk { most: all }
    }
}

/// What a put quorum may be, of so many votes that are in their range, beside the ask quorum if there is one.
fn put_of(all: u64, ask: Option<u64>) -> Allowed
    requires { all ≤ 135 }
    ensures { result ≡ put_of all ask }
{
    match ask {
        Some(ask) => put_beside(all, ask),
        None => Allowed::Number {
            least: 1,
            most: all,
        },
    }
}

/// The same of any votes.
fn put_allowed(all: u64, ask: Option<u64>) -> Allowed
    requires { all ≤ 135 }
    ensures { result ≡ put_allowed all ask }
{
    if all == 0 {
        return Allowed::OfVotes;
    }
    put_of(all, ask)
}

/// The members of a history file's header.
#[tactic(auto, unfolding(crate::specs::Needed::history_demands))]
fn history_demands(alloc: Global, value: &Value) -> Result<Vec<Demand>, Memory>
    ensures { IfOk result (λ demands. demands.items ≡ history_demands (view value.now)) }
{
    let all = vote_sum(alloc, value)?;
    let put = put_allowed(all, number_of(value, "ask"));
    let demands = Vec::from_array(
        alloc,
        [
            a(Name::Abd, Allowed::History),
            number(Name::Version, 1, 2),
            number(Name::Halls, 1, 64),
            a(Name::Votes, Allowed::Votes),
            a(Name::Ask, ask_allowed(all)),
            a(Name::Put, put),
        ],
    )?;
    Ok(demands)
}

/// The members that a line of that kind has to have.
#[tactic(auto, unfolding(crate::specs::Needed::needed))]
pub(crate) fn needed(alloc: Global, kind: LineKind, value: &Value) -> Result<Vec<Demand>, Memory>
    ensures { IfOk result (λ demands. demands.items ≡ needed kind (view value.now)) }
{
    match kind {
        LineKind::HistoryHeader => history_demands(alloc, value),
        LineKind::OrderHeader => Ok(Vec::from_array(
            alloc,
            [a(Name::Abd, Allowed::Orders), number(Name::Version, 1, 1)],
        )?),
        LineKind::Row { halls } => row_demands(alloc, halls, value),
        LineKind::Piece => Ok(Vec::from_array(
            alloc,
            [a(Name::Key, Allowed::Key), a(Name::Order, Allowed::Calls)],
        )?),
    }
}
