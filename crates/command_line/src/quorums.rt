//! The quorums that words ask for.
ghost use Rattle.std.specs.Prelude.{◌≡◌, ◌≤◌, ◌↔◌, Some, IsTrue, MatchResult, codes};
ghost use Rattle.clap.specs.Words.{first_of};
ghost use Rattle.tag.specs.Limits.{replica_limit};
ghost use Rattle.command_line.specs.Reading.{FindsOrLacks, IsMissed, rows_in};
ghost use Rattle.command_line.specs.RunWords.{AreDigits, AsksQuorumsOf, AsksVotesOf};

use crate::fault::WordsFault;
use crate::ranges::VOTES;
use crate::reading::{number_in, text_in};
use clap::ArgMatches;
use quorum::Quorums;
use std::alloc::Global;

/// Whether the byte is a digit from 1 to 9.
fn is_vote(byte: u8) -> bool
    ensures { IsTrue result ↔ ((49 ≤ byte) × (byte ≤ 57)) }
{
    byte >= b'1' && byte <= b'9'
}

/// The votes that the text's digits are.
fn votes_in(alloc: Global, text: &str) -> Result<Vec<u8>, WordsFault>
    ensures { MatchResult result (λ votes. AreDigits text.now votes.items)
        (IsMissed (AreDigits text.now)) }
{
    let mut votes = Vec::new(alloc);
    for byte in text.as_bytes() {
        if !is_vote(*byte) {
            return Err(WordsFault::Votes);
        }
        votes.push(*byte - b'0')?;
    }
    Ok(votes)
}

/// The quorums of the votes of that text.
fn quorums_of_votes<'a>(
    alloc: Global,
    matches: &ArgMatches<'a>,
    replicas: u8,
    text: &str,
) -> Result<Quorums, WordsFault>
    requires { first_of (codes "votes") (rows_in matches.now) ≡ Some text.now }
    ensures { FindsOrLacks result (AsksVotesOf (rows_in matches.now) replicas) }
{
    let Ok(ask) = number_in(matches, "ask", VOTES) else {
        return Err(WordsFault::Alone);
    };
    let Ok(put) = number_in(matches, "put", VOTES) else {
        return Err(WordsFault::Alone);
    };
    let votes = votes_in(alloc, text)?;
    if votes.len() != usize::from(replicas) {
        return Err(WordsFault::Votes);
    }
    match Quorums::new(&votes, ask as u8, put as u8) {
        Some(quorums) => Ok(quorums),
        None => Err(WordsFault::Quorums),
    }
}

/// The quorums of so many replicas: by votes, or majorities where none are given.
pub(crate) fn quorums_in<'a>(
    alloc: Global,
    matches: &ArgMatches<'a>,
    replicas: u8,
) -> Result<Quorums, WordsFault>
    requires least { 1 ≤ replicas }
    requires most { replicas ≤ replica_limit }
    ensures { FindsOrLacks result (AsksQuorumsOf (rows_in matches.now) replicas) }
{
    if let Some(text) = text_in(matches, "votes") {
        return quorums_of_votes(alloc, matches, replicas, text);
    }
    if text_in(matches, "ask").is_some() {
        return Err(WordsFault::Alone);
    }
    if text_in(matches, "put").is_some() {
        return Err(WordsFault::Alone);
    }
    Ok(Quorums::majority(replicas))
}
