//! The header of a history file of version 2.
ghost use Rattle.std.specs.Prelude.{◌≡◌, ℕ, nat_le, true, IfOk};
ghost use Rattle.std.specs.List.{list_all};
ghost use Rattle.file_format.specs.Documents.{data_in};
ghost use Rattle.file_format.specs.FileHeaders.{quorums_of, count_of, told_in};
ghost use Rattle.file_format.specs.FileHeaders.{file_header_in};
ghost use Rattle.counted_devices.specs.Answers.{Gives};

use crate::LineFault;
use crate::document::Document;
use crate::fault::Stop;
use crate::file_header::FileHeader;
use quorum::Quorums;
use recorder::Halls;
use std::alloc::Global;
use tag::Memory;

/// Whether each number is at most 9.
fn are_small(votes: &[u64]) -> bool
    ensures { result ≡ list_all (λ n. nat_le n 9) votes.now }
{
    votes.iter().all(|votes| *votes <= 9)
}

/// The numbers, each of which is at most 9.
fn small(alloc: Global, votes: &[u64]) -> Result<Vec<u8>, Memory>
    requires { list_all (λ n. nat_le n 9) votes.now ≡ true }
    ensures { IfOk result (λ small. small.items ≡ votes.now) }
{
    let mut small = Vec::new(alloc);
    for votes in votes {
        small.push(*votes as u8)?;
    }
    Ok(small)
}

fn quorums_of(alloc: Global, votes: &[u64], ask: u64, put: u64) -> Result<Quorums, Stop>
    ensures { Gives (λ quorums. quorums) result (quorums_of votes.now ask put) }
{
    if ask > 255 || put > 255 {
        return Err(Stop::Fault(LineFault::Range));
    }
    if !are_small(votes) {
        return Err(Stop::Fault(LineFault::Range));
    }
    let votes = small(alloc, votes)?;
    match Quorums::new(votes.as_slice(), ask as u8, put as u8) {
        Some(quorums) => Ok(quorums),
        None => Err(Stop::Fault(LineFault::Range)),
    }
}

fn count_of(halls: u64) -> Result<Halls, Stop>
    ensures { Gives (λ halls. halls) result (count_of halls) }
{
    if halls > 64 {
        return Err(Stop::Fault(LineFault::Range));
    }
    match Halls::new(halls as u8) {
        Some(halls) => Ok(halls),
        None => Err(Stop::Fault(LineFault::Range)),
    }
}

/// The halls and the quorums that a header of version 2 tells.
#[tactic(auto, unfolding(crate::specs::FileHeaders::told_in))]
fn told_in(alloc: Global, document: &Document<'_>) -> Result<FileHeader, Stop>
    ensures { Gives (λ header. header) result (told_in (data_in document.now)) }
{
    let ask = document.needed_number("ask")?;
    let halls = document.needed_number("halls")?;
    let put = document.needed_number("put")?;
    let votes = document.needed_numbers(alloc, "votes")?;
    let halls = count_of(halls)?;
    let quorums = quorums_of(alloc, votes.as_slice(), ask, put)?;
    Ok(FileHeader::Version2 { halls, quorums })
}

/// What the value says as the header of a history file of either version.
#[tactic(auto, unfolding(crate::specs::FileHeaders::file_header_in))]
pub(crate) fn file_header_in(alloc: Global, document: &Document<'_>) -> Result<FileHeader, Stop>
    ensures { Gives (λ header. header) result (file_header_in (data_in document.now)) }
{
    match document.text("abd") {
        Some(abd) if abd.text == "history" => {}
        _ => return Err(Stop::Fault(LineFault::NoHeader)),
    }
    match document.number("version") {
        Some(1) => Ok(FileHeader::Version1),
        Some(2) => told_in(alloc, document),
        _ => Err(Stop::Fault(LineFault::Version)),
    }
}
