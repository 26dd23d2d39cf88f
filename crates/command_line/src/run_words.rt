//! What the words after `abd run` ask for.
ghost use Rattle.std.specs.Prelude.{◌≡◌, None, codes};
ghost use Rattle.clap.specs.Words.{first_of};
ghost use Rattle.command_line.specs.Reading.{Finds, FindsOrLacks, rows_in};
ghost use Rattle.command_line.specs.RunWords.{AsksReads, AsksRun, AsksShown};

use crate::asked::{RunAsked, Shown};
use crate::fault::WordsFault;
use crate::quorums::quorums_in;
use crate::ranges::{HALLS, REPLICAS, SHOWN_HALL};
use crate::reading::{number_in, text_in};
use clap::ArgMatches;
use client_phases::ReadMode;
use load::ranges::{CALLERS, CALLS, FAULTS, KEYS, ROUNDS};
use load::{Load, LoadOptions};
use recorder::Halls;
use std::alloc::Global;

/// How clients read.
fn reads_in<'a>(matches: &ArgMatches<'a>) -> Result<ReadMode, WordsFault>
    ensures { Finds result (AsksReads (rows_in matches.now)) }
{
    let Some(text) = text_in(matches, "reads") else {
        return Err(WordsFault::Reads);
    };
    if text == "full" {
        return Ok(ReadMode::Full);
    }
    if text == "short" {
        return Ok(ReadMode::Short);
    }
    Err(WordsFault::Reads)
}

/// The hall that `--show` names, of so many.
fn hall_in<'a>(matches: &ArgMatches<'a>, halls: u32) -> Result<Shown, WordsFault>
    requires { first_of (codes "show") (rows_in matches.now) ≡ None → ⊥ }
    ensures { Finds result (AsksShown (rows_in matches.now) halls) }
{
    let hall = number_in(matches, "show", SHOWN_HALL)?;
    if hall >= halls {
        return Err(WordsFault::Show);
    }
    Ok(Shown::Hall(hall as u8))
}

/// Which histories are written, of so many halls.
fn shown_in<'a>(matches: &ArgMatches<'a>, halls: u32) -> Result<Shown, WordsFault>
    ensures { Finds result (AsksShown (rows_in matches.now) halls) }
{
    if text_in(matches, "show").is_some() {
        return hall_in(matches, halls);
    }
    if halls != 1 {
        return Ok(Shown::All);
    }
    if text_in(matches, "votes").is_some() {
        return Ok(Shown::All);
    }
    Ok(Shown::Hall(0))
}

/// What is asked for by the words after `run`. Where it is nothing, why.
pub(crate) fn run_in<'a>(alloc: Global, matches: &ArgMatches<'a>) -> Result<RunAsked, WordsFault>
    ensures { FindsOrLacks result (AsksRun (rows_in matches.now)) }
{
    let replicas = number_in(matches, "replicas", REPLICAS)?;
    let halls = number_in(matches, "halls", HALLS)?;
    let reads = reads_in(matches)?;
    let shown = shown_in(matches, halls)?;
    let quorums = quorums_in(alloc, matches, replicas as u8)?;
    let Some(halls) = Halls::new(halls as u8) else {
        unreachable!()
    };
    let options = LoadOptions {
        quorums,
        reads,
        halls,
        rounds: number_in(matches, "rounds", ROUNDS)? as u16,
        callers: number_in(matches, "callers", CALLERS)? as u8,
        calls: number_in(matches, "calls", CALLS)? as u16,
        keys: number_in(matches, "keys", KEYS)? as u8,
        drop: number_in(matches, "drop", FAULTS)? as u16,
        double: number_in(matches, "double", FAULTS)? as u16,
    };
    let Some(load) = Load::new(options) else {
        unreachable!()
    };
    Ok(RunAsked { load, shown })
}
