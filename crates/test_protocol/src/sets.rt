//! Sets of replicas and their votes, numbers of refusals, and words of a generator.
use crate::texts::{say_net_refusal, say_set};
use crate::words::Words;
use network::NetRefusal;
use quorum::{Quorums, ReplicaSet};
use rand_core::utils::NextWord;
use rand_pcg::Lcg64Xsh32;
use test_rows::Answer;
use world_settle::SettleError;

fn yes(truth: bool) -> &'static str {
    if truth { "yes" } else { "no" }
}

/// What quorums make of a set.
fn say_judged(out: &mut Answer, quorums: &Quorums, set: &ReplicaSet) {
    let votes = quorums.votes(set);
    let ask = yes(quorums.is_ask(set));
    let put = yes(quorums.is_put(set));
    let majority = yes(set.is_majority(quorums.replicas()));
    write!(
        out,
        "votes {votes}, ask {ask}, put {put}, majority {majority}"
    );
}

/// What quorums make of the set `0,2`; or, to `quorums?`, their replicas and votes.
pub fn quorums_answer(out: &mut Answer, quorums: &Quorums, line: &str) {
    if line == "quorums?" {
        let (replicas, ask, put) = (quorums.replicas(), quorums.ask(), quorums.put());
        return write!(out, "replicas {replicas} ask {ask} put {put}");
    }
    let mut words = Words { rest: line };
    let _ = words.word();
    say_judged(out, quorums, &words.set());
}

/// The count and the members of a set.
pub fn say_members(out: &mut Answer, mut words: Words<'_>) {
    let set = words.set();
    let count = set.count();
    write!(out, "{count}:");
    say_set(out, set);
}

/// Whether two sets are equal.
pub fn compared(mut words: Words<'_>) -> &'static str {
    let set = words.set();
    if set == words.set() {
        "equal"
    } else {
        "different"
    }
}

/// The numbers of the network's refusals.
pub fn say_refusals(out: &mut Answer) {
    let mut divider = "";
    for refusal in [
        NetRefusal::NotInFlight,
        NetRefusal::CopiesFull,
        NetRefusal::FlightsFull,
        NetRefusal::Memory,
    ] {
        out.push(divider);
        say_net_refusal(out, refusal);
        divider = " / ";
    }
}

/// The numbers of the reasons why a call isn't completed.
pub fn say_reasons(out: &mut Answer) {
    for (divider, why) in [
        ("", SettleError::NoMajority),
        (" / ", SettleError::NotPending),
        (" / ", SettleError::Room),
        (" / ", SettleError::Memory(5)),
    ] {
        let number = why.number();
        write!(out, "{divider}{number} {why:?}");
    }
}

/// The first six words of the generator of a seed and a stream.
pub fn say_generated(out: &mut Answer, mut words: Words<'_>) {
    let seed = words.number().unwrap_or(0);
    let stream = words.number().unwrap_or(0);
    let mut generator = Lcg64Xsh32::new(u64::from(seed), u64::from(stream));
    let mut divider = "";
    for _ in 0..6 {
        let word = NextWord::<u32>::next_word(&mut generator);
        write!(out, "{divider}{word:08x}");
        divider = " ";
    }
}
