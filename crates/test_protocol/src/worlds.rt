//! Steps of a world.
use crate::all_keys::say_store_order;
use crate::texts::{say_row, say_step, say_taken};
use crate::words::Words;
use random_steps::RandomSteps;
use recorder::History;
use std::alloc::Global;
use tag::ClientId;
use test_rows::Answer;
use world_settle::{SettleError, settle};
use world_steps::{Effect, Refusal, Step, World};

fn invocation(alloc: Global, mut words: Words<'_>) -> Option<Step> {
    let client = words.client()?;
    let kind = words.word();
    let key = words.key(alloc)?;
    let action = words.action(alloc, kind)?;
    Some(Step::Invoke {
        client,
        key,
        action,
    })
}

/// The step of a client.
fn client_step(kind: &str, mut words: Words<'_>) -> Option<Step> {
    let client = words.client()?;
    match kind {
        "join" => Some(Step::Join { client }),
        "send" => Some(Step::Send {
            client,
            replica: words.replica()?,
        }),
        "respond" => Some(Step::Respond { client }),
        "stop" => Some(Step::StopClient { client }),
        _ => None,
    }
}

/// The step on a message.
fn flight_step(kind: &str, flight: u32) -> Option<Step> {
    match kind {
        "deliver" => Some(Step::Deliver { flight }),
        "lose" => Some(Step::Lose { flight }),
        "repeat" => Some(Step::Repeat { flight }),
        _ => None,
    }
}

/// The step that a line writes.
pub fn step_of(alloc: Global, mut words: Words<'_>) -> Option<Step> {
    match words.word() {
        "invoke" => invocation(alloc, words),
        "down" => Some(Step::StopReplica {
            replica: words.replica()?,
        }),
        "up" => Some(Step::StartReplica {
            replica: words.replica()?,
        }),
        kind => {
            let mut numbers = words;
            match flight_step(kind, numbers.number()?) {
                Some(step) => Some(step),
                None => client_step(kind, words),
            }
        }
    }
}

/// The word of an effect, and its number, if it has one.
fn said_of(effect: Effect) -> (&'static str, Option<u32>) {
    match effect {
        Effect::Joined => ("joined", None),
        Effect::Invoked(op) => ("invoked ", Some(op.0)),
        Effect::Sent(flight) => ("sent ", Some(flight)),
        Effect::Answered(flight) => ("answered ", Some(flight)),
        Effect::Taken(_) => ("", None),
        Effect::Lost => ("lost", None),
        Effect::Repeated => ("repeated", None),
        Effect::Responded(op) => ("responded ", Some(op.0)),
        Effect::Stopped => ("stopped", None),
        Effect::Started => ("started", None),
    }
}

fn say_effect(out: &mut Answer, effect: Effect) {
    if let Effect::Taken(taken) = effect {
        return say_taken(out, taken);
    }
    let (word, number) = said_of(effect);
    out.push(word);
    if let Some(number) = number {
        write!(out, "{number}");
    }
}

fn say_answer(out: &mut Answer, answer: Result<Effect, Refusal>) {
    match answer {
        Ok(effect) => say_effect(out, effect),
        Err(refusal) => {
            let number = refusal as u8;
            write!(out, "refused {number} {refusal:?}");
        }
    }
}

fn say_settled(out: &mut Answer, answer: Result<u32, SettleError>) {
    match answer {
        Ok(count) => write!(out, "settled {count}"),
        Err(why) => {
            let number = why.number();
            write!(out, "settle refused {number} {why:?}");
        }
    }
}

/// What is seen of a world: what was sent, the messages in flight, the rows, and who joined.
fn say_seen(out: &mut Answer, world: &World) {
    let (sent, stored) = (world.pool().sent(), world.pool().stored());
    let rows = world.history().row_count();
    let joined = world.joined().len();
    write!(
        out,
        "{sent} sent, {stored} under way, {rows} rows, {joined} joined"
    );
}

fn say_rows(out: &mut Answer, history: &History) {
    let mut divider = "";
    for place in 0..history.row_count() {
        out.push(divider);
        say_row(out, &history.row(place));
        divider = " / ";
    }
}

fn say_phase(out: &mut Answer, world: &World, name: Option<ClientId>) {
    match name.and_then(|name| world.client(name)) {
        Some(client) => {
            let phase = client.phase();
            write!(out, "{phase:?}");
        }
        None => out.push("no such client"),
    }
}

fn say_copies(out: &mut Answer, world: &World, flight: u32) {
    let copies = world.pool().copies(flight);
    write!(out, "{copies}");
}

fn settle_call(out: &mut Answer, world: &mut World, client: Option<ClientId>) {
    match client {
        Some(client) => say_settled(out, settle(world, client)),
        None => out.push("NO SUCH CLIENT"),
    }
}

/// Takes the step that a line writes.
fn take_line(out: &mut Answer, world: &mut World, line: &str) {
    match step_of(out.alloc(), Words { rest: line }) {
        Some(step) => say_answer(out, world.step(step)),
        None => out.push("NO SUCH STEP"),
    }
}

fn draw(out: &mut Answer, world: &World, steps: &mut RandomSteps) {
    match steps.next(out.alloc(), world) {
        Ok(step) => say_step(out, &step),
        Err(_) => out.push("NO MEMORY"),
    }
}

/// Says a step that was drawn, and takes it.
fn take_drawn(out: &mut Answer, world: &mut World, step: Step) {
    say_step(out, &step);
    out.push(": ");
    say_answer(out, world.step(step));
}

fn take(out: &mut Answer, world: &mut World, steps: &mut RandomSteps) {
    match steps.next(out.alloc(), world) {
        Ok(step) => take_drawn(out, world, step),
        Err(_) => out.push("NO MEMORY"),
    }
}

/// What a world answers to a step or a question.
pub fn world_answers(out: &mut Answer, (world, steps): (&mut World, &mut RandomSteps), line: &str) {
    let mut words = Words { rest: line };
    match words.word() {
        "settle" => settle_call(out, world, words.client()),
        "seen?" => say_seen(out, world),
        "rows?" => say_rows(out, world.history()),
        "order?" => say_store_order(out, world),
        "phase?" => say_phase(out, world, words.client()),
        "copies?" => say_copies(out, world, words.number().unwrap_or(0)),
        "draw" => draw(out, world, steps),
        "take" => take(out, world, steps),
        _ => take_line(out, world, line),
    }
}
