//! The texts of steps and of places.
use node_threads::Place;
use std::alloc::{AllocError, Global};
use tag::Action;
use world_steps::Step;

/// What a step or a place says: a word, numbers, and names, which are empty where there are fewer.
#[derive(Clone, Copy)]
struct Words<'a> {
    word: &'static str,
    numbers: [Option<u32>; 3],
    names: [&'a str; 3],
}

/// A word, and numbers.
fn numbered(word: &'static str, numbers: [Option<u32>; 3]) -> Words<'static> {
    Words {
        word,
        numbers,
        names: ["", "", ""],
    }
}

/// What an invocation says.
fn invocation<'a>(client: u32, key: &'a str, action: &'a Action) -> Words<'a> {
    let names = match action {
        Action::Read => ["read", key, ""],
        Action::Write(value) => ["write", key, value.as_str()],
    };
    Words {
        word: "invoke",
        numbers: [Some(client), None, None],
        names,
    }
}

/// What a step says, as scripts write it.
fn step_words(step: &Step) -> Words<'_> {
    match step {
        Step::Join { client } => numbered("join", [Some(client.get()), None, None]),
        Step::Invoke {
            client,
            key,
            action,
        } => invocation(client.get(), key.as_str(), action),
        Step::Send { client, replica } => numbered(
            "send",
            [Some(client.get()), Some(u32::from(replica.get())), None],
        ),
        Step::Respond { client } => numbered("respond", [Some(client.get()), None, None]),
        Step::Deliver { flight } => numbered("deliver", [Some(*flight), None, None]),
        Step::Lose { flight } => numbered("lose", [Some(*flight), None, None]),
        Step::Repeat { flight } => numbered("repeat", [Some(*flight), None, None]),
        Step::StopClient { client } => numbered("stop client", [Some(client.get()), None, None]),
        Step::StopReplica { replica } => {
            numbered("stop replica", [Some(u32::from(replica.get())), None, None])
        }
        Step::StartReplica { replica } => {
            numbered(
                "start replica",
                [Some(u32::from(replica.get())), None, None],
            )
        }
    }
}

/// What a place says: a hall, a call and a replica.
fn place_words(place: &Place) -> Words<'_> {
    let (word, hall, call, replica) = match place {
        Place::Request {
            hall,
            call,
            replica,
        } => ("request", *hall, *call, Some(u32::from(replica.get()))),
        Place::Reply {
            hall,
            call,
            replica,
        } => ("reply", *hall, *call, Some(u32::from(replica.get()))),
        Place::Respond { hall, call } => ("respond", *hall, *call, None),
    };
    numbered(word, [Some(u32::from(hall)), Some(call.0), replica])
}

/// Adds the words, after a comma if there is something before.
fn push_words(text: &mut String, words: Words<'_>) -> Result<(), AllocError> {
    if !text.is_empty() {
        text.push_str(", ")?;
    }
    text.push_str(words.word)?;
    for number in words.numbers {
        if let Some(number) = number {
            write!(text, " {number}")?;
        }
    }
    for name in words.names {
        if !name.is_empty() {
            write!(text, " {name}")?;
        }
    }
    Ok(())
}

/// The steps, with commas between.
pub fn steps_text(alloc: Global, steps: &[Step]) -> Result<String, AllocError> {
    let mut text = String::new(alloc);
    for step in steps {
        push_words(&mut text, step_words(step))?;
    }
    Ok(text)
}

/// The places, with commas between.
pub fn places_text(alloc: Global, places: &[Place]) -> Result<String, AllocError> {
    let mut text = String::new(alloc);
    for place in places {
        push_words(&mut text, place_words(place))?;
    }
    Ok(text)
}

/// How many replies came of that replica.
fn replies_of(places: &[Place], number: u8) -> u32 {
    let mut count = 0;
    for place in places {
        if let Place::Reply { replica, .. } = place
            && replica.get() == number
        {
            count = u32::saturating_add(count, 1);
        }
    }
    count
}

/// Adds the replicas that requests went to, in order, a blank before each.
fn push_requests(text: &mut String, places: &[Place]) -> Result<(), AllocError> {
    for place in places {
        if let Place::Request { replica, .. } = place {
            write!(text, " {}", replica.get())?;
        }
    }
    Ok(())
}

/// The replicas that requests went to, in order, and how many replies came of replicas 0, 1 and 2.
pub fn parcels_text(alloc: Global, places: &[Place]) -> Result<String, AllocError> {
    let (zero, one) = (replies_of(places, 0), replies_of(places, 1));
    let two = replies_of(places, 2);
    let mut text = String::new(alloc);
    text.push_str("requests to")?;
    push_requests(&mut text, places)?;
    write!(text, ", replies of 0, 1, 2: {zero} {one} {two}")?;
    Ok(text)
}

/// How many steps sent, repeated, delivered and lost a message.
fn counts_of(steps: &[Step]) -> (u32, u32, u32, u32) {
    let (mut sent, mut repeated, mut delivered, mut lost) = (0, 0, 0, 0);
    for step in steps {
        match step {
            Step::Send { .. } => sent = u32::saturating_add(sent, 1),
            Step::Repeat { .. } => repeated = u32::saturating_add(repeated, 1),
            Step::Deliver { .. } => delivered = u32::saturating_add(delivered, 1),
            Step::Lose { .. } => lost = u32::saturating_add(lost, 1),
            _ => {}
        }
    }
    (sent, repeated, delivered, lost)
}

/// How many steps sent, repeated, delivered and lost a message.
pub fn counts_text(alloc: Global, steps: &[Step]) -> Result<String, AllocError> {
    let (sent, repeated, delivered, lost) = counts_of(steps);
    format!(in alloc; "{sent} sent, {repeated} repeated, {delivered} delivered, {lost} lost")
}
