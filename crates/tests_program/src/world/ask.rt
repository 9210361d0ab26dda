//! The contents of a world, as short texts.

use crate::world::brief::{add_hex, told as told_of};
use mq_topic::Qos;
use mq_world::{Account, Side, World};
use std::alloc::{AllocError, Global};

// What a row of a test asks of a world.
#[derive(Clone, Copy)]
pub(crate) enum Ask {
    // The answer at this index.
    Answer(usize),
    // The number of messages that a side accepted and delivered.
    Counts(Side, Qos),
    // The places of the messages that were acknowledged to a side.
    Freed(Side),
    // Whether a side has a session.
    HasSession(Side),
    // Whether a side has a session that holds nothing.
    IsIdle(Side),
    // How many messages a side holds.
    Held(Side, Qos),
    // The bytes that are in flight to a side.
    Wire(Side),
    // Whether memory ran out.
    HasFailed,
}

fn account(world: &World, side: Side) -> &Account {
    match side {
        Side::Client => &world.trace().client,
        Side::Server => &world.trace().server,
    }
}

fn answer(alloc: Global, world: &World, place: usize) -> Result<String, AllocError> {
    match world.trace().answers.get(place) {
        Some(answer) => told_of(alloc, answer),
        None => format!(in alloc; "none"),
    }
}

fn accepted(world: &World, side: Side, qos: Qos) -> usize {
    account(world, side).accepted(qos)
}

fn handed(world: &World, side: Side, qos: Qos) -> usize {
    account(world, side).handed(qos)
}

fn counts(alloc: Global, world: &World, side: Side, qos: Qos) -> Result<String, AllocError> {
    let accepted = accepted(world, side, qos);
    let handed = handed(world, side, qos);
    format!(in alloc; "accepted {accepted}, handed {handed}")
}

fn freed(alloc: Global, world: &World, side: Side) -> Result<String, AllocError> {
    let freed = account(world, side).freed.as_slice();
    format!(in alloc; "freed {freed:?}")
}

fn has_session(world: &World, side: Side) -> bool {
    world.session(side).is_some()
}

fn is_idle(world: &World, side: Side) -> bool {
    match world.session(side) {
        Some(session) => session.sender.is_idle(),
        None => false,
    }
}

fn held(world: &World, side: Side, qos: Qos) -> usize {
    match world.session(side) {
        Some(session) => session.sender.holds(qos),
        None => 0,
    }
}

fn wire(alloc: Global, world: &World, side: Side) -> Result<String, AllocError> {
    let mut text = String::new(alloc);
    add_hex(&mut text, world.wire(side))?;
    Ok(text)
}

fn has_failed(world: &World) -> bool {
    world.has_failed()
}

fn yes_or_no(alloc: Global, answer: bool) -> Result<String, AllocError> {
    let word = if answer { "yes" } else { "no" };
    format!(in alloc; "{word}")
}

pub(crate) fn told(alloc: Global, world: &World, ask: Ask) -> Result<String, AllocError> {
    match ask {
        Ask::Answer(place) => answer(alloc, world, place),
        Ask::Counts(side, qos) => counts(alloc, world, side, qos),
        Ask::Freed(side) => freed(alloc, world, side),
        Ask::HasSession(side) => yes_or_no(alloc, has_session(world, side)),
        Ask::IsIdle(side) => yes_or_no(alloc, is_idle(world, side)),
        Ask::Held(side, qos) => format!(in alloc; "{}", held(world, side, qos)),
        Ask::Wire(side) => wire(alloc, world, side),
        Ask::HasFailed => yes_or_no(alloc, has_failed(world)),
    }
}
