//! Worlds: what their events, and questions to them, tell.

mod ask;
mod brief;
mod clocks;
mod leaving;
mod loss;
mod making;
mod publish;
mod restart;
mod run;

use crate::compare::expect_told;
use crate::world::ask::Ask;
use crate::world::brief::told_of_copy;
use bytes::Bytes;
use mq_decode::Limits;
use mq_packet::{Message, Payload};
use mq_topic::{Qos, TopicName};
use mq_world::{Event, Side, World};
use std::alloc::{AllocError, Global};
use std::process::Abort;
use std::test::Fail;

// An event of a world, as a row of a test has it.
#[derive(Clone, Copy)]
enum Step {
    // The client opens a connection.
    Open,
    // Delivers a number of bytes to a side.
    Deliver(Side, usize),
    // The connection of a side is lost.
    Lose(Side),
    // The program of the client ends and continues.
    Restart,
    // The user of the client leaves.
    Leave,
    // Advances the clock of a side by milliseconds.
    Tick(Side, u64),
    // A side publishes a message to this topic.
    Publish(Side, Qos, &'static str, &'static [u8]),
}

// What a row of a test does with a world.
#[derive(Clone, Copy)]
enum Action {
    // Makes an event.
    Make(Step),
    // Settles.
    Settle,
    // Asks what there is.
    Look(Ask),
}

// A message to this topic.
fn message(alloc: Global, qos: Qos, topic: &str, payload: &[u8]) -> Result<Message, Fail> {
    let bytes = Bytes::copy_from_slice(alloc, payload)?;
    let payload = Payload::new(bytes).ok_or("no payload")?;
    Ok(Message {
        topic: TopicName::parse(alloc, topic)?,
        payload,
        qos,
        retain: false,
    })
}

// The event of a step.
fn event_of(alloc: Global, step: Step) -> Result<Event, Fail> {
    Ok(match step {
        Step::Open => Event::Open,
        Step::Deliver(side, count) => Event::Deliver(side, count),
        Step::Lose(side) => Event::Drop(side),
        Step::Restart => Event::Restart,
        Step::Leave => Event::Leave,
        Step::Tick(side, more) => Event::Tick(side, more),
        Step::Publish(side, qos, topic, payload) => {
            Event::Publish(side, message(alloc, qos, topic, payload)?)
        }
    })
}

fn new_world(alloc: Global, max_packet: u32, capacity: u16) -> Result<World, Fail> {
    let limits = Limits::new(max_packet).ok_or("no limits")?;
    if capacity == 0 {
        return Err(Fail::new("no room"));
    }
    Ok(World::new(alloc, limits, capacity)?)
}

fn make(alloc: Global, world: &mut World, event: &Event) -> Result<String, AllocError> {
    told_of_copy(alloc, world.step(event)?)
}

fn settle(alloc: Global, world: &mut World) -> Result<String, AllocError> {
    told_of_copy(alloc, world.settle()?)
}

fn told(alloc: Global, world: &mut World, act: Action) -> Result<String, Fail> {
    Ok(match act {
        Action::Make(step) => make(alloc, world, &event_of(alloc, step)?)?,
        Action::Settle => settle(alloc, world)?,
        Action::Look(ask) => ask::told(alloc, world, ask)?,
    })
}

fn expect(
    rt: &impl Abort,
    alloc: Global,
    name: &str,
    world: &mut World,
    acts: &[(Action, &str)],
) -> Result<(), Fail> {
    for (act, wanted) in acts {
        expect_told(rt, told(alloc, world, *act), *wanted, name)?;
    }
    Ok(())
}

// A new world with packets up to this length and this capacity at each side, and the results of
// acts, one after another.
struct Row {
    name: &'static str,
    max_packet: u32,
    capacity: u16,
    acts: &'static [(Action, &'static str)],
}

fn expect_of_row(rt: &impl Abort, alloc: Global, row: &Row) -> Result<(), Fail> {
    let mut world = new_world(alloc, row.max_packet, row.capacity)?;
    expect(rt, alloc, row.name, &mut world, row.acts)
}

fn expect_of_new(rt: &impl Abort, alloc: Global, rows: &[Row]) -> Result<(), Fail> {
    for row in rows {
        expect_of_row(rt, alloc, row)?;
    }
    Ok(())
}

#[test]
fn worlds_tell(rt: HostRuntime) -> Result<(), Fail> {
    let (rt, alloc) = (&rt, rt.alloc());
    expect_of_new(rt, alloc, &loss::ROWS)?;
    expect_of_new(rt, alloc, &clocks::ROWS)?;
    expect_of_new(rt, alloc, &leaving::ROWS)?;
    expect_of_new(rt, alloc, &publish::ROWS)?;
    expect_of_new(rt, alloc, &restart::ROWS)?;
    run::expect_of_runs(rt, alloc)?;
    making::expect_made_up(rt, alloc)
}
