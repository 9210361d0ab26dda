//! Events that are generated.

use crate::compare::expect_told;
use crate::world::brief::add_hex;
use mq_packet::Message;
use mq_world::{Event, made_up};
use std::alloc::{AllocError, Global};
use std::process::Abort;
use std::test::Fail;

// Adds the quality of service, the topic and the payload of a message.
fn add_message(text: &mut String, message: &Message) -> Result<(), AllocError> {
    let topic = message.topic.as_str();
    let qos = message.qos.number();
    let retain = if message.retain { " retain" } else { "" };
    write!(text, " {qos}{retain} {topic} ")?;
    add_hex(text, message.payload.as_slice())
}

fn add_event(text: &mut String, event: &Event) -> Result<(), AllocError> {
    match event {
        Event::Publish(side, message) => {
            write!(text, "publish {side:?}")?;
            add_message(text, message)
        }
        Event::Deliver(side, count) => write!(text, "deliver {side:?} {count}"),
        Event::Drop(side) => write!(text, "drop {side:?}"),
        Event::Restart => text.push_str("restart"),
        Event::Leave => text.push_str("leave"),
        Event::Open => text.push_str("open"),
        Event::Tick(side, more) => write!(text, "tick {side:?} {more}"),
    }
}

// Adds events, with semicolons between them.
fn add_events(text: &mut String, events: &[Event]) -> Result<(), AllocError> {
    for event in events {
        if !text.is_empty() {
            text.push_str("; ")?;
        }
        add_event(text, event)?;
    }
    Ok(())
}

fn told(alloc: Global, start: u64, steps: u32) -> Result<String, Fail> {
    let mut text = String::new(alloc);
    let events = made_up(alloc, start, steps)?;
    add_events(&mut text, events.as_slice())?;
    Ok(text)
}

// Whether a longer list of a start begins with a shorter one.
fn is_longer(alloc: Global, start: u64, steps: u32, more: u32) -> Result<bool, Fail> {
    let shorter = told(alloc, start, steps)?;
    let longer = told(alloc, start, more)?;
    Ok(longer.starts_with(shorter.as_str()))
}

// The words are those of the reference generator: a start, how many steps, and the events.
static MADE: [(u64, u32, &str); 4] = [
    (
        0,
        25,
        "publish Server 2 t 00000000; drop Server; deliver Client 31; \
         publish Client 1 t 00000003; publish Server 0 t 00000004; \
         deliver Client 0; deliver Server 23; deliver Server 25; drop Server; open; \
         deliver Client 26; drop Server; tick Server 37; deliver Client 2; \
         deliver Server 19; publish Server 2 t 0000000f; drop Client; \
         publish Server 1 t 00000011; leave; deliver Server 5; deliver Client 22; \
         tick Client 332; deliver Server 5; deliver Server 15; open",
    ),
    (
        1,
        25,
        "publish Client 0 t 00000000; deliver Client 7; tick Client 853; \
         deliver Client 13; open; publish Server 0 t 00000005; open; \
         deliver Client 3; deliver Client 20; deliver Server 10; \
         publish Server 1 t 0000000a; deliver Server 10; drop Server; \
         publish Client 0 t 0000000d; deliver Client 30; \
         publish Server 1 t 0000000f; deliver Server 30; \
         publish Server 1 t 00000011; open; deliver Client 26; tick Client 733; \
         deliver Client 24; drop Server; publish Client 2 t 00000017; leave",
    ),
    (
        u64::MAX,
        6,
        "publish Client 0 t 00000000; open; drop Server; deliver Server 19; drop Client; leave",
    ),
    (0, 0, ""),
];

// Starts, each with how many steps, and how many more or as many.
static LONGER: [(u64, u32, u32); 4] = [(0, 0, 1), (0, 7, 7), (1, 20, 300), (u64::MAX, 1, 64)];

pub(super) fn expect_made_up(rt: &impl Abort, alloc: Global) -> Result<(), Fail> {
    for (start, steps, wanted) in MADE {
        expect_told(rt, told(alloc, start, steps), wanted, "made up")?;
    }
    for (start, steps, more) in LONGER {
        assert!(rt;
            is_longer(alloc, start, steps, more)?,
            "{start} {steps} {more}"
        );
    }
    Ok(())
}
