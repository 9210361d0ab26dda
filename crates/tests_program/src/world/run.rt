//! Whole runs: their traces, and what follows them.

use crate::world::Action::{Look, Settle};
use crate::world::Step::{Deliver, Leave, Lose, Open, Publish, Tick};
use crate::world::ask::Ask::{Answer, Counts, HasFailed, HasSession, Held, Wire};
use crate::world::{Action, Step, event_of, expect};
use mq_decode::Limits;
use mq_topic::Qos;
use mq_world::Side::{Client, Server};
use mq_world::{Event, World};
use std::alloc::Global;
use std::process::Abort;
use std::test::Fail;

const CUT: [Step; 6] = [
    Open,
    Deliver(Server, 15),
    Deliver(Client, 4),
    Publish(Client, Qos::Q2, "t", b"x"),
    Deliver(Server, 7),
    Lose(Client),
];

const LATE: [Step; 7] = [
    Open,
    Deliver(Server, 15),
    Deliver(Client, 4),
    Publish(Client, Qos::Q2, "t", b"x"),
    Tick(Client, 60_000),
    Leave,
    Tick(Server, 90_001),
];

const TWO: [Step; 6] = [
    Open,
    Deliver(Server, 15),
    Deliver(Client, 4),
    Publish(Client, Qos::Q2, "t", b"x"),
    Publish(Client, Qos::Q2, "t", b"y"),
    Deliver(Server, 100),
];

fn events_of(alloc: Global, steps: &[Step]) -> Result<Vec<Event>, Fail> {
    let mut events = Vec::new(alloc);
    for step in steps {
        events.push(event_of(alloc, *step)?)?;
    }
    Ok(events)
}

// A run: its name, the receiving window of its sides, if they have one, its steps, and what acts on
// its world tell then.
struct Course {
    name: &'static str,
    window: Option<u16>,
    steps: &'static [Step],
    acts: &'static [(Action, &'static str)],
}

static RUNS: [Course; 5] = [
    Course {
        name: "a run has a trace",
        window: None,
        steps: &CUT,
        acts: &[
            (Look(Answer(0)), "opened"),
            (Look(Answer(1)), "100d00044d5154540400003c000177, up false"),
            (Look(Answer(2)), "20020000, up false"),
            (Look(Answer(3)), "published 1"),
            (Look(Answer(4)), "34060001740001"),
            (Look(Answer(5)), "dropped true"),
            (Look(Answer(6)), "none"),
            (Look(HasFailed), "no"),
        ],
    },
    Course {
        name: "a run counts",
        window: None,
        steps: &CUT,
        acts: &[
            (Look(Counts(Client, Qos::Q2)), "accepted 1, handed 0"),
            (Look(Counts(Server, Qos::Q2)), "accepted 0, handed 0"),
            (Look(Held(Client, Qos::Q2)), "1"),
            (Look(HasSession(Server)), "yes"),
            (Look(Wire(Client)), ""),
            (Look(Wire(Server)), "78"),
        ],
    },
    Course {
        name: "a run settles after leaving",
        window: None,
        steps: &LATE,
        acts: &[
            (Look(Answer(4)), "ticked"),
            (Look(Answer(5)), "left"),
            (Look(Answer(6)), "ticked, closed KeepAlive"),
            (Look(Wire(Server)), ""),
            (
                Settle,
                "opened; 100d00044d5154540400003c000177, up true; 20020100, up true; \
                 3c06000174000178, handed t 2 78; 50020001; 62020001; 70020001; idle true",
            ),
        ],
    },
    // The second message arrives once the first is released.
    Course {
        name: "a window of one",
        window: Some(1),
        steps: &TWO,
        acts: &[
            (
                Look(Answer(5)),
                "34060001740001783406000174000279, handed t 2 78, closed Window",
            ),
            (
                Settle,
                "opened, client dropped; 100d00044d5154540400003c000177, up true; 20020100, up true; \
                 3c060001740001783c06000174000279, closed Window; 50020001; 62020001, lost; ; idle false",
            ),
            (Look(Counts(Server, Qos::Q2)), "accepted 0, handed 1"),
            (
                Settle,
                "opened, client dropped; 100d00044d5154540400003c000177, up true; 20020100, up true; \
                 620200013c06000174000279, handed t 2 79; 7002000150020002; 62020002; 70020002; idle true",
            ),
            (Look(Counts(Client, Qos::Q2)), "accepted 2, handed 0"),
            (Look(Counts(Server, Qos::Q2)), "accepted 0, handed 2"),
        ],
    },
    Course {
        name: "a window that is large enough",
        window: Some(4),
        steps: &TWO,
        acts: &[(
            Look(Answer(5)),
            "34060001740001783406000174000279, handed t 2 78, handed t 2 79",
        )],
    },
];

// The world after these steps, with room for four messages at each side.
fn run(alloc: Global, steps: &[Step], window: Option<u16>) -> Result<World, Fail> {
    let events = events_of(alloc, steps)?;
    let limits = Limits::new(65_536).ok_or("no limits")?;
    match window {
        None => Ok(World::run(alloc, limits, 4, events.as_slice())?),
        Some(0) => Err("no window".into()),
        Some(window) => Ok(World::run_with_window(alloc, limits, 4, window, events.as_slice())?),
    }
}

// After the steps of a run, its acts tell this.
fn expect_of_run(rt: &impl Abort, alloc: Global, row: &Course) -> Result<(), Fail> {
    let mut world = run(alloc, row.steps, row.window)?;
    expect(rt, alloc, row.name, &mut world, row.acts)
}

pub(super) fn expect_of_runs(rt: &impl Abort, alloc: Global) -> Result<(), Fail> {
    for row in &RUNS {
        expect_of_run(rt, alloc, row)?;
    }
    Ok(())
}
