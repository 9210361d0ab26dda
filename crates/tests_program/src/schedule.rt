//! Schedules: which texts are one, and how one is written.

use crate::compare::expect_told;
use mq_packet::Message;
use mq_schedule::{Schedule, ScheduleFault, Step, read_schedule, write_schedule};
use mq_world::{Event, Side};
use std::alloc::{AllocError, Global};
use std::process::Abort;
use std::test::Fail;

static TEXTS: [(&str, usize); 24] = [
    ("world 65536 4", 0),
    ("world 65536 4\n", 0),
    ("world 64 1", 0),
    ("world 268435455 65535\nopen\nsettle\n", 0),
    ("world 0064 1", 0),
    ("", 1),
    ("\n", 1),
    ("\nworld 65536 4", 1),
    ("world 63 4", 1),
    ("world 64 0", 1),
    ("world 65536 65536", 1),
    ("world 268435456 1", 1),
    ("world 4294967360 1", 1),
    ("world 65536", 1),
    ("world 65536 4 ", 1),
    ("world 65536 4 1", 0),
    ("world +65536 4", 1),
    ("World 65536 4", 1),
    ("world 65536 4\r\nopen", 1),
    ("world 65536 4\n\n", 2),
    ("world 65536 4\nopen\n\nsettle", 3),
    ("world 65536 4\nopen\nworld 65536 4\nsettle", 3),
    ("world 65536 4\nopen\nsettle\nopn\nsettle\nx\n", 4),
    ("world 65536 4\nopen\nsettle\r\n", 3),
];

// Lines that are steps.
static GOOD: [&str; 22] = [
    "pub c 2 t 78",
    "pub s 0 t -",
    "pubr s 0 a/%25%20b -",
    "pubr c 1 t 00ff",
    "pub c 01 t 78",
    "pub c 1 / 78",
    "pub c 1 %c3%a9 78",
    "pub c 1 - -",
    "to s 7",
    "to s 0",
    "to c all",
    "to s 18446744073709551615",
    "drop c",
    "drop s",
    "tick c 0",
    "tick s 060000",
    "tick s 90000",
    "tick c 18446744073709551615",
    "restart",
    "leave",
    "open",
    "settle",
];

// Lines that are none.
static BAD: [&str; 64] = [
    "",
    " ",
    "open ",
    " open",
    "open x",
    "settle ",
    "Open",
    "drop",
    "drop ",
    "drop x",
    "drop c s",
    "drop  c",
    "to",
    "to s",
    "to s ",
    "to s +7",
    "to s -7",
    "to s 7 ",
    "to s 7x",
    "to x 7",
    "to s ALL",
    "to s  7",
    "to s 18446744073709551616",
    "restart c",
    "restart ",
    "Restart",
    "leave c",
    "leave ",
    "Leave",
    "tick",
    "tick c",
    "tick c ",
    "tick c -1",
    "tick c +1",
    "tick c all",
    "tick c 18446744073709551616",
    "tick x 1",
    "tick c 1 ",
    "tick c 1 1",
    "tick  c 1",
    "tick 1 c",
    "pub",
    "pub c 3 t 78",
    "pub c +1 t 78",
    "pub c 256 t 78",
    "pub c 257 t 78",
    "pub x 1 t 78",
    "pub c 1 a/+ 78",
    "pub c 1 a# 78",
    "pub c 1  78",
    "pub c 1 t 7",
    "pub c 1 t 788",
    "pub c 1 t AB",
    "pub c 1 t 7g",
    "pub c 1 t --",
    "pub c 1 t",
    "pub c 1 t ",
    "pub c 1 t 78 ",
    "pub c 1 t 78 78",
    "pub c 1 %41 78",
    "pub c 1 %C3%A9 78",
    "pub c 1 %ff 78",
    "pub c 1 a%2 78",
    "pub c 1 %00 78",
];

fn bad_line(alloc: Global, text: &str) -> Option<usize> {
    match read_schedule(alloc, text) {
        Ok(_) => Some(0),
        Err(ScheduleFault::Line(number)) => Some(number),
        Err(ScheduleFault::Memory) => None,
    }
}

fn names_the_first_bad_line(rt: &impl Abort, alloc: Global) {
    for (text, line) in TEXTS {
        assert_eq!(rt; bad_line(alloc, text), Some(line), "{text}");
    }
}

fn bad_step(alloc: Global, step: &str) -> Result<Option<usize>, AllocError> {
    let text = format!(in alloc; "world 65536 4\n{step}\nopen")?;
    Ok(bad_line(alloc, text.as_str()))
}

fn reads_steps(rt: &impl Abort, alloc: Global) -> Result<(), Fail> {
    for step in &GOOD {
        assert_eq!(rt; bad_step(alloc, step)?, Some(0), "{step}");
    }
    Ok(())
}

fn refuses_what_is_no_step(rt: &impl Abort, alloc: Global) -> Result<(), Fail> {
    for step in &BAD {
        assert_eq!(rt; bad_step(alloc, step)?, Some(2), "{step}");
    }
    Ok(())
}

// The fields of a message.
fn shown_message(alloc: Global, message: &Message) -> Result<String, AllocError> {
    let topic = message.topic.as_str();
    let payload = message.payload.as_slice();
    let qos = message.qos.number();
    format!(in alloc; "{topic:?} {payload:?} {qos} {}", message.retain)
}

fn shown_step(alloc: Global, step: &Step) -> Result<String, AllocError> {
    match step {
        Step::Event(Event::Publish(side, message)) => {
            let message = shown_message(alloc, message)?;
            format!(in alloc; "publish {side:?} {message}\n")
        }
        Step::Event(Event::Deliver(side, count)) => {
            format!(in alloc; "deliver {side:?} {count}\n")
        }
        Step::Event(Event::Drop(side)) => format!(in alloc; "drop {side:?}\n"),
        Step::Event(Event::Restart) => format!(in alloc; "restart\n"),
        Step::Event(Event::Leave) => format!(in alloc; "leave\n"),
        Step::Event(Event::Tick(side, more)) => format!(in alloc; "tick {side:?} {more}\n"),
        Step::Event(Event::Open) => format!(in alloc; "open\n"),
        Step::Settle => format!(in alloc; "settle\n"),
    }
}

fn add_steps(alloc: Global, text: &mut String, steps: &[Step]) -> Result<(), AllocError> {
    for step in steps {
        let step = shown_step(alloc, step)?;
        text.push_str(step.as_str())?;
    }
    Ok(())
}

fn shown(alloc: Global, schedule: &Schedule) -> Result<String, AllocError> {
    let limit = schedule.limits.max_packet();
    let capacity = schedule.capacity.get();
    let mut all = format!(in alloc; "{limit} {capacity}\n")?;
    add_steps(alloc, &mut all, schedule.steps.as_slice())?;
    Ok(all)
}

fn read_and_shown(alloc: Global, text: &str) -> Result<String, Fail> {
    match read_schedule(alloc, text) {
        Ok(schedule) => Ok(shown(alloc, &schedule)?),
        Err(_) => Err("no schedule".into()),
    }
}

fn reads_what_is_written(rt: &impl Abort, alloc: Global) -> Result<(), Fail> {
    let text = "world 65536 4\npub c 2 t 78\npubr s 0 a/%25%20b -\npub s 1 %c3%a9 00ff\nto s 7\n\
                to c all\ndrop c\nrestart\nleave\ntick s 090000\nopen\nsettle";
    let want = "65536 4\npublish Client \"t\" [120] 2 false\npublish Server \"a/% b\" [] 0 true\n\
                publish Server \"é\" [0, 255] 1 false\ndeliver Server 7\n\
                deliver Client 18446744073709551615\ndrop Client\nrestart\nleave\ntick Server 90000\nopen\nsettle\n";
    expect_told(rt, read_and_shown(alloc, text), want, "")
}

// Schedules, and how they are written.
static WRITTEN: [(&str, &str); 10] = [
    ("world 64 1", "world 64 1\n"),
    ("world 0065536 04\n", "world 65536 4\n"),
    (
        "world 268435455 65535\nopen\nsettle\nleave",
        "world 268435455 65535\nopen\nsettle\nleave\n",
    ),
    (
        "world 64 1\npub c 02 t 78\npubr s 0 a/%25%20b -\n",
        "world 64 1\npub c 2 t 78\npubr s 0 a/%25%20b -\n",
    ),
    (
        "world 64 1\npubr c 1 %c3%a9 00ff",
        "world 64 1\npubr c 1 %c3%a9 00ff\n",
    ),
    (
        "world 64 1\nto s 007\nto c all",
        "world 64 1\nto s 7\nto c 18446744073709551615\n",
    ),
    ("world 64 1\ndrop c\ndrop s", "world 64 1\ndrop c\ndrop s\n"),
    ("world 64 1\nrestart", "world 64 1\nrestart\n"),
    (
        "world 64 1\ntick c 060000\ntick s 0",
        "world 64 1\ntick c 60000\ntick s 0\n",
    ),
    ("world 64 1\ntick s", "no schedule"),
];

// How the schedule of a text is written.
fn rewritten(alloc: Global, text: &str) -> Result<String, Fail> {
    match read_schedule(alloc, text) {
        Ok(schedule) => Ok(write_schedule(alloc, &schedule)?),
        Err(_) => Ok(format!(in alloc; "no schedule")?),
    }
}

fn writes_schedules(rt: &impl Abort, alloc: Global) -> Result<(), Fail> {
    for (text, written) in WRITTEN {
        expect_told(rt, rewritten(alloc, text), written, text)?;
        expect_told(rt, rewritten(alloc, written), written, written)?;
    }
    Ok(())
}

fn said(alloc: Global, fault: ScheduleFault) -> Result<String, Fail> {
    Ok(format!(in alloc; "{fault}")?)
}

fn says_what_is_wrong(rt: &impl Abort, alloc: Global) -> Result<(), Fail> {
    let line = said(alloc, ScheduleFault::Line(12));
    expect_told(rt, line, "line 12: not an event", "")?;
    expect_told(rt, said(alloc, ScheduleFault::Memory), "out of memory", "")
}

#[test]
fn schedules(rt: HostRuntime) -> Result<(), Fail> {
    let (rt, alloc) = (&rt, rt.alloc());
    names_the_first_bad_line(rt, alloc);
    reads_steps(rt, alloc)?;
    refuses_what_is_no_step(rt, alloc)?;
    reads_what_is_written(rt, alloc)?;
    writes_schedules(rt, alloc)?;
    says_what_is_wrong(rt, alloc)
}
