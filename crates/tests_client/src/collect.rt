use crate::compare::expect_told;
use crate::script::{Line, Scripted, line_of, peer_at, told};
use mq_client::{CollectGoal, collect};
use mq_topic::{Qos, TopicFilter};
use std::alloc::Global;
use std::io;
use std::io::{ErrorKind, Write};
use std::process::Abort;
use std::test::Fail;

// The status, the printed text and the written bytes of a collection.
fn told_of(alloc: Global, peer: &mut Scripted, goal: &CollectGoal<'_>) -> Result<String, Fail> {
    let mut output = Vec::new(alloc);
    let status = collect(alloc, peer, goal, false, &mut None, &mut output)?;
    let written = peer.stream().written.as_slice();
    told(alloc, status, output.as_slice(), written)
}

// The same for `count` messages of `a/#`.
fn collected(alloc: Global, line: Line, count: u32) -> Result<String, Fail> {
    let filter = TopicFilter::parse(alloc, "a/#")?;
    let goal = CollectGoal {
        filter: &filter,
        qos: Qos::Q2,
        count,
    };
    let mut peer = peer_at(alloc, line)?;
    let told = told_of(alloc, &mut peer, &goal);
    drop(peer);
    told
}

// A name, the reads, the number of messages that are wanted; and the status with the printed text
// and the written bytes.
type Row = (&'static str, &'static str, u32, &'static str);

// Messages that are collected.
const COLLECTED: [Row; 5] = [
    (
        "none",
        "20020000 9003000102",
        0,
        "0 subscribed\n100d00044d5154540400003c000177820800010003612f2302e000",
    ),
    (
        "two",
        "20020000 9003000102 34090003612f6200016869 62020001 34090003612f620002796f 62020002",
        2,
        "0 subscribed\na/b 2 6869\na/b 2 796f\n100d00044d5154540400003c000177820800010003612f230250020001700200015002000270020002e000",
    ),
    (
        "before the answer",
        "20020100 30070003612f626869 9003000102",
        1,
        "0 subscribed\na/b 0 6869\n100d00044d5154540400003c000177820800010003612f2302e000",
    ),
    (
        "escaped",
        "20020000 9003000102 30070005612f206225",
        1,
        "0 subscribed\na/%20b%25 0 -\n100d00044d5154540400003c000177820800010003612f2302e000",
    ),
    (
        "more than wanted",
        "20020000 9003000102 30070003612f62686930070003612f62796f",
        1,
        "0 subscribed\na/b 0 6869\na/b 0 796f\n100d00044d5154540400003c000177820800010003612f2302e000",
    ),
];

// Connections that end too early.
const ENDED: [Row; 3] = [
    (
        "refused",
        "20020000 9003000180",
        1,
        "1 not subscribed\n100d00044d5154540400003c000177820800010003612f2302",
    ),
    (
        "lost before the answer",
        "20020100 30070003612f626869",
        1,
        "1 a/b 0 6869\nconnection failed\n100d00044d5154540400003c000177820800010003612f2302",
    ),
    (
        "closed behind a message",
        "20020000 9003000102 30070003612f626869f000",
        2,
        "1 subscribed\na/b 0 6869\nclosed C1\n100d00044d5154540400003c000177820800010003612f2302",
    ),
];

fn expect(rt: &impl Abort, alloc: Global, rows: &[Row]) -> Result<(), Fail> {
    for (name, reads, count, wanted) in rows {
        expect_told(
            rt,
            collected(alloc, line_of(*reads), *count),
            *wanted,
            *name,
        )?;
    }
    Ok(())
}

fn messages_are_printed(rt: &impl Abort, alloc: Global) -> Result<(), Fail> {
    expect(rt, alloc, &COLLECTED)
}

fn connections_end(rt: &impl Abort, alloc: Global) -> Result<(), Fail> {
    expect(rt, alloc, &ENDED)
}

// The connection is lost at each write in turn. Messages that were delivered are printed.
fn writes_fail(rt: &impl Abort, alloc: Global) -> Result<(), Fail> {
    let reads = "20020000 9003000102 34090003612f6200016869 62020001";
    for (fails_at, wanted) in [
        (1, "1 connection failed\n"),
        (2, "1 connection failed\n100d00044d5154540400003c000177"),
        (
            3,
            "1 subscribed\na/b 2 6869\nconnection failed\n100d00044d5154540400003c000177820800010003612f2302",
        ),
        (
            4,
            "1 subscribed\na/b 2 6869\nconnection failed\n100d00044d5154540400003c000177820800010003612f230250020001",
        ),
        (
            5,
            "1 subscribed\na/b 2 6869\nconnection failed\n100d00044d5154540400003c000177820800010003612f23025002000170020001",
        ),
        (
            6,
            "0 subscribed\na/b 2 6869\n100d00044d5154540400003c000177820800010003612f23025002000170020001e000",
        ),
    ] {
        let line = Line {
            fails_at,
            ..line_of(reads)
        };
        expect_told(rt, collected(alloc, line, 1), wanted, "a write fails")?;
    }
    Ok(())
}

// An output with room for some bytes, which can be flushed some times.
#[derive(Drop)]
struct Output {
    printed: Vec<u8>,
    room: usize,
    flushes: u32,
}

impl Write for Output {
    fn write(&mut self, buf: &[u8]) -> io::Result<usize> {
        let count = buf.len().min(self.room);
        if count == 0 {
            return Err(io::Error::from(ErrorKind::StorageFull));
        }
        self.printed.extend_from_slice(&buf[..count])?;
        self.room -= count;
        Ok(count)
    }

    fn flush(&mut self) -> io::Result<()> {
        if self.flushes == 0 {
            return Err(io::Error::from(ErrorKind::StorageFull));
        }
        self.flushes -= 1;
        Ok(())
    }
}

// The printed text and the written bytes of a collection into this output.
fn told_into(
    alloc: Global,
    peer: &mut Scripted,
    goal: &CollectGoal<'_>,
    mut output: Output,
) -> Result<String, Fail> {
    let status = collect(alloc, peer, goal, false, &mut None, &mut output).unwrap_or(9);
    let written = peer.stream().written.as_slice();
    told(alloc, status, output.printed.as_slice(), written)
}

// The same for two messages. The output has room for `room` bytes, and is flushed `flushes` times.
fn unprinted(
    alloc: Global,
    reads: &'static str,
    room: usize,
    flushes: u32,
) -> Result<String, Fail> {
    let filter = TopicFilter::parse(alloc, "a/#")?;
    let goal = CollectGoal {
        filter: &filter,
        qos: Qos::Q2,
        count: 2,
    };
    let mut peer = peer_at(alloc, line_of(reads))?;
    let output = Output {
        printed: Vec::new(alloc),
        room,
        flushes,
    };
    let told = told_into(alloc, &mut peer, &goal, output);
    drop(peer);
    told
}

// A message that is not printed, or not flushed, is not acknowledged, whether it comes before
// SUBACK, with it, or later. Status 9 means that the output failed.
fn the_output_fails(rt: &impl Abort, alloc: Global) -> Result<(), Fail> {
    const EARLY: &str =
        "20020100 34090003612f6200016869 9003000102 34090003612f620002796f 62020001 62020002";
    const WITH: &str =
        "20020100 34090003612f62000168699003000102 34090003612f620002796f 62020001 62020002";
    const LATE: &str =
        "20020100 9003000102 34090003612f6200016869 34090003612f620002796f 62020001 62020002";
    const BEGUN: &str = "100d00044d5154540400003c000177820800010003612f2302";
    for reads in [EARLY, WITH] {
        for (room, flushes, printed, sent) in [
            (5, 9, "subsc", ""),
            (11, 9, "subscribed\n", ""),
            (20, 9, "subscribed\na/b 2 686", ""),
            (99, 0, "subscribed\na/b 2 6869\n", ""),
            (30, 9, "subscribed\na/b 2 6869\na/b 2 79", "50020001"),
            (99, 1, "subscribed\na/b 2 6869\na/b 2 796f\n", "50020001"),
        ] {
            let mut wanted = String::new(alloc);
            write!(wanted, "9 {printed}{BEGUN}{sent}")?;
            let told = unprinted(alloc, reads, room, flushes);
            expect_told(rt, told, wanted.as_str(), "the output fails")?;
        }
    }
    for (room, flushes, printed, sent) in [
        (11, 9, "subscribed\n", ""),
        (99, 0, "subscribed\n", ""),
        (99, 1, "subscribed\na/b 2 6869\n", ""),
        (99, 2, "subscribed\na/b 2 6869\na/b 2 796f\n", "50020001"),
    ] {
        let mut wanted = String::new(alloc);
        write!(wanted, "9 {printed}{BEGUN}{sent}")?;
        let told = unprinted(alloc, LATE, room, flushes);
        expect_told(rt, told, wanted.as_str(), "the output fails later")?;
    }
    Ok(())
}

// After a minute without a packet the client sends PINGREQ, before and after SUBACK.
fn a_client_pings(rt: &impl Abort, alloc: Global) -> Result<(), Fail> {
    let line = Line {
        step: 60_000,
        ..line_of("20020000 - 9003000102 d000 30070003612f626869")
    };
    let told = collected(alloc, line, 1);
    let wanted =
        "0 subscribed\na/b 0 6869\n100d00044d5154540400003c000177820800010003612f2302c000c000c000c000e000";
    expect_told(rt, told, wanted, "pings")
}

#[test]
fn all_hold(rt: HostRuntime) -> Result<(), Fail> {
    messages_are_printed(&rt, rt.alloc())?;
    connections_end(&rt, rt.alloc())?;
    writes_fail(&rt, rt.alloc())?;
    the_output_fails(&rt, rt.alloc())?;
    a_client_pings(&rt, rt.alloc())
}
