//! Jobs over readers that are slow or fail and writers that fail, and what errors say.

use super::{Broken, Full, checks, printed, shows};
use crate::compare::{expect_printed, expect_told};
use mq_cli::{CountFault, Failure, Fallible, Job, ShowFault, Source, WordsFault, perform};
use mq_replay::ReplayFault;
use mq_schedule::ScheduleFault;
use std::alloc::Global;
use std::fmt::Display;
use std::io;
use std::io::{ErrorKind, Read};
use std::process::Abort;
use std::test::Fail;

// The job of `show` for the standard input.
const SHOWS: Job<'static> = Job::ShowFrom {
    source: Source::Standard,
    lenient: false,
};

// A reader that gives a byte at a time.
#[derive(Drop)]
struct Slow<'a>(&'a [u8]);

impl Read for Slow<'_> {
    fn read(&mut self, room: &mut [u8]) -> io::Result<usize> {
        if room.is_empty() || self.0.is_empty() {
            return Ok(0);
        }
        room[0] = self.0[0];
        self.0 = &self.0[1..];
        Ok(1)
    }
}

// Two packets and the first byte of a third one.
const CUT: [u8; 7] = [0xc0, 0x00, 0x40, 0x02, 0x00, 0x01, 0xc0];

pub(super) fn tells_of_failed_reads(rt: &impl Abort, alloc: Global) -> Result<(), Fail> {
    let slow = printed(alloc, &SHOWS, &mut Fallible(Slow(&CUT)));
    expect_printed(rt, slow, 1, b"PINGREQ\nPUBACK id=1\nheld 1\n", "slow")?;
    for at_once in [1, 2, 3, 8] {
        let bytes = CUT.as_slice();
        let answer = printed(
            alloc,
            &checks("a file"),
            &mut Fallible(Broken { bytes, at_once }),
        );
        expect_printed(rt, answer, 2, b"file not read\n", "check")?;
        let answer = printed(alloc, &SHOWS, &mut Fallible(Broken { bytes, at_once }));
        let lines = b"PINGREQ\nPUBACK id=1\nfile not read\n";
        expect_printed(rt, answer, 2, lines, "show")?;
    }
    Ok(())
}

// Jobs without an input, and how many bytes each prints.
static PRINTED: [(Job<'static>, usize); 4] = [
    (
        Job::Match {
            filter: "a",
            name: "a",
        },
        4,
    ),
    (
        Job::Check {
            source: Source::Standard,
            lenient: false,
        },
        10,
    ),
    (Job::Random { start: 0, steps: 0 }, 21),
    (SHOWS, 0),
];

fn expect_told_failures(rt: &impl Abort, alloc: Global, job: &Job<'_>, size: usize) {
    for room in 0..size {
        let answer = perform(alloc, job, &mut io::empty(), &mut Full(room));
        assert!(rt; answer.is_err(), "{job:?} with room for {room}");
    }
    let answer = perform(alloc, job, &mut io::empty(), &mut Full(size));
    assert!(rt; answer.is_ok(), "{job:?} with room");
}

pub(super) fn tells_of_failed_writes(rt: &impl Abort, alloc: Global) {
    for (hex, size) in [("c000", 8), ("c0", 7), ("f000", 29), ("zz", 8)] {
        expect_told_failures(rt, alloc, &shows(hex), size);
    }
    for (job, size) in &PRINTED {
        expect_told_failures(rt, alloc, job, *size);
    }
}

fn said<E: Display + Drop>(alloc: Global, error: E) -> Result<String, Fail> {
    Ok(format!(in alloc; "{error}")?)
}

pub(super) fn tells_of_failures(rt: &impl Abort, alloc: Global) -> Result<(), Fail> {
    for (kind, status, text) in [
        (ErrorKind::BrokenPipe, 4, "output closed"),
        (ErrorKind::StorageFull, 4, "output failed"),
        (ErrorKind::WriteZero, 4, "output failed"),
        (ErrorKind::OutOfMemory, 3, "out of memory"),
    ] {
        let failure = Failure::from(io::Error::from(kind));
        assert_eq!(rt; failure.status(), status);
        expect_told(rt, said(alloc, failure), text, "")?;
    }
    let failure = Failure::of_words(io::Error::from(ErrorKind::InvalidData));
    assert_eq!(rt; failure.status(), 2);
    let words = "words not read: one is not UTF-8";
    expect_told(rt, said(alloc, failure), words, "")?;
    let failure = Failure::of_words(io::Error::from(ErrorKind::OutOfMemory));
    assert_eq!(rt; failure, Failure::Memory);
    Ok(())
}

// An error says this.
fn expect_said<E: Display + Drop>(
    rt: &impl Abort,
    alloc: Global,
    error: E,
    wanted: &str,
) -> Result<(), Fail> {
    expect_told(rt, said(alloc, error), wanted, "")
}

/// Errors are sentences.
pub(super) fn says_what_failed(rt: &impl Abort, alloc: Global) -> Result<(), Fail> {
    let reset = CountFault::Io(io::Error::from(ErrorKind::ConnectionReset));
    expect_said(rt, alloc, reset, "the reader failed: connection reset")?;
    let closed = ReplayFault::Io(io::Error::from(ErrorKind::BrokenPipe));
    expect_said(rt, alloc, closed, "the output failed: broken pipe")?;
    let too_long = "there are more bytes than can be counted";
    expect_said(rt, alloc, CountFault::TooLong, too_long)?;
    expect_said(rt, alloc, CountFault::Memory, "out of memory")?;
    expect_said(rt, alloc, ShowFault::BadHex, "bad hex")?;
    expect_said(rt, alloc, ShowFault::Memory, "out of memory")?;
    expect_said(rt, alloc, ReplayFault::Memory, "out of memory")?;
    expect_said(rt, alloc, WordsFault::Memory, "out of memory")
}
