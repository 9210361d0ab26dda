//! The jobs of the program over readers and writers that fail, within a limit, and the arguments
//! that select them. The rows of .ci/printed.py test the output.

mod clients;
mod streams;

use mq_cli::{
    Command, CountEnd, Job, JobInput, ShowFault, Source, StreamEnd, count_packets, job, perform,
    shown,
};
use mq_decode::{DecodeFault, FaultKind, Limits};
use std::alloc::Global;
use std::io;
use std::io::{Read, Write};
use std::process::Abort;
use std::test::Fail;

fn printed<R: JobInput>(alloc: Global, job: &Job<'_>, input: &mut R) -> io::Result<(u8, Vec<u8>)> {
    let mut output = Vec::new(alloc);
    let status = perform(alloc, job, input, &mut output)?;
    Ok((status, output))
}

fn shows(hex: &str) -> Job<'_> {
    Job::Show {
        hex,
        lenient: false,
    }
}

fn checks(name: &str) -> Job<'_> {
    Job::Check {
        source: Source::File(name),
        lenient: false,
    }
}

// How many packets are shown, and how the bytes end.
fn shown_in_short(
    alloc: Global,
    hex: &str,
    limits: Limits,
) -> Result<(usize, StreamEnd), ShowFault> {
    let shown = shown(alloc, hex, limits)?;
    Ok((shown.packets.len(), shown.end))
}

fn shows_within_a_limit(rt: &impl Abort, alloc: Global, limits: Limits) {
    for (hex, kind) in [
        ("c040", FaultKind::WrongSize),
        ("c041", FaultKind::OverLimit),
    ] {
        let fault = DecodeFault { kind, place: 1 };
        let end = StreamEnd::Fault { fault, start: 0 };
        assert_eq!(rt; shown_in_short(alloc, hex, limits), Ok((0, end)), "{hex}");
    }
    assert_eq!(rt; shown_in_short(alloc, "4", limits), Err(ShowFault::BadHex));
}

fn counts_within_a_limit(rt: &impl Abort, alloc: Global, limits: Limits) -> Result<(), Fail> {
    let mut input: &[u8] = &[0xc0, 0x00, 0x30, 0x41, 0x00];
    let count = match count_packets(alloc, &mut input, limits) {
        Ok(count) => count,
        Err(_) => return Err("not counted".into()),
    };
    let fault = DecodeFault {
        kind: FaultKind::OverLimit,
        place: 1,
    };
    assert_eq!(rt; count.packets, 1);
    assert_eq!(rt; count.end, CountEnd::Fault { fault, start: 2 });
    Ok(())
}

// A writer that takes a number of bytes and then fails.
#[derive(Drop)]
struct Full(usize);

impl Write for Full {
    fn write(&mut self, buf: &[u8]) -> io::Result<usize> {
        if self.0 == 0 {
            return Err(io::Error::from(io::ErrorKind::BrokenPipe));
        }
        let n = self.0.min(buf.len());
        self.0 -= n;
        Ok(n)
    }

    fn flush(&mut self) -> io::Result<()> {
        Ok(())
    }
}

// A reader that returns a number of bytes at a time, and fails when it has none left.
#[derive(Drop)]
struct Broken<'a> {
    bytes: &'a [u8],
    at_once: usize,
}

impl Read for Broken<'_> {
    fn read(&mut self, room: &mut [u8]) -> io::Result<usize> {
        if self.bytes.is_empty() {
            return Err(io::Error::from(io::ErrorKind::ConnectionReset));
        }
        let n = self.at_once.min(room.len()).min(self.bytes.len());
        let (given, left) = self.bytes.split_at(n);
        room[..n].copy_from_slice(given);
        self.bytes = left;
        Ok(n)
    }
}

fn asks_for(alloc: Global, words: &[&str], wanted: Job<'_>) -> bool {
    match job(alloc, words) {
        Ok(Command::Job(read)) => read == wanted,
        _ => false,
    }
}

// Words, and the job that they ask for.
static ASKED: [(&[&str], Job<'static>); 10] = [
    (
        &["mqtt", "show", ""],
        Job::Show {
            hex: "",
            lenient: false,
        },
    ),
    (
        &["mqtt", "show", "--lenient", "--", "-a"],
        Job::Show {
            hex: "-a",
            lenient: true,
        },
    ),
    (
        &["mqtt", "show", "--lenient", "--file=a"],
        Job::ShowFrom {
            source: Source::File("a"),
            lenient: true,
        },
    ),
    (
        &["mqtt", "show", "-"],
        Job::ShowFrom {
            source: Source::Standard,
            lenient: false,
        },
    ),
    (
        &["mqtt", "check", "a b"],
        Job::Check {
            source: Source::File("a b"),
            lenient: false,
        },
    ),
    (
        &["mqtt", "check", "-", "--lenient"],
        Job::Check {
            source: Source::Standard,
            lenient: true,
        },
    ),
    (
        &["mqtt", "replay", "a.txt"],
        Job::Replay {
            source: Source::File("a.txt"),
        },
    ),
    (
        &["mqtt", "match", "a/#", "a"],
        Job::Match {
            filter: "a/#",
            name: "a",
        },
    ),
    // The greatest numbers.
    (
        &[
            "mqtt",
            "random",
            "--start=4294967296",
            "--steps",
            "4294967295",
        ],
        Job::Random {
            start: 4_294_967_296,
            steps: 4_294_967_295,
        },
    ),
    (
        &[
            "mqtt",
            "random",
            "--steps=0",
            "--start=18446744073709551615",
        ],
        Job::Random {
            start: 18_446_744_073_709_551_615,
            steps: 0,
        },
    ),
];

fn reads_words(rt: &impl Abort, alloc: Global) {
    for (words, job) in ASKED {
        assert!(rt; asks_for(alloc, words, job), "{words:?}");
    }
}

#[test]
fn the_program(rt: HostRuntime) -> Result<(), Fail> {
    let (rt, alloc) = (&rt, rt.alloc());
    let limits = Limits::new(64).ok_or("64 is a limit")?;
    shows_within_a_limit(rt, alloc, limits);
    counts_within_a_limit(rt, alloc, limits)?;
    reads_words(rt, alloc);
    clients::reads_words(rt, alloc)?;
    streams::tells_of_failed_reads(rt, alloc)?;
    streams::tells_of_failed_writes(rt, alloc);
    streams::tells_of_failures(rt, alloc)?;
    streams::says_what_failed(rt, alloc)
}
