//! `publish` over a session in a file.

use crate::compare::expect_told;
use crate::disk::{Disk, Lent};
use crate::script::bytes_of;
use crate::side::{Dialer, Side};
use mq_client::{Publications, SessionOptions, publish_session};
use mq_topic::{Qos, TopicName};
use mq_wire::Text;
use std::alloc::Global;
use std::cell::RefCell;
use std::process::Abort;
use std::test::Fail;

// The status and the printed text of a publication of these texts to `t` by the client `w`.
fn run(alloc: Global, disk: &Disk, side: &RefCell<Side>, texts: &[&str]) -> Result<String, Fail> {
    run_as(alloc, disk, side, texts, false)
}

// The same, over a new session if that in the file is forgotten.
fn run_as(
    alloc: Global,
    disk: &Disk,
    side: &RefCell<Side>,
    texts: &[&str],
    is_forgotten: bool,
) -> Result<String, Fail> {
    let id = Text::new(alloc, "w")?;
    let topic = TopicName::parse(alloc, "t")?;
    let texts = Publications {
        topic: &topic,
        qos: Qos::Q2,
        retain: false,
        texts,
    };
    let mut output = Vec::new(alloc);
    let session = SessionOptions {
        name: "s",
        is_forgotten,
    };
    let status = publish_session(
        alloc,
        &id,
        &texts,
        Lent(disk),
        session,
        &mut Dialer(side),
        &mut None,
        &mut output,
    )?;
    let mut told = String::new(alloc);
    write!(told, "{status}")?;
    for byte in output.as_slice() {
        let char = if *byte == b'\n' {
            '|'
        } else {
            char::from(*byte)
        };
        told.push(char)?;
    }
    Ok(told)
}

// Bytes as hexadecimal digits.
fn push_digits(told: &mut String, bytes: &[u8]) -> Result<(), Fail> {
    for byte in bytes {
        write!(told, "{byte:02x}")?;
    }
    Ok(())
}

// The file of a disk, the number of connections, and the payloads that the server received.
fn left(alloc: Global, disk: &Disk, side: &RefCell<Side>) -> Result<String, Fail> {
    let mut told = String::new(alloc);
    match disk.file.try_borrow() {
        Ok(file) => match &*file {
            Some(bytes) => push_digits(&mut told, bytes.as_slice())?,
            None => told.push_str("no file")?,
        },
        Err(_) => return Err("the disk is in use".into()),
    }
    match side.try_borrow() {
        Ok(side) => {
            write!(told, " {} ", side.connections)?;
            for byte in side.handed.as_slice() {
                told.push(char::from(*byte))?;
            }
        }
        Err(_) => return Err("the server is in use".into()),
    }
    Ok(told)
}

// A run, and the state after it.
fn run_and_left(
    alloc: Global,
    disk: &Disk,
    side: &RefCell<Side>,
    texts: &[&str],
) -> Result<String, Fail> {
    let mut told = run(alloc, disk, side, texts)?;
    let left = left(alloc, disk, side)?;
    told.push_str(left.as_str())?;
    Ok(told)
}

// The same over a file of these hexadecimal digits, which may be locked.
fn run_over(
    alloc: Global,
    file: Option<&str>,
    is_locked: bool,
    texts: &[&str],
) -> Result<String, Fail> {
    let file = match file {
        Some(digits) => Some(bytes_of(alloc, digits)?),
        None => None,
    };
    let side = RefCell::new(Side::new(alloc)?);
    let disk = Disk::new(alloc, file);
    disk.is_locked.set(is_locked);
    let told = run_and_left(alloc, &disk, &side, texts);
    drop(disk);
    drop(side);
    told
}

// A name, the file before, and the texts; and the printed text with the state after the run.
static GONE_ON: [(&str, Option<&str>, &[&str], &str); 9] = [
    (
        "a message of before, of version 1",
        Some("4d5153010004000100010001020100000174000000017800000000"),
        &[],
        "0resumed 1|published 0|4d5153020001770100040001000000000000 1 x",
    ),
    (
        "a message of before and a text",
        Some("4d515302000177000004000100010001020100000174000000017800000000"),
        &["y"],
        "0resumed 1|published 1|4d5153020001770100040002000000000000 1 xy",
    ),
    (
        "no file",
        None,
        &["x", "y"],
        "0resumed 0|published 2|4d5153020001770100640002000000000000 2 xy",
    ),
    (
        "no file and no text",
        None,
        &[],
        "0resumed 0|published 0|4d5153020001770100640000000000000000 2 ",
    ),
    (
        "no version",
        Some("4d5153030001770100040001000000000000"),
        &["y"],
        "2session L1|4d5153030001770100040001000000000000 0 ",
    ),
    (
        "malformed",
        Some("4d5153020001770200040001000000000000"),
        &["y"],
        "2session L2|4d5153020001770200040001000000000000 0 ",
    ),
    ("empty", Some(""), &["y"], "2session L1| 0 "),
    (
        "of another client",
        Some("4d5153020001760100040001000000000000"),
        &["y"],
        "2session L4|4d5153020001760100040001000000000000 0 ",
    ),
    (
        "cut",
        Some("4d51530200017701000400010000000000"),
        &["y"],
        "2session L2|4d51530200017701000400010000000000 0 ",
    ),
];

fn a_session_goes_on(rt: &impl Abort, alloc: Global) -> Result<(), Fail> {
    for (name, file, texts, wanted) in &GONE_ON {
        let told = run_over(alloc, *file, false, *texts);
        expect_told(rt, told, *wanted, *name)?;
    }
    Ok(())
}

// A run and a second run with these texts, and the state after it.
fn run_twice(
    alloc: Global,
    disk: &Disk,
    side: &RefCell<Side>,
    again: &[&str],
) -> Result<String, Fail> {
    let mut told = run(alloc, disk, side, &["x", "y"])?;
    let second = run_and_left(alloc, disk, side, again)?;
    told.push_str(second.as_str())?;
    Ok(told)
}

// The same. In the first run a write is lost after `cut` of its bytes.
fn lost_at(alloc: Global, lost_at: u32, cut: usize, again: &[&str]) -> Result<String, Fail> {
    let mut side = Side::new(alloc)?;
    side.lost_at = lost_at;
    side.cut = cut;
    let side = RefCell::new(side);
    let disk = Disk::new(alloc, None);
    let told = run_twice(alloc, &disk, &side, again);
    drop(disk);
    drop(side);
    told
}

// The connection is lost at each write in turn: CONNECT and DISCONNECT with a clean session,
// CONNECT, the PUBLISHes, the PUBRELs, DISCONNECT. Each text is delivered once in all.
fn each_text_is_handed_on_once(rt: &impl Abort, alloc: Global) -> Result<(), Fail> {
    let rows: [(u32, &[&str], &str); 6] = [
        (
            1,
            &["x", "y"],
            "1connection failed|0resumed 0|published 2|4d5153020001770100640002000000000000 3 xy",
        ),
        (
            2,
            &["x", "y"],
            "1connection failed|0resumed 0|published 2|4d5153020001770100640002000000000000 3 xy",
        ),
        (
            3,
            &["x", "y"],
            "1resumed 0|connection failed|0resumed 0|published 2|4d5153020001770100640002000000000000 3 xy",
        ),
        (
            4,
            &[],
            "1resumed 0|connection failed|0resumed 2|published 0|4d5153020001770100640002000000000000 3 xy",
        ),
        (
            5,
            &[],
            "1resumed 0|connection failed|0resumed 2|published 0|4d5153020001770100640002000000000000 3 xy",
        ),
        (
            6,
            &[],
            "1resumed 0|connection failed|0resumed 0|published 0|4d5153020001770100640002000000000000 3 xy",
        ),
    ];
    for (number, again, wanted) in rows {
        for cut in [0, 5, 4096] {
            let told = lost_at(alloc, number, cut, again);
            expect_told(rt, told, wanted, "a write is lost")?;
        }
    }
    Ok(())
}

// The number of writes to a server.
fn writes_of(side: &RefCell<Side>) -> u32 {
    match side.try_borrow() {
        Ok(side) => side.writes,
        Err(_) => 0,
    }
}

// A run on a disk that takes `renames` forms, and the number of its writes; and a second run on a
// disk that takes all.
fn run_with_renames(
    alloc: Global,
    disk: &Disk,
    side: &RefCell<Side>,
    renames: u32,
    again: &[&str],
) -> Result<String, Fail> {
    disk.renames.set(renames);
    let mut told = run(alloc, disk, side, &["x", "y"])?;
    write!(told, "{} ", writes_of(side))?;
    disk.renames.set(u32::MAX);
    let second = run_and_left(alloc, disk, side, again)?;
    told.push_str(second.as_str())?;
    Ok(told)
}

// The same on a new disk.
fn unwritten(alloc: Global, renames: u32, again: &[&str]) -> Result<String, Fail> {
    let side = RefCell::new(Side::new(alloc)?);
    let disk = Disk::new(alloc, None);
    let told = run_with_renames(alloc, &disk, &side, renames, again);
    drop(disk);
    drop(side);
    told
}

// The disk takes no form, one form, and so on: of CONNECT, CONNACK, the PUBLISHes, the PUBRECs and
// the PUBCOMPs. Without its form nothing is sent, so that the second run delivers each text once.
fn a_form_is_not_written(rt: &impl Abort, alloc: Global) -> Result<(), Fail> {
    let rows: [(u32, &[&str], &str); 5] = [
        (
            0,
            &["x", "y"],
            "1resumed 0|session not written|2 0resumed 0|published 2|4d5153020001770100640002000000000000 4 xy",
        ),
        (
            1,
            &["x", "y"],
            "1resumed 0|session not written|3 0resumed 0|published 2|4d5153020001770100640002000000000000 3 xy",
        ),
        (
            2,
            &["x", "y"],
            "1resumed 0|session not written|3 0resumed 0|published 2|4d5153020001770100640002000000000000 3 xy",
        ),
        (
            3,
            &[],
            "1resumed 0|session not written|4 0resumed 2|published 0|4d5153020001770100640002000000000000 3 xy",
        ),
        (
            4,
            &[],
            "1resumed 0|session not written|5 0resumed 2|published 0|4d5153020001770100640002000000000000 3 xy",
        ),
    ];
    for (renames, again, wanted) in rows {
        let told = unwritten(alloc, renames, again);
        expect_told(rt, told, wanted, "a form is not written")?;
    }
    Ok(())
}

// A file that can't be opened is not taken for a missing one: no connection is made, and it stays.
fn a_file_is_locked(rt: &impl Abort, alloc: Global) -> Result<(), Fail> {
    let file = "4d5153020001770100040001000000000000";
    let told = run_over(alloc, Some(file), true, &["x"]);
    let wanted = "2file not read|4d5153020001770100040001000000000000 0 ";
    expect_told(rt, told, wanted, "locked")
}

// Runs with one text, over a new session if the other one is forgotten, and the state after each.
fn run_some(
    alloc: Global,
    disk: &Disk,
    side: &RefCell<Side>,
    forgets: &[bool],
) -> Result<String, Fail> {
    let mut told = String::new(alloc);
    for is_forgotten in forgets {
        let run = run_as(alloc, disk, side, &["x"], *is_forgotten)?;
        told.push_str(run.as_str())?;
        let left = left(alloc, disk, side)?;
        writeln!(told, "{left}")?;
    }
    Ok(told)
}

// The same over a file of these hexadecimal digits.
fn run_some_over(alloc: Global, file: &str, forgets: &[bool]) -> Result<String, Fail> {
    let file = bytes_of(alloc, file)?;
    let side = RefCell::new(Side::new(alloc)?);
    let disk = Disk::new(alloc, Some(file));
    let told = run_some(alloc, &disk, &side, forgets);
    drop(disk);
    drop(side);
    told
}

// The server has no session for the client of the file. Each run reports that, and only the first
// one connects, until the session is forgotten.
fn a_session_is_lost(rt: &impl Abort, alloc: Global) -> Result<(), Fail> {
    let file = "4d5153020001770100040001000000000000";
    let told = run_some_over(alloc, file, &[false, false, true, false]);
    let wanted = "1resumed 0|closed C4|4c4f53544d5153020001770100040001000000000000 1 \n\
        1resumed 0|closed C4|4c4f53544d5153020001770100040001000000000000 1 \n\
        0resumed 0|published 1|4d5153020001770100640001000000000000 3 x\n\
        0resumed 0|published 1|4d5153020001770100640002000000000000 4 xx\n";
    expect_told(rt, told, wanted, "a lost session")
}

#[test]
fn all_hold(rt: HostRuntime) -> Result<(), Fail> {
    a_session_goes_on(&rt, rt.alloc())?;
    each_text_is_handed_on_once(&rt, rt.alloc())?;
    a_form_is_not_written(&rt, rt.alloc())?;
    a_file_is_locked(&rt, rt.alloc())?;
    a_session_is_lost(&rt, rt.alloc())
}
