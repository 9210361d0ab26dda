//! A worker that replaces a full journal, and one that stops at it.

ghost use Rattle.std.specs.Prelude.{◌≡◌};

use crate::line::{Line, Still, config};
use mq_book::{
    ConnectionSource, NoObserver, OnFull, Share, SharedHub, WorkEnd, Worker, serve_connections,
};
use std::alloc::Global;
use std::marker::Brand;
use std::process::Abort;
use std::sync::Wait;
use std::sync::ledger::{Blank, Ledger};
use std::test::Fail;

// A client that connects, and asks whether the broker is alive.
const CLIENT: [&[u8]; 2] = [
    b"\x10\x0d\x00\x04MQTT\x04\x02\x00\x00\x00\x01o",
    b"\xc0\x00",
];

// The result of a worker with two clients and a journal of at most two entries.
const ROWS: [(OnFull, Result<u32, WorkEnd>); 2] = [
    (OnFull::Checkpoint, Ok(2)),
    (OnFull::Stop, Err(WorkEnd::JournalFull)),
];

// This number of such clients, one after another.
#[derive(Drop)]
struct Clients {
    alloc: Global,
    left: u32,
}

impl ConnectionSource for Clients {
    type Stream = Line;

    fn next(&mut self) -> Option<Line> {
        self.left = self.left.checked_sub(1)?;
        Some(Line {
            pieces: &CLIENT,
            writes: u32::MAX,
            written: Vec::new(self.alloc),
        })
    }
}

fn served_by<L: Ledger, R: Wait>(
    rt: &R,
    alloc: Global,
    shared: &SharedHub<L>,
    share: Share<L>,
    on_full: OnFull,
) -> Result<Result<u32, WorkEnd>, Fail> {
    let mut worker = Worker::new(rt, shared, share, on_full, NoObserver);
    let mut clients = Clients { alloc, left: 2 };
    let mut buffer = vec![in alloc; 0u8; 64]?;
    Ok(serve_connections(
        &mut worker,
        alloc,
        &mut clients,
        &mut Still,
        buffer.as_mut_slice(),
    ))
}

fn served<L: Ledger, R: Wait>(
    rt: &R,
    alloc: Global,
    blank: Blank,
    on_full: OnFull,
) -> Result<Result<u32, WorkEnd>, Fail>
    requires name { blank.name ≡ L.name }
    requires parts { blank.parts ≡ L.parts }
    requires one { blank.parts ≡ 1 }
{
    let (shared, mut shares) = SharedHub::<L>::new(alloc, blank, 1, config()?, 2)?;
    match shares.pop() {
        Some(share) => served_by(rt, alloc, &shared, share, on_full),
        None => Err("no share".into()),
    }
}

fn walk<R: Wait + Abort>(rt: &R, alloc: Global) -> Result<(), Fail> {
    for (on_full, wanted) in &ROWS {
        let end = served::<Brand, R>(rt, alloc, Blank::new(1), *on_full)?;
        assert_eq!(rt; end, *wanted, "{:?}", on_full);
    }
    Ok(())
}

#[test]
fn a_full_journal_is_replaced(rt: HostRuntime) -> Result<(), Fail> {
    walk(&rt, rt.alloc())
}
