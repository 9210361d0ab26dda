//! Rounds over a broker whose commits fail after a number of them.

ghost use Rattle.std.specs.Prelude.{true};

use crate::packets::{CONNACK, SUBACK, connect, publish, subscribe};
use crate::wires::{Pipe, Wire, cell_of};
use mq_decode::Limits;
use mq_hub::Hub;
use mq_loop::{Broker, CommitFailure, EventLoop, LoopLimits, NoObserver, NonBlocking};
use mq_route::{Conn, HubConfig, HubEvent, HubRefusal, HubReply, WhenFull};
use std::alloc::{AllocError, Global};
use std::cell::{Cell, RefCell};
use std::test::Fail;

// A broker that makes this number of commits.
#[derive(Drop)]
struct Fragile<'a> {
    hub: Hub,
    commits_left: u32,
    is_committed: bool,
    // The number of collects while a step was not committed.
    early: &'a Cell<u32>,
}

impl Broker for Fragile<'_> {
    ghost state = { λ broker. broker.hub };

    ghost committed = { λ broker. broker.is_committed };

    ghost can_fail = { true };

    fn hub(&self) -> &Hub {
        &self.hub
    }

    fn step(&mut self, event: &HubEvent) -> Result<HubReply, HubRefusal> {
        let reply = self.hub.step(event)?;
        self.is_committed = false;
        Ok(reply)
    }

    fn step_some(
        &mut self,
        conn: Conn,
        piece: &[u8],
        most_acts: usize,
    ) -> Result<(HubReply, usize), HubRefusal> {
        let stepped = self.hub.step_some(conn, piece, most_acts)?;
        self.is_committed = false;
        Ok(stepped)
    }

    fn collect(&mut self, conn: Conn) -> Result<HubReply, HubRefusal> {
        if !self.is_committed {
            self.early.set(self.early.get().wrapping_add(1));
        }
        self.hub.step(&HubEvent::Collect(conn))
    }

    fn commit(&mut self) -> Result<(), CommitFailure> {
        if self.commits_left == 0 {
            return Err(CommitFailure::Storage);
        }
        self.commits_left -= 1;
        self.is_committed = true;
        Ok(())
    }
}

type Loop<'a> = EventLoop<Fragile<'a>, NonBlocking<Wire<'a>>, NoObserver>;

#[tactic(auto, using(crate::proofs::Begins::hub_reached))]
fn new_loop<'a>(alloc: Global, commits: u32, early: &'a Cell<u32>) -> Result<Loop<'a>, Fail> {
    let packets = Limits::new(1_048_576).ok_or("no limits")?;
    let config = HubConfig {
        limits: packets,
        capacity: 100,
        window: None,
        max_conns: 10,
        max_sessions: 10,
        users: None,
        hashed_users: None,
        when_full: WhenFull::ClosePublisher,
        connect_within: None,
        session_expiry: None,
        most_stored: None,
        most_waiting: None,
        most_matches: None,
    };
    let limits = LoopLimits {
        share: 4_096,
        most_owed: 1_000_000,
        packets,
    };
    let broker = Fragile {
        hub: Hub::new(alloc, config),
        commits_left: commits,
        is_committed: true,
        early,
    };
    Ok(EventLoop::over(alloc, broker, limits, NoObserver))
}

// A subscriber, a publisher of this number of messages, and a client that only connects.
fn clients(alloc: Global, count: u32) -> Result<[Pipe; 3], AllocError> {
    let mut reader = connect(alloc, 1, false)?;
    reader.extend_from_slice(&subscribe(b't'))?;
    let mut writer = connect(alloc, 2, false)?;
    for _ in 0..count {
        writer.extend_from_slice(publish(alloc, 40)?.as_slice())?;
    }
    let mut writer = Pipe::new(alloc, writer);
    writer.piece = 30;
    let other = Pipe::new(alloc, connect(alloc, 3, false)?);
    Ok([Pipe::new(alloc, reader), writer, other])
}

// The output of the subscriber if it gets this number of messages.
fn expected(alloc: Global, count: u32) -> Result<Vec<u8>, AllocError> {
    let mut bytes = Vec::new(alloc);
    bytes.extend_from_slice(&CONNACK)?;
    bytes.extend_from_slice(&SUBACK)?;
    for _ in 0..count {
        bytes.extend_from_slice(publish(alloc, 40)?.as_slice())?;
    }
    Ok(bytes)
}

// The numbers of bytes that the sockets took.
fn taken(pipes: &RefCell<Vec<Pipe>>) -> [usize; 3] {
    let mut counts = [0; 3];
    let Ok(pipes) = pipes.try_borrow() else {
        return counts;
    };
    for number in 0..3 {
        if let Some(pipe) = pipes.get(number) {
            counts[number] = pipe.output.len();
        }
    }
    counts
}

// Makes a round in which each place is ready. Returns whether its commits succeeded.
fn round(connections: &mut Loop<'_>, now: u64, buffer: &mut [u8]) -> bool {
    for place in 0..3 {
        connections.notice(place, false);
    }
    connections.round(now, buffer).is_ok()
}

// Makes rounds until a commit fails, or 40. Returns the number of rounds whose commits succeeded.
// After a failure no round succeeds, and no socket takes a byte.
fn run<'a>(
    alloc: Global,
    connections: &mut Loop<'a>,
    pipes: &'a RefCell<Vec<Pipe>>,
) -> Result<u64, Fail> {
    let mut buffer = vec![in alloc; 0u8; 4_096]?;
    for number in 0..3 {
        let place = connections.vacant_place()?;
        if !connections.open(place, NonBlocking(Wire { pipes, number })) {
            return Err(Fail::from("not opened"));
        }
    }
    for nth in 0..40 {
        if round(connections, nth, buffer.as_mut_slice()) {
            continue;
        }
        let before = taken(pipes);
        for later in 0..3 {
            if round(connections, 1_000 + later, buffer.as_mut_slice()) {
                return Err(Fail::from("a round succeeds after a failed commit"));
            }
        }
        if taken(pipes) != before {
            return Err(Fail::from("output after a failed commit"));
        }
        return Ok(nth);
    }
    Ok(40)
}

// Whether the subscriber got the first of these bytes; or all, if no commit failed.
fn got_front(pipes: &RefCell<Vec<Pipe>>, bytes: &[u8], is_whole: bool) -> bool {
    let Ok(pipes) = pipes.try_borrow() else {
        return false;
    };
    let Some(pipe) = pipes.first() else {
        return false;
    };
    if is_whole {
        pipe.output.as_slice() == bytes
    } else {
        bytes.starts_with(pipe.output.as_slice())
    }
}

// Whether nothing is wrong if the commits fail after this number. Returns the number of rounds too.
fn fails_after(alloc: Global, commits: u32) -> Result<(bool, u64), Fail> {
    let bytes = expected(alloc, 5)?;
    let pipes = cell_of(alloc, clients(alloc, 5)?)?;
    let early = Cell::new(0);
    let mut connections = new_loop(alloc, commits, &early)?;
    let ran = run(alloc, &mut connections, &pipes);
    drop(connections);
    let rounds = ran?;
    let is_fine = early.get() == 0 && got_front(&pipes, bytes.as_slice(), rounds == 40);
    Ok((is_fine, rounds))
}

#[test]
fn no_output_without_a_commit(rt: HostRuntime) -> Result<(), Fail> {
    for commits in 0..45 {
        let (is_fine, rounds) = fails_after(rt.alloc(), commits)?;
        assert!(rt; is_fine, "{commits} commits");
        assert_eq!(rt; rounds, u64::from(commits.min(40)));
    }
    Ok(())
}
