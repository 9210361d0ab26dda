//! Rounds over sockets that take and give bytes in any way.

use crate::packets::{CONNACK, DISCONNECT, SUBACK, connect, publish, subscribe};
use crate::wires::{Pipe, Wire, cell_of};
use mq_decode::Limits;
use mq_hub::Hub;
use mq_loop::{EventLoop, LoopLimits, NoObserver, NonBlocking, Report};
use mq_route::{HubConfig, WhenFull};
use std::alloc::{AllocError, Global};
use std::cell::RefCell;
use std::io::ErrorKind;
use std::test::Fail;

type Loop<'a> = EventLoop<Hub, NonBlocking<Wire<'a>>, NoObserver>;

fn new_loop<'a>(alloc: Global, most_owed: usize) -> Result<Loop<'a>, Fail> {
    let packets = Limits::new(1_048_576).ok_or("no limits")?;
    let config = HubConfig {
        limits: packets,
        capacity: 100,
        window: None,
        max_conns: 2_000,
        max_sessions: 2_000,
        users: None,
        hashed_users: None,
        when_full: WhenFull::ClosePublisher,
        connect_within: None,
        session_expiry: None,
        most_stored: None,
        most_waiting: None,
        most_matches: None,
    };
    let limits = LoopLimits {
        share: 4_096,
        most_owed,
        packets,
    };
    Ok(EventLoop::new(alloc, config, limits, NoObserver))
}

// Opens a connection over the socket with this number.
fn open<'a>(
    connections: &mut Loop<'a>,
    pipes: &'a RefCell<Vec<Pipe>>,
    number: usize,
) -> Result<u32, Fail> {
    let place = connections.vacant_place()?;
    let wire = Wire { pipes, number };
    if connections.open(place, NonBlocking(wire)) {
        Ok(place)
    } else {
        Err(Fail::from("not opened"))
    }
}

// Makes rounds in which each place is ready.
fn run(alloc: Global, connections: &mut Loop<'_>, places: u32, rounds: u64) -> Result<(), Fail> {
    let mut buffer = vec![in alloc; 0u8; 65_536]?;
    for nth in 0..rounds {
        for place in 0..places {
            connections.notice(place, false);
        }
        connections.round(nth, buffer.as_mut_slice())?;
    }
    Ok(())
}

fn subscriber(alloc: Global, client: u16, filter: u8) -> Result<Pipe, AllocError> {
    let mut input = connect(alloc, client, false)?;
    input.extend_from_slice(&subscribe(filter))?;
    Ok(Pipe::new(alloc, input))
}

fn publisher(alloc: Global, size: u8, count: u32) -> Result<Pipe, AllocError> {
    let mut input = connect(alloc, 999, false)?;
    let message = publish(alloc, size)?;
    for _ in 0..count {
        input.extend_from_slice(message.as_slice())?;
    }
    Ok(Pipe::new(alloc, input))
}

// The output of a subscriber that gets these messages.
fn expected(alloc: Global, size: u8, count: u32) -> Result<Vec<u8>, AllocError> {
    let mut bytes = Vec::with_capacity(alloc, 1_024)?;
    bytes.extend_from_slice(&CONNACK)?;
    bytes.extend_from_slice(&SUBACK)?;
    let message = publish(alloc, size)?;
    for _ in 0..count {
        bytes.extend_from_slice(message.as_slice())?;
    }
    Ok(bytes)
}

// Whether the socket with this number took these bytes.
fn took(pipes: &RefCell<Vec<Pipe>>, number: usize, bytes: &[u8]) -> bool {
    let Ok(pipes) = pipes.try_borrow() else {
        return false;
    };
    match pipes.get(number) {
        Some(pipe) => pipe.output.as_slice() == bytes,
        None => false,
    }
}

// Opens two readers, makes rounds, opens a writer, and makes further rounds.
fn run_three<'a>(
    alloc: Global,
    connections: &mut Loop<'a>,
    pipes: &'a RefCell<Vec<Pipe>>,
    before: u64,
    after: u64,
) -> Result<(), Fail> {
    let _ = open(connections, pipes, 0)?;
    let _ = open(connections, pipes, 1)?;
    run(alloc, connections, 2, before)?;
    let _ = open(connections, pipes, 2)?;
    run(alloc, connections, 3, after)
}

// Three sockets: a reader whose socket takes and gives pieces of this size, another reader, and a
// writer of three messages.
fn readers(alloc: Global, piece: usize, hitch: Option<ErrorKind>) -> Result<[Pipe; 3], Fail> {
    let mut reader = subscriber(alloc, 1, b't')?;
    reader.piece = piece;
    reader.hitch = hitch;
    let mut other = subscriber(alloc, 2, b't')?;
    other.piece = 7;
    Ok([reader, other, publisher(alloc, 40, 3)?])
}

// Whether a subscriber gets its messages whatever its socket does.
fn gets_all(alloc: Global, piece: usize, hitch: Option<ErrorKind>) -> Result<bool, Fail> {
    let bytes = expected(alloc, 40, 3)?;
    let pipes = cell_of(alloc, readers(alloc, piece, hitch)?)?;
    let mut connections = new_loop(alloc, 1_000_000)?;
    let rounds = if piece < 8 { 320 } else { 40 };
    let ran = run_three(alloc, &mut connections, &pipes, rounds, rounds);
    drop(connections);
    ran?;
    Ok(took(&pipes, 0, bytes.as_slice()) && took(&pipes, 1, bytes.as_slice()))
}

#[test]
fn writes_of_each_length_lose_nothing(rt: HostRuntime) -> Result<(), Fail> {
    for piece in 1..60 {
        for hitch in [
            None,
            Some(ErrorKind::Interrupted),
            Some(ErrorKind::WouldBlock),
        ] {
            let is_fine = gets_all(rt.alloc(), piece, hitch)?;
            assert!(rt; is_fine);
        }
    }
    Ok(())
}

// Three sockets: a reader whose socket fails after this number of bytes, another reader, and a
// writer of two messages.
fn one_broken(alloc: Global, most: usize) -> Result<[Pipe; 3], Fail> {
    let mut broken = subscriber(alloc, 1, b't')?;
    broken.most = most;
    broken.piece = 5;
    let other = subscriber(alloc, 2, b't')?;
    Ok([broken, other, publisher(alloc, 40, 2)?])
}

// Whether the others get all messages if one socket fails after this number of bytes.
fn survives(alloc: Global, most: usize) -> Result<bool, Fail> {
    let bytes = expected(alloc, 40, 2)?;
    let pipes = cell_of(alloc, one_broken(alloc, most)?)?;
    let mut connections = new_loop(alloc, 1_000_000)?;
    let ran = run_three(alloc, &mut connections, &pipes, 10, 20);
    let count = connections.len();
    drop(connections);
    ran?;
    Ok(took(&pipes, 1, bytes.as_slice()) && count == 2)
}

#[test]
fn a_socket_that_fails_in_a_write_ends_alone(rt: HostRuntime) -> Result<(), Fail> {
    for most in 0..90 {
        let is_fine = survives(rt.alloc(), most)?;
        assert!(rt; is_fine);
    }
    Ok(())
}

// Sockets of this number of readers, and of a writer.
fn many(alloc: Global, count: u16, messages: u32) -> Result<Vec<Pipe>, Fail> {
    let mut list = Vec::new(alloc);
    for client in 0..count {
        list.push(subscriber(alloc, client, b't')?)?;
    }
    list.push(publisher(alloc, 10, messages)?)?;
    Ok(list)
}

// Opens this number of readers, makes rounds, opens a writer, and makes further rounds.
fn run_many<'a>(
    alloc: Global,
    connections: &mut Loop<'a>,
    pipes: &'a RefCell<Vec<Pipe>>,
    count: u16,
) -> Result<(), Fail> {
    let places = u32::from(count);
    for number in 0..usize::from(count) {
        let _ = open(connections, pipes, number)?;
    }
    run(alloc, connections, places, 2)?;
    let _ = open(connections, pipes, usize::from(count))?;
    run(alloc, connections, places + 1, 8)
}

// Whether the first sockets all took these bytes.
fn all_took(pipes: &RefCell<Vec<Pipe>>, count: u16, bytes: &[u8]) -> bool {
    for number in 0..usize::from(count) {
        if !took(pipes, number, bytes) {
            return false;
        }
    }
    true
}

// Whether each of these clients gets all messages of one piece, for which one step is not enough.
fn serves_many(alloc: Global, count: u16, messages: u32) -> Result<bool, Fail> {
    let bytes = expected(alloc, 10, messages)?;
    let pipes = RefCell::new(many(alloc, count, messages)?);
    let mut connections = new_loop(alloc, 1_000_000)?;
    let ran = run_many(alloc, &mut connections, &pipes, count);
    let open = connections.len();
    drop(connections);
    ran?;
    Ok(all_took(&pipes, count, bytes.as_slice()) && open == usize::from(count) + 1)
}

#[test]
fn a_thousand_connections_are_served(rt: HostRuntime) -> Result<(), Fail> {
    let is_fine = serves_many(rt.alloc(), 999, 12)?;
    assert!(rt; is_fine);
    Ok(())
}

// The numbers of slow and of ended connections in the reports.
fn counts(connections: &mut Loop<'_>) -> (u32, u32) {
    let (mut slow, mut ended) = (0u32, 0u32);
    for report in connections.take_reports() {
        match &report {
            Report::Slow { .. } => slow = slow.saturating_add(1),
            Report::Ended { .. } => ended = ended.saturating_add(1),
            _ => {}
        }
    }
    (slow, ended)
}

// Three sockets: a reader that takes nothing, another reader, and a writer.
fn one_full(alloc: Global, count: u32) -> Result<[Pipe; 3], Fail> {
    let mut slow = subscriber(alloc, 1, b't')?;
    slow.is_full = true;
    let other = subscriber(alloc, 2, b't')?;
    let mut writer = publisher(alloc, 84, count)?;
    writer.piece = 200;
    Ok([slow, other, writer])
}

// The slow and ended connections if one takes nothing, with a limit of 1,000 pending bytes.
fn slow_counts(alloc: Global, count: u32) -> Result<(u32, u32), Fail> {
    let bytes = expected(alloc, 84, count)?;
    let pipes = cell_of(alloc, one_full(alloc, count)?)?;
    let mut connections = new_loop(alloc, 1_000)?;
    let ran = run_three(alloc, &mut connections, &pipes, 4, 10);
    let counted = counts(&mut connections);
    drop(connections);
    ran?;
    if !took(&pipes, 1, bytes.as_slice()) {
        return Err(Fail::from("the other reader was not served"));
    }
    Ok(counted)
}

#[test]
fn a_reader_that_takes_nothing_is_ended(rt: HostRuntime) -> Result<(), Fail> {
    // Each message is a PUBLISH of 89 bytes.
    let few = slow_counts(rt.alloc(), 11)?;
    assert_eq!(rt; few, (0, 0));
    let many = slow_counts(rt.alloc(), 12)?;
    assert_eq!(rt; many, (1, 1));
    Ok(())
}

// Three sockets: a reader of wills; a client that publishes this number of messages and leaves; and
// the same client again.
fn leaving(alloc: Global, count: u32) -> Result<[Pipe; 3], Fail> {
    let mut input = connect(alloc, 1, true)?;
    let message = publish(alloc, 100)?;
    for _ in 0..count {
        input.extend_from_slice(message.as_slice())?;
    }
    input.extend_from_slice(&DISCONNECT)?;
    let mut old = Pipe::new(alloc, input);
    old.is_ended = true;
    let new = Pipe::new(alloc, connect(alloc, 1, true)?);
    Ok([subscriber(alloc, 2, b'w')?, old, new])
}

// Makes rounds in which the newest connection is ready first.
fn run_newest_first<'a>(
    alloc: Global,
    connections: &mut Loop<'a>,
    pipes: &'a RefCell<Vec<Pipe>>,
) -> Result<(), Fail> {
    let mut buffer = vec![in alloc; 0u8; 65_536]?;
    let _ = open(connections, pipes, 0)?;
    let old = open(connections, pipes, 1)?;
    let new = open(connections, pipes, 2)?;
    for nth in 0..40 {
        connections.notice(new, false);
        connections.notice(old, true);
        connections.notice(0, false);
        connections.round(nth * 10, buffer.as_mut_slice())?;
    }
    Ok(())
}

// Whether a client that leaves and connects again at once, on a socket that is ready first, has no
// will.
fn leaves_first(alloc: Global, count: u32) -> Result<bool, Fail> {
    let bytes = [CONNACK.as_slice(), SUBACK.as_slice()].concat(alloc)?;
    let pipes = cell_of(alloc, leaving(alloc, count)?)?;
    let mut connections = new_loop(alloc, 1_000_000)?;
    let ran = run_newest_first(alloc, &mut connections, &pipes);
    drop(connections);
    ran?;
    Ok(took(&pipes, 0, bytes.as_slice()) && took(&pipes, 2, &CONNACK))
}

#[test]
fn a_client_that_leaves_and_returns_has_no_will(rt: HostRuntime) -> Result<(), Fail> {
    for count in [0, 1, 100, 1_000] {
        let is_fine = leaves_first(rt.alloc(), count)?;
        assert!(rt; is_fine);
    }
    Ok(())
}
