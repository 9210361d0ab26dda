//! A broker whose disk stops after a number of calls, and the broker that is recovered from it.

ghost use Rattle.std.specs.Prelude.{◌≡◌, ◌<◌, [], true, None, IfOk, OnOk};
ghost use Rattle.mq_record.specs.Encoding.{is_recorded};

use bytes::Bytes;
use mq_decode::Limits;
use mq_durable::{CommitError, Durable, RecoverError, Recovery};
use mq_hub::{Hub, HubConfig};
use mq_log::{DiskError, FreezingDisk, Journal, MemoryDisk, begin};
use mq_route::{Conn, HubEvent, WhenFull};
use std::alloc::{AllocError, Global};
use std::process::Abort;
use std::test::Fail;

type TestDisk = FreezingDisk<MemoryDisk>;

// The connection of the client `home`, and that of the publisher.
const HOME: Conn = Conn { worker: 0, nth: 1 };

const PUBLISHER: Conn = Conn { worker: 0, nth: 2 };

// CONNECT of `home` with clean session 0, and SUBSCRIBE to `a` with QoS 1.
const CONNECT_HOME: &str = "101000044d515454040000000004686f6d65";

const SUBSCRIBE: &str = "8206000100016101";

// CONNECT of the publisher, and its messages of QoS 1.
const CONNECT_PUBLISHER: &str = "100d00044d51545404020000000170";

const PUBLISH: [&str; 3] = [
    "32070001610001aa31",
    "32070001610002aa32",
    "32070001610003aa33",
];

// The output to `home` when it connects again, by the number of messages that were accepted.
const DELIVERED: [&str; 4] = [
    "20020100",
    "2002010032070001610001aa31",
    "2002010032070001610001aa3132070001610002aa32",
    "2002010032070001610001aa3132070001610002aa3232070001610003aa33",
];

// The output to `home` if its session was not recorded.
const NEW_SESSION: &str = "20020000";

// The number of rounds. The disk has four calls for each commit, and two for each new file.
const ROUNDS: u64 = 9;

fn config() -> Result<HubConfig, Fail>
    ensures capacity { IfOk result (λ c. 0 < c.capacity) }
    ensures window { IfOk result (λ c. c.window ≡ None) }
{
    Ok(HubConfig {
        limits: Limits::new(1_048_576).ok_or("no limits")?,
        capacity: 100,
        window: None,
        max_conns: 100,
        max_sessions: 100,
        users: None,
        hashed_users: None,
        when_full: WhenFull::ClosePublisher,
        connect_within: None,
        session_expiry: None,
        most_stored: None,
        most_waiting: None,
        most_matches: None,
    })
}

// The event of bytes in hexadecimal on a connection.
fn bytes_on(alloc: Global, conn: Conn, hex: &str) -> Result<HubEvent, Fail>
    ensures { IfOk result (λ event. is_recorded event ≡ true) }
{
    let bytes = hex::decode(alloc, hex).ok().ok_or("no hexadecimal")?;
    Ok(HubEvent::Bytes(conn, Bytes::copy_from_slice(alloc, bytes.as_slice())?))
}

// A broker, and the snapshot in its folder. Each commit begins a new file, or none does.
#[derive(Drop)]
struct Folder {
    durable: Durable<TestDisk>,
    snapshot: Option<Vec<u8>>,
    begins_files: bool,
}

// Begins a new file, which takes the calls that are left, and then replaces the snapshot.
fn begin_next(alloc: Global, folder: &mut Folder) -> Result<Result<(), CommitError>, Fail>
    requires { folder.old.durable.pending ≡ [] }
    ensures { folder.new.durable.pending ≡ [] }
{
    let snapshot = folder.durable.hub().save()?;
    let calls = folder.durable.disk().calls_left();
    let disk = FreezingDisk::new(MemoryDisk::new(alloc, Vec::new(alloc)), calls);
    match folder.durable.continue_in(disk) {
        Ok(_) => {
            folder.snapshot = Some(snapshot);
            Ok(Ok(()))
        }
        Err(error) => Ok(Err(error)),
    }
}

// Commits, and then begins a new file if each commit does.
fn commit(alloc: Global, folder: &mut Folder) -> Result<Result<(), CommitError>, Fail>
    ensures { IfOk result (λ made. OnOk made (folder.new.durable.pending ≡ [])) }
{
    match folder.durable.commit() {
        Ok(()) if folder.begins_files => begin_next(alloc, folder),
        made => Ok(made),
    }
}

// Makes a round with one event, and returns the output of a connection. Returns `None` if the disk
// has stopped.
fn round(
    alloc: Global,
    folder: &mut Folder,
    event: &HubEvent,
    conn: Conn,
) -> Result<Option<String>, Fail>
    requires { is_recorded event.now ≡ true }
{
    let _ = folder.durable.step(event)?;
    match commit(alloc, folder)? {
        Ok(()) => {}
        Err(CommitError::Disk(DiskError::Failed)) => return Ok(None),
        Err(error) => return Err(error.into()),
    }
    match folder.durable.collect(conn) {
        Ok(reply) => Ok(Some(hex::encode(alloc, reply.output.as_slice())?)),
        Err(_) => Ok(Some(String::new(alloc))),
    }
}

// The client `home` subscribes and leaves. Returns whether the disk has not stopped.
fn subscribe(alloc: Global, folder: &mut Folder) -> Result<bool, Fail> {
    if round(alloc, folder, &HubEvent::Opened(HOME), HOME)?.is_none() {
        return Ok(false);
    }
    for hex in [CONNECT_HOME, SUBSCRIBE] {
        let event = bytes_on(alloc, HOME, hex)?;
        if round(alloc, folder, &event, HOME)?.is_none() {
            return Ok(false);
        }
    }
    Ok(round(alloc, folder, &HubEvent::Ended(HOME), HOME)?.is_some())
}

// Publishes the messages, and returns the number of those that the broker acknowledged.
fn publish(alloc: Global, folder: &mut Folder) -> Result<usize, Fail> {
    if round(alloc, folder, &HubEvent::Opened(PUBLISHER), PUBLISHER)?.is_none() {
        return Ok(0);
    }
    let event = bytes_on(alloc, PUBLISHER, CONNECT_PUBLISHER)?;
    if round(alloc, folder, &event, PUBLISHER)?.is_none() {
        return Ok(0);
    }
    let mut acknowledged = 0usize;
    for hex in PUBLISH {
        let event = bytes_on(alloc, PUBLISHER, hex)?;
        let Some(output) = round(alloc, folder, &event, PUBLISHER)? else {
            break;
        };
        if output.as_str().starts_with("4002") {
            acknowledged = acknowledged.saturating_add(1);
        }
    }
    Ok(acknowledged)
}

// What a crash left: the snapshot, if there is one, and the file, with its content before the last
// write if no sync followed it. Also the number of messages that were acknowledged.
#[derive(Drop)]
struct Crash {
    snapshot: Option<Vec<u8>>,
    file: Vec<u8>,
    before: Option<Vec<u8>>,
    acknowledged: usize,
}

// The crash after a number of calls. If it is odd, the last call was a write. That was a write of
// this file, if the file had no call left.
fn crash_of(
    alloc: Global,
    disk: &TestDisk,
    calls: u64,
    acknowledged: usize,
) -> Result<Crash, AllocError> {
    let before = match disk.disk().past() {
        [.., before] if calls % 2 == 1 && disk.calls_left() == 0 => Some(
            before.as_slice().to_vec(alloc)?,
        ),
        _ => None,
    };
    Ok(Crash {
        snapshot: None,
        file: disk.disk().bytes().to_vec(alloc)?,
        before,
        acknowledged,
    })
}

// The rounds of both clients, and what the folder has then.
fn crash_in(alloc: Global, folder: &mut Folder, calls: u64) -> Result<Crash, Fail> {
    let acknowledged = if subscribe(alloc, folder)? {
        publish(alloc, folder)?
    } else {
        0
    };
    let mut crash = crash_of(alloc, folder.durable.disk(), calls, acknowledged)?;
    crash.snapshot = folder.snapshot.take();
    Ok(crash)
}

// The crash after a number of calls of the disk.
fn crash_after(alloc: Global, calls: u64, begins_files: bool) -> Result<Crash, Fail> {
    let mut disk = FreezingDisk::new(MemoryDisk::new(alloc, Vec::new(alloc)), calls);
    match begin(&mut disk) {
        Ok(()) => {}
        Err(DiskError::Failed) => return Ok(crash_of(alloc, &disk, calls, 0)?),
        Err(error) => return Err(error.into()),
    }
    let mut folder = Folder {
        durable: Durable::new(alloc, Hub::new(alloc, config()?), Journal::new(disk)),
        snapshot: None,
        begins_files,
    };
    let crash = crash_in(alloc, &mut folder, calls);
    drop(folder);
    crash
}

// The output to `home` when it connects.
fn output_at(alloc: Global, folder: &mut Folder) -> Result<String, Fail> {
    let _ = folder.durable.step(&HubEvent::Opened(HOME))?;
    let event = bytes_on(alloc, HOME, CONNECT_HOME)?;
    Ok(round(alloc, folder, &event, HOME)?.ok_or("the disk stopped")?)
}

// The output to `home` when it connects to a recovered broker.
fn output_of(alloc: Global, recovery: Recovery) -> Result<String, Fail> {
    let mut disk = FreezingDisk::new(MemoryDisk::new(alloc, Vec::new(alloc)), 100);
    begin(&mut disk)?;
    let mut folder = Folder {
        durable: Durable::new(alloc, recovery.end_all()?, Journal::new(disk)),
        snapshot: None,
        begins_files: false,
    };
    let output = output_at(alloc, &mut folder);
    drop(folder);
    output
}

// The broker of a snapshot, or a new one.
fn hub_of(alloc: Global, snapshot: &Option<Vec<u8>>) -> Result<Hub, Fail> {
    match snapshot {
        Some(snapshot) => Ok(Hub::load(alloc, config()?, snapshot.as_slice())?),
        None => Ok(Hub::new(alloc, config()?)),
    }
}

// Everything that was acknowledged is there, and at most one message more.
fn check(rt: &impl Abort, alloc: Global, crash: &Crash, file: &[u8]) -> Result<(), Fail> {
    let acknowledged = crash.acknowledged;
    let hub = hub_of(alloc, &crash.snapshot)?;
    let recovery = Recovery::of(alloc, hub)?.replay(file)?;
    let output = output_of(alloc, recovery)?;
    let mut holds = acknowledged == 0 && output.as_str() == NEW_SESSION;
    for count in 0..DELIVERED.len() {
        if output.as_str() == DELIVERED[count] {
            holds = count == acknowledged || count == acknowledged.saturating_add(1);
        }
    }
    assert!(rt;
        holds,
        "{acknowledged} acknowledged, then {}",
        output.as_str()
    );
    Ok(())
}

// The content that a crash leaves if `len` bytes of the last write are on the disk.
fn torn(alloc: Global, file: &[u8], before: &[u8], len: usize) -> Result<Vec<u8>, AllocError> {
    let mut bytes = Vec::new(alloc);
    for i in 0..file.len() {
        if i < len {
            bytes.push(file[i])?;
        } else if i < before.len() {
            bytes.push(before[i])?;
        }
    }
    Ok(bytes)
}

#[test]
fn a_stop_after_each_call(rt: HostRuntime) -> Result<(), Fail> {
    let alloc = rt.alloc();
    for (begins_files, calls) in [(false, 2 + 4 * ROUNDS), (true, 2 + (4 + 2) * ROUNDS)] {
        let whole = crash_after(alloc, calls, begins_files)?;
        assert_eq!(rt; whole.acknowledged, 3);
        for calls in 0..=calls {
            let crash = crash_after(alloc, calls, begins_files)?;
            let file = crash.file.as_slice();
            check(&rt, alloc, &crash, file)?;
            let Some(before) = &crash.before else {
                continue;
            };
            for len in 0..file.len() {
                let bytes = torn(alloc, file, before.as_slice(), len)?;
                check(&rt, alloc, &crash, bytes.as_slice())?;
            }
        }
    }
    Ok(())
}

// Whether a file is refused as damaged, or gives a broker that had some of the messages.
fn is_sound(alloc: Global, file: &[u8]) -> Result<bool, Fail> {
    let hub = Hub::new(alloc, config()?);
    match Recovery::of(alloc, hub)?.replay(file) {
        Ok(recovery) => {
            let output = output_of(alloc, recovery)?;
            Ok(output.as_str() == NEW_SESSION || DELIVERED.contains(&output.as_str()))
        }
        Err(RecoverError::Damaged(_)) => Ok(true),
        Err(_) => Ok(false),
    }
}

#[test]
fn a_cut_and_a_changed_byte_at_each_place(rt: HostRuntime) -> Result<(), Fail> {
    let alloc = rt.alloc();
    let crash = crash_after(alloc, 2 + 4 * ROUNDS, false)?;
    assert_eq!(rt; crash.acknowledged, 3);
    for place in 0..crash.file.len() {
        assert!(rt; is_sound(alloc, &crash.file[..place])?, "cut at {place}");
        let mut changed = crash.file.as_slice().to_vec(alloc)?;
        changed[place] ^= 0x81;
        assert!(rt; is_sound(alloc, changed.as_slice())?, "changed at {place}");
    }
    Ok(())
}

// A round in which the broker takes CONNECT and SUBSCRIBE of one piece in two steps. Returns the
// numbers of bytes used, and what the disk holds then.
fn step_twice(
    alloc: Global,
    durable: &mut Durable<TestDisk>,
    piece: &[u8],
) -> Result<(usize, usize, Vec<u8>), Fail> {
    let _ = durable.step(&HubEvent::Opened(HOME))?;
    let (_, first) = durable.step_some(HOME, piece, 1)?;
    let (_, behind) = piece.split_at(first);
    let (_, second) = durable.step_some(HOME, behind, 1)?;
    durable.commit()?;
    let file = durable.disk().disk().bytes().to_vec(alloc)?;
    Ok((first, second, file))
}

#[test]
fn a_step_for_the_front_of_a_piece(rt: HostRuntime) -> Result<(), Fail> {
    let alloc = rt.alloc();
    let mut piece = hex::decode(alloc, CONNECT_HOME)
        .ok()
        .ok_or("no hexadecimal")?;
    let subscribe = hex::decode(alloc, SUBSCRIBE).ok().ok_or("no hexadecimal")?;
    piece.extend_from_slice(subscribe.as_slice())?;
    let mut disk = FreezingDisk::new(MemoryDisk::new(alloc, Vec::new(alloc)), 100);
    begin(&mut disk)?;
    let mut durable = Durable::new(alloc, Hub::new(alloc, config()?), Journal::new(disk));
    let used = step_twice(alloc, &mut durable, piece.as_slice());
    drop(durable);
    let (first, second, file) = used?;
    assert_eq!(rt; (first, second), (18, 8));
    let hub = Hub::new(alloc, config()?);
    let recovery = Recovery::of(alloc, hub)?.replay(file.as_slice())?;
    let output = output_of(alloc, recovery)?;
    assert_eq!(rt; output.as_str(), DELIVERED[0]);
    Ok(())
}
