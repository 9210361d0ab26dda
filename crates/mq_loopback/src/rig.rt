//! A broker and the clients of a loopback file, in threads.

ghost use Rattle.std.specs.Prelude.{◌≡◌, ◌<◌, ◌≤◌, Err, IfOk, IsOkAnd, None, Ok, OnOk, Some, length, map, vec_len};
ghost use Rattle.mq_loopback.specs.Prelude.{journal_of, ClientError, IsPlayed};

use crate::client::Client;
use crate::client_threads::ClientThreads;
use mq_book::{Journal, Receipt};
use mq_client::ClientError;
use mq_packet::Message;
use mq_serve::{Acceptor, FinishedServer, Retention, ServeEnd, Server, WorkerResult, run_both};
use std::alloc::{AllocError, Global};
use std::io;
use std::io::ErrorKind;
use std::marker::Brand;
use std::net::{Ipv4Addr, Net, SocketAddr, TcpListener, TcpStream};
use std::sync::Wait;
use std::sync::ledger::{Blank, Ledger};
use std::thread::Threads;
use std::time::{Clock, Duration, Instant};
use thiserror::Error;

/// How many entries the journal has at most.
const JOURNAL: usize = 1_000_000;

/// How long a client's read waits for bytes, in milliseconds.
const READ_LIMIT: u64 = 100;

/// How long a connection waits for its response, and a client's write for room, in seconds.
const LIMIT: u64 = 30;

/// The result of all clients.
#[derive(Drop)]
pub struct RunResult {
    /// The messages that each client collected, in the order of the clients and of their delivery.
    pub collected: Vec<Vec<Message>>,
    /// The journal of the broker.
    pub journal: Journal,
    /// The receipts of each worker.
    pub receipts: Vec<Vec<Receipt>>,
}

/// Why clients and broker end before all is done.
#[derive(Clone, Copy, Debug, PartialEq, Eq, Error)]
pub enum RunError {
    /// The broker ended.
    #[error("{0}")]
    Broker(ServeEnd),
    /// A client had a fault.
    #[error("{0}")]
    Client(ClientError),
}

impl From<AllocError> for RunError {
    ghost use Rattle.std.specs.Prelude.{◌≡◌};
    ghost use Rattle.mq_loopback.specs.Prelude.{Broker};
    ghost use Rattle.mq_serve.specs.declared.serve_end.ServeEnd.TheVariants.{Memory};

    ghost from_gives = { λ _ end. end ≡ Broker Memory };

    fn from(_e: AllocError) -> RunError {
        RunError::Broker(ServeEnd::Memory)
    }
}

impl From<ServeEnd> for RunError {
    ghost use Rattle.std.specs.Prelude.{◌≡◌};
    ghost use Rattle.mq_loopback.specs.Prelude.{Broker};

    ghost from_gives = { λ why end. end ≡ Broker why };

    fn from(end: ServeEnd) -> RunError {
        RunError::Broker(end)
    }
}

// The listener of the broker, and a connection to it for each client.
#[derive(Drop)]
struct Rig {
    gate: Acceptor,
    streams: Vec<TcpStream>,
}

// A connection to this address, with its limits, which sends its bytes at once.
fn connect<R>(rt: &R, address: SocketAddr) -> io::Result<TcpStream>
where
    R: Net<Listener = TcpListener, Stream = TcpStream>,
{
    let stream = rt.connect_timeout(address, Duration::from_secs(LIMIT))?;
    stream.set_nodelay(true)?;
    stream.set_read_timeout(Some(Duration::from_millis(READ_LIMIT)))?;
    stream.set_write_timeout(Some(Duration::from_secs(LIMIT)))?;
    Ok(stream)
}

// Opens `count` connections to a free port of this machine.
fn open_rig<R>(rt: &R, alloc: Global, count: u16) -> io::Result<Rig>
where
    R: Net<Listener = TcpListener, Stream = TcpStream>,
    ensures { IfOk result (λ rig. vec_len rig.streams ≡ count) }
{
    let listener = TcpListener::bind(rt, (Ipv4Addr::LOCALHOST, 0))?;
    let address = listener.local_addr()?;
    let mut streams = Vec::with_capacity(alloc, usize::from(count))?;
    while streams.len() < usize::from(count) {
        streams.push(connect(rt, address)?)?;
    }
    Ok(Rig {
        gate: Acceptor::new(listener, u32::from(count)),
        streams,
    })
}

// Why the rig could not be opened.
fn end_of(error: &io::Error) -> ServeEnd {
    match error.kind() {
        ErrorKind::OutOfMemory => ServeEnd::Memory,
        kind => ServeEnd::Net(kind),
    }
}

// Runs the workers and the clients in threads, and returns their results.
#[tactic(auto, using(crate::proofs::Runs::play_done))]
fn play_by<L: Ledger + Send + Sync + 'static, R>(
    rt: &R,
    alloc: Global,
    blank: Blank,
    workers: u16,
    rig: Rig,
    clients: &[Client],
) -> Result<RunResult, RunError>
where
    R: Net<Listener = TcpListener, Stream = TcpStream> + Threads + Wait + Clock + Sync,
    requires name { blank.name ≡ L.name }
    requires parts { blank.parts ≡ L.parts }
    requires each { blank.parts ≡ workers }
    requires some { (0 < workers) × (workers ≤ 64) }
    requires clients { length clients.now ≡ workers }
    requires streams { vec_len rig.streams ≡ workers }
    ensures { IfOk result (IsPlayed clients.now) }
{
    let start = match Instant::now(rt) {
        Ok(start) => start,
        Err(error) => return Err(RunError::Broker(ServeEnd::Net(error.kind()))),
    };
    let Rig { gate, streams } = rig;
    let records = Retention::Kept(JOURNAL);
    let (hall, stations) = Server::<L>::open(rt, alloc, blank, workers, gate, start, records)?;
    let threads = ClientThreads::new(alloc, clients);
    let starts = threads.starts(streams)?;
    let (served, outcomes) = run_both(rt, &hall, stations, &threads, starts);
    let collected = collected_by(alloc, threads.into_fault(), outcomes);
    ended(hall, served, collected)
}

// The messages that the clients collected, or the first fault.
fn collected_by(
    alloc: Global,
    fault: Option<ClientError>,
    outcomes: Result<Vec<Option<Vec<Message>>>, AllocError>,
) -> Result<Vec<Vec<Message>>, RunError>
    ensures done { IfOk result (λ lists. IsOkAnd outcomes (λ all. all.items ≡ map Some lists.items)) }
    ensures none { OnOk result (fault ≡ None) }
    ensures fault { (why : ClientError) → fault ≡ Some why → result ≡ Err (RunError.Client why) }
{
    match fault {
        Some(fault) => Err(RunError::Client(fault)),
        None => all_collected(alloc, outcomes?),
    }
}

// The messages of all clients, each of which was done.
fn all_collected(
    alloc: Global,
    outcomes: Vec<Option<Vec<Message>>>,
) -> Result<Vec<Vec<Message>>, RunError>
    ensures { IfOk result (λ lists. outcomes.items ≡ map Some lists.items) }
{
    let mut lists = Vec::with_capacity(alloc, outcomes.len())?;
    for outcome in outcomes {
        let Some(messages) = outcome else {
            return Err(RunError::Client(ClientError::Lost));
        };
        let Ok(()) = lists.push(messages) else {
            return Err(RunError::Broker(ServeEnd::Memory));
        };
    }
    Ok(lists)
}

// The results of a broker and of clients that are done, or the reason why there are none.
fn ended<L: Ledger>(
    hall: Server<L>,
    served: Result<Vec<WorkerResult<L>>, AllocError>,
    collected: Result<Vec<Vec<Message>>, RunError>,
) -> Result<RunResult, RunError>
    requires all { IfOk served (λ s. vec_len s ≡ L.parts) }
    requires some { 0 < L.parts }
    ensures { IfOk result (λ run. (collected ≡ Ok run.collected) × (vec_len run.receipts ≡ L.parts)) }
{
    let closed = hall.close(served?)?;
    left(closed, collected)
}

// The result of a broker and the collected messages, or the reason why there are none.
fn left<L: Ledger>(
    closed: FinishedServer<L>,
    collected: Result<Vec<Vec<Message>>, RunError>,
) -> Result<RunResult, RunError>
    ensures collected { IfOk result (λ run. collected ≡ Ok run.collected) }
    ensures receipts { IfOk result (λ run. run.receipts ≡ closed.receipts) }
    ensures journal { IfOk result (λ run. run.journal ≡ journal_of closed.book) }
{
    let FinishedServer { mut book, receipts } = closed;
    match collected {
        Ok(collected) => Ok(RunResult {
            collected,
            journal: book.checkpoint(),
            receipts,
        }),
        Err(end) => Err(end),
    }
}

/// Runs a broker with one worker for each client, 1 to 64, and the clients. Fails if the port can't
/// be opened, the broker ends, a client has a fault, or an allocation fails.
pub fn play<R>(rt: &R, alloc: Global, clients: &[Client]) -> Result<RunResult, RunError>
where
    R: Net<Listener = TcpListener, Stream = TcpStream> + Threads + Wait + Clock + Sync,
    requires { (0 < length clients.now) × (length clients.now ≤ 64) }
    ensures { IfOk result (IsPlayed clients.now) }
{
    let workers = clients.len() as u16;
    let rig = match open_rig(rt, alloc, workers) {
        Ok(rig) => rig,
        Err(error) => return Err(RunError::Broker(end_of(&error))),
    };
    let blank = Blank::new(u64::from(workers));
    play_by::<Brand, R>(rt, alloc, blank, workers, rig, clients)
}
