//! The loop of a broker over sockets.

ghost use Rattle.std.specs.Prelude.{◌≡◌, ◌≢◌, ◌↔◌, [], IfErr, OnErr};
ghost use Rattle.mq_broker.specs.Prelude.{IsPacketLimit, PacketLimit, IsReached};

mod accepting;
mod answering;
mod reporting;

use crate::acceptor::listen_at;
use crate::counted::Counted;
use crate::end::BrokerEnd;
use crate::log::{Log, LogLevel};
use crate::options::BrokerOptions;
use crate::peers::Peers;
use crate::site::Site;
use crate::status_port::StatusPort;
use mio::net::{TcpListener, TcpStream};
use mio::{Events, Poll, Token};
use mq_hub::Hub;
use mq_loop::{Broker, EventLoop, NonBlocking, SnapshotBroker};
use mq_route::begun_laws;
use mq_stream::{Clock, Elapsed};
use std::alloc::{AllocError, Global};
use std::io::Write;
use std::net::{Net, SocketAddr};
use std::time::{Duration, Instant};
use std::{io, time};

/// The size of the buffer of a read, in bytes. A PUBLISH with a payload of 64 KiB fits, so that its
/// bytes are copied once.
const CHUNK: usize = 69_632;

/// The maximum number of places for which memory is reserved at the beginning.
const MOST_RESERVED: usize = 65_536;

/// The size of a block that is allocated and freed at the beginning, in bytes. The `malloc` of
/// glibc then keeps up to twice this number of freed bytes, instead of giving the memory of each
/// round's output back to the system. It learns so from blocks below 32 MiB only.
const FREED: usize = 33_550_000;

/// The time after which a failed accept is tried again, in milliseconds.
const RETRY: u64 = 100;

/// The maximum number of events of one wait.
const MOST_EVENTS: usize = 16_384;

/// The token of the listener. Other tokens are places.
const LISTENER: Token = Token(usize::MAX);

// A broker that listens.
#[derive(Drop)]
struct Server<B: Broker + Drop, W: Write> {
    poll: Poll,
    listener: TcpListener,
    connections: EventLoop<B, NonBlocking<TcpStream>, Counted>,
    // The time of the broker at the beginning, in milliseconds.
    began_at: u64,
    status: Option<StatusPort>,
    peers: Peers,
    log: Log<W>,
    most: usize,
    // Connections may be pending at the listener.
    may_accept: bool,
    // The time of the last accept, in milliseconds, if it failed and must be tried again.
    failed_at: Option<u64>,
    // The time of the last lines about missed messages, in milliseconds.
    missed_at: Option<u64>,
    // The time at which the broker was last asked for its deadline, in milliseconds.
    asked_at: Option<u64>,
}

/// Runs a broker until its listener fails. Writes `listening ADDR:PORT` to `output`.
///
/// Returns the reason for the end. Allocates, also while it runs; a connection for which an
/// allocation fails is closed.
#[tactic(auto, using(crate::proofs::Begins::hub_reached))]
pub fn run_broker<R: Net + time::Clock, W: Write, L: Write + Drop>(
    rt: &R,
    alloc: Global,
    options: BrokerOptions,
    output: &mut W,
    log: Log<L>,
) -> BrokerEnd
    ensures { (result ≡ PacketLimit) ↔ ¬ (IsPacketLimit options.max_packet) }
{
    let Some(packets) = options.packets() else {
        return BrokerEnd::PacketLimit;
    };
    begun_laws();
    let site = Site::new(&options, packets);
    let hub = Hub::new(alloc, options.into_config(packets));
    match run_at(rt, alloc, site, hub, 0, output, log) {
        Ok(()) => BrokerEnd::Listener,
        Err(end) => end,
    }
}

/// Runs a broker whose clock continues from a time in milliseconds. It must know no connection.
pub(crate) fn run_at<R: Net + time::Clock, B: SnapshotBroker + Drop, W: Write, L: Write + Drop>(
    rt: &R,
    alloc: Global,
    site: Site,
    broker: B,
    began_at: u64,
    output: &mut W,
    log: Log<L>,
) -> Result<(), BrokerEnd>
    requires { IsReached (B.state broker) }
    ensures { IfErr result (λ end. end ≢ PacketLimit) }
{
    let mut server = Server::open(rt, alloc, site, broker, began_at, log)?;
    server.serve(rt, alloc, output)
}

fn new_poll<R: Net>(rt: &R) -> Result<Poll, BrokerEnd>
    ensures { IfErr result (λ end. end ≢ PacketLimit) }
{
    match Poll::new(rt) {
        Ok(poll) => Ok(poll),
        Err(error) => Err(BrokerEnd::of_wait(&error)),
    }
}

// Writes the line of the listener.
fn write_address<W: Write>(output: &mut W, address: SocketAddr) -> io::Result<()> {
    writeln!(output, "listening {address}")?;
    output.flush()
}

// Has `malloc` keep freed memory, for the output of the next round.
fn keep_freed_memory(alloc: Global) {
    let block: Result<Vec<u8>, AllocError> = Vec::with_capacity(alloc, FREED);
    drop(block);
}

impl<B: Broker + Drop, L: Write + Drop> Server<B, L> {
    // Opens the listeners.
    fn open<R: Net>(
        rt: &R,
        alloc: Global,
        site: Site,
        broker: B,
        began_at: u64,
        log: Log<L>,
    ) -> Result<Server<B, L>, BrokerEnd>
        requires { IsReached (B.state broker) }
        ensures { IfErr result (λ end. end ≢ PacketLimit) }
    {
        let poll = new_poll(rt)?;
        let listener = listen_at(rt, &poll, site.listen, LISTENER)?;
        let status = match site.metrics {
            Some(address) => Some(StatusPort::open(rt, alloc, &poll, address)?),
            None => None,
        };
        let places = site.max_connections.min(MOST_RESERVED);
        let mut connections = EventLoop::over(alloc, broker, site.limits, Counted::new(alloc));
        let _ = connections.reserve(places);
        let mut peers = Peers::new(alloc, log.has(LogLevel::Normal));
        let _ = peers.reserve(places);
        keep_freed_memory(alloc);
        Ok(Server {
            poll,
            listener,
            connections,
            began_at,
            status,
            peers,
            log,
            most: site.max_connections,
            may_accept: true,
            failed_at: None,
            missed_at: None,
            asked_at: None,
        })
    }

    // Writes the line of the listener, to the output and to the log.
    fn announce<W: Write>(&mut self, output: &mut W) -> Result<(), BrokerEnd>
        ensures { IfErr result (λ end. end ≢ PacketLimit) }
    {
        let Ok(address) = self.listener.local_addr() else {
            return Err(BrokerEnd::Listener);
        };
        if write_address(output, address).is_err() {
            return Err(BrokerEnd::Output);
        }
        self.log.listening(address);
        self.log.flush();
        Ok(())
    }

    // Waits, makes a round, and accepts connections. Returns the time of the round.
    //
    // A new connection takes a free place, so the reports about the last connection of that place
    // are written before it. It is accepted after a round, so that the broker knows the time.
    fn turn<R: time::Clock>(
        &mut self,
        rt: &R,
        alloc: Global,
        clock: &mut Elapsed<'_, R>,
        events: &mut Events<Global>,
        buffer: &mut [u8],
        last: u64,
    ) -> Result<u64, BrokerEnd>
        ensures { IfErr result (λ end. end ≢ PacketLimit) }
    {
        self.wait(events, last)?;
        let now = self.began_at.saturating_add(clock.now());
        let began = Instant::now(rt);
        let settled = self.connections.round(now, buffer);
        self.count_round(rt, began);
        self.take_reports(now);
        settled?;
        self.accept_all(now)?;
        self.answer_requests(alloc, events);
        Ok(now)
    }

    // Waits until a connection is ready, or until the broker needs a tick.
    fn wait(&mut self, events: &mut Events<Global>, now: u64) -> Result<(), BrokerEnd>
        ensures { IfErr result (λ end. end ≢ PacketLimit) }
    {
        let limit = self.limit(now);
        if let Err(error) = self.poll.poll(events, limit) {
            return Err(BrokerEnd::of_wait(&error));
        }
        for event in events.iter() {
            if event.token() == LISTENER {
                self.may_accept = true;
                continue;
            }
            let Token(place) = event.token();
            let Ok(place) = u32::try_from(place) else {
                continue;
            };
            let has_hung_up = event.is_read_closed() || event.is_error();
            self.connections.notice(place, has_hung_up);
        }
        Ok(())
    }

    // Counts a round and its time.
    fn count_round<R: time::Clock>(&mut self, rt: &R, began: io::Result<Instant>) {
        let Ok(began) = began else {
            return;
        };
        let Ok(time) = began.elapsed(rt) else {
            return;
        };
        let time = u64::try_from(time.as_micros()).unwrap_or(u64::MAX);
        self.connections.observer_mut().metrics.count_round(time);
    }

    // The time until the broker needs a tick. To answer, it may look at every session, so it is
    // asked at most once between two ticks.
    fn rest(&mut self, now: u64) -> Option<u64> {
        if let Some(asked_at) = self.asked_at {
            if now.saturating_sub(asked_at) < RETRY {
                return Some(RETRY);
            }
        }
        self.asked_at = Some(now);
        rest_until(self.connections.hub().next_deadline(), now)
    }

    // The maximum time to wait. `None` if there is no limit.
    fn limit(&mut self, now: u64) -> Option<Duration> {
        if self.may_accept || self.connections.is_due() {
            return Some(Duration::from_millis(0));
        }
        let mut limit = self.rest(now).unwrap_or(u64::MAX);
        if self.failed_at.is_some() {
            limit = RETRY;
        }
        if let Some(due) = self.missed_due() {
            limit = limit.min(due.saturating_sub(now));
        }
        if limit == u64::MAX {
            return None;
        }
        Some(Duration::from_millis(limit))
    }
}

impl<B: SnapshotBroker + Drop, L: Write + Drop> Server<B, L> {
    // Makes round after round.
    fn serve<R: time::Clock, W: Write>(
        &mut self,
        rt: &R,
        alloc: Global,
        output: &mut W,
    ) -> Result<(), BrokerEnd>
        ensures { IfErr result (λ end. end ≢ PacketLimit) }
    {
        self.announce(output)?;
        let Ok(start) = Instant::now(rt) else {
            return Err(BrokerEnd::Listener);
        };
        let mut clock = Elapsed::since(rt, start);
        let most = self.most.saturating_add(1).min(MOST_EVENTS);
        let mut events = Events::with_capacity(alloc, most)?;
        let mut buffer = vec![in alloc; 0u8; CHUNK]?;
        self.serve_rounds(rt, alloc, &mut clock, &mut events, buffer.as_mut_slice())
    }

    // Makes round after round. After each one the log gets the notes about snapshots.
    fn serve_rounds<R: time::Clock>(
        &mut self,
        rt: &R,
        alloc: Global,
        clock: &mut Elapsed<'_, R>,
        events: &mut Events<Global>,
        buffer: &mut [u8],
    ) -> Result<(), BrokerEnd>
        ensures limit { IfErr result (λ end. end ≢ PacketLimit) }
        ensures reported { OnErr result (self.new.connections.watched.served.notes ≡ []) }
    {
        let mut now = self.began_at;
        for _ in 0..u64::MAX {
            let turned = self.turn(rt, alloc, clock, events, buffer, now);
            let _ = self.report_snapshots();
            now = turned?;
        }
        Ok(())
    }
}

// The time until a deadline, but at least that between two ticks, in milliseconds.
fn rest_until(deadline: Option<u64>, now: u64) -> Option<u64> {
    let deadline = deadline?;
    Some(deadline.saturating_sub(now).max(RETRY))
}
