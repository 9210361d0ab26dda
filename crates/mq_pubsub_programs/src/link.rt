//! Connections to one broker.

ghost use Rattle.std.specs.Prelude.{◌≡◌};
ghost use Rattle.mq_pubsub_programs.specs.Prelude.{status_of};

use crate::common::patience_of;
use crate::explain::{Place, Work, status_of, tell_end};
use crate::polled::PolledStream;
use crate::trace::TracedStream;
use crate::watch::Watch;
use mq_client::Connection;
use mq_pubsub::{RunError, Setup};
use mq_pubsub_options::Common;
use mq_pubsub_runs::{Network, PacketStream};
use mq_stream::{Elapsed, Stream, StreamError};
use std::alloc::Global;
use std::io::ErrorKind;
use std::net::{Net, OpenStream, SocketAddr, ToSocketAddrs};
use std::time::{Clock, Duration, Instant};
use std::{io, thread};

/// The time limit of a write and of making a connection, in seconds.
const LIMIT: u64 = 30;

/// Why no connection was made.
#[derive(Clone, Copy)]
pub(crate) enum NoLink {
    /// The name has no address.
    Unresolved,
    /// No address was connected.
    Refused(ErrorKind),
}

/// Connections to one broker.
#[derive(Drop)]
pub(crate) struct Link<'a, R> {
    pub(crate) rt: &'a R,
    pub(crate) alloc: Global,
    pub(crate) host: &'a str,
    pub(crate) port: u16,
    pub(crate) watch: &'a Watch,
    pub(crate) start: Instant,
    /// After how many milliseconds without a byte a connection counts as lost.
    pub(crate) patience: Option<u64>,
    /// Packets are printed.
    pub(crate) is_traced: bool,
    /// Why the last connection was not made.
    pub(crate) failure: Option<NoLink>,
}

/// The stream of a connection.
pub(crate) type LinkStream<'a, R> = TracedStream<'a, PolledStream<'a, <R as Net>::Stream>, R>;

// A connection to an address, with its time limits.
fn connect<R: Net>(net: &R, address: SocketAddr) -> io::Result<R::Stream> {
    let stream = net.connect_timeout(address, Duration::from_secs(LIMIT))?;
    stream.set_write_timeout(Some(Duration::from_secs(LIMIT)))?;
    stream.set_nodelay(true)?;
    Ok(stream)
}

// A connection to one of the addresses of a host.
fn connect_any<R: Net>(net: &R, host: &str, port: u16) -> Result<R::Stream, NoLink> {
    let Ok(addresses) = (host, port).to_socket_addrs(net) else {
        return Err(NoLink::Unresolved);
    };
    let mut failure = NoLink::Unresolved;
    for address in addresses {
        match connect(net, address) {
            Ok(stream) => return Ok(stream),
            Err(error) => failure = NoLink::Refused(error.kind()),
        }
    }
    Err(failure)
}

impl<'a, R> Link<'a, R> {
    /// Connections to the broker of the options.
    pub(crate) fn new(
        rt: &'a R,
        alloc: Global,
        common: &'a Common,
        watch: &'a Watch,
        start: Instant,
    ) -> Link<'a, R> {
        Link {
            rt,
            alloc,
            host: common.address.host.as_str(),
            port: common.address.port,
            watch,
            start,
            patience: patience_of(common.keep_alive),
            is_traced: common.debug,
            failure: None,
        }
    }

    // The broker, for sentences of this command.
    fn place(&self, command: &'a str, common: &Common, session: Option<&'a str>) -> Place<'a> {
        Place {
            command,
            host: self.host,
            port: self.port,
            failure: self.failure,
            session,
            has_user: common.address.user.is_some(),
            retries: common.longest_wait.is_some(),
        }
    }

    /// Says why a run of this command stopped early, unless it is to be quiet. Returns its status.
    pub(crate) fn report(
        &self,
        command: &'a str,
        common: &Common,
        session: Option<&'a str>,
        end: Result<(), RunError>,
        work: Work,
    ) -> u8
    where
        R: Eprint,
        ensures { result ≡ status_of end }
    {
        if let (Err(error), false) = (end, common.quiet) {
            let place = self.place(command, common, session);
            tell_end(self.rt, &place, error, work);
        }
        status_of(end)
    }
}

impl<'a, R: Net + Clock + Eprint> Link<'a, R> {
    // A connection, whose stream does not end its reads at packets.
    fn make(&mut self) -> Result<Connection<LinkStream<'a, R>, Elapsed<'a, R>>, StreamError> {
        let Ok(start) = Instant::now(self.rt) else {
            return Err(StreamError);
        };
        let socket = match connect_any(self.rt, self.host, self.port) {
            Ok(socket) => socket,
            Err(failure) => {
                self.failure = Some(failure);
                return Err(StreamError);
            }
        };
        let Ok(polled) = PolledStream::new(self.alloc, socket, self.watch, self.patience) else {
            self.failure = Some(NoLink::Refused(ErrorKind::OutOfMemory));
            return Err(StreamError);
        };
        Ok(Connection {
            stream: TracedStream::new(self.rt, self.alloc, polled, Setup::limits(), self.is_traced),
            clock: Elapsed::since(self.rt, start),
        })
    }

    // The milliseconds since the start.
    pub(crate) fn elapsed(&self) -> u64 {
        match self.start.elapsed(self.rt) {
            Ok(elapsed) => u64::try_from(elapsed.as_millis()).unwrap_or(u64::MAX),
            Err(_) => 0,
        }
    }
}

/// Connections for a publisher.
impl<'a, R: Net + Clock + Eprint> Network<LinkStream<'a, R>, Elapsed<'a, R>> for Link<'a, R> {
    fn dial(&mut self) -> Result<Connection<LinkStream<'a, R>, Elapsed<'a, R>>, StreamError> {
        self.make()
    }

    fn now(&mut self) -> u64 {
        self.elapsed()
    }

    fn pause(&mut self, milliseconds: u64) {
        thread::sleep(self.rt, Duration::from_millis(milliseconds));
    }
}

/// Connections for a subscriber, whose streams end their reads at packets.
#[derive(Drop)]
pub(crate) struct PacketLink<'b, 'a, R>(pub(crate) &'b mut Link<'a, R>);

impl<'a, R: Net + Clock + Eprint> Network<PacketStream<LinkStream<'a, R>>, Elapsed<'a, R>>
    for PacketLink<'_, 'a, R> {
    fn dial(
        &mut self,
    ) -> Result<Connection<PacketStream<LinkStream<'a, R>>, Elapsed<'a, R>>, StreamError> {
        let Connection { stream, clock } = self.0.make()?;
        Ok(Connection {
            stream: PacketStream::new(stream, Setup::limits()),
            clock,
        })
    }

    fn now(&mut self) -> u64 {
        self.0.elapsed()
    }

    fn pause(&mut self, milliseconds: u64) {
        thread::sleep(self.0.rt, Duration::from_millis(milliseconds));
    }
}
