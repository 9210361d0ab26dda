//! Making connections.

ghost use Rattle.std.specs.Prelude.{◌≡◌, None};

use mq_stream::{Clock, Elapsed, SocketStream, Stream, StreamError};
use std::io::ErrorKind;
use std::net::{Net, OpenStream, SocketAddr};
use std::time::{Duration, Instant};
use std::{io, time};

/// The time limit of a read, in milliseconds.
const READ_LIMIT: u64 = 100;

/// The time limit of a write and of making a connection, in seconds.
const LIMIT: u64 = 30;

/// A connection: its stream and a clock that starts with it.
#[derive(Drop)]
pub struct Connection<S: Stream, C: Clock> {
    /// The stream.
    pub stream: S,
    /// The clock.
    pub clock: C,
}

/// Makes connections.
pub trait Dial<S: Stream, C: Clock> {
    /// Makes a connection.
    fn dial(&mut self) -> Result<Connection<S, C>, StreamError>;
}

/// Makes connections to a port of 127.0.0.1. A read waits at most 100 milliseconds for bytes, a
/// write at most 30 seconds for room.
#[derive(Drop)]
pub struct Loopback<'a, R: Net + time::Clock> {
    /// The system.
    pub rt: &'a R,
    /// The port.
    pub port: u16,
    /// Why the last connection could not be made.
    pub failure: Option<ErrorKind>,
}

impl<'a, R: Net + time::Clock> Loopback<'a, R> {
    /// Makes connections to this port.
    pub fn new(rt: &'a R, port: u16) -> Loopback<'a, R>
        ensures port { result.port ≡ port }
        ensures failure { result.failure ≡ None }
    {
        Loopback {
            rt,
            port,
            failure: None,
        }
    }
}

// A connection to this port, with its time limits.
fn connect<R: Net>(net: &R, port: u16) -> io::Result<R::Stream> {
    let address = SocketAddr::from(([127, 0, 0, 1], port));
    let stream = net.connect_timeout(address, Duration::from_secs(LIMIT))?;
    stream.set_read_timeout(Some(Duration::from_millis(READ_LIMIT)))?;
    stream.set_write_timeout(Some(Duration::from_secs(LIMIT)))?;
    stream.set_nodelay(true)?;
    Ok(stream)
}

impl<'a, R: Net + time::Clock> Dial<SocketStream<R::Stream>, Elapsed<'a, R>> for Loopback<'a, R> {
    fn dial(&mut self) -> Result<Connection<SocketStream<R::Stream>, Elapsed<'a, R>>, StreamError> {
        let Ok(start) = Instant::now(self.rt) else {
            return Err(StreamError);
        };
        match connect(self.rt, self.port) {
            Ok(stream) => Ok(Connection {
                stream: SocketStream(stream),
                clock: Elapsed::since(self.rt, start),
            }),
            Err(error) => {
                self.failure = Some(error.kind());
                Err(StreamError)
            }
        }
    }
}
