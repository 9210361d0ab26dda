//! The listener of a broker.

ghost use Rattle.std.specs.Prelude.{◌≢◌, IfErr};
ghost use Rattle.mq_broker.specs.Prelude.{PacketLimit};

use crate::end::BrokerEnd;
use mio::net::{TcpListener, TcpStream};
use mio::{Interest, Poll, Token};
use std::io;
use std::io::ErrorKind;
use std::net::{Net, SocketAddr};

/// Listens at an address, with this token.
pub(crate) fn listen_at<R: Net>(
    rt: &R,
    poll: &Poll,
    address: SocketAddr,
    token: Token,
) -> Result<TcpListener, BrokerEnd>
    ensures { IfErr result (λ end. end ≢ PacketLimit) }
{
    let mut listener = match TcpListener::bind(rt, address) {
        Ok(listener) => listener,
        Err(error) => return Err(BrokerEnd::of_bind(&error)),
    };
    let registry = poll.registry();
    match registry.register(&mut listener, token, Interest::READABLE) {
        Ok(()) => Ok(listener),
        Err(error) => Err(BrokerEnd::of_wait(&error)),
    }
}

/// The outcome of an attempt to accept a connection.
#[derive(Drop)]
pub(crate) enum Accepted {
    /// A connection and the address of its peer.
    Stream(TcpStream, SocketAddr),
    /// No further connection is there.
    Nothing,
    /// None can be accepted now, for example because no descriptor is free.
    NotNow(io::Error),
    /// The listener failed.
    Dead,
}

/// Accepts the next connection. Skips connections that their peers gave up.
pub(crate) fn accept(listener: &TcpListener) -> Accepted {
    for _ in 0..u64::MAX {
        match listener.accept() {
            Ok((stream, address)) => return Accepted::Stream(stream, address),
            Err(error) => match error.kind() {
                ErrorKind::Interrupted | ErrorKind::ConnectionAborted => {}
                ErrorKind::WouldBlock => return Accepted::Nothing,
                ErrorKind::InvalidInput => return Accepted::Dead,
                _ => return Accepted::NotNow(error),
            },
        }
    }
    Accepted::Nothing
}
