//! New connections.

ghost use Rattle.std.specs.Prelude.{◌≢◌, IfErr};
ghost use Rattle.mq_broker.specs.Prelude.{PacketLimit};

use super::{RETRY, Server};
use crate::acceptor::{Accepted, accept};
use crate::end::BrokerEnd;
use mio::net::TcpStream;
use mio::{Interest, Token};
use mq_loop::{Broker, NonBlocking};
use mq_status::Counter;
use std::io;
use std::io::Write;
use std::net::SocketAddr;

/// The maximum number of connections that are accepted after a round.
const MOST_ACCEPTS: u32 = 256;

impl<B: Broker + Drop, L: Write + Drop> Server<B, L> {
    // Accepts the connections that are pending, up to a number.
    pub(super) fn accept_all(&mut self, now: u64) -> Result<(), BrokerEnd>
        ensures { IfErr result (λ end. end ≢ PacketLimit) }
    {
        if !self.may_accept && !self.is_retry(now) {
            return Ok(());
        }
        self.may_accept = true;
        for _ in 0..MOST_ACCEPTS {
            if !self.accept_next(now)? {
                return Ok(());
            }
        }
        Ok(())
    }

    // Whether an accept failed and is to be tried again now.
    fn is_retry(&self, now: u64) -> bool {
        match self.failed_at {
            Some(failed_at) => now >= failed_at.saturating_add(RETRY),
            None => false,
        }
    }

    // Accepts a connection. Returns whether more may be pending.
    fn accept_next(&mut self, now: u64) -> Result<bool, BrokerEnd>
        ensures { IfErr result (λ end. end ≢ PacketLimit) }
    {
        match accept(&self.listener) {
            Accepted::Stream(stream, address) => {
                self.failed_at = None;
                self.open_connection(stream, address);
                Ok(true)
            }
            Accepted::Nothing => {
                self.may_accept = false;
                self.failed_at = None;
                Ok(false)
            }
            Accepted::NotNow(error) => {
                self.note_failure(now, &error);
                Ok(false)
            }
            Accepted::Dead => Err(BrokerEnd::Listener),
        }
    }

    // Notes that no connection can be accepted now.
    fn note_failure(&mut self, now: u64, error: &io::Error) {
        self.may_accept = false;
        if self.failed_at.is_none() {
            self.log.not_accepting(error);
        }
        self.failed_at = Some(now);
    }

    // Serves a connection, or drops it if there are too many or an allocation fails.
    fn open_connection(&mut self, stream: TcpStream, address: SocketAddr) {
        if self.connections.len() >= self.most {
            let metrics = &mut self.connections.observer_mut().metrics;
            metrics.add(Counter::TurnedAway, 1);
            self.log.turned_away(address);
            return;
        }
        let mut stream = stream;
        let _ = stream.set_nodelay(true);
        let Ok(place) = self.connections.vacant_place() else {
            return;
        };
        if self.peers.insert(place, address).is_err() {
            return;
        }
        let interests = Interest::READABLE | Interest::WRITABLE;
        let token = Token(place as usize);
        let registry = self.poll.registry();
        if registry.register(&mut stream, token, interests).is_err() {
            return;
        }
        if self.connections.open(place, NonBlocking(stream)) {
            self.log.opened(address);
        }
    }
}
