//! The port on which the broker serves its metrics over HTTP.

ghost use Rattle.std.specs.Prelude.{◌≢◌, ◌≤◌, length, IfErr};
ghost use Rattle.mq_broker.specs.Prelude.{PacketLimit};

use crate::acceptor::listen_at;
use crate::end::BrokerEnd;
use mio::net::{TcpListener, TcpStream};
use mio::{Interest, Poll, Token};
use mq_status::{Answer, Reply, request};
use std::alloc::{AllocError, Global};
use std::io::{ErrorKind, Read, Write};
use std::net::{Net, SocketAddr};

/// The token of the listener.
pub(crate) const LISTENER: Token = Token(usize::MAX - 1);

/// The token of the first connection.
pub(crate) const FIRST: usize = 1 << 40;

/// The maximum number of connections. A further one takes the place of another.
pub(crate) const SLOTS: usize = 16;

/// The maximum number of reads of a connection at a time.
const READS: u32 = 16;

// A connection that asks for the metrics.
#[derive(Drop)]
struct Asker {
    stream: TcpStream,
    received: Vec<u8>,
    response: Vec<u8>,
    sent: usize,
}

/// The port on which the broker serves its metrics over HTTP.
#[derive(Drop)]
pub(crate) struct StatusPort {
    alloc: Global,
    listener: TcpListener,
    askers: Vec<Option<Asker>>,
    next: usize,
}

impl StatusPort {
    /// Listens on an address.
    pub(crate) fn open<R: Net>(
        rt: &R,
        alloc: Global,
        poll: &Poll,
        address: SocketAddr,
    ) -> Result<StatusPort, BrokerEnd>
        ensures { IfErr result (λ end. end ≢ PacketLimit) }
    {
        let listener = listen_at(rt, poll, address, LISTENER)?;
        let mut askers = Vec::with_capacity(alloc, SLOTS)?;
        for _ in 0..SLOTS {
            if askers.push(None).is_err() {
                return Err(BrokerEnd::Memory);
            }
        }
        Ok(StatusPort {
            alloc,
            listener,
            askers,
            next: 0,
        })
    }

    /// Accepts each connection that is pending.
    pub(crate) fn accept_all(&mut self, poll: &Poll) {
        for _ in 0..u64::MAX {
            let Ok((stream, _)) = self.listener.accept() else {
                return;
            };
            self.add(poll, stream);
        }
    }

    fn add(&mut self, poll: &Poll, stream: TcpStream) {
        let mut stream = stream;
        let slot = self.next % SLOTS;
        self.next = (slot + 1) % SLOTS;
        let interests = Interest::READABLE | Interest::WRITABLE;
        let token = Token(FIRST + slot);
        if poll
            .registry()
            .register(&mut stream, token, interests)
            .is_err()
        {
            return;
        }
        if slot < self.askers.len() {
            self.askers[slot] = Some(Asker {
                stream,
                received: Vec::new(self.alloc),
                response: Vec::new(self.alloc),
                sent: 0,
            });
        }
    }

    fn remove(&mut self, slot: usize) {
        if slot < self.askers.len() {
            self.askers[slot] = None;
        }
    }

    /// Continues a connection that is ready. Returns its request once it has arrived.
    pub(crate) fn continue_at(&mut self, slot: usize) -> Option<Reply> {
        if slot >= self.askers.len() {
            return None;
        }
        let asker = self.askers[slot].as_mut()?;
        let answer = if asker.response.is_empty() {
            asker.hear()
        } else {
            asker.send()
        };
        match answer {
            Answer::Pending => None,
            Answer::Respond(reply) => Some(reply),
            Answer::Close => {
                self.remove(slot);
                None
            }
        }
    }

    /// Writes a response to a connection, as far as it takes it.
    pub(crate) fn respond(&mut self, slot: usize, response: Vec<u8>) {
        if slot >= self.askers.len() {
            return;
        }
        let Some(asker) = &mut self.askers[slot] else {
            return;
        };
        asker.response = response;
        if let Answer::Close = asker.send() {
            self.remove(slot);
        }
    }
}

impl Asker {
    // Reads the request.
    fn hear(&mut self) -> Answer {
        for _ in 0..READS {
            if let Some(answer) = self.hear_once() {
                return answer;
            }
        }
        Answer::Close
    }

    // Reads once. Returns `None` if more may be read at once.
    fn hear_once(&mut self) -> Option<Answer> {
        let mut buffer = [0u8; 1_024];
        match self.stream.read(&mut buffer) {
            Ok(0) => Some(Answer::Close),
            Ok(count) => self.take(&buffer[..count]),
            Err(error) => answer_to(error.kind()),
        }
    }

    // Adds bytes to the request. Returns `None` if it is not complete yet.
    fn take(&mut self, bytes: &[u8]) -> Option<Answer> {
        if self.received.extend_from_slice(bytes).is_err() {
            return Some(Answer::Close);
        }
        match request(self.received.as_slice()) {
            Answer::Pending => None,
            answer => Some(answer),
        }
    }

    // Writes the response. Returns `Close` at its end, or if the connection failed.
    fn send(&mut self) -> Answer {
        for _ in 0..u64::MAX {
            if let Some(answer) = self.send_once() {
                return answer;
            }
        }
        Answer::Close
    }

    // Writes once. Returns `None` if more may be written at once.
    fn send_once(&mut self) -> Option<Answer> {
        let sent = self.sent.min(self.response.len());
        let (_, rest) = self.response.as_slice().split_at(sent);
        if rest.is_empty() {
            return Some(Answer::Close);
        }
        match self.stream.write(rest) {
            Ok(0) => Some(Answer::Close),
            Ok(count) => {
                self.sent = sent.saturating_add(count);
                None
            }
            Err(error) => answer_to(error.kind()),
        }
    }
}

// The answer to an error of a socket. `None` if the call is to be made again.
fn answer_to(kind: ErrorKind) -> Option<Answer> {
    match kind {
        ErrorKind::Interrupted => None,
        ErrorKind::WouldBlock => Some(Answer::Pending),
        _ => Some(Answer::Close),
    }
}
