//! Acceptors of connections.

ghost use Rattle.std.specs.Prelude.{◌≡◌, ◌⊎◌, false, pos, true};
ghost use Rattle.mq_serve.specs.Prelude.{os_error_kind, IsTaken, after_failure, is_dead};

use crate::polled_stream::{PolledStream, ReadTurn, WorkerPoll};
use crate::wakers::ReadTurns;
use mq_book::ConnectionSource;
use std::alloc::Global;
use std::io;
use std::io::ErrorKind;
use std::marker::Model;
use std::net::{TcpListener, TcpStream};
use std::ops::ControlFlow;
use std::sync::{Mutex, Wait};
use std::time::Clock;

// A polled connection over a socket of the system.
type PolledSocket<'a, R> = PolledStream<'a, R, mio::net::TcpStream>;

/// A listener that accepts a fixed number of connections.
#[derive(Drop)]
pub struct Acceptor {
    listener: TcpListener,
    left: u32,
    is_broken: bool,
    // The error number of the permanent failure.
    code: i32,
}

impl Model for Acceptor {
    ghost use Rattle.mq_serve.specs.Accepting.{AcceptorState};

    ghost Value = { AcceptorState };

    ghost view = { λ a. record { left = a.left; is_broken = a.is_broken; code = a.code } };
}

/// The result of accepting.
pub enum Accepted {
    /// A connection.
    Connection(TcpStream),
    /// No connection can be accepted now, for example because no file descriptor is free.
    Later,
    /// No further connection will be accepted.
    Never,
}

/// The next try after a failure to accept a connection.
#[derive(Clone, Copy, Debug, PartialEq, Eq)]
pub enum AfterFailure {
    /// The listener tries again at once: a signal interrupted it, or a peer gave up.
    AtOnce,
    /// The listener tries again later.
    Later,
    /// The listener can't accept connections any more.
    Never,
}

impl Acceptor {
    /// An acceptor that will accept `connections` connections of this listener.
    pub fn new(listener: TcpListener, connections: u32) -> Acceptor
        ensures { result ≡ record { left = connections; is_broken = false; code = pos 0 } }
    {
        Acceptor {
            listener,
            left: connections,
            is_broken: false,
            code: 0,
        }
    }

    /// The number of connections that are still to be accepted.
    pub fn left(&self) -> u32
        ensures { result ≡ self.now.left }
    {
        self.left
    }

    /// Why the listener can't accept connections any more, if it failed permanently.
    pub fn failure(&self) -> ErrorKind
        ensures { result ≡ os_error_kind self.now.code }
    {
        io::Error::from_raw_os_error(self.code).kind()
    }

    /// Waits for the next connection and accepts it.
    ///
    /// Returns `Never` if all connections were accepted, and forever after the listener failed
    /// permanently.
    pub fn take(&mut self) -> Accepted
        ensures taken { IsTaken self.old.left self.old.is_broken result self.new.left self.new.is_broken }
        ensures done { (self.old.left ≡ 0) ⊎ (self.old.is_broken ≡ true) → result ≡ Accepted.Never }
    {
        if self.left == 0 || self.is_broken {
            return Accepted::Never;
        }
        match accept(&self.listener) {
            Ok(stream) => {
                self.left -= 1;
                Accepted::Connection(stream)
            }
            Err(error) => match after_failure(error.kind(), error.raw_os_error()) {
                AfterFailure::AtOnce | AfterFailure::Later => Accepted::Later,
                AfterFailure::Never => {
                    self.is_broken = true;
                    self.code = error.raw_os_error().unwrap_or(0);
                    Accepted::Never
                }
            },
        }
    }
}

// Whether this error number means that the listener is closed, is not a socket, or does not listen
// (EBADF, EINVAL, ENOTSOCK, EOPNOTSUPP).
fn is_dead(code: i32) -> bool
    ensures { result ≡ is_dead code }
{
    matches!(code, 9 | 22 | 88 | 95)
}

// The next action after a failure of this kind with this error number.
fn after_failure(kind: ErrorKind, code: Option<i32>) -> AfterFailure
    ensures { result ≡ after_failure kind code }
{
    match (kind, code) {
        (ErrorKind::Interrupted | ErrorKind::ConnectionAborted, _) => AfterFailure::AtOnce,
        (_, Some(code)) if is_dead(code) => AfterFailure::Never,
        _ => AfterFailure::Later,
    }
}

// Waits for a connection. Tries again after an interruption, and after a connection that its peer
// gave up.
fn accept(listener: &TcpListener) -> io::Result<TcpStream> {
    for _ in 0..u64::MAX {
        let error = match listener.accept() {
            Ok((stream, _)) => return Ok(stream),
            Err(error) => error,
        };
        if after_failure(error.kind(), error.raw_os_error()) != AfterFailure::AtOnce {
            return Err(error);
        }
    }
    Err(io::Error::from(ErrorKind::Interrupted))
}

/// A worker's access to the shared acceptor. One worker at a time waits for a connection.
#[derive(Drop)]
pub struct WorkerAcceptor<'a, R: Wait + Clock> {
    rt: &'a R,
    acceptor: &'a Mutex<Acceptor>,
    poll: &'a Mutex<WorkerPoll>,
    alloc: Global,
    turns: Option<ReadTurns<'a>>,
}

impl<'a, R: Wait + Clock> WorkerAcceptor<'a, R> {
    /// Access for the worker that polls its connections with `poll`. With `turns`, its connections
    /// pass on their first bytes in turn.
    pub fn new(
        rt: &'a R,
        alloc: Global,
        acceptor: &'a Mutex<Acceptor>,
        poll: &'a Mutex<WorkerPoll>,
        turns: Option<ReadTurns<'a>>,
    ) -> WorkerAcceptor<'a, R>
        ensures { result.turns ≡ turns.entry }
    {
        WorkerAcceptor {
            rt,
            acceptor,
            poll,
            alloc,
            turns,
        }
    }

    // Accepts the next connection, which gets its number before another worker accepts one.
    fn accept(&self) -> (Accepted, Option<ReadTurn<'a>>) {
        let mut acceptor = self.acceptor.lock(self.rt);
        let accepted = acceptor.take();
        let turn = match (&accepted, self.turns) {
            (Accepted::Connection(_), Some(turns)) => Some(ReadTurn::new(turns, self.rt)),
            _ => None,
        };
        drop(acceptor);
        (accepted, turn)
    }

    // Leaves the last connection and accepts the next one. `Continue` if that must be tried again,
    // and `Break(None)` if no more are to be accepted.
    fn try_next(&self) -> ControlFlow<Option<PolledSocket<'a, R>>> {
        if let Some(turns) = self.turns {
            turns.leave(self.rt);
        }
        let (accepted, turn) = self.accept();
        match accepted {
            Accepted::Connection(stream) => {
                match PolledStream::new(self.rt, self.alloc, self.poll, stream, turn) {
                    Ok(polled) => ControlFlow::Break(Some(polled)),
                    Err(_) => ControlFlow::Continue(()),
                }
            }
            Accepted::Later => {
                self.poll.lock(self.rt).pause();
                ControlFlow::Continue(())
            }
            Accepted::Never => ControlFlow::Break(None),
        }
    }
}

impl<'a, R: Wait + Clock> ConnectionSource for WorkerAcceptor<'a, R> {
    type Stream = PolledSocket<'a, R>;

    fn next(&mut self) -> Option<PolledSocket<'a, R>> {
        for _ in 0..u64::MAX {
            if let ControlFlow::Break(next) = self.try_next() {
                return next;
            }
        }
        None
    }
}
