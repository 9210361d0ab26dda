//! A server that outlives its connections.

ghost use Rattle.std.specs.Prelude.{◌≤◌, length};

use crate::script::{Steps, put};
use mq_client::{Connection, Dial};
use mq_decode::Limits;
use mq_end::{Happening, ServerConfig, ServerEnd};
use mq_stream::{ReadOutcome, Stream, StreamError};
use std::alloc::Global;
use std::cell::RefCell;
use std::test::Fail;

/// A server end of one client. Its session outlives its connections. It remembers the payloads that
/// it receives. The write `lost_at` is lost after `cut` bytes, and the connection with it.
#[derive(Drop)]
pub(crate) struct Side {
    pub(crate) server: ServerEnd,
    pub(crate) handed: Vec<u8>,
    pub(crate) connections: u32,
    pub(crate) writes: u32,
    pub(crate) lost_at: u32,
    pub(crate) cut: usize,
}

impl Side {
    /// A server at which no write is lost.
    pub(crate) fn new(alloc: Global) -> Result<Side, Fail> {
        let limits = Limits::new(1_048_576).ok_or("no limits")?;
        let config = ServerConfig {
            limits,
            capacity: 100,
            window: None,
        };
        Ok(Side {
            server: ServerEnd::new(alloc, config),
            handed: Vec::new(alloc),
            connections: 0,
            writes: 0,
            lost_at: 0,
            cut: 0,
        })
    }

    // Receives bytes and remembers the payloads.
    fn hear(&mut self, bytes: &[u8]) -> Result<(), StreamError> {
        let progress = self.server.receive(0, bytes);
        for happening in progress.happenings.as_slice() {
            if let Happening::Handed(message) = happening {
                let payload = message.payload.as_slice();
                if self.handed.extend_from_slice(payload).is_err() {
                    return Err(StreamError);
                }
            }
        }
        Ok(())
    }

    // Receives a write, or the part of it that is not lost.
    fn take_in(&mut self, bytes: &[u8]) -> Result<(), StreamError> {
        if bytes.is_empty() {
            return Ok(());
        }
        self.writes = self.writes.saturating_add(1);
        if self.writes != self.lost_at {
            return self.hear(bytes);
        }
        let cut = self.cut.min(bytes.len());
        self.hear(&bytes[..cut])?;
        self.server.dropped();
        Err(StreamError)
    }

    // Gives the pending output.
    fn give(&mut self, room: &mut [u8]) -> usize
        ensures { result ≤ length room.new }
    {
        let count = put(room, self.server.output());
        self.server.take_output(count);
        count
    }
}

/// Makes connections to a server.
#[derive(Clone, Copy)]
pub(crate) struct Dialer<'a>(pub(crate) &'a RefCell<Side>);

impl<'a> Dial<Wire<'a>, Steps> for Dialer<'a> {
    fn dial(&mut self) -> Result<Connection<Wire<'a>, Steps>, StreamError> {
        let Ok(mut side) = self.0.try_borrow_mut() else {
            return Err(StreamError);
        };
        side.connections = side.connections.saturating_add(1);
        side.server.opened(0);
        Ok(Connection {
            stream: Wire(self.0),
            clock: Steps { now: 0, step: 1 },
        })
    }
}

/// A connection to a server.
#[derive(Clone, Copy)]
pub(crate) struct Wire<'a>(&'a RefCell<Side>);

impl Stream for Wire<'_> {
    fn read(&mut self, room: &mut [u8]) -> ReadOutcome {
        let Ok(mut side) = self.0.try_borrow_mut() else {
            return ReadOutcome::Failed;
        };
        match side.give(room) {
            0 => ReadOutcome::Nothing,
            count => ReadOutcome::Bytes(count),
        }
    }

    fn write_all(&mut self, bytes: &[u8]) -> Result<(), StreamError> {
        match self.0.try_borrow_mut() {
            Ok(mut side) => side.take_in(bytes),
            Err(_) => Err(StreamError),
        }
    }
}
