//! A stream and a clock in memory, and a broker's configuration.

ghost use Rattle.std.specs.Prelude.{◌≡◌, ◌<◌, None, IfOk};

use mq_decode::Limits;
use mq_hub::{HubConfig, WhenFull};
use mq_stream::{Clock, ReadOutcome, Stream, StreamError};
use std::io::Read;
use std::test::Fail;

/// A client's connection.
#[derive(Drop)]
pub(crate) struct Line {
    /// The bytes that it sends, a piece at each read.
    pub(crate) pieces: &'static [&'static [u8]],
    /// The number of writes to it that succeed.
    pub(crate) writes: u32,
    /// The bytes that were written to it.
    pub(crate) written: Vec<u8>,
}

impl Stream for Line {
    fn read(&mut self, room: &mut [u8]) -> ReadOutcome {
        let [piece, rest @ ..] = self.pieces else {
            return ReadOutcome::End;
        };
        self.pieces = rest;
        let mut piece = *piece;
        match piece.read(room) {
            Ok(count) => ReadOutcome::Bytes(count),
            Err(_) => ReadOutcome::Failed,
        }
    }

    fn write_all(&mut self, bytes: &[u8]) -> Result<(), StreamError> {
        if self.writes == 0 || self.written.extend_from_slice(bytes).is_err() {
            return Err(StreamError);
        }
        self.writes -= 1;
        Ok(())
    }
}

/// A clock that always reports 0.
#[derive(Drop)]
pub(crate) struct Still;

impl Clock for Still {
    fn now(&mut self) -> u64 {
        0
    }
}

/// The configuration of a broker for at most 100 clients.
pub(crate) fn config() -> Result<HubConfig, Fail>
    ensures capacity { IfOk result (λ c. 0 < c.capacity) }
    ensures window { IfOk result (λ c. c.window ≡ None) }
{
    Ok(HubConfig {
        limits: Limits::new(1_048_576).ok_or("no limits")?,
        capacity: 100,
        window: None,
        max_conns: 100,
        max_sessions: 100,
        users: None,
        hashed_users: None,
        when_full: WhenFull::ClosePublisher,
        connect_within: None,
        session_expiry: None,
        most_stored: None,
        most_waiting: None,
        most_matches: None,
    })
}
