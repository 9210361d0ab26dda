//! One connection: its socket, and the output that the socket has not taken.

ghost use Rattle.std.specs.Prelude.{◌≡◌, ◌≢◌, ◌==◌, ◌≤◌, ◌⊎◌, ◌||◌, [], true, false, not, drop, length};
ghost use Rattle.mq_loop.specs.Prelude.{All, Blocked, Failed, ComesIn, Sends, finishes};

use crate::socket::{Socket, WriteOutcome};
use bytes::Bytes;
use mq_stream::ReadOutcome;
use std::alloc::Global;
use std::marker::Model;

/// How far kept output was written.
#[derive(Clone, Copy, Debug, PartialEq, Eq)]
pub enum Flushed {
    /// Nothing is kept any more.
    All,
    /// The socket takes no more now.
    Blocked,
    /// The socket failed.
    Failed,
}

/// A connection: its socket, bytes that were read and wait for a step, and collected output that
/// the socket has not taken.
#[derive(Drop)]
pub struct Connection<S: Socket> {
    socket: S,
    is_broken: bool,
    is_finished: bool,
    unread: Bytes,
    kept: Bytes,
}

impl<S: Socket> Model for Connection<S> {
    ghost use Rattle.mq_loop.specs.Accounts.{Line};

    ghost Value = { Line };

    ghost view = { λ c. record {
      came = S.came c.socket;
      went = S.went c.socket;
      unread = c.unread;
      kept = c.kept;
      broken = c.is_broken;
      full = S.full c.socket;
      finished = c.is_finished;
    } };
}

impl<S: Socket> Connection<S> {
    /// A connection over a socket, without output.
    pub fn new(socket: S) -> Connection<S>
        ensures { result ≡ record {
          came = S.came socket;
          went = S.went socket;
          unread = [];
          kept = [];
          broken = false;
          full = S.full socket;
          finished = false;
        } }
    {
        Connection {
            socket,
            unread: Bytes::new(),
            kept: Bytes::new(),
            is_broken: false,
            is_finished: false,
        }
    }

    /// Whether output is kept, because the socket did not take it.
    pub fn is_blocked(&self) -> bool
        ensures blocked { result ≡ not (length self.now.kept == 0) }
        ensures none { result ≡ false → self.now.kept ≡ [] }
        ensures kept { result ≡ true → ¬ self.now.kept ≡ [] }
    {
        !self.kept.is_empty()
    }

    /// The number of bytes that are kept.
    pub fn kept(&self) -> usize
        ensures { result ≡ length self.now.kept }
    {
        self.kept.len()
    }

    /// Whether the connection must be ended: nothing more comes from its socket, it failed, or
    /// bytes were lost because an allocation failed.
    pub fn is_finished(&self) -> bool
        ensures { result ≡ (self.now.broken || self.now.finished) }
    {
        self.is_broken || self.is_finished
    }

    /// Reads some of the bytes that have arrived into `buffer`, which must not be empty.
    pub fn read(&mut self, buffer: &mut [u8]) -> ReadOutcome
        ensures came { ComesIn self.old.came self.new.came buffer.new result }
        ensures rest { self.new ≡ record self.old { came = self.new.came; finished = self.new.finished } }
        ensures finished { self.new.finished ≡ (self.old.finished || finishes result) }
    {
        let outcome = self.socket.read(buffer);
        match outcome {
            ReadOutcome::Bytes(_) | ReadOutcome::Nothing => {}
            ReadOutcome::End | ReadOutcome::Failed => self.is_finished = true,
        }
        outcome
    }

    /// Marks that bytes were lost.
    pub fn mark_broken(&mut self)
        ensures { self.new ≡ record self.old { broken = true } }
    {
        self.is_broken = true;
    }

    /// The bytes that were read and wait for a step.
    pub fn unread(&self) -> &[u8]
        ensures { result.now ≡ self.now.unread }
    {
        self.unread.as_slice()
    }

    /// Whether bytes wait for a step, or the connection must be ended.
    pub fn has_unread(&self) -> bool
        ensures { result ≡ ((self.now.broken || self.now.finished) || not (length self.now.unread == 0)) }
    {
        if self.is_finished() {
            return true;
        }
        !self.unread.is_empty()
    }

    /// Drops the first bytes of those that wait for a step.
    pub fn skip_unread(&mut self, count: usize)
        requires { count ≤ length self.old.unread }
        ensures { self.new ≡ record self.old { unread = drop count self.old.unread } }
    {
        self.unread.advance(count);
        if self.unread.is_empty() {
            // Drops the memory of the bytes.
            self.unread = Bytes::new();
        }
    }

    /// Stores bytes that wait for a step, or none. If an allocation fails, marks that they are
    /// lost.
    pub fn keep_unread(&mut self, alloc: Global, bytes: &[u8])
        ensures { (self.new ≡ record self.old { unread = bytes.now })
            ⊎ (self.new ≡ record self.old { broken = true }) }
    {
        if bytes.is_empty() {
            self.unread = Bytes::new();
            return;
        }
        match Bytes::copy_from_slice(alloc, bytes) {
            Ok(bytes) => self.unread = bytes,
            Err(_) => self.is_broken = true,
        }
    }

    /// Keeps collected output. Nothing must be kept before.
    pub fn keep(&mut self, output: Bytes)
        requires { self.old.kept ≡ [] }
        ensures { self.new ≡ record self.old { kept = output } }
    {
        self.kept = output;
    }

    /// Writes the kept output, as far as the socket takes it.
    #[tactic(auto, using(crate::proofs::Sent::sends_none))]
    pub fn flush(&mut self) -> Flushed
        ensures went { Sends self.old.went self.old.kept self.new.went self.new.kept }
        ensures rest { self.new ≡ record self.old { went = self.new.went; kept = self.new.kept; full = self.new.full; finished = self.new.finished } }
        ensures all { result ≡ All → self.new.kept ≡ [] }
        ensures blocked { result ≡ Blocked → self.new.full ≡ true }
        ensures failed { result ≡ Failed → self.new.finished ≡ true }
        ensures sound { result ≢ Failed → self.new.finished ≡ self.old.finished }
    {
        for _ in 0..u64::MAX {
            if self.kept.is_empty() {
                // Drops the memory of the output that is written.
                self.kept = Bytes::new();
                return Flushed::All;
            }
            match self.socket.write(self.kept.as_slice()) {
                WriteOutcome::Bytes(count) => self.kept.advance(count),
                WriteOutcome::Nothing => return Flushed::Blocked,
                WriteOutcome::Failed => break,
            }
        }
        self.is_finished = true;
        Flushed::Failed
    }
}
