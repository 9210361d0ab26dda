//! Connections that a worker polls, for bytes, for room to write and for calls of other workers.

ghost use Rattle.std.specs.Prelude.{◌≡◌, ◌⊎◌, ◌<◌, [], None, IfOk, OnErr, OnOk, false, true};
ghost use Rattle.mq_serve.specs.Prelude.{Keeps, AppendsFront, Arrives, IsUnread, outcome_of, IsSent, Sends, WritesFront, bytes_of, written_of, Pause};

use crate::output::{Duplex, Patience, WriteNext, after_failed_write};
use crate::pending_output::PendingOutput;
use crate::wakers::ReadTurns;
use mio::net::TcpStream;
use mio::{Events, Interest, Poll, Token, Waker};
use mq_stream::{ReadOutcome, Stream, StreamError};
use std::alloc::Global;
use std::io;
use std::io::{ErrorKind, Read};
use std::marker::Model;
use std::net::Net;
use std::sync::{Mutex, Wait};
use std::time::{Clock, Duration, Instant};

/// The maximum time that a read waits for its first byte, in milliseconds.
const READ_LIMIT: u64 = 100;

/// The maximum time that the first bytes of a connection wait for their turn, in milliseconds.
const TURN_LIMIT: u64 = 100;

/// The time after which a write to a peer that takes no bytes fails, in milliseconds.
const WRITE_LIMIT: u64 = 10_000;

/// The minimum time between two reads while there is much pending output, in milliseconds. A client
/// that sends packets in time is heard in time (3.1.2.10).
const SLOW_READ: u64 = 100;

// The tokens of a connection and of the calls.
const BYTES: Token = Token(0);

const CALLS: Token = Token(1);

/// The poll of a worker.
#[derive(Drop)]
pub struct WorkerPoll {
    poll: Poll,
    events: Events,
    // The worker may have been called while it waited for room to write.
    is_called: bool,
}

impl Model for WorkerPoll {
    ghost use Rattle.std.specs.Prelude.{Bool};

    // whether the next wait for bytes returns at once
    ghost Value = { Bool };

    ghost view = { λ p. p.is_called };
}

impl WorkerPoll {
    /// A poll, and the waker with which other workers call the one that polls.
    pub fn new<N: Net>(net: &N, alloc: Global) -> io::Result<(WorkerPoll, Waker)>
        ensures { IfOk result (λ made. made.0 ≡ false) }
    {
        let poll = Poll::new(net)?;
        let waker = Waker::new(poll.registry(), CALLS)?;
        let worker_poll = WorkerPoll {
            poll,
            events: Events::with_capacity(alloc, 2)?,
            is_called: false,
        };
        Ok((worker_poll, waker))
    }

    // Waits for bytes or a call, unless a call may have come before.
    fn wait_for_bytes(&mut self)
        ensures { self.new ≡ false }
    {
        if !self.is_called {
            self.wait();
        }
        self.is_called = false;
    }

    // Waits for something else than bytes, up to the limit of a read. A call ends this wait, and is
    // kept for the next wait for bytes.
    pub(crate) fn pause(&mut self)
        ensures { self.new ≡ true }
    {
        self.wait();
        self.is_called = true;
    }

    // Waits for an event up to the limit of a read. Returns at once if the system can't wait.
    fn wait(&mut self)
        ensures { self.new ≡ self.old }
    {
        let limit = Duration::from_millis(READ_LIMIT);
        let _ = self.poll.poll(&mut self.events, Some(limit));
    }
}

/// The turn of a connection to pass on its first bytes.
#[derive(Clone, Copy)]
pub struct ReadTurn<'a> {
    /// The access of the worker that serves the connection.
    pub turns: ReadTurns<'a>,
    /// The number of the connection.
    pub connection: u64,
    /// Whether its first bytes were passed on, or wait for that.
    pub has_begun: bool,
}

impl<'a> ReadTurn<'a> {
    /// The turn of a connection that was accepted now.
    pub fn new<R: Wait>(turns: ReadTurns<'a>, rt: &R) -> ReadTurn<'a>
        ensures number { 0 < result.connection }
        ensures begins { result.has_begun ≡ false }
    {
        ReadTurn {
            turns,
            connection: turns.accept(rt),
            has_begun: false,
        }
    }
}

/// A connection that one worker polls.
#[derive(Drop)]
pub struct PolledStream<'a, R: Wait + Clock, D: Duplex> {
    rt: &'a R,
    poll: &'a Mutex<WorkerPoll>,
    stream: D,
    turn: Option<ReadTurn<'a>>,
    pending: PendingOutput,
    // When the connection last took bytes.
    progress: Instant,
    // When bytes of the peer were last read while output was pending.
    heard: Instant,
}

impl<'a, R: Wait + Clock, D: Duplex> Model for PolledStream<'a, R, D> {
    ghost use Rattle.mq_serve.specs.Polled.{Polled};

    ghost Value = { Polled };

    ghost view = { λ s. record {
      taken = D.contents s.stream;
      pending = s.pending;
      heard = D.heard s.stream;
    } };
}

impl<'a, R: Wait + Clock> PolledStream<'a, R, TcpStream> {
    /// Registers the connection with this poll, and makes it non-blocking and without delay.
    pub fn new(
        rt: &'a R,
        alloc: Global,
        poll: &'a Mutex<WorkerPoll>,
        stream: std::net::TcpStream,
        turn: Option<ReadTurn<'a>>,
    ) -> io::Result<PolledStream<'a, R, TcpStream>>
        ensures { IfOk result (λ polled. bytes_of polled.pending ≡ []) }
    {
        stream.set_nodelay(true)?;
        stream.set_nonblocking(true)?;
        let mut stream = TcpStream::from_std(stream);
        let interests = Interest::READABLE | Interest::WRITABLE;
        let mut locked = poll.lock(rt);
        let worker_poll = &mut *locked;
        worker_poll
            .poll
            .registry()
            .register(&mut stream, BYTES, interests)?;
        drop(locked);
        let now = Instant::now(rt)?;
        Ok(PolledStream {
            rt,
            poll,
            stream,
            turn,
            pending: PendingOutput::new(alloc),
            progress: now,
            heard: now,
        })
    }
}

impl<'a, R: Wait + Clock, D: Duplex> PolledStream<'a, R, D> {
    // Reads without waiting.
    fn read_now(&mut self, buffer: &mut [u8]) -> ReadOutcome
        ensures comes { Arrives None None buffer.new result }
        ensures taken { Keeps self.old.taken self.new.taken }
        ensures pending { self.new.pending ≡ self.old.pending }
    {
        let outcome = self.stream.read_now(buffer);
        if let Some(turn) = self.turn {
            match outcome {
                ReadOutcome::Nothing => turn.turns.note_empty(self.rt),
                ReadOutcome::Bytes(_) if !turn.has_begun => self.await_turn(turn),
                _ => {}
            }
        }
        outcome
    }

    // Waits until each worker with an older connection has read it to its end once, up to a limit.
    fn await_turn(&mut self, turn: ReadTurn<'a>)
        ensures { self.new ≡ self.old }
    {
        self.turn = Some(ReadTurn {
            has_begun: true,
            ..turn
        });
        if turn.turns.is_turn(self.rt, turn.connection) {
            return;
        }
        turn.turns.wake_readers(self.rt);
        let Ok(start) = Instant::now(self.rt) else {
            return;
        };
        for _ in 0..u64::MAX {
            if turn.turns.is_turn(self.rt, turn.connection) {
                return;
            }
            if has_elapsed(self.rt, start, TURN_LIMIT) {
                return turn.turns.give_up(self.rt);
            }
            self.poll.lock(self.rt).pause();
        }
    }

    // Waits for room to write.
    fn patience(&self, reads: bool) -> RoomWait<'a, R> {
        RoomWait {
            rt: self.rt,
            poll: self.poll,
            reads,
            heard: self.heard,
            progress: self.progress,
        }
    }

    // Writes pending output until bytes of the peer are there.
    fn write_pending(&mut self) -> Result<(), StreamError>
        ensures front { WritesFront (bytes_of self.old.pending) (bytes_of self.new.pending)
            self.old.taken self.new.taken }
        ensures whole { OnOk result
            ((bytes_of self.new.pending ≡ self.old.pending.later) ⊎ (self.new.heard ≡ true)) }
    {
        let mut patience = self.patience(!self.pending.is_long());
        let written = self.pending.write(&mut self.stream, &mut patience);
        self.progress = patience.progress;
        written
    }

    // Sends bytes behind the pending output, until there is a reason to pause. The rest is pending.
    fn send(&mut self, bytes: &[u8]) -> Result<(), StreamError>
        ensures ok { OnOk result (Sends bytes.now (bytes_of self.old.pending) (bytes_of self.new.pending)
            self.old.taken self.new.taken) }
        ensures err { OnErr result (AppendsFront self.old.taken self.new.taken bytes.now) }
        ensures same { OnErr result (self.new.pending ≡ self.old.pending) }
        ensures waits { OnErr result ((bytes_of self.old.pending ≡ [])
            ⊎ Keeps self.old.taken self.new.taken) }
        ensures whole { OnOk result
            (IsSent (bytes_of self.old.pending) (bytes_of self.new.pending) self.new.heard) }
    {
        if self.pending.is_empty()
            && let Ok(now) = Instant::now(self.rt)
        {
            self.progress = now;
        }
        let mut patience = self.patience(true);
        let sent = self.pending.send(&mut self.stream, bytes, &mut patience);
        self.progress = patience.progress;
        sent
    }

    // Reads while pending output is written.
    #[tactic(auto, using(crate::proofs::Polleds::keeps_written, crate::proofs::Polleds::keeps_read))]
    fn read_meanwhile(&mut self, buffer: &mut [u8]) -> ReadOutcome
        ensures comes { Arrives None None buffer.new result }
        ensures written { Keeps (written_of self.old) (written_of self.new) }
    {
        for _ in 0..u64::MAX {
            if let Err(StreamError) = self.write_pending() {
                return ReadOutcome::Failed;
            }
            let outcome = self.read_now(buffer);
            if outcome != ReadOutcome::Nothing || self.pending.is_empty() {
                if let Ok(now) = Instant::now(self.rt) {
                    self.heard = now;
                }
                return outcome;
            }
        }
        ReadOutcome::Nothing
    }
}

// Whether this number of milliseconds has passed. True if the clock fails.
fn has_elapsed<T: Clock>(clock: &T, start: Instant, limit: u64) -> bool {
    match start.elapsed(clock) {
        Ok(waited) => waited >= Duration::from_millis(limit),
        Err(_) => true,
    }
}

// The outcome of a read without waiting, into a buffer that has room.
fn outcome(read: io::Result<usize>) -> ReadOutcome
    ensures ok { IfOk read (λ n. result ≡ outcome_of n) }
    ensures err { OnErr read (IsUnread result) }
{
    match read {
        Ok(0) => ReadOutcome::End,
        Ok(count) => ReadOutcome::Bytes(count),
        Err(error) => match error.kind() {
            ErrorKind::WouldBlock | ErrorKind::Interrupted => ReadOutcome::Nothing,
            _ => ReadOutcome::Failed,
        },
    }
}

// Waits for room to write. Gives the connection up if it takes no bytes for too long.
#[derive(Drop)]
struct RoomWait<'a, R: Wait + Clock> {
    rt: &'a R,
    poll: &'a Mutex<WorkerPoll>,
    // Whether bytes of the peer are always a reason to pause. If not, they are one when the last
    // read was long ago.
    reads: bool,
    heard: Instant,
    progress: Instant,
}

impl Duplex for TcpStream {
    fn read_now(&mut self, buffer: &mut [u8]) -> ReadOutcome {
        outcome(self.read(buffer))
    }

    fn has_input(&self) -> bool {
        let mut byte = [0];
        match self.peek(&mut byte) {
            Ok(count) => count > 0,
            Err(_) => false,
        }
    }
}

impl<R: Wait + Clock> RoomWait<'_, R> {
    // The next act after a write that found no room.
    fn after_full(&self, has_input: bool) -> WriteNext
        ensures { result ≡ Pause → has_input ≡ true }
    {
        if has_input && (self.reads || has_elapsed(self.rt, self.heard, SLOW_READ)) {
            return WriteNext::Pause;
        }
        self.poll.lock(self.rt).pause();
        WriteNext::Retry
    }
}

impl<R: Wait + Clock> Patience for RoomWait<'_, R> {
    fn on_progress(&mut self) {
        if let Ok(now) = Instant::now(self.rt) {
            self.progress = now;
        }
    }

    fn on_error(&mut self, error: &io::Error, has_input: bool) -> WriteNext {
        let is_late = has_elapsed(self.rt, self.progress, WRITE_LIMIT);
        match after_failed_write(error.kind(), is_late) {
            Some(next) => next,
            None => self.after_full(has_input),
        }
    }
}

impl<R: Wait + Clock, D: Duplex> Stream for PolledStream<'_, R, D> {
    ghost use Rattle.mq_serve.specs.Prelude.{written_of};

    ghost written = { λ s. written_of s };

    /// Reads the bytes that came, or waits for some. A call of another worker ends the wait. While
    /// output is left, it is written first.
    fn read(&mut self, buffer: &mut [u8]) -> ReadOutcome {
        if !self.pending.is_empty() {
            return self.read_meanwhile(buffer);
        }
        match self.read_now(buffer) {
            ReadOutcome::Nothing => {}
            outcome => return outcome,
        }
        self.poll.lock(self.rt).wait_for_bytes();
        self.read_now(buffer)
    }

    /// Writes the bytes as the connection takes them. If bytes of the peer come meanwhile, the rest
    /// is kept, and written by the next reads. Fails if the connection takes none for too long.
    fn write_all(&mut self, bytes: &[u8]) -> Result<(), StreamError> {
        self.send(bytes)
    }
}
