//! Streams of bytes in both directions.

ghost use Rattle.std.specs.Prelude.{◌≡◌, ◌≤◌, ℕ, List, Option, None, Bool, true, length, take, MatchOption, IfOk, IfErr, IfSome, IfNone, OnOk, OnErr, Some};
ghost use Rattle.std.specs.Io.KnownBytes.{Appends, Consumes, Keeps};
ghost use Rattle.mq_packet.specs.Writing.{AppendsFront};
ghost use Rattle.mq_stream.specs.Stream.{Arrives, IsOver, IsUnread, outcome_of};

use std::io;
use std::io::{ErrorKind, Read, Write};
use thiserror::Error;

/// The outcome of a read.
#[derive(Clone, Copy, Debug, PartialEq, Eq)]
pub enum ReadOutcome {
    /// This number of bytes was read, at least one.
    Bytes(usize),
    /// No byte arrived within the time limit.
    Nothing,
    /// The stream has ended.
    End,
    /// The stream failed.
    Failed,
}

impl ReadOutcome {
    /// The number of bytes that were read. Returns `None` if the stream can't be read any more.
    pub fn count(self) -> Option<usize>
        ensures read { (old new : Option (List ℕ)) (buffer : List ℕ) → Arrives old new buffer self
            → MatchOption result (Keeps old new) (λ n. (n ≤ length buffer) × Consumes old new (take n buffer)) }
        ensures over { IfNone result (IsOver self) }
    {
        match self {
            ReadOutcome::Bytes(count) => Some(count),
            ReadOutcome::Nothing => Some(0),
            ReadOutcome::End | ReadOutcome::Failed => None,
        }
    }
}

/// A write failed. The stream took only a part of the bytes, possibly none.
#[derive(Clone, Copy, Debug, PartialEq, Eq, Error)]
#[error("the stream failed")]
pub struct StreamError;

/// A stream of bytes in both directions. Calls may come in any order.
///
/// Contracts see which bytes are to come, which were written and whether the stream is closed, as
/// far as an implementation says so. Of a socket nothing is known.
pub trait Stream {
    /// The bytes that are to come, if they are known.
    ghost coming: { Self → Option (List ℕ) } = { λ _. None };

    /// The bytes that were written, if they are known.
    ghost written: { Self → Option (List ℕ) } = { λ _. None };

    /// False if the stream is known to be open: nothing ended and nothing failed.
    ghost closed: { Self → Bool } = { λ _. true };

    /// Reads some bytes into `buffer`. Waits for the first one up to the stream's own time limit.
    fn read(&mut self, buffer: &mut [u8]) -> ReadOutcome
        ensures comes { Arrives (coming self.old) (coming self.new) buffer.new result }
        ensures written { Keeps (written self.old) (written self.new) }
        ensures over { IsOver result → closed self.new ≡ true };

    /// Writes all of `bytes`.
    fn write_all(&mut self, bytes: &[u8]) -> Result<(), StreamError>
        ensures ok { OnOk result (Appends (written self.old) (written self.new) bytes.now) }
        ensures err { OnErr result
            (AppendsFront (written self.old) (written self.new) bytes.now) }
        ensures broken { OnErr result (closed self.new ≡ true) }
        ensures coming { Keeps (coming self.old) (coming self.new) };
}

/// A stream made of a reader and a writer, such as the two halves of a socket (`&stream` twice).
///
/// A read that fails with `WouldBlock` or `TimedOut` counts as one in which no byte arrived.
#[derive(Drop)]
pub struct Socket<R: Read, W: Write> {
    /// The source of the bytes that are read.
    pub reader: R,
    /// The destination of the bytes that are written.
    pub writer: W,
}

impl<R: Read, W: Write> Stream for Socket<R, W> {
    ghost coming = { λ s. R.remaining s.reader };

    ghost written = { λ s. W.contents s.writer };

    fn read(&mut self, buffer: &mut [u8]) -> ReadOutcome {
        read_some(&mut self.reader, buffer)
    }

    fn write_all(&mut self, bytes: &[u8]) -> Result<(), StreamError> {
        write_bytes(&mut self.writer, bytes, &mut OnInterrupt)
    }
}

/// A stream made of one value that reads and writes, such as a socket.
///
/// A read that fails with `WouldBlock` or `TimedOut` counts as one in which no byte arrived; a
/// write that does so has failed. Nothing is known of its bytes, because no contract says what a
/// write to such a value does to its reads.
#[derive(Drop)]
pub struct SocketStream<T: Read + Write>(pub T);

impl<T: Read + Write> Stream for SocketStream<T> {
    fn read(&mut self, buffer: &mut [u8]) -> ReadOutcome {
        read_some(&mut self.0, buffer)
    }

    fn write_all(&mut self, bytes: &[u8]) -> Result<(), StreamError> {
        write_bytes(&mut self.0, bytes, &mut OnInterrupt)
    }
}

// The outcome of a read into a buffer with room. `None` means that a signal interrupted it.
fn outcome(read: io::Result<usize>) -> Option<ReadOutcome>
    ensures ok { IfOk read (λ n. result ≡ Some (outcome_of n)) }
    ensures err { OnErr read (IfSome result IsUnread) }
{
    match read {
        Ok(0) => Some(ReadOutcome::End),
        Ok(count) => Some(ReadOutcome::Bytes(count)),
        Err(error) => match error.kind() {
            ErrorKind::Interrupted => None,
            ErrorKind::WouldBlock | ErrorKind::TimedOut => Some(ReadOutcome::Nothing),
            _ => Some(ReadOutcome::Failed),
        },
    }
}

// Reads once, and again if a signal interrupts the read.
fn read_some<R: Read>(reader: &mut R, buffer: &mut [u8]) -> ReadOutcome
    ensures { Arrives (R.remaining reader.old) (R.remaining reader.new) buffer.new result }
{
    for _ in 0..u64::MAX {
        if let Some(outcome) = outcome(reader.read(buffer)) {
            return outcome;
        }
    }
    ReadOutcome::Failed
}

/// Decides which failed writes are tried again.
pub trait Retry {
    /// Returns whether to try again after this error. May wait until the writer has room.
    fn again(&mut self, error: &io::Error) -> bool;
}

/// Tries again only after a signal interrupted a write.
#[derive(Clone, Copy, Debug, PartialEq, Eq)]
pub struct OnInterrupt;

impl Retry for OnInterrupt {
    fn again(&mut self, error: &io::Error) -> bool {
        error.kind() == ErrorKind::Interrupted
    }
}

/// Writes all of `bytes`, with as many writes as it takes.
pub fn write_bytes<W: Write, P: Retry>(
    writer: &mut W,
    bytes: &[u8],
    retry: &mut P,
) -> Result<(), StreamError>
    ensures ok { OnOk result (Appends (W.contents writer.old) (W.contents writer.new) bytes.now) }
    ensures err { OnErr result
        (AppendsFront (W.contents writer.old) (W.contents writer.new) bytes.now) }
{
    let mut rest = bytes;
    for _ in 0..u64::MAX {
        if rest.is_empty() {
            return Ok(());
        }
        match writer.write(rest) {
            Ok(0) => return Err(StreamError),
            Ok(count) => rest = &rest[count..],
            Err(error) if !retry.again(&error) => return Err(StreamError),
            Err(_) => {}
        }
    }
    Err(StreamError)
}
