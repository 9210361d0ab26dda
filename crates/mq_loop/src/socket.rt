//! Sockets that never wait.

ghost use Rattle.std.specs.Prelude.{◌≡◌, ◌≤◌, Bool, List, ℕ, Option, None, true, IfOk, IfSome, OnErr, length};
ghost use Rattle.mq_loop.specs.Prelude.{ReadsAtMost, WritesAtMost, IsUnread, Nothing, ComesIn, GoesOut, IsTaken, IsWithin};

use mq_stream::ReadOutcome;
use std::io;
use std::io::{ErrorKind, Read, Write};

/// The outcome of a write.
#[derive(Clone, Copy, Debug, PartialEq, Eq)]
pub enum WriteOutcome {
    /// The socket took this number of bytes, at least one.
    Bytes(usize),
    /// The socket takes no byte now.
    Nothing,
    /// The socket failed.
    Failed,
}

/// A socket that never waits: a stream of bytes in both directions (4.2).
///
/// Contracts see which bytes came from the socket and which it took, since it was opened, and
/// whether it takes no byte now, as far as an implementation says so. Of a socket of the system
/// nothing is known.
pub trait Socket {
    /// The bytes that were read, if they are known.
    ghost came: { Self → Option (List ℕ) } = { λ _. None };

    /// The bytes that were written, if they are known.
    ghost went: { Self → Option (List ℕ) } = { λ _. None };

    /// Whether the socket takes no byte now, or it is not known.
    ghost full: { Self → Bool } = { λ _. true };

    /// Reads some of the bytes that have arrived into `buffer`, which must not be empty.
    fn read(&mut self, buffer: &mut [u8]) -> ReadOutcome
        ensures came { ComesIn (came self.old) (came self.new) buffer.new result }
        ensures went { went self.new ≡ went self.old }
        ensures full { full self.new ≡ full self.old };

    /// Writes some of `bytes`, which must not be empty.
    fn write(&mut self, bytes: &[u8]) -> WriteOutcome
        ensures went { GoesOut (went self.old) (went self.new) bytes.now result }
        ensures came { came self.new ≡ came self.old }
        ensures full { result ≡ Nothing → full self.new ≡ true };
}

/// A socket made of a stream whose calls return `WouldBlock` if they would wait.
///
/// Tries again after an interruption. Nothing is known of its bytes, because no contract says what
/// a write to such a value does to its reads.
#[derive(Drop)]
pub struct NonBlocking<T: Read + Write>(pub T);

impl<T: Read + Write> Socket for NonBlocking<T> {
    fn read(&mut self, buffer: &mut [u8]) -> ReadOutcome {
        for _ in 0..u64::MAX {
            if let Some(outcome) = read_outcome(self.0.read(buffer)) {
                return outcome;
            }
        }
        ReadOutcome::Failed
    }

    fn write(&mut self, bytes: &[u8]) -> WriteOutcome {
        for _ in 0..u64::MAX {
            if let Some(outcome) = write_outcome(self.0.write(bytes)) {
                return outcome;
            }
        }
        WriteOutcome::Failed
    }
}

// The outcome of a read into a buffer with room. `None` means that a signal interrupted it.
fn read_outcome(read: io::Result<usize>) -> Option<ReadOutcome>
    ensures bytes { (most : ℕ) → IfOk read (λ n. n ≤ most) → IfSome result (IsWithin most) }
{
    match read {
        Ok(0) => Some(ReadOutcome::End),
        Ok(count) => Some(ReadOutcome::Bytes(count)),
        Err(error) => match error.kind() {
            ErrorKind::Interrupted => None,
            ErrorKind::WouldBlock => Some(ReadOutcome::Nothing),
            _ => Some(ReadOutcome::Failed),
        },
    }
}

// The outcome of a write of some bytes. `None` means that a signal interrupted it.
fn write_outcome(write: io::Result<usize>) -> Option<WriteOutcome>
    ensures bytes { (most : ℕ) → IfOk write (λ n. n ≤ most) → IfSome result (IsTaken most) }
{
    match write {
        Ok(0) => Some(WriteOutcome::Failed),
        Ok(count) => Some(WriteOutcome::Bytes(count)),
        Err(error) => match error.kind() {
            ErrorKind::Interrupted => None,
            ErrorKind::WouldBlock => Some(WriteOutcome::Nothing),
            _ => Some(WriteOutcome::Failed),
        },
    }
}
