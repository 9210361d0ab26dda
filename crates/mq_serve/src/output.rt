//! Output that a connection takes bit by bit.

ghost use Rattle.std.specs.Prelude.{◌≡◌, ◌≤◌, Bool, true, length, take, IfNone, IfOk, MatchOption, None, OnErr, OnOk};
ghost use Rattle.mq_serve.specs.Prelude.{Appends, Keeps, AppendsFront, Arrives, IsWhole, after_failed_write, Pause};

use mq_stream::{ReadOutcome, StreamError};
use std::io;
use std::io::{ErrorKind, Write};

/// The next action of a writer after a failed write.
#[derive(Clone, Copy, Debug, PartialEq, Eq)]
pub enum WriteNext {
    /// The write is tried again.
    Retry,
    /// The rest is written later.
    Pause,
    /// The connection is given up.
    Fail,
}

/// Decides the next action of a writer.
pub trait Patience {
    /// Called after a write took bytes.
    fn on_progress(&mut self);

    /// Called after a failed write, with whether bytes of the peer are there. May wait until the
    /// writer has room. Pauses only for bytes of the peer.
    fn on_error(&mut self, error: &io::Error, has_input: bool) -> WriteNext
        ensures { result ≡ Pause → has_input ≡ true };
}

/// A connection that never waits, to a peer that writes too.
pub trait Duplex: Write {
    /// Whether bytes of the peer are there, or it is not known.
    ghost heard: { Self → Bool } = { λ _. true };

    /// Returns whether bytes of the peer are there.
    fn has_input(&self) -> bool
        ensures { result ≡ true → heard self.now ≡ true };

    /// Reads bytes of the peer into `buffer`, which must not be empty.
    fn read_now(&mut self, buffer: &mut [u8]) -> ReadOutcome
        ensures comes { Arrives None None buffer.new result }
        ensures written { Keeps (Self.contents self.old) (Self.contents self.new) };
}

/// The next action after a write that failed with this kind of error. `is_late` is whether the
/// connection took no bytes for too long. Returns `None` if the writer must wait for room.
pub(crate) fn after_failed_write(kind: ErrorKind, is_late: bool) -> Option<WriteNext>
    ensures { result ≡ after_failed_write kind is_late }
{
    match kind {
        ErrorKind::Interrupted if !is_late => Some(WriteNext::Retry),
        ErrorKind::WouldBlock if !is_late => None,
        _ => Some(WriteNext::Fail),
    }
}

// Writes some bytes. Returns their number, or `None` to pause.
#[tactic(auto, using(crate::proofs::Fronts::nothing_written))]
fn write_once<W: Duplex, P: Patience>(
    writer: &mut W,
    bytes: &[u8],
    patience: &mut P,
) -> Result<Option<usize>, StreamError>
    ensures ok { IfOk result (λ written. MatchOption written (Keeps (W.contents writer.old) (W.contents writer.new))
        (λ n. (n ≤ length bytes.now)
        × Appends (W.contents writer.old) (W.contents writer.new) (take n bytes.now))) }
    ensures err { OnErr result (Keeps (W.contents writer.old) (W.contents writer.new)) }
    ensures pause { IfOk result (λ written. IfNone written (W.heard writer.new ≡ true)) }
{
    match writer.write(bytes) {
        Ok(0) => Err(StreamError),
        Ok(count) => {
            patience.on_progress();
            Ok(Some(count))
        }
        Err(error) => {
            let has_input = writer.has_input();
            match patience.on_error(&error, has_input) {
                WriteNext::Retry => Ok(Some(0)),
                WriteNext::Pause => Ok(None),
                WriteNext::Fail => Err(StreamError),
            }
        }
    }
}

/// Writes bytes until all are written, or until bytes of the peer are a reason to pause.
///
/// Returns the number of bytes that were written, also after a failure.
#[tactic(auto, using(crate::proofs::Fronts::front_none, crate::proofs::Fronts::front_more))]
pub(crate) fn write_part<W: Duplex, P: Patience>(
    writer: &mut W,
    bytes: &[u8],
    patience: &mut P,
) -> (usize, Result<(), StreamError>)
    ensures part { Appends (W.contents writer.old) (W.contents writer.new) (take result.0 bytes.now) }
    ensures bound { result.0 ≤ length bytes.now }
    ensures whole { OnOk result.1 (IsWhole result.0 bytes.now (W.heard writer.new)) }
{
    let mut done = 0;
    for _ in 0..u64::MAX {
        if done == bytes.len() {
            return (done, Ok(()));
        }
        match write_once(writer, &bytes[done..], patience) {
            Ok(Some(count)) => done += count,
            Ok(None) => return (done, Ok(())),
            Err(StreamError) => return (done, Err(StreamError)),
        }
    }
    (done, Err(StreamError))
}

/// Writes bytes until all are written, or until there is a reason to pause. Returns the number of
/// bytes that were written.
#[tactic(auto, using(crate::proofs::Fronts::front_cut))]
pub fn write_front<W: Duplex, P: Patience>(
    writer: &mut W,
    bytes: &[u8],
    patience: &mut P,
) -> Result<usize, StreamError>
    ensures ok { IfOk result (λ n.
        Appends (W.contents writer.old) (W.contents writer.new) (take n bytes.now)) }
    ensures bound { IfOk result (λ n. n ≤ length bytes.now) }
    ensures whole { IfOk result (λ n. IsWhole n bytes.now (W.heard writer.new)) }
    ensures err { OnErr result
        (AppendsFront (W.contents writer.old) (W.contents writer.new) bytes.now) }
{
    let (count, ended) = write_part(writer, bytes, patience);
    ended?;
    Ok(count)
}
