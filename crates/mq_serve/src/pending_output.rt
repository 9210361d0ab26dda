//! Output that a connection did not take yet.

ghost use Rattle.std.specs.Prelude.{◌≡◌, ◌⊎◌, ◌↔◌, ◌++◌, [], IsTrue, OnErr, OnOk, length, nat_lt, true};
ghost use Rattle.mq_serve.specs.Prelude.{Keeps, AppendsFront, IsSent, Sends, WritesFront, bytes_of};

use crate::output::{Duplex, Patience, write_front, write_part};
use bytes::BytesMut;
use mq_stream::StreamError;
use std::alloc::{AllocError, Global};
use std::marker::Model;
use std::mem;

/// The maximum number of later bytes that are few.
const MOST_LATER: usize = 1_048_576;

/// Output that a connection did not take yet.
///
/// Writes are made from its front. Bytes that are kept while a front is there go into a second
/// buffer, which becomes the front once the first one is written. So no byte is moved.
#[derive(Drop)]
pub struct PendingOutput {
    alloc: Global,
    front: BytesMut,
    later: BytesMut,
}

impl Model for PendingOutput {
    ghost use Rattle.std.specs.Prelude.{◌≡◌, []};
    ghost use Rattle.mq_serve.specs.Pending.{Pending};

    ghost Value = { Pending };

    ghost view = { λ p. record { front = p.front.items; later = p.later.items } };

    ghost invariant = { λ p. p.front.items ≡ [] → p.later.items ≡ [] };
}

impl PendingOutput {
    /// No output.
    pub fn new(alloc: Global) -> PendingOutput
        ensures { bytes_of result ≡ [] }
    {
        PendingOutput {
            alloc,
            front: BytesMut::new(alloc),
            later: BytesMut::new(alloc),
        }
    }

    /// Returns whether the connection took everything.
    pub fn is_empty(&self) -> bool
        ensures { IsTrue result ↔ (bytes_of self.now ≡ []) }
    {
        self.front.is_empty()
    }

    /// Returns whether more than 1 MiB is behind the front.
    pub fn is_long(&self) -> bool
        ensures { result ≡ nat_lt 1048576 (length self.now.later) }
    {
        self.later.len() > MOST_LATER
    }

    // Keeps bytes behind the others.
    fn keep(&mut self, bytes: &[u8]) -> Result<(), AllocError>
        ensures ok { OnOk result (bytes_of self.new ≡ bytes_of self.old ++ bytes.now) }
        ensures err { OnErr result (self.new ≡ self.old) }
    {
        if self.front.is_empty() {
            self.front = BytesMut::copy_from_slice(self.alloc, bytes)?;
            return Ok(());
        }
        self.later.extend_from_slice(bytes)
    }

    /// Writes the front, or a part of it until bytes of the peer are a reason to pause. Bytes that
    /// were written are no longer pending, also on `Err`.
    #[tactic(auto, using(crate::proofs::Pendings::wrote_front))]
    pub fn write<W: Duplex, P: Patience>(
        &mut self,
        writer: &mut W,
        patience: &mut P,
    ) -> Result<(), StreamError>
        ensures front { WritesFront (bytes_of self.old) (bytes_of self.new)
            (W.contents writer.old) (W.contents writer.new) }
        ensures whole { OnOk result
            ((bytes_of self.new ≡ self.old.later) ⊎ (W.heard writer.new ≡ true)) }
    {
        let (count, ended) = write_part(writer, self.front.as_slice(), patience);
        self.front.advance(count);
        if self.front.is_empty() {
            self.front = mem::replace(&mut self.later, BytesMut::new(self.alloc));
        }
        ended
    }

    /// Writes bytes, if no others are pending, until there is a reason to pause. Keeps the rest.
    /// Fails also if an allocation fails; then the rest is lost.
    pub fn send<W: Duplex, P: Patience>(
        &mut self,
        writer: &mut W,
        bytes: &[u8],
        patience: &mut P,
    ) -> Result<(), StreamError>
        ensures ok { OnOk result (Sends bytes.now (bytes_of self.old) (bytes_of self.new)
            (W.contents writer.old) (W.contents writer.new)) }
        ensures err { OnErr result
            (AppendsFront (W.contents writer.old) (W.contents writer.new) bytes.now) }
        ensures same { OnErr result (self.new ≡ self.old) }
        ensures waits { OnErr result ((bytes_of self.old ≡ [])
            ⊎ Keeps (W.contents writer.old) (W.contents writer.new)) }
        ensures whole { OnOk result
            (IsSent (bytes_of self.old) (bytes_of self.new) (W.heard writer.new)) }
    {
        let mut count = 0;
        if self.is_empty() {
            count = write_front(writer, bytes, patience)?;
        }
        let rest = &bytes[count..];
        if rest.is_empty() {
            return Ok(());
        }
        match self.keep(rest) {
            Ok(()) => Ok(()),
            Err(_) => Err(StreamError),
        }
    }
}
