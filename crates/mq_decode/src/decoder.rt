//! A decoder over pieces of a stream.

ghost use Rattle.std.specs.Prelude.{◌≡◌, ◌+◌, ◌≤◌, ◌++◌, ℕ, List, [], length, take, Option, Some, None, Err, IfOk, IfErr, IfSome, IfNone, OnErr, OnOk};
ghost use Rattle.mq_decode.specs.Prelude.{result_err, flat_map, Copies, counted_more, counted_next, Goes, IsFront, Pending, ReadsWithin, Stops};
ghost use Rattle.mq_packet.specs.declared.packet.Packet.TheVariants as packets;

use crate::ahead::{shared_publish, take_next};
use crate::fault::DecodeError;
use crate::held::Held;
use crate::laws::pending_is_short;
use crate::limits::Limits;
use crate::take::take_in;
use bytes::Bytes;
use mq_packet::{Packet, Publish};
use std::alloc::Global;
use std::marker::Model;

/// Splits a stream, which arrives in pieces that are cut anywhere, into packets. Copies only the
/// bytes of a packet that is incomplete in its piece; complete packets are read from the piece.
/// Call [`feed`](Decoder::feed) for each piece, or [`next_packet`](Decoder::next_packet) with the
/// rest of the piece until it returns `None`. After an error it holds nothing and returns the same
/// error until [`reset`](Decoder::reset).
#[derive(Debug, Drop)]
pub struct Decoder {
    alloc: Global,
    limits: Limits,
    held: Held,
    failed: Option<DecodeError>,
    /// A copy of the bytes ahead in the piece, while packets are taken one at a time. Only messages
    /// at its front share it.
    ahead: Bytes,
}

impl Model for Decoder {
    ghost use Rattle.std.specs.Prelude.{◌≡◌, ◌≤◌, [], length, IfSome};
    ghost use Rattle.mq_decode.specs.State.{State};
    ghost use Rattle.mq_decode.specs.Grammar.{Pending, Wants};

    ghost Value = { State };

    ghost view = { λ d. record {
      limit = d.limits;
      held = d.held.bytes;
      failed = d.failed;
      copied = d.held.copied;
    } };

    ghost invariant = { λ d. record {
      pending : Pending d.limits d.held.bytes;
      wants : Wants d.limits d.held.bytes d.held.wants;
      gone : IfSome d.failed (λ _. d.held.bytes ≡ []);
      few : length d.ahead ≤ 1024;
      dropped : IfSome d.failed (λ _. d.ahead ≡ []);
      small : IfSome d.failed (λ _. d.held.capacity ≤ 4096);
    } };
}

impl Decoder {
    /// A decoder that has received no bytes.
    pub fn new(alloc: Global, limits: Limits) -> Decoder
        ensures limit { result.limit ≡ limits }
        ensures held { result.held ≡ [] }
        ensures failed { result.failed ≡ None }
        ensures copied { result.copied ≡ 0 }
    {
        Decoder {
            alloc,
            limits,
            held: Held::new(alloc),
            failed: None,
            ahead: Bytes::new(),
        }
    }

    /// Takes the next piece of the stream, and appends each packet that is now complete. On an
    /// error, the packets before it are appended. Messages that are complete in the piece share
    /// copies of its bytes: one that is kept keeps up to 4 KiB in memory (1 KiB for messages from
    /// `next_packet`). Errors: `Fault` if a packet is malformed, `Memory` if an allocation fails.
    #[inline]
    pub fn feed(&mut self, piece: &[u8], out: &mut Vec<Packet>) -> Result<(), DecodeError>
        // The held bytes and the piece are these packets and the bytes held afterwards.
        ensures ok { OnOk result (Goes self.old.limit (self.old.held ++ piece.now)
            out.old.items out.new.items self.new.held) }
        // Or reading stops at a fault or a failed allocation.
        ensures err { self.old.failed ≡ None → IfErr result
            (Stops self.old.limit (self.old.held ++ piece.now) out.old.items out.new.items) }
        // After an error it stops.
        ensures goes_on { OnOk result (self.old.failed ≡ None) }
        ensures again { IfSome self.old.failed
            (λ e. (result ≡ Err e) × (out.new.items ≡ out.old.items)) }
        ensures failed { self.new.failed ≡ result_err result }
        // After an error nothing is held.
        ensures gone { OnErr result (self.new.held ≡ []) }
        ensures limit { self.new.limit ≡ self.old.limit }
        // Exactly the bytes that don't belong to a complete packet of the piece are copied.
        ensures copied { OnOk result (Copies self.old.limit self.old.held piece.now
            self.old.copied self.new.copied) }
    {
        if let Some(error) = self.failed {
            return Err(error);
        }
        match take_in(self.alloc, self.limits, &mut self.held, piece, out) {
            Ok(()) => Ok(()),
            Err(error) => {
                self.ahead = Bytes::new();
                stop(self.alloc, &mut self.held, &mut self.failed, error);
                Err(error)
            }
        }
    }

    // Takes the PUBLISH at the front of a piece if nothing is held, the most frequent case. `None`
    // if there is no complete one, or an allocation fails.
    #[inline(always)]
    fn next_publish(&mut self, piece: &[u8]) -> Option<(Publish, usize)>
        ensures within { IfSome result (λ x. x.1 ≤ length piece.now) }
        ensures packet { IfSome result (λ x. ReadsWithin self.old.limit (packets.Publish x.0) (take x.1 piece.now)) }
        ensures held { IfSome result (λ x. self.old.held ≡ []) }
        ensures failed { IfSome result (λ x. self.old.failed ≡ None) }
        ensures same { self.new ≡ self.old }
    {
        if !begins_as_publish(piece) || self.failed.is_some() || !self.held.is_empty() {
            return None;
        }
        shared_publish(self.alloc, self.limits, piece, &mut self.ahead)
    }

    /// Takes the next complete packet of the stream. Returns it with the number of bytes used of
    /// the piece, or `None` if the held bytes and the piece are an incomplete packet; then the
    /// whole piece is held. Messages that are complete in the piece share copies of its bytes, of
    /// which one that is kept keeps up to 1 KiB in memory; so does the decoder, until a call
    /// returns `None` or an error.
    #[inline(always)]
    pub fn next_packet(&mut self, piece: &[u8]) -> Result<Option<(Packet, usize)>, DecodeError>
        // The held bytes and the front of the piece are the packet, and nothing is held afterwards.
        ensures within { IfOk result (λ o. IfSome o (λ x. x.1 ≤ length piece.now)) }
        ensures packet { IfOk result (λ o. IfSome o
            (λ x. ReadsWithin self.old.limit x.0 (self.old.held ++ take x.1 piece.now))) }
        ensures taken { IfOk result (λ o. IfSome o (λ x. self.new.held ≡ [])) }
        // The held bytes and the piece are an incomplete packet, and are held.
        ensures less { IfOk result (λ o. IfNone o
            (Pending self.old.limit (self.old.held ++ piece.now))) }
        ensures holds { IfOk result (λ o. IfNone o
            (self.new.held ≡ self.old.held ++ piece.now)) }
        // They begin with a fault, or memory ran out, which is wanted for no byte.
        ensures err { self.old.failed ≡ None → IfErr result
            (λ e. IsFront self.old.limit (self.old.held ++ piece.now) (Err e)) }
        // After an error it stops.
        ensures goes_on { OnOk result (self.old.failed ≡ None) }
        ensures again { IfSome self.old.failed (λ e. result ≡ Err e) }
        ensures failed { self.new.failed ≡ result_err result }
        // After an error nothing is held.
        ensures gone { OnErr result (self.new.held ≡ []) }
        ensures limit { self.new.limit ≡ self.old.limit }
        // A packet that is complete in the piece is not copied; otherwise all bytes used are.
        ensures counted { IfOk result (λ o. IfSome o
            (λ x. self.new.copied ≡ counted_next self.old.held self.old.copied x.1)) }
        ensures counted_all { IfOk result (λ o. IfNone o
            (self.new.copied ≡ counted_more self.old.copied (length piece.now))) }
    {
        if let Some((publish, used)) = self.next_publish(piece) {
            return Ok(Some((Packet::Publish(publish), used)));
        }
        match self.failed {
            Some(error) => Err(error),
            None => match take_next(
                self.alloc,
                self.limits,
                &mut self.held,
                &mut self.ahead,
                piece,
            ) {
                Ok(next) => Ok(next),
                Err(error) => {
                    self.ahead = Bytes::new();
                    stop(self.alloc, &mut self.held, &mut self.failed, error);
                    Err(error)
                }
            },
        }
    }

    /// Returns the number of held bytes of the incomplete packet; 0 after an error.
    pub fn held(&self) -> usize
        ensures value { result ≡ length self.now.held }
        ensures most { result ≤ 5 + self.now.limit.most }
    {
        len_of(self.limits, self.held.as_slice())
    }

    /// Returns the held bytes of the incomplete packet; none after an error.
    pub fn held_bytes(&self) -> &[u8]
        ensures { result.now ≡ self.now.held }
    {
        self.held.as_slice()
    }

    /// Returns the number of bytes copied into the decoder's own buffer since `new` or `reset`.
    /// Stops at the maximum of `u64`.
    pub fn copied(&self) -> u64
        ensures { result ≡ self.now.copied }
    {
        self.held.copied()
    }

    /// Drops the held bytes and the error, and starts a new stream.
    pub fn reset(&mut self)
        ensures limit { self.new.limit ≡ self.old.limit }
        ensures held { self.new.held ≡ [] }
        ensures failed { self.new.failed ≡ None }
        ensures copied { self.new.copied ≡ 0 }
    {
        self.held.reset(self.alloc);
        self.failed = None;
        self.ahead = Bytes::new();
    }
}

// Whether the first byte is that of a PUBLISH (3.3.1).
#[inline(always)]
fn begins_as_publish(piece: &[u8]) -> bool {
    matches!(piece, [0x30..=0x3F, ..])
}

// Drops the held bytes and keeps the error. Never inlined: it is called rarely, and `next_packet`
// always inlined.
#[inline(never)]
fn stop(alloc: Global, held: &mut Held, failed: &mut Option<DecodeError>, error: DecodeError)
    ensures held { held.new.bytes ≡ [] }
    ensures wants { held.new.wants ≡ 0 }
    ensures copied { held.new.copied ≡ held.old.copied }
    ensures small { held.new.capacity ≤ 4096 }
    ensures failed { failed.new ≡ Some error }
{
    held.clear(alloc);
    *failed = Some(error);
}

// The number of held bytes, which is small if they are an incomplete packet.
fn len_of(limits: Limits, held: &[u8]) -> usize
    ensures value { result ≡ length held.now }
    ensures most { Pending limits held.now → result ≤ 5 + limits.most }
{
    pending_is_short();
    held.len()
}

/// Feeds each piece to a new decoder, up to the first error, and appends the packets. Returns the
/// number of bytes held at the end. The result doesn't depend on how the stream is cut.
pub fn decode_pieces(
    alloc: Global,
    limits: Limits,
    pieces: &[&[u8]],
    out: &mut Vec<Packet>,
) -> Result<usize, DecodeError>
    ensures ok { IfOk result (λ n. (rest : List ℕ) × (n ≡ length rest)
        × Goes limits (flat_map (λ piece. piece.now) pieces.now) out.old.items out.new.items rest) }
    ensures err { IfErr result (Stops limits (flat_map (λ piece. piece.now) pieces.now)
        out.old.items out.new.items) }
{
    let mut decoder = Decoder::new(alloc, limits);
    for piece in pieces {
        decoder.feed(piece, out)?;
    }
    Ok(decoder.held())
}
