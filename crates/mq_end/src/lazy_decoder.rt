//! The decoder of an end.

ghost use Rattle.std.specs.Prelude.{◌≡◌, ◌≤◌, ◌++◌, [], length, take, IfOk, IfErr, IfSome, IfNone, OnErr, Err};
ghost use Rattle.mq_end.specs.Prelude.{IsFront, Pending, ReadsWithin};

use mq_decode::{DecodeError, Decoder, Limits, reads_again};
use mq_packet::Packet;
use std::alloc::Global;
use std::marker::Model;

/// A decoder that exists only while a packet is incomplete, so that an idle end is smaller.
/// Contracts see the limits, and the bytes of the incomplete packet.
#[derive(Debug, Drop)]
pub(crate) struct LazyDecoder {
    limits: Limits,
    decoder: Option<Box<Decoder>>,
}

impl Model for LazyDecoder {
    ghost use Rattle.std.specs.Prelude.{◌≡◌, [], None, IfSome};
    ghost use Rattle.std.specs.Option.{option_map_or};
    ghost use Rattle.mq_end.specs.Waiting.{Incomplete};

    ghost Value = { Incomplete };

    ghost view = { λ d. record { limit = d.limits; held = option_map_or (λ b. b.value.held) d.decoder [] } };

    ghost invariant = { λ d. IfSome d.decoder (λ b. (b.value.limit ≡ d.limits) × (b.value.failed ≡ None)) };
}

impl LazyDecoder {
    /// No bytes.
    pub(crate) fn new(limits: Limits) -> LazyDecoder
        ensures { result ≡ record { limit = limits; held = [] } }
    {
        LazyDecoder {
            limits,
            decoder: None,
        }
    }

    /// The number of held bytes.
    pub(crate) fn held(&self) -> usize
        ensures { result ≡ length self.now.held }
    {
        match &self.decoder {
            Some(decoder) => decoder.held(),
            None => 0,
        }
    }

    /// Drops the held bytes.
    pub(crate) fn reset(&mut self)
        ensures { self.new ≡ record self.old { held = [] } }
    {
        self.decoder = None;
    }

    /// Takes the next complete packet from the held bytes and a piece. Returns it with the number
    /// of bytes used of the piece, or `None` if they hold an incomplete packet; then the whole
    /// piece is held. After an error nothing is held.
    pub(crate) fn next_packet(
        &mut self,
        alloc: Global,
        piece: &[u8],
    ) -> Result<Option<(Packet, usize)>, DecodeError>
        ensures within { IfOk result (λ o. IfSome o (λ x. x.1 ≤ length piece.now)) }
        ensures packet { IfOk result (λ o. IfSome o
            (λ x. ReadsWithin self.old.limit x.0 (self.old.held ++ take x.1 piece.now))) }
        ensures taken { IfOk result (λ o. IfSome o (λ x. self.new.held ≡ [])) }
        ensures less { IfOk result (λ o. IfNone o (Pending self.old.limit (self.old.held ++ piece.now))) }
        ensures holds { IfOk result (λ o. IfNone o (self.new.held ≡ self.old.held ++ piece.now)) }
        ensures err { IfErr result (λ e. IsFront self.old.limit (self.old.held ++ piece.now) (Err e)) }
        ensures gone { OnErr result (self.new.held ≡ []) }
        ensures limit { self.new.limit ≡ self.old.limit }
    {
        reads_again();
        let mut decoder = match self.decoder.take() {
            Some(decoder) => decoder,
            None if piece.is_empty() => return Ok(None),
            None => match Box::new(alloc, Decoder::new(alloc, self.limits)) {
                Ok(decoder) => decoder,
                Err(_) => return Err(DecodeError::Memory),
            },
        };
        match decoder.next_packet(piece)? {
            Some(next) => Ok(Some(next)),
            None => {
                self.decoder = Some(decoder);
                Ok(None)
            }
        }
    }
}
