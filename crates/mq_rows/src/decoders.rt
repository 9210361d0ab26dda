//! Two decoders of the same pieces: one returns all packets of a piece at once, the other one by
//! one.

use crate::fields::{add_hex, bytes_of};
use crate::taking::{Taking, encoded, take};
use crate::words::Words;
use crate::wrong::Wrong;
use mq_decode::{DecodeError, Decoder, Limits};
use mq_packet::Packet;
use std::alloc::Global;

// A decoder, with all packets so far.
#[derive(Drop)]
struct Reading {
    taking: Taking,
    decoder: Decoder,
    out: Vec<Packet>,
}

impl Reading {
    fn new(alloc: Global, taking: Taking, limits: Limits) -> Reading {
        Reading {
            taking,
            decoder: Decoder::new(alloc, limits),
            out: Vec::new(alloc),
        }
    }

    // Adds the number of bytes held, the total number of packets, and the number of bytes copied.
    fn add_counts(&self, told: &mut String) -> Result<(), Wrong> {
        let (held, copied) = (self.decoder.held(), self.decoder.copied());
        Ok(write!(told, "{held} {} {copied}", self.out.len())?)
    }

    // `feed BYTES`: the counts after a piece, or its fault and the total number of packets.
    fn feed(&mut self, piece: &[u8], told: &mut String) -> Result<(), Wrong> {
        match take(self.taking, &mut self.decoder, piece, &mut self.out) {
            Ok(()) => self.add_counts(told),
            Err(DecodeError::Fault(fault)) => {
                Ok(write!(told, "{} {} {}", fault.kind, fault.place, self.out.len())?)
            }
            Err(DecodeError::Memory) => Err(Wrong::Memory),
        }
    }

    fn tell(
        &mut self,
        alloc: Global,
        words: &mut Words<'_>,
        told: &mut String,
    ) -> Result<(), Wrong> {
        match words.word()? {
            "feed" => {
                let bytes = bytes_of(alloc, words)?;
                self.feed(bytes.as_slice(), told)
            }
            "reset" => {
                self.decoder.reset();
                self.add_counts(told)
            }
            "encoded" => {
                let bytes = encoded(alloc, self.out.as_slice())?;
                Ok(add_hex(alloc, told, bytes.as_slice())?)
            }
            _ => Err(Wrong::Words),
        }
    }
}

/// Decoders that get the same pieces.
#[derive(Drop)]
pub(crate) struct Decoders {
    all: Reading,
    each: Reading,
}

impl Decoders {
    /// Both without bytes.
    pub(crate) fn new(alloc: Global, limits: Limits) -> Decoders {
        Decoders {
            all: Reading::new(alloc, Taking::All, limits),
            each: Reading::new(alloc, Taking::Each, limits),
        }
    }

    /// Performs an act on both. The second result is added if it differs.
    pub(crate) fn tell(
        &mut self,
        alloc: Global,
        words: &mut Words<'_>,
        told: &mut String,
    ) -> Result<(), Wrong> {
        let mut again = *words;
        let mut other = String::new(alloc);
        self.all.tell(alloc, words, told)?;
        self.each.tell(alloc, &mut again, &mut other)?;
        if other.as_str() != told.as_str() {
            write!(told, ", but {} one by one", other.as_str())?;
        }
        Ok(())
    }
}
