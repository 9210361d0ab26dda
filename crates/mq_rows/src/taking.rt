//! How a decoder's packets are taken.

use crate::wrong::Wrong;
use mq_decode::{DecodeError, Decoder, Limits};
use mq_packet::{Packet, encode_into};
use std::alloc::Global;

/// How a decoder's packets are taken.
#[derive(Clone, Copy)]
pub(crate) enum Taking {
    /// All those of a piece at once, by `feed`.
    All,
    /// One at a time, by `next_packet`.
    Each,
}

/// Bytes, and the limits under which they are read.
#[derive(Clone, Copy)]
pub(crate) struct Given<'a> {
    pub(crate) alloc: Global,
    pub(crate) limits: Limits,
    pub(crate) bytes: &'a [u8],
}

/// The encoding of packets.
pub(crate) fn encoded(alloc: Global, packets: &[Packet]) -> Result<Vec<u8>, Wrong> {
    let mut bytes = Vec::new(alloc);
    for packet in packets {
        encode_into(packet, &mut bytes)?;
    }
    Ok(bytes)
}

// Takes the packets of a piece one after another. Each uses at least one byte of it.
fn take_each(
    decoder: &mut Decoder,
    piece: &[u8],
    out: &mut Vec<Packet>,
) -> Result<(), DecodeError> {
    let mut rest = piece;
    for _ in 0..=piece.len() {
        let Some((packet, used)) = decoder.next_packet(rest)? else {
            return Ok(());
        };
        if out.push(packet).is_err() {
            return Err(DecodeError::Memory);
        }
        rest = rest.get(used..).unwrap_or(b"");
    }
    Ok(())
}

/// Takes the packets of a piece, and appends them.
pub(crate) fn take(
    taking: Taking,
    decoder: &mut Decoder,
    piece: &[u8],
    out: &mut Vec<Packet>,
) -> Result<(), DecodeError> {
    match taking {
        Taking::All => decoder.feed(piece, out),
        Taking::Each => take_each(decoder, piece, out),
    }
}
