//! The packets of bytes, and of bytes that are written as hexadecimal digits.

ghost use Rattle.std.specs.Prelude.{◌≡◌, ◌+◌, ◌<◌, ◌↔◌, ℕ, List, Option, IsTrue, IfOk, IsErrOf, length};
ghost use Rattle.mq_cli.specs.Prelude.{decode_of, Packet, DecodeFault, Reading, IsHexadecimal, Reads, Shows};

use crate::stream::{Shown, StreamEnd};
use mq_decode::{DecodeError, Limits, decode_pieces, packet_len};
use mq_packet::Packet;
use std::alloc::{AllocError, Global};
use thiserror::Error;

/// Why nothing is shown.
#[derive(Clone, Copy, Debug, PartialEq, Eq, Error)]
pub enum ShowFault {
    /// The text is not an even number of hexadecimal digits.
    #[error("bad hex")]
    BadHex,
    /// Memory ran out.
    #[error("out of memory")]
    Memory,
}

impl From<AllocError> for ShowFault {
    ghost use Rattle.std.specs.Prelude.{◌≡◌};
    ghost use Rattle.mq_cli.specs.declared.show.ShowFault.TheVariants.{Memory};

    ghost from_gives = { λ _ fault. fault ≡ Memory };

    fn from(_e: AllocError) -> ShowFault {
        ShowFault::Memory
    }
}

// Whether a text is an even number of hexadecimal digits.
fn is_hexadecimal(text: &str) -> bool
    ensures { IsTrue result ↔ IsHexadecimal text.now }
{
    text.len() % 2 == 0
        && text
            .as_bytes()
            .iter()
            .all(|digit| digit.is_ascii_hexdigit())
}

// Decodes hexadecimal digits. Tests them before it allocates, so invalid ones are always reported.
fn bytes_of(alloc: Global, text: &str) -> Result<Vec<u8>, ShowFault>
    ensures bytes { IfOk result (λ bytes. decode_of text.now ≡ Ok bytes.items) }
    ensures bad_hex { IsErrOf result ShowFault.BadHex ↔ ¬ IsHexadecimal text.now }
{
    if !is_hexadecimal(text) {
        return Err(ShowFault::BadHex);
    }
    hex::decode(alloc, text).map_err(|_| ShowFault::Memory)
}

// How many of the bytes the packets take.
fn size_of(limits: Limits, packets: &[Packet], bytes: &[u8]) -> usize
    requires { (rest : List ℕ) × (end : Option DecodeFault)
        × Reading limits bytes.now packets.now rest end }
    ensures { (rest : List ℕ) (end : Option DecodeFault)
        → Reading limits bytes.now packets.now rest end → result + length rest ≡ length bytes.now }
{
    let _ = (bytes.len(), limits.max_packet());
    let mut size = 0;
    for _packet in packets {
        let (_, rest) = bytes.split_at(size);
        size += packet_len(limits, rest).unwrap();
    }
    size
}

// The packets of bytes, and how the bytes end.
pub(crate) fn read_all(alloc: Global, limits: Limits, bytes: &[u8]) -> Result<Shown, AllocError>
    ensures { IfOk result (λ shown. Reads limits bytes.now shown.packets.items shown.end) }
{
    let mut packets = Vec::new(alloc);
    let end = match decode_pieces(alloc, limits, &[bytes], &mut packets) {
        Ok(0) => StreamEnd::Whole,
        Ok(held) => StreamEnd::Held(held),
        Err(DecodeError::Fault(fault)) => StreamEnd::Fault {
            fault,
            start: size_of(limits, packets.as_slice(), bytes),
        },
        Err(DecodeError::Memory) => return Err(AllocError),
    };
    Ok(Shown { packets, end })
}

/// Decodes the packets in hexadecimal digits, two for each byte, and reports how the bytes end.
pub fn shown(alloc: Global, text: &str, limits: Limits) -> Result<Shown, ShowFault>
    ensures shows { IfOk result (Shows limits text.now) }
    ensures bad_hex { IsErrOf result ShowFault.BadHex ↔ ¬ IsHexadecimal text.now }
{
    let bytes = bytes_of(alloc, text)?;
    Ok(read_all(alloc, limits, &bytes)?)
}
