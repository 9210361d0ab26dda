//! Writing packets to a `Write`.

ghost use Rattle.std.specs.Prelude.{◌≡◌, ◌≤◌, ◌↔◌, ◌^◌, length, IfErr, OnErr, OnOk, IsErrOf};
ghost use Rattle.mq_packet.specs.Prelude.{Appends, fields, AppendsFront, WritesPacket, FailsToWrite};

use crate::encode::{EncodeError, encode_into};
use crate::packet::Packet;
use std::alloc::Global;
use std::io;
use std::io::{ErrorKind, Write};
use thiserror::Error;

/// Why a packet was not written.
#[derive(Debug, Drop, Error)]
pub enum WriteError {
    /// It could not be encoded. Nothing was written.
    #[error("{0}")]
    Encode(EncodeError),
    /// The writer failed after it took some or none of the bytes.
    #[error("{0}")]
    Io(io::Error),
}

// Retries interrupted writes. On `Err`, the writer has taken some or none of the bytes.
fn write_bytes<W: Write>(bytes: &[u8], writer: &mut W) -> io::Result<()>
    ensures ok { OnOk result (Appends (W.contents writer.old) (W.contents writer.new) bytes.now) }
    ensures err { OnErr result
        (AppendsFront (W.contents writer.old) (W.contents writer.new) bytes.now) }
{
    let mut rest = bytes;
    for _ in 0..u64::MAX {
        if rest.is_empty() {
            return Ok(());
        }
        match writer.write(rest) {
            Ok(0) => return Err(io::Error::from(ErrorKind::WriteZero)),
            Ok(count) => rest = &rest[count..],
            Err(error) if error.kind() != ErrorKind::Interrupted => return Err(error),
            Err(_) => {}
        }
    }
    Err(io::Error::from(ErrorKind::Interrupted))
}

/// Encodes a packet (chapter 3) and writes it. Does not flush the writer.
pub fn write_packet<W: Write>(
    alloc: Global,
    packet: &Packet,
    writer: &mut W,
) -> Result<(), WriteError>
    ensures ok { OnOk result
        (WritesPacket packet.now (W.contents writer.old) (W.contents writer.new)) }
    ensures too_large { IsErrOf result (WriteError.Encode EncodeError.TooLarge)
        ↔ (2 ^ 28 ≤ length (fields packet.now)) }
    ensures err { IfErr result
        (FailsToWrite packet.now (W.contents writer.old) (W.contents writer.new)) }
{
    let mut bytes = Vec::new(alloc);
    encode_into(packet, &mut bytes).map_err(WriteError::Encode)?;
    write_bytes(bytes.as_slice(), writer).map_err(WriteError::Io)
}
