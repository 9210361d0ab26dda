//! Packets from a reader.

ghost use Rattle.std.specs.Prelude.{◌≡◌, ◌+◌, ◌<◌, ◌≤◌, ◌++◌, ℕ, List, Option, Some, None, [], length, take, IfOk, IfErr, IfSome, IfNone, OnErr, OnOk};
ghost use Rattle.mq_decode.specs.Prelude.{Consumes, IsAtEnd, Keeps, ReadConsumes, Packet, ReadsWithin, Pending, Bounds, ReadStops, Answers, FillStops, TakesSized, TakesWithin, stop_of, without_size};

use crate::fault::{DecodeError, DecodeFault};
use crate::laws::reads_again;
use crate::limits::Limits;
use crate::take::{take_held, wanted};
use mq_packet::Packet;
use std::alloc::Global;
use std::io;
use std::io::{ErrorKind, Read};
use thiserror::Error;

/// Why no packet was read.
#[derive(Debug, Drop, Error)]
pub enum ReadError {
    /// The reader ended within a packet.
    #[error("the input ends within a packet")]
    Cut,
    /// The reader failed.
    #[error("the reader failed: {0}")]
    Io(io::Error),
    /// The bytes are not a packet.
    #[error("{0}")]
    Fault(DecodeFault),
    /// Memory ran out.
    #[error("out of memory")]
    Memory,
}

impl From<io::Error> for ReadError {
    ghost use Rattle.std.specs.Prelude.{◌≡◌};
    ghost use Rattle.mq_decode.specs.Prelude.{Io};

    ghost from_gives = { λ error stop. stop ≡ Io error };

    fn from(error: io::Error) -> ReadError {
        ReadError::Io(error)
    }
}

// How far the buffer grows at a time.
const CHUNK: usize = 4096;

// Reads once; retries interrupted reads.
fn read_some<R: Read>(reader: &mut R, room: &mut [u8]) -> io::Result<usize>
    ensures count { IfOk result (λ n. n ≤ length room.new) }
    ensures within { IfOk result (λ n. n ≤ length room.old) }
    ensures bytes { ReadConsumes (R.remaining reader.old) (R.remaining reader.new) result room.new }
{
    for _ in 0..u64::MAX {
        match reader.read(room) {
            Err(error) if error.kind() == ErrorKind::Interrupted => {}
            answer => return answer,
        }
    }
    reader.read(room)
}

// Reads at most `most` bytes behind those of the buffer; none only at the end of the reader. On
// `Err` nothing was taken.
fn fill<R: Read>(reader: &mut R, buffer: &mut Vec<u8>, most: usize) -> Result<usize, ReadError>
    requires some { 0 < most }
    requires chunk { most ≤ 4096 }
    ensures most { IfOk result (λ n. n ≤ most) }
    ensures bytes { IfOk result (λ n. (more : List ℕ) × (length more ≡ n)
        × (buffer.new.items ≡ buffer.old.items ++ more)
        × Consumes (R.remaining reader.old) (R.remaining reader.new) more) }
    ensures end { IfOk result (λ n. n ≡ 0 → IsAtEnd (R.remaining reader.new)) }
    ensures err { IfErr result FillStops }
    ensures kept { OnErr result (Keeps (R.remaining reader.old) (R.remaining reader.new)) }
{
    let start = buffer.len();
    if buffer.resize(start + most, 0).is_err() {
        return Err(ReadError::Memory);
    }
    let count = read_some(reader, &mut buffer[start..])?;
    buffer.truncate(start + count);
    Ok(count)
}

/// Reads the next packet, and takes exactly its bytes from the reader. Returns `None` at the end of
/// the reader. Errors: `Cut` if the reader ends inside a packet, `Io` if it fails, `Fault` if the
/// packet is malformed, `Memory` if an allocation fails. After an error the reader is inside the
/// packet, and must not be read on.
pub fn read_packet<R: Read>(
    alloc: Global,
    reader: &mut R,
    limits: Limits,
) -> Result<Option<Packet>, ReadError>
    // The bytes taken are an encoding of the packet.
    ensures packet { IfOk result (λ o. IfSome o (λ packet.
        (bytes : List ℕ) × ReadsWithin limits packet bytes
        × Consumes (R.remaining reader.old) (R.remaining reader.new) bytes)) }
    ensures none { IfOk result (λ o. IfNone o (IsAtEnd (R.remaining reader.old))) }
    ensures err { IfErr result (ReadStops limits (R.remaining reader.old)) }
    // Before an error no byte was taken past the one that shows it.
    ensures within { OnErr result
        (TakesWithin limits (R.remaining reader.old) (R.remaining reader.new)) }
    // A packet that remains is read, and the bytes behind it are left.
    ensures again { (packet : Packet) (first rest : List ℕ) → ReadsWithin limits packet first
        → R.remaining reader.old ≡ Some (first ++ rest)
        → Answers packet rest result (R.remaining reader.new) }
{
    reads_again();
    let read = read_sized(alloc, reader, limits);
    without_size(read)
}

// The packet without its size.
fn without_size(
    read: Result<Option<(Packet, usize)>, ReadError>,
) -> Result<Option<Packet>, ReadError>
    ensures { result ≡ without_size read }
{
    match read {
        Ok(Some(found)) => Ok(Some(found.0)),
        Ok(None) => Ok(None),
        Err(error) => Err(error),
    }
}

// The decoder's error, for a reader.
fn stop_of(error: DecodeError) -> ReadError
    ensures { result ≡ stop_of error }
{
    match error {
        DecodeError::Fault(fault) => ReadError::Fault(fault),
        DecodeError::Memory => ReadError::Memory,
    }
}

/// Reads the next packet as `read_packet` does, and says how many bytes it had.
pub fn read_sized<R: Read>(
    alloc: Global,
    reader: &mut R,
    limits: Limits,
) -> Result<Option<(Packet, usize)>, ReadError>
    ensures packet { IfOk result (λ o. IfSome o
        (TakesSized limits (R.remaining reader.old) (R.remaining reader.new))) }
    ensures none { IfOk result (λ o. IfNone o (IsAtEnd (R.remaining reader.old))) }
    ensures err { IfErr result (ReadStops limits (R.remaining reader.old)) }
    ensures within { OnErr result
        (TakesWithin limits (R.remaining reader.old) (R.remaining reader.new)) }
{
    let mut first = [0];
    if read_some(reader, &mut first)? == 0 {
        return Ok(None);
    }
    let mut buffer = Vec::new(alloc);
    if buffer.extend_from_slice(&first).is_err() {
        return Err(ReadError::Memory);
    }
    loop {
        let size = buffer.len();
        match take_held(alloc, limits, &mut buffer) {
            Ok(None) => {}
            Ok(Some(found)) => return Ok(Some((found.0, size))),
            Err(error) => return Err(stop_of(error)),
        }
        let most = wanted(limits, &buffer).min(CHUNK);
        if fill(reader, &mut buffer, most)? == 0 {
            return Err(ReadError::Cut);
        }
    }
}
