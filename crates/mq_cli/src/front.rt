//! The bytes of an input, and the packets at their front.

ghost use Rattle.std.specs.Prelude.{◌≡◌, ◌++◌, ◌≤◌, ℕ, List, true, length, drop, IfErr, IfOk, IfSome, OnErr};
ghost use Rattle.mq_cli.specs.Prelude.{Consumes, IsAtEnd, ReadConsumes, Packet, Bounds, Reading, Reads, OnIo};

use crate::input::JobInput;
use crate::show::read_all;
use crate::stream::StreamEnd;
use mq_decode::{DecodeFault, Limits, packet_len};
use mq_end::ByteQueue;
use mq_packet::Packet;
use std::alloc::{AllocError, Global};
use std::io;
use std::io::ErrorKind;

/// How many bytes are read at a time.
const CHUNK: usize = 4096;

/// Why a stream is not read or printed on.
#[derive(Debug, Drop)]
pub(crate) enum Stop {
    /// A read or a write failed.
    Io(io::Error),
    /// Memory ran out.
    Memory,
}

impl From<io::Error> for Stop {
    ghost use Rattle.std.specs.Prelude.{◌≡◌};
    ghost use Rattle.mq_cli.specs.Prelude.{Io};

    ghost from_gives = { λ error stop. stop ≡ Io error };

    fn from(error: io::Error) -> Stop {
        Stop::Io(error)
    }
}

impl From<AllocError> for Stop {
    ghost use Rattle.std.specs.Prelude.{◌≡◌};
    ghost use Rattle.mq_cli.specs.declared.front.Stop.TheVariants.{Memory};

    ghost from_gives = { λ _ stop. stop ≡ Memory };

    fn from(_e: AllocError) -> Stop {
        Stop::Memory
    }
}

// Reads once; retries interrupted reads.
fn read_some<R: JobInput>(reader: &mut R, room: &mut [u8]) -> io::Result<usize>
    ensures count { IfOk result (λ n. n ≤ length room.new) }
    ensures bytes { ReadConsumes (R.remaining reader.old) (R.remaining reader.new) result room.new }
    ensures error { OnErr result (R.may_fail reader.old ≡ true) }
    ensures stays { R.may_fail reader.new ≡ R.may_fail reader.old }
{
    for _ in 0..u64::MAX {
        match reader.read_into(room) {
            Err(error) if error.kind() == ErrorKind::Interrupted => {}
            answer => return answer,
        }
    }
    reader.read_into(room)
}

// Reads the next bytes behind those of the queue, none only at the reader's end.
pub(crate) fn fill<R: JobInput>(reader: &mut R, bytes: &mut ByteQueue) -> Result<usize, Stop>
    ensures bytes { IfOk result (λ n. (more : List ℕ) × (n ≡ length more)
        × (bytes.new ≡ bytes.old ++ more)
        × Consumes (R.remaining reader.old) (R.remaining reader.new) more) }
    ensures end { IfOk result (λ n. n ≡ 0 → IsAtEnd (R.remaining reader.new)) }
    ensures error { IfErr result (λ stop. OnIo stop (R.may_fail reader.old ≡ true)) }
    ensures stays { R.may_fail reader.new ≡ R.may_fail reader.old }
{
    let mut room = [0; CHUNK];
    let count = read_some(reader, &mut room)?;
    bytes.append(&room[..count])?;
    Ok(count)
}

/// All bytes of an input.
pub(crate) fn read_whole<R: JobInput>(alloc: Global, input: &mut R) -> Result<ByteQueue, Stop>
    ensures bytes { IfOk result (λ bytes. IfSome (R.remaining input.old) (λ all. bytes ≡ all)) }
    ensures error { IfErr result (λ stop. OnIo stop (R.may_fail input.old ≡ true)) }
{
    let mut bytes = ByteQueue::new(alloc);
    for _ in 0..u64::MAX {
        if fill(input, &mut bytes)? == 0 {
            return Ok(bytes);
        }
    }
    Err(Stop::Memory)
}

// Whether it is worth while to read packets off the front: the first one is whole, or its header
// isn't or is wrong.
pub(crate) fn is_due(limits: Limits, bytes: &[u8]) -> bool {
    match packet_len(limits, bytes) {
        Some(size) => size <= bytes.len(),
        None => true,
    }
}

// The number of bytes before the end that belong to packets, and the fault of those behind them.
fn front_of(end: StreamEnd, len: usize) -> (usize, Option<DecodeFault>)
    ensures { (limits : Bounds) (bytes : List ℕ) (packets : List Packet) → length bytes ≡ len
        → Reads limits bytes packets end
        → (result.0 ≤ len) × Reading limits bytes packets (drop result.0 bytes) result.1 }
{
    match end {
        StreamEnd::Whole => (len, None),
        StreamEnd::Held(held) => (len.saturating_sub(held), None),
        StreamEnd::Fault { fault, start } => (start, Some(fault)),
    }
}

// Removes the complete packets at the front of the bytes. Returns the fault of the rest, or `None`
// if it is an incomplete packet.
pub(crate) fn take_front(
    alloc: Global,
    limits: Limits,
    bytes: &mut ByteQueue,
) -> Result<(Vec<Packet>, Option<DecodeFault>), AllocError>
    ensures { IfOk result (λ front. Reading limits bytes.old front.0.items bytes.new front.1) }
{
    let shown = read_all(alloc, limits, bytes.as_slice())?;
    let (size, fault) = front_of(shown.end, bytes.len());
    bytes.take(size);
    Ok((shown.packets, fault))
}
