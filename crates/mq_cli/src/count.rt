//! The packets of an input, counted.

ghost use Rattle.std.specs.Prelude.{◌≡◌, ◌==◌, if◌then◌else◌, IfErr, IfOk, IfSome};
ghost use Rattle.mq_cli.specs.Prelude.{Counts, IsNotCounted, count_rest};

use crate::front::{Stop, fill, is_due, take_front};
use crate::input::JobInput;
use mq_decode::{DecodeFault, Limits, reads_again};
use mq_end::ByteQueue;
use std::alloc::{AllocError, Global};
use std::io;
use thiserror::Error;

/// The number of packets of an input, and its end.
#[derive(Clone, Copy, Debug, PartialEq, Eq)]
pub struct PacketCount {
    /// The number of packets.
    pub packets: u64,
    /// The end of the input.
    pub end: CountEnd,
}

/// The end of an input, behind its last packet.
#[derive(Clone, Copy, Debug, PartialEq, Eq)]
pub enum CountEnd {
    /// Nothing.
    Whole,
    /// A packet that is not whole.
    Cut,
    /// A malformed packet.
    Fault {
        /// The fault.
        fault: DecodeFault,
        /// The place of the packet, counted from the first byte.
        start: u64,
    },
}

/// Why the packets of an input could not be counted.
#[derive(Debug, Drop, Error)]
pub enum CountFault {
    /// A read failed.
    #[error("the reader failed: {0}")]
    Io(io::Error),
    /// Memory ran out.
    #[error("out of memory")]
    Memory,
    /// The packets have more bytes than a `u64` counts.
    #[error("there are more bytes than can be counted")]
    TooLong,
}

impl From<AllocError> for CountFault {
    ghost use Rattle.std.specs.Prelude.{◌≡◌};
    ghost use Rattle.mq_cli.specs.declared.count.CountFault.TheVariants.{Memory};

    ghost from_gives = { λ _ fault. fault ≡ Memory };

    fn from(_e: AllocError) -> CountFault {
        CountFault::Memory
    }
}

impl From<Stop> for CountFault {
    ghost use Rattle.std.specs.Prelude.{◌≡◌};
    ghost use Rattle.mq_cli.specs.Prelude.{fault_of_stop};

    ghost from_gives = { λ stop fault. fault ≡ fault_of_stop stop };

    fn from(stop: Stop) -> CountFault {
        match stop {
            Stop::Io(error) => CountFault::Io(error),
            Stop::Memory => CountFault::Memory,
        }
    }
}

// The end if this many bytes without a fault follow the packets.
fn end_of_rest(held: usize) -> CountEnd
    ensures { result ≡ count_rest held }
{
    if held == 0 {
        CountEnd::Whole
    } else {
        CountEnd::Cut
    }
}

/// Counts packets up to the end of the input, or the first incomplete or malformed packet. Holds
/// the bytes of one packet at a time, and those read together with its last ones.
pub fn count_packets<R: JobInput>(
    alloc: Global,
    input: &mut R,
    limits: Limits,
) -> Result<PacketCount, CountFault>
    ensures counts { IfOk result (λ count. IfSome (R.remaining input.old) (Counts limits count)) }
    ensures fault { IfErr result (IsNotCounted (R.remaining input.old) (R.may_fail input.old)) }
{
    reads_again();
    let mut bytes = ByteQueue::new(alloc);
    let (mut packets, mut total) = (0, 0_u64);
    loop {
        let count = fill(input, &mut bytes)?;
        total = match total.checked_add(count as u64) {
            Some(sum) => sum,
            None => return Err(CountFault::TooLong),
        };
        if count > 0 && !is_due(limits, bytes.as_slice()) {
            continue;
        }
        let (front, fault) = take_front(alloc, limits, &mut bytes)?;
        packets += front.len() as u64;
        match fault {
            Some(fault) => {
                let start = total - bytes.len() as u64;
                let end = CountEnd::Fault { fault, start };
                return Ok(PacketCount { packets, end });
            }
            None if count == 0 => {
                let end = end_of_rest(bytes.len());
                return Ok(PacketCount { packets, end });
            }
            None => {}
        }
    }
}
