//! Bytes, decoded as a stream of packets.

use mq_decode::DecodeFault;
use mq_packet::Packet;

/// The packets of some bytes, and how the bytes end.
#[derive(Debug, Drop)]
pub struct Shown {
    /// The packets, in order.
    pub packets: Vec<Packet>,
    /// The end of the bytes.
    pub end: StreamEnd,
}

/// The end of some bytes, behind their last packet.
#[derive(Clone, Copy, Debug, PartialEq, Eq)]
pub enum StreamEnd {
    /// Nothing.
    Whole,
    /// An incomplete packet with this many bytes.
    Held(usize),
    /// A malformed packet.
    Fault {
        /// The fault.
        fault: DecodeFault,
        /// The place of the packet, counted from the first byte.
        start: usize,
    },
}
