//! The entries of a record.

use crate::summary::Summary;
use mq_end::{CloseReason, PublishRefusal};
use mq_packet::{Message, PacketId};
use mq_world::Side;

/// An event at a side, other than the arrival of a packet.
#[derive(Debug, Drop)]
pub enum Note {
    /// It is connected. The flag says whether a session existed (3.2.2.2).
    Up(bool),
    /// A message is delivered (4.3).
    Delivered(Message),
    /// A message is accepted, with its packet identifier if it has one.
    Accepted(Option<PacketId>),
    /// A call is refused.
    Refused(PublishRefusal),
    /// It closed the connection.
    Closed(CloseReason),
    /// Its connection is lost.
    Dropped,
    /// It continues from its saved session (4.1).
    Restarted,
    /// The server answered a PINGREQ (3.13).
    Pong,
}

/// An event of a replay.
#[derive(Debug, Drop)]
pub enum RecordEntry {
    /// A packet is sent to a side: it is the last one in flight to that side.
    Sent(Side, Summary),
    /// The oldest bytes in flight to a side arrive.
    Arrived {
        /// The side at which they arrive.
        to: Side,
        /// The number of bytes.
        count: usize,
        /// Whether the side has no connection, so that it discards them.
        lost: bool,
    },
    /// All bytes in flight to a side are lost.
    Cleared(Side),
    /// An event at a side.
    Noted(Side, Note),
}
