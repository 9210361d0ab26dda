//! Events between two ends.

use crate::side::Side;
use mq_packet::Message;

/// An event between two ends.
#[derive(Debug, Drop)]
pub enum Event {
    /// The user of a side publishes a message (3.3).
    Publish(Side, Message),
    /// This many bytes arrive at a side: the oldest of those in flight to it, or all if there are
    /// fewer (4.2).
    Deliver(Side, usize),
    /// The connection of a side is lost, with all bytes in flight to it (4.2).
    Drop(Side),
    /// The client's program ends and its connection is lost. It continues with its session, which
    /// is saved and loaded (3.1.2.4, 4.1).
    Restart,
    /// The user of the client leaves: the client sends DISCONNECT and closes (3.14).
    Leave,
    /// The client opens a new connection (3.1); earlier ones are lost at both sides.
    Open,
    /// The clock of a side advances by this many milliseconds, followed by its end's `tick`
    /// (3.1.2.10).
    Tick(Side, u64),
}
