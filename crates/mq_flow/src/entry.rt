//! A message in the sender's state.

use mq_packet::{Message, PacketId};

/// A message that was accepted for sending and isn't acknowledged (4.3.2, 4.3.3).
#[derive(Debug, Drop)]
pub struct SenderEntry {
    /// The packet identifier that it has until it is acknowledged.
    pub id: PacketId,
    /// The message, of quality of service 1 or 2.
    pub message: Message,
    /// Its PUBLISH was sent before, so the next one has DUP 1 (3.3.1.1).
    pub sent: bool,
}
