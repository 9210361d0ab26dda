//! Packet identifiers of SUBSCRIBE and UNSUBSCRIBE.

use mq_packet::PacketId;

/// The packet that uses an identifier, apart from messages (2.3.1).
#[derive(Clone, Copy, Debug, PartialEq, Eq)]
pub enum Claim {
    /// A SUBSCRIBE whose SUBACK is pending (3.8.4).
    Subscribe,
    /// An UNSUBSCRIBE whose UNSUBACK is pending (3.10.4).
    Unsubscribe,
}

/// An identifier in use by a SUBSCRIBE or an UNSUBSCRIBE.
#[derive(Clone, Copy, Debug, PartialEq, Eq)]
pub struct Claimed {
    /// The identifier.
    pub id: PacketId,
    /// The packet that uses it.
    pub kind: Claim,
    /// How many filters the packet has: a SUBACK has as many codes (3.8.4).
    pub count: usize,
}
