//! Styles of printed messages.

use crate::format::Format;
use crate::moment::Moment;
use mq_packet::{Message, PacketId};

/// A message as it was received.
#[derive(Clone, Copy)]
pub struct Envelope<'a> {
    /// The message.
    pub message: &'a Message,
    /// The packet identifier that it came with.
    pub id: Option<PacketId>,
    /// When it was received.
    pub moment: Moment,
}

/// How messages are printed.
#[derive(Debug, Drop)]
pub enum Style {
    /// The payload; nothing for an empty one.
    Payload,
    /// The topic and the payload.
    Verbose,
    /// A format.
    Format(Format),
}
