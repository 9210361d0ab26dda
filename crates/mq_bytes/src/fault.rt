//! Why bytes are refused.

use thiserror::Error;

/// Why a packet was not encoded. The buffer is unchanged.
#[derive(Clone, Copy, Debug, PartialEq, Eq, Error)]
pub enum EncodeFault {
    /// An argument is not valid: a text (1.5.3), a topic name or filter (4.7), a number, or a field
    /// of over 65,535 bytes.
    #[error("an argument is not valid")]
    Argument,
    /// The remaining length would exceed 268,435,455 (2.2.3).
    #[error("the packet is too large")]
    TooLarge,
    /// The buffer is smaller than the packet.
    #[error("the buffer is too small")]
    Room,
}

/// Why bytes are not a topic name, a topic filter or a saved session.
#[derive(Clone, Copy, Debug, PartialEq, Eq, Error)]
pub enum CheckFault {
    /// The bytes are not an MQTT string (1.5.3).
    #[error("the bytes are not an MQTT string")]
    Text,
    /// The text is not a topic name (4.7).
    #[error("the text is not a topic name")]
    Name,
    /// The text is not a topic filter (4.7).
    #[error("the text is not a topic filter")]
    Filter,
    /// The bytes are not a saved session.
    #[error("the bytes are not a saved session")]
    Session,
    /// An allocation failed.
    #[error("out of memory")]
    Memory,
}
