//! The fields of a packet by their places in a buffer.

use mq_decode::DecodeFault;

/// A part of a buffer.
#[repr(C)]
#[derive(Clone, Copy, Debug, PartialEq, Eq)]
pub struct Field {
    /// The index of its first byte.
    pub at: usize,
    /// Its number of bytes.
    pub size: usize,
}

/// A packet in a buffer: its kind and size, its numbers, and the places of its other fields. Fields
/// that the packet doesn't have are 0.
#[repr(C)]
#[derive(Clone, Copy, Debug, PartialEq, Eq)]
pub struct PacketFields {
    /// The packet type, 1 to 14 (2.2.1).
    pub kind: u8,
    /// PUBLISH: the quality of service. CONNECT: that of the will.
    pub qos: u8,
    /// PUBLISH: RETAIN. CONNECT: Will Retain.
    pub retain: bool,
    /// PUBLISH: DUP.
    pub dup: bool,
    /// CONNECT: Clean Session.
    pub clean_session: bool,
    /// CONNECT: whether there is a will, with `topic` and `payload`.
    pub has_will: bool,
    /// CONNECT: whether there is a user name.
    pub has_user_name: bool,
    /// CONNECT: whether there is a password.
    pub has_password: bool,
    /// CONNACK: Session Present.
    pub session_present: bool,
    /// CONNACK: the return code, 0 to 5 (3.2.2.3).
    pub code: u8,
    /// The packet identifier, 0 if the packet has none (2.3.1).
    pub id: u16,
    /// CONNECT: the keep-alive in seconds.
    pub keep_alive: u16,
    /// The number of bytes of the whole packet.
    pub size: usize,
    /// PUBLISH: the topic name. CONNECT: the will topic.
    pub topic: Field,
    /// PUBLISH: the payload. CONNECT: the will message.
    pub payload: Field,
    /// SUBSCRIBE, SUBACK, UNSUBSCRIBE: the items, as they are encoded (3.8.3, 3.9.3, 3.10.3).
    pub list: Field,
    /// CONNECT: the client identifier.
    pub client_id: Field,
    /// CONNECT: the user name.
    pub user_name: Field,
    /// CONNECT: the password.
    pub password: Field,
}

/// The front of a buffer.
#[derive(Clone, Copy, Debug, PartialEq, Eq)]
pub enum Front {
    /// A packet.
    Whole(PacketFields),
    /// An incomplete packet without a fault.
    More,
    /// The first fault of a malformed packet.
    Fault(DecodeFault),
}
