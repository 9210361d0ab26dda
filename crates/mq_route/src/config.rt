//! Broker configuration.

ghost use Rattle.std.specs.Prelude.{◌≡◌};

use mq_decode::Limits;
use mq_end::BoxedList;
use mq_packet::Binary;
use mq_wire::Text;

/// A user name and its password (3.1.3.4, 3.1.3.5).
#[derive(Debug, Drop)]
pub struct User {
    pub name: Text,
    pub password: Binary,
}

/// A user name, and the SHA-256 digest of a salt followed by the password (3.1.3.4, 3.1.3.5).
#[derive(Debug, Drop)]
pub struct HashedUser {
    pub name: Text,
    pub salt: Binary,
    pub digest: [u8; 32],
}

/// The treatment of a copy of QoS 1 or 2 whose session has no room: no packet identifier is free
/// (2.3.1), or the copy exceeds [`HubConfig::most_stored`].
#[derive(Clone, Copy, Debug, Default, PartialEq, Eq)]
pub enum WhenFull {
    /// The PUBLISH or SUBSCRIBE that makes the copy due closes its connection and has no other
    /// effect. A will is dropped.
    #[default]
    ClosePublisher,
    /// The copy is dropped with an act `Missed`. The packet takes effect, and other copies are
    /// placed.
    DropCopy,
}

/// Broker configuration.
#[derive(Debug, Drop)]
pub struct HubConfig {
    /// The maximum remaining length of a packet (2.2.3), and whether overlong encodings of it are
    /// accepted.
    pub limits: Limits,
    /// The maximum number of packet identifiers in use in one session, at least 1 (2.3.1).
    pub capacity: u16,
    /// The maximum number of stored identifiers of incoming QoS 2 messages in one session, at least
    /// 1; `None` for no limit (4.3.3).
    pub window: Option<u16>,
    /// The maximum number of connected clients.
    pub max_conns: usize,
    /// The maximum number of sessions.
    pub max_sessions: usize,
    /// The users that may connect (3.1.3.4). Anyone may connect if this and `hashed_users` are
    /// `None`.
    pub users: Option<BoxedList<User>>,
    /// More users that may connect, whose passwords are stored as digests (3.1.3.4).
    pub hashed_users: Option<BoxedList<HashedUser>>,
    /// The treatment of a copy of QoS 1 or 2 whose session has no room.
    pub when_full: WhenFull,
    /// The time in milliseconds within which a new connection must send CONNECT; `None` for no
    /// limit (3.1). A tick closes a connection that was opened longer ago. The time of opening is
    /// that of the last tick, so call `Tick` before `Opened`.
    pub connect_within: Option<u64>,
    /// The time in milliseconds after which a tick removes the session of a client that is not
    /// connected; `None` to keep it (3.1.2.4). It counts from the disconnect, whose time is that of
    /// the last tick, so call `Tick` before `Bytes` and `Ended`.
    pub session_expiry: Option<u64>,
    /// The maximum number of topic and payload bytes of the messages that one session stores (4.1);
    /// `None` for no limit. A copy of QoS 1 or 2 that exceeds it has no room.
    pub most_stored: Option<u64>,
    /// The maximum number of pending output bytes of one connection with a copy of QoS 0; `None`
    /// for no limit. The client misses a copy that exceeds it. Other packets are always queued.
    pub most_waiting: Option<u64>,
    /// The maximum number of comparisons of filters with retained messages for one SUBSCRIBE: the
    /// number of its filters times that of retained messages (3.8.4); `None` for no limit. A
    /// SUBSCRIBE that exceeds it closes its connection and has no other effect. So it also limits
    /// the retained messages that one SUBSCRIBE is sent.
    pub most_matches: Option<u64>,
}
