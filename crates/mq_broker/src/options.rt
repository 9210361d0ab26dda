//! Options of a broker.

ghost use Rattle.std.specs.Prelude.{◌≡◌, ◌↔◌, None, Some, IfSome, IsSome, max};
ghost use Rattle.mq_broker.specs.Prelude.{strict, configuration, most_owed, IsPacketLimit};

use mq_decode::Limits;
use mq_end::BoxedList;
use mq_route::{HashedUser, HubConfig, User, WhenFull};
use std::net::SocketAddr;

/// The number of bytes that may answer the packets that a connection sends in one round.
const ANSWERS: u64 = 1_048_576;

/// The number of bytes of a PUBLISH without its topic and payload, and of its PUBREL, at most.
const PACKET: u64 = 16;

/// Options of a broker.
#[derive(Debug, Drop)]
pub struct BrokerOptions {
    /// The address to listen on; port 0 picks a free port.
    pub listen: SocketAddr,
    /// The maximum number of connections. A further one is accepted and closed.
    pub max_connections: usize,
    /// The maximum number of sessions.
    pub max_sessions: usize,
    /// The maximum remaining length of a packet, in bytes (2.2.3).
    pub max_packet: u32,
    /// The maximum number of packet identifiers in use in a session (2.3.1). 0 counts as 1.
    pub capacity: u16,
    /// The maximum number of topic and payload bytes of the messages that a session stores (4.1). A
    /// session without room misses a message, or its publisher is closed.
    pub max_stored: u64,
    /// The number of pending output bytes of a connection beyond which it misses messages of QoS 0.
    pub max_waiting: u64,
    /// The maximum number of comparisons of filters with retained messages for one SUBSCRIBE: the
    /// number of its filters times that of retained messages (3.8.4). One that exceeds it closes
    /// its connection.
    pub max_matches: u64,
    /// The time in milliseconds after which the session of a client that is not connected is
    /// removed; `None` to keep it (3.1.2.4).
    pub session_expiry: Option<u64>,
    /// The treatment of a copy whose session has no packet identifier free.
    pub when_full: WhenFull,
    /// The time in milliseconds within which a connection must send CONNECT; `None` for no limit.
    pub connect_within: Option<u64>,
    /// The users that may connect. Anyone may connect if this and `hashed_users` are `None`
    /// (3.1.3.4).
    pub users: Option<BoxedList<User>>,
    /// More users that may connect, whose passwords are stored as digests.
    pub hashed_users: Option<BoxedList<HashedUser>>,
    /// The address of the metrics, which are served over HTTP.
    pub metrics: Option<SocketAddr>,
}

impl BrokerOptions {
    /// The limits of packets. `None` if the maximum is below 64, or above that of the standard
    /// (2.2.3).
    pub(crate) fn packets(&self) -> Option<Limits>
        ensures fits { IsSome result ↔ IsPacketLimit self.now.max_packet }
        ensures value { IfSome result (λ limits. limits ≡ strict self.now.max_packet) }
    {
        Limits::new(self.max_packet)
    }

    /// The number of bytes that the configuration lets wait for a connection. Only a client that
    /// acknowledges messages before they were sent gets more.
    pub(crate) fn most_owed(&self) -> usize
        ensures { result ≡ most_owed self.now }
    {
        let bytes = self
            .max_waiting
            .saturating_add(self.max_stored)
            .saturating_add(PACKET * u64::from(self.capacity))
            .saturating_add(ANSWERS);
        usize::try_from(bytes).unwrap_or(usize::MAX)
    }

    /// The configuration of the broker.
    pub(crate) fn into_config(self, limits: Limits) -> HubConfig
        ensures whole { limits ≡ strict self.max_packet → result ≡ configuration self }
        ensures limits { result.limits ≡ limits }
        ensures capacity { result.capacity ≡ max self.capacity 1 }
        ensures window { result.window ≡ None }
        ensures connections { result.max_conns ≡ self.max_connections }
        ensures sessions { result.max_sessions ≡ self.max_sessions }
        ensures users { result.users ≡ self.users }
        ensures hashed_users { result.hashed_users ≡ self.hashed_users }
        ensures when_full { result.when_full ≡ self.when_full }
        ensures connect_within { result.connect_within ≡ self.connect_within }
        ensures session_expiry { result.session_expiry ≡ self.session_expiry }
        ensures stored { result.most_stored ≡ Some self.max_stored }
        ensures waiting { result.most_waiting ≡ Some self.max_waiting }
        ensures matches { result.most_matches ≡ Some self.max_matches }
    {
        HubConfig {
            limits,
            capacity: self.capacity.max(1),
            window: None,
            max_conns: self.max_connections,
            max_sessions: self.max_sessions,
            users: self.users,
            hashed_users: self.hashed_users,
            when_full: self.when_full,
            connect_within: self.connect_within,
            session_expiry: self.session_expiry,
            most_stored: Some(self.max_stored),
            most_waiting: Some(self.max_waiting),
            most_matches: Some(self.max_matches),
        }
    }
}
