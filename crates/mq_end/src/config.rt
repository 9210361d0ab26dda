//! Configuration of the ends.

use mq_decode::Limits;
use mq_packet::{Login, Will};
use mq_wire::Text;

/// Configuration of a client end.
#[derive(Debug, Drop)]
pub struct ClientConfig {
    /// The client identifier (3.1.3.1).
    pub id: Text,
    /// Keep-alive in seconds (3.1.2.10), 0 for none.
    pub keep_alive: u16,
    /// The message that the server publishes when the connection ends without a DISCONNECT
    /// (3.1.2.5).
    pub will: Option<Will>,
    /// User name and password (3.1.3.4, 3.1.3.5).
    pub login: Option<Login>,
    /// The bound on the remaining length of packets, received or sent (2.2.3).
    pub limits: Limits,
    /// The maximum number of packet identifiers in use, at least 1 (2.3.1).
    pub capacity: u16,
    /// The receive window, at least 1: the maximum number of QoS 2 messages that were delivered and
    /// are not released. A new message beyond it closes the connection (4.3.3, 4.8). `None` sets no
    /// limit.
    pub window: Option<u16>,
}

/// Configuration of a server end.
#[derive(Clone, Copy, Debug, PartialEq, Eq)]
pub struct ServerConfig {
    /// The bound on the remaining length of packets, received or sent (2.2.3).
    pub limits: Limits,
    /// The maximum number of packet identifiers in use, at least 1 (2.3.1).
    pub capacity: u16,
    /// The receive window, at least 1: the maximum number of QoS 2 messages that were delivered and
    /// are not released. A new message beyond it closes the connection (4.3.3, 4.8). `None` sets no
    /// limit.
    pub window: Option<u16>,
}
