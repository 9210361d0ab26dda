//! States of a connection.

use mq_packet::Will;
use mq_topic::ClientKey;

/// The part of a CONNECT that applies while its connection is connected.
#[derive(Debug, Drop)]
pub struct ConnectionTerms {
    /// The session ends with the connection (3.1.2.4).
    pub clean_session: bool,
    /// Keep-alive in seconds (3.1.2.10), 0 for none.
    pub keep_alive: u16,
    /// The message to publish if the connection ends without a DISCONNECT (3.1.2.5).
    pub will: Option<Will>,
}

/// The state of a connection.
#[derive(Debug, Drop)]
pub enum ConnectionState {
    /// The broker waits for CONNECT (3.1).
    AwaitingConnect,
    /// The client with this key is connected. The time is that of the last packet, in milliseconds
    /// (3.1.2.10).
    ConnectedAs(ClientKey, ConnectionTerms, u64),
    /// The connection is closed.
    Closed,
}
