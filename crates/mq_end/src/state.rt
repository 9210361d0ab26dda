//! The state of a connection.

/// The state of an end's connection.
#[derive(Clone, Copy, Debug, PartialEq, Eq)]
pub enum State {
    /// There is none.
    Disconnected,
    /// It is open, and its CONNECT isn't accepted yet (3.1, 3.2).
    Connecting,
    /// Its CONNECT is accepted.
    Connected,
}
