//! Which end it is.

/// Which end of a connection it is.
#[derive(Clone, Copy)]
pub(crate) enum Role {
    /// The client.
    Client,
    /// The server.
    Server,
}
