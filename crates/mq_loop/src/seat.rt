//! Notes about one connection.

use mq_topic::ClientKey;

/// Notes about the output of the connection at a place.
#[derive(Drop)]
pub(crate) struct Seat {
    /// The client that is connected.
    pub(crate) client: Option<ClientKey>,
    /// The broker closed it.
    pub(crate) is_closed: bool,
}

impl Seat {
    /// The seat of a connection that is opened.
    pub(crate) fn new() -> Seat {
        Seat {
            client: None,
            is_closed: false,
        }
    }
}
