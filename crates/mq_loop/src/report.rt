//! Reports of a loop about its rounds.

use mq_route::HubClose;
use mq_topic::ClientKey;
use mq_wire::Text;

/// An occurrence in a round that a log may have.
#[derive(Debug, Drop)]
pub enum Report {
    /// A client is connected by the connection at a place. Its identifier is known unless the
    /// broker assigned it, or unless its CONNECT arrived in pieces (3.1.3.1).
    Connected {
        place: u32,
        key: ClientKey,
        client: Option<Text>,
        /// The session existed before (3.2.2.2).
        is_resumed: bool,
    },
    /// The connection at a place is closed.
    Closed {
        place: u32,
        why: HubClose,
    },
    /// The connection at a place took too few bytes, and is ended.
    Slow {
        place: u32,
    },
    /// The session of a client is removed (3.1.2.4). The place is that of the client's last
    /// connection, if this step closed it.
    SessionEnded {
        place: Option<u32>,
        key: ClientKey,
    },
    /// The socket of the connection at a place was dropped. The place may be used again.
    Ended {
        place: u32,
    },
}
