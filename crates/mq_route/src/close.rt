//! Reasons for which a broker closes a connection.

ghost use Rattle.std.specs.Prelude.{◌≡◌};
ghost use Rattle.mq_route.specs.Prelude.{hub_close_code};

use mq_end::CloseReason;
use thiserror::Error;

/// The reason for which a broker closes a connection.
#[derive(Clone, Copy, Debug, PartialEq, Eq, Error)]
pub enum HubClose {
    /// The connection's end closed it, or the broker refused its CONNECT (3.2.2.3).
    #[error("{0}")]
    Own(CloseReason),
    /// A session that is due a message has no room for it: no packet identifier is free (2.3.1), or
    /// the message exceeds [`HubConfig::most_stored`](crate::HubConfig). The broker is configured
    /// with [`WhenFull::ClosePublisher`](crate::WhenFull).
    #[error("a session has no room for a message that it must receive")]
    TargetFull,
    /// The client connected again on another connection (3.1.4).
    #[error("the client connected on another connection")]
    TakenOver,
    /// The peer ended the connection.
    #[error("the peer ended the connection")]
    PeerEnded,
    /// No CONNECT arrived within [`HubConfig::connect_within`](crate::HubConfig).
    #[error("no CONNECT arrived in time")]
    NoConnect,
    /// A SUBSCRIBE has more filters than [`HubConfig::most_matches`](crate::HubConfig) allows for
    /// the number of retained messages (3.8.4).
    #[error("a SUBSCRIBE asks for too many retained messages")]
    TooManyMatches,
}

impl HubClose {
    /// Returns the code, `C1` to `C13`.
    pub fn code(self) -> &'static str
        ensures { result.now ≡ hub_close_code self }
    {
        match self {
            HubClose::Own(reason) => reason.code(),
            HubClose::TargetFull => "C8",
            HubClose::TakenOver => "C9",
            HubClose::PeerEnded => "C10",
            HubClose::NoConnect => "C12",
            HubClose::TooManyMatches => "C13",
        }
    }
}
