//! Why a run stops early.

ghost use Rattle.std.specs.Prelude.{◌≡◌, ◌↔◌, IsTrue};
ghost use Rattle.mq_pubsub.specs.Prelude.{is_loss};
ghost use Rattle.mq_end.specs.declared.reason.CloseReason.TheVariants as reasons;
ghost use Rattle.mq_pubsub.specs.declared.error.RunError.TheVariants as errors;

use mq_end::{CloseReason, PublishRefusal};
use mq_packet::RefusalCode;
use std::alloc::AllocError;
use std::io::ErrorKind;
use thiserror::Error;

/// Why a run stops early.
#[derive(Clone, Copy, Debug, PartialEq, Eq, Error)]
pub enum RunError {
    /// The end closed the connection.
    #[error("closed: {0}")]
    Closed(CloseReason),
    /// The stream ended or failed.
    #[error("connection failed")]
    Lost,
    /// A request can't be made, now or later.
    #[error("refused: {0}")]
    Refused(PublishRefusal),
    /// The server refused all subscriptions (3.9.3).
    #[error("not subscribed")]
    NotSubscribed,
    /// The session could not be saved.
    #[error("session not written: {0}")]
    Unsaved(ErrorKind),
    /// The first connection could not be made.
    #[error("no connection")]
    Unreachable,
    /// The time limit of the run is over.
    #[error("timed out")]
    TimedOut,
    /// The source of messages failed.
    #[error("input failed: {0}")]
    Input(ErrorKind),
    /// A message of the source can't be sent.
    #[error("message too large")]
    TooLarge,
    /// Messages of QoS 0 were lost with a connection before they were written.
    #[error("messages lost with a connection")]
    Unwritten,
    /// The output failed.
    #[error("output failed")]
    Output,
    /// An allocation failed.
    #[error("out of memory")]
    Memory,
}

impl RunError {
    /// Whether a new connection may succeed. A refused CONNECT counts only after a connection was
    /// accepted, and only if the server is unavailable (3.2.2.3).
    pub fn is_loss(self, was_up: bool) -> bool
        ensures { result ≡ is_loss was_up self }
    {
        match self {
            RunError::Lost => true,
            RunError::Closed(CloseReason::Refused(RefusalCode::ServerUnavailable)) => was_up,
            _ => false,
        }
    }

    /// Whether the server lost the session (3.2.2.2).
    pub fn is_session_lost(self) -> bool
        ensures { IsTrue result ↔ (self ≡ errors.Closed reasons.SessionLost) }
    {
        self == RunError::Closed(CloseReason::SessionLost)
    }
}

impl From<AllocError> for RunError {
    ghost use Rattle.std.specs.Prelude.{◌≡◌};
    ghost use Rattle.mq_pubsub.specs.Prelude.{Memory};

    ghost from_gives = { λ _ error. error ≡ Memory };

    fn from(_e: AllocError) -> RunError {
        RunError::Memory
    }
}
