//! The errors of the client programs.

ghost use Rattle.std.specs.Prelude.{◌≡◌};
ghost use Rattle.mq_client.specs.Prelude.{halt_status};

use mq_end::{CloseReason, PublishRefusal};
use std::alloc::AllocError;
use std::io::ErrorKind;
use thiserror::Error;

/// Why a client program stopped early.
#[derive(Clone, Copy, Debug, PartialEq, Eq, Error)]
pub enum ClientError {
    /// The end closed the connection.
    #[error("closed: {0}")]
    Closed(CloseReason),
    /// The stream ended or failed, or too many reads in a row brought nothing.
    #[error("connection failed")]
    Lost,
    /// A message can't be published, now or later.
    #[error("refused: {0}")]
    Refused(PublishRefusal),
    /// The server refused the subscription (3.9.3).
    #[error("not subscribed")]
    NotSubscribed,
    /// The session could not be saved.
    #[error("session not written: {0}")]
    SaveError(ErrorKind),
    /// An allocation failed.
    #[error("out of memory")]
    Memory,
}

impl ClientError {
    /// The status of the program: 3 for `Memory`, else 1.
    pub fn status(self) -> u8
        ensures { result ≡ halt_status self }
    {
        match self {
            ClientError::Memory => 3,
            ClientError::Closed(_)
            | ClientError::Lost
            | ClientError::Refused(_)
            | ClientError::NotSubscribed
            | ClientError::SaveError(_) => { 1 }
        }
    }
}

impl From<AllocError> for ClientError {
    ghost use Rattle.std.specs.Prelude.{◌≡◌};
    ghost use Rattle.mq_client.specs.Prelude.{Memory};

    ghost from_gives = { λ _ halt. halt ≡ Memory };

    fn from(_e: AllocError) -> ClientError {
        ClientError::Memory
    }
}
