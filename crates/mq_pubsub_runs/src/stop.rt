//! Why the work over a connection ends early.

ghost use Rattle.std.specs.Prelude.{◌≡◌, true};
ghost use Rattle.mq_pubsub_runs.specs.Prelude.{IsConnection};

use mq_client::ClientError;
use mq_pubsub::RunError;
use std::alloc::AllocError;

/// Why the work over a connection ends early.
#[derive(Clone, Copy)]
pub(crate) enum Stop {
    /// The connection or a request failed, or the time is over.
    Connection(RunError),
    /// The source or the printer failed, so no further connection is made.
    Application(RunError),
}

impl Stop {
    /// The error of the run.
    pub(crate) fn error(self) -> RunError {
        match self {
            Stop::Connection(error) | Stop::Application(error) => error,
        }
    }

    /// Returns whether a new connection may succeed.
    pub(crate) fn is_loss(self, was_up: bool) -> bool
        ensures broken { result ≡ true → IsConnection self }
        ensures lost { self ≡ Stop.Connection RunError.Lost → result ≡ true }
    {
        match self {
            Stop::Connection(error) => error.is_loss(was_up),
            Stop::Application(_) => false,
        }
    }

    /// Returns whether the server lost the session (3.2.2.2).
    pub(crate) fn is_session_lost(self) -> bool
        ensures { result ≡ true → IsConnection self }
    {
        match self {
            Stop::Connection(error) => error.is_session_lost(),
            Stop::Application(_) => false,
        }
    }
}

/// The error of a run whose client stopped.
pub(crate) fn run_error(error: ClientError) -> RunError {
    match error {
        ClientError::Closed(reason) => RunError::Closed(reason),
        ClientError::Lost => RunError::Lost,
        ClientError::Refused(why) => RunError::Refused(why),
        ClientError::NotSubscribed => RunError::NotSubscribed,
        ClientError::SaveError(kind) => RunError::Unsaved(kind),
        ClientError::Memory => RunError::Memory,
    }
}

impl From<ClientError> for Stop {
    ghost use Rattle.mq_pubsub_runs.specs.Prelude.{IsConnection};

    ghost from_gives = { λ _ stop. IsConnection stop };

    fn from(error: ClientError) -> Stop {
        Stop::Connection(run_error(error))
    }
}

impl From<AllocError> for Stop {
    ghost use Rattle.mq_pubsub_runs.specs.Prelude.{IsConnection};

    ghost from_gives = { λ _ stop. IsConnection stop };

    fn from(_e: AllocError) -> Stop {
        Stop::Connection(RunError::Memory)
    }
}
