//! The early stop of a client program.

ghost use Rattle.std.specs.Prelude.{◌≡◌, false};

use crate::client::LoadFailure;
use crate::error::ClientError;
use crate::saver::SaveError;

/// The early stop of a client program, for a message to its user.
#[derive(Clone, Copy, Debug, PartialEq, Eq)]
pub enum Stop {
    /// The session was not loaded.
    Unloaded(LoadFailure),
    /// The program was halted.
    Halted(Halt),
    /// The server lost the session, and its file could not be marked, so that the next run will
    /// not report it.
    Unmarked(SaveError),
}

/// The reason for which a client program was halted, and its progress.
#[derive(Clone, Copy, Debug, PartialEq, Eq)]
pub struct Halt {
    /// Why.
    pub error: ClientError,
    /// The number of texts that were acknowledged, or of messages that arrived.
    pub done: usize,
    /// Whether the server sent nothing until the connection counted as lost.
    pub is_silent: bool,
}

impl Halt {
    /// A halt before the first message.
    pub fn early(error: ClientError) -> Halt
        ensures { result ≡ record { error = error; done = 0; is_silent = false } }
    {
        Halt {
            error,
            done: 0,
            is_silent: false,
        }
    }
}
