//! Reasons of a broker over sockets to end early.

ghost use Rattle.std.specs.Prelude.{◌≡◌};
ghost use Rattle.mq_serve.specs.Prelude.{end_status};

use mq_book::WorkEnd;
use std::alloc::AllocError;
use std::io::ErrorKind;
use thiserror::Error;

/// Why a broker over sockets ended before all its connections were served.
#[derive(Clone, Copy, Debug, PartialEq, Eq, Error)]
pub enum ServeEnd {
    /// The port could not be opened.
    #[error("cannot listen: {0}")]
    Listen(ErrorKind),
    /// No more connections can be accepted, or the system could not serve them.
    #[error("cannot accept connections: {0}")]
    Net(ErrorKind),
    /// The journal is full, and no place is left for another entry.
    #[error("journal full")]
    JournalFull,
    /// The broker refused an event.
    #[error("broker refused")]
    Refused,
    /// An allocation failed.
    #[error("out of memory")]
    Memory,
}

impl ServeEnd {
    /// The exit status of the program: 3 if an allocation failed, otherwise 1.
    pub fn status(self) -> u8
        ensures { result ≡ end_status self }
    {
        match self {
            ServeEnd::Memory => 3,
            ServeEnd::Listen(_) | ServeEnd::Net(_) | ServeEnd::JournalFull | ServeEnd::Refused => 1,
        }
    }
}

impl From<AllocError> for ServeEnd {
    ghost use Rattle.std.specs.Prelude.{◌≡◌};
    ghost use Rattle.mq_serve.specs.Prelude.{Memory};

    ghost from_gives = { λ _ end. end ≡ Memory };

    fn from(_e: AllocError) -> ServeEnd {
        ServeEnd::Memory
    }
}

impl From<WorkEnd> for ServeEnd {
    ghost use Rattle.std.specs.Prelude.{◌≡◌};
    ghost use Rattle.mq_serve.specs.Prelude.{end_of_work};

    ghost from_gives = { λ why end. end ≡ end_of_work why };

    fn from(why: WorkEnd) -> ServeEnd {
        match why {
            WorkEnd::JournalFull => ServeEnd::JournalFull,
            WorkEnd::Memory => ServeEnd::Memory,
            WorkEnd::Hub(_) => ServeEnd::Refused,
        }
    }
}
