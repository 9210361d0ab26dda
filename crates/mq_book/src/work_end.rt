//! Reasons of a worker to stop, and its choice for a full journal.

use crate::refusal::BookRefusal;
use mq_route::HubRefusal;
use thiserror::Error;

/// Why a worker stopped before its connection ended.
#[derive(Clone, Copy, Debug, PartialEq, Eq, Error)]
pub enum WorkEnd {
    /// The journal is full, and stays full.
    #[error("the journal is full")]
    JournalFull,
    /// An allocation failed.
    #[error("out of memory")]
    Memory,
    /// The broker refused the event.
    #[error("{0}")]
    Hub(HubRefusal),
}

impl From<BookRefusal> for WorkEnd {
    ghost use Rattle.std.specs.Prelude.{◌≡◌};
    ghost use Rattle.mq_book.specs.Prelude.{end_of};

    ghost from_gives = { λ refusal end. end ≡ end_of refusal };

    fn from(refusal: BookRefusal) -> WorkEnd {
        match refusal {
            BookRefusal::JournalFull => WorkEnd::JournalFull,
            BookRefusal::Memory => WorkEnd::Memory,
            BookRefusal::Hub(why) => WorkEnd::Hub(why),
        }
    }
}

/// The action of a worker if the journal is full.
#[derive(Clone, Copy, Debug, PartialEq, Eq)]
pub enum OnFull {
    /// It makes no further step.
    Stop,
    /// It starts a new journal and drops the old one. A journal larger than 16 MiB counts as full.
    Checkpoint,
}
