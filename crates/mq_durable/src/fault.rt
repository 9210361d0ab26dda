//! Why a call of a durable broker failed.

use mq_log::{DiskError, Tail};
use mq_record::RecordFault;
use mq_route::HubRefusal;
use std::alloc::AllocError;
use thiserror::Error;

/// Why an event was refused.
#[derive(Clone, Copy, Debug, PartialEq, Eq, Error)]
pub enum StepRefusal {
    /// The broker refused the event, or an allocation failed.
    #[error("{0}")]
    Hub(HubRefusal),
    /// The pending events would have 2^32 bytes or more. They must be committed first.
    #[error("too many events are pending")]
    EntryFull,
    /// A commit failed before.
    #[error("an earlier commit failed")]
    Broken,
}

/// Why the pending events were not committed.
#[derive(Clone, Copy, Debug, PartialEq, Eq, Error)]
pub enum CommitError {
    /// A step reported that an allocation failed.
    #[error("an allocation failed in a step that is not recorded yet")]
    OutOfMemory,
    /// A commit failed before.
    #[error("an earlier commit failed")]
    Broken,
    /// The journal failed now.
    #[error("{0}")]
    Disk(DiskError),
}

/// Why a broker was not recovered.
#[derive(Clone, Copy, Debug, PartialEq, Eq, Error)]
pub enum RecoverError {
    /// The file is damaged. No crash leaves it so.
    #[error("the journal is damaged")]
    Damaged(Tail),
    /// An entry is not the encoding of events.
    #[error("an entry of the journal is not readable: {0}")]
    Unreadable(RecordFault),
    /// The broker refuses an event of the journal.
    #[error("the broker refuses an event of the journal: {0}")]
    Refused(HubRefusal),
    /// An allocation failed, or a reply reports so.
    #[error("out of memory")]
    Memory,
}

impl From<AllocError> for RecoverError {
    fn from(_: AllocError) -> Self {
        RecoverError::Memory
    }
}
