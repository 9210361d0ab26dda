//! Why a store can't be used.

ghost use Rattle.std.specs.Prelude.{◌≡◌};
ghost use Rattle.mq_store.specs.Prelude.{of_configuration};

use mq_durable::{CommitError, RecoverError};
use mq_file::FolderError;
use mq_log::DiskError;
use mq_snapshot::SnapshotFault;
use std::alloc::AllocError;
use thiserror::Error;

/// Why a store was not opened, or why it can't be used further.
#[derive(Clone, Copy, Debug, PartialEq, Eq, Error)]
pub enum StoreError {
    /// Another process has the folder.
    #[error("in use")]
    InUse,
    /// The folder can't be created or opened.
    #[error("the folder cannot be opened")]
    Folder,
    /// A file can't be read.
    #[error("a file of the folder cannot be read")]
    Unreadable,
    /// A file can't be written.
    #[error("a file of the folder cannot be written")]
    Unwritten,
    /// A file can't be written, because the disk is full.
    #[error("a file of the folder cannot be written: the disk is full")]
    Full,
    /// The folder is one of an earlier version.
    #[error("it has a journal of an earlier version: use that version, or an empty folder")]
    Earlier,
    /// The file `snapshot` is missing, and a journal is not.
    #[error("the file 'snapshot' is missing: restore it, or use an empty folder")]
    NoSnapshot,
    /// The file `snapshot` has another signature.
    #[error("the file 'snapshot' is not one of this version")]
    Version,
    /// The file `snapshot` is damaged. No crash leaves it so.
    #[error("the file 'snapshot' is damaged")]
    Snapshot,
    /// A stored message is above the configured packet limit.
    #[error("a stored message is too large: use a greater maximum length of a packet")]
    TooLarge,
    /// A session has more messages than the configured capacity.
    #[error("a session stores too many messages: use a greater capacity")]
    Capacity,
    /// The journal that the snapshot names is missing.
    #[error("the journal that the file 'snapshot' names is missing")]
    Gap,
    /// The journal is damaged. No crash leaves it so.
    #[error("the journal is damaged")]
    Damaged,
    /// An entry of the journal is not the encoding of events.
    #[error("an entry of the journal is not readable")]
    Entry,
    /// The broker refuses an event of the journal.
    #[error("the broker refuses an event of the journal")]
    Refused,
    /// The journal has 2^64 events, or its number would be 2^64.
    #[error("the journal is too long")]
    TooLong,
    /// An allocation failed.
    #[error("out of memory")]
    Memory,
}

impl From<AllocError> for StoreError {
    ghost use Rattle.std.specs.Prelude.{◌≡◌};
    ghost use Rattle.mq_store.specs.Prelude.{Memory};

    ghost from_gives = { λ _ error. error ≡ Memory };

    fn from(_: AllocError) -> Self {
        StoreError::Memory
    }
}

impl From<FolderError> for StoreError {
    ghost use Rattle.std.specs.Prelude.{◌≡◌};
    ghost use Rattle.mq_store.specs.Prelude.{of_folder};

    ghost from_gives = { λ why error. error ≡ of_folder why };

    fn from(error: FolderError) -> Self {
        match error {
            FolderError::InUse => StoreError::InUse,
            FolderError::Folder => StoreError::Folder,
            FolderError::Unreadable => StoreError::Unreadable,
            FolderError::Unwritten => StoreError::Unwritten,
            FolderError::Full => StoreError::Full,
            FolderError::Memory => StoreError::Memory,
        }
    }
}

impl From<RecoverError> for StoreError {
    ghost use Rattle.std.specs.Prelude.{◌≡◌};
    ghost use Rattle.mq_store.specs.Prelude.{of_recovery};

    ghost from_gives = { λ why error. error ≡ of_recovery why };

    fn from(error: RecoverError) -> Self {
        match error {
            RecoverError::Damaged(_) => StoreError::Damaged,
            RecoverError::Unreadable(_) => StoreError::Entry,
            RecoverError::Refused(_) => StoreError::Refused,
            RecoverError::Memory => StoreError::Memory,
        }
    }
}

impl From<DiskError> for StoreError {
    ghost use Rattle.std.specs.Prelude.{◌≡◌};
    ghost use Rattle.mq_store.specs.Prelude.{of_disk};

    ghost from_gives = { λ why error. error ≡ of_disk why };

    fn from(error: DiskError) -> Self {
        match error {
            DiskError::Memory => StoreError::Memory,
            DiskError::Failed | DiskError::Full => StoreError::Unwritten,
        }
    }
}

impl From<CommitError> for StoreError {
    ghost use Rattle.std.specs.Prelude.{◌≡◌};
    ghost use Rattle.mq_store.specs.Prelude.{of_commit};

    ghost from_gives = { λ why error. error ≡ of_commit why };

    fn from(error: CommitError) -> Self {
        match error {
            CommitError::OutOfMemory => StoreError::Memory,
            CommitError::Broken => StoreError::Unwritten,
            CommitError::Disk(error) => StoreError::from(error),
        }
    }
}

// A part of the file `snapshot` is not readable.
impl From<SnapshotFault> for StoreError {
    ghost use Rattle.std.specs.Prelude.{◌≡◌};
    ghost use Rattle.mq_store.specs.Prelude.{of_part};

    ghost from_gives = { λ fault error. error ≡ of_part fault };

    fn from(fault: SnapshotFault) -> Self {
        match fault {
            SnapshotFault::Version | SnapshotFault::Malformed | SnapshotFault::TooLarge => {
                StoreError::Snapshot
            }
            SnapshotFault::Memory => StoreError::Memory,
        }
    }
}

/// A configuration does not allow a broker that was restored.
pub(crate) fn not_allowed(fault: SnapshotFault) -> StoreError
    ensures { result ≡ of_configuration fault }
{
    match fault {
        SnapshotFault::Version | SnapshotFault::Malformed => StoreError::Capacity,
        SnapshotFault::TooLarge => StoreError::TooLarge,
        SnapshotFault::Memory => StoreError::Memory,
    }
}
