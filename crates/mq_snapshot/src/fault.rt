//! Why a snapshot was not read.

use std::alloc::{AllocError, AllocFailed};
use thiserror::Error;

/// Why a part of a snapshot was not read.
#[derive(Clone, Copy, Debug, PartialEq, Eq, Error)]
pub enum SnapshotFault {
    /// The bytes do not begin with `MQB` and this version.
    #[error("the bytes do not begin with MQB and version 1")]
    Version,
    /// The bytes end inside a part, or a field has a value that is not allowed.
    #[error("a part of the snapshot is cut or malformed")]
    Malformed,
    /// A stored message exceeds the configured size limit.
    #[error("a stored message exceeds the packet limit")]
    TooLarge,
    /// An allocation failed.
    #[error("out of memory")]
    Memory,
}

impl From<AllocError> for SnapshotFault {
    ghost use Rattle.std.specs.Prelude.{◌≡◌};
    ghost use Rattle.mq_snapshot.specs.Prelude.{Memory};

    ghost from_gives = { λ _ fault. fault ≡ Memory };

    fn from(_: AllocError) -> Self {
        SnapshotFault::Memory
    }
}

impl<T: Drop> From<AllocFailed<T>> for SnapshotFault {
    ghost use Rattle.std.specs.Prelude.{◌≡◌};
    ghost use Rattle.mq_snapshot.specs.Prelude.{Memory};

    ghost from_gives = { λ _ fault. fault ≡ Memory };

    fn from(_: AllocFailed<T>) -> Self {
        SnapshotFault::Memory
    }
}
