//! Why an event was not encoded, or not read.

use std::alloc::{AllocError, AllocFailed};
use thiserror::Error;

/// Why an event was not encoded.
#[derive(Clone, Copy, Debug, PartialEq, Eq, Error)]
pub enum EncodeFault {
    /// The piece has 2^32 bytes or more.
    #[error("the piece is too long to be recorded")]
    TooLong,
    /// An allocation failed.
    #[error("out of memory")]
    Memory,
}

impl From<AllocError> for EncodeFault {
    ghost use Rattle.std.specs.Prelude.{◌≡◌};
    ghost use Rattle.mq_record.specs.declared.fault.EncodeFault.TheVariants.{Memory};

    ghost from_gives = { λ _ fault. fault ≡ Memory };

    fn from(_: AllocError) -> Self {
        EncodeFault::Memory
    }
}

/// Why no event was read.
#[derive(Clone, Copy, Debug, PartialEq, Eq, Error)]
pub enum RecordFault {
    /// The bytes end inside an event.
    #[error("the bytes end inside an event")]
    Cut,
    /// An event begins with a byte that is no tag.
    #[error("an event begins with the unknown tag {0}")]
    Tag(u8),
    /// An allocation failed.
    #[error("out of memory")]
    Memory,
}

impl From<AllocError> for RecordFault {
    ghost use Rattle.std.specs.Prelude.{◌≡◌};
    ghost use Rattle.mq_record.specs.declared.fault.RecordFault.TheVariants.{Memory};

    ghost from_gives = { λ _ fault. fault ≡ Memory };

    fn from(_: AllocError) -> Self {
        RecordFault::Memory
    }
}

impl<T: Drop> From<AllocFailed<T>> for RecordFault {
    ghost use Rattle.std.specs.Prelude.{◌≡◌};
    ghost use Rattle.mq_record.specs.declared.fault.RecordFault.TheVariants.{Memory};

    ghost from_gives = { λ _ fault. fault ≡ Memory };

    fn from(_: AllocFailed<T>) -> Self {
        RecordFault::Memory
    }
}
