//! Why a row reports nothing.

use mq_packet::EncodeError;
use std::alloc::{AllocError, AllocFailed};
use thiserror::Error;

/// Why a row reports nothing.
#[derive(Clone, Copy, Debug, Error)]
pub(crate) enum Wrong {
    /// Its words can't be read, or ask for something that the list's subject doesn't have.
    #[error("the line can't be read here")]
    Words,
    /// Its bytes are not the packet or the text that it needs.
    #[error("the bytes are other than the line needs")]
    Bytes,
    /// Memory ran out.
    #[error("out of memory")]
    Memory,
}

impl From<AllocError> for Wrong {
    fn from(_e: AllocError) -> Wrong {
        Wrong::Memory
    }
}

impl<T: Drop> From<AllocFailed<T>> for Wrong {
    fn from(_e: AllocFailed<T>) -> Wrong {
        Wrong::Memory
    }
}

impl From<EncodeError> for Wrong {
    fn from(_e: EncodeError) -> Wrong {
        Wrong::Bytes
    }
}
