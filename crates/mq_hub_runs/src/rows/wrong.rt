//! Why a row or a section has no result.

use mq_hub::HubRefusal;
use std::alloc::{AllocError, AllocFailed};
use std::io;
use thiserror::Error;

/// Why a row or a section has no result.
#[derive(Clone, Copy, Debug, Error)]
pub(crate) enum Wrong {
    /// Its words can't be read.
    #[error("the line can't be read here")]
    Words,
    /// A call of the broker was refused.
    #[error("refused")]
    Refused,
    /// An allocation failed, or reading or writing did.
    #[error("out of memory")]
    Memory,
}

impl From<AllocError> for Wrong {
    fn from(_e: AllocError) -> Wrong {
        Wrong::Memory
    }
}

impl<T: Drop> From<AllocFailed<T>> for Wrong {
    fn from(_e: AllocFailed<T>) -> Wrong {
        Wrong::Memory
    }
}

impl From<io::Error> for Wrong {
    fn from(_e: io::Error) -> Wrong {
        Wrong::Memory
    }
}

impl From<HubRefusal> for Wrong {
    fn from(_e: HubRefusal) -> Wrong {
        Wrong::Refused
    }
}
