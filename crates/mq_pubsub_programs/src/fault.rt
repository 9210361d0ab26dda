//! Why a command stops before its run.

use std::alloc::AllocError;
use thiserror::Error;

/// Why a command stops before its run, although its arguments were read.
#[derive(Debug, Drop, Error)]
pub(crate) enum Fault {
    /// This sentence names the fault and the remedy.
    #[error("{0}")]
    Said(String),
    /// An allocation failed.
    #[error("out of memory")]
    Memory,
}

impl From<AllocError> for Fault {
    fn from(_e: AllocError) -> Fault {
        Fault::Memory
    }
}
