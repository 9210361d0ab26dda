//! Why arguments are no command.

use clap::Error as ParseError;
use clap::error::ErrorKind;
use std::alloc::AllocError;
use thiserror::Error;

/// Why arguments are no command.
#[derive(Debug, Drop, Error)]
pub enum OptionFault {
    /// The parser refused them, or they ask for help.
    #[error("{0}")]
    Parse(ParseError),
    /// This sentence names the fault and the remedy.
    #[error("{0}")]
    Said(String),
    /// An allocation failed.
    #[error("out of memory")]
    Memory,
}

impl From<AllocError> for OptionFault {
    fn from(_e: AllocError) -> OptionFault {
        OptionFault::Memory
    }
}

impl From<ParseError> for OptionFault {
    fn from(error: ParseError) -> OptionFault {
        match error.kind() {
            ErrorKind::OutOfMemory => OptionFault::Memory,
            _ => OptionFault::Parse(error),
        }
    }
}
