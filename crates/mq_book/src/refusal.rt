//! Reasons of a book to refuse an event.

use mq_route::HubRefusal;
use thiserror::Error;

/// Why a book refuses an event.
#[derive(Clone, Copy, Debug, PartialEq, Eq, Error)]
pub enum BookRefusal {
    /// The journal has the maximum number of entries, or no place is left for another one.
    #[error("the journal is full")]
    JournalFull,
    /// An allocation failed.
    #[error("out of memory")]
    Memory,
    /// The broker refuses the event.
    #[error("{0}")]
    Hub(HubRefusal),
}
