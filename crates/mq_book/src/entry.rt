//! The record of a step in the journal, and the receipt for its worker.

use crate::reply::SharedReply;
use mq_route::HubEvent;

/// The record of a step in a journal.
#[derive(Debug, Drop)]
pub struct Entry {
    /// The worker that made the step.
    pub worker: u16,
    /// The event.
    pub event: HubEvent,
    /// The broker's reply.
    pub reply: SharedReply,
}

/// A worker's receipt for a step that it made.
#[derive(Debug, Drop)]
pub struct Receipt {
    /// The worker.
    pub worker: u16,
    /// The place of the entry in the journal, counted from 0 over the whole life of the book.
    pub place: u64,
    /// The broker's reply.
    pub reply: SharedReply,
}
