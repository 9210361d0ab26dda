//! The trace of a world's events.

use crate::account::Account;
use crate::answer::Answer;

/// The results of all events of a world so far.
#[derive(Debug, Drop)]
pub struct Trace {
    /// The answers to the events, the oldest first.
    pub answers: Vec<Answer>,
    /// The messages that the client accepted and delivered.
    pub client: Account,
    /// The messages that the server accepted and delivered.
    pub server: Account,
}
