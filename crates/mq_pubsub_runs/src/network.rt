//! Networks: connections to one server, and waits between them.

use mq_client::Connection;
use mq_stream::{Clock, Stream, StreamError};

/// Makes connections to one server, and waits between them. Calls may come in any order.
pub trait Network<S: Stream, C: Clock> {
    /// Makes a connection. A run never takes a quiet connection for a loss: the stream must fail
    /// once it has been quiet for too long, if that is wanted.
    fn dial(&mut self) -> Result<Connection<S, C>, StreamError>;

    /// The milliseconds since a fixed instant.
    fn now(&mut self) -> u64;

    /// Waits this many milliseconds.
    fn pause(&mut self, milliseconds: u64);
}
