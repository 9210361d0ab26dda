//! Observers of a loop.

use mq_route::HubReply;

/// Is called for each reply of the broker, and for the bytes that are read and collected.
pub trait Observer {
    /// The broker made a step with this reply.
    fn on_reply(&mut self, reply: &HubReply);

    /// This number of bytes was read from a connection.
    fn on_read(&mut self, count: usize);

    /// This number of bytes was collected for a connection.
    fn on_collect(&mut self, count: usize);
}

/// An observer that ignores everything.
#[derive(Clone, Copy, Debug)]
pub struct NoObserver;

impl Observer for NoObserver {
    fn on_reply(&mut self, _reply: &HubReply) {}

    fn on_read(&mut self, _count: usize) {}

    fn on_collect(&mut self, _count: usize) {}
}
