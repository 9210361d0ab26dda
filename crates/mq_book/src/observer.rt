//! Observers of a worker's steps.

ghost use Rattle.std.specs.Prelude.{List, Option, None};
ghost use Rattle.mq_book.specs.Prelude.{HubReply, Observes};

use mq_route::HubReply;
use std::sync::Wait;

/// Sees each step that a worker makes. It can wake the workers that have new output by it.
pub trait StepObserver: Drop {
    /// The replies that it saw, in order, if they are known.
    ghost observed: { Self → Option (List HubReply) } = { λ _. None };

    /// Called after each step of a worker, with its reply. The lock of the broker is free.
    fn on_step<R: Wait>(&mut self, rt: &R, worker: u16, reply: &HubReply)
        ensures { Observes (observed self.old) (observed self.new) reply.now };
}

/// An observer that does nothing.
#[derive(Clone, Copy, Debug, PartialEq, Eq)]
pub struct NoObserver;

impl StepObserver for NoObserver {
    fn on_step<R: Wait>(&mut self, _rt: &R, _worker: u16, _reply: &HubReply) {}
}
