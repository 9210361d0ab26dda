//! The counters of a loop.

use crate::missed::Missed;
use mq_loop::Observer;
use mq_route::HubReply;
use mq_status::Metrics;
use std::alloc::Global;

/// Counters that observe a loop.
#[derive(Drop)]
pub(crate) struct Counted {
    pub(crate) metrics: Metrics,
    pub(crate) missed: Missed,
}

impl Counted {
    pub(crate) fn new(alloc: Global) -> Counted {
        Counted {
            metrics: Metrics::new(),
            missed: Missed::new(alloc),
        }
    }
}

impl Observer for Counted {
    fn on_reply(&mut self, reply: &HubReply) {
        self.metrics.count_reply(reply);
        for act in reply.acts.as_slice() {
            self.missed.count_act(act);
        }
    }

    fn on_read(&mut self, count: usize) {
        self.metrics.count_read(count);
    }

    fn on_collect(&mut self, count: usize) {
        self.metrics.count_written(count);
    }
}
