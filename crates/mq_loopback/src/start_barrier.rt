//! When publishers start.

ghost use Rattle.std.specs.Prelude.{◌≡◌, ◌↔◌, ◌-◌, IsTrue, None, is_some};
ghost use Rattle.mq_loopback.specs.Prelude.{IsPending, first_fault, may_start};

use crate::client_run::Grant;
use mq_client::ClientError;
use std::sync::{Condvar, Mutex, Wait};

/// Leave to publish: all collectors have subscribed, and no client has a fault.
///
/// Only a barrier gives it.
#[derive(Drop)]
pub(crate) struct Start(());

// How many collectors are not subscribed yet, and the first fault of a client.
#[derive(Drop)]
struct Waiting {
    left: usize,
    fault: Option<ClientError>,
}

impl Waiting {
    // Waits for this number of collectors.
    fn new(collectors: usize) -> Waiting
        ensures { result ≡ record { left = collectors; fault = None } }
    {
        Waiting {
            left: collectors,
            fault: None,
        }
    }

    // Whether publishers are to wait on.
    fn is_pending(&self) -> bool
        ensures { IsTrue result ↔ IsPending self.now }
    {
        self.left > 0 && self.fault.is_none()
    }

    // Leave to publish, if nothing is pending and no client has a fault.
    fn start(&self) -> Option<Start>
        ensures { is_some result ≡ may_start self.now }
    {
        if self.left == 0 && self.fault.is_none() {
            Some(Start(()))
        } else {
            None
        }
    }

    // One collector more is subscribed.
    fn count(&mut self)
        ensures { self.new ≡ record self.old { left = self.old.left - 1 } }
    {
        self.left = self.left.saturating_sub(1);
    }

    // A client has a fault. The first one stays.
    fn call_off(&mut self, fault: ClientError)
        ensures { self.new ≡ record self.old { fault = first_fault self.old.fault fault } }
    {
        if self.fault.is_none() {
            self.fault = Some(fault);
        }
    }
}

/// Publishers wait here until every collector has subscribed, or a client has a fault.
#[derive(Drop)]
pub(crate) struct StartBarrier {
    waiting: Mutex<Waiting>,
    changed: Condvar,
}

impl StartBarrier {
    /// A barrier for this many collectors.
    pub(crate) fn after(collectors: usize) -> StartBarrier {
        StartBarrier {
            waiting: Mutex::new(Waiting::new(collectors)),
            changed: Condvar::new(),
        }
    }

    /// A collector is subscribed.
    pub(crate) fn count<R: Wait>(&self, rt: &R, _grant: Grant) {
        self.waiting.lock(rt).count();
        self.changed.notify_all();
    }

    /// A client has a fault.
    pub(crate) fn call_off<R: Wait>(&self, rt: &R, fault: ClientError) {
        self.waiting.lock(rt).call_off(fault);
        self.changed.notify_all();
    }

    /// Waits. Returns `None` if publishers must not start, because a client has a fault.
    pub(crate) fn wait<R: Wait>(&self, rt: &R) -> Option<Start> {
        let waiting = self
            .changed
            .wait_while(rt, self.waiting.lock(rt), |waiting| waiting.is_pending());
        waiting.start()
    }

    /// The first fault of a client, if any had one.
    pub(crate) fn into_fault(self) -> Option<ClientError> {
        let StartBarrier {
            waiting,
            changed: _,
        } = self;
        let Waiting { left: _, fault } = waiting.into_inner();
        fault
    }
}
