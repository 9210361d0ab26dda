//! A broker without a storage.

ghost use Rattle.std.specs.Prelude.{false, true};

use crate::broker::{Broker, CommitFailure, SnapshotBroker, SnapshotNote};
use mq_hub::Hub;
use mq_route::{Conn, HubEvent, HubRefusal, HubReply};
use std::alloc::Global;

impl Broker for Hub {
    ghost state = { λ hub. hub };

    ghost committed = { λ _. true };

    ghost can_fail = { false };

    fn hub(&self) -> &Hub {
        self
    }

    fn step(&mut self, event: &HubEvent) -> Result<HubReply, HubRefusal> {
        Hub::step(self, event)
    }

    fn step_some(
        &mut self,
        conn: Conn,
        piece: &[u8],
        most_acts: usize,
    ) -> Result<(HubReply, usize), HubRefusal> {
        Hub::step_some(self, conn, piece, most_acts)
    }

    fn collect(&mut self, conn: Conn) -> Result<HubReply, HubRefusal> {
        Hub::step(self, &HubEvent::Collect(conn))
    }

    fn commit(&mut self) -> Result<(), CommitFailure> {
        Ok(())
    }
}

impl SnapshotBroker for Hub {
    fn take_notes(&mut self, alloc: Global) -> Vec<SnapshotNote> {
        Vec::new(alloc)
    }
}
