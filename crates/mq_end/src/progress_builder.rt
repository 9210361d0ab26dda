//! Collects the results of packets.

ghost use Rattle.std.specs.Prelude.{◌≡◌, ◌<◌, ◌++◌, [], option_to_list, IsOk, OnOk};

use crate::happening::Happening;
use crate::packet_outcome::PacketOutcome;
use crate::progress::Progress;
use crate::reason::CloseReason;
use crate::small_list::{SmallList, SmallListBuilder};
use mq_packet::PacketId;
use std::alloc::{AllocError, Global};

/// The results of the packets so far.
#[derive(Drop)]
pub(crate) struct ProgressBuilder {
    pub(crate) happenings: SmallListBuilder<Happening>,
    pub(crate) acknowledged: SmallListBuilder<PacketId>,
}

impl ProgressBuilder {
    /// Nothing yet.
    pub(crate) fn new(alloc: Global) -> ProgressBuilder
        ensures happenings { result.happenings.items ≡ [] }
        ensures acknowledged { result.acknowledged.items ≡ [] }
        ensures happening_room { 0 < result.happenings.room }
        ensures acknowledged_room { 0 < result.acknowledged.room }
    {
        ProgressBuilder {
            happenings: SmallListBuilder::new(alloc),
            acknowledged: SmallListBuilder::new(alloc),
        }
    }

    /// Reserves room for the result of one more packet.
    pub(crate) fn reserve(&mut self) -> Result<(), AllocError>
        ensures happenings { self.new.happenings.items ≡ self.old.happenings.items }
        ensures acknowledged { self.new.acknowledged.items ≡ self.old.acknowledged.items }
        ensures happening_room { OnOk result (0 < self.new.happenings.room) }
        ensures acknowledged_room { OnOk result (0 < self.new.acknowledged.room) }
        ensures within { 0 < self.old.happenings.room → 0 < self.old.acknowledged.room → IsOk result }
    {
        self.happenings.reserve()?;
        self.acknowledged.reserve()
    }

    /// Adds the result of one more packet, within the reserved room. Returns the reason if the end
    /// closed.
    pub(crate) fn add(&mut self, outcome: PacketOutcome) -> Option<CloseReason>
        requires happening { 0 < self.old.happenings.room }
        requires acknowledged { 0 < self.old.acknowledged.room }
        ensures happenings { self.new.happenings.items ≡ self.old.happenings.items ++ option_to_list outcome.happening }
        ensures acknowledged { self.new.acknowledged.items ≡ self.old.acknowledged.items ++ option_to_list outcome.acknowledged }
        ensures closed { result ≡ outcome.closed }
    {
        let PacketOutcome {
            happening,
            acknowledged,
            closed,
        } = outcome;
        if let Some(happening) = happening {
            self.happenings.push(happening);
        }
        if let Some(id) = acknowledged {
            self.acknowledged.push(id);
        }
        closed
    }

    /// All results, and the reason if the end closed.
    pub(crate) fn into_progress(self, closed: Option<CloseReason>) -> Progress
        ensures happenings { result.happenings ≡ self.happenings.items }
        ensures acknowledged { result.acknowledged ≡ self.acknowledged.items }
        ensures closed { result.closed ≡ closed }
    {
        let ProgressBuilder {
            happenings,
            acknowledged,
        } = self;
        Progress {
            happenings: SmallList::from_gathered(happenings),
            acknowledged: SmallList::from_gathered(acknowledged),
            closed,
        }
    }
}
