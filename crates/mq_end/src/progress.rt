//! The results of received bytes.

ghost use Rattle.std.specs.Prelude.{◌≡◌};

use crate::happening::Happening;
use crate::reason::CloseReason;
use crate::small_list::SmallList;
use mq_packet::PacketId;
use std::alloc::AllocError;

/// The results of received bytes.
#[derive(Debug, Drop)]
pub struct Progress {
    /// The events of the packets, in order.
    pub happenings: SmallList<Happening>,
    /// The identifiers of the messages of quality of service 1 that were acknowledged and are free
    /// (4.3.2), in their order.
    pub acknowledged: SmallList<PacketId>,
    /// The reason if the end closed.
    pub closed: Option<CloseReason>,
}

impl Clone for Progress {
    ghost is_clone = { λ progress copy. copy ≡ progress };

    /// The same progress; the bytes of its texts and payloads are shared, none is copied.
    fn clone(&self) -> Result<Progress, AllocError> {
        Ok(Progress {
            happenings: self.happenings.clone()?,
            acknowledged: self.acknowledged.clone()?,
            closed: self.closed,
        })
    }
}
