//! The result of one packet.

ghost use Rattle.std.specs.Prelude.{◌≡◌, None, Some};

use crate::happening::Happening;
use crate::reason::CloseReason;
use mq_packet::PacketId;

/// The result of one packet, without a list.
#[derive(Debug, Drop)]
pub struct PacketOutcome {
    /// The event to report, if any.
    pub happening: Option<Happening>,
    /// The identifier of the message of quality of service 1 that it acknowledges, which is free
    /// (4.3.2).
    pub acknowledged: Option<PacketId>,
    /// The reason if the end closed.
    pub closed: Option<CloseReason>,
}

impl PacketOutcome {
    /// Nothing to report; the end continues.
    pub(crate) fn nothing() -> PacketOutcome
        ensures { result ≡ record { happening = None; acknowledged = None; closed = None } }
    {
        PacketOutcome {
            happening: None,
            acknowledged: None,
            closed: None,
        }
    }

    /// An event to report.
    pub(crate) fn tells(happening: Happening) -> PacketOutcome
        ensures { result ≡ record { happening = Some happening; acknowledged = None; closed = None } }
    {
        PacketOutcome {
            happening: Some(happening),
            acknowledged: None,
            closed: None,
        }
    }

    /// A message is acknowledged.
    pub(crate) fn acknowledges(id: PacketId) -> PacketOutcome
        ensures { result ≡ record { happening = None; acknowledged = Some id; closed = None } }
    {
        PacketOutcome {
            happening: None,
            acknowledged: Some(id),
            closed: None,
        }
    }

    /// The end closed.
    pub(crate) fn closes(reason: CloseReason) -> PacketOutcome
        ensures { result ≡ record { happening = None; acknowledged = None; closed = Some reason } }
    {
        PacketOutcome {
            happening: None,
            acknowledged: None,
            closed: Some(reason),
        }
    }
}
