//! The result of a PUBLISH whose message stays with the caller.

ghost use Rattle.std.specs.Prelude.{◌≡◌};
ghost use Rattle.mq_end.specs.Prelude.{outcome_of, Message};

use crate::happening::Happening;
use crate::packet_outcome::PacketOutcome;
use crate::reason::CloseReason;
use mq_packet::Message;

/// The result of a PUBLISH whose message stays with the caller (4.3).
#[derive(Clone, Copy, Debug, PartialEq, Eq)]
pub enum PublishOutcome {
    /// The message must be delivered.
    HandedOn,
    /// Nothing is to be delivered: the message is a duplicate (4.3.3), or the end has no
    /// connection.
    Nothing,
    /// The end closed, for this reason.
    Closed(CloseReason),
}

impl PublishOutcome {
    /// The reason if the end closed.
    pub fn closed(self) -> Option<CloseReason>
        ensures { (message : Message) → result ≡ (outcome_of self message).closed }
    {
        match self {
            PublishOutcome::Closed(reason) => Some(reason),
            PublishOutcome::HandedOn | PublishOutcome::Nothing => None,
        }
    }

    /// The result with the message.
    pub(crate) fn outcome(self, message: Message) -> PacketOutcome
        ensures { result ≡ outcome_of self message }
    {
        match self {
            PublishOutcome::HandedOn => PacketOutcome::tells(Happening::Handed(message)),
            PublishOutcome::Nothing => PacketOutcome::nothing(),
            PublishOutcome::Closed(reason) => PacketOutcome::closes(reason),
        }
    }
}
