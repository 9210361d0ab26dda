//! Events that an end reports to its user.

ghost use Rattle.std.specs.Prelude.{◌≡◌};

use mq_packet::{Message, NonEmpty, PacketId, Request, SubAckCode};
use mq_topic::TopicFilter;
use std::alloc::AllocError;

/// An event that an end reports for a received packet.
#[derive(Debug, Drop)]
pub enum Happening {
    /// The connection is established (3.2).
    Up {
        /// The server had a session (3.2.2.2).
        session_present: bool,
    },
    /// A message is delivered (4.3).
    Handed(Message),
    /// A client subscribes (3.8).
    Subscribe {
        /// The packet identifier, which the response must have.
        id: PacketId,
        /// The requested subscriptions.
        requests: NonEmpty<Request>,
    },
    /// A client unsubscribes (3.10).
    Unsubscribe {
        /// The packet identifier, which the response must have.
        id: PacketId,
        /// The filters.
        filters: NonEmpty<TopicFilter>,
    },
    /// The server answered a SUBSCRIBE (3.9).
    SubAck {
        /// The identifier of the SUBSCRIBE.
        id: PacketId,
        /// A code for each request.
        codes: NonEmpty<SubAckCode>,
    },
    /// The server answered an UNSUBSCRIBE (3.11).
    UnsubAck(PacketId),
    /// The server answered a PINGREQ (3.13).
    Pong,
}

impl Clone for Happening {
    ghost is_clone = { λ happening copy. copy ≡ happening };

    /// The same happening; the bytes of its texts and payload are shared, none is copied.
    fn clone(&self) -> Result<Happening, AllocError> {
        Ok(match self {
            Happening::Up { session_present } => Happening::Up {
                session_present: *session_present,
            },
            Happening::Handed(message) => Happening::Handed(message.clone()?),
            Happening::Subscribe { id, requests } => Happening::Subscribe {
                id: *id,
                requests: requests.clone()?,
            },
            Happening::Unsubscribe { id, filters } => Happening::Unsubscribe {
                id: *id,
                filters: filters.clone()?,
            },
            Happening::SubAck { id, codes } => Happening::SubAck {
                id: *id,
                codes: codes.clone()?,
            },
            Happening::UnsubAck(id) => Happening::UnsubAck(*id),
            Happening::Pong => Happening::Pong,
        })
    }
}
