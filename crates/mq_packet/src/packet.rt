//! The fourteen control packets (chapter 3).

ghost use Rattle.std.specs.Prelude.{◌≡◌};
ghost use Rattle.mq_packet.specs.Prelude.{code_number, code_from};

use crate::connack::ConnAck;
use crate::connect::BoxedConnect;
use crate::id::PacketId;
use crate::list::NonEmpty;
use crate::publish::Publish;
use mq_topic::{Qos, TopicFilter};
use std::alloc::AllocError;
use std::mem::size_of;

// A list of packets moves each of them, so a packet must stay small.
const _: () = prove!(size_of::<Packet>() <= 96);

/// A control packet (chapter 3).
#[derive(Debug, Drop)]
pub enum Packet {
    /// The client requests a connection (3.1).
    Connect(BoxedConnect),
    /// The server's response to CONNECT (3.2).
    ConnAck(ConnAck),
    /// An application message (3.3).
    Publish(Publish),
    /// Acknowledges a PUBLISH with QoS 1 (3.4).
    PubAck(PacketId),
    /// Acknowledges a PUBLISH with QoS 2 (3.5).
    PubRec(PacketId),
    /// Releases a message with QoS 2 (3.6).
    PubRel(PacketId),
    /// Completes the exchange of a message with QoS 2 (3.7).
    PubComp(PacketId),
    /// The client requests subscriptions (3.8).
    Subscribe {
        /// The packet identifier.
        id: PacketId,
        /// The requested subscriptions.
        requests: NonEmpty<Request>,
    },
    /// The server's response to SUBSCRIBE, one code for each request (3.9).
    SubAck {
        /// The packet identifier.
        id: PacketId,
        /// The codes, in the order of the requests.
        codes: NonEmpty<SubAckCode>,
    },
    /// The client cancels subscriptions (3.10).
    Unsubscribe {
        /// The packet identifier.
        id: PacketId,
        /// The topic filters.
        filters: NonEmpty<TopicFilter>,
    },
    /// The server's response to UNSUBSCRIBE (3.11).
    UnsubAck(PacketId),
    /// The client checks that the server is alive (3.12).
    PingReq,
    /// The server's response to PINGREQ (3.13).
    PingResp,
    /// The client is about to close the connection (3.14).
    Disconnect,
}

/// A requested subscription (3.8.3).
#[derive(Debug, Drop)]
pub struct Request {
    /// The topic filter.
    pub filter: TopicFilter,
    /// The maximum quality of service of delivered messages.
    pub qos: Qos,
}

/// A code of SUBACK (3.9.3).
#[derive(Clone, Copy, Debug, PartialEq, Eq)]
pub enum SubAckCode {
    /// The subscription is accepted, with this maximum quality of service.
    Granted(Qos),
    /// The subscription is refused.
    Failure,
}

impl SubAckCode {
    /// The return code: 0, 1, 2 or 128.
    pub fn number(self) -> u8
        ensures { result ≡ code_number self }
    {
        match self {
            SubAckCode::Granted(qos) => qos.number(),
            SubAckCode::Failure => 128,
        }
    }

    /// The code with this number, or `None` for any number but 0, 1, 2 and 128.
    pub fn from_number(number: u8) -> Option<SubAckCode>
        ensures { result ≡ code_from number }
    {
        match number {
            0 => Some(SubAckCode::Granted(Qos::Q0)),
            1 => Some(SubAckCode::Granted(Qos::Q1)),
            2 => Some(SubAckCode::Granted(Qos::Q2)),
            128 => Some(SubAckCode::Failure),
            _ => None,
        }
    }
}

impl Clone for Request {
    ghost is_clone = { λ request copy. copy ≡ request };

    /// Returns another owner of the same bytes.
    fn clone(&self) -> Result<Request, AllocError> {
        Ok(Request {
            filter: self.filter.clone()?,
            qos: self.qos,
        })
    }
}

impl Clone for Packet {
    ghost is_clone = { λ packet copy. copy ≡ packet };

    /// Returns a packet that shares texts, binary fields and payload with this one.
    fn clone(&self) -> Result<Packet, AllocError> {
        Ok(match self {
            Packet::Connect(connect) => Packet::Connect(connect.clone()?),
            Packet::ConnAck(connack) => Packet::ConnAck(*connack),
            Packet::Publish(publish) => Packet::Publish(publish.clone()?),
            Packet::PubAck(id) => Packet::PubAck(*id),
            Packet::PubRec(id) => Packet::PubRec(*id),
            Packet::PubRel(id) => Packet::PubRel(*id),
            Packet::PubComp(id) => Packet::PubComp(*id),
            Packet::Subscribe { id, requests } => Packet::Subscribe {
                id: *id,
                requests: requests.clone()?,
            },
            Packet::SubAck { id, codes } => Packet::SubAck {
                id: *id,
                codes: codes.clone()?,
            },
            Packet::Unsubscribe { id, filters } => Packet::Unsubscribe {
                id: *id,
                filters: filters.clone()?,
            },
            Packet::UnsubAck(id) => Packet::UnsubAck(*id),
            Packet::PingReq => Packet::PingReq,
            Packet::PingResp => Packet::PingResp,
            Packet::Disconnect => Packet::Disconnect,
        })
    }
}
