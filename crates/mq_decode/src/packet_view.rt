//! Borrowed packets.

ghost use Rattle.std.specs.Prelude.{◌≡◌, IfOk, IfSome};
ghost use Rattle.mq_decode.specs.Prelude.{LiesAtEnd, packet_of};

use crate::connect::ConnectView;
use crate::fault::DecodeFault;
use crate::list_views::{CodesView, FiltersView, RequestsView};
use crate::publish::PublishView;
use bytes::Bytes;
use mq_packet::{ConnAck, Packet, PacketId};
use std::alloc::{AllocError, Global};

/// The result of [`view`](crate::view).
#[derive(Debug, Drop)]
pub enum View<'a> {
    /// A packet, and how many bytes it takes.
    Whole(PacketView<'a>, usize),
    /// An incomplete packet, and nothing is wrong with it.
    More,
    /// The first fault.
    Fault(DecodeFault),
}

/// A control packet that is borrowed from a buffer (chapter 3): it refers to names, payloads and
/// lists in the buffer.
#[derive(Debug, Drop)]
pub enum PacketView<'a> {
    /// The client requests a connection (3.1).
    Connect(ConnectView<'a>),
    /// The server's response to CONNECT (3.2).
    ConnAck(ConnAck),
    /// An application message (3.3).
    Publish(PublishView<'a>),
    /// Acknowledges a PUBLISH with QoS 1 (3.4).
    PubAck(PacketId),
    /// Acknowledges a PUBLISH with QoS 2 (3.5).
    PubRec(PacketId),
    /// Releases a message with QoS 2 (3.6).
    PubRel(PacketId),
    /// Completes the exchange of a message with QoS 2 (3.7).
    PubComp(PacketId),
    /// The client requests subscriptions (3.8).
    Subscribe {
        /// The packet identifier.
        id: PacketId,
        /// The requested subscriptions.
        requests: RequestsView<'a>,
    },
    /// The server's response to SUBSCRIBE, one code for each request (3.9).
    SubAck {
        /// The packet identifier.
        id: PacketId,
        /// The codes, at least one.
        codes: CodesView<'a>,
    },
    /// The client cancels subscriptions (3.10).
    Unsubscribe {
        /// The packet identifier.
        id: PacketId,
        /// The filters, at least one.
        filters: FiltersView<'a>,
    },
    /// The server's response to UNSUBSCRIBE (3.11).
    UnsubAck(PacketId),
    /// The client checks that the server is alive (3.12).
    PingReq,
    /// The server's response to PINGREQ (3.13).
    PingResp,
    /// The client is about to close the connection (3.14).
    Disconnect,
}

impl<'a> PacketView<'a> {
    /// The packet of its own, with a copy of the bytes.
    pub fn owned(&self, alloc: Global) -> Result<Packet, AllocError>
        ensures { IfOk result (λ p. p ≡ packet_of self.now) }
    {
        self.shared(alloc, None)
    }

    /// The owned packet. If `whole` is bytes that end with it, a message shares them.
    pub(crate) fn shared(&self, alloc: Global, whole: Option<&Bytes>) -> Result<Packet, AllocError>
        requires { IfSome whole (λ packet. LiesAtEnd packet.now self.now) }
        ensures { IfOk result (λ p. p ≡ packet_of self.now) }
    {
        Ok(match self {
            PacketView::Connect(connect) => Packet::Connect(connect.owned(alloc)?),
            PacketView::ConnAck(answer) => Packet::ConnAck(*answer),
            PacketView::Publish(publish) => Packet::Publish(publish.shared(alloc, whole)?),
            PacketView::PubAck(id) => Packet::PubAck(*id),
            PacketView::PubRec(id) => Packet::PubRec(*id),
            PacketView::PubRel(id) => Packet::PubRel(*id),
            PacketView::PubComp(id) => Packet::PubComp(*id),
            PacketView::Subscribe { id, requests } => Packet::Subscribe {
                id: *id,
                requests: requests.owned(alloc)?,
            },
            PacketView::SubAck { id, codes } => Packet::SubAck {
                id: *id,
                codes: codes.owned(alloc)?,
            },
            PacketView::Unsubscribe { id, filters } => Packet::Unsubscribe {
                id: *id,
                filters: filters.owned(alloc)?,
            },
            PacketView::UnsubAck(id) => Packet::UnsubAck(*id),
            PacketView::PingReq => Packet::PingReq,
            PacketView::PingResp => Packet::PingResp,
            PacketView::Disconnect => Packet::Disconnect,
        })
    }
}
