//! The parts of a packet that a diagram shows.

ghost use Rattle.std.specs.Prelude.{◌≡◌};
ghost use Rattle.mq_picture.specs.Prelude.{delivery_dup, delivery_id, kind_of, packet_dup, packet_id};

use mq_packet::{Packet, PacketId, Publish, encoded_len};

/// The type of a packet (2.2.1).
#[derive(Clone, Copy, Debug)]
pub enum Kind {
    /// CONNECT (3.1).
    Connect,
    /// CONNACK (3.2).
    ConnAck,
    /// PUBLISH (3.3).
    Publish,
    /// PUBACK (3.4).
    PubAck,
    /// PUBREC (3.5).
    PubRec,
    /// PUBREL (3.6).
    PubRel,
    /// PUBCOMP (3.7).
    PubComp,
    /// SUBSCRIBE (3.8).
    Subscribe,
    /// SUBACK (3.9).
    SubAck,
    /// UNSUBSCRIBE (3.10).
    Unsubscribe,
    /// UNSUBACK (3.11).
    UnsubAck,
    /// PINGREQ (3.12).
    PingReq,
    /// PINGRESP (3.13).
    PingResp,
    /// DISCONNECT (3.14).
    Disconnect,
}

/// The parts of a packet that a diagram shows.
#[derive(Clone, Copy, Debug)]
pub struct Summary {
    /// The type.
    pub kind: Kind,
    /// The packet identifier, if it has one (2.3.1).
    pub id: Option<PacketId>,
    /// DUP of a PUBLISH; otherwise false (3.3.1.1).
    pub dup: bool,
    /// The size in bytes.
    pub size: u32,
}

// The type of a packet.
fn kind_of(packet: &Packet) -> Kind
    ensures { result ≡ kind_of packet.now }
{
    match packet {
        Packet::Connect(_) => Kind::Connect,
        Packet::ConnAck(_) => Kind::ConnAck,
        Packet::Publish(_) => Kind::Publish,
        Packet::PubAck(_) => Kind::PubAck,
        Packet::PubRec(_) => Kind::PubRec,
        Packet::PubRel(_) => Kind::PubRel,
        Packet::PubComp(_) => Kind::PubComp,
        Packet::Subscribe { .. } => Kind::Subscribe,
        Packet::SubAck { .. } => Kind::SubAck,
        Packet::Unsubscribe { .. } => Kind::Unsubscribe,
        Packet::UnsubAck(_) => Kind::UnsubAck,
        Packet::PingReq => Kind::PingReq,
        Packet::PingResp => Kind::PingResp,
        Packet::Disconnect => Kind::Disconnect,
    }
}

// The packet identifier and DUP of a PUBLISH.
fn publish_fields(publish: &Publish) -> (Option<PacketId>, bool)
    ensures id { result.0 ≡ delivery_id publish.now.delivery }
    ensures dup { result.1 ≡ delivery_dup publish.now.delivery }
{
    match publish.delivery() {
        Some(delivery) => (Some(delivery.id), delivery.dup),
        None => (None, false),
    }
}

// The packet identifier and DUP.
fn fields_of(packet: &Packet) -> (Option<PacketId>, bool)
    ensures id { result.0 ≡ packet_id packet.now }
    ensures dup { result.1 ≡ packet_dup packet.now }
{
    match packet {
        Packet::Publish(publish) => publish_fields(publish),
        Packet::PubAck(id) => (Some(*id), false),
        Packet::PubRec(id) => (Some(*id), false),
        Packet::PubRel(id) => (Some(*id), false),
        Packet::PubComp(id) => (Some(*id), false),
        Packet::Subscribe { id, .. } => (Some(*id), false),
        Packet::SubAck { id, .. } => (Some(*id), false),
        Packet::Unsubscribe { id, .. } => (Some(*id), false),
        Packet::UnsubAck(id) => (Some(*id), false),
        Packet::Connect(_)
        | Packet::ConnAck(_)
        | Packet::PingReq
        | Packet::PingResp
        | Packet::Disconnect => (None, false),
    }
}

/// The parts of a packet that a diagram shows.
pub(crate) fn summary_of(packet: &Packet) -> Summary
    ensures kind { result.kind ≡ kind_of packet.now }
    ensures id { result.id ≡ packet_id packet.now }
    ensures dup { result.dup ≡ packet_dup packet.now }
{
    let (id, dup) = fields_of(packet);
    Summary {
        kind: kind_of(packet),
        id,
        dup,
        size: encoded_len(packet).unwrap_or(0),
    }
}
