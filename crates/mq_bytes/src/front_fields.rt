//! The packet at the front of a buffer, with the places of its fields.

ghost use Rattle.std.specs.Prelude.{◌≡◌, ◌+◌, ◌++◌, ◌∷◌, ◌≤◌, ℕ, List, Bool, length, false};
ghost use Rattle.mq_bytes.specs.Prelude.{LengthUnder, delivery_fields, fields, publish_fields, packet_of, IsLocated, Lies, Shows, ShowsConnAck, ShowsList, ShowsNumber, ShowsPublish, dup_of, identifier_of};

use crate::connect_places::connect_fields;
use crate::frequent::locate_frequent;
use crate::places::{Field, Front, PacketFields};
use mq_decode::{Limits, PacketView, PublishView, View, view};
use mq_packet::{ConnAck, Delivery, PacketId};
use mq_wire::{LengthReading, length_laws, loose_length_at};

/// Returns the packet at the front of the buffer with the places of its fields. The size of the
/// packet can exceed the limit by the five bytes of the fixed header. Allocates nothing.
#[inline(always)]
pub fn locate(bytes: &[u8], limits: Limits) -> Front
    ensures { IsLocated limits bytes.now result }
{
    match locate_frequent(bytes, limits) {
        Some(fields) => Front::Whole(fields),
        None => locate_any(bytes, limits),
    }
}

// The same for every packet. It is inlined so that the result of the short path is not written to
// memory and copied.
#[inline(always)]
#[tactic(auto, using(crate::proofs::Located::located))]
fn locate_any(bytes: &[u8], limits: Limits) -> Front
    ensures { IsLocated limits bytes.now result }
{
    match view(bytes, limits) {
        View::Whole(packet, size) => {
            let start = fields_start(bytes);
            Front::Whole(shown(bytes, &packet, start, size))
        }
        View::More => Front::More,
        View::Fault(fault) => Front::Fault(fault),
    }
}

// The index of the first byte behind the fixed header (2.2).
fn fields_start(bytes: &[u8]) -> usize
    ensures { (lenient : Bool) (first n : ℕ) (len rest : List ℕ) → LengthUnder lenient n len
        → bytes.now ≡ first ∷ (len ++ rest) → result ≡ 1 + length len }
{
    length_laws();
    let [_, behind @ ..] = bytes else {
        return 0;
    };
    match loose_length_at(behind) {
        LengthReading::Whole(_, size) => 1 + size,
        LengthReading::Unfinished => 0,
        LengthReading::TooLong => 0,
        LengthReading::Overlong(_) => 0,
    }
}

/// A packet without fields.
pub(crate) fn bare(kind: u8, size: usize) -> PacketFields
    ensures kind { ShowsNumber result kind 0 }
    ensures size { result.size ≡ size }
    ensures will { result.has_will ≡ false }
    ensures user_name { result.has_user_name ≡ false }
    ensures password { result.has_password ≡ false }
    ensures session_present { result.session_present ≡ false }
    ensures code { result.code ≡ 0 }
{
    let none = Field { at: 0, size: 0 };
    PacketFields {
        kind,
        qos: 0,
        retain: false,
        dup: false,
        clean_session: false,
        has_will: false,
        has_user_name: false,
        has_password: false,
        session_present: false,
        code: 0,
        id: 0,
        keep_alive: 0,
        size,
        topic: none,
        payload: none,
        list: none,
        client_id: none,
        user_name: none,
        password: none,
    }
}

/// A packet whose only field is an identifier.
pub(crate) fn numbered(kind: u8, id: PacketId, size: usize) -> PacketFields
    ensures kind { ShowsNumber result kind id }
    ensures size { result.size ≡ size }
{
    let mut fields = bare(kind, size);
    fields.id = id.get();
    fields
}

// A packet with an identifier and a list, whose fields begin at `start`.
fn listed(kind: u8, id: PacketId, start: usize, size: usize) -> PacketFields
    requires { start + 2 ≤ size }
    ensures list { (b items : List ℕ) → Lies b (start + 2) items → size ≡ start + 2 + length items
        → ShowsList b result kind id items }
    ensures size { result.size ≡ size }
{
    let mut fields = numbered(kind, id, size);
    let at = start + 2;
    fields.list = Field {
        at,
        size: size - at,
    };
    fields
}

fn connack(answer: ConnAck, size: usize) -> PacketFields
    ensures shows { ShowsConnAck result answer }
    ensures size { result.size ≡ size }
{
    let mut fields = bare(2, size);
    match answer {
        ConnAck::Accepted { session_present } => fields.session_present = session_present,
        ConnAck::Refused(code) => fields.code = code.number(),
    }
    fields
}

/// The identifier of a PUBLISH, DUP, and the number of bytes of the identifier (3.3.2.2).
pub(crate) fn delivery_parts(delivery: Option<Delivery>) -> (u16, bool, usize)
    ensures id { result.0 ≡ identifier_of delivery }
    ensures dup { result.1 ≡ dup_of delivery }
    ensures size { result.2 ≡ length (delivery_fields delivery) }
    ensures small { result.2 ≤ 2 }
{
    match delivery {
        Some(delivery) => (delivery.id.get(), delivery.dup, 2),
        None => (0, false, 0),
    }
}

#[tactic(auto, using(crate::proofs::Lying::lies_topic, crate::proofs::Lying::lies_payload))]
fn publish(bytes: &[u8], publish: &PublishView<'_>, start: usize, size: usize) -> PacketFields
    requires { Lies bytes.now start (publish_fields publish.now.publish) }
    ensures shows { ShowsPublish bytes.now result publish.now.publish }
    ensures size { result.size ≡ size }
{
    let mut fields = bare(3, size);
    fields.qos = publish.qos().number();
    fields.retain = publish.retain();
    let topic = Field {
        at: start + 2,
        size: publish.topic().len(),
    };
    fields.topic = topic;
    let (id, dup, id_size) = delivery_parts(publish.delivery());
    fields.id = id;
    fields.dup = dup;
    fields.payload = Field {
        at: topic.at + topic.size + id_size,
        size: publish.payload().len(),
    };
    fields
}

// The packet whose fields begin at `start`.
#[tactic(auto, using(crate::proofs::Lying::lies_list, crate::proofs::Lying::list_size))]
fn shown(bytes: &[u8], packet: &PacketView<'_>, start: usize, size: usize) -> PacketFields
    requires lies { Lies bytes.now start (fields (packet_of packet.now)) }
    requires size { size ≡ start + length (fields (packet_of packet.now)) }
    ensures shows { Shows bytes.now result (packet_of packet.now) }
    ensures size { result.size ≡ size }
{
    match packet {
        PacketView::Connect(connect) => connect_fields(bytes, connect, start, size),
        PacketView::ConnAck(answer) => connack(*answer, size),
        PacketView::Publish(view) => publish(bytes, view, start, size),
        PacketView::PubAck(id) => numbered(4, *id, size),
        PacketView::PubRec(id) => numbered(5, *id, size),
        PacketView::PubRel(id) => numbered(6, *id, size),
        PacketView::PubComp(id) => numbered(7, *id, size),
        PacketView::Subscribe { id, .. } => listed(8, *id, start, size),
        PacketView::SubAck { id, .. } => listed(9, *id, start, size),
        PacketView::Unsubscribe { id, .. } => listed(10, *id, start, size),
        PacketView::UnsubAck(id) => numbered(11, *id, size),
        PacketView::PingReq => bare(12, size),
        PacketView::PingResp => bare(13, size),
        PacketView::Disconnect => bare(14, size),
    }
}
