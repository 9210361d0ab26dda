//! The packet at the front of bytes.

ghost use Rattle.std.specs.Prelude.{◌≡◌, ◌+◌, ◌<◌, ◌≤◌, ◌++◌, ℕ, List, length, take, Ok, Some, IfOk, IfNone, IfSome};
ghost use Rattle.mq_decode.specs.Prelude.{Packet, EndsWith, FaultKind, front_at, Faulty, IsFront, Pending, ReadsWithin, IsView, LiesAtEnd, LiesInFront, packet_of, view_read};
ghost use Rattle.mq_packet.specs.declared.packet.Packet.TheVariants as packets;

use crate::body::body;
use crate::fault::{DecodeError, DecodeFault};
use crate::header::header_at;
use crate::kind::Kind;
use crate::laws::{pending_is_short, reads_again};
use crate::limits::Limits;
use crate::packet_view::{PacketView, View};
use crate::publish::{PublishView, publish};
use bytes::Bytes;
use mq_packet::{Packet, PacketId};
use mq_wire::{length_laws, number_laws, text_laws};
use std::alloc::Global;

/// The acknowledgement at the front (3.4 to 3.7, 3.11), whose only field is an identifier, if it is
/// complete and valid.
#[inline(always)]
#[tactic(auto, unfolding(crate::specs::Inside::Front::front_at, crate::specs::Inside::Front::header_at, mq_wire::specs::Reading::read_length, crate::specs::Bodies::only_identifier_at, crate::specs::Fields::identifier_at, crate::specs::Fields::number_at))]
pub(crate) fn acknowledgement(limits: Limits, bytes: &[u8]) -> Option<PacketView<'_>>
    ensures read { IfSome result
        (λ packet. front_at limits bytes.now ≡ Ok (Some (packet_of packet, 4))) }
    ensures within { IfSome result (λ packet. 4 ≤ length bytes.now) }
    ensures end { IfSome result (LiesAtEnd (take 4 bytes.now)) }
{
    let [first, 2, _, _, ..] = bytes else {
        return None;
    };
    if limits.max_packet() < 2 {
        return None;
    }
    let id = PacketId::new(mq_wire::number_at(bytes, 2))?;
    match first {
        0x40 => Some(PacketView::PubAck(id)),
        0x50 => Some(PacketView::PubRec(id)),
        0x62 => Some(PacketView::PubRel(id)),
        0x70 => Some(PacketView::PubComp(id)),
        0xB0 => Some(PacketView::UnsubAck(id)),
        _ => None,
    }
}

/// The packet without fields at the front (3.12 to 3.14).
#[inline(always)]
#[tactic(auto, unfolding(crate::specs::Inside::Front::front_at, crate::specs::Inside::Front::header_at, mq_wire::specs::Reading::read_length))]
pub(crate) fn bare_packet(limits: Limits, bytes: &[u8]) -> Option<PacketView<'_>>
    ensures read { IfSome result
        (λ packet. front_at limits bytes.now ≡ Ok (Some (packet_of packet, 2))) }
    ensures within { IfSome result (λ packet. 2 ≤ length bytes.now) }
    ensures end { IfSome result (LiesAtEnd (take 2 bytes.now)) }
{
    match bytes {
        [0xC0, 0, ..] => Some(PacketView::PingReq),
        [0xD0, 0, ..] => Some(PacketView::PingResp),
        [0xE0, 0, ..] => Some(PacketView::Disconnect),
        _ => None,
    }
}

// The front of the buffer in all other cases.
#[tactic(auto, unfolding(crate::specs::Inside::Front::front_at))]
fn read_any(limits: Limits, bytes: &[u8]) -> View<'_>
    ensures read { view_read result ≡ front_at limits bytes.now }
    ensures end { LiesInFront bytes.now result }
{
    let header = match header_at(limits, bytes) {
        Ok(None) => return View::More,
        Ok(Some(header)) => header,
        Err(fault) => return View::Fault(fault),
    };
    let end = header.start + header.size;
    if bytes.len() < end {
        return View::More;
    }
    let (front, _) = bytes.split_at(end);
    let (_, fields) = front.split_at(header.start);
    match body(header.kind, fields) {
        Ok(packet) => View::Whole(packet, end),
        Err(bad) => View::Fault(DecodeFault {
            kind: bad.kind,
            place: end.saturating_sub(bad.left),
        }),
    }
}

/// The PUBLISH at the front with its size, if it is complete and valid (3.3).
#[inline(always)]
#[tactic(auto, unfolding(crate::specs::Inside::Front::front_at))]
pub(crate) fn publish_front(limits: Limits, bytes: &[u8]) -> Option<(PublishView<'_>, usize)>
    ensures read { IfSome result
        (λ x. front_at limits bytes.now ≡ Ok (Some (packets.Publish x.0.publish, x.1))) }
    ensures within { IfSome result (λ x. x.1 ≤ length bytes.now) }
    ensures end { IfSome result (λ x. EndsWith (take x.1 bytes.now) x.0.fields) }
{
    let [0x30..=0x3F, ..] = bytes else {
        return None;
    };
    let Ok(Some(header)) = header_at(limits, bytes) else {
        return None;
    };
    let Kind::Publish(flags) = header.kind else {
        return None;
    };
    let end = header.start + header.size;
    if end > bytes.len() {
        return None;
    }
    let (whole, _) = bytes.split_at(end);
    let (_, fields) = whole.split_at(header.start);
    match publish(flags, fields) {
        Ok(publish) => Some((publish, end)),
        Err(_) => None,
    }
}

// The front of the buffer. Packets of two and four bytes are the most frequent, and need no header
// reader.
fn read_front(limits: Limits, bytes: &[u8]) -> View<'_>
    ensures read { view_read result ≡ front_at limits bytes.now }
    ensures end { LiesInFront bytes.now result }
{
    if let Some(packet) = acknowledgement(limits, bytes) {
        return View::Whole(packet, 4);
    }
    if let Some(packet) = bare_packet(limits, bytes) {
        return View::Whole(packet, 2);
    }
    read_any(limits, bytes)
}

/// Looks at the front of a buffer: a borrowed packet with its size, an incomplete packet, or the
/// first fault.
pub fn view<'a>(bytes: &'a [u8], limits: Limits) -> View<'a>
    ensures front { IsView limits bytes.now result }
    // All three cases are exact.
    ensures whole { (packet : Packet) (first rest : List ℕ)
        → ReadsWithin limits packet first → bytes.now ≡ first ++ rest
        → view_read result ≡ Ok (Some (packet, length first)) }
    ensures more { Pending limits bytes.now → result ≡ View.More }
    ensures fault { (cause : FaultKind) (place : ℕ) → Faulty limits bytes.now cause place
        → result ≡ View.Fault (record { kind = cause; place = place }) }
    // A PUBLISH ends with its packet.
    ensures end { LiesInFront bytes.now result }
{
    number_laws();
    text_laws();
    length_laws();
    read_front(limits, bytes)
}

/// The owned packet at the front with its size, `None` if it is incomplete, or its first fault. If
/// the packet fills the buffer `whole`, its payload shares the buffer; otherwise it is a copy.
pub(crate) fn front(
    alloc: Global,
    limits: Limits,
    whole: Option<&Bytes>,
    bytes: &[u8],
) -> Result<Option<(Packet, usize)>, DecodeError>
    requires { IfSome whole (λ all. all.now ≡ bytes.now) }
    ensures front { IsFront limits bytes.now result }
    ensures short { IfOk result (λ o. IfNone o (length bytes.now ≤ 5 + limits.most)) }
    ensures some { IfOk result (λ o. IfSome o (λ x. 0 < x.1)) }
{
    pending_is_short();
    reads_again();
    match view(bytes, limits) {
        View::Whole(packet, size) => {
            let whole = if bytes.len() == size { whole } else { None };
            match packet.shared(alloc, whole) {
                Ok(packet) => Ok(Some((packet, size))),
                Err(_) => Err(DecodeError::Memory),
            }
        }
        View::More => Ok(None),
        View::Fault(fault) => Err(DecodeError::Fault(fault)),
    }
}
