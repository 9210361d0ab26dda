//! Packets taken one at a time, whose messages share a copy of the bytes ahead.

ghost use Rattle.std.specs.Prelude.{◌≡◌, ◌<◌, ◌≤◌, ◌^◌, ◌++◌, [], length, take, Err, Ok, Some, IfOk, IfErr, IfNone, IfSome, IsTrue, OnOk};
ghost use Rattle.mq_decode.specs.Prelude.{counted_more, counted_next, front_at, BeginsWith, IsFront, Pending, ReadsWithin, Wants, packet_of};
ghost use Rattle.mq_packet.specs.declared.packet.Packet.TheVariants as packets;

use crate::fault::DecodeError;
use crate::front::{acknowledgement, bare_packet, publish_front, view};
use crate::held::Held;
use crate::laws::{pending_is_short, reads_again};
use crate::limits::Limits;
use crate::packet_view::{PacketView, View};
use crate::take::{copy_len, fill_up};
use bytes::Bytes;
use mq_packet::{Packet, Publish};
use mq_wire::{length_laws, number_laws, text_laws};
use std::alloc::{AllocError, Global};

/// The most bytes of which messages that are taken one at a time share one copy, since one may be
/// kept for long; a longer packet has one of its own.
const SHARED_AHEAD: usize = 1024;

// Whether a copy begins with these bytes.
fn begins_with(copy: &Bytes, front: &[u8]) -> bool
    ensures { IsTrue result → (length front.now ≤ length copy.now) × BeginsWith copy.now front.now }
{
    copy.as_slice().starts_with(front)
}

// The first `size` bytes, from the copy of the bytes ahead if it begins with them, otherwise from a
// new copy of the front of the buffer. The rest of the copy is kept for the next packets.
#[inline(always)]
fn share_ahead(
    alloc: Global,
    size: usize,
    bytes: &[u8],
    ahead: &mut Bytes,
) -> Result<Bytes, AllocError>
    requires { size ≤ length bytes.now }
    ensures front { IfOk result (λ b. b ≡ take size bytes.now) }
    ensures few { length ahead.old ≤ 1024 → length ahead.new ≤ 1024 }
{
    let (front, _) = bytes.split_at(size);
    if !begins_with(ahead, front) {
        let (many, _) = bytes.split_at(copy_len(SHARED_AHEAD, size, bytes.len()));
        *ahead = Bytes::copy_from_slice(alloc, many)?;
    }
    ahead.split_to(size)
}

// Skips the first `size` bytes in the copy of the bytes ahead, if it begins with them.
fn pass_ahead(size: usize, bytes: &[u8], ahead: &mut Bytes)
    requires { size ≤ length bytes.now }
    ensures few { length ahead.old ≤ 1024 → length ahead.new ≤ 1024 }
{
    let (front, _) = bytes.split_at(size);
    if begins_with(ahead, front) {
        ahead.advance(size);
    }
}

/// The complete PUBLISH at the front with its size, if there is one and memory suffices. It shares
/// a copy of its bytes and of those ahead. Never inlined: its stack frame would be zeroed for each
/// other packet.
#[inline(never)]
pub(crate) fn shared_publish(
    alloc: Global,
    limits: Limits,
    bytes: &[u8],
    ahead: &mut Bytes,
) -> Option<(Publish, usize)>
    ensures within { IfSome result (λ x. x.1 ≤ length bytes.now) }
    ensures packet { IfSome result (λ x. ReadsWithin limits (packets.Publish x.0) (take x.1 bytes.now)) }
    ensures few { length ahead.old ≤ 1024 → length ahead.new ≤ 1024 }
{
    number_laws();
    text_laws();
    length_laws();
    let (publish, size) = publish_front(limits, bytes)?;
    let Ok(packet) = share_ahead(alloc, size, bytes, ahead) else {
        return None;
    };
    match publish.sharing(packet) {
        Ok(publish) => Some((publish, size)),
        Err(_) => None,
    }
}

// The packet behind a view, if it has at most an identifier.
#[inline(always)]
fn plain(packet: &PacketView<'_>) -> Option<Packet>
    ensures { IfSome result (λ p. p ≡ packet_of packet.now) }
{
    match packet {
        PacketView::PubAck(id) => Some(Packet::PubAck(*id)),
        PacketView::PubRec(id) => Some(Packet::PubRec(*id)),
        PacketView::PubRel(id) => Some(Packet::PubRel(*id)),
        PacketView::PubComp(id) => Some(Packet::PubComp(*id)),
        PacketView::UnsubAck(id) => Some(Packet::UnsubAck(*id)),
        PacketView::PingReq => Some(Packet::PingReq),
        PacketView::PingResp => Some(Packet::PingResp),
        PacketView::Disconnect => Some(Packet::Disconnect),
        _ => None,
    }
}

// The packet at the front with its size, if it has at most an identifier (3.4 to 3.7, 3.11 to
// 3.14).
#[inline(always)]
fn short_front(limits: Limits, bytes: &[u8]) -> Option<(PacketView<'_>, usize)>
    ensures read { IfSome result (λ x. front_at limits bytes.now ≡ Ok (Some (packet_of x.0, x.1))) }
    ensures within { IfSome result (λ x. x.1 ≤ length bytes.now) }
{
    if let Some(packet) = acknowledgement(limits, bytes) {
        return Some((packet, 4));
    }
    match bare_packet(limits, bytes) {
        Some(packet) => Some((packet, 2)),
        None => None,
    }
}

// The complete packet at the front with its size, if it has at most an identifier. Skips it in the
// copy of the bytes ahead. Never inlined: its stack frame would be zeroed for each longer packet.
#[inline(never)]
fn take_short(limits: Limits, bytes: &[u8], ahead: &mut Bytes) -> Option<(Packet, usize)>
    ensures within { IfSome result (λ x. x.1 ≤ length bytes.now) }
    ensures packet { IfSome result (λ x. ReadsWithin limits x.0 (take x.1 bytes.now)) }
    ensures few { length ahead.old ≤ 1024 → length ahead.new ≤ 1024 }
{
    number_laws();
    text_laws();
    length_laws();
    let (view, size) = short_front(limits, bytes)?;
    let packet = plain(&view)?;
    pass_ahead(size, bytes, ahead);
    Some((packet, size))
}

// The owned packet at the front with its size, `None` if it is incomplete, or its first fault.
// Skips it in the copy of the bytes ahead; drops the copy if no packet is complete.
fn front_ahead(
    alloc: Global,
    limits: Limits,
    bytes: &[u8],
    ahead: &mut Bytes,
) -> Result<Option<(Packet, usize)>, DecodeError>
    ensures front { IsFront limits bytes.now result }
    ensures some { IfOk result (λ o. IfSome o (λ x. 0 < x.1)) }
    ensures few { length ahead.old ≤ 1024 → length ahead.new ≤ 1024 }
    ensures gone { IfOk result (λ o. IfNone o (ahead.new ≡ [])) }
{
    pending_is_short();
    reads_again();
    match view(bytes, limits) {
        View::Whole(packet, size) => {
            pass_ahead(size, bytes, ahead);
            match packet.owned(alloc) {
                Ok(packet) => Ok(Some((packet, size))),
                Err(_) => Err(DecodeError::Memory),
            }
        }
        View::More => {
            *ahead = Bytes::new();
            Ok(None)
        }
        View::Fault(fault) => Err(DecodeError::Fault(fault)),
    }
}

// Takes the next packet like `take_next`, however many bytes are missing.
#[inline(never)]
fn take_found(
    alloc: Global,
    limits: Limits,
    held: &mut Held,
    ahead: &mut Bytes,
    piece: &[u8],
) -> Result<Option<(Packet, usize)>, DecodeError>
    requires pending { Pending limits held.old.bytes }
    requires wants { Wants limits held.old.bytes held.old.wants }
    ensures within { IfOk result (λ o. IfSome o (λ x. x.1 ≤ length piece.now)) }
    ensures packet { IfOk result (λ o. IfSome o
        (λ x. ReadsWithin limits x.0 (held.old.bytes ++ take x.1 piece.now))) }
    ensures taken { IfOk result (λ o. IfSome o (λ x. held.new.bytes ≡ [])) }
    ensures counted { IfOk result (λ o. IfSome o
        (λ x. held.new.copied ≡ counted_next held.old.bytes held.old.copied x.1)) }
    ensures less { IfOk result (λ o. IfNone o (Pending limits (held.old.bytes ++ piece.now))) }
    ensures holds { IfOk result (λ o. IfNone o (held.new.bytes ≡ held.old.bytes ++ piece.now)) }
    ensures counted_all { IfOk result (λ o. IfNone o
        (held.new.copied ≡ counted_more held.old.copied (length piece.now))) }
    ensures wants { OnOk result (Wants limits held.new.bytes held.new.wants) }
    ensures err { IfErr result (λ e. IsFront limits (held.old.bytes ++ piece.now) (Err e)) }
    ensures few { length ahead.old ≤ 1024 → length ahead.new ≤ 1024 }
    ensures gone { IfOk result (λ o. IfNone o (ahead.new ≡ [])) }
{
    if !held.is_empty() {
        *ahead = Bytes::new();
        return fill_up(alloc, limits, held, piece);
    }
    match front_ahead(alloc, limits, piece, ahead)? {
        Some(found) => Ok(Some(found)),
        None if piece.is_empty() => Ok(None),
        None => {
            held.hold(piece)?;
            Ok(None)
        }
    }
}

/// Takes the next packet of the held bytes and a piece behind them. Returns it with the number of
/// bytes used of the piece, or `None` if they hold an incomplete packet; then the whole piece is
/// held. A piece shorter than the known number of missing bytes is only appended. A message that is
/// complete in the piece shares a copy of the bytes ahead, which is kept for the next call.
#[inline(never)]
pub(crate) fn take_next(
    alloc: Global,
    limits: Limits,
    held: &mut Held,
    ahead: &mut Bytes,
    piece: &[u8],
) -> Result<Option<(Packet, usize)>, DecodeError>
    requires pending { Pending limits held.old.bytes }
    requires wants { Wants limits held.old.bytes held.old.wants }
    ensures within { IfOk result (λ o. IfSome o (λ x. x.1 ≤ length piece.now)) }
    ensures packet { IfOk result (λ o. IfSome o
        (λ x. ReadsWithin limits x.0 (held.old.bytes ++ take x.1 piece.now))) }
    ensures taken { IfOk result (λ o. IfSome o (λ x. held.new.bytes ≡ [])) }
    ensures counted { IfOk result (λ o. IfSome o
        (λ x. held.new.copied ≡ counted_next held.old.bytes held.old.copied x.1)) }
    ensures less { IfOk result (λ o. IfNone o (Pending limits (held.old.bytes ++ piece.now))) }
    ensures holds { IfOk result (λ o. IfNone o (held.new.bytes ≡ held.old.bytes ++ piece.now)) }
    ensures counted_all { IfOk result (λ o. IfNone o
        (held.new.copied ≡ counted_more held.old.copied (length piece.now))) }
    ensures wants { OnOk result (Wants limits held.new.bytes held.new.wants) }
    ensures err { IfErr result (λ e. IsFront limits (held.old.bytes ++ piece.now) (Err e)) }
    ensures few { length ahead.old ≤ 1024 → length ahead.new ≤ 1024 }
    ensures gone { IfOk result (λ o. IfNone o (ahead.new ≡ [])) }
{
    if held.gets_nothing(piece) {
        *ahead = Bytes::new();
        return Ok(None);
    }
    if held.wants_over(piece) {
        *ahead = Bytes::new();
        held.hold(piece)?;
        return Ok(None);
    }
    if held.is_empty() {
        if let Some(found) = take_short(limits, piece, ahead) {
            return Ok(Some(found));
        }
    }
    take_found(alloc, limits, held, ahead, piece)
}
