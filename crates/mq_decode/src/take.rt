//! Packets from the front of bytes, one after another.

ghost use Rattle.std.specs.Prelude.{◌≡◌, ◌+◌, ◌<◌, ◌≤◌, ◌^◌, ◌++◌, [], ◌∷◌, length, take, drop, vec_len, vec_capacity, Err, IfOk, IfErr, IfNone, IfSome, IsFalse, IsTrue, OnOk, max};
ghost use Rattle.mq_decode.specs.Prelude.{Adds, Copies, counted_more, counted_next, Appends, Goes, IsAlone, IsFront, Pending, ReadsWithin, Stops, Takes, Wants, BeginsWith, EndsWith, LiesAtEnd, packet_of};
ghost use Rattle.mq_packet.specs.declared.packet.Packet.TheVariants as packets;

use crate::fault::DecodeError;
use crate::front::{acknowledgement, bare_packet, front, view};
use crate::header::{end_at, header_at};
use crate::held::Held;
use crate::limits::Limits;
use crate::packet_view::{PacketView, View};
use crate::publish::PublishView;
use bytes::Bytes;
use mq_packet::{Packet, Publish};
use mq_wire::{length_laws, number_laws, text_laws};
use std::alloc::{AllocError, Global};
use std::mem;

// Appends a packet. On `Err` the list is unchanged.
fn append(out: &mut Vec<Packet>, packet: Packet) -> Result<(), DecodeError>
    ensures ok { OnOk result (out.new.items ≡ out.old.items ++ packet ∷ []) }
    ensures err { IfErr result
        (λ e. (e ≡ DecodeError.Memory) × (out.new.items ≡ out.old.items)) }
{
    match out.push(packet) {
        Ok(()) => Ok(()),
        Err(_) => Err(DecodeError::Memory),
    }
}

/// The most bytes of which messages of a piece share one copy; a longer packet has one of its own.
const SHARED_COPY: usize = 4096;

/// The number of bytes to copy for a packet of `size` bytes and those behind it in `len` bytes: as
/// many whole packets of this size as fit into `most`, at least one.
pub(crate) fn copy_len(most: usize, size: usize, len: usize) -> usize
    requires { size ≤ len }
    ensures whole { size ≤ result }
    ensures within { result ≤ len }
    ensures most { result ≤ max most size }
    ensures alone { most < size → result ≡ size }
{
    if most < size {
        return size;
    }
    let many = most - most % size.max(1);
    many.max(size).min(len)
}

// Makes a copy of the front of the buffer with at least `size` bytes, unless it exists.
fn copy_front(alloc: Global, size: usize, bytes: &[u8], copy: &mut Bytes) -> Result<(), AllocError>
    requires within { size ≤ length bytes.now }
    requires copy { BeginsWith bytes.now copy.old }
    ensures copy { OnOk result (BeginsWith bytes.now copy.new) }
    ensures whole { OnOk result (size ≤ length copy.new) }
    ensures most { length copy.new ≤ max (length copy.old) (max 4096 size) }
{
    if size <= copy.len() {
        return Ok(());
    }
    let (front, _) = bytes.split_at(copy_len(SHARED_COPY, size, bytes.len()));
    *copy = Bytes::copy_from_slice(alloc, front)?;
    Ok(())
}

// The first `size` bytes, out of a copy of the front of all bytes, of which the rest is left.
fn share_front(
    alloc: Global,
    size: usize,
    bytes: &[u8],
    copy: &mut Bytes,
) -> Result<Bytes, AllocError>
    requires within { size ≤ length bytes.now }
    requires copy { BeginsWith bytes.now copy.old }
    ensures front { IfOk result (λ b. b ≡ take size bytes.now) }
    ensures copy { OnOk result (BeginsWith (drop size bytes.now) copy.new) }
{
    copy_front(alloc, size, bytes, copy)?;
    copy.split_to(size)
}

// Appends the packet behind a view, within room for it, if it has at most an identifier. Returns
// whether it does.
#[inline(always)]
fn push_plain(packet: &PacketView<'_>, out: &mut Vec<Packet>) -> bool
    requires { vec_len out.old < vec_capacity out.old }
    ensures yes { IsTrue result → out.new.items ≡ out.old.items ++ packet_of packet.now ∷ [] }
    ensures no { IsFalse result → out.new.items ≡ out.old.items }
    ensures room { IsFalse result → vec_len out.new < vec_capacity out.new }
{
    match packet {
        PacketView::PubAck(id) => out.push_reserved(Packet::PubAck(*id)),
        PacketView::PubRec(id) => out.push_reserved(Packet::PubRec(*id)),
        PacketView::PubRel(id) => out.push_reserved(Packet::PubRel(*id)),
        PacketView::PubComp(id) => out.push_reserved(Packet::PubComp(*id)),
        PacketView::UnsubAck(id) => out.push_reserved(Packet::UnsubAck(*id)),
        PacketView::PingReq => out.push_reserved(Packet::PingReq),
        PacketView::PingResp => out.push_reserved(Packet::PingResp),
        PacketView::Disconnect => out.push_reserved(Packet::Disconnect),
        _ => return false,
    }
    true
}

// Appends the owned packet behind a view. On `Err` the list is unchanged.
#[inline(always)]
fn append_alone(
    alloc: Global,
    packet: &PacketView<'_>,
    out: &mut Vec<Packet>,
) -> Result<(), DecodeError>
    ensures ok { OnOk result (out.new.items ≡ out.old.items ++ packet_of packet.now ∷ []) }
    ensures err { IfErr result
        (λ e. (e ≡ DecodeError.Memory) × (out.new.items ≡ out.old.items)) }
{
    if out.reserve(1).is_err() {
        return Err(DecodeError::Memory);
    }
    if push_plain(packet, out) {
        return Ok(());
    }
    match packet.owned(alloc) {
        Ok(packet) => {
            out.push_reserved(packet);
            Ok(())
        }
        Err(_) => Err(DecodeError::Memory),
    }
}

// The PUBLISH of its own that takes the first `size` bytes. It shares a copy of the front of all
// bytes, of which those that follow are left.
fn sharing_front(
    alloc: Global,
    publish: &PublishView<'_>,
    size: usize,
    bytes: &[u8],
    copy: &mut Bytes,
) -> Result<Publish, AllocError>
    requires within { size ≤ length bytes.now }
    requires end { EndsWith (take size bytes.now) publish.now.fields }
    requires copy { BeginsWith bytes.now copy.old }
    ensures publish { IfOk result (λ p. p ≡ publish.now.publish) }
    ensures copy { OnOk result (BeginsWith (drop size bytes.now) copy.new) }
{
    let packet = share_front(alloc, size, bytes, copy)?;
    publish.sharing(packet)
}

// Appends the PUBLISH of the first `size` bytes. On `Err` the list is unchanged.
fn append_publish(
    alloc: Global,
    publish: &PublishView<'_>,
    size: usize,
    bytes: &[u8],
    copy: &mut Bytes,
    out: &mut Vec<Packet>,
) -> Result<(), DecodeError>
    requires within { size ≤ length bytes.now }
    requires end { EndsWith (take size bytes.now) publish.now.fields }
    requires copy { BeginsWith bytes.now copy.old }
    ensures ok { OnOk result
        (out.new.items ≡ out.old.items ++ packets.Publish publish.now.publish ∷ []) }
    ensures copy { OnOk result (BeginsWith (drop size bytes.now) copy.new) }
    ensures err { IfErr result
        (λ e. (e ≡ DecodeError.Memory) × (out.new.items ≡ out.old.items)) }
{
    if out.reserve(1).is_err() {
        return Err(DecodeError::Memory);
    }
    match sharing_front(alloc, publish, size, bytes, copy) {
        Ok(publish) => {
            out.push_reserved(Packet::Publish(publish));
            Ok(())
        }
        Err(_) => Err(DecodeError::Memory),
    }
}

// Appends the packet behind a view of the first `size` bytes. A message shares a copy of the front
// of the buffer, whose rest is kept. On `Err` the list is unchanged.
#[inline(always)]
fn append_owned(
    alloc: Global,
    packet: &PacketView<'_>,
    size: usize,
    bytes: &[u8],
    copy: &mut Bytes,
    out: &mut Vec<Packet>,
) -> Result<(), DecodeError>
    requires within { size ≤ length bytes.now }
    requires end { LiesAtEnd (take size bytes.now) packet.now }
    requires copy { BeginsWith bytes.now copy.old }
    ensures ok { OnOk result (out.new.items ≡ out.old.items ++ packet_of packet.now ∷ []) }
    ensures copy { OnOk result (BeginsWith (drop size bytes.now) copy.new) }
    ensures err { IfErr result
        (λ e. (e ≡ DecodeError.Memory) × (out.new.items ≡ out.old.items)) }
{
    if let PacketView::Publish(publish) = packet {
        return append_publish(alloc, publish, size, bytes, copy, out);
    }
    copy.advance(size.min(copy.len()));
    append_alone(alloc, packet, out)
}

/// Appends the complete packets at the front, and returns their size.
pub(crate) fn take_packets(
    alloc: Global,
    limits: Limits,
    bytes: &[u8],
    out: &mut Vec<Packet>,
) -> Result<usize, DecodeError>
    ensures within { IfOk result (λ n. n ≤ length bytes.now) }
    ensures ok { IfOk result
        (λ n. Goes limits bytes.now out.old.items out.new.items (drop n bytes.now)) }
    ensures err { IfErr result (Stops limits bytes.now out.old.items out.new.items) }
{
    let mut taken = 0;
    // A copy of the next bytes, which messages share.
    let mut copy = Bytes::new();
    loop {
        let (_, rest) = bytes.split_at(taken);
        match view(rest, limits) {
            View::Whole(packet, size) => {
                append_owned(alloc, &packet, size, rest, &mut copy, out)?;
                taken += size;
            }
            View::More => return Ok(taken),
            View::Fault(fault) => return Err(DecodeError::Fault(fault)),
        }
    }
}

/// How many bytes the packet at the front still wants, as far as its header tells, and at least
/// one. A packet that these make whole ends with them.
pub(crate) fn wanted(limits: Limits, held: &[u8]) -> usize
    ensures some { 0 < result }
    ensures exact { Wants limits held.now result }
{
    number_laws();
    text_laws();
    length_laws();
    match header_at(limits, held) {
        Ok(Some(header)) => (header.start + header.size)
            .saturating_sub(held.len())
            .max(1),
        _ => 1,
    }
}

/// The number of missing bytes of the packet at the front, as its header states it; `None` if
/// nothing is pending.
pub(crate) fn lacking(limits: Limits, held: &[u8]) -> Option<usize>
    ensures some { IfSome result (λ n. 0 < n) }
    ensures pending { IfSome result (λ n. Pending limits held.now) }
    ensures exact { IfSome result (λ n. Wants limits held.now n) }
    ensures none { IfNone result (Pending limits held.now → ⊥) }
{
    number_laws();
    text_laws();
    length_laws();
    match end_at(limits, held) {
        Ok(Some(end)) => {
            if held.len() < end {
                Some(end - held.len())
            } else {
                None
            }
        }
        Ok(None) => Some(1),
        Err(_) => None,
    }
}

// Whether the header is whole, and as many bytes are there as it says.
fn is_complete(limits: Limits, held: &[u8]) -> bool
    ensures { IsTrue result → Pending limits held.now → ⊥ }
{
    number_laws();
    text_laws();
    length_laws();
    match header_at(limits, held) {
        Ok(Some(header)) => header.start + header.size <= held.len(),
        _ => false,
    }
}

/// The fewest bytes of a packet that takes the buffer in which it was held; of a shorter one the
/// parts are copied, and the buffer stays for the next.
const SHARED: usize = 1024;

/// The packet at the front of a buffer with its size. A packet that fills the buffer and isn't
/// small takes it over, and its payload shares it.
pub(crate) fn take_held(
    alloc: Global,
    limits: Limits,
    held: &mut Vec<u8>,
) -> Result<Option<(Packet, usize)>, DecodeError>
    ensures front { IsFront limits held.old.items result }
    ensures some { IfOk result (λ o. IfSome o (λ x. 0 < x.1)) }
    ensures short { IfOk result (λ o. IfNone o (length held.new.items ≤ 5 + limits.most)) }
    ensures kept { IfOk result (λ o. IfNone o (held.new.items ≡ held.old.items)) }
{
    if held.len() < SHARED || !is_complete(limits, held) {
        return front(alloc, limits, None, held);
    }
    let buffer = mem::replace(held, Vec::new(alloc));
    match Bytes::from_vec(buffer) {
        Ok(whole) => front(alloc, limits, Some(&whole), whole.as_slice()),
        Err(_) => Err(DecodeError::Memory),
    }
}

/// Completes the held packet with the bytes of `piece`. Returns it with the number of bytes used,
/// or `None` if all were used and it is still incomplete.
#[inline(never)]
pub(crate) fn fill_up(
    alloc: Global,
    limits: Limits,
    held: &mut Held,
    piece: &[u8],
) -> Result<Option<(Packet, usize)>, DecodeError>
    requires pending { Pending limits held.old.bytes }
    requires wants { Wants limits held.old.bytes held.old.wants }
    requires count { held.old.copied < 2 ^ 64 }
    ensures within { IfOk result (λ o. IfSome o (λ x. x.1 ≤ length piece.now)) }
    ensures packet { IfOk result (λ o. IfSome o
        (λ x. ReadsWithin limits x.0 (held.old.bytes ++ take x.1 piece.now))) }
    ensures taken { IfOk result (λ o. IfSome o (λ x. held.new.bytes ≡ [])) }
    ensures counted { IfOk result (λ o. IfSome o
        (λ x. held.new.copied ≡ counted_more held.old.copied x.1)) }
    ensures less { IfOk result (λ o. IfNone o (Pending limits (held.old.bytes ++ piece.now))) }
    ensures holds { IfOk result (λ o. IfNone o (held.new.bytes ≡ held.old.bytes ++ piece.now)) }
    ensures counted_all { IfOk result (λ o. IfNone o
        (held.new.copied ≡ counted_more held.old.copied (length piece.now))) }
    ensures wants { OnOk result (Wants limits held.new.bytes held.new.wants) }
    ensures err { IfErr result (λ e. IsFront limits (held.old.bytes ++ piece.now) (Err e)) }
{
    let mut used = 0;
    while used < piece.len() {
        let (_, rest) = piece.split_at(used);
        let wanted = held.want(limits);
        if rest.len() < wanted {
            held.hold(rest)?;
            return Ok(None);
        }
        let (next, _) = rest.split_at(wanted);
        held.hold(next)?;
        used += wanted;
        if let Some(found) = held.take(alloc, limits)? {
            held.clear(alloc);
            return Ok(Some((found.0, used)));
        }
    }
    // So that a short piece that follows is put behind these at once.
    held.want(limits);
    Ok(None)
}

// Takes the held packet, with its missing bytes from a piece. Returns the number of bytes used: all
// of them, or nothing is held any more.
fn take_first(
    alloc: Global,
    limits: Limits,
    held: &mut Held,
    piece: &[u8],
    out: &mut Vec<Packet>,
) -> Result<usize, DecodeError>
    requires pending { Pending limits held.old.bytes }
    requires wants { Wants limits held.old.bytes held.old.wants }
    ensures within { IfOk result (λ n. n ≤ length piece.now) }
    ensures used { IfOk result (λ n. n < length piece.now → held.new.bytes ≡ []) }
    ensures ok { IfOk result (λ n. Goes limits (held.old.bytes ++ take n piece.now)
        out.old.items out.new.items held.new.bytes) }
    ensures adds { IfOk result
        (λ n. Adds limits held.old.bytes (take n piece.now) (drop n piece.now)) }
    ensures copied { IfOk result (λ n. held.new.copied ≡ counted_more held.old.copied n) }
    ensures wants { OnOk result (Wants limits held.new.bytes held.new.wants) }
    ensures err { IfErr result
        (Stops limits (held.old.bytes ++ piece.now) out.old.items out.new.items) }
{
    if held.is_empty() {
        return Ok(0);
    }
    match fill_up(alloc, limits, held, piece)? {
        None => Ok(piece.len()),
        Some(found) => {
            append(out, found.0)?;
            Ok(found.1)
        }
    }
}

// Appends the held packet, which is complete or malformed. On `Err` the list is unchanged.
#[inline(never)]
fn append_any(
    alloc: Global,
    limits: Limits,
    held: &mut Held,
    out: &mut Vec<Packet>,
) -> Result<(), DecodeError>
    requires alone { IsAlone limits held.old.bytes }
    requires whole { Pending limits held.old.bytes → ⊥ }
    ensures ok { OnOk result (Appends limits held.old.bytes out.old.items out.new.items) }
    ensures copied { held.new.copied ≡ held.old.copied }
    ensures err { IfErr result (Stops limits held.old.bytes out.old.items out.new.items) }
{
    if held.as_slice().len() >= SHARED {
        return match held.take(alloc, limits)? {
            Some(found) => append(out, found.0),
            None => Ok(()),
        };
    }
    match view(held.as_slice(), limits) {
        View::Whole(packet, _) => append_alone(alloc, &packet, out),
        View::More => Ok(()),
        View::Fault(fault) => Err(DecodeError::Fault(fault)),
    }
}

// Appends the packet that is all of the bytes, within room for it, if it has two or four bytes and
// at most an identifier (3.4 to 3.7, 3.11 to 3.14). Returns whether it does.
#[inline(always)]
fn push_short(limits: Limits, bytes: &[u8], out: &mut Vec<Packet>) -> bool
    requires alone { IsAlone limits bytes.now }
    requires room { vec_len out.old < vec_capacity out.old }
    ensures yes { IsTrue result → Appends limits bytes.now out.old.items out.new.items }
    ensures no { IsFalse result → out.new.items ≡ out.old.items }
{
    number_laws();
    text_laws();
    length_laws();
    if let Some(packet) = acknowledgement(limits, bytes) {
        return push_plain(&packet, out);
    }
    match bare_packet(limits, bytes) {
        Some(packet) => push_plain(&packet, out),
        None => false,
    }
}

// Appends the held packet, which is complete or malformed. On `Err` the list is unchanged.
#[inline(always)]
fn append_held(
    alloc: Global,
    limits: Limits,
    held: &mut Held,
    out: &mut Vec<Packet>,
) -> Result<(), DecodeError>
    requires alone { IsAlone limits held.old.bytes }
    requires whole { Pending limits held.old.bytes → ⊥ }
    ensures ok { OnOk result (Appends limits held.old.bytes out.old.items out.new.items) }
    ensures copied { held.new.copied ≡ held.old.copied }
    ensures err { IfErr result (Stops limits held.old.bytes out.old.items out.new.items) }
{
    if out.reserve(1).is_err() {
        return Err(DecodeError::Memory);
    }
    if push_short(limits, held.as_slice(), out) {
        return Ok(());
    }
    append_any(alloc, limits, held, out)
}

// Takes the held packet if it is complete.
#[inline(never)]
fn take_whole(
    alloc: Global,
    limits: Limits,
    held: &mut Held,
    out: &mut Vec<Packet>,
) -> Result<(), DecodeError>
    requires { IsAlone limits held.old.bytes }
    ensures ok { OnOk result
        (Takes limits held.old.bytes out.old.items out.new.items held.new.bytes) }
    ensures copied { held.new.copied ≡ held.old.copied }
    ensures wants { OnOk result (Wants limits held.new.bytes held.new.wants) }
    ensures err { IfErr result (Stops limits held.old.bytes out.old.items out.new.items) }
{
    if held.lacks(limits) {
        return Ok(());
    }
    append_held(alloc, limits, held, out)?;
    held.clear(alloc);
    Ok(())
}

// Takes a byte behind the held ones.
#[inline(always)]
fn take_byte(
    alloc: Global,
    limits: Limits,
    held: &mut Held,
    byte: u8,
    out: &mut Vec<Packet>,
) -> Result<(), DecodeError>
    requires pending { Pending limits held.old.bytes }
    requires wants { Wants limits held.old.bytes held.old.wants }
    ensures ok { OnOk result (Goes limits (held.old.bytes ++ byte ∷ []) out.old.items
        out.new.items held.new.bytes) }
    ensures copied { OnOk result
        (Copies limits held.old.bytes (byte ∷ []) held.old.copied held.new.copied) }
    ensures wants { OnOk result (Wants limits held.new.bytes held.new.wants) }
    ensures err { IfErr result
        (Stops limits (held.old.bytes ++ byte ∷ []) out.old.items out.new.items) }
{
    held.hold_byte(byte)?;
    if held.waits() {
        return Ok(());
    }
    match take_whole(alloc, limits, held, out) {
        Ok(()) => Ok(()),
        Err(error) => Err(error),
    }
}

/// Takes the packets of a piece behind the held bytes.
#[inline(never)]
pub(crate) fn take_piece(
    alloc: Global,
    limits: Limits,
    held: &mut Held,
    piece: &[u8],
    out: &mut Vec<Packet>,
) -> Result<(), DecodeError>
    requires pending { Pending limits held.old.bytes }
    requires wants { Wants limits held.old.bytes held.old.wants }
    ensures ok { OnOk result (Goes limits (held.old.bytes ++ piece.now) out.old.items
        out.new.items held.new.bytes) }
    ensures copied { OnOk result
        (Copies limits held.old.bytes piece.now held.old.copied held.new.copied) }
    ensures wants { OnOk result (Wants limits held.new.bytes held.new.wants) }
    ensures err { IfErr result
        (Stops limits (held.old.bytes ++ piece.now) out.old.items out.new.items) }
{
    let used = take_first(alloc, limits, held, piece, out)?;
    if !held.is_empty() {
        return Ok(());
    }
    let (_, rest) = piece.split_at(used);
    let taken = take_packets(alloc, limits, rest, out)?;
    let (_, left) = rest.split_at(taken);
    if left.is_empty() {
        return Ok(());
    }
    held.hold(left)
}

/// Takes the packets of a piece behind the held bytes. A piece shorter than the known number of
/// missing bytes is only appended.
#[inline]
pub(crate) fn take_in(
    alloc: Global,
    limits: Limits,
    held: &mut Held,
    piece: &[u8],
    out: &mut Vec<Packet>,
) -> Result<(), DecodeError>
    requires pending { Pending limits held.old.bytes }
    requires wants { Wants limits held.old.bytes held.old.wants }
    ensures ok { OnOk result (Goes limits (held.old.bytes ++ piece.now) out.old.items
        out.new.items held.new.bytes) }
    ensures copied { OnOk result
        (Copies limits held.old.bytes piece.now held.old.copied held.new.copied) }
    ensures wants { OnOk result (Wants limits held.new.bytes held.new.wants) }
    ensures err { IfErr result
        (Stops limits (held.old.bytes ++ piece.now) out.old.items out.new.items) }
{
    if let [byte] = piece {
        return take_byte(alloc, limits, held, *byte, out);
    }
    if held.wants_over(piece) {
        return held.hold(piece);
    }
    match take_piece(alloc, limits, held, piece, out) {
        Ok(()) => Ok(()),
        Err(error) => Err(error),
    }
}
