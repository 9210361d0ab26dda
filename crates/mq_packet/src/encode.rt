//! Encoding of packets (chapter 3).

ghost use Rattle.std.specs.Prelude.{◌≡◌, ℕ, ◌+◌, ◌<◌, ◌≤◌, ◌^◌, ◌++◌, ◌∷◌, ◌↔◌, List, length, take, vec_len, vec_capacity, true, IsOk, OnOk, OnErr, IfErr, IfSome, IsSome, IsErrOf};
ghost use Rattle.mq_packet.specs.Prelude.{Length, length_bytes, fits_delivery, publication, Encodes, first_byte, fields, encoded_size};

use crate::encoded::put_bytes;
use crate::fields::{fields_len, publish_len, put_fields, put_publish};
use crate::message::Message;
use crate::packet::Packet;
use crate::publish::{Delivery, MessageRef};
use mq_wire::{length_laws, put_varlen, varlen_len};
use thiserror::Error;

/// Why a packet was not encoded.
#[derive(Clone, Copy, Debug, PartialEq, Eq, Error)]
pub enum EncodeError {
    /// Its remaining length would exceed 268,435,455 (2.2.3).
    #[error("the packet is too large")]
    TooLarge,
    /// An allocation failed.
    #[error("out of memory")]
    Memory,
}

fn publish_byte(message: MessageRef<'_>, delivery: &Option<Delivery>) -> u8
    ensures { result ≡ first_byte (Packet.Publish (publication message.entry delivery.now)) }
{
    let dup = match delivery {
        Some(delivery) => delivery.dup,
        None => false,
    };
    0x30 + 8 * u8::from(dup) + 2 * message.qos.number() + u8::from(message.retain)
}

// The packet type and the flags (2.2.1, 2.2.2).
fn first_byte(packet: &Packet) -> u8
    ensures { result ≡ first_byte packet.now }
{
    match packet {
        Packet::Connect(_) => 0x10,
        Packet::ConnAck(_) => 0x20,
        Packet::Publish(publish) => publish_byte(publish.message(), publish.delivery_ref()),
        Packet::PubAck(_) => 0x40,
        Packet::PubRec(_) => 0x50,
        Packet::PubRel(_) => 0x62,
        Packet::PubComp(_) => 0x70,
        Packet::Subscribe { .. } => 0x82,
        Packet::SubAck { .. } => 0x90,
        Packet::Unsubscribe { .. } => 0xa2,
        Packet::UnsubAck(_) => 0xb0,
        Packet::PingReq => 0xc0,
        Packet::PingResp => 0xd0,
        Packet::Disconnect => 0xe0,
    }
}

/// Returns the size of the encoded packet in bytes, or `None` if its remaining length would exceed
/// 268,435,455 (2.2.3).
pub fn encoded_len(packet: &Packet) -> Option<u32>
    ensures fits { IsSome result ↔ (length (fields packet.now) < 2 ^ 28) }
    ensures len { IfSome result
        (λ n. (bytes : List ℕ) → Encodes packet.now bytes → length bytes ≡ n) }
{
    let rest = fields_len(packet)?;
    let size = varlen_len(rest)?;
    Some(1 + size as u32 + rest)
}

// The encoded remaining length and its number of bytes (2.2.3).
fn length_of(rest: u32) -> ([u8; 4], usize)
    requires { rest < 2 ^ 28 }
    ensures formed { Length rest (length_bytes rest) }
    ensures size { result.1 ≡ length (length_bytes rest) }
    ensures bytes { take result.1 result.0 ≡ length_bytes rest }
{
    length_laws();
    let mut bytes = [0u8; 4];
    let size = put_varlen(rest, &mut bytes).unwrap();
    (bytes, size)
}

// Appends a remaining length. The vector must have room for it.
#[tactic(auto, using(crate::proofs::Headers::one_byte))]
fn put_length(out: &mut Vec<u8>, rest: u32)
    requires most { rest < 2 ^ 28 }
    requires room { vec_len out.old + length (length_bytes rest) ≤ vec_capacity out.old }
    ensures items { out.new.items ≡ out.old.items ++ length_bytes rest }
    ensures capacity { vec_capacity out.old ≤ vec_capacity out.new }
{
    if rest < 128 {
        out.push_reserved(rest as u8);
        return;
    }
    let (bytes, size) = length_of(rest);
    put_bytes(out, &bytes[..size]);
}

// Reserves room for the whole packet, and appends its first byte and its remaining length.
fn put_header(out: &mut Vec<u8>, first: u8, rest: u32) -> Result<(), EncodeError>
    requires { rest < 2 ^ 28 }
    ensures formed { Length rest (length_bytes rest) }
    ensures ok { OnOk result (out.new.items ≡ out.old.items ++ first ∷ length_bytes rest) }
    ensures room { OnOk result (vec_len out.new + rest ≤ vec_capacity out.new) }
    ensures succeeds { vec_len out.old + encoded_size rest ≤ vec_capacity out.old → IsOk result }
    ensures memory { IfErr result (λ why. why ≡ EncodeError.Memory) }
    ensures capacity { vec_capacity out.old ≤ vec_capacity out.new }
    ensures err { OnErr result (out.new.items ≡ out.old.items) }
{
    length_laws();
    let size = varlen_len(rest).unwrap();
    if out.reserve(1 + size + rest as usize).is_err() {
        return Err(EncodeError::Memory);
    }
    out.push_reserved(first);
    put_length(out, rest);
    Ok(())
}

/// Appends the encoding of a packet (chapter 3). On `Err`, `out` is unchanged. Does not allocate if
/// `out` has enough spare capacity. Errors: `TooLarge` if the remaining length would exceed
/// 268,435,455, `Memory` if the allocation fails.
pub fn encode_into(packet: &Packet, out: &mut Vec<u8>) -> Result<(), EncodeError>
    ensures ok { OnOk result
        ((bytes : List ℕ) × Encodes packet.now bytes × (out.new.items ≡ out.old.items ++ bytes)) }
    ensures too_large { IsErrOf result EncodeError.TooLarge ↔ (2 ^ 28 ≤ length (fields packet.now)) }
    ensures room { vec_len out.old + encoded_size (length (fields packet.now)) ≤ vec_capacity out.old
        → IfErr result (λ why. why ≡ EncodeError.TooLarge) }
    ensures capacity { vec_capacity out.old ≤ vec_capacity out.new }
    ensures err { OnErr result (out.new.items ≡ out.old.items) }
{
    let Some(rest) = fields_len(packet) else {
        return Err(EncodeError::TooLarge);
    };
    put_header(out, first_byte(packet), rest)?;
    put_fields(out, packet);
    Ok(())
}

/// Appends the encoding of a PUBLISH (3.3) of a borrowed message. `delivery` must be given exactly
/// for QoS 1 and 2. On `Err`, `out` is unchanged. Does not allocate if `out` has enough spare
/// capacity.
pub fn encode_publish_into(
    message: &Message,
    delivery: Option<Delivery>,
    out: &mut Vec<u8>,
) -> Result<(), EncodeError>
    requires { fits_delivery message.now.qos delivery ≡ true }
    ensures ok { let packet = Packet.Publish (record { message = message.now; delivery = delivery }) in OnOk result
        ((bytes : List ℕ) × Encodes packet bytes × (out.new.items ≡ out.old.items ++ bytes)) }
    ensures too_large { let packet = Packet.Publish (record { message = message.now; delivery = delivery }) in
        IsErrOf result EncodeError.TooLarge ↔ (2 ^ 28 ≤ length (fields packet)) }
    ensures room { let packet = Packet.Publish (record { message = message.now; delivery = delivery }) in
        vec_len out.old + encoded_size (length (fields packet)) ≤ vec_capacity out.old
        → IfErr result (λ why. why ≡ EncodeError.TooLarge) }
    ensures capacity { vec_capacity out.old ≤ vec_capacity out.new }
    ensures err { OnErr result (out.new.items ≡ out.old.items) }
{
    let Some(rest) = publish_len(message.as_parts(), &delivery) else {
        return Err(EncodeError::TooLarge);
    };
    let first = publish_byte(message.as_parts(), &delivery);
    put_header(out, first, rest)?;
    put_publish(out, message.as_parts(), &delivery);
    Ok(())
}
