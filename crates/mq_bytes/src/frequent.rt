//! The most frequent packets at the front of a buffer, found without a view of them.

ghost use Rattle.std.specs.Prelude.{◌≡◌, ◌+◌, ◌*◌, ◌≤◌, ◌++◌, ◌||◌, ℕ, List, length, drop, slice_range, true, IfSome};
ghost use Rattle.mq_bytes.specs.Prelude.{list_any, Length, counted, is_special, qos_number, IsTopicName, is_wildcard, bit, delivery_fields, publish_fields, IsIdentifier, Publication, fits_delivery, Bounds, Front, IsLocated, Lies, ShowsPublish, dup_of};

use crate::front_fields::{bare, delivery_parts, numbered};
use crate::places::{Field, PacketFields};
use mq_decode::Limits;
use mq_packet::{Delivery, PacketId};
use mq_topic::Qos;
use mq_wire::{LengthReading, length_at, length_laws, number_at, number_laws};

// The acknowledgement at the front (3.4 to 3.7, 3.11), if it is complete and valid.
#[inline(always)]
fn acknowledgement(bytes: &[u8]) -> Option<PacketFields>
    ensures { IfSome result (λ fields. (limits : Bounds) → 2 ≤ limits.most
        → IsLocated limits bytes.now (Front.Whole fields)) }
{
    number_laws();
    if bytes.len() < 4 || bytes[1] != 2 {
        return None;
    }
    let id = PacketId::new(number_at(bytes, 2))?;
    match bytes[0] {
        0x40 => Some(numbered(4, id, 4)),
        0x50 => Some(numbered(5, id, 4)),
        0x62 => Some(numbered(6, id, 4)),
        0x70 => Some(numbered(7, id, 4)),
        0xB0 => Some(numbered(11, id, 4)),
        _ => None,
    }
}

// The packet without fields at the front (3.12 to 3.14).
#[inline(always)]
fn without_fields(bytes: &[u8]) -> Option<PacketFields>
    ensures { IfSome result (λ fields. (limits : Bounds)
        → IsLocated limits bytes.now (Front.Whole fields)) }
{
    if bytes.len() < 2 || bytes[1] != 0 {
        return None;
    }
    match bytes[0] {
        0xC0 => Some(bare(12, 2)),
        0xD0 => Some(bare(13, 2)),
        0xE0 => Some(bare(14, 2)),
        _ => None,
    }
}

// The flags of a PUBLISH (3.3.1).
#[derive(Clone, Copy)]
struct Flags {
    dup: bool,
    qos: Qos,
    retain: bool,
}

// The flags in the first byte of a PUBLISH, unless its quality of service is 3.
#[inline(always)]
fn flags_of(first: u8) -> Option<Flags>
    ensures { IfSome result (λ flags.
        first ≡ 0x30 + 8 * bit flags.dup + 2 * qos_number flags.qos + bit flags.retain) }
{
    if first / 16 != 3 {
        return None;
    }
    let low = first % 16;
    let qos = Qos::from_number(low / 2 % 4)?;
    Some(Flags {
        dup: low / 8 == 1,
        qos,
        retain: low % 2 == 1,
    })
}

// The remaining length (2.2.3) behind the first byte, and the index behind it.
#[inline(always)]
fn length_behind(bytes: &[u8]) -> Option<(usize, usize)>
    ensures length { IfSome result (λ x. Length x.0 (slice_range bytes.now 1 x.1)) }
    ensures within { IfSome result (λ x. (2 ≤ x.1) × (x.1 ≤ length bytes.now)) }
{
    length_laws();
    match bytes {
        [_, size, ..] if *size < 128 => Some((usize::from(*size), 2)),
        [_, behind @ ..] => match length_at(behind) {
            LengthReading::Whole(size, count) => Some((size as usize, 1 + count)),
            _ => None,
        },
        [] => None,
    }
}

// Whether a byte can't stay in a topic name of ASCII: U+0000, `+`, `#`, or one beyond ASCII. Reads
// every byte before it returns, so that the compiler can test many at once.
#[tactic(auto, using(std::proofs::lemmas::List::Folds::list_any_more))]
fn has_other(bytes: &[u8]) -> bool
    ensures { result ≡ list_any (λ byte. is_special byte || is_wildcard byte) bytes.now }
{
    let mut found = false;
    for byte in bytes {
        found |= (*byte == 0) | (*byte > 127) | ((*byte == b'+') | (*byte == b'#'));
    }
    found
}

// The size of the topic name at the front (3.3.2.1), if it is of ASCII.
#[inline(always)]
fn name_size(fields: &[u8]) -> Option<usize>
    ensures within { IfSome result (λ size. 2 + size ≤ length fields.now) }
    ensures name { IfSome result (λ size. IsTopicName (slice_range fields.now 2 (2 + size))) }
    ensures parts { IfSome result (λ size.
        fields.now ≡ counted (slice_range fields.now 2 (2 + size)) ++ drop (2 + size) fields.now) }
{
    number_laws();
    if fields.len() < 2 {
        return None;
    }
    let size = usize::from(number_at(fields, 0));
    if size == 0 || fields.len() < 2 + size || has_other(&fields[2..2 + size]) {
        return None;
    }
    Some(size)
}

// The identifier and DUP of a PUBLISH whose identifier would be at index `at` (3.3.2.2).
#[inline(always)]
fn delivery(flags: Flags, fields: &[u8], at: usize) -> Option<Option<Delivery>>
    requires { at ≤ length fields.now }
    ensures fits { IfSome result (λ delivery. fits_delivery flags.qos delivery ≡ true) }
    ensures identifier { IfSome result (λ delivery. IfSome delivery (λ d. IsIdentifier d.id)) }
    ensures dup { IfSome result (λ delivery. dup_of delivery ≡ flags.dup) }
    ensures within { IfSome result (λ delivery.
        at + length (delivery_fields delivery) ≤ length fields.now) }
    ensures parts { IfSome result (λ delivery. drop at fields.now
        ≡ delivery_fields delivery ++ drop (at + length (delivery_fields delivery)) fields.now) }
{
    number_laws();
    if flags.qos == Qos::Q0 {
        return if flags.dup { None } else { Some(None) };
    }
    if fields.len() - at < 2 {
        return None;
    }
    let id = PacketId::new(number_at(fields, at))?;
    Some(Some(Delivery { id, dup: flags.dup }))
}

// A PUBLISH whose fields lie from `start` to `end`, with a topic name of `topic` bytes.
#[inline(always)]
fn published(
    flags: Flags,
    delivery: Option<Delivery>,
    topic: usize,
    start: usize,
    end: usize,
) -> PacketFields
    requires { start + 2 + topic + length (delivery_fields delivery) ≤ end }
    ensures shows { (b : List ℕ) (p : Publication) → Lies b start (publish_fields p)
        → p.message.qos ≡ flags.qos → p.message.retain ≡ flags.retain → p.delivery ≡ delivery
        → length p.message.topic ≡ topic → end ≡ start + length (publish_fields p)
        → ShowsPublish b result p }
    ensures size { result.size ≡ end }
{
    let mut fields = bare(3, end);
    fields.qos = flags.qos.number();
    fields.retain = flags.retain;
    let (id, dup, id_size) = delivery_parts(delivery);
    fields.id = id;
    fields.dup = dup;
    let at = start + 2;
    fields.topic = Field { at, size: topic };
    let at = at + topic + id_size;
    fields.payload = Field { at, size: end - at };
    fields
}

// The PUBLISH at the front (3.3), if it is complete and valid, with a topic name of ASCII.
#[inline(always)]
fn publish(bytes: &[u8], limits: Limits) -> Option<PacketFields>
    ensures { IfSome result (λ fields. IsLocated limits bytes.now (Front.Whole fields)) }
{
    length_laws();
    if bytes.is_empty() {
        return None;
    }
    let flags = flags_of(bytes[0])?;
    let header = length_behind(bytes)?;
    let (size, start) = header;
    if size > limits.max_packet() as usize || bytes.len() - start < size {
        return None;
    }
    let end = start + size;
    let fields = &bytes[start..end];
    let topic = name_size(fields)?;
    let delivery = delivery(flags, fields, 2 + topic)?;
    Some(published(flags, delivery, topic, start, end))
}

/// The packet at the front with the places of its fields, if it is one of the most frequent: an
/// acknowledgement, a packet without fields, or a PUBLISH with a topic name of ASCII. `None` says
/// nothing about the bytes.
#[inline(always)]
pub(crate) fn locate_frequent(bytes: &[u8], limits: Limits) -> Option<PacketFields>
    ensures { IfSome result (λ fields. IsLocated limits bytes.now (Front.Whole fields)) }
{
    let _ = limits.max_packet();
    if let Some(fields) = acknowledgement(bytes) {
        return Some(fields);
    }
    if let Some(fields) = without_fields(bytes) {
        return Some(fields);
    }
    publish(bytes, limits)
}
