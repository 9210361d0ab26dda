//! The encoding of PUBLISH and CONNACK into a caller's buffer (3.2, 3.3).

ghost use Rattle.std.specs.Prelude.{◌≡◌, ◌+◌, ◌*◌, ◌<◌, ◌≤◌, ◌^◌, ◌↔◌, IfOk, IsTrue, length};
ghost use Rattle.mq_bytes.specs.Prelude.{qos_number, IsTopicName, bit, IsConnAckOf, IsPublishOf, MayDeliver, Gives};

use crate::check::check_name;
use crate::encode::{encode, number};
use crate::fault::EncodeFault;
use mq_packet::RefusalCode;
use mq_topic::Qos;
use mq_wire::length_laws;

// A flag as a number.
pub(crate) fn bit(flag: bool) -> u8
    ensures value { result ≡ bit flag }
    ensures small { result < 2 }
{
    if flag { 1 } else { 0 }
}

/// Whether the bytes are a topic name (4.7).
pub(crate) fn is_name(bytes: &[u8]) -> bool
    ensures name { IsTrue result ↔ IsTopicName bytes.now }
    ensures short { IsTrue result → length bytes.now < 65536 }
{
    check_name(bytes).is_ok()
}

// Whether a PUBLISH with this quality of service has this DUP and identifier (2.3.1, 3.3.1.1).
fn may_deliver(qos: Qos, dup: bool, id: u16) -> bool
    ensures { IsTrue result ↔ MayDeliver qos dup id }
{
    match qos {
        Qos::Q0 => !dup && id == 0,
        Qos::Q1 | Qos::Q2 => id != 0,
    }
}

// The first byte (3.3.1).
fn first_byte(qos: Qos, retain: bool, dup: bool) -> u8
    ensures { result ≡ 0x30 + 8 * bit dup + 2 * qos_number qos + bit retain }
{
    0x30 + 8 * bit(dup) + 2 * qos.number() + bit(retain)
}

// Encodes a PUBLISH whose parts were tested.
#[tactic(auto, using(crate::proofs::Published::once_gives, crate::proofs::Published::more_gives))]
fn encode_tested(
    topic: &[u8],
    payload: &[u8],
    qos: Qos,
    retain: bool,
    dup: bool,
    id: u16,
    out: &mut [u8],
) -> Result<usize, EncodeFault>
    requires topic { IsTopicName topic.now }
    requires short { length topic.now < 65536 }
    requires payload { length payload.now < 2 ^ 28 }
    requires delivery { MayDeliver qos dup id }
    ensures small { IfOk result (λ n. n < 2 ^ 29) }
    ensures gives { Gives (IsPublishOf topic.now payload.now (qos_number qos) retain dup id) out.old out.new result }
{
    length_laws();
    let first = first_byte(qos, retain, dup);
    let size = number(topic.len() as u16);
    if id == 0 {
        return encode(out, first, &size, topic, &[], payload);
    }
    encode(out, first, &size, topic, &number(id), payload)
}

/// Encodes PUBLISH (3.3). With QoS 0, `dup` must be false and `id` 0.
#[tactic(auto, using(crate::proofs::Published::publish_named, crate::proofs::Published::publish_too_large, crate::proofs::Published::no_qos, crate::proofs::Published::no_name, crate::proofs::Published::no_delivery))]
pub fn encode_publish(
    topic: &[u8],
    payload: &[u8],
    qos: u8,
    retain: bool,
    dup: bool,
    id: u16,
    out: &mut [u8],
) -> Result<usize, EncodeFault>
    ensures small { IfOk result (λ n. n < 2 ^ 29) }
    ensures gives { Gives (IsPublishOf topic.now payload.now qos retain dup id) out.old out.new result }
{
    let Some(qos) = Qos::from_number(qos) else {
        return Err(EncodeFault::Argument);
    };
    if !is_name(topic) {
        return Err(EncodeFault::Argument);
    }
    if !may_deliver(qos, dup, id) {
        return Err(EncodeFault::Argument);
    }
    if payload.len() > 268_435_455 {
        return Err(EncodeFault::TooLarge);
    }
    encode_tested(topic, payload, qos, retain, dup, id, out)
}

/// Encodes CONNACK (3.2). With a return code other than 0, `session_present` must be false.
#[tactic(auto, using(crate::proofs::Published::accepted, crate::proofs::Published::refused, crate::proofs::Published::no_presence, crate::proofs::Published::no_refusal))]
pub fn encode_connack(session_present: bool, code: u8, out: &mut [u8]) -> Result<usize, EncodeFault>
    ensures small { IfOk result (λ n. n ≤ 7) }
    ensures gives { Gives (IsConnAckOf session_present code) out.old out.new result }
{
    length_laws();
    if code == 0 {
        return encode(out, 0x20, &[bit(session_present), 0], &[], &[], &[]);
    }
    if session_present {
        return Err(EncodeFault::Argument);
    }
    match RefusalCode::from_number(code) {
        Some(_) => encode(out, 0x20, &[0, code], &[], &[], &[]),
        None => Err(EncodeFault::Argument),
    }
}
